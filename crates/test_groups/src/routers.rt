//! Router advertisements of radvd, and which of others Linux takes.
use hex::decode;
use wire_address::{EthernetAddress, Ipv6Address};
use wire_router::{OptionBytes, PrefixInformation, RouterAdvert, RouterOption, RouterPreference};

/// What radvd sends.
const RADVD: &str =
    "860054553200001e00004e20000005dc030440c0000002580000012c0000000020010db80001000000000000000000000304404000000258000000000000000020010db8000f00000000000000000000180330000000003c20010db8007700000000000000000000190300000000002820010db80001000000000000000000531f03000000000028076578616d706c65036f72670000000005010000000005780101020000000001";

/// What it is, the message, and whether Linux has a default route by it.
const MESSAGES: [(&str, &str, bool); 6] = [
    (
        "one as it should be",
        "86002d3c40000708000000000000000001010200000000010501000000000578030440c000015180000038400000000020010db8000100000000000000000000",
        true,
    ),
    (
        "code 1",
        "86013ac6400007080000000000000000030440c000015180000038400000000020010db8000100000000000000000000",
        false,
    ),
    (
        "an option of length 0 behind the prefix",
        "86002ff7400007080000000000000000030440c000015180000038400000000020010db800010000000000000000000005000000000005c8",
        false,
    ),
    (
        "an option past the end",
        "86002ff5400007080000000000000000030440c000015180000038400000000020010db800010000000000000000000005020000000005c8",
        false,
    ),
    (
        "an unknown option before the prefix",
        "860072bd400007080000000000000000c801000000000000030440c000015180000038400000000020010db8000100000000000000000000",
        true,
    ),
    (
        "3 bytes behind the last option",
        "86003ac4400007080000000000000000030440c000015180000038400000000020010db8000100000000000000000000000000",
        false,
    ),
];

/// What the options say, as far as there is room.
fn says(options: &[u8]) -> [RouterOption; 8] {
    let mut said = [RouterOption::Other; 8];
    let mut rest = options;
    for it in &mut said {
        let Ok((option, following)) = OptionBytes::parse(rest) else {
            break;
        };
        *it = RouterOption::of(option.option_type, option.inside);
        rest = following;
    }
    said
}

fn prefix(
    octets: [u16; 3],
    on_link: bool,
    addrconf: bool,
    preferred_lifetime: u32,
) -> RouterOption {
    RouterOption::PrefixInformation(PrefixInformation {
        prefix_len: 64,
        on_link,
        addrconf,
        valid_lifetime: 600,
        preferred_lifetime,
        prefix: Ipv6Address::new(octets[0], octets[1], octets[2], 0, 0, 0, 0, 0),
    })
}

#[test]
fn radvd_is_read(rt: HostRuntime) {
    let bytes = decode(rt.alloc(), RADVD).expect(&rt, "digits");
    let message = bytes.as_slice();
    let wanted = RouterAdvert {
        hop_limit: 50,
        managed: false,
        other: false,
        preference: RouterPreference::Medium,
        router_lifetime: 30,
        reachable_time: 20_000,
        retrans_time: 1500,
    };
    assert!(rt; RouterAdvert::parse(message) == Ok(wanted));
    let said = says(&message[16..]);
    assert!(rt; said[0] == prefix([0x2001, 0xdb8, 1], true, true, 300));
    assert!(rt; said[1] == prefix([0x2001, 0xdb8, 15], false, true, 0));
    assert!(rt; said[2] == RouterOption::Other);
    assert!(rt;
        said[3]
            == RouterOption::RecursiveDnsServers {
                lifetime: 40,
                count: 1
            }
    );
    assert!(rt; said[4] == RouterOption::Other);
    assert!(rt; said[5] == RouterOption::Mtu(1400));
    assert!(rt; said[6] == RouterOption::SourceLinkLayerAddr(EthernetAddress([2, 0, 0, 0, 0, 1])));
}

#[test]
fn advertisements_are_taken_as_by_linux(rt: HostRuntime) {
    for (what, digits, wanted) in MESSAGES {
        let bytes = decode(rt.alloc(), digits).expect(&rt, "digits");
        assert!(rt;
            RouterAdvert::parse(bytes.as_slice()).is_ok() == wanted,
            "{what}"
        );
    }
}
