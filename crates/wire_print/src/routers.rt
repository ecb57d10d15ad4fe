//! Router messages of ICMPv6.
ghost use Rattle.std.specs.Prelude.{◌<◌, ◌≤◌, ◌^◌, length};

use crate::put::Out;
use control_wire::Icmpv6Packet;
use ip_wire::Ipv6Address;
use wire_router::{OptionBytes, PrefixInformation, RouterAdvert, RouterOption, RouterPreference};

/// A router advertisement between these addresses, with its options, a line each.
pub(crate) fn put_router_advert(
    out: &mut Out<'_>,
    source: &Ipv6Address,
    destination: &Ipv6Address,
    bytes: &[u8],
    advert: &RouterAdvert,
)
    requires whole { 4 ≤ length bytes.now }
    requires small { length bytes.now < 2 ^ 32 }
{
    let packet = Icmpv6Packet::new_unchecked(bytes);
    let is_good = packet.verify_checksum(source, destination);
    out.put_text("ICMPv6 ");
    out.put_where(!is_good, "bad checksum, ");
    put_advert(out, advert);
    out.put("; type ", u8::from(packet.msg_type()));
    out.put(", code ", packet.msg_code());
    out.put_tested(packet.checksum(), is_good);
    out.end_line();
    put_options(out, bytes.get(16..).unwrap_or(&[]));
}

fn put_advert(out: &mut Out<'_>, advert: &RouterAdvert) {
    out.put("router advertisement, hop limit ", advert.hop_limit);
    out.put_where(advert.managed, ", managed");
    out.put_where(advert.other, ", other");
    out.put_text(match advert.preference {
        RouterPreference::Low => ", low preference",
        RouterPreference::Medium => "",
        RouterPreference::High => ", high preference",
    });
    out.put(", lifetime ", advert.router_lifetime);
    out.put(", reachable ", advert.reachable_time);
    out.put(", retrans ", advert.retrans_time);
}

fn put_options(out: &mut Out<'_>, options: &[u8]) {
    let mut rest = options;
    for _ in 0..options.len() {
        let Ok((option, following)) = OptionBytes::parse(rest) else {
            break;
        };
        put_option(out, &option);
        out.end_line();
        rest = following;
    }
}

fn put_option(out: &mut Out<'_>, option: &OptionBytes<'_>) {
    out.put("option ", option.option_type);
    match RouterOption::of(option.option_type, option.inside) {
        RouterOption::SourceLinkLayerAddr(address) => out.put(": source ", address),
        RouterOption::PrefixInformation(prefix) => put_prefix(out, &prefix),
        RouterOption::Mtu(mtu) => out.put(": MTU ", mtu),
        RouterOption::RecursiveDnsServers { lifetime, .. } => {
            out.put(": DNS servers, lifetime ", lifetime);
            put_addresses(out, option.inside.get(6..).unwrap_or(&[]));
        }
        RouterOption::Nonce | RouterOption::Other => out.put_hex(": ", option.inside),
    }
}

fn put_prefix(out: &mut Out<'_>, prefix: &PrefixInformation) {
    out.put(": prefix ", prefix.prefix);
    out.put("/", prefix.prefix_len);
    out.put_where(prefix.on_link, ", on-link");
    out.put_where(prefix.addrconf, ", addrconf");
    out.put(", valid ", prefix.valid_lifetime);
    out.put(", preferred ", prefix.preferred_lifetime);
}

fn put_addresses(out: &mut Out<'_>, bytes: &[u8]) {
    for address in bytes.chunks_exact(16) {
        let mut octets = [0; 16];
        octets.copy_from_slice(address);
        out.put(", ", Ipv6Address(octets));
    }
}
