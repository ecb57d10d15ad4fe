//! CIDR blocks, their masks and their ends.
use crate::cases::{Case, all, all_hold};
use crate::formats::texts::{cidr, either};
use ip_wire::{
    AddressExt, Error, IPV6_LINK_LOCAL_ALL_NODES, IpAddress, IpCidr, Ipv4Address, Ipv4Cidr,
    Ipv6Address, Ipv6Cidr,
};
use std::alloc::Global;

const WITHIN: Ipv4Address = Ipv4Address([192, 168, 1, 77]);

/// The block of the addresses that have their first 26 bits alike with that one.
fn of_26_bits() -> Ipv4Cidr {
    Ipv4Cidr::new(WITHIN, 26)
}

/// The mask of the block, the address it was made of, and how many bits.
fn parts(cidr: &Ipv4Cidr) -> (Ipv4Address, Ipv4Address, u8) {
    (cidr.netmask(), cidr.address(), cidr.prefix_len())
}

/// The address of all hosts of the block.
fn last(cidr: &Ipv4Cidr) -> Option<Ipv4Address> {
    cidr.broadcast()
}

const MASK: Ipv4Address = Ipv4Address([255, 255, 255, 192]);

// RFC 4632 and RFC 919: blocks, their masks and their ends.
#[test]
fn ipv4_blocks_have_ends(rt: HostRuntime) {
    let cidr = of_26_bits();
    let two = Ipv4Cidr::new(Ipv4Address([10, 0, 0, 1]), 31);
    let whole = Ipv4Cidr::new(Ipv4Address::UNSPECIFIED, 0);
    all(
        &rt,
        &[
            whole.contains_subnet(&cidr),
            !cidr.contains_subnet(&whole),
            whole.contains_addr(&Ipv4Address::BROADCAST),
            parts(&cidr) == (MASK, WITHIN, 26),
            cidr.network() == Ipv4Cidr::new(Ipv4Address([192, 168, 1, 64]), 26),
            last(&cidr) == Some(Ipv4Address([192, 168, 1, 127])),
            last(&two) == None,
        ],
    );
}

/// Whether the address with this last byte is in the block of 192.168.1.64 to 192.168.1.127.
struct Held(u8, bool);

impl Case for Held {
    fn holds(&self, _alloc: Global) -> bool {
        of_26_bits().contains_addr(&Ipv4Address([192, 168, 1, self.0])) == self.1
    }
}

const HELD: [Held; 4] = [
    Held(63, false),
    Held(64, true),
    Held(127, true),
    Held(128, false),
];

fn is_made_of(mask: Ipv4Address, wanted: Result<Ipv4Cidr, Error>) -> bool {
    Ipv4Cidr::from_netmask(WITHIN, mask) == wanted
}

/// A block, an address or a block, and whether the one holds the other.
struct Holds(&'static str, Inner, bool);

enum Inner {
    Address(&'static str),
    Cidr(&'static str),
}

impl Case for Holds {
    fn holds(&self, _alloc: Global) -> bool {
        is_held(self.0, &self.1) == Some(self.2)
    }
}

fn is_held(outer: &str, inner: &Inner) -> Option<bool> {
    let outer = cidr(outer)?;
    match inner {
        Inner::Address(text) => Some(outer.contains_addr(&either(text)?)),
        Inner::Cidr(text) => Some(outer.contains_subnet(&cidr(text)?)),
    }
}

static HOLDS: [Holds; 7] = [
    Holds("2001:db8::/48", Inner::Cidr("2001:db8:0:8000::/49"), true),
    Holds("2001:db8:0:8000::/49", Inner::Cidr("2001:db8::/48"), false),
    Holds(
        "2001:db8::/48",
        Inner::Address("2001:db8::ffff:0:0:0:1"),
        true,
    ),
    Holds("2001:db8::/48", Inner::Address("2001:db8:1::"), false),
    Holds("0.0.0.0/0", Inner::Address("2001:db8::ffff:0:0:0:1"), false),
    Holds("0.0.0.0/0", Inner::Cidr("2001:db8::/48"), false),
    Holds("::/0", Inner::Cidr("2001:db8::/48"), true),
];

#[test]
fn holds_the_right_addresses(rt: HostRuntime) {
    all_hold(&rt, &HELD);
    all_hold(&rt, &HOLDS);
    let none = Ipv4Cidr::new(Ipv4Address::UNSPECIFIED, 0);
    let whole = Ipv6Cidr::new(Ipv6Address::UNSPECIFIED, 0);
    all(
        &rt,
        &[
            whole.contains_addr(&IPV6_LINK_LOCAL_ALL_NODES),
            cidr("0.0.0.0/0") == Some(IpCidr::from(none)),
            cidr("::/0") == Some(IpCidr::from(whole)),
        ],
    );
}

/// How many ones an address has, if they come before all zeros.
fn ones(text: &str) -> Option<u8> {
    either(text)?.prefix_len()
}

/// How many bits a block names.
fn bits(text: &str) -> Option<u8> {
    Some(cidr(text)?.prefix_len())
}

#[test]
fn masks_have_bits_and_make_blocks(rt: HostRuntime) {
    let inside = IpAddress::v6(0x2001, 0xdb8, 0, 0xffff, 0, 0, 0, 1);
    let mask = Ipv4Address([255, 255, 254, 0]);
    all(
        &rt,
        &[
            mask.prefix_len() == Some(23),
            is_made_of(mask, Ok(Ipv4Cidr::new(WITHIN, 23))),
            is_made_of(Ipv4Address::UNSPECIFIED, Err(Error)),
            is_made_of(Ipv4Address([255, 0, 255, 0]), Err(Error)),
            is_made_of(Ipv4Address([0, 255, 0, 0]), Err(Error)),
            either("2001:db8::ffff:0:0:0:1") == Some(inside),
            IpCidr::new(inside, 48).address() == inside,
            bits("2001:db8::/48") == Some(48),
            ones("ffff:ff80::") == Some(25),
            ones("2001:db8::ffff:0:0:0:1") == None,
        ],
    );
}
