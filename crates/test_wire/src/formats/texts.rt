//! Readers of texts for the other tests, and texts of endpoints that one listens at. `app_decode` reads and prints the others.
use crate::cases::{all, prints};
use ip_wire::{
    Error, IpAddress, IpCidr, IpEndpoint, IpListenEndpoint, Ipv4Address, Ipv6Address, Ipv6Cidr,
    address_laws,
};

pub fn ipv4(text: &str) -> Option<Ipv4Address> {
    text.parse().ok()
}

pub fn ipv6(text: &str) -> Option<Ipv6Address> {
    text.parse().ok()
}

/// An address of either family.
pub fn either(text: &str) -> Option<IpAddress> {
    text.parse().ok()
}

/// A block of either family.
pub fn cidr(text: &str) -> Option<IpCidr> {
    text.parse().ok()
}

pub fn ipv6_cidr(text: &str) -> Option<Ipv6Cidr> {
    text.parse().ok()
}

#[test]
fn prints_listening_endpoints(rt: HostRuntime) {
    let there = IpAddress::v6(0xfd00, 0, 0, 0, 0, 0, 0, 1);
    let listening = IpListenEndpoint::from(IpEndpoint::new(there, 53));
    // An endpoint of port 0 is none.
    let (none, zero) = (IpListenEndpoint::default(), at_port(0));
    let alloc = rt.alloc();
    all(
        &rt,
        &[
            prints(alloc, &listening, "fd00::1:53"),
            prints(alloc, &at_port(80), "*:80"),
            prints(alloc, &Error, "wire::Error"),
            is_specified(&listening),
            is_listening(&IpListenEndpoint::from((there, 53)), &listening),
            !is_specified(&none),
            is_listening(&none, &zero),
            is_listening(&address_laws::default_listen_endpoint(), &zero),
        ],
    );
}

/// This port of all addresses.
fn at_port(port: u16) -> IpListenEndpoint {
    IpListenEndpoint::from(port)
}

fn is_specified(endpoint: &IpListenEndpoint) -> bool {
    endpoint.is_specified()
}

fn is_listening(endpoint: &IpListenEndpoint, wanted: &IpListenEndpoint) -> bool {
    *endpoint == *wanted
}
