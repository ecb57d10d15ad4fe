//! Of which datagram a fragment is.
ghost use Rattle.std.specs.Prelude.{◌≡◌};
ghost use Rattle.iface_tables.specs.Room.{is_same_source};

use ip_wire::{Ipv4FragKey, Ipv6Address};

/// What tells the fragments of one cut IPv6 packet from those of others (RFC 8200, section 4.5).
#[derive(Clone, Copy, Debug, PartialEq, Eq)]
pub struct Ipv6FragKey {
    pub id: u32,
    pub src_addr: Ipv6Address,
    pub dst_addr: Ipv6Address,
}

/// What tells the fragments of one cut packet from those of others: in IPv4 the protocol, too.
#[derive(Clone, Copy, Debug, PartialEq, Eq)]
pub enum FragKey {
    Ipv4(Ipv4FragKey),
    Ipv6(Ipv6FragKey),
}

impl FragKey {
    /// Whether the other datagram is from the same source.
    pub fn has_source_of(&self, other: &FragKey) -> bool
        ensures { result ≡ is_same_source self.now other.now }
    {
        match (self, other) {
            (FragKey::Ipv4(one), FragKey::Ipv4(other)) => one.src_addr.0 == other.src_addr.0,
            (FragKey::Ipv6(one), FragKey::Ipv6(other)) => one.src_addr.0 == other.src_addr.0,
            _ => false,
        }
    }
}
