//! What each of two sockets knows of the network that it is in.
ghost use Rattle.std.specs.Prelude.{◌≡◌, pos};
ghost use Rattle.net_base.specs.Time.{IsMoment};
ghost use Rattle.tcp_refinement.specs.Pair.Values.{address_of, source_at};
ghost use Rattle.tcp_pair.specs.Context.{seed_of};

use ip_wire::{IpAddress, Ipv4Address};
use net_base::{ChecksumCapabilities, Instant, Rand};
use socket_context::Context;
use socket_context::addresses::is_same_address;
use std::marker::Model;
use tcp_refinement::pair::Side;

/// The longest IP packet that a frame holds.
pub const IP_MTU: usize = 1500;

/// What a side of a pair knows: the one IPv4 address 192.168.1.1 (A) or 192.168.1.2 (B), an IP MTU of 1500,
/// all checksums handled both ways, the random words of seed 1 (A) or 2 (B), and its last instant.
#[derive(Debug, Drop)]
pub struct PairContext {
    side: Side,
    instant: Instant,
    words: Rand,
}

impl Model for PairContext {
    ghost use Rattle.net_base.specs.Time.{IsMoment};
    ghost use Rattle.tcp_pair.specs.Context.{PairContextValue};

    ghost Value = { PairContextValue };

    ghost view = { λ c. record { side = c.side; instant = c.instant; random = c.words } };

    ghost invariant = { λ c. IsMoment c.instant };
}

impl PairContext {
    /// The context of a side at instant 0.
    pub fn new(side: Side) -> PairContext
        ensures { result ≡ record { side = side; instant = pos 0; random = seed_of side } }
    {
        let seed = match side {
            Side::A => 1,
            Side::B => 2,
        };
        PairContext {
            side,
            instant: Instant::ZERO,
            words: Rand::new(seed),
        }
    }

    /// Which side it is.
    pub fn side(&self) -> Side
        ensures { result ≡ self.now.side }
    {
        self.side
    }

    /// The address of the side.
    pub fn address(&self) -> Ipv4Address
        ensures { result ≡ address_of self.now.side }
    {
        match self.side {
            Side::A => Ipv4Address::new(192, 168, 1, 1),
            Side::B => Ipv4Address::new(192, 168, 1, 2),
        }
    }

    /// Goes on to an instant.
    pub fn set_now(&mut self, instant: Instant)
        requires { IsMoment instant }
        ensures { self.new ≡ record self.old { instant = instant } }
    {
        self.instant = instant;
    }
}

impl Context for PairContext {
    ghost use Rattle.std.specs.Prelude.{refl};
    ghost use Rattle.tcp_pair.specs.Context.{context_of, drawn};

    ghost context = { context_of };

    ghost drawn = { drawn };

    fn now(&self) -> Instant {
        self.instant
    }

    fn has_ip_addr(&self, addr: &IpAddress) -> bool {
        is_same_address(addr, &IpAddress::Ipv4(self.address()))
    }

    fn get_source_address(&self, dst_addr: &IpAddress) -> Option<IpAddress> {
        match dst_addr {
            IpAddress::Ipv4(_) => Some(IpAddress::Ipv4(self.address())),
            IpAddress::Ipv6(_) => None,
        }
    }

    fn is_broadcast(&self, addr: &IpAddress) -> bool {
        is_same_address(addr, &IpAddress::Ipv4(Ipv4Address::BROADCAST))
    }

    fn ip_mtu(&self) -> usize {
        IP_MTU
    }

    fn checksum_caps(&self) -> ChecksumCapabilities {
        ChecksumCapabilities::default()
    }

    fn isn_key(&self) -> Option<[u8; 16]> {
        None
    }

    fn rand_u32(&mut self) -> u32 {
        self.words.rand_u32()
    }

    ghost drawn_context = { λ c. refl };
}
