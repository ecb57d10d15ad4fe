//! What a socket sees of a host when it is asked for a packet, or when it wants to be polled.
ghost use Rattle.std.specs.Prelude.{◌≡◌};
ghost use Rattle.iface_tables.specs.Inner.{mtu_by_destination, context_towards};
ghost use Rattle.iface_tables.specs.Looks.{look_context};

use crate::inner::InterfaceInner;
use ip_wire::IpAddress;
use net_base::{ChecksumCapabilities, Instant, Rand};
use socket_context::Context;

/// A look at a host, in which packets may be as long as the path to one destination carries. It draws no random words from the host:
/// its own begin at 0.
#[derive(Drop)]
pub struct Look<'a> {
    inner: &'a InterfaceInner,
    mtu: usize,
    rand: Rand,
}

impl<'a> Look<'a> {
    /// A look at this host by a socket that sends to this destination alone, or to several.
    pub fn towards(inner: &'a InterfaceInner, destination: &Option<IpAddress>) -> Look<'a>
        ensures { look_context result ≡ context_towards inner.now destination.now }
    {
        Look {
            inner,
            mtu: mtu_by_destination(inner, destination),
            rand: Rand::new(0),
        }
    }
}

/// How long a packet may be of a socket that sends to this destination alone, or to several.
fn mtu_by_destination(inner: &InterfaceInner, destination: &Option<IpAddress>) -> usize
    ensures { result ≡ mtu_by_destination inner.now destination.now }
{
    match destination {
        Some(destination) => inner.mtu_to(destination),
        None => inner.mtu(),
    }
}

impl<'a> Context for Look<'a> {
    ghost use Rattle.std.specs.Prelude.{refl};
    ghost use Rattle.net_base.specs.RandomWords.{next_state};
    ghost use Rattle.iface_tables.specs.Looks.{look_context};

    ghost context = { look_context };

    ghost drawn = { λ l. record l { rand = next_state l.rand } };

    fn now(&self) -> Instant {
        self.inner.now()
    }

    fn has_ip_addr(&self, addr: &IpAddress) -> bool {
        self.inner.has_ip_addr(addr)
    }

    fn get_source_address(&self, dst_addr: &IpAddress) -> Option<IpAddress> {
        self.inner.get_source_address(dst_addr)
    }

    fn is_broadcast(&self, addr: &IpAddress) -> bool {
        self.inner.is_broadcast(addr)
    }

    fn ip_mtu(&self) -> usize {
        self.mtu
    }

    fn checksum_caps(&self) -> ChecksumCapabilities {
        self.inner.checksum_caps()
    }

    fn isn_key(&self) -> Option<[u8; 16]> {
        self.inner.isn_key()
    }

    fn rand_u32(&mut self) -> u32 {
        self.rand.rand_u32()
    }

    ghost drawn_context = { λ l. refl };
}
