//! What the clients ask.
ghost use Rattle.net_base.specs.Time.{IsMoment};

use ip_wire::{IpAddress, Ipv4Address, Ipv6Address};
use net_base::{ChecksumCapabilities, Instant, Rand};
use sockets::Context;

/// The address of the host, of each family.
pub(crate) const ADDRESS_V4: Ipv4Address = Ipv4Address([10, 7, 0, 69]);

pub(crate) const ADDRESS_V6: Ipv6Address = Ipv6Address([
    0xfd, 0, 0, 0, 0, 0, 0, 0, 0, 0, 0, 0, 0, 0, 0, 69,
]);

/// A host at an instant.
#[derive(Drop)]
pub(crate) struct Host {
    pub(crate) now: Instant,
    words: Rand,
    ghost instant: { IsMoment now },
}

impl Host {
    /// A host whose random words come from a seed.
    pub(crate) fn new(seed: u64) -> Host {
        Host {
            now: Instant::ZERO,
            words: Rand::new(seed),
        }
    }

    /// Sets the instant, the last one where there is none so late.
    pub(crate) fn set_now(&mut self, micros: u64) {
        self.now = Instant::from_micros(micros.min(1 << 61) as i64);
    }
}

impl Context for Host {
    ghost use Rattle.std.specs.Prelude.{refl, false, Some, None, Option, ◌∷◌, []};
    ghost use Rattle.ip_wire.specs.IpAddress.{IpAddress};
    ghost use Rattle.ip_wire.specs.IpAddress.TheVariants as Ip;
    ghost use Rattle.net_base.specs.RandomWords.{next_state};
    ghost use Rattle.net_base.specs.Capabilities.{all_checksums};
    ghost use Rattle.net_base.specs.Checksum.TheVariants as checksum;
    ghost use Rattle.app_cases.specs.Source.{source_for};

    ghost context = { λ c. record {
      instant = c.now;
      has_ip_addr = λ a. false;
      source_for = source_for;
      is_broadcast = λ a. false;
      ip_mtu = 1500;
      checksums =
          all_checksums checksum.Both;
      isn_key = None;
      random = c.words;
    } };

    ghost drawn = { λ c. record c { words = next_state c.words } };

    fn now(&self) -> Instant {
        self.now
    }

    fn has_ip_addr(&self, _addr: &IpAddress) -> bool {
        false
    }

    fn get_source_address(&self, dst_addr: &IpAddress) -> Option<IpAddress> {
        match dst_addr {
            IpAddress::Ipv4(_) => Some(IpAddress::Ipv4(ADDRESS_V4)),
            IpAddress::Ipv6(_) => Some(IpAddress::Ipv6(ADDRESS_V6)),
        }
    }

    fn is_broadcast(&self, _addr: &IpAddress) -> bool {
        false
    }

    fn ip_mtu(&self) -> usize {
        1500
    }

    fn checksum_caps(&self) -> ChecksumCapabilities {
        ChecksumCapabilities::default()
    }

    fn isn_key(&self) -> Option<[u8; 16]> {
        None
    }

    fn rand_u32(&mut self) -> u32 {
        self.words.rand_u32()
    }

    ghost drawn_context = { λ c. refl };
}
