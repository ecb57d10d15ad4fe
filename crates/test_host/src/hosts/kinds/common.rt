//! The host that sockets work for, and their queues.
ghost use Rattle.net_base.specs.Time.{IsMoment};

use ip_wire::{IpAddress, IpProtocol, IpVersion};
use net_base::{ChecksumCapabilities, Instant, ManagedSlice, PacketBuffer, PacketMetadata, Rand};
use sockets::{Context, icmp, raw, udp};
use std::alloc::{AllocError, Global};

/// A host at an instant.
#[derive(Drop)]
pub struct Host {
    pub now: Instant,
    pub words: Rand,
    /// Where packets are sent from. Without one, each destination's own address is the source.
    pub own: Option<IpAddress>,
    ghost instant: { IsMoment now },
}

impl Context for Host {
    ghost use Rattle.std.specs.Prelude.{refl, false, Some, None, unwrap_or};
    ghost use Rattle.net_base.specs.RandomWords.{next_state};
    ghost use Rattle.net_base.specs.Capabilities.{all_checksums};
    ghost use Rattle.net_base.specs.Checksum.TheVariants as checksum;

    ghost context = { λ c. record {
      instant = c.now;
      has_ip_addr = λ a. false;
      source_for = λ a. Some (unwrap_or c.own a);
      is_broadcast = λ a. false;
      ip_mtu =
          1500;
      checksums = all_checksums checksum.Both;
      isn_key = None;
      random = c.words;
    } };

    ghost drawn = { λ c. record c { words = next_state c.words } };

    fn now(&self) -> Instant {
        self.now
    }

    fn has_ip_addr(&self, _addr: &IpAddress) -> bool {
        false
    }

    fn get_source_address(&self, dst_addr: &IpAddress) -> Option<IpAddress> {
        Some(self.own.unwrap_or(*dst_addr))
    }

    fn is_broadcast(&self, _addr: &IpAddress) -> bool {
        false
    }

    fn ip_mtu(&self) -> usize {
        1500
    }

    fn checksum_caps(&self) -> ChecksumCapabilities {
        ChecksumCapabilities::default()
    }

    fn isn_key(&self) -> Option<[u8; 16]> {
        None
    }

    fn rand_u32(&mut self) -> u32 {
        self.words.rand_u32()
    }

    ghost drawn_context = { λ c. refl };
}

/// A host at instant 0, whose random words begin at seed 1.
pub fn make_host(own: Option<IpAddress>) -> Host {
    Host {
        now: Instant::ZERO,
        words: Rand::new(1),
        own,
    }
}

/// A queue of two entries and so many bytes.
fn queue<H: Clone + Drop>(alloc: Global, bytes: usize) -> Result<PacketBuffer<H>, AllocError> {
    let entries = vec![in alloc; PacketMetadata::EMPTY; 2]?;
    let room = zeros(alloc, bytes)?;
    Ok(PacketBuffer::new(ManagedSlice::Fixed(entries), ManagedSlice::Fixed(room)))
}

/// An unbound socket with room for so many bytes each way.
pub fn udp_socket(alloc: Global, room: usize) -> Result<udp::Socket, AllocError> {
    Ok(udp::Socket::new(queue(alloc, room)?, queue(alloc, room)?))
}

/// The same with room for 64.
pub fn icmp_socket(alloc: Global) -> Result<icmp::Socket, AllocError> {
    Ok(icmp::Socket::new(queue(alloc, 64)?, queue(alloc, 64)?))
}

/// The same of this version and protocol, if it is of one.
pub fn raw_socket(
    alloc: Global,
    version: Option<IpVersion>,
    protocol: Option<IpProtocol>,
) -> Result<raw::Socket, AllocError> {
    Ok(raw::Socket::new(version, protocol, queue(alloc, 64)?, queue(alloc, 64)?))
}

/// So many bytes 0.
pub fn zeros(alloc: Global, count: usize) -> Result<Vec<u8>, AllocError> {
    vec![in alloc; 0; count]
}
