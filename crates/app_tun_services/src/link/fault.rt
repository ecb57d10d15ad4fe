//! What is wrong with a frame that came, as its own bytes say.
ghost use Rattle.std.specs.Prelude.{◌≡◌, ◌<◌, ◌^◌};
ghost use Rattle.wire_address.specs.Fields.{be16};
ghost use Rattle.app_tun_services.specs.Link.Fault.{kind_of, fault_of, fault_v4, fault_v6, fault_carried, sum_with, is_datagram_right, with_fault};

use crate::link::reset::{byte_at, head_len};
use net_base::Medium;
use wire_address::checksum::{combine, data};

/// What is wrong with a frame.
#[derive(Clone, Copy, Debug, PartialEq, Eq)]
pub enum Fault {
    /// It is neither IP nor, on Ethernet, ARP.
    Unknown,
    /// The lengths in its IP header don't fit, or the checksum of an IPv4 header is wrong.
    Header,
    /// The checksum of what it carries is wrong, or the length of a datagram.
    Checksum,
}

/// How many frames came with each fault.
#[derive(Clone, Copy, Debug, PartialEq, Eq)]
pub struct Faults {
    pub unknown: u64,
    pub header: u64,
    pub checksum: u64,
}

impl Faults {
    /// None came.
    pub const NONE: Faults = Faults {
        unknown: 0,
        header: 0,
        checksum: 0,
    };

    /// One frame more with this fault, if there is one.
    pub(crate) fn count(&mut self, fault: Option<Fault>)
        ensures { self.new ≡ with_fault fault self.old }
    {
        match fault {
            Some(Fault::Unknown) => self.unknown = self.unknown.saturating_add(1),
            Some(Fault::Header) => self.header = self.header.saturating_add(1),
            Some(Fault::Checksum) => self.checksum = self.checksum.saturating_add(1),
            None => {}
        }
    }
}

/// What a frame carries.
#[derive(Clone, Copy, Debug, PartialEq, Eq)]
enum Kind {
    V4,
    V6,
    Arp,
    Unknown,
}

/// The number of the two bytes at a slot, the highest first; bytes past the end count as 0.
fn number_at(bytes: &[u8], at: usize) -> u16
    requires { at < 2 ^ 32 }
    ensures { result ≡ be16 bytes.now at }
{
    byte_at(bytes, at) as u16 * 256 + byte_at(bytes, at + 1) as u16
}

fn kind_of(medium: Medium, frame: &[u8]) -> Kind
    ensures { result ≡ kind_of medium frame.now }
{
    match medium {
        Medium::Ethernet => match number_at(frame, 12) {
            0x0800 => Kind::V4,
            0x86dd => Kind::V6,
            0x0806 => Kind::Arp,
            _ => Kind::Unknown,
        },
        Medium::Ip => match byte_at(frame, 0) / 16 {
            4 => Kind::V4,
            6 => Kind::V6,
            _ => Kind::Unknown,
        },
    }
}

/// What is wrong with a frame, if anything is.
pub(crate) fn fault_of(medium: Medium, frame: &[u8]) -> Option<Fault>
    ensures { result ≡ fault_of medium frame.now }
{
    let head = head_len(medium).min(frame.len());
    match kind_of(medium, frame) {
        Kind::V4 => fault_v4(&frame[head..]),
        Kind::V6 => fault_v6(&frame[head..]),
        Kind::Arp => None,
        Kind::Unknown => Some(Fault::Unknown),
    }
}

fn fault_v4(packet: &[u8]) -> Option<Fault>
    ensures { result ≡ fault_v4 packet.now }
{
    let head = (byte_at(packet, 0) % 16) as usize * 4;
    let total = number_at(packet, 2) as usize;
    if head < 20 || total < head || packet.len() < total {
        return Some(Fault::Header);
    }
    if data(&packet[..head]) != 0xffff {
        return Some(Fault::Header);
    }
    if number_at(packet, 6) % 16384 != 0 {
        return None;
    }
    fault_carried(byte_at(packet, 9), &packet[12..20], &packet[head..total])
}

fn fault_v6(packet: &[u8]) -> Option<Fault>
    ensures { result ≡ fault_v6 packet.now }
{
    let total = 40 + number_at(packet, 4) as usize;
    if packet.len() < total {
        return Some(Fault::Header);
    }
    fault_carried(byte_at(packet, 6), &packet[8..40], &packet[40..total])
}

/// What is wrong with what a whole packet carries, if its protocol has a checksum.
fn fault_carried(protocol: u8, addresses: &[u8], payload: &[u8]) -> Option<Fault>
    ensures { result ≡ fault_carried protocol addresses.now payload.now }
{
    let is_right = match protocol {
        1 => data(payload) == 0xffff,
        6 | 58 => sum_with(protocol, addresses, payload) == 0xffff,
        17 => is_datagram_right(addresses, payload),
        _ => true,
    };
    if is_right {
        None
    } else {
        Some(Fault::Checksum)
    }
}

/// The one's complement sum of a payload and of what stands before it in a checksum: the addresses, the protocol, and the length.
fn sum_with(protocol: u8, addresses: &[u8], payload: &[u8]) -> u16
    ensures { result ≡ sum_with protocol addresses.now payload.now }
{
    let len = (payload.len() % 65536) as u16;
    combine(&[data(addresses), protocol as u16, len, data(payload)])
}

/// Whether a datagram's length fits, and its checksum holds. Over IPv4 it may have none.
fn is_datagram_right(addresses: &[u8], payload: &[u8]) -> bool
    ensures { result ≡ is_datagram_right addresses.now payload.now }
{
    let len = number_at(payload, 4) as usize;
    if len < 8 || payload.len() < len {
        return false;
    }
    if addresses.len() == 8 && number_at(payload, 6) == 0 {
        return true;
    }
    sum_with(17, addresses, &payload[..len]) == 0xffff
}
