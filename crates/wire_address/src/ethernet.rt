//! Ethernet addresses and the numbers of what a frame carries.
ghost use Rattle.std.specs.Prelude.{◌≡◌, ◌↔◌, IsTrue, Some, length};
ghost use Rattle.wire_address.specs.Address.{IsEthernetBroadcast, IsEthernetMulticast, IsEthernetLocal, IsEthernetUnicast};
ghost use Rattle.wire_address.specs.AddressTests.{is_ethernet_broadcast, is_ethernet_multicast, is_ethernet_local, is_ethernet_unicast};
ghost use Rattle.wire_address.specs.Protocol.{ether_number, ether_of};
ghost use Rattle.wire_address.specs.Text.{Reads, IsEthernetText, ethernet_text, ether_text};

use crate::text::{HexPair, six_bytes};
use std::fmt;
use std::str::FromStr;

/// A six-byte Ethernet address, in the order in which its bytes are sent.
#[derive(Clone, Copy, Debug, PartialEq, Eq, PartialOrd, Ord, Hash)]
pub struct EthernetAddress(pub [u8; 6]);

impl EthernetAddress {
    /// The address of all hardware addresses.
    pub const BROADCAST: EthernetAddress = EthernetAddress([0xff; 6]);

    /// The address of the six bytes.
    pub fn from_bytes(bytes: &[u8]) -> EthernetAddress
        requires { length bytes.now ≡ 6 }
        ensures { result.0 ≡ bytes.now }
    {
        let mut octets = [0; 6];
        octets.copy_from_slice(bytes);
        EthernetAddress(octets)
    }

    /// The bytes of the address.
    pub const fn as_bytes(&self) -> &[u8]
        ensures { result.now ≡ self.now.0 }
    {
        &self.0
    }

    /// Whether the address is that of all hardware addresses.
    pub fn is_broadcast(&self) -> bool
        ensures value { result ≡ is_ethernet_broadcast self.now }
        ensures meaning { IsTrue result ↔ IsEthernetBroadcast self.now }
    {
        self.0 == [0xff; 6]
    }

    /// Whether the address names a group of hardware addresses; all hardware addresses are one.
    pub const fn is_multicast(&self) -> bool
        ensures value { result ≡ is_ethernet_multicast self.now }
        ensures meaning { IsTrue result ↔ IsEthernetMulticast self.now }
    {
        self.0[0] & 0x01 == 1
    }

    /// Whether the address was given by a network's own hand and not by a maker.
    pub const fn is_local(&self) -> bool
        ensures value { result ≡ is_ethernet_local self.now }
        ensures meaning { IsTrue result ↔ IsEthernetLocal self.now }
    {
        (self.0[0] >> 1) & 0x01 == 1
    }

    /// Whether the address names one hardware address.
    pub fn is_unicast(&self) -> bool
        ensures value { result ≡ is_ethernet_unicast self.now }
        ensures meaning { IsTrue result ↔ IsEthernetUnicast self.now }
    {
        !(self.is_broadcast() || self.is_multicast())
    }
}

impl fmt::Display for EthernetAddress {
    ghost output = { λ a. Some (ethernet_text a.0) };

    fn fmt<W: fmt::Write>(&self, f: &mut fmt::Formatter<W>) -> fmt::Result {
        let [a, b, c, d, e, g] = self.0;
        write!(
            f,
            "{}-{}-{}-{}-{}-{}",
            HexPair(a),
            HexPair(b),
            HexPair(c),
            HexPair(d),
            HexPair(e),
            HexPair(g)
        )
    }
}

/// Reads six groups of one or two hex digits, with `-` or with `:` between them.
impl FromStr for EthernetAddress {
    type Err = ();

    ghost from_str_gives = { Reads IsEthernetText };

    fn from_str(s: &str) -> Result<EthernetAddress, ()> {
        match six_bytes(s, '-') {
            Some(address) => Ok(address),
            None => six_bytes(s, ':').ok_or(()),
        }
    }
}

/// What an Ethernet frame carries, by its number in the frame's header.
#[derive(Clone, Copy, Debug, PartialEq, Eq, PartialOrd, Ord, Hash)]
pub enum EthernetProtocol {
    Ipv4,
    Arp,
    Ipv6,
    /// Any other number. A known one here stands for the same protocol as its own variant, and
    /// is not equal to it.
    Unknown(u16),
}

impl From<u16> for EthernetProtocol {
    ghost from_gives = { λ n protocol. protocol ≡ ether_of n };

    fn from(value: u16) -> EthernetProtocol {
        match value {
            0x0800 => EthernetProtocol::Ipv4,
            0x0806 => EthernetProtocol::Arp,
            0x86dd => EthernetProtocol::Ipv6,
            other => EthernetProtocol::Unknown(other),
        }
    }
}

impl From<EthernetProtocol> for u16 {
    ghost from_gives = { λ protocol n. n ≡ ether_number protocol };

    fn from(value: EthernetProtocol) -> u16 {
        match value {
            EthernetProtocol::Ipv4 => 0x0800,
            EthernetProtocol::Arp => 0x0806,
            EthernetProtocol::Ipv6 => 0x86dd,
            EthernetProtocol::Unknown(other) => other,
        }
    }
}

impl fmt::Display for EthernetProtocol {
    ghost output = { λ protocol. Some (ether_text protocol) };

    fn fmt<W: fmt::Write>(&self, f: &mut fmt::Formatter<W>) -> fmt::Result {
        match self {
            EthernetProtocol::Ipv4 => write!(f, "IPv4"),
            EthernetProtocol::Arp => write!(f, "ARP"),
            EthernetProtocol::Ipv6 => write!(f, "IPv6"),
            EthernetProtocol::Unknown(number) => {
                let (high, low) = ((*number / 256) as u8, (*number % 256) as u8);
                write!(f, "0x{}{}", HexPair(high), HexPair(low))
            }
        }
    }
}
