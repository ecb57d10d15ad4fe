//! Addresses of the medium below IP.
ghost use Rattle.std.specs.Prelude.{◌≡◌, ◌↔◌, ◌-◌, ◌≤◌, [], ◌++◌, length, take, replicate, IsTrue, IfOk, IsOk, Some};
ghost use Rattle.wire_address.specs.declared.hardware.HardwareAddress.TheVariants as Hardware;
ghost use Rattle.wire_address.specs.AddressTests.{is_hardware_unicast, is_hardware_broadcast};
ghost use Rattle.wire_address.specs.Address.{hardware_bytes, IsHardwareUnicast, IsHardwareBroadcast};

use crate::Error;
use crate::ethernet::EthernetAddress;
use crate::text::HexPair;
use base_device::Medium;
use std::fmt;

/// The most bytes that a hardware address has.
pub const MAX_HARDWARE_ADDRESS_LEN: usize = 6;

/// The address of an interface on its medium.
#[derive(Clone, Copy, Debug, PartialEq, Eq, PartialOrd, Ord, Hash)]
pub enum HardwareAddress {
    /// The medium carries IP packets alone and has no addresses.
    Ip,
    Ethernet(EthernetAddress),
}

impl HardwareAddress {
    /// The bytes of the address, none on a medium without addresses.
    pub const fn as_bytes(&self) -> &[u8]
        ensures { result.now ≡ hardware_bytes self.now }
    {
        match self {
            HardwareAddress::Ip => &[],
            HardwareAddress::Ethernet(address) => address.as_bytes(),
        }
    }

    /// Whether the address names one hardware address.
    pub fn is_unicast(&self) -> bool
        ensures value { result ≡ is_hardware_unicast self.now }
        ensures meaning { IsTrue result ↔ IsHardwareUnicast self.now }
    {
        match self {
            HardwareAddress::Ip => false,
            HardwareAddress::Ethernet(address) => address.is_unicast(),
        }
    }

    /// Whether the address is that of all hardware addresses.
    pub fn is_broadcast(&self) -> bool
        ensures value { result ≡ is_hardware_broadcast self.now }
        ensures meaning { IsTrue result ↔ IsHardwareBroadcast self.now }
    {
        match self {
            HardwareAddress::Ip => false,
            HardwareAddress::Ethernet(address) => address.is_broadcast(),
        }
    }
}

impl From<EthernetAddress> for HardwareAddress {
    ghost from_gives = { λ a address. address ≡ Hardware.Ethernet a };

    fn from(value: EthernetAddress) -> HardwareAddress {
        HardwareAddress::Ethernet(value)
    }
}

impl fmt::Display for HardwareAddress {
    ghost use Rattle.wire_address.specs.Text.{hardware_text};

    ghost output = { λ a. Some (hardware_text a) };

    fn fmt<W: fmt::Write>(&self, f: &mut fmt::Formatter<W>) -> fmt::Result {
        match self {
            HardwareAddress::Ip => write!(f, "no hardware addr"),
            HardwareAddress::Ethernet(address) => write!(f, "{address}"),
        }
    }
}

/// The bytes of a hardware address of any kind, as neighbour messages carry them.
#[derive(Clone, Copy, Debug, PartialEq, Eq, PartialOrd, Ord, Hash)]
pub struct RawHardwareAddress {
    bytes: [u8; MAX_HARDWARE_ADDRESS_LEN],
    len: u8,
    ghost in_range: { len ≤ 6 },
    ghost whole: { length (take len bytes) ≡ len },
    // After the address stand zeros, so that equal addresses have equal fields.
    ghost zeros: { take len bytes ++ replicate (6 - len) 0 ≡ bytes },
}

impl RawHardwareAddress {
    ghost use Rattle.wire_address.specs.Hardware.{raw_bytes};

    /// The address of these bytes.
    pub fn from_bytes(from: &[u8]) -> RawHardwareAddress
        requires { length from.now ≤ MAX_HARDWARE_ADDRESS_LEN }
        ensures { raw_bytes result ≡ from.now }
    {
        let mut bytes = [0; MAX_HARDWARE_ADDRESS_LEN];
        bytes[..from.len()].copy_from_slice(from);
        RawHardwareAddress {
            bytes,
            len: from.len() as u8,
        }
    }

    /// The bytes of the address.
    pub fn as_bytes(&self) -> &[u8]
        ensures { result.now ≡ raw_bytes self.now }
    {
        &self.bytes[..self.len as usize]
    }

    /// How many bytes the address has.
    pub const fn len(&self) -> usize
        ensures { result ≡ length (raw_bytes self.now) }
    {
        self.len as usize
    }

    /// Whether the address has no bytes.
    pub const fn is_empty(&self) -> bool
        ensures { IsTrue result ↔ (raw_bytes self.now ≡ []) }
    {
        self.len == 0
    }

    /// The address that these bytes are on the medium: an `Error` on a medium without addresses,
    /// or unless they are six.
    pub fn parse(&self, medium: Medium) -> Result<HardwareAddress, Error>
        ensures found { IfOk result (λ a. hardware_bytes a ≡ raw_bytes self.now) }
        ensures only { IsOk result ↔ ((medium ≡ Medium.Ethernet) × (length (raw_bytes self.now) ≡ 6)) }
    {
        match medium {
            Medium::Ethernet if self.len() == 6 => Ok(HardwareAddress::Ethernet(
                EthernetAddress::from_bytes(self.as_bytes()),
            )),
            _ => Err(Error),
        }
    }
}

impl From<EthernetAddress> for RawHardwareAddress {
    ghost use Rattle.wire_address.specs.Hardware.{raw_bytes};

    ghost from_gives = { λ a raw. raw_bytes raw ≡ a.0 };

    fn from(value: EthernetAddress) -> RawHardwareAddress {
        RawHardwareAddress::from_bytes(value.as_bytes())
    }
}

impl From<HardwareAddress> for RawHardwareAddress {
    ghost use Rattle.wire_address.specs.Hardware.{raw_bytes};

    ghost from_gives = { λ a raw. raw_bytes raw ≡ hardware_bytes a };

    fn from(value: HardwareAddress) -> RawHardwareAddress {
        RawHardwareAddress::from_bytes(value.as_bytes())
    }
}

impl fmt::Display for RawHardwareAddress {
    ghost use Rattle.wire_address.specs.Hardware.{raw_bytes};
    ghost use Rattle.wire_address.specs.Text.{raw_hardware_text};

    ghost output = { λ a. Some (raw_hardware_text (raw_bytes a)) };

    fn fmt<W: fmt::Write>(&self, f: &mut fmt::Formatter<W>) -> fmt::Result {
        match self.as_bytes() {
            [] => Ok(()),
            [a] => write!(f, "{}", HexPair(*a)),
            [a, b] => write!(f, "{}:{}", HexPair(*a), HexPair(*b)),
            [a, b, c] => write!(f, "{}:{}:{}", HexPair(*a), HexPair(*b), HexPair(*c)),
            [a, b, c, d] => write!(
                f,
                "{}:{}:{}:{}",
                HexPair(*a),
                HexPair(*b),
                HexPair(*c),
                HexPair(*d)
            ),
            [a, b, c, d, e] => write!(
                f,
                "{}:{}:{}:{}:{}",
                HexPair(*a),
                HexPair(*b),
                HexPair(*c),
                HexPair(*d),
                HexPair(*e)
            ),
            [a, b, c, d, e, g] => write!(
                f,
                "{}:{}:{}:{}:{}:{}",
                HexPair(*a),
                HexPair(*b),
                HexPair(*c),
                HexPair(*d),
                HexPair(*e),
                HexPair(*g)
            ),
            _ => unreachable!(),
        }
    }
}
