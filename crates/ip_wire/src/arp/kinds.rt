//! Kinds of hardware addresses and operations, by their numbers.
ghost use Rattle.std.specs.Prelude.{◌≡◌, ◌<◌};
ghost use Rattle.ip_wire.specs.Arp.{hardware_number, hardware_of, operation_number, operation_of};

/// A kind of hardware addresses, by its number.
#[derive(Clone, Copy, Debug, PartialEq, Eq, PartialOrd, Ord, Hash)]
pub enum ArpHardware {
    Ethernet,
    /// Any other number.
    Unknown(u16),
}

impl From<u16> for ArpHardware {
    ghost from_gives = { λ n kind. kind ≡ hardware_of n };

    fn from(value: u16) -> ArpHardware {
        match value {
            1 => ArpHardware::Ethernet,
            other => ArpHardware::Unknown(other),
        }
    }
}

impl From<ArpHardware> for u16 {
    ghost from_gives = { λ kind n. n ≡ hardware_number kind };

    fn from(value: ArpHardware) -> u16 {
        match value {
            ArpHardware::Ethernet => 1,
            ArpHardware::Unknown(other) => other,
        }
    }
}

/// What a packet is for, by its number.
#[derive(Clone, Copy, Debug, PartialEq, Eq, PartialOrd, Ord, Hash)]
pub enum ArpOperation {
    Request,
    Reply,
    /// Any other number.
    Unknown(u16),
}

impl From<u16> for ArpOperation {
    ghost from_gives = { λ n operation. operation ≡ operation_of n };

    fn from(value: u16) -> ArpOperation {
        match value {
            1 => ArpOperation::Request,
            2 => ArpOperation::Reply,
            other => ArpOperation::Unknown(other),
        }
    }
}

impl From<ArpOperation> for u16 {
    ghost from_gives = { λ operation n. n ≡ operation_number operation };

    fn from(value: ArpOperation) -> u16 {
        match value {
            ArpOperation::Request => 1,
            ArpOperation::Reply => 2,
            ArpOperation::Unknown(other) => other,
        }
    }
}
