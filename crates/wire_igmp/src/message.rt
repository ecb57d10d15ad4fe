//! What a message is, by its type, and the versions of the protocol.
ghost use Rattle.std.specs.Prelude.{◌≡◌, Some};
ghost use Rattle.wire_igmp.specs.IgmpMessage.{message_number, message_of, report_number, message_text};

use std::fmt;

/// What a message is, by its type.
#[derive(Clone, Copy, Debug, PartialEq, Eq, PartialOrd, Ord, Hash)]
pub enum IgmpMessage {
    MembershipQuery,
    MembershipReportV1,
    MembershipReportV2,
    LeaveGroup,
    MembershipReportV3,
    /// Any other number. A known one here stands for the same message as its own variant, and is
    /// not equal to it.
    Unknown(u8),
}

impl From<u8> for IgmpMessage {
    ghost from_gives = { λ n message. message ≡ message_of n };

    fn from(value: u8) -> IgmpMessage {
        match value {
            0x11 => IgmpMessage::MembershipQuery,
            0x12 => IgmpMessage::MembershipReportV1,
            0x16 => IgmpMessage::MembershipReportV2,
            0x17 => IgmpMessage::LeaveGroup,
            0x22 => IgmpMessage::MembershipReportV3,
            other => IgmpMessage::Unknown(other),
        }
    }
}

impl From<IgmpMessage> for u8 {
    ghost from_gives = { λ message n. n ≡ message_number message };

    fn from(value: IgmpMessage) -> u8 {
        match value {
            IgmpMessage::MembershipQuery => 0x11,
            IgmpMessage::MembershipReportV1 => 0x12,
            IgmpMessage::MembershipReportV2 => 0x16,
            IgmpMessage::LeaveGroup => 0x17,
            IgmpMessage::MembershipReportV3 => 0x22,
            IgmpMessage::Unknown(other) => other,
        }
    }
}

impl fmt::Display for IgmpMessage {
    ghost output = { λ message. Some (message_text message) };

    fn fmt<W: fmt::Write>(&self, f: &mut fmt::Formatter<W>) -> fmt::Result {
        match self {
            IgmpMessage::MembershipQuery => write!(f, "membership query"),
            IgmpMessage::MembershipReportV1 => write!(f, "version 1 membership report"),
            IgmpMessage::MembershipReportV2 => write!(f, "version 2 membership report"),
            IgmpMessage::LeaveGroup => write!(f, "leave group"),
            IgmpMessage::MembershipReportV3 => write!(f, "version 3 membership report"),
            IgmpMessage::Unknown(number) => write!(f, "{number}"),
        }
    }
}

/// The versions whose queries and reports have one group.
#[derive(Clone, Copy, Debug, PartialEq, Eq, PartialOrd, Ord, Hash)]
pub enum IgmpVersion {
    Version1,
    Version2,
}

impl IgmpVersion {
    /// The report of this version.
    pub const fn report(self) -> IgmpMessage
        ensures { message_number result ≡ report_number self }
    {
        match self {
            IgmpVersion::Version1 => IgmpMessage::MembershipReportV1,
            IgmpVersion::Version2 => IgmpMessage::MembershipReportV2,
        }
    }
}
