//! What a message is, by its type.
ghost use Rattle.std.specs.Prelude.{◌≡◌, Some};
ghost use Rattle.wire_mld.specs.MldMessage.{message_number, message_of, message_text};

use std::fmt;

/// What a message is, by its type.
#[derive(Clone, Copy, Debug, PartialEq, Eq, PartialOrd, Ord, Hash)]
pub enum MldMessage {
    MldQuery,
    MldReportV1,
    MldDone,
    MldReport,
    /// Any other number. A known one here stands for the same message as its own variant, and is
    /// not equal to it.
    Unknown(u8),
}

impl From<u8> for MldMessage {
    ghost from_gives = { λ n message. message ≡ message_of n };

    fn from(value: u8) -> MldMessage {
        match value {
            130 => MldMessage::MldQuery,
            131 => MldMessage::MldReportV1,
            132 => MldMessage::MldDone,
            143 => MldMessage::MldReport,
            other => MldMessage::Unknown(other),
        }
    }
}

impl From<MldMessage> for u8 {
    ghost from_gives = { λ message n. n ≡ message_number message };

    fn from(value: MldMessage) -> u8 {
        match value {
            MldMessage::MldQuery => 130,
            MldMessage::MldReportV1 => 131,
            MldMessage::MldDone => 132,
            MldMessage::MldReport => 143,
            MldMessage::Unknown(other) => other,
        }
    }
}

impl fmt::Display for MldMessage {
    ghost output = { λ message. Some (message_text message) };

    fn fmt<W: fmt::Write>(&self, f: &mut fmt::Formatter<W>) -> fmt::Result {
        match self {
            MldMessage::MldQuery => write!(f, "multicast listener query"),
            MldMessage::MldReportV1 => write!(f, "version 1 multicast listener report"),
            MldMessage::MldDone => write!(f, "multicast listener done"),
            MldMessage::MldReport => write!(f, "multicast listener report"),
            MldMessage::Unknown(number) => write!(f, "{number}"),
        }
    }
}
