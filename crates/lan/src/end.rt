//! How a run of a script ends early.
ghost use Rattle.std.specs.Prelude.{◌≡◌};
ghost use Rattle.lan.specs.Ends.{refused_name, new_error_name, world_error_name};

use crate::at_link::{NewError, Refused};
use crate::error::WorldError;
use std::alloc::AllocError;
use std::fmt;

/// Why a run of a script ended early.
#[derive(Clone, Copy, Debug, PartialEq, Eq)]
pub enum End {
    /// A line is outside the grammar, or out of order.
    BadEvent,
    /// An event wasn't taken, or there was no memory.
    Refusal(Refused),
    /// No interface was made.
    Interface(NewError),
    /// The hosts make no world.
    World(WorldError),
}

impl From<AllocError> for End {
    ghost use Rattle.std.specs.Prelude.{◌≡◌};
    ghost use Rattle.lan.specs.declared.end.End.TheVariants.{Refusal};
    ghost use Rattle.lan.specs.declared.at_link.history.answer.Refused.TheVariants.{Memory};

    ghost from_gives = { λ _ end. end ≡ Refusal Memory };

    fn from(_error: AllocError) -> End {
        End::Refusal(Refused::Memory)
    }
}

impl From<Refused> for End {
    ghost use Rattle.std.specs.Prelude.{◌≡◌};
    ghost use Rattle.lan.specs.declared.end.End.TheVariants.{Refusal};

    ghost from_gives = { λ refused end. end ≡ Refusal refused };

    fn from(refused: Refused) -> End {
        End::Refusal(refused)
    }
}

impl From<NewError> for End {
    ghost use Rattle.std.specs.Prelude.{◌≡◌};
    ghost use Rattle.lan.specs.Ends.{interface_end};

    ghost from_gives = { λ error end. end ≡ interface_end error };

    fn from(error: NewError) -> End {
        match error {
            NewError::Memory => End::Refusal(Refused::Memory),
            _ => End::Interface(error),
        }
    }
}

impl From<WorldError> for End {
    ghost use Rattle.std.specs.Prelude.{◌≡◌};
    ghost use Rattle.lan.specs.Ends.{world_end};

    ghost from_gives = { λ error end. end ≡ world_end error };

    fn from(error: WorldError) -> End {
        match error {
            WorldError::Memory => End::Refusal(Refused::Memory),
            _ => End::World(error),
        }
    }
}

impl fmt::Display for End {
    ghost use Rattle.std.specs.Prelude.{Some};
    ghost use Rattle.lan.specs.Ends.{end_text};

    ghost output = { λ end. Some (end_text end) };

    fn fmt<W: fmt::Write>(&self, f: &mut fmt::Formatter<W>) -> fmt::Result {
        match *self {
            End::BadEvent => f.write_str("bad event"),
            End::Refusal(refused) => write!(f, "refused {}", refused_name(refused)),
            End::Interface(error) => write!(f, "refused {}", new_error_name(error)),
            End::World(error) => write!(f, "refused {}", world_error_name(error)),
        }
    }
}

fn refused_name(refused: Refused) -> &'static str
    ensures { result.now ≡ refused_name refused }
{
    match refused {
        Refused::NoSocket => "NoSocket",
        Refused::WrongKind => "WrongKind",
        Refused::NoFrame => "NoFrame",
        Refused::NotTcp => "NotTcp",
        Refused::Place => "Place",
        Refused::SameSum => "SameSum",
        Refused::NamesTcpOrUdp => "NamesTcpOrUdp",
        Refused::OpenedTwice => "OpenedTwice",
        Refused::PortTaken => "PortTaken",
        Refused::TooManyBytes => "TooManyBytes",
        Refused::TooManyCut => "TooManyCut",
        Refused::RawProtocol => "RawProtocol",
        Refused::Moment => "Moment",
        Refused::Memory => "Memory",
        Refused::NotIpv4 => "NotIpv4",
        Refused::CutPlace => "CutPlace",
    }
}

fn new_error_name(error: NewError) -> &'static str
    ensures { result.now ≡ new_error_name error }
{
    match error {
        NewError::Medium => "Medium",
        NewError::NotUnicast => "NotUnicast",
        NewError::Mtu => "Mtu",
        NewError::Moment => "Moment",
        NewError::Memory => "Memory",
    }
}

fn world_error_name(error: WorldError) -> &'static str
    ensures { result.now ≡ world_error_name error }
{
    match error {
        WorldError::Media => "Media",
        WorldError::Checksums => "Checksums",
        WorldError::Mtu => "Mtu",
        WorldError::Buffers => "Buffers",
        WorldError::NotFresh => "NotFresh",
        WorldError::Memory => "Memory",
    }
}
