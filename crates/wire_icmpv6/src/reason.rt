//! Why a message tells of an error. A reason stands for the message's code.
ghost use Rattle.std.specs.Prelude.{◌≡◌, Some};
ghost use Rattle.wire_icmpv6.specs.Reason.{unreachable_code, unreachable_of, exceeded_code, exceeded_of, problem_code, problem_of, unreachable_text, exceeded_text};
ghost use Rattle.wire_icmpv6.specs.Reason.{problem_text};

use std::fmt;

/// Why a packet didn't reach its destination (RFC 4443, section 3.1).
#[derive(Clone, Copy, Debug, PartialEq, Eq, PartialOrd, Ord, Hash)]
pub enum Icmpv6DstUnreachable {
    /// No route leads there.
    NoRoute,
    /// Communication with it is prohibited.
    AdminProhibit,
    /// It is beyond the scope of the source address.
    BeyondScope,
    /// The address can't be reached.
    AddrUnreachable,
    /// No one listens at the port.
    PortUnreachable,
    /// The source address failed a policy.
    FailedPolicy,
    /// The route rejects packets.
    RejectRoute,
    /// Any other code. A known one here stands for the same reason as its own variant, and is not
    /// equal to it.
    Unknown(u8),
}

impl From<u8> for Icmpv6DstUnreachable {
    ghost from_gives = { λ code reason. reason ≡ unreachable_of code };

    fn from(value: u8) -> Icmpv6DstUnreachable {
        match value {
            0 => Icmpv6DstUnreachable::NoRoute,
            1 => Icmpv6DstUnreachable::AdminProhibit,
            2 => Icmpv6DstUnreachable::BeyondScope,
            3 => Icmpv6DstUnreachable::AddrUnreachable,
            4 => Icmpv6DstUnreachable::PortUnreachable,
            5 => Icmpv6DstUnreachable::FailedPolicy,
            6 => Icmpv6DstUnreachable::RejectRoute,
            other => Icmpv6DstUnreachable::Unknown(other),
        }
    }
}

impl From<Icmpv6DstUnreachable> for u8 {
    ghost from_gives = { λ reason code. code ≡ unreachable_code reason };

    fn from(value: Icmpv6DstUnreachable) -> u8 {
        match value {
            Icmpv6DstUnreachable::NoRoute => 0,
            Icmpv6DstUnreachable::AdminProhibit => 1,
            Icmpv6DstUnreachable::BeyondScope => 2,
            Icmpv6DstUnreachable::AddrUnreachable => 3,
            Icmpv6DstUnreachable::PortUnreachable => 4,
            Icmpv6DstUnreachable::FailedPolicy => 5,
            Icmpv6DstUnreachable::RejectRoute => 6,
            Icmpv6DstUnreachable::Unknown(other) => other,
        }
    }
}

impl fmt::Display for Icmpv6DstUnreachable {
    ghost output = { λ reason. Some (unreachable_text reason) };

    fn fmt<W: fmt::Write>(&self, f: &mut fmt::Formatter<W>) -> fmt::Result {
        match self {
            Icmpv6DstUnreachable::NoRoute => write!(f, "no route to destination"),
            Icmpv6DstUnreachable::AdminProhibit => write!(
                f,
                "communication with destination administratively prohibited"
            ),
            Icmpv6DstUnreachable::BeyondScope => write!(f, "beyond scope of source address"),
            Icmpv6DstUnreachable::AddrUnreachable => write!(f, "address unreachable"),
            Icmpv6DstUnreachable::PortUnreachable => write!(f, "port unreachable"),
            Icmpv6DstUnreachable::FailedPolicy => write!(
                f,
                "source address failed ingress/egress policy"
            ),
            Icmpv6DstUnreachable::RejectRoute => write!(f, "reject route to destination"),
            Icmpv6DstUnreachable::Unknown(number) => write!(f, "{number}"),
        }
    }
}

/// Which limit a packet exceeded (RFC 4443, section 3.3).
#[derive(Clone, Copy, Debug, PartialEq, Eq, PartialOrd, Ord, Hash)]
pub enum Icmpv6TimeExceeded {
    /// The hop limit, in transit.
    HopLimitExceeded,
    /// The time for the rest of its pieces to come.
    FragReassemExceeded,
    /// Any other code. A known one here stands for the same reason as its own variant, and is not
    /// equal to it.
    Unknown(u8),
}

impl From<u8> for Icmpv6TimeExceeded {
    ghost from_gives = { λ code reason. reason ≡ exceeded_of code };

    fn from(value: u8) -> Icmpv6TimeExceeded {
        match value {
            0 => Icmpv6TimeExceeded::HopLimitExceeded,
            1 => Icmpv6TimeExceeded::FragReassemExceeded,
            other => Icmpv6TimeExceeded::Unknown(other),
        }
    }
}

impl From<Icmpv6TimeExceeded> for u8 {
    ghost from_gives = { λ reason code. code ≡ exceeded_code reason };

    fn from(value: Icmpv6TimeExceeded) -> u8 {
        match value {
            Icmpv6TimeExceeded::HopLimitExceeded => 0,
            Icmpv6TimeExceeded::FragReassemExceeded => 1,
            Icmpv6TimeExceeded::Unknown(other) => other,
        }
    }
}

impl fmt::Display for Icmpv6TimeExceeded {
    ghost output = { λ reason. Some (exceeded_text reason) };

    fn fmt<W: fmt::Write>(&self, f: &mut fmt::Formatter<W>) -> fmt::Result {
        match self {
            Icmpv6TimeExceeded::HopLimitExceeded => write!(f, "hop limit exceeded in transit"),
            Icmpv6TimeExceeded::FragReassemExceeded => write!(
                f,
                "fragment reassembly time exceeded"
            ),
            Icmpv6TimeExceeded::Unknown(number) => write!(f, "{number}"),
        }
    }
}

/// What was wrong with a field of a packet (RFC 4443, section 3.4).
#[derive(Clone, Copy, Debug, PartialEq, Eq, PartialOrd, Ord, Hash)]
pub enum Icmpv6ParamProblem {
    /// A field of a header has a wrong value.
    ErroneousHdrField,
    /// The type of the next header isn't known.
    UnrecognizedNxtHdr,
    /// An option isn't known.
    UnrecognizedOption,
    /// Any other code. A known one here stands for the same reason as its own variant, and is not
    /// equal to it.
    Unknown(u8),
}

impl From<u8> for Icmpv6ParamProblem {
    ghost from_gives = { λ code reason. reason ≡ problem_of code };

    fn from(value: u8) -> Icmpv6ParamProblem {
        match value {
            0 => Icmpv6ParamProblem::ErroneousHdrField,
            1 => Icmpv6ParamProblem::UnrecognizedNxtHdr,
            2 => Icmpv6ParamProblem::UnrecognizedOption,
            other => Icmpv6ParamProblem::Unknown(other),
        }
    }
}

impl From<Icmpv6ParamProblem> for u8 {
    ghost from_gives = { λ reason code. code ≡ problem_code reason };

    fn from(value: Icmpv6ParamProblem) -> u8 {
        match value {
            Icmpv6ParamProblem::ErroneousHdrField => 0,
            Icmpv6ParamProblem::UnrecognizedNxtHdr => 1,
            Icmpv6ParamProblem::UnrecognizedOption => 2,
            Icmpv6ParamProblem::Unknown(other) => other,
        }
    }
}

impl fmt::Display for Icmpv6ParamProblem {
    ghost output = { λ reason. Some (problem_text reason) };

    fn fmt<W: fmt::Write>(&self, f: &mut fmt::Formatter<W>) -> fmt::Result {
        match self {
            Icmpv6ParamProblem::ErroneousHdrField => write!(f, "erroneous header field"),
            Icmpv6ParamProblem::UnrecognizedNxtHdr => write!(f, "unrecognized next header type"),
            Icmpv6ParamProblem::UnrecognizedOption => write!(f, "unrecognized IPv6 option"),
            Icmpv6ParamProblem::Unknown(number) => write!(f, "{number}"),
        }
    }
}
