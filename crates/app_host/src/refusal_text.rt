//! The words that answers and refusals are written with.

/// What an answer says, or names its value by.
#[derive(Clone, Copy)]
pub enum Said {
    Yes,
    No,
    Nothing,
    Never,
    NoRoute,
    Silent,
    WithoutAnswer,
    NotFound,
    Changed,
    Processed,
    Is,
    In,
    Took,
    Told,
    Unknown,
}

impl Said {
    pub fn text(self) -> &'static str {
        match self {
            Said::Yes => "yes",
            Said::No => "no",
            Said::Nothing => "none",
            Said::Never => "never",
            Said::NoRoute => "no route",
            Said::Silent => "silent",
            Said::WithoutAnswer => "without answer",
            Said::NotFound => "not found",
            Said::Changed => "changed",
            Said::Processed => "processed",
            Said::Is => "is",
            Said::In => "in",
            Said::Took => "ok",
            Said::Told => "told",
            Said::Unknown => "unknown",
        }
    }
}

/// Why a socket, a host or this program refuses what a line says.
#[derive(Clone, Copy)]
pub enum Refusal {
    InvalidState,
    Unaddressable,
    BufferFull,
    Exhausted,
    Truncated,
    Finished,
    Medium,
    NotUnicast,
    RouteTableFull,
    GroupTableFull,
    Mtu,
    Moment,
    Buffers,
    Memory,
    NoSocket,
    WrongKind,
    RawProtocol,
    NamesTcpOrUdp,
}

impl Refusal {
    pub fn text(self) -> &'static str {
        match self {
            Refusal::InvalidState => "InvalidState",
            Refusal::Unaddressable => "Unaddressable",
            Refusal::BufferFull => "BufferFull",
            Refusal::Exhausted => "Exhausted",
            Refusal::Truncated => "Truncated",
            Refusal::Finished => "Finished",
            Refusal::Medium => "Medium",
            Refusal::NotUnicast => "NotUnicast",
            Refusal::RouteTableFull => "RouteTableFull",
            Refusal::GroupTableFull => "GroupTableFull",
            Refusal::Mtu => "Mtu",
            Refusal::Moment => "Moment",
            Refusal::Buffers => "Buffers",
            Refusal::Memory => "Memory",
            Refusal::NoSocket => "NoSocket",
            Refusal::WrongKind => "WrongKind",
            Refusal::RawProtocol => "RawProtocol",
            Refusal::NamesTcpOrUdp => "NamesTcpOrUdp",
        }
    }
}
