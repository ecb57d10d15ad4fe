//! In which version a host tells, and what.
use wire_igmp::RecordType;

/// The version in which a host tells, by the queries that it heard (RFC 3376, section 7.2.1; RFC
/// 3810, section 8.2.1). Versions 1 and 2 of MLD are derived from versions 2 and 3 of IGMP.
#[derive(Clone, Copy, Debug, PartialEq, Eq)]
pub enum CompatibilityMode {
    Igmpv1,
    /// Also MLDv1.
    Igmpv2,
    /// Also MLDv2.
    Igmpv3,
}

/// What is told of one group.
#[derive(Clone, Copy, Debug, PartialEq, Eq)]
pub enum Told {
    /// A record of a report of IGMPv3 or MLDv2, which names no source.
    Record(RecordType),
    /// A report of IGMPv1, IGMPv2 or MLDv1.
    Report,
    /// A leave of IGMPv2, a done message of MLDv1.
    Leave,
}
