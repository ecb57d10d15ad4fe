//! Control messages of the Internet protocols.
//!
//! It holds nothing of its own but laws: it re-exports the items of its members, `wire_icmpv4` and `wire_icmpv6`. A crate
//! above names `control_wire` alone, in `crates.txt` and in its code, as `control_wire::Icmpv4Repr`.
//! In clauses, `specs/` and `proofs/` the members' definitions are `Rattle.control_wire.specs.Icmpv4`,
//! `.Icmpv6`, `.Ndisc` and so on, and each type that a definition names is a module of its own name,
//! as `Rattle.control_wire.specs.Icmpv4Header.{Icmpv4Header}`.
#![tactic(auto)]

pub mod laws;

pub use wire_icmpv4::{
    Icmpv4DstUnreachable, Icmpv4Header, Icmpv4Message, Icmpv4Packet, Icmpv4PacketMut, Icmpv4Repr,
    Icmpv4TimeExceeded, field as icmpv4_field, laws as icmpv4_laws,
};
pub use wire_icmpv6::{
    Icmpv6DstUnreachable, Icmpv6Header, Icmpv6Message, Icmpv6Packet, Icmpv6PacketMut,
    Icmpv6ParamProblem, Icmpv6Repr, Icmpv6TimeExceeded, NdiscNeighborFlags, NdiscRepr,
    field as icmpv6_field, laws as icmpv6_laws,
};
