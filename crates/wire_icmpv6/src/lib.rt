//! Control messages of IPv6 (RFC 4443) and neighbour messages (RFC 4861): views of their bytes, and
//! errors, echo and neighbour messages as values.
#![tactic(auto)]

pub mod field;
mod header;
pub mod laws;
mod message;
mod ndisc;
mod ndisc_flags;
mod ndisc_option;
mod packet;
mod packet_mut;
mod reason;
mod repr;

pub use header::Icmpv6Header;
pub use message::Icmpv6Message;
pub use ndisc::NdiscRepr;
pub use ndisc_flags::NdiscNeighborFlags;
pub use packet::Icmpv6Packet;
pub use packet_mut::Icmpv6PacketMut;
pub use reason::{Icmpv6DstUnreachable, Icmpv6ParamProblem, Icmpv6TimeExceeded};
pub use repr::Icmpv6Repr;
