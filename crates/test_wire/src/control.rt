//! Tests of control messages, as a user of `control_wire` sees them.

mod icmpv4_messages;
mod icmpv6_messages;
mod laws;
mod names;
mod neighbor_messages;
