//! Packets as text: each header that is read prints its fields, and a frame prints what it carries.
#![tactic(auto)]

mod control;
mod frame;
mod groups;
mod headers;
mod icmp;
mod ip;
mod names;
mod parts;
mod put;
mod routers;
mod tcp;
mod tcp_text;

pub use control::{Icmpv4Text, Icmpv6Text, NdiscText};
pub use frame::describe;
pub use headers::{ArpText, EthernetText, FragmentText, Ipv4Text, Ipv6Text, UdpText};
pub use names::{
    EtherText, Exceeded4Text, Exceeded6Text, OperationText, ProblemText, ProtocolText,
    Unreachable4Text, Unreachable6Text,
};
pub use tcp_text::{TcpOptionText, TcpText};
