//! The tables of an interface: its neighbours, its routes, the choice of a source address, and the datagrams that it puts
//! together.
#![tactic(auto)]

mod addresses;
mod assemblers;
mod config;
pub mod error_laws;
mod error_limit;
mod fragmentation;
mod groups;
mod indexed;
mod inner;
mod key;
pub mod laws;
mod link;
mod look;
mod neighbor;
mod parking;
pub mod path_laws;
mod path_mtu;
mod prefixes;
mod route;
pub mod source;

pub use assemblers::{PacketAssemblerSet, REASSEMBLY_SIZE};
pub use config::{Config, HardwareAddrError, NewError, NotUnicast, TABLE_ROOM};
pub use fragmentation::{AssemblerError, AssemblerFullError, PacketAssembler};
pub use groups::{GROUP_ROOM, Group, Groups, MulticastError};
pub use inner::InterfaceInner;
pub use key::{FragKey, Ipv6FragKey};
pub use link::LinkAddress;
pub use look::Look;
pub use neighbor::{Answer, Cache, Neighbor, Search};
pub use parking::{ParkedHeader, Parking};
pub use path_mtu::{Path, Paths};
pub use route::{Route, RouteTableFull, Routes};
