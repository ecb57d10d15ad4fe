//! The egress path of an interface: which sockets may send, where a packet goes, the frames that carry it, and the fragments of a
//! datagram that is too long for one frame. It passes on the tables: `iface_tables`.
#![tactic(auto)]

mod announcement;
mod egress_path;
mod fast_path;
mod fill;
mod fragmenter;
mod frame;
mod key_index;
pub mod laws;
mod parked;
mod payload;
mod plan;
pub mod search_laws;
mod slots;
pub mod socket_laws;
mod socket_meta;
mod socket_set;

pub use announcement::announce;
pub use base_index::Idle;
pub use egress_path::{Sent, dispatch, dispatch_by, send_next, transmit_direct};
pub use fast_path::direct_route;
pub use fill::{Fill, send};
pub use fragmenter::{Cut, Fragmenter, Left, MAX_CUT_PAYLOAD};
pub use frame::{ArpFrame, CutHeader, FragmentPart, NeighborQuery, ask};
pub use iface_tables::{
    Config, GROUP_ROOM, HardwareAddrError, InterfaceInner, LinkAddress, MulticastError, NewError,
    NotUnicast, PacketAssemblerSet, Route, RouteTableFull, Routes, TABLE_ROOM,
};
pub use key_index::Wanted;
pub use parked::{park_if_searched, send_parked};
pub use payload::{Carried, Direct, LentDatagram, LentSegment};
pub use plan::{Plan, plan_for, plan_from};
pub use slots::Slots;
pub use socket_meta::{Meta, Waiting};
pub use socket_set::{
    AddError, Handles, Item, Iter, IterMut, SocketHandle, SocketSet, SocketStorage,
};
