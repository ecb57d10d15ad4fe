//! An interface: a host at a device, whose sockets take turns to send, and receive. A listener with a backlog, over the sockets of one.
//!
//! It passes on what is set at it and lies in it: `iface_tables` and `iface_egress`.
#![tactic(auto)]

pub mod announce_laws;
mod announced;
mod arrival;
mod awaited;
pub mod black_hole_laws;
mod black_holes;
mod by_kind;
pub mod delivery_laws;
mod due_instant;
mod host;
pub mod listener;
pub mod listener_laws;
mod poll;
pub mod poll_laws;
mod remote;
mod round;
mod send_to;
mod serve;
mod step;
mod widths;

pub use by_kind::SocketsByKind;
pub use due_instant::{earlier, poll_instant, slot_instant};
pub use host::Interface;
pub use iface_egress::{
    AddError, Config, GROUP_ROOM, Handles, HardwareAddrError, Idle, InterfaceInner, Item, Iter,
    IterMut, Meta, MulticastError, NewError, NotUnicast, Route, RouteTableFull, Routes, Slots,
    SocketHandle, SocketSet, SocketStorage, TABLE_ROOM, Wanted,
};
pub use listener::Listener;
pub use poll::{PollIngressSingleResult, PollResult};
pub use round::pass;
pub use send_to::{SendToError, Sending};
pub use serve::{Served, serve_socket};
pub use step::egress;
