//! A host at the link of two: what each call, setting and question of an application makes of it, and when one is refused. `history` has
//! the events, what their history says of each socket, and the hosts' sockets over packets.
//!
//! It passes on what a host is made of.

mod answer;
pub mod calls;
mod configure;
pub mod datagrams;
mod event;
pub mod history;
mod host;
pub mod laws;
pub mod link;
mod poll;
mod records;
pub mod refusal;
pub mod settings;
mod slot;
pub mod streams;

pub use answer::{Brief, Taken, Twins};
pub use event::{refusal_of, take};
pub use history::{
    Answer, Bytes, Event, Fault, Opening, Refused, Side, SocketKind, SocketRecord, TcpSetting,
    is_port_taken,
};
pub use host::Host;
pub use interface::{Config, Interface, NewError, Route, SocketSet, SocketStorage};
pub use records::Records;
