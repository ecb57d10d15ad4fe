//! What happens between two hosts, before any frame: events and answers, what their history says of each socket, peers, and the tables
//! that refusals read; and the hosts' sockets over packets, of which what one made may arrive at the other in any order, any number of times,
//! or never.
//!
//! The types of events and answers are plain values. `Kinds` of `specs/Worlds/AtLink` sorts the events, `History` has the words of a history,
//! `PeerSides` says which sockets are peers, `Reads` what was promised of each read, and `Tables` when a call is
//! refused. `Moves` says what may happen to sockets over packets and what becomes of it, `PacketsSafe` what holds in every run.

mod answer;
mod event;
pub mod examples;
pub mod laws;
mod owned;
pub mod packet_laws;
pub mod pair_laws;
mod record;

pub use answer::{Answer, Fault, Refused};
pub use event::{Event, Side, TcpSetting};
pub use owned::Bytes;
pub use record::{Opening, SocketKind, SocketRecord, is_port_taken};
