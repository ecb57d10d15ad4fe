//! What two hosts and a bad link stand on, over the formats alone: frames, and the lines of a script that drives the hosts.
//!
//! `Port` is one host's end of a simulated link, a device in memory whose frames the simulator hands on. What the link reads in the frames of
//! its hosts, and what it makes of them: the place of a TCP segment (`part.rt`), a frame with one word exchanged (`word.rt`), and a frame cut
//! in two fragments (`cut.rt`).
//!
//! `Line::read` reads a line in place, without memory of its own. What a line may say stands in tables of one row a line: its first word
//! (`verb.rt`, `specs/Verbs`), the words after it (`specs/Lines`), and how they are read (`line.rt`). A row needs no proof of its own.
#![tactic(auto)]

mod cidrs;
mod cut;
pub mod frame_laws;
mod hex_bytes;
mod kinds;
mod line;
pub mod line_laws;
mod names;
mod part;
mod pool;
mod port;
mod text;
mod verb;
mod word;
mod words;

pub use cidrs::Blocks;
pub use cut::{cut_frame, ipv4_part};
pub use hex_bytes::HexBytes;
pub use kinds::{QueueSizes, Side, SocketSpec, StreamSizes};
pub use line::Line;
pub use names::names_tcp_or_udp;
pub use part::{Part, begins_fragments, packet_in, tcp_part};
pub use port::{Port, PortTxToken};
pub use text::hex_text;
pub use word::damage;
