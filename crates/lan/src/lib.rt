//! Two hosts and the link between them, which loses, repeats, reorders, pads, damages and cuts frames, and adds some; and the script language
//! that drives them.
//!
//! `replay` is the program's work: a script of lines in, its answers and the frames that were sent out. `specs/Events` says which event a
//! line names, `specs/Answers` and `specs/Ends` what is written, `specs/Hosts` which hosts a header asks for, and `specs/Scripts` what a
//! whole script writes.
//!
//! For a loop of one's own over a `World`, as a simulator has, the same line by line: `Line::read` reads a line, `Header` collects those
//! before `start` and makes the world, `event_of` says which event a line names, and `answer_line` what is written of its answer (`End`,
//! why there is none).
//!
//! What an event does to a host stands in `at_link`; a world takes events one by one, refuses those that it must, and keeps them with their
//! answers. `specs/Worlds` has the definitions: `Promises`, what holds wherever events led.
//!
//! What a poll takes in was made, so that the theorem over packets holds of hosts with frames. `host_laws` has the hosts as machines: each is a
//! run, sends nothing when it is polled too early, and waits a second between its own requests. `move_laws` has what one host does, in a poll
//! and alongside it, as a run of moves over packets: each of its sockets' turns, each frame that it takes, and each call of its applications;
//! `specs/Worlds/Moves/Link` says what is asked of the link, so that what is taken was made by the other host, and `specs/Worlds/Moves/Follows`
//! where the moves lead. `link_laws` has that the link hands over what was made: whatever a frame brings to a host's TCP and UDP sockets, whole
//! or in fragments, the other host's sockets or the host itself made. `laws` joins them. `port_laws` has that a port determines its moves.
//!
//! Of what it stands on the crate passes on `Line`, `Port` and the test `names_tcp_or_udp`. A crate above names `lan` alone, in `crates.txt`
//! and in its code, as `lan::World` and `lan::replay`. In clauses, `specs/` and `proofs/` the definitions that contracts cite are
//! `Rattle.lan.specs.Promises`, `.Runs` and so on; a type that a definition names is a module where it is declared, as
//! `Rattle.lan.specs.declared.at_link.history.answer.Answer.{Answer}`.
#![tactic(auto)]

mod answer;
pub mod at_link;
mod end;
mod error;
mod event;
mod header;
mod history;
pub mod host_laws;
mod initial;
pub mod laws;
pub mod link_laws;
pub mod move_laws;
mod own_sockets;
pub mod port_laws;
mod run;
mod script;
pub mod script_laws;
mod session;
mod stored;
mod typed;
mod world;

pub use answer::answer_line;
pub use at_link::history::laws as history_laws;
pub use at_link::{Answer, Bytes, Event, Fault, Host, Refused, Side, TcpSetting};
pub use end::End;
pub use error::WorldError;
pub use event::{event_of, side_of};
pub use header::Header;
pub use script::{MOST_READS, replay, try_replay};
pub use sim_link::{Line, Port, PortTxToken, names_tcp_or_udp};
pub use world::World;
