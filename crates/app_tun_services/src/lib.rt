//! A host that other programs can talk to: it takes turns from a reader and answers them to a writer, echoes datagrams and streams
//! on port 7, and serves a page on port 80.
//!
//! `link` is its device, over a reader and a writer.
//!
//! Its services are small servers, each over one socket: echoes of datagrams and of streams, and a site of three pages. Each is called
//! whenever its socket may have changed, and does what can be done now.
#![tactic(auto)]

mod backlog;
mod counts;
mod datagram;
mod error;
mod host;
mod idle;
mod interface_of;
pub mod link;
mod program;
mod request;
mod settings;
mod site;
mod slot;
mod sockets_of;
mod stream;
mod tally;
mod turns;
mod watch;

pub use counts::Counts;
pub use datagram::echo_datagram;
pub use error::ServeError;
pub use program::{run, run_watched};
pub use request::{Answer, Reply, Verdict, judge};
pub use site::{MEGABYTE, Session, serve_site};
pub use stream::echo_stream;
pub use turns::{serve, serve_watched};
pub use watch::{Unwatched, Watch};
