//! What the rules of a TCP socket (RFC 9293) stand on, each by itself: the states and what follows each,
//! the endpoints of a connection, congestion control, the retransmission timeout, instants, numbers of 32
//! bits as counts, errors, and what a socket offers. `tcp_block` passes it on: a crate above names that
//! one alone.
#![tactic(auto)]

pub mod controls;
mod cubic;
mod end_reason;
pub mod endpoints;
mod error;
pub mod instants;
mod isn_source;
mod offer;
pub mod offsets;
mod reno;
mod round_trip;
mod scoreboard;
mod sip;
mod state;
mod states;

pub use cubic::{cubes, cubic_laws};
pub use end_reason::{EndEvent, EndReason};
pub use endpoints::{AddressPair, FourTuple};
pub use error::{ConnectError, ListenError, RecvError, SendError};
pub use isn_source::{isn, isns_rise};
pub use offer::{OfferKind, OpenOffer, Reply};
pub use reno::{Reno, congestion_laws, congestion_windows, cubic_congestion};
pub use round_trip::{RoundTrip, fine_timeouts, least_timeouts, timeout_laws, timeouts};
pub use scoreboard::{Run, Scoreboard};
pub use sip::{sip_hash, sip_hashes};
pub use state::State;
