//! The rules of a TCP socket (RFC 9293) as definitions, and its TCB.
#![tactic(auto)]

pub mod aborts;
pub mod examples;
pub mod laws;
pub mod pauses;
mod tcb;
pub mod tsecr;

pub use tcb::{
    CongestionControl, Loss, Names, PROBE, Part, Peer, Receiver, Sender, Settings, Stamps, Tcb,
    Timers, Undo, Validation, Verdict, has_length, is_first_syn, is_void_syn, numbers_of, reply_to,
    rst_reply,
};
pub use tcp_state::controls::{is_fin, is_rst, is_syn};
pub use tcp_state::endpoints::is_same_listener;
pub use tcp_state::instants::{is_due, next_challenge_from, time_wait_from};
pub use tcp_state::offsets::{distance_after, distance_before};
pub use tcp_state::{
    AddressPair, ConnectError, EndEvent, EndReason, FourTuple, ListenError, OfferKind, OpenOffer,
    RecvError, Reno, Reply, RoundTrip, Run, Scoreboard, SendError, State, isn,
};
