//! Laws of TCP's rules, of every state that a run of a socket reaches.
#![tactic(auto)]

pub mod acks;
pub mod bare;
pub mod congestion;
pub mod early;
pub mod edges;
pub mod flight;
pub mod forged;
pub mod giving_up;
pub mod losses;
pub mod order;
pub mod read_back;
pub mod recovery;
pub mod reordering;
pub mod retransmission;
pub mod stamps;
pub mod storage;
pub mod time_wait;
pub mod timing;
pub mod validation;
pub mod waiting;
pub mod windows;
