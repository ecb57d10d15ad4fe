//! Two TCP sockets over whatever lies between them, as a value that a program can run.
#![tactic(auto)]

mod answer;
mod context;
mod end;
pub mod laws;
mod pair;
mod settle;

pub use context::{IP_MTU, PairContext};
pub use pair::Pair;
pub use tcp_refinement::pair::{
    Bytes, PairAnswer, PairEvent, PairRefused, SentSegment, Side, TcpFault, TcpSetting,
};
