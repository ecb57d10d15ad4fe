//! A link whose packets come and go over a reader and a writer: the host takes turns, each of which brings one packet or
//! none at an instant, and answers each of them with packets and with the instant at which it wants the next.

mod answer;
mod drain;
mod fault;
mod reset;
mod turn;

pub use answer::write_answer;
pub use drain::{Drain, DrainTxToken};
pub use fault::{Fault, Faults};
pub use turn::{HEAD_LEN, TurnError, read_turn};
