//! The users of a pair, and its clock.
use crate::pairs::lines::Todo;
use net_base::Instant;
use std::cmp;
use tcp_pair::{PairAnswer, Side};

/// How many bytes a side's user wrote and read.
#[derive(Clone, Copy)]
struct User {
    written: usize,
    read: usize,
}

/// Both users, and the last instant of either side.
#[derive(Clone, Copy)]
pub struct Users {
    a: User,
    b: User,
    now: Instant,
}

impl Users {
    pub fn new() -> Users {
        let user = User {
            written: 0,
            read: 0,
        };
        Users {
            a: user,
            b: user,
            now: Instant::ZERO,
        }
    }

    /// Notes what an event that was taken did.
    pub fn note(&mut self, todo: &Todo, answer: &PairAnswer) {
        match (todo, answer) {
            (Todo::Offer(_, instant, _) | Todo::Clock(_, instant), _) => {
                self.now = cmp::max(self.now, *instant);
            }
            (Todo::Send(side, _), PairAnswer::Count(count)) => {
                let user = self.user(*side);
                user.written = user.written.wrapping_add(*count);
            }
            (Todo::Recv(side, _), PairAnswer::Bytes(bytes)) => {
                let more = bytes.as_slice().len();
                let user = self.user(*side);
                user.read = user.read.wrapping_add(more);
            }
            _ => {}
        }
    }

    fn user(&mut self, side: Side) -> &mut User {
        match side {
            Side::A => &mut self.a,
            Side::B => &mut self.b,
        }
    }

    pub fn now(&self) -> Instant {
        self.now
    }

    /// Both users read all that the other one wrote.
    pub fn have_read_all(&self) -> bool {
        self.a.written == self.b.read && self.b.written == self.a.read
    }
}
