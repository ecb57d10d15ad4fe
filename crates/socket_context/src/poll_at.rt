//! When a socket wants to be polled.
ghost use Rattle.std.specs.Prelude.{Some};
ghost use Rattle.socket_context.specs.Moments.{poll_at_text};

use net_base::Instant;
use std::fmt;

/// When a socket wants to be polled.
#[derive(Clone, Copy, Debug, PartialEq, Eq)]
pub enum PollAt {
    /// At once.
    Now,
    /// At this instant, or when a packet for it came.
    Time(Instant),
    /// When a packet for it came.
    Ingress,
}

impl fmt::Display for PollAt {
    ghost output = { λ instant. Some (poll_at_text instant) };

    fn fmt<W: fmt::Write>(&self, f: &mut fmt::Formatter<W>) -> fmt::Result {
        match self {
            PollAt::Now => write!(f, "now"),
            PollAt::Time(at) => write!(f, "at {at}"),
            PollAt::Ingress => write!(f, "when a packet came"),
        }
    }
}
