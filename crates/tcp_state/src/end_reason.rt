//! Why a connection ended.
ghost use Rattle.std.specs.Prelude.{◌≡◌};
ghost use Rattle.tcp_state.specs.EndReason.{reason_by, reason_for};

use crate::State;

/// Why a connection ended, or an attempt to open one.
#[derive(Clone, Copy, Debug, PartialEq, Eq)]
pub enum EndReason {
    /// Both sides closed it, or this one did before a connection was there.
    Closed,
    /// The remote reset it.
    Reset,
    /// The remote answered the SYN by a reset.
    Refused,
    /// The remote was silent for too long.
    TimedOut,
    /// An ICMP message told of the SYN that the remote can't be reached.
    Unreachable,
    /// It was aborted here.
    Aborted,
}

/// What may end a connection.
#[derive(Clone, Copy, Debug, PartialEq, Eq)]
pub enum EndEvent {
    /// A segment with RST came.
    Reset,
    /// Another segment came.
    Segment,
    /// The user closed.
    Close,
    /// The user aborted.
    Abort,
    /// An instant came.
    Timer,
    /// An ICMP message came that quotes the SYN (RFC 1122, section 4.2.3.9).
    Unreachable,
}

impl EndReason {
    /// Why a connection is over that was in a state before an event and is in another after it, if the event ended it.
    pub fn after(
        event: EndEvent,
        is_syn_unacked: bool,
        before: State,
        after: State,
    ) -> Option<EndReason>
        ensures { result ≡ reason_for event is_syn_unacked before after }
    {
        if before.is_closed() || !after.is_closed() {
            None
        } else if before.is_time_wait() {
            Some(EndReason::Closed)
        } else {
            Some(reason_by(event, is_syn_unacked))
        }
    }
}

fn reason_by(event: EndEvent, is_syn_unacked: bool) -> EndReason
    ensures { result ≡ reason_by event is_syn_unacked }
{
    match event {
        EndEvent::Reset => {
            if is_syn_unacked {
                EndReason::Refused
            } else {
                EndReason::Reset
            }
        }
        EndEvent::Segment => EndReason::Closed,
        EndEvent::Close => EndReason::Closed,
        EndEvent::Abort => EndReason::Aborted,
        EndEvent::Timer => EndReason::TimedOut,
        EndEvent::Unreachable => EndReason::Unreachable,
    }
}
