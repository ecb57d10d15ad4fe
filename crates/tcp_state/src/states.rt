//! Which states a rule is for, and how they follow one another.
ghost use Rattle.std.specs.Prelude.{◌≡◌};
ghost use Rattle.tcp_state.specs.States.{is_closed, is_listening, is_opening, is_answering, is_time_wait, takes_writes, accepts_data, may_send_data, owes_fin};
ghost use Rattle.tcp_state.specs.States.{sends_syn, keeps_alive, after_ack, after_ack_of_fin, after_fin, after_close};

use crate::State;

impl State {
    /// CLOSED.
    pub const fn is_closed(self) -> bool
        ensures { result ≡ is_closed self }
    {
        matches!(self, State::Closed)
    }

    /// LISTEN.
    pub const fn is_listening(self) -> bool
        ensures { result ≡ is_listening self }
    {
        matches!(self, State::Listen)
    }

    /// SYN-SENT.
    pub const fn is_opening(self) -> bool
        ensures { result ≡ is_opening self }
    {
        matches!(self, State::SynSent)
    }

    /// SYN-RECEIVED.
    pub const fn is_answering(self) -> bool
        ensures { result ≡ is_answering self }
    {
        matches!(self, State::SynReceived)
    }

    /// TIME-WAIT.
    pub const fn is_time_wait(self) -> bool
        ensures { result ≡ is_time_wait self }
    {
        matches!(self, State::TimeWait)
    }

    /// Whether the user may send.
    pub const fn takes_writes(self) -> bool
        ensures { result ≡ takes_writes self }
    {
        matches!(self, State::Established | State::CloseWait)
    }

    /// Whether bytes and a FIN are taken.
    pub const fn accepts_data(self) -> bool
        ensures { result ≡ accepts_data self }
    {
        matches!(self, State::Established | State::FinWait1 | State::FinWait2)
    }

    /// Whether bytes and a FIN may go.
    pub const fn may_send_data(self) -> bool
        ensures { result ≡ may_send_data self }
    {
        matches!(
            self,
            State::Established
                | State::CloseWait
                | State::FinWait1
                | State::Closing
                | State::LastAck
        )
    }

    /// Whether a FIN was asked for and isn't acknowledged.
    pub const fn owes_fin(self) -> bool
        ensures { result ≡ owes_fin self }
    {
        matches!(self, State::FinWait1 | State::Closing | State::LastAck)
    }

    /// Whether the own SYN may still have to go.
    pub const fn sends_syn(self) -> bool
        ensures { result ≡ sends_syn self }
    {
        matches!(self, State::SynSent | State::SynReceived | State::FinWait1)
    }

    /// Whether keep-alives may go.
    pub const fn keeps_alive(self) -> bool
        ensures { result ≡ keeps_alive self }
    {
        matches!(
            self,
            State::Established | State::FinWait2 | State::CloseWait
        )
    }

    /// The state once the own SYN is acknowledged.
    pub const fn after_ack(self) -> State
        ensures { result ≡ after_ack self }
    {
        match self {
            State::SynReceived => State::Established,
            other => other,
        }
    }

    /// The state once the own FIN is acknowledged.
    pub const fn after_ack_of_fin(self) -> State
        ensures { result ≡ after_ack_of_fin self }
    {
        match self {
            State::FinWait1 => State::FinWait2,
            State::Closing => State::TimeWait,
            State::LastAck => State::Closed,
            other => other,
        }
    }

    /// The state once the remote's FIN is taken.
    pub const fn after_fin(self) -> State
        ensures { result ≡ after_fin self }
    {
        match self {
            State::Established => State::CloseWait,
            State::FinWait1 => State::Closing,
            State::FinWait2 => State::TimeWait,
            other => other,
        }
    }

    /// The state once the user closes.
    pub const fn after_close(self) -> State
        ensures { result ≡ after_close self }
    {
        match self {
            State::Listen | State::SynSent => State::Closed,
            State::SynReceived | State::Established => State::FinWait1,
            State::CloseWait => State::LastAck,
            other => other,
        }
    }
}
