//! How far a socket of a backlog came.
ghost use Rattle.std.specs.Prelude.{◌≡◌};
ghost use Rattle.interface.specs.Backlog.Stages.{is_accepted, is_half_open, is_open, stage_after};

use iface_ingress::tcp::State;

/// How far a socket of a backlog came.
#[derive(Clone, Copy, Debug, PartialEq, Eq)]
pub enum Stage {
    /// It listens.
    Free,
    /// It took a SYN, and nothing acknowledged its own.
    HalfOpen,
    /// It has a connection that wasn't accepted.
    Open,
    /// Its user has it.
    Accepted,
    /// Its user gave it back, and its connection hasn't ended.
    Ending,
    /// The same, in TIME-WAIT.
    TimeWait,
}

impl Stage {
    /// Whether it is its user's.
    pub fn is_accepted(self) -> bool
        ensures { result ≡ is_accepted self }
    {
        matches!(self, Stage::Accepted)
    }

    /// Whether it took a SYN, and nothing acknowledged its own.
    pub fn is_half_open(self) -> bool
        ensures { result ≡ is_half_open self }
    {
        matches!(self, Stage::HalfOpen)
    }

    /// Whether it has a connection that waits to be accepted.
    pub fn is_open(self) -> bool
        ensures { result ≡ is_open self }
    {
        matches!(self, Stage::Open)
    }

    /// The stage of a socket that isn't its user's, in this state, if it was at this stage.
    pub fn after(self, state: State) -> Stage
        ensures { result ≡ stage_after self state }
    {
        match (state, self) {
            (State::Closed | State::Listen, _) => Stage::Free,
            (State::SynSent | State::SynReceived, _) => Stage::HalfOpen,
            (State::TimeWait, Stage::Ending | Stage::TimeWait) => Stage::TimeWait,
            (_, Stage::Ending | Stage::TimeWait) => Stage::Ending,
            (_, _) => Stage::Open,
        }
    }
}
