//! What is in flight: it has a timer, and what was ever sent stays sent.

ghost use Rattle.std.specs.Prelude.{◌≡◌, ℕ, Bool, List};
ghost use Rattle.tcp_block.specs.Calls.{send_after, recv_after};
ghost use Rattle.tcp_block.specs.Value.{TcpValue};
ghost use Rattle.tcp_invariants.specs.Flight.{flight_of, IsArmed, Rises};
ghost use Rattle.tcp_invariants.specs.Runs.{Happening, IsRun, Lasts, run};

/// What is in flight has a timer that runs, in every state that a run reaches from one where it has.
#[tactic(auto, using(crate::proofs::RunRules::armed_run))]
pub fn what_is_flight_size_has_a_timer()
    ensures armed { (v : TcpValue) (happenings : List Happening) → IsRun v happenings → IsArmed (flight_of v.tcb)
        → IsArmed (flight_of (run v happenings).tcb) }
{}

/// Within a connection the highest position that was ever sent never falls, whatever comes, and however often the timer runs out.
#[tactic(auto, using(crate::proofs::RunRules::rising_run))]
pub fn what_was_sent_stays_sent()
    ensures rises { (v : TcpValue) (happenings : List Happening) → IsRun v happenings → Lasts v happenings
        → Rises (flight_of v.tcb) (flight_of (run v happenings).tcb) }
{}
