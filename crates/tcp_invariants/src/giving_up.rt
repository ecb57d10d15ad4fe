//! A connection that nobody answers.

ghost use Rattle.std.specs.Prelude.{◌≡◌, ℕ, ◌+◌, ◌≤◌, ◌||◌, true, List, Some};
ghost use Rattle.tcp_block.specs.Context.{ContextValue};
ghost use Rattle.tcp_state.specs.Moments.{is_due};
ghost use Rattle.tcp_state.specs.declared.endpoints.FourTuple.{FourTuple};
ghost use Rattle.tcp_block.specs.Offers.{offer_of};
ghost use Rattle.tcp_block.specs.Probing.{probe_deadline};
ghost use Rattle.tcp_block.specs.Retries.{retries_of};
ghost use Rattle.tcp_block.specs.Rules.{keep_alive_deadline};
ghost use Rattle.tcp_block.specs.Value.{TcpValue, queued_in};
ghost use Rattle.tcp_invariants.specs.Ends.{is_over};
ghost use Rattle.tcp_invariants.specs.GivingUp.{Poll, polled, timeouts_in};

/// Where no segment comes, so many timeouts of the retransmission timer as the limit names end a connection, those before the run
/// counted with them: it is closed, or listens again. And one that asked so often without an answer, by probes of a closed window or by
/// keep-alives, ends where it is to ask once more.
pub fn a_connection_that_nobody_answers_ends()
    ensures timeouts { (v : TcpValue) (polls : List Poll) (pair : FourTuple) (limit : ℕ) → v.tcb.names.pair ≡ Some pair
        → retries_of v.tcb ≡ Some limit → limit ≤ 255 → 1 ≤ timeouts_in v polls → limit ≤ v.tcb.sender.timeouts + timeouts_in v polls
        → is_over (polled v polls).tcb.state ≡ true }
    ensures questions { (cx : ContextValue) (v : TcpValue) (pair : FourTuple) (limit : ℕ) → v.tcb.names.pair ≡ Some pair
        → v.tcb.settings.retries ≡ Some limit → limit ≤ v.tcb.sender.unanswered
        → (is_due cx.instant (probe_deadline v.tcb (queued_in v)) || is_due cx.instant (keep_alive_deadline v.tcb)) ≡ true
        → is_due cx.instant v.tcb.timers.counts_from ≡ true → is_over (offer_of cx v).socket.tcb.state ≡ true }
{}
