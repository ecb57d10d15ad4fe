//! That only news puts the retransmission timer off.

ghost use Rattle.std.specs.Prelude.{◌≡◌, ◌⊎◌, ◌==◌, ◌<◌, ◌≤◌, ℤ, pos, ◌+ℤ◌, true, false, List};
ghost use Rattle.tcp_refinement.specs.Pair.Sides.{at};
ghost use Rattle.tcp_refinement.specs.Pair.Steps.{Steps};
ghost use Rattle.tcp_refinement.specs.Pair.Values.{PairValue};
ghost use Rattle.tcp_refinement.specs.declared.pair.event.PairEvent.{PairEvent};
ghost use Rattle.tcp_refinement.specs.declared.pair.event.Side.{Side};
ghost use Rattle.tcp_liveness.specs.Arrivals.{is_synchronized};
ghost use Rattle.tcp_liveness.specs.Onward.{AreOpen, acked_in};
ghost use Rattle.tcp_liveness.specs.Pair.{socket_of};
ghost use Rattle.tcp_liveness.specs.PutOff.{AreAskedBefore, CarriesIn, IsAskedBefore, IsAskedFromAmong, IsRunning, MayProbe, MendsAmong, MendsIn};
ghost use Rattle.tcp_liveness.specs.PutOff.{ProbesAt, RunsOutAmong, RunsOutAt};
ghost use Rattle.tcp_liveness.specs.Reached.{IsReached};
ghost use Rattle.tcp_liveness.specs.Rounds.{takes};

/// What is in flight has a timer that runs. Whatever comes, however late, whatever the other is asked and the users call, and whatever the side is
/// asked before the timer runs out: as long as the connection is there and SND.UNA stays, the timer runs out when it did. There is one
/// exception: in a recovery each segment that is retransmitted starts it again, as long as ranges say that the segment at SND.UNA is lost.
pub fn only_news_puts_the_timer_off()
    ensures runs { (p : PairValue) (side : Side) → IsReached p → ((socket_of p side).tcb.sender.flight_size == 0) ≡ false
        → IsRunning (socket_of p side) }
    ensures stays { (p : PairValue) (side : Side) (event : PairEvent) (at : ℤ) → RunsOutAt at (socket_of p side) → IsAskedBefore at side event
        → is_synchronized (socket_of (takes p event) side).tcb.state ≡ true
        → (socket_of (takes p event) side).tcb.sender.una ≡ (socket_of p side).tcb.sender.una
        → RunsOutAt at (socket_of (takes p event) side) ⊎ MendsIn p side event }
    ensures through { (p q : PairValue) (side : Side) (events : List PairEvent) (at : ℤ) → IsReached p → AreOpen p → Steps p events q
        → is_synchronized (socket_of q side).tcb.state ≡ true → acked_in q side ≤ acked_in p side → RunsOutAt at (socket_of p side)
        → AreAskedBefore at side events → RunsOutAt at (socket_of q side) ⊎ MendsAmong p side events }
{}

/// Of a side with something in flight that is asked a minute later, or later still, SND.UNA has risen; or it was asked when its timer had run out,
/// and began again at SND.UNA; or something was retransmitted in a recovery. Whatever happens meanwhile, as long as the connection is there.
pub fn a_minute_brings_news_or_runs_the_timer_out()
    ensures minute { (p q : PairValue) (side : Side) (events : List PairEvent) → IsReached p → AreOpen p → Steps p events q
        → ((socket_of p side).tcb.sender.flight_size == 0) ≡ false
        → IsAskedFromAmong ((at p.sides side).instant +ℤ pos 60_000_000) side events
        → is_synchronized (socket_of q side).tcb.state ≡ true
        → (acked_in p side < acked_in q side) ⊎ (RunsOutAmong p side events ⊎ MendsAmong p side events) }
{}

/// What a window held back waits for the instant of a probe. No window puts it off, be it one that opens or one that closes again: as long as bytes
/// are queued and nothing is in flight the instant stays, until a SYN or a part of the send queue goes.
pub fn no_window_puts_a_probe_off()
    ensures stays { (p : PairValue) (side : Side) (event : PairEvent) (at : ℤ) → ProbesAt at (socket_of p side)
        → MayProbe (socket_of (takes p event) side) → ProbesAt at (socket_of (takes p event) side) ⊎ CarriesIn p side event }
{}
