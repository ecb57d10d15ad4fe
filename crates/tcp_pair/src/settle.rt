//! Rounds over a good link, until all that both users wrote was read.
ghost use Rattle.std.specs.Prelude.{◌≡◌, ◌⊎◌, ◌+◌, ◌<◌, ◌≤◌, ℕ, true, false, None, IfOk, IfErr, OnOk, OnErr};
ghost use Rattle.tcp_refinement.specs.Pair.Safe.{IsKept, IsSafe, read, written};
ghost use Rattle.tcp_refinement.specs.Pair.Sides.{other};
ghost use Rattle.tcp_refinement.specs.Pair.Steps.{refusal};
ghost use Rattle.tcp_refinement.specs.declared.pair.event.PairEvent.TheVariants as Event;
ghost use Rattle.tcp_refinement.specs.declared.pair.event.PairRefused.TheVariants as Refused;
ghost use Rattle.tcp_refinement.specs.declared.pair.event.Side.TheVariants.{A, B};
ghost use Rattle.tcp_liveness.specs.BothWays.{IsThrough, MayTurn, bound, both_read, is_over, roused_in, round_in, rounds_in, turn_in, waits_in, wake_in};
ghost use Rattle.tcp_liveness.specs.Pair.{exchanged_in, next_sent, offered_in};
ghost use Rattle.tcp_liveness.specs.Reached.{IsReached};
ghost use Rattle.tcp_liveness.specs.Rounds.{takes};
ghost use Rattle.tcp_liveness.specs.Settle.{read_in, restart_by, restart_in};
ghost use Rattle.tcp_pair.specs.Invariant.{MayRefuse};
ghost use Rattle.tcp_pair.specs.Settling.{CanSettle, ProceedsTo, IsEndTold, IsOfRound, IsSoon, MaySendAt, StopsRound, answered_by, is_waiting, most_rounds};
ghost use Rattle.tcp_pair.specs.States.{hosted};

use crate::pair::Pair;
use net_base::Instant;
use tcp_refinement::pair::{PairEvent, PairRefused, Side};

/// So many bytes and more wait nowhere.
const ALL_BYTES: usize = 1 << 30;

impl Pair {
    /// Rounds over a link that loses nothing from now on, until neither side waits; then both users read all that
    /// is left. It answers how many rounds there were, at most two for each position that isn't acknowledged.
    ///
    /// In a round each side has its turn, if something of it isn't acknowledged and both connections are there:
    /// the other's user reads, the clock goes on to the instant that the side's timers name, and what it sends
    /// comes, as does what answers that. Segments sent before are lost, but for those that were handed over.
    ///
    /// All gets through, the end of each stream that was closed, too, where events led from two new sockets to
    /// the pair, both connections are there, and nothing makes a side give up (`CanSettle`). Elsewhere it may end
    /// with no more done. A refusal leaves the rounds before it, and what there was of the last: `NoSegment` where
    /// a side that waits sends nothing, `Moment` where its clock has ended, and `Memory`.
    pub fn settle(&mut self) -> Result<usize, PairRefused>
        ensures rounds { IfOk result (λ count. hosted self.new ≡ both_read (rounds_in count (hosted self.old))) }
        ensures waited { IfOk result (λ count. (n : ℕ) → n < count → is_waiting (rounds_in n (hosted self.old)) ≡ true) }
        ensures stops { IfOk result (λ count. (is_waiting (rounds_in count (hosted self.old)) ≡ false) ⊎ (count ≡ most_rounds (hosted self.old))) }
        ensures bound { IfOk result (λ count. CanSettle (hosted self.old) → count ≤ bound (hosted self.old)) }
        ensures soon { IfOk result (λ count. CanSettle (hosted self.old) → (side : Side) → IsSoon count (hosted self.old) (hosted self.new) side) }
        ensures through { OnOk result (CanSettle (hosted self.old) → (side : Side) → IsThrough (hosted self.new) side) }
        ensures read { OnOk result (CanSettle (hosted self.old) → (side : Side) → read (hosted self.new) (other side) ≡ written (hosted self.old) side) }
        ensures ends { OnOk result (CanSettle (hosted self.old) → (side : Side) → IsEndTold (hosted self.old) (hosted self.new) side) }
        ensures memory { IfErr result (λ refused. CanSettle (hosted self.old) → refused ≡ Refused.Memory) }
        ensures refused { IfErr result StopsRound }
        ensures leads { ProceedsTo (hosted self.old) (hosted self.new) }
        ensures written { (side : Side) → written (hosted self.new) side ≡ written (hosted self.old) side }
        ensures reached { IsReached (hosted self.old) → IsReached (hosted self.new) }
        ensures kept { IsKept (hosted self.new) }
        ensures safe { IsSafe (hosted self.new) }
    {
        let count = self.rounds()?;
        self.read(Side::A)?;
        self.read(Side::B)?;
        Ok(count)
    }

    /// Rounds until neither side waits, and how many.
    fn rounds(&mut self) -> Result<usize, PairRefused>
        ensures rounds { IfOk result (λ count. hosted self.new ≡ rounds_in count (hosted self.old)) }
        ensures waited { IfOk result (λ count. (n : ℕ) → n < count → is_waiting (rounds_in n (hosted self.old)) ≡ true) }
        ensures stops { IfOk result (λ count. (is_waiting (rounds_in count (hosted self.old)) ≡ false) ⊎ (count ≡ most_rounds (hosted self.old))) }
        ensures memory { IfErr result (λ refused. CanSettle (hosted self.old) → refused ≡ Refused.Memory) }
        ensures refused { IfErr result StopsRound }
        ensures leads { ProceedsTo (hosted self.old) (hosted self.new) }
        ensures kept { OnErr result (IsKept (hosted self.new)) }
    {
        let most = self.most_rounds();
        for count in 0..most {
            if !self.is_waiting() {
                return Ok(count);
            }
            self.round()?;
        }
        Ok(most)
    }

    /// Two for each position that isn't acknowledged.
    fn most_rounds(&self) -> usize
        ensures { result ≡ most_rounds (hosted self.now) }
    {
        let left = self
            .socket(Side::A)
            .unacked()
            .saturating_add(self.socket(Side::B).unacked());
        left.saturating_mul(2)
    }

    /// Whether a side waits.
    fn is_waiting(&self) -> bool
        ensures { result ≡ is_waiting (hosted self.now) }
    {
        self.waits(Side::A) || self.waits(Side::B)
    }

    /// Whether something of a side isn't acknowledged, and both connections are there.
    pub fn waits(&self, side: Side) -> bool
        ensures { result ≡ waits_in (hosted self.now) side }
    {
        self.socket(side).unacked() != 0 && !self.is_over(side) && !self.is_over(other(side))
    }

    fn is_over(&self, side: Side) -> bool
        ensures { result ≡ is_over (hosted self.now) side }
    {
        self.socket(side).state().is_closed()
    }

    /// Each side has its turn.
    fn round(&mut self) -> Result<(), PairRefused>
        ensures round { OnOk result (hosted self.new ≡ round_in (hosted self.old)) }
        ensures memory { IfErr result (λ refused. IsReached (hosted self.old) → MayTurn (hosted self.old) A
            → MayTurn (turn_in (hosted self.old) A) B → refused ≡ Refused.Memory) }
        ensures refused { IfErr result StopsRound }
        ensures leads { ProceedsTo (hosted self.old) (hosted self.new) }
        ensures kept { OnErr result (IsKept (hosted self.new)) }
    {
        self.turn(Side::A)?;
        self.turn(Side::B)
    }

    /// A side's turn, if it waits.
    fn turn(&mut self, side: Side) -> Result<(), PairRefused>
        ensures turn { OnOk result (hosted self.new ≡ turn_in (hosted self.old) side) }
        ensures memory { IfErr result (λ refused. IsReached (hosted self.old) → MayTurn (hosted self.old) side → refused ≡ Refused.Memory) }
        ensures refused { IfErr result StopsRound }
        ensures leads { ProceedsTo (hosted self.old) (hosted self.new) }
        ensures kept { OnErr result (IsKept (hosted self.new)) }
    {
        if !self.waits(side) {
            return Ok(());
        }
        self.rouse(side)?;
        let instant = self.wake_at(side);
        self.exchange(side, instant)
    }

    /// The other's user reads, and the side is asked when its timer runs out, or now where none runs. The link
    /// takes nothing then.
    fn rouse(&mut self, side: Side) -> Result<(), PairRefused>
        ensures roused { OnOk result (hosted self.new ≡ roused_in (hosted self.old) side) }
        ensures allowed { OnOk result (refusal (read_in (hosted self.old) side) (Event.Offer side (restart_in (hosted self.old) side) false) ≡ None) }
        ensures memory { IfErr result (λ refused. refusal (read_in (hosted self.old) side) (Event.Offer side (restart_in (hosted self.old) side) false) ≡ None
            → refused ≡ Refused.Memory) }
        ensures refused { IfErr result StopsRound }
        ensures leads { ProceedsTo (hosted self.old) (hosted self.new) }
        ensures kept { IsKept (hosted self.new) }
    {
        let instant = restart_by(self.instant(side), self.socket(side).retransmit_at());
        self.read(side)?;
        self.take_on(PairEvent::Offer(side, instant, false))
    }

    /// When a side that was roused goes on: at the instant of a probe, or now.
    fn wake_at(&self, side: Side) -> Instant
        ensures { result ≡ wake_in (hosted self.now) side }
    {
        restart_by(self.instant(side), self.socket(side).probe_at())
    }

    /// A side is asked, what it sends comes to the other, and so does what answers that.
    fn exchange(&mut self, side: Side, instant: Instant) -> Result<(), PairRefused>
        ensures exchanged { OnOk result (hosted self.new ≡ exchanged_in (hosted self.old) side instant) }
        ensures memory { IfErr result (λ refused. MaySendAt (hosted self.old) side instant → refused ≡ Refused.Memory) }
        ensures refused { IfErr result StopsRound }
        ensures leads { ProceedsTo (hosted self.old) (hosted self.new) }
        ensures kept { IsKept (hosted self.new) }
    {
        let answer = self.sent(other(side)).len();
        self.send(side, instant)?;
        self.answer(side, answer)
    }

    /// A side is asked, and what it sends comes to the other.
    fn send(&mut self, side: Side, instant: Instant) -> Result<(), PairRefused>
        ensures sent { OnOk result (hosted self.new ≡ offered_in (hosted self.old) side instant) }
        ensures memory { IfErr result (λ refused. MaySendAt (hosted self.old) side instant → refused ≡ Refused.Memory) }
        ensures refused { IfErr result StopsRound }
        ensures leads { ProceedsTo (hosted self.old) (hosted self.new) }
        ensures kept { IsKept (hosted self.new) }
    {
        let next = self.sent(side).len();
        self.take_on(PairEvent::Offer(side, instant, true))?;
        self.take_on(PairEvent::Deliver(side, next))
    }

    /// What answers a side comes to it: the segment of this number of the other's, if it was sent.
    fn answer(&mut self, side: Side, k: usize) -> Result<(), PairRefused>
        requires one { next_sent (hosted self.old) (other side) ≤ k + 1 }
        requires kept { IsKept (hosted self.old) }
        ensures comes { OnOk result (hosted self.new ≡ answered_by (hosted self.old) side k) }
        ensures memory { IfErr result (λ refused. refused ≡ Refused.Memory) }
        ensures leads { ProceedsTo (hosted self.old) (hosted self.new) }
        ensures kept { IsKept (hosted self.new) }
    {
        if k < self.sent(other(side)).len() {
            self.take_on(PairEvent::Deliver(other(side), k))
        } else {
            Ok(())
        }
    }

    /// The user of the side's peer reads all that waits.
    fn read(&mut self, side: Side) -> Result<(), PairRefused>
        ensures read { OnOk result (hosted self.new ≡ read_in (hosted self.old) side) }
        ensures memory { IfErr result (λ refused. refused ≡ Refused.Memory) }
        ensures leads { ProceedsTo (hosted self.old) (hosted self.new) }
        ensures kept { IsKept (hosted self.new) }
    {
        self.take_on(PairEvent::Recv(other(side), ALL_BYTES))
    }

    /// Takes an event of a round, whose answer nobody looks at.
    fn take_on(&mut self, event: PairEvent) -> Result<(), PairRefused>
        requires { IsOfRound event }
        ensures taken { OnOk result (hosted self.new ≡ takes (hosted self.old) event) }
        ensures allowed { OnOk result (refusal (hosted self.old) event ≡ None) }
        ensures memory { IfErr result (MayRefuse (hosted self.old) event) }
        ensures refused { IfErr result StopsRound }
        ensures leads { ProceedsTo (hosted self.old) (hosted self.new) }
        ensures kept { IsKept (hosted self.new) }
    {
        match self.step(event) {
            Ok(_) => Ok(()),
            Err(refused) => Err(refused),
        }
    }
}

fn other(side: Side) -> Side
    ensures { result ≡ other side }
{
    match side {
        Side::A => Side::B,
        Side::B => Side::A,
    }
}

/// That instant, or now where there is none or it is past.
fn restart_by(now: Instant, instant: Option<Instant>) -> Instant
    ensures { result ≡ restart_by now instant }
{
    match instant {
        Some(instant) => { if now < instant { instant } else { now } }
        None => now,
    }
}
