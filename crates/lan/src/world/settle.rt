//! A world whose link is good for a while, and whose hosts are polled when they want to be.
ghost use Rattle.std.specs.Prelude.{◌≡◌, ◌↔◌, ◌-◌, Some, None, IfErr, IfOk, IfSome, IsTrue, OnErr, OnOk};
ghost use Rattle.lan.specs.declared.at_link.history.answer.Answer.TheVariants as To;
ghost use Rattle.lan.specs.declared.at_link.history.event.Event.TheVariants as E;
ghost use Rattle.lan.specs.Worlds.AtLink.Runs.{Step, Steps};
ghost use Rattle.lan.specs.Worlds.Promises.{IsSafeWorld};
ghost use Rattle.lan.specs.Worlds.Settling.{AreIdle, AreServed, Goes, IsCalm, IsServed, IsService, NextRound, Settles, Stops, StopsAsking, StopsHanding, StopsServing, StopsServingBoth, StopsSettling, all_sent, deliveries};

use crate::at_link::{Answer, Bytes, Event, Refused, Side};
use crate::world::World;
use interface::earlier;
use net_base::Instant;

/// How many frames of each host were handed over, or are lost.
#[derive(Clone, Copy)]
struct Handed {
    a: usize,
    b: usize,
}

impl World {
    /// Lets both hosts do what is theirs to do, and the link hand over each frame that they send, until neither host wants to be polled any
    /// more, or so many rounds are over. Answers the instant at which both were at rest, if they came to be.
    ///
    /// A round polls each host once with this budget, and hands over as many of its frames, A's before B is polled. Where all frames had come
    /// before, and none waits for a host, the clock, which begins at `from`, goes on to the instant at which a host wants to be polled. Frames
    /// that were sent before are left out, as lost.
    ///
    /// A refusal is that of the event which comes next in a round, and leaves what there was before it: `Moment` where `from` is past, say.
    ///
    /// Where hosts keep their addresses, and answer nothing that no socket of theirs takes, what is at rest has arrived: all that was written
    /// to a socket that is connected has come to its peer (`proof_stack::progress::settled`).
    pub fn settle(
        &mut self,
        from: Instant,
        budget: u16,
        rounds: usize,
    ) -> Result<Option<Instant>, Refused>
        ensures rounds { IfOk result (λ rested. Settles budget from rounds rested self.old self.new) }
        ensures goes { Goes self.old self.new }
        ensures rest { IfOk result (λ rested. IfSome rested (λ instant. AreIdle instant self.new.history)) }
        ensures refused { IfErr result (λ refused. StopsSettling budget from rounds refused self.old self.new) }
        ensures promises { IsSafeWorld self.new }
    {
        let outcome = self.settle_by(from, budget, rounds);
        self.well_run();
        outcome
    }

    /// The rounds.
    fn settle_by(
        &mut self,
        from: Instant,
        budget: u16,
        rounds: usize,
    ) -> Result<Option<Instant>, Refused>
        ensures rounds { IfOk result (λ rested. Settles budget from rounds rested self.old self.new) }
        ensures goes { Goes self.old self.new }
        ensures rest { IfOk result (λ rested. IfSome rested (λ instant. AreIdle instant self.new.history)) }
        ensures refused { IfErr result (λ refused. StopsSettling budget from rounds refused self.old self.new) }
    {
        let mut instant = from;
        let mut handed = self.all_sent();
        for _round in 0..rounds {
            let now = self.serve_both(instant, budget, handed)?;
            match self.next_round(instant, handed)? {
                Some(next) => {
                    instant = next;
                    handed = now;
                }
                None => return Ok(Some(instant)),
            }
        }
        Ok(None)
    }

    /// How many frames each host sent.
    fn all_sent(&self) -> Handed
        ensures { result ≡ all_sent self.now }
    {
        Handed {
            a: self.a.sent_count(),
            b: self.b.sent_count(),
        }
    }

    /// Serves A, and then B. Answers how many of their frames are handed over then.
    fn serve_both(
        &mut self,
        instant: Instant,
        budget: u16,
        handed: Handed,
    ) -> Result<Handed, Refused>
        ensures goes { Goes self.old self.new }
        ensures served { IfOk result (λ now. AreServed instant budget handed now self.old self.new) }
        ensures refused { IfErr result (λ refused. StopsServingBoth instant budget handed refused self.old self.new) }
    {
        let a = self.serve(Side::A, instant, budget, handed.a)?;
        let b = self.serve(Side::B, instant, budget, handed.b)?;
        Ok(Handed { a, b })
    }

    /// Polls a host, and hands the frames over that it sent after so many. Answers how many are handed over then.
    fn serve(
        &mut self,
        side: Side,
        instant: Instant,
        budget: u16,
        handed: usize,
    ) -> Result<usize, Refused>
        ensures goes { Goes self.old self.new }
        ensures served { IfOk result (λ now. IsServed side instant budget handed now self.old self.new) }
        ensures refused { IfErr result (λ refused. StopsServing side instant budget handed refused self.old self.new) }
    {
        self.serve_by(Event::Poll(side, instant, budget))?;
        let end = self
            .sent(side)
            .len()
            .min(handed.saturating_add(budget as usize));
        self.hand_over(side, handed, end)?;
        Ok(end)
    }

    /// Hands these frames of a host over.
    fn hand_over(&mut self, side: Side, from: usize, to: usize) -> Result<(), Refused>
        ensures goes { Goes self.old self.new }
        ensures handed { OnOk result (Steps self.old (deliveries side from (to - from)) self.new) }
        ensures refused { IfErr result (λ refused. StopsHanding side from (to - from) refused self.old self.new) }
    {
        for frame in from..to {
            let padding = Bytes::from_vec(Vec::new(self.alloc));
            self.serve_by(Event::Deliver(side, frame, padding))?;
        }
        Ok(())
    }

    /// Takes a poll, a question or a frame.
    fn serve_by(&mut self, event: Event) -> Result<Answer, Refused>
        requires { IsService event }
        ensures goes { Goes self.old self.new }
        ensures step { IfOk result (λ answer. Step self.old event answer self.new) }
        ensures unchanged { OnErr result (self.new ≡ self.old) }
        ensures refused { IfErr result (Stops self.new event) }
    {
        self.step(event)
    }

    /// When the next round is, if there is one.
    fn next_round(&mut self, instant: Instant, handed: Handed) -> Result<Option<Instant>, Refused>
        ensures goes { Goes self.old self.new }
        ensures next { IfOk result (λ next. NextRound instant handed next self.old self.new) }
        ensures refused { IfErr result (λ refused. StopsAsking instant handed refused self.old self.new) }
    {
        if !self.is_calm(handed) {
            return Ok(Some(instant));
        }
        let a = self.ask(Side::A, instant)?;
        let b = self.ask(Side::B, instant)?;
        Ok(earlier(a, b).map(|at| instant.max(at)))
    }

    /// Whether all that the hosts sent had come before, and nothing waits.
    fn is_calm(&self, handed: Handed) -> bool
        ensures { IsTrue result ↔ IsCalm handed self.now }
    {
        self.a.sent_count() == handed.a
            && self.b.sent_count() == handed.b
            && self.a.waiting_count() == 0
            && self.b.waiting_count() == 0
    }

    /// When a host wants to be polled.
    fn ask(&mut self, side: Side, instant: Instant) -> Result<Option<Instant>, Refused>
        ensures goes { Goes self.old self.new }
        ensures asked { IfOk result (λ at. Step self.old (E.PollAt side instant) (To.At at) self.new) }
        ensures unchanged { OnErr result (self.new ≡ self.old) }
        ensures refused { IfErr result (Stops self.new (E.PollAt side instant)) }
    {
        match self.serve_by(Event::PollAt(side, instant))? {
            Answer::At(at) => Ok(at),
            _ => unreachable!(),
        }
    }
}
