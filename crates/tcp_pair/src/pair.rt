//! Two sockets, and what happened to them.
ghost use Rattle.std.specs.Prelude.{◌≡◌, ◌<◌, take, length, slice_get, IfOk, IfErr, IfSome, OnOk, OnErr, None, Err};
ghost use Rattle.tcp_refinement.specs.Promises.{IsInitial};
ghost use Rattle.tcp_refinement.specs.Pair.History.{side_of, answers_of};
ghost use Rattle.tcp_refinement.specs.Pair.Safe.{IsKept, IsSafe};
ghost use Rattle.tcp_refinement.specs.Pair.Sides.{at};
ghost use Rattle.tcp_refinement.specs.Pair.Steps.{refusal, happens, Steps};
ghost use Rattle.tcp_refinement.specs.Pair.Values.{new_pair};
ghost use Rattle.tcp_refinement.specs.declared.pair.event.Side.TheVariants.{A, B};
ghost use Rattle.tcp_liveness.specs.Reached.{IsReached};
ghost use Rattle.tcp_pair.specs.Ends.{named, MayAct, acted_at, ends_after};
ghost use Rattle.tcp_pair.specs.Invariant.{MayRefuse};
ghost use Rattle.tcp_pair.specs.Settling.{IsNewSocket};
ghost use Rattle.tcp_pair.specs.States.{hosted};

use crate::answer::Twins;
use crate::end::End;
use net_base::Instant;
use std::alloc::{AllocError, Global};
use std::marker::Model;
use tcp_refinement::pair::{PairAnswer, PairEvent, PairRefused, SentSegment, Side};
use tcp_socket::{Socket, State};

/// An event that was taken, and the state in which it found the socket that it is for.
#[derive(Drop)]
struct Taken {
    event: PairEvent,
    found: State,
}

/// Two TCP sockets over whatever lies between them: each segment that one of them sent can be handed to the
/// other, at any time, any number of times, in any order, or never.
///
/// Whatever happens to them, each of their streams is safe: what a side took in begins what the other wrote,
/// only bytes that were taken in are freed, and the end of the stream means that the other was closed and that
/// all was read.
#[derive(Drop)]
pub struct Pair {
    alloc: Global,
    a: End,
    b: End,
    taken: Vec<Taken>,
    answers: Vec<PairAnswer>,
}

impl Model for Pair {
    ghost use Rattle.tcp_pair.specs.States.{PairState};

    ghost Value = { PairState };

    ghost use Rattle.tcp_pair.specs.Invariant.{pair_of, IsPairOf};

    ghost view = { λ p. pair_of (record { a = p.a; b = p.b }) p.taken.items p.answers.items };

    ghost invariant = { λ p. IsPairOf (record { a = p.a; b = p.b }) p.taken.items p.answers.items };
}

impl Pair {
    /// Two sockets to which nothing happened yet: closed, with nothing queued or waiting. It allocates nothing:
    /// `alloc` serves later calls.
    pub fn new(alloc: Global, a: Socket, b: Socket) -> Pair
        requires a { IsInitial a }
        requires b { IsInitial b }
        ensures value { hosted result ≡ new_pair a b }
        ensures reached { IsNewSocket a → IsNewSocket b → IsReached (hosted result) }
        ensures kept { IsKept (hosted result) }
        ensures safe { IsSafe (hosted result) }
    {
        Pair {
            alloc,
            a: End::new(alloc, Side::A, a),
            b: End::new(alloc, Side::B, b),
            taken: Vec::new(alloc),
            answers: Vec::new(alloc),
        }
    }

    /// Why the pair doesn't take an event, but for lack of memory.
    fn refusal(&self, event: &PairEvent) -> Option<PairRefused>
        ensures value { result ≡ refusal (hosted self.now) event.now }
        ensures kept { IsKept (hosted self.now) }
    {
        end_at(&self.a, &self.b, named_by(event)).refusal(event)
    }

    /// Takes one event and answers it, or refuses it.
    ///
    /// Memory for the event, its answer and a segment is taken first: where there is none the event is refused
    /// whole. After a refusal nothing has changed.
    pub fn step(&mut self, event: PairEvent) -> Result<PairAnswer, PairRefused>
        ensures step { IfOk result (λ answer. happens (hosted self.old) event ≡ record { answer = answer; pair = hosted self.new }) }
        ensures taken { OnOk result (refusal (hosted self.old) event ≡ None) }
        ensures exact { IfSome (refusal (hosted self.old) event) (λ refused. result ≡ Err refused) }
        ensures memory { IfErr result (MayRefuse (hosted self.old) event) }
        ensures unchanged { OnErr result (self.new ≡ self.old) }
        ensures reached { IsReached (hosted self.old) → IsReached (hosted self.new) }
        ensures kept { IsKept (hosted self.new) }
        ensures safe { IsSafe (hosted self.new) }
    {
        match self.refusal(&event) {
            Some(refused) => Err(refused),
            None => self.take(event).map_err(|_| PairRefused::Memory),
        }
    }

    /// Takes an event that isn't refused but for lack of memory.
    fn take(&mut self, event: PairEvent) -> Result<PairAnswer, AllocError>
        requires { refusal (hosted self.old) event ≡ None }
        ensures step { IfOk result (λ answer. happens (hosted self.old) event ≡ record { answer = answer; pair = hosted self.new }) }
        ensures unchanged { OnErr result (self.new ≡ self.old) }
        ensures kept { IsKept (hosted self.new) }
    {
        self.taken.try_reserve(1)?;
        self.answers.try_reserve(1)?;
        let found = end_at(&self.a, &self.b, side_of(&event)).socket().state();
        let (answer, twin) = act(self.alloc, &mut self.a, &mut self.b, &event)?;
        self.taken.push_reserved(Taken { event, found });
        self.answers.push_reserved(twin);
        Ok(answer)
    }

    /// Takes events in order, up to the first that is refused: its offset among them comes with the refusal, and
    /// the steps before it stay.
    pub fn run(&mut self, events: Vec<PairEvent>) -> Result<(), (usize, PairRefused)>
        ensures ok { OnOk result (Steps (hosted self.old) events.items (hosted self.new)) }
        ensures err { IfErr result (λ e. Steps (hosted self.old) (take e.0 events.items) (hosted self.new)) }
        ensures offset { IfErr result (λ e. e.0 < length events.items) }
        ensures refused { IfErr result (λ e. IfSome (slice_get events.items e.0) (λ event. MayRefuse (hosted self.new) event e.1)) }
        ensures reached { IsReached (hosted self.old) → IsReached (hosted self.new) }
        ensures kept { IsKept (hosted self.new) }
        ensures safe { IsSafe (hosted self.new) }
    {
        // The use of a field tells what is always true of a pair: the loop begins with it.
        let _ = &self.answers;
        let mut offset = 0;
        for event in events {
            if let Err(refused) = self.step(event) {
                return Err((offset, refused));
            }
            offset += 1;
        }
        Ok(())
    }

    /// The socket of a side.
    pub fn socket(&self, side: Side) -> &Socket
        ensures { result.now ≡ (at (hosted self.now).sides side).socket }
    {
        end_at(&self.a, &self.b, side).socket()
    }

    /// The last instant of a side: 0, or that which its host's clock showed last, or at which it was asked since.
    pub fn instant(&self, side: Side) -> Instant
        ensures { result ≡ (at (hosted self.now).sides side).instant }
    {
        end_at(&self.a, &self.b, side).instant()
    }

    /// The segments that a side sent, the oldest first.
    pub fn sent(&self, side: Side) -> &[SentSegment]
        ensures { result.now ≡ (at (hosted self.now).sides side).sent }
    {
        end_at(&self.a, &self.b, side).sent()
    }

    /// The answers so far, the oldest first.
    pub fn answers(&self) -> &[PairAnswer]
        ensures { result.now ≡ answers_of self.now.history }
    {
        self.answers.as_slice()
    }
}

/// One of the two.
fn end_at<'a>(a: &'a End, b: &'a End, side: Side) -> &'a End
    ensures { result.now ≡ at (record { a = a.now; b = b.now }) side }
{
    match side {
        Side::A => a,
        Side::B => b,
    }
}

/// The side that the event names.
fn named_by(event: &PairEvent) -> Side
    ensures { result ≡ named event.now }
{
    match event {
        PairEvent::Listen(side, _)
        | PairEvent::Connect(side, _, _)
        | PairEvent::Send(side, _)
        | PairEvent::Recv(side, _)
        | PairEvent::Close(side)
        | PairEvent::Abort(side)
        | PairEvent::TcpSetting(side, _)
        | PairEvent::Clock(side, _)
        | PairEvent::Offer(side, _, _)
        | PairEvent::Deliver(side, _) => *side,
    }
}

/// The side that the event is for.
fn side_of(event: &PairEvent) -> Side
    ensures { result ≡ side_of event.now }
{
    match event {
        PairEvent::Deliver(Side::A, _) => Side::B,
        PairEvent::Deliver(Side::B, _) => Side::A,
        event => named_by(event),
    }
}

/// What the event does. It is answered twice: for the caller, and to be kept.
fn act(alloc: Global, a: &mut End, b: &mut End, event: &PairEvent) -> Result<Twins, AllocError>
    requires a { a.old.side ≡ A }
    requires b { b.old.side ≡ B }
    requires allowed { MayAct (at (record { a = a.old; b = b.old }) (side_of event.now)) event.now }
    ensures answer { IfOk result (λ r. r.0 ≡ (acted_at (record { a = a.old; b = b.old }) event.now).answer) }
    ensures twin { IfOk result (λ r. r.1 ≡ r.0) }
    ensures after { OnOk result (record { a = a.new; b = b.new } ≡ ends_after (record { a = a.old; b = b.old }) event.now) }
    ensures same_a { OnErr result (a.new ≡ a.old) }
    ensures same_b { OnErr result (b.new ≡ b.old) }
{
    match side_of(event) {
        Side::A => a.act(alloc, b.sent(), event),
        Side::B => b.act(alloc, a.sent(), event),
    }
}
