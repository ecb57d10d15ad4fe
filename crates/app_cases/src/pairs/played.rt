//! A case as it is played.
use crate::pairs::answers::{
    push_answer, push_asked, push_ended, push_rounds, push_sent, push_settled, push_side,
};
use crate::pairs::lines::{Line, Sizes, Todo};
use crate::pairs::mirror::{Beside, socket};
use crate::pairs::users::Users;
use sockets::Offer;
use std::alloc::{AllocError, Global};
use tcp_pair::{Pair, PairAnswer, PairRefused, Side};

/// The pair, a socket alongside each of its own, and its users.
#[derive(Drop)]
pub struct Played {
    pub pair: Pair,
    pub a: Beside,
    pub b: Beside,
    pub users: Users,
    /// Whether the sockets alongside were told all that happened.
    pub is_told: bool,
}

impl Played {
    /// Closed sockets with such buffers, if there is memory for them and they aren't too long. (Each early end past a socket would let it
    /// go, which makes a long proof.)
    pub fn new(alloc: Global, sizes: &Sizes) -> Option<Box<Played>> {
        let pair = pair(alloc, sizes);
        let a = Beside::new(alloc, Side::A, sizes.a);
        let b = Beside::new(alloc, Side::B, sizes.b);
        pair.zip(a.zip(b)).and_then(|(pair, (a, b))| {
            let users = Users::new();
            boxed(
                alloc,
                Played {
                    pair,
                    a,
                    b,
                    users,
                    is_told: true,
                },
            )
        })
    }

    /// Does what a line says, and puts what is written of it after a text.
    pub fn take(
        &mut self,
        alloc: Global,
        line: &Line,
        text: &mut String,
    ) -> Result<(), AllocError> {
        let sent = self.counts();
        match line {
            Line::Event(todo) => {
                let answered = self.step(alloc, todo);
                push_answer(alloc, text, &answered)?;
                self.push_after(alloc, text, sent)
            }
            Line::Burst(side, first, last) => {
                let ended = self.burst(alloc, *side, *first, *last);
                push_ended(text, ended)?;
                self.push_after(alloc, text, sent)
            }
            Line::Ask(side, instant) => push_asked(text, self.ask(alloc, *side, *instant)),
            Line::Settle(span) => push_settled(text, self.settle(alloc, *span)),
            Line::Rounds => self.push_rounds(alloc, text),
        }
    }

    /// How many segments A and B sent.
    fn counts(&self) -> (usize, usize) {
        (self.pair.sent(Side::A).len(), self.pair.sent(Side::B).len())
    }

    /// Writes what was sent since there were so many segments, and both sides.
    fn push_after(
        &self,
        alloc: Global,
        text: &mut String,
        sent: (usize, usize),
    ) -> Result<(), AllocError> {
        push_sent(alloc, text, Side::A, self.pair.sent(Side::A), sent.0)?;
        push_sent(alloc, text, Side::B, self.pair.sent(Side::B), sent.1)?;
        self.push_sides(text)
    }

    /// Rounds by the pair itself, of which the sockets alongside are told nothing.
    fn push_rounds(&mut self, alloc: Global, text: &mut String) -> Result<(), AllocError> {
        let from = self.pair.answers().len();
        let ended = self.pair.settle();
        self.is_told = false;
        push_rounds(alloc, text, ended, &self.pair, from)?;
        self.push_sides(text)
    }

    /// Writes both sides.
    fn push_sides(&self, text: &mut String) -> Result<(), AllocError> {
        let (a, b) = (self.pair.socket(Side::A), self.pair.socket(Side::B));
        push_side(text, 'A', a, self.a.poll_at(a))?;
        push_side(text, 'B', b, self.b.poll_at(b))
    }

    /// Takes the event: the answer, and of an offer what was offered.
    pub fn step(
        &mut self,
        alloc: Global,
        todo: &Todo,
    ) -> Result<(PairAnswer, Option<Offer>), PairRefused> {
        let event = todo.event(alloc).map_err(|_| PairRefused::Memory)?;
        let answer = self.pair.step(event)?;
        self.users.note(todo, &answer);
        let offer = self.tell(todo);
        Ok((answer, offer))
    }

    /// Tells the socket alongside what happens at its side, if it was told all before.
    pub fn tell(&mut self, todo: &Todo) -> Option<Offer> {
        if !self.is_told {
            return None;
        }
        match todo {
            Todo::Deliver(Side::A, _) => self.b.take(todo, self.pair.sent(Side::A)),
            Todo::Deliver(Side::B, _) => self.a.take(todo, self.pair.sent(Side::B)),
            _ => match side_of(todo) {
                Side::A => self.a.take(todo, &[]),
                Side::B => self.b.take(todo, &[]),
            },
        }
    }
}

fn pair(alloc: Global, sizes: &Sizes) -> Option<Pair> {
    let a = socket(alloc, sizes.a)?;
    let b = socket(alloc, sizes.b)?;
    Some(Pair::new(alloc, a, b))
}

/// A value on the heap.
fn boxed<T: Drop>(alloc: Global, value: T) -> Option<Box<T>> {
    Box::new(alloc, value).ok()
}

fn side_of(todo: &Todo) -> Side {
    match todo {
        Todo::Listen(side, _)
        | Todo::Connect(side, _, _)
        | Todo::Send(side, _)
        | Todo::Recv(side, _)
        | Todo::Close(side)
        | Todo::Abort(side)
        | Todo::Set(side, _)
        | Todo::Clock(side, _)
        | Todo::Offer(side, _, _)
        | Todo::Deliver(side, _) => *side,
    }
}
