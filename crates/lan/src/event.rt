//! The event that a line names.
ghost use Rattle.std.specs.Prelude.{◌≡◌, true, IfOk, OnErr};
ghost use Rattle.lan.specs.Events.{side_of, event_of, has_bytes};

use crate::at_link::{Bytes, Event, Side};
use sim_link::{HexBytes, Line, Side as Named};
use std::alloc::{AllocError, Global};

/// The host of a world that a line names.
pub fn side_of(side: Named) -> Side
    ensures { result ≡ side_of side }
{
    match side {
        Named::A => Side::A,
        Named::B => Side::B,
    }
}

fn bytes_of(alloc: Global, bytes: &HexBytes<'_>) -> Result<Bytes, AllocError>
    ensures { IfOk result (λ copy. copy ≡ bytes.now) }
{
    Ok(Bytes::from_vec(bytes.decode(alloc)?))
}

/// The event that a line names; none of a line of the header. `replay` asks for it by itself: this is for a loop of one's own, as a
/// simulator has, that reads a line, steps a `World` and writes what `answer_line` says.
pub fn event_of(alloc: Global, line: &Line<'_>) -> Result<Option<Event>, AllocError>
    ensures event { IfOk result (λ event. event ≡ event_of line.now) }
    ensures memory { OnErr result (has_bytes line.now ≡ true) }
{
    let event = match line {
        Line::World(_, _) | Line::Socket(_, _) | Line::Start => return Ok(None),
        Line::Listen(h, s, port) => Event::Listen(side_of(*h), *s, *port),
        Line::Connect(h, s, remote, port) => Event::Connect(side_of(*h), *s, *remote, *port),
        Line::Send(h, s, bytes) => Event::Send(side_of(*h), *s, bytes_of(alloc, bytes)?),
        Line::Recv(h, s, limit) => Event::Recv(side_of(*h), *s, *limit),
        Line::Close(h, s) => Event::Close(side_of(*h), *s),
        Line::Abort(h, s) => Event::Abort(side_of(*h), *s),
        Line::State(h, s) => Event::State(side_of(*h), *s),
        Line::Bind(h, s, port) => Event::Bind(side_of(*h), *s, *port),
        Line::Ident(h, s, ident) => Event::Ident(side_of(*h), *s, *ident),
        Line::SendTo(h, s, remote, bytes) => {
            Event::SendTo(side_of(*h), *s, *remote, bytes_of(alloc, bytes)?)
        }
        Line::SendIcmp(h, s, remote, bytes) => {
            Event::SendIcmp(side_of(*h), *s, *remote, bytes_of(alloc, bytes)?)
        }
        Line::SendRaw(h, s, bytes) => Event::SendRaw(side_of(*h), *s, bytes_of(alloc, bytes)?),
        Line::RecvFrom(h, s, limit) => Event::RecvFrom(side_of(*h), *s, *limit),
        Line::Addrs(h, blocks) => Event::Addrs(side_of(*h), blocks.to_inner()),
        Line::Hw(h, address) => Event::HardwareAddr(side_of(*h), *address),
        Line::Route(h, router) => Event::Route(side_of(*h), *router),
        Line::Poll(h, instant, budget) => Event::Poll(side_of(*h), *instant, *budget),
        Line::PollAt(h, instant) => Event::PollAt(side_of(*h), *instant),
        Line::Deliver(h, k, padding) => {
            Event::Deliver(side_of(*h), *k, bytes_of(alloc, padding)?)
        }
        Line::Damage(h, k, slot, word, padding) => {
            Event::Damage(side_of(*h), *k, *slot, *word, bytes_of(alloc, padding)?)
        }
        Line::Noise(h, bytes) => Event::Noise(side_of(*h), bytes_of(alloc, bytes)?),
        Line::Room(h, room) => Event::Room(side_of(*h), *room),
        Line::Cut(h, k, at) => Event::Cut(side_of(*h), *k, *at),
    };
    Ok(Some(event))
}
