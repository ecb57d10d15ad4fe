//! Runs that stop, and how many bytes a socket accepts.
use crate::worlds::begun::world;
use crate::worlds::common::{Row, tell};
use crate::worlds::steps::play_steps;
use crate::worlds::texts::{IP, TWO_STREAMS};
use lan::at_link::refusal::send_refusal;
use lan::at_link::{SocketKind, SocketRecord};
use lan::{Event, Refused, Side, World};
use std::alloc::{AllocError, Global};
use std::test::Fail;

/// Three events, of which the second is refused.
fn three(alloc: Global) -> Result<Vec<Event>, AllocError> {
    let events = [
        Event::Bind(Side::A, 0, 9),
        Event::Bind(Side::A, 7, 9),
        Event::Bind(Side::B, 0, 9),
    ];
    Ok(Vec::from_array(alloc, events)?)
}

/// How a run of the three ends.
fn end_of_three(alloc: Global, world: &mut World) -> Result<(), (usize, Refused)> {
    match three(alloc) {
        Ok(events) => world.run(events),
        Err(_) => Err((0, Refused::Memory)),
    }
}

/// Whether the second of the three stops the run. It is begun again where the first finds no memory.
fn second_stops(rt: &HostRuntime, world: &mut World) -> Result<bool, Fail> {
    let mut end = end_of_three(rt.alloc(), world);
    if matches!(end, Err((0, Refused::Memory))) {
        tell(rt, "a run is begun anew")?;
        end = end_of_three(rt.alloc(), world);
    }
    Ok(matches!(end, Err((1, Refused::NoSocket))) && world.answers().len() == 1)
}

/// The same of a world of its own.
fn second_stops_at(rt: &HostRuntime, mut world: Box<World>) -> Result<bool, Fail> {
    second_stops(rt, &mut world)
}

#[test]
fn a_run_stops_at_the_first_refusal(rt: HostRuntime) -> Result<(), Fail> {
    let stops = second_stops_at(&rt, world(&rt, &[IP])?)?;
    assert!(rt; stops);
    Ok(())
}

/// Why a stream that accepted 2^29 - 3 bytes doesn't accept these.
fn refusal_near_the_end(bytes: &[u8]) -> Option<Refused> {
    let nearly = SocketRecord {
        opened: None,
        accepted: (1 << 29) - 3,
    };
    send_refusal(Some(SocketKind::Tcp), &[nearly], 0, bytes)
}

/// Whether a new socket doesn't accept so many bytes.
fn is_too_many(bytes: usize) -> bool {
    SocketRecord::NONE.is_too_many(bytes)
}

/// Why such a stream doesn't accept two bytes and three, and whether a new socket doesn't accept 2^29 - 1 and 2^29.
fn bounds() -> (Option<Refused>, Option<Refused>, bool, bool) {
    (
        refusal_near_the_end(b"ab"),
        refusal_near_the_end(b"abc"),
        is_too_many((1 << 29) - 1),
        is_too_many(1 << 29),
    )
}

/// Of the bytes that a socket accepted a world keeps the count: so the last one that is taken is shown without half a gigabyte.
#[test]
fn a_socket_accepts_fewer_than_2_to_the_29_bytes(rt: HostRuntime) -> Result<(), Fail> {
    assert!(rt; bounds() == (None, Some(Refused::TooManyBytes), false, true));
    Ok(())
}

/// A socket that was never opened, and then one that accepted three bytes: of both the byte that makes 2^29 is refused, and nothing has
/// changed. One byte less is taken, as far as the queue has room.
const NEAR_THE_END: &str = "\
fill 536870912
> refused TooManyBytes
listen B 0 80
> ok
connect A 0 192.168.1.2:80 49500
> ok
poll A 0 8
> changed
deliver A 0 -
> ok
poll B 0 8
> changed
deliver B 0 -
> ok
poll A 0 8
> changed
send A 0 616263
> ok 3
fill 536870909
> refused TooManyBytes
state A 0
> state ESTABLISHED
";

const LAST_TAKEN: &str = "\
fill 536870908
> ok 61
poll A 0 8
> changed
deliver A 2 -
> ok
poll B 0 8
> changed
recv B 0 3
> data 616263
recv B 0 64
> data {61*5a}
recv B 0 64
> data -
";

static ROWS: [Row; 1] = [(
    "bytes are bounded",
    &[TWO_STREAMS, NEAR_THE_END],
    LAST_TAKEN,
)];

/// Half a gigabyte is offered three times, and kept once.
#[test]
fn the_byte_that_makes_2_to_the_29_is_refused(rt: HostRuntime) -> Result<(), Fail> {
    play_steps(&rt, &ROWS)
}
