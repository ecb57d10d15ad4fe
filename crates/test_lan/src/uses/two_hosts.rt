//! Two hosts on a link that promises nothing.
ghost use Rattle.std.specs.Prelude.{OnOk};
ghost use Rattle.lan.specs.Promises.{IsSafeWorld};

use anyhow::Result;
use ip_wire::{IpAddress, IpEndpoint};
use lan::{Answer, Bytes, Event, Refused, Side, World};
use net_base::Instant;
use std::alloc::Global;

const PORT: u16 = 80;

// Takes an event whose answer nobody looks at.
fn take(world: &mut World, event: Event) -> Result<(), Refused>
    ensures { IsSafeWorld world.new }
{
    world.step(event).map(|_| ())
}

// B listens, and A sends its SYN.
fn open(world: &mut World) -> Result<(), Refused>
    ensures { IsSafeWorld world.new }
{
    take(world, Event::Listen(Side::B, 0, PORT))?;
    let remote = IpEndpoint::new(IpAddress::v4(192, 168, 1, 2), PORT);
    take(world, Event::Connect(Side::A, 0, remote, 49152))?;
    take(world, Event::Poll(Side::A, Instant::ZERO, 8))
}

// No bytes after a frame.
fn no_padding(alloc: Global) -> Bytes {
    Bytes::from_vec(Vec::new(alloc))
}

// The SYN comes to B, and B's answer to A.
fn answer(alloc: Global, world: &mut World) -> Result<(), Refused>
    ensures { IsSafeWorld world.new }
{
    take(world, Event::Deliver(Side::A, 0, no_padding(alloc)))?;
    take(world, Event::Poll(Side::B, Instant::ZERO, 8))?;
    take(world, Event::Deliver(Side::B, 0, no_padding(alloc)))
}

// A acknowledges, and writes a text.
fn write(world: &mut World, text: Bytes) -> Result<(), Refused>
    ensures { IsSafeWorld world.new }
{
    take(world, Event::Poll(Side::A, Instant::ZERO, 8))?;
    take(world, Event::Send(Side::A, 0, text))?;
    take(world, Event::Poll(Side::A, Instant::ZERO, 8))
}

// The link loses A's acknowledgement. It hands the text over twice, at first with bytes after it.
fn hand_over(alloc: Global, world: &mut World, padding: Bytes) -> Result<(), Refused>
    ensures { IsSafeWorld world.new }
{
    take(world, Event::Deliver(Side::A, 2, padding))?;
    take(world, Event::Deliver(Side::A, 2, no_padding(alloc)))?;
    take(world, Event::Poll(Side::B, Instant::ZERO, 8))
}

// What B reads.
fn read_some(world: &mut World) -> Result<Option<Bytes>, Refused>
    ensures { IsSafeWorld world.new }
{
    match world.step(Event::Recv(Side::B, 0, 64))? {
        Answer::Bytes(bytes) => Ok(Some(bytes)),
        _ => Ok(None),
    }
}

/// A writes to B, and the link loses, repeats and pads frames. Returns what B reads.
pub fn talk(alloc: Global, world: &mut World) -> Result<Option<Bytes>>
    ensures { OnOk result (IsSafeWorld world.new) }
{
    open(world)?;
    answer(alloc, world)?;
    write(world, Bytes::from_slice(alloc, b"hello")?)?;
    hand_over(alloc, world, Bytes::from_slice(alloc, b"padding")?)?;
    Ok(read_some(world)?)
}
