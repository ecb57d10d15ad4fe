//! Worlds that settle: what the link lost comes when the timers run out, and where both hosts are at rest all has come.
use crate::worlds::begun::world;
use crate::worlds::texts::TWO_STREAMS;
use ip_wire::{IpAddress, IpEndpoint};
use lan::{Answer, Bytes, Event, Refused, Side, World};
use net_base::Instant;
use std::alloc::Global;
use std::test::Fail;

/// A and B call and listen, and the link loses A's SYN, which goes at the instant 0.
fn lose_the_syn(world: &mut World) -> Result<(), Refused> {
    let remote = IpEndpoint::new(IpAddress::v4(192, 168, 1, 2), 80);
    world.step(Event::Listen(Side::B, 0, 80))?;
    world.step(Event::Connect(Side::A, 0, remote, 49152))?;
    world.step(Event::Poll(Side::A, Instant::ZERO, 8))?;
    Ok(())
}

/// A writes a text, of which the link loses the segment.
fn lose_the_text(world: &mut World, text: Bytes, instant: Instant) -> Result<(), Refused> {
    world.step(Event::Send(Side::A, 0, text))?;
    world.step(Event::Poll(Side::A, instant, 8))?;
    Ok(())
}

/// What B reads, where it does.
fn read(world: &mut World) -> Result<Option<Bytes>, Refused> {
    match world.step(Event::Recv(Side::B, 0, 64))? {
        Answer::Bytes(bytes) => Ok(Some(bytes)),
        _ => Ok(None),
    }
}

/// When the two are at rest after a SYN and a text that were lost, and what B reads then.
fn settled(
    world: &mut World,
    text: Bytes,
) -> Result<(Option<Instant>, Option<Instant>, Option<Bytes>), Refused> {
    lose_the_syn(world)?;
    let opened = world.settle(Instant::ZERO, 8, 16)?;
    lose_the_text(world, text, opened.unwrap_or(Instant::ZERO))?;
    let came = world.settle(opened.unwrap_or(Instant::ZERO), 8, 16)?;
    Ok((opened, came, read(world)?))
}

/// The same in a world of its own. A SYN goes again a second later (RFC 6298, section 2.1).
fn settles(alloc: Global, mut world: Box<World>) -> Result<bool, Fail> {
    let text = Bytes::from_slice(alloc, b"abc")?;
    let Ok((opened, came, read)) = settled(&mut world, text) else {
        return Err("a refusal".into());
    };
    let is_whole = match &read {
        Some(bytes) => bytes.as_slice() == b"abc".as_slice(),
        None => false,
    };
    Ok(opened == Some(Instant::from_secs(1)) && came > opened && is_whole)
}

#[test]
fn what_was_lost_has_come_where_both_are_at_rest(rt: HostRuntime) -> Result<(), Fail> {
    assert!(rt; settles(rt.alloc(), world(&rt, &[TWO_STREAMS])?)?);
    Ok(())
}

/// Two that have nothing to do are at rest at once, and no round is no rest.
fn rest_at_once(mut world: Box<World>) -> (bool, bool) {
    let none = matches!(world.settle(Instant::ZERO, 8, 0), Ok(None));
    let one = matches!(world.settle(Instant::ZERO, 8, 1), Ok(Some(Instant::ZERO)));
    (none, one)
}

#[test]
fn two_with_nothing_to_do_are_at_rest_at_once(rt: HostRuntime) -> Result<(), Fail> {
    assert!(rt; rest_at_once(world(&rt, &[TWO_STREAMS])?) == (true, true));
    Ok(())
}
