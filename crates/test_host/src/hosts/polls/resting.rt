//! Tests of who has a turn: a socket that has nothing to do rests after its turn, until it is lent.
use crate::hosts::polls::common::{Host, TCP, UDP};
use crate::hosts::polls::streams::listening_socket;
use std::test::Fail;

/// The first slot from this one on that has a turn.
fn busy(host: &Host, from: usize) -> Option<usize> {
    host.sockets.slots.next_busy(from)
}

/// A socket has its turn where it is new, rests after it, and has one again once it was lent.
#[test]
fn a_socket_rests_following_its_turn(rt: HostRuntime) -> Result<(), Fail> {
    let mut host = Host::new(rt.alloc(), &UDP)?;
    assert!(rt; busy(&host, 0) == Some(0));
    host.poll(1);
    assert!(rt; busy(&host, 0).is_none());
    assert!(rt; host.received().is_none());
    assert!(rt; busy(&host, 0) == Some(0));
    host.poll(1);
    assert!(rt; busy(&host, 0).is_none());
    Ok(())
}

/// Of three sockets the one that was lent has a turn.
#[test]
fn others_rest(rt: HostRuntime) -> Result<(), Fail> {
    let mut host = Host::new(rt.alloc(), &TCP)?;
    let second = host.add(listening_socket(rt.alloc(), 64)?);
    let third = host.add(listening_socket(rt.alloc(), 64)?);
    assert!(rt; third.is_some());
    host.poll(1);
    assert!(rt; busy(&host, 0).is_none());
    host.handle = second;
    assert!(rt; host.tcp().is_some());
    assert!(rt; busy(&host, 0) == Some(1));
    assert!(rt; busy(&host, 2).is_none());
    Ok(())
}

/// A connection whose SYN isn't answered has its turns, for it waits for an instant.
#[test]
fn who_waits_for_an_instant_has_turns(rt: HostRuntime) -> Result<(), Fail> {
    let mut host = Host::new(rt.alloc(), &TCP)?;
    assert!(rt; host.connect());
    host.poll(2);
    assert!(rt; busy(&host, 0) == Some(0));
    Ok(())
}
