//! What a host after a loopback answers: the request comes out of the device, and so does the reply.
use crate::hosts::polls::common::{UDP, at, begin, no_sockets};
use interface::PollIngressSingleResult;
use net_base::{Device, Loopback, Medium, RxToken};
use std::alloc::Global;
use std::test::Fail;

/// An echo request from 192.168.1.2 to 192.168.1.1, and its reply: worked examples.
const REQUEST: &str = "4500001c000040004001b78dc0a80102c0a801010800e5ca12340001";

const REPLY: &str = "4500001cc24d000040013540c0a80101c0a801020000edca12340001";

/// Puts a frame into a loopback, where it is the next that comes.
fn put(device: &mut Loopback, frame: &[u8]) -> bool {
    let Some(token) = device.transmit(at(0)) else {
        return false;
    };
    device
        .send(token, frame.len(), |buffer: &mut [u8]| {
            buffer.copy_from_slice(frame)
        })
        .is_ok()
}

/// Whether the next frame of the loopback is this one, and the last.
fn is_only(device: &mut Loopback, frame: &[u8]) -> bool {
    let is_next = match device.receive(at(0)) {
        Some((token, _leave)) => token.bytes() == frame,
        None => false,
    };
    is_next && device.receive(at(0)).is_none()
}

/// What a host after a loopback says of what comes out of it.
fn told(alloc: Global, device: &mut Loopback) -> Result<PollIngressSingleResult, Fail> {
    let mut interface = begin(alloc, &UDP, device)?;
    let mut sockets = no_sockets(alloc);
    Ok(interface.poll_ingress_single(at(0), device, &mut sockets))
}

/// Whether the one frame, put into a loopback, takes one call, and the other comes out of it.
fn answers(alloc: Global, device: &mut Loopback, comes: &[u8], goes: &[u8]) -> Result<bool, Fail> {
    if !put(device, comes) {
        return Ok(false);
    }
    let answer = told(alloc, device)?;
    Ok(answer == PollIngressSingleResult::SocketStateChanged && is_only(device, goes))
}

/// Whether the request is answered by the reply.
fn is_given(alloc: Global) -> Result<bool, Fail> {
    let (comes, goes) = (hex::decode(alloc, REQUEST)?, hex::decode(alloc, REPLY)?);
    let mut device = Loopback::new(alloc, Medium::Ip);
    answers(alloc, &mut device, comes.as_slice(), goes.as_slice())
}

#[test]
fn a_request_is_answered_over_a_loopback(rt: HostRuntime) -> Result<(), Fail> {
    assert!(rt; is_given(rt.alloc())?);
    Ok(())
}
