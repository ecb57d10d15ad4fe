//! A poll of a host, for which room is made first.
ghost use Rattle.std.specs.Prelude.{◌≡◌, false, None, ◌+◌, ◌*◌, ◌≤◌, IfOk, IfSome, OnErr, length};
ghost use Rattle.net_base.specs.Time.{IsMoment};
ghost use Rattle.interface.specs.Departing.{link_room};
ghost use Rattle.interface.specs.Set.{slots};
ghost use Rattle.interface.specs.Polls.{Polls};
ghost use Rattle.interface.specs.State.{state};
ghost use Rattle.sim_link.specs.Port.{PortMove};
ghost use Rattle.lan.specs.Worlds.AtLink.Steps.{PollsAt};

use crate::at_link::host::Host;
use interface::{Interface, PollResult, SocketSet};
use ip_wire::HardwareAddress;
use net_base::Instant;
use sim_link::Port;
use sockets::Socket;
use std::alloc::AllocError;

/// How many bytes the longest frame has that the host sends.
fn longest_frame(interface: &Interface) -> usize
    ensures value { result ≡ link_room interface.now.inner.hardware + interface.now.inner.mtu }
    ensures least { 576 ≤ interface.now.inner.mtu }
{
    let link = match interface.hardware_addr() {
        HardwareAddress::Ip => 0,
        HardwareAddress::Ethernet(_) => 14,
    };
    link + interface.context().mtu()
}

/// How many frames a poll of this budget sends at most: in answer to each frame that it takes, and in each pass a fragment of a datagram
/// and a packet of each socket.
fn most_sends(budget: u16, sockets: &SocketSet<Socket>) -> Option<usize>
    ensures { IfSome result (λ count. count ≡ budget * (length (slots sockets.now) + 2)) }
{
    let each = sockets.slots.as_slice().len().checked_add(2)?;
    each.checked_mul(budget as usize)
}

/// Polls a host for whose frames buffers lie ready: its port refuses none, where nothing is parked.
fn poll_ready(
    interface: &mut Interface,
    port: &mut Port,
    sockets: &mut SocketSet<Socket>,
    instant: Instant,
    budget: u16,
) -> bool
    requires instant { IsMoment instant }
    requires silent { interface.old.reports ≡ None }
    requires alone { interface.old.inner.host_requirements ≡ false }
    requires count { budget * (length (slots sockets.old) + 2) ≤ port.old.ready }
    requires size { link_room interface.old.inner.hardware + interface.old.inner.mtu ≤ port.old.size }
    requires least { 576 ≤ interface.old.inner.mtu }
    ensures polls { Polls PortMove instant budget (state port.old interface.old (slots sockets.old)) result
        (state port.new interface.new (slots sockets.new)) }
    ensures silent { interface.new.reports ≡ None }
    ensures alone { interface.new.inner.host_requirements ≡ false }
    ensures none_denied { interface.old.inner.host_requirements ≡ false → port.new.link.refusals ≡ port.old.link.refusals }
{
    match interface.poll(instant, port, sockets, budget) {
        PollResult::None => false,
        PollResult::SocketStateChanged => true,
    }
}

impl Host {
    /// Polls the host at an instant. Room for all that it may send is made first: lack of memory refuses the poll whole. What is left of
    /// the room stays for later polls.
    pub fn poll(&mut self, instant: Instant, budget: u16) -> Result<bool, AllocError>
        requires { IsMoment instant }
        ensures polls { IfOk result (λ changed. PollsAt self.old instant budget changed self.new) }
        ensures unchanged { OnErr result (self.new ≡ self.old) }
    {
        let count = most_sends(budget, &self.sockets).ok_or(AllocError)?;
        self.port.prepare(count, longest_frame(&self.interface))?;
        Ok(poll_ready(
            &mut self.interface,
            &mut self.port,
            &mut self.sockets,
            instant,
            budget,
        ))
    }
}
