//! The call of an event, at the place of its socket.
ghost use Rattle.std.specs.Prelude.{◌≡◌, slice_get, Some, IfOk, OnErr};
ghost use Rattle.lan.specs.Worlds.AtLink.Kinds.{kind_of};
ghost use Rattle.interface.specs.Set.{slots};
ghost use Rattle.lan.specs.Worlds.AtLink.Calling.{SlotCalls, IsCall};
ghost use Rattle.lan.specs.Worlds.AtLink.Acting.{ActsBy};

use crate::at_link::answer::Taken;
use crate::at_link::calls::call;
use crate::at_link::history::Event;
use crate::at_link::host::Host;
use interface::{Interface, Slots, SocketSet};
use sockets::Socket;
use std::alloc::{AllocError, Global};

fn call_in(
    alloc: Global,
    interface: &mut Interface,
    slots: &mut Slots<Socket>,
    slot: usize,
    event: &Event,
) -> Result<Option<Taken>, AllocError>
    ensures done { IfOk result
        (λ said. SlotCalls interface.old slots.old slot (kind_of event.now) (slice_get slots.old slot) said interface.new slots.new) }
    ensures interface { OnErr result (interface.new ≡ interface.old) }
    ensures slots { OnErr result (slots.new ≡ slots.old) }
{
    if slot >= slots.len() {
        return Ok(None);
    }
    match &mut slots.slot_mut(slot).inner {
        Some(item) => call(alloc, &mut item.socket, interface, event),
        None => Ok(None),
    }
}

/// The call of an event, if there is a socket at the slot.
fn call_at(
    alloc: Global,
    interface: &mut Interface,
    sockets: &mut SocketSet<Socket>,
    slot: usize,
    event: &Event,
) -> Result<Option<Taken>, AllocError>
    ensures done { IfOk result
        (λ said. SlotCalls interface.old (slots sockets.old) slot (kind_of event.now) (slice_get (slots sockets.old) slot) said interface.new
        (slots sockets.new)) }
    ensures interface { OnErr result (interface.new ≡ interface.old) }
    ensures slots { OnErr result (slots sockets.new ≡ slots sockets.old) }
{
    call_in(alloc, interface, &mut sockets.slots, slot, event)
}

impl Host {
    /// The call of an event, of a socket that has it.
    pub fn call(&mut self, alloc: Global, slot: usize, event: &Event) -> Result<Taken, AllocError>
        requires { IsCall self.old.slots slot (kind_of event.now) }
        ensures done { IfOk result (λ taken. ActsBy self.old (kind_of event.now) taken self.new) }
        ensures unchanged { OnErr result (self.new ≡ self.old) }
    {
        let said = call_at(alloc, &mut self.interface, &mut self.sockets, slot, event)?;
        match said {
            Some(taken) => Ok(taken),
            None => unreachable!(),
        }
    }
}
