//! One step of the egress path.
ghost use Rattle.std.specs.Prelude.{◌≡◌, false};
ghost use Rattle.iface_egress.specs.Inner.{InnerValue, at_instant};
ghost use Rattle.interface.specs.Host.{sender};
ghost use Rattle.interface.specs.Pass.{passed};
ghost use Rattle.interface.specs.EgressPath.{Clears, Egress};
ghost use Rattle.interface.specs.QuietStep.{AreUnchanged, IsEarly, IsQuiet};
ghost use Rattle.interface.specs.SameHost.{IsSameHost};

use crate::awaited::turn_if_any;
use crate::round::pass;
use iface_egress::{Fragmenter, InterfaceInner, Slots, send_next, send_parked};
use iface_ingress::socket_laws::due_as_before;
use iface_ingress::{Context, Socket};
use net_base::Device;

/// Sends the fragment that waits, if there is one, and then what the sockets have. Says whether a socket or a queue changed.
pub fn egress<D: Device>(
    inner: &mut InterfaceInner,
    fragmenter: &mut Fragmenter,
    device: &mut D,
    slots: &mut Slots<Socket>,
) -> bool
    ensures egress { Egress D.moves (sender device.old inner.old fragmenter.old) slots.old
        (passed (sender device.new inner.new fragmenter.new) slots.new result) }
    ensures host { IsSameHost inner.old inner.new }
    ensures unchanged { result ≡ false → AreUnchanged slots.old slots.new }
    ensures quiet { (asked : InnerValue) → inner.old ≡ at_instant inner.old.instant asked
        → IsEarly asked fragmenter.old slots.old inner.old.instant
        → IsQuiet asked (sender device.old inner.old fragmenter.old) slots.old (passed (sender device.new inner.new fragmenter.new) slots.new result) }
    ensures capabilities { D.described device.new ≡ D.described device.old }
{
    due_as_before();
    send_turns(inner, fragmenter, device, slots)
}

/// Sends the fragment that waits, and then what the sockets have.
fn send_turns<D: Device>(
    inner: &mut InterfaceInner,
    fragmenter: &mut Fragmenter,
    device: &mut D,
    slots: &mut Slots<Socket>,
) -> bool
    ensures egress { Egress D.moves (sender device.old inner.old fragmenter.old) slots.old
        (passed (sender device.new inner.new fragmenter.new) slots.new result) }
    ensures capabilities { D.described device.new ≡ D.described device.old }
{
    if !send_waiting(inner, fragmenter, device) {
        return false;
    }
    if !send_parked(inner, fragmenter, device) {
        return false;
    }
    let turn = turn_if_any(inner, slots);
    pass(&turn, inner, fragmenter, device, slots)
}

/// Sends the fragment that waits. Says whether none waits to go before the sockets' packets any more.
fn send_waiting<D: Device>(
    inner: &InterfaceInner,
    fragmenter: &mut Fragmenter,
    device: &mut D,
) -> bool
    ensures clears { Clears D.moves fragmenter.old (sender device.old inner.now fragmenter.old) result (sender device.new inner.now fragmenter.new) }
    ensures capabilities { D.described device.new ≡ D.described device.old }
{
    if !fragmenter.is_waiting() {
        return true;
    }
    let Some(token) = device.transmit(inner.now()) else {
        return false;
    };
    send_next(inner, fragmenter, device, token)
}
