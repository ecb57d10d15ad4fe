//! A pass over the sockets.
ghost use Rattle.std.specs.Prelude.{◌≡◌, false, [], ◌||◌, length};
ghost use Rattle.interface.specs.Host.{sender};
ghost use Rattle.interface.specs.Pass.{Pass, passed};

use crate::serve::{Served, serve_slot};
use iface_egress::{Fragmenter, InterfaceInner, Slots};
use iface_ingress::Socket;
use iface_ingress::socket_laws::idle_is_at_rest;
use ip_wire::IpAddress;
use net_base::Device;

/// Gives each socket its turn, in order, until one ends the pass; but for those idle, whose turns would change nothing. Says whether a socket or a queue changed. `turn` is the neighbour
/// whose turn it is to be asked for, if a socket waits for one.
pub fn pass<D: Device>(
    turn: &Option<IpAddress>,
    inner: &mut InterfaceInner,
    fragmenter: &mut Fragmenter,
    device: &mut D,
    slots: &mut Slots<Socket>,
) -> bool
    ensures pass { Pass D.moves turn.now (sender device.old inner.old fragmenter.old) [] false slots.old
        (passed (sender device.new inner.new fragmenter.new) slots.new result) }
    ensures capabilities { D.described device.new ≡ D.described device.old }
{
    idle_is_at_rest();
    let mut changed = false;
    let mut from = 0;
    while let Some(at) = slots.next_busy(from) {
        let turned = serve_slot(turn, inner, fragmenter, device, slots.slot_mut(at));
        slots.let_rest(at);
        match turned {
            Served::Next(more) => changed = either(changed, more),
            Served::Stop(more) => return either(changed, more),
        }
        from = at + 1;
    }
    changed
}

/// Whether one of both holds.
pub(crate) fn either(a: bool, b: bool) -> bool
    ensures { result ≡ (a || b) }
{
    a || b
}
