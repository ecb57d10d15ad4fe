//! The keepers, which take the SYNs that fall to no socket of a backlog, and say nothing.
ghost use Rattle.std.specs.Prelude.{◌≡◌, ◌<◌, length};
ghost use Rattle.interface.specs.Backlog.Keepers.{kept, kept_slot, kept_at, kept_all};

use crate::listener::way::restart;
use iface_egress::{Item, Slots, SocketHandle, SocketStorage};
use iface_ingress::tcp::State;
use iface_ingress::{Socket, tcp};
use ip_wire::IpListenEndpoint;

/// Drops the SYN that the socket took, if it took one, and listens on this endpoint, mutely.
fn keep(socket: &mut tcp::Socket, endpoint: IpListenEndpoint)
    ensures { socket.new ≡ kept endpoint socket.old }
{
    socket.pause_synack(true);
    if socket.state() != State::Listen {
        restart(socket, endpoint);
    }
}

fn keep_slot(slot: &mut SocketStorage<Socket>, endpoint: IpListenEndpoint)
    ensures { slot.new ≡ kept_slot endpoint slot.old }
{
    if let Some(
        Item {
            socket: Socket::Tcp(socket),
            ..
        },
    ) = &mut slot.inner
    {
        keep(socket, endpoint);
    }
}

fn keep_at(slots: &mut Slots<Socket>, at: usize, endpoint: IpListenEndpoint)
    ensures { slots.new ≡ kept_at endpoint at slots.old }
{
    if at < slots.len() {
        keep_slot(slots.slot_mut(at), endpoint);
        slots.let_rest(at);
    }
}

/// Each keeper listens.
pub(crate) fn keep_all(
    slots: &mut Slots<Socket>,
    keepers: &[SocketHandle],
    endpoint: IpListenEndpoint,
)
    ensures { slots.new ≡ kept_all endpoint keepers.now slots.old }
{
    for i in 0..keepers.len() {
        keep_at(slots, keepers[i].slot(), endpoint);
    }
}
