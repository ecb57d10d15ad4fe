//! When an interface wants to be polled.
ghost use Rattle.std.specs.Prelude.{◌≡◌, false};
ghost use Rattle.interface.specs.Instant.{instant_of, earlier_than, earlier, local_instant, item_instant, slot_instant, poll_instant, soonest, soonest_parked, parked_due, due_by};
ghost use Rattle.iface_tables.specs.PathMtu.{some_count};
ghost use Rattle.interface.specs.Remote.{remote_of};

use crate::remote::{end_by, remote_of};
use crate::serve::is_known;
use iface_egress::{Fragmenter, InterfaceInner, Item, Plan, Slots, SocketStorage, plan_for};
use iface_ingress::socket_laws::idle_is_at_rest;
use iface_ingress::{Context, PollAt, Socket};
use iface_tables::{Look, ParkedHeader};
use ip_wire::{IpAddress, IpRepr};
use net_base::Instant;

/// When the interface wants to be polled: at once where a fragment waits, else when the first of its sockets wants it.
pub fn poll_instant(
    inner: &InterfaceInner,
    fragmenter: &Fragmenter,
    slots: &Slots<Socket>,
) -> Option<Instant>
    ensures { result ≡ poll_instant inner.now fragmenter.now slots.now }
{
    if fragmenter.is_waiting() {
        return Some(Instant::ZERO);
    }
    let parked = soonest_parked(inner);
    if inner.knows_a_path() {
        earlier(parked, soonest(inner, slots.as_slice()))
    } else {
        earlier(parked, soonest_of_busy(inner, slots))
    }
}

/// When something is to be done about the first of the packets that wait for their next hops.
fn soonest_parked(inner: &InterfaceInner) -> Option<Instant>
    ensures { result ≡ soonest_parked inner.now }
{
    if !inner.host_requirements() {
        return None;
    }
    let headers = inner.parking().headers();
    headers.iter().fold(None, |best, packet| {
        earlier(best, Some(parked_due(inner, &packet.header)))
    })
}

/// When something is to be done about a packet that waits for its next hop: when that may be asked for again, else at once.
fn parked_due(inner: &InterfaceInner, header: &IpRepr) -> Instant
    ensures { result ≡ parked_due inner.now header.now }
{
    let plan = plan_for(inner, false, header);
    due_by(&plan, &inner.route(&header.dst_addr()), inner, header)
}

/// The same of a packet with this plan and this next hop.
fn due_by(plan: &Plan, hop: &Option<IpAddress>, inner: &InterfaceInner, header: &IpRepr) -> Instant
    ensures { result ≡ due_by plan.now hop.now inner.now header.now }
{
    match (plan, hop) {
        (Plan::Wait, Some(hop)) => inner.parked_instant(&ParkedHeader {
            hop: *hop,
            header: *header,
            len: 0,
        }),
        _ => Instant::ZERO,
    }
}

/// When the first of these wants to be polled.
fn soonest(inner: &InterfaceInner, slots: &[SocketStorage<Socket>]) -> Option<Instant>
    ensures { result ≡ soonest inner.now slots.now }
{
    slots.iter().fold(None, |best, slot| earlier(best, slot_instant(inner, slot)))
}

/// The same where nothing is known of any path, so that no socket idle wants to be polled.
fn soonest_of_busy(inner: &InterfaceInner, slots: &Slots<Socket>) -> Option<Instant>
    requires { some_count inner.now.paths inner.now.instant ≡ false }
    ensures { result ≡ soonest inner.now slots.now }
{
    idle_is_at_rest();
    let mut best = None;
    let mut from = 0;
    while let Some(at) = slots.next_busy(from) {
        best = earlier(best, slot_instant(inner, slots.slot(at)));
        from = at + 1;
    }
    best
}

/// When the socket at a slot wants to be polled, if there is one.
pub fn slot_instant(inner: &InterfaceInner, slot: &SocketStorage<Socket>) -> Option<Instant>
    ensures { result ≡ slot_instant inner.now slot.now }
{
    match &slot.inner {
        Some(item) => item_instant(inner, item),
        None => None,
    }
}

/// When a socket wants to be polled. One that waits for a neighbour is asked again when its waiting ends, and a connection when what is
/// known of the path to its remote ends.
fn item_instant(inner: &InterfaceInner, item: &Item<Socket>) -> Option<Instant>
    ensures { result ≡ item_instant inner.now item.now }
{
    let remote = remote_of(&item.socket);
    earlier(end_by(inner, &remote), local_instant(inner, item, &remote))
}

/// When a socket with this remote wants to be polled itself.
fn local_instant(
    inner: &InterfaceInner,
    item: &Item<Socket>,
    remote: &Option<IpAddress>,
) -> Option<Instant>
    requires { remote.now ≡ remote_of item.now.socket }
    ensures { result ≡ local_instant inner.now item.now }
{
    let known = is_known(inner, item.meta.neighbor());
    let look = Look::towards(inner, remote);
    instant_of(
        item.meta
            .poll_at(item.socket.poll_at(&look), known, inner.now()),
    )
}

/// The instant of an answer: at once is the instant 0.
fn instant_of(poll_at: PollAt) -> Option<Instant>
    ensures { result ≡ instant_of poll_at }
{
    match poll_at {
        PollAt::Now => Some(Instant::ZERO),
        PollAt::Time(instant) => Some(instant),
        PollAt::Ingress => None,
    }
}

/// The earlier of two instants, of which there may be none.
pub fn earlier(a: Option<Instant>, b: Option<Instant>) -> Option<Instant>
    ensures { result ≡ earlier a b }
{
    match (a, b) {
        (None, other) => other,
        (Some(a), None) => Some(a),
        (Some(a), Some(b)) => Some(if b < a { b } else { a }),
    }
}
