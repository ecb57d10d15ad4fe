//! Which neighbour is asked for next, of those that sockets wait for.
ghost use Rattle.std.specs.Prelude.{◌≡◌, None};
ghost use Rattle.std.specs.List.{fold, list_any};
ghost use Rattle.iface_tables.specs.Best.{better_of};
ghost use Rattle.interface.specs.Awaited.{awaited_by, awaited_in, comes_before, is_marked, next_awaited, turn_of};

use iface_egress::{InterfaceInner, Slots, SocketStorage, Waiting};
use iface_ingress::Socket;
use ip_wire::IpAddress;
use net_base::Instant;

/// Up to so many slots a look at each of them costs less than to find those that are busy.
const FEW: usize = 4;

/// A neighbour that a socket waits for.
#[derive(Clone, Copy, Debug)]
pub struct Awaited {
    pub hop: IpAddress,
    /// Until when its last request is to be answered, if it was asked for.
    pub last_request: Option<Instant>,
    pub since: Instant,
}

/// Whose turn it is to be asked for, where a socket waits: an address that was never asked for, else the one that was asked for longest
/// ago.
pub fn turn_of(inner: &InterfaceInner, slots: &Slots<Socket>) -> Option<IpAddress>
    ensures { result ≡ turn_of inner.now slots.now }
{
    if inner.host_requirements() {
        return None;
    }
    match next_awaited(inner, slots.as_slice()) {
        Some(awaited) => Some(awaited.hop),
        None => None,
    }
}

/// The same where mostly no socket waits, which is seen before the slots are gone through for the one that comes first.
pub fn turn_if_any(inner: &InterfaceInner, slots: &Slots<Socket>) -> Option<IpAddress>
    ensures { result ≡ turn_of inner.now slots.now }
{
    if some_wait(slots) {
        turn_of(inner, slots)
    } else {
        None
    }
}

/// The neighbour that is asked for next.
fn next_awaited(inner: &InterfaceInner, slots: &[SocketStorage<Socket>]) -> Option<Awaited>
    ensures { result ≡ next_awaited inner.now slots.now }
{
    first_in_turn(inner, slots)
}

/// The one that comes first, slot by slot.
fn first_in_turn(inner: &InterfaceInner, slots: &[SocketStorage<Socket>]) -> Option<Awaited>
    ensures { result ≡ fold (λ best slot. better_of comes_before best (awaited_in inner.now slot)) None slots.now }
{
    slots.iter().fold(None, |best, slot| better_of(best, awaited_in(inner, slot)))
}

/// Whether a socket waits for a neighbour, which few do. Each of few slots is looked at.
fn some_wait(slots: &Slots<Socket>) -> bool
    ensures { result ≡ list_any is_marked slots.now }
{
    if slots.len() <= FEW {
        slots.as_slice().iter().any(|slot| is_marked(slot))
    } else {
        some_busy_wait(slots)
    }
}

/// The same of many slots. None waits that is idle.
fn some_busy_wait(slots: &Slots<Socket>) -> bool
    ensures { result ≡ list_any is_marked slots.now }
{
    let mut from = 0;
    while let Some(at) = slots.next_busy(from) {
        if is_marked(slots.slot(at)) {
            return true;
        }
        from = at + 1;
    }
    false
}

/// Whether the socket at a slot waits for a neighbour.
fn is_marked(slot: &SocketStorage<Socket>) -> bool
    ensures { result ≡ is_marked slot.now }
{
    match &slot.inner {
        Some(item) => item.meta.waiting.is_some(),
        None => false,
    }
}

/// The neighbour that the socket at a slot waits for.
fn awaited_in(inner: &InterfaceInner, slot: &SocketStorage<Socket>) -> Option<Awaited>
    ensures { result ≡ awaited_in inner.now slot.now }
{
    match &slot.inner {
        Some(item) => awaited_by(inner, &item.meta.waiting),
        None => None,
    }
}

/// The neighbour that a mark waits for.
fn awaited_by(inner: &InterfaceInner, waiting: &Option<Waiting>) -> Option<Awaited>
    ensures { result ≡ awaited_by inner.now waiting.now }
{
    let Some(waiting) = waiting else {
        return None;
    };
    match inner.awaited_hop(&waiting.neighbor) {
        Some(hop) => Some(Awaited {
            hop,
            last_request: inner.last_request(&hop),
            since: waiting.since,
        }),
        None => None,
    }
}

/// The one that comes first, where there may be none.
fn better_of(best: Option<Awaited>, other: Option<Awaited>) -> Option<Awaited>
    ensures { result ≡ better_of comes_before best other }
{
    match (best, other) {
        (best, None) => best,
        (None, Some(other)) => Some(other),
        (Some(best), Some(other)) => Some(if comes_before(&other, &best) {
            other
        } else {
            best
        }),
    }
}

fn comes_before(a: &Awaited, b: &Awaited) -> bool
    ensures { result ≡ comes_before a.now b.now }
{
    match (a.last_request, b.last_request) {
        (None, None) => a.since < b.since,
        (None, Some(_)) => true,
        (Some(_), None) => false,
        (Some(last), Some(later)) => last < later,
    }
}
