//! Datagrams that are sent where the interface is at hand: without their socket's queue, if nothing stands before them.
ghost use Rattle.std.specs.Prelude.{◌≡◌, ◌||◌, is_some, length};
ghost use Rattle.net_base.specs.Time.{IsMoment};
ghost use Rattle.iface_ingress.specs.Packet.{packet_value, IsSendable};
ghost use Rattle.iface_ingress.specs.Udp.{send_answer, send_after};
ghost use Rattle.iface_ingress.specs.UdpMetadata.{UdpMetadata};
ghost use Rattle.iface_egress.specs.Set.{slots, is_fixed};
ghost use Rattle.interface.specs.Host.{sender};
ghost use Rattle.interface.specs.SameHost.{IsSameHost};
ghost use Rattle.interface.specs.SendTo.{queued_answer, LeavesIfKnown, LeavesIfItMay, UdpSends, ItemSends, SlotSends, SendsFrom, SendsTo};
ghost use Rattle.interface.specs.State.{state};
ghost use Rattle.interface.specs.Serve.{is_waiting};

use crate::host::Interface;
use crate::serve::{is_done, is_waiting, transmit_direct_segment};
use iface_egress::{
    Fragmenter, InterfaceInner, Item, LentDatagram, Meta, Slots, SocketHandle, SocketSet,
    SocketStorage, direct_route,
};
use iface_ingress::udp::{SendError, UdpMetadata};
use iface_ingress::widths::fields_have_widths;
use iface_ingress::{IpPayload, Packet, Socket, udp};
use iface_tables::Look;
use net_base::{Device, Instant};
use thiserror::Error;

/// What became of a datagram that was taken.
#[derive(Clone, Copy, Debug, PartialEq, Eq)]
pub enum Sending {
    /// Its frame left.
    Left,
    /// It is queued, and a poll sends it.
    Queued,
}

/// Why a datagram wasn't taken.
#[derive(Clone, Copy, Debug, PartialEq, Eq, Error)]
pub enum SendToError {
    /// The handle is that of no UDP socket.
    #[error("not a UDP socket")]
    NotUdp,
    /// The socket refused it, as it refuses to queue it.
    #[error("{0}")]
    Refused(SendError),
}

impl Interface {
    /// Sends a datagram of these bytes from the UDP socket of this handle, as queueing it and its socket's turn in a poll would
    /// (`poll_laws::sending_is_queueing_and_a_turn`). Where none is queued before it and its hardware address is known, its frame is
    /// written from these bytes and leaves at once; else it is queued, and a poll sends it.
    pub fn send_to<D: Device, T: Into<UdpMetadata>>(
        &mut self,
        timestamp: Instant,
        device: &mut D,
        sockets: &mut SocketSet<Socket>,
        handle: SocketHandle,
        bytes: &[u8],
        meta: T,
    ) -> Result<Sending, SendToError>
        requires { IsMoment timestamp }
        ensures sends { (to : UdpMetadata) × T.converts meta to
            × SendsTo D.moves timestamp (state device.old self.old (slots sockets.old)) handle.0 (to, bytes.now) result
            (state device.new self.new (slots sockets.new)) }
        ensures kind { is_fixed sockets.new ≡ is_fixed sockets.old }
        ensures capabilities { D.described device.new ≡ D.described device.old }
    {
        let to: UdpMetadata = meta.into();
        self.send_datagram(timestamp, device, sockets, handle, bytes, &to)
    }

    fn send_datagram<D: Device>(
        &mut self,
        timestamp: Instant,
        device: &mut D,
        sockets: &mut SocketSet<Socket>,
        handle: SocketHandle,
        bytes: &[u8],
        to: &UdpMetadata,
    ) -> Result<Sending, SendToError>
        requires { IsMoment timestamp }
        ensures sends { SendsTo D.moves timestamp (state device.old self.old (slots sockets.old)) handle.0 (to.now, bytes.now) result
            (state device.new self.new (slots sockets.new)) }
        ensures kind { is_fixed sockets.new ≡ is_fixed sockets.old }
        ensures capabilities { D.described device.new ≡ D.described device.old }
    {
        self.inner.set_now(timestamp);
        let at = handle.slot();
        send_in(
            &mut self.inner,
            &self.fragmenter,
            device,
            &mut sockets.slots,
            at,
            bytes,
            to,
        )
    }
}

/// Sends a datagram from the socket at a place of this storage.
fn send_in<D: Device>(
    inner: &mut InterfaceInner,
    fragmenter: &Fragmenter,
    device: &mut D,
    slots: &mut Slots<Socket>,
    at: usize,
    bytes: &[u8],
    to: &UdpMetadata,
) -> Result<Sending, SendToError>
    ensures sends { SendsFrom D.moves (sender device.old inner.old fragmenter.now) slots.old at (to.now, bytes.now) result
        device.new inner.new slots.new }
    ensures host { IsSameHost inner.old inner.new }
    ensures capabilities { D.described device.new ≡ D.described device.old }
{
    if at >= slots.len() {
        return Err(SendToError::NotUdp);
    }
    send_at(inner, fragmenter, device, slots.slot_mut(at), bytes, to)
}

/// Sends a datagram from the socket at a slot, if there is one.
fn send_at<D: Device>(
    inner: &mut InterfaceInner,
    fragmenter: &Fragmenter,
    device: &mut D,
    slot: &mut SocketStorage<Socket>,
    bytes: &[u8],
    to: &UdpMetadata,
) -> Result<Sending, SendToError>
    ensures sends { SlotSends D.moves (sender device.old inner.old fragmenter.now) slot.old (to.now, bytes.now) result
        device.new inner.new slot.new }
    ensures host { IsSameHost inner.old inner.new }
    ensures capabilities { D.described device.new ≡ D.described device.old }
{
    match &mut slot.inner {
        Some(item) => send_item(inner, fragmenter, device, item, bytes, to),
        None => Err(SendToError::NotUdp),
    }
}

/// Sends a datagram from a socket, if it is one of UDP.
fn send_item<D: Device>(
    inner: &mut InterfaceInner,
    fragmenter: &Fragmenter,
    device: &mut D,
    item: &mut Item<Socket>,
    bytes: &[u8],
    to: &UdpMetadata,
) -> Result<Sending, SendToError>
    ensures sends { ItemSends D.moves (sender device.old inner.old fragmenter.now) item.old (to.now, bytes.now) result
        device.new inner.new item.new }
    ensures host { IsSameHost inner.old inner.new }
    ensures capabilities { D.described device.new ≡ D.described device.old }
{
    match &mut item.socket {
        Socket::Udp(socket) => {
            send_from(inner, fragmenter, device, &mut item.meta, socket, bytes, to)
        }
        _ => Err(SendToError::NotUdp),
    }
}

/// Sends a datagram from a UDP socket: its packet leaves at once, or it is queued.
fn send_from<D: Device>(
    inner: &mut InterfaceInner,
    fragmenter: &Fragmenter,
    device: &mut D,
    meta: &mut Meta,
    socket: &mut udp::Socket,
    bytes: &[u8],
    to: &UdpMetadata,
) -> Result<Sending, SendToError>
    ensures sends { UdpSends D.moves (sender device.old inner.old fragmenter.now) meta.old socket.old (to.now, bytes.now) result
        device.new inner.new meta.new socket.new }
    ensures host { IsSameHost inner.old inner.new }
    ensures capabilities { D.described device.new ≡ D.described device.old }
{
    if transmit_now(inner, fragmenter, device, meta, socket, bytes, to) {
        return Ok(Sending::Left);
    }
    queue(socket, bytes, to)
}

/// Queues a datagram.
fn queue(socket: &mut udp::Socket, bytes: &[u8], to: &UdpMetadata) -> Result<Sending, SendToError>
    ensures answer { result ≡ queued_answer (send_answer socket.old to.now (length bytes.now)) }
    ensures after { socket.new ≡ send_after socket.old to.now bytes.now }
{
    match socket.send_slice(bytes, *to) {
        Ok(()) => Ok(Sending::Queued),
        Err(error) => Err(SendToError::Refused(error)),
    }
}

/// Lets the packet of a datagram leave, where none stands before it, its socket waits for nobody, and its hardware address is known. Says
/// whether it left.
fn transmit_now<D: Device>(
    inner: &mut InterfaceInner,
    fragmenter: &Fragmenter,
    device: &mut D,
    meta: &mut Meta,
    socket: &udp::Socket,
    bytes: &[u8],
    to: &UdpMetadata,
) -> bool
    ensures leaves { LeavesIfItMay D.moves (sender device.old inner.old fragmenter.now) meta.old socket.now (to.now, bytes.now) result
        device.new inner.new meta.new }
    ensures host { IsSameHost inner.old inner.new }
    ensures capabilities { D.described device.new ≡ D.described device.old }
{
    if is_held(inner, fragmenter, meta) {
        return false;
    }
    match socket.packet_at_once(&Look::towards(inner, &None), bytes, to) {
        Some(packet) => transmit_if_known(inner, device, meta, &packet),
        None => false,
    }
}

/// Whether fragments of another datagram wait to go, or the socket waits for its neighbour.
fn is_held(inner: &InterfaceInner, fragmenter: &Fragmenter, meta: &Meta) -> bool
    ensures { result ≡ (is_some fragmenter.now || is_waiting inner.now meta.now) }
{
    fragmenter.is_waiting() || is_waiting(inner, meta)
}

/// Transmits a packet straight to its hardware address, where that is known. Says whether it went.
fn transmit_if_known<D: Device>(
    inner: &mut InterfaceInner,
    device: &mut D,
    meta: &mut Meta,
    packet: &Packet<'_>,
) -> bool
    requires sendable { IsSendable (packet_value packet.now) }
    ensures leaves { LeavesIfKnown D.moves (packet_value packet.now) device.old inner.old meta.old result device.new inner.new meta.new }
    ensures host { IsSameHost inner.old inner.new }
    ensures capabilities { D.described device.new ≡ D.described device.old }
{
    fields_have_widths(packet);
    let IpPayload::Udp(header, bytes) = packet.payload() else {
        return false;
    };
    let datagram = LentDatagram {
        header: *header,
        bytes,
    };
    match direct_route(inner, &packet.ip_repr(), datagram) {
        Some(direct) => is_done(transmit_direct_segment(inner, device, meta, &direct)),
        None => false,
    }
}
