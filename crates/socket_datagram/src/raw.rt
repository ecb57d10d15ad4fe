//! Sockets for whole IP packets (RFC 791, RFC 8200).
ghost use Rattle.std.specs.Prelude.{◌≡◌, ℕ, ◌+◌, ◌≤◌, ◌↔◌, List, ◌++◌, length, take, true, false, IsTrue, IfOk, IfErr, IsErr, OnErr, Ok, Err, None, Some};
ghost use Rattle.std.specs.Prelude.{IsSome};
ghost use Rattle.std.specs.Borrow.{sem};
ghost use Rattle.std.specs.Fn.{FnOnceTakesAtMut, FnOnceReturnsAtMut};
ghost use Rattle.net_base.specs.Packets.{used_room, first};
ghost use Rattle.socket_context.specs.Offers.{IsBefore};
ghost use Rattle.socket_context.specs.Context.{ContextValue};
ghost use Rattle.socket_context.specs.Packet.{PacketValue, IsSendable, option_value};
ghost use Rattle.wire_ip.specs.Ip as Ip;
ghost use Rattle.socket_context.specs.declared.offer.Offer.{Offer};
ghost use Rattle.socket_context.specs.declared.offer.Offer.TheVariants as Answer;
ghost use Rattle.socket_datagram.specs.Raw.{RawValue, filters, send_answer, send_after, counted, passes, fits, process_after, carried_by};
ghost use Rattle.socket_datagram.specs.Raw.{IsHeaderToSend, Offers};
ghost use Rattle.socket_datagram.specs.Same.{is_protocol};
ghost use Rattle.socket_datagram.specs.SocketValue.{initial, can_send, can_recv, with_queued, is_done, recv_answer, recv_after, recv_written, peeked};
ghost use Rattle.socket_datagram.specs.SocketValue.{settled, poll_of};
ghost use Rattle.socket_datagram.specs.Offers.{HasPacket, IsSameButForSlots, changed_by};
ghost use Rattle.socket_datagram.specs.Dispatch.{TakesOffered, Dispatches};
ghost use Rattle.socket_datagram.specs.declared.raw.SendError.TheVariants as Send;
ghost use Rattle.socket_datagram.specs.declared.error.RecvError.TheVariants as Recv;

pub use crate::error::RecvError;
use crate::header::LAST_LENGTH;
use crate::queues::Queues;
use net_base::{ChecksumCapabilities, Full};
use socket_context::addresses::is_unspecified;
use socket_context::{Context, IpPayload, Offer, Packet, PollAt};
use std::marker::Model;
use thiserror::Error;
use wire_address::{IpProtocol, IpVersion};
use wire_ip::ipv4::field::HEADER_LEN as IPV4_HEADER_LEN;
use wire_ip::{IpRepr, Ipv4Packet, Ipv6Packet};

/// An entry of a socket's queue.
pub type PacketMetadata = net_base::PacketMetadata<()>;

/// A socket's queue.
pub type PacketBuffer = net_base::PacketBuffer<()>;

/// Why a packet wasn't queued.
#[derive(Clone, Copy, Debug, PartialEq, Eq, Error)]
pub enum SendError {
    /// The packet doesn't fit the queue.
    #[error("buffer full")]
    BufferFull,
}

impl From<Full> for SendError {
    ghost from_gives = { λ full error. error ≡ Send.BufferFull };

    fn from(_value: Full) -> SendError {
        SendError::BufferFull
    }
}

/// Whether the packet's length fits the field that says it.
fn fits(header: &IpRepr) -> bool
    ensures value { result ≡ fits header.now }
    ensures means { IsTrue result ↔ Ip.Fits header.now }
{
    match header {
        IpRepr::Ipv4(header) => header.payload_len <= LAST_LENGTH - IPV4_HEADER_LEN,
        IpRepr::Ipv6(header) => header.payload_len <= LAST_LENGTH,
    }
}

/// Whether the two protocols are the same.
#[tactic(auto, using(crate::proofs::Protocols::same))]
fn is_protocol(one: IpProtocol, other: IpProtocol) -> bool
    ensures { result ≡ is_protocol one other }
{
    one == other
}

/// Whether the packet is of this family and this protocol, where they are given.
fn passes(version: Option<IpVersion>, protocol: Option<IpProtocol>, header: &IpRepr) -> bool
    ensures { result ≡ passes version protocol header.now }
{
    let is_of_version = match version {
        Some(version) => version == header.version(),
        None => true,
    };
    let is_of_protocol = match protocol {
        Some(protocol) => is_protocol(protocol, header.next_header()),
        None => true,
    };
    is_of_version && is_of_protocol
}

/// The header of the packet in the bytes, if a socket with these filters may send it. A checksum isn't
/// tested, since a right one is written where the packet is transmitted. A header that was read says a length that
/// fits its field.
fn header_to_send(
    version: Option<IpVersion>,
    protocol: Option<IpProtocol>,
    bytes: &[u8],
) -> Option<IpRepr>
    ensures { IsHeaderToSend (filters version protocol) bytes.now result }
{
    let Ok(header) = IpRepr::parse(bytes, &ChecksumCapabilities::ignored()) else {
        return None;
    };
    if !is_unspecified(&header.dst_addr()) && passes(version, protocol, &header) {
        Some(header)
    } else {
        None
    }
}

/// The bytes after the header, as many as it says.
fn payload_following<'a>(header: &IpRepr, bytes: &'a [u8]) -> &'a [u8]
    requires { Ip.IsIp false bytes.now header.now }
    ensures { result.now ≡ carried_by header.now bytes.now }
{
    match header {
        IpRepr::Ipv4(_) => Ipv4Packet::new_unchecked(bytes).payload(),
        IpRepr::Ipv6(_) => Ipv6Packet::new_unchecked(bytes).payload(),
    }
}

/// Writes the packet over the whole buffer: the header with its checksum, then the payload.
fn write_packet(buffer: &mut [u8], header: &IpRepr, payload: &[u8])
    requires room { length buffer.old ≡ Ip.header_len_in header.now + length payload.now }
    requires fits { Ip.Fits header.now }
    ensures { buffer.new ≡ Ip.written true header.now ++ payload.now }
{
    let (front, rest) = buffer.split_at_mut(header.header_len());
    header.emit(front, &ChecksumCapabilities::default());
    rest.copy_from_slice(payload);
}

/// A raw socket: a family and a protocol that it is for, and a queue of packets for each way.
#[derive(Debug, Drop)]
pub struct Socket {
    ip_version: Option<IpVersion>,
    ip_protocol: Option<IpProtocol>,
    queues: Queues<()>,
    /// The header of the packet that is offered, the first queued one.
    offered: Option<IpRepr>,
}

impl Model for Socket {
    ghost use Rattle.net_base.specs.Packets.{first};
    ghost use Rattle.socket_datagram.specs.Raw.{RawValue, filters, IsOpen, offered_in};

    ghost Value = { RawValue };

    ghost view = { λ s. record {
      received = s.queues.received;
      queued = s.queues.queued;
      settings = filters s.ip_version s.ip_protocol;
      offered =
          offered_in s.offered (first s.queues.queued);
    } };

    ghost invariant = { λ s. IsOpen s.offered s.queues.queued };
}

impl Socket {
    /// A socket for packets of this family and this protocol, or of all where none is given, with these
    /// queues.
    pub fn new(
        ip_version: Option<IpVersion>,
        ip_protocol: Option<IpProtocol>,
        rx_buffer: PacketBuffer,
        tx_buffer: PacketBuffer,
    ) -> Socket
        ensures { result ≡ initial (filters ip_version ip_protocol) rx_buffer tx_buffer }
    {
        Socket {
            ip_version,
            ip_protocol,
            queues: Queues {
                received: rx_buffer,
                queued: tx_buffer,
            },
            offered: None,
        }
    }

    /// The family that the socket is for, if it is for one alone.
    pub fn ip_version(&self) -> Option<IpVersion>
        ensures { result ≡ self.now.settings.version }
    {
        self.ip_version
    }

    /// The protocol that the socket is for, if it is for one alone.
    pub fn ip_protocol(&self) -> Option<IpProtocol>
        ensures { result ≡ self.now.settings.protocol }
    {
        self.ip_protocol
    }

    /// Whether a packet can be queued.
    pub fn can_send(&self) -> bool
        ensures { result ≡ can_send self.now }
    {
        self.queues.can_send()
    }

    /// Whether a packet waits to be read.
    pub fn can_recv(&self) -> bool
        ensures { result ≡ can_recv self.now }
    {
        self.queues.can_recv()
    }

    /// Returns how many entries there are for received packets.
    pub fn packet_recv_capacity(&self) -> usize
        ensures { result ≡ self.now.received.positions }
    {
        self.queues.packet_recv_capacity()
    }

    /// Returns how many entries there are for packets to be sent.
    pub fn packet_send_capacity(&self) -> usize
        ensures { result ≡ self.now.queued.positions }
    {
        self.queues.packet_send_capacity()
    }

    /// Returns how many bytes of received packets there is room for.
    pub fn payload_recv_capacity(&self) -> usize
        ensures { result ≡ self.now.received.room }
    {
        self.queues.payload_recv_capacity()
    }

    /// Returns how many bytes of packets to be sent there is room for.
    pub fn payload_send_capacity(&self) -> usize
        ensures { result ≡ self.now.queued.room }
    {
        self.queues.payload_send_capacity()
    }

    /// Returns how many bytes of received packets are taken, those of padding among them.
    pub fn recv_queue(&self) -> usize
        ensures { result ≡ used_room self.now.received.packets }
    {
        self.queues.recv_queue()
    }

    /// Returns how many bytes of packets to be sent are taken, those of padding among them.
    pub fn send_queue(&self) -> usize
        ensures { result ≡ used_room self.now.queued.packets }
    {
        self.queues.send_queue()
    }
}

impl Socket {
    ghost use Rattle.socket_datagram.specs.BorrowEnds.{EndsAs};
    ghost use Rattle.socket_datagram.specs.contracts.raw.Socket.{the_row};

    /// Queues a packet of so many bytes, and lends these for writing. The contract doesn't say what is queued
    /// once they are written: those of `send_slice` and `send_with` do.
    pub fn send(&mut self, size: usize) -> Result<&mut [u8], SendError>
        ensures refused { IfErr result (λ e. send_answer self.old size ≡ Err e) }
        ensures room { IfOk result (λ bytes. (send_answer self.old size ≡ Ok tt) × (length bytes.now ≡ size)) }
    {
        self.offered = None;
        Ok(self.queues.queued.enqueue(size, ())?)
    }

    /// Queues a packet of these bytes, its IP header among them.
    pub fn send_slice(&mut self, data: &[u8]) -> Result<(), SendError>
        ensures answer { result ≡ send_answer self.old (length «data».now) }
        ensures state { self.new ≡ send_after self.old «data».now }
    {
        self.offered = None;
        self.queues.queued.enqueue_slice((), data)?;
        Ok(())
    }

    /// Queues a packet of the bytes that `f` writes, its IP header among them: it is lent `max_size` bytes,
    /// and answers how many from the first on are the packet's.
    pub fn send_with<F: FnOnce(&mut [u8]) -> usize>(
        &mut self,
        max_size: usize,
        f: F,
    ) -> Result<usize, SendError>
    where
        F: Drop,
        requires callable { (bytes : List ℕ) → length bytes ≡ max_size → FnOnceTakesAtMut F.FnOnce f bytes }
        requires within { (bytes left : List ℕ) (size : ℕ) → length bytes ≡ max_size → FnOnceReturnsAtMut F.FnOnce f bytes size left → size ≤ max_size }
        ensures answer { is_done result ≡ send_answer self.old max_size }
        ensures refused { OnErr result (self.new ≡ settled false self.old) }
        ensures queued { IfOk result (λ size. (bytes : List ℕ) × (left : List ℕ) × (length bytes ≡ max_size) × (length left ≡ max_size)
            × FnOnceReturnsAtMut F.FnOnce f bytes size left
            × (self.new ≡ with_queued self.old tt max_size (take size left))) }
    {
        self.offered = None;
        Ok(self.queues.queued.enqueue_with_infallible(max_size, (), f)?)
    }

    /// Returns the first packet, which leaves its queue.
    pub fn recv(&mut self) -> Result<&[u8], RecvError>
        ensures* ends { sem 𝓛 (EndsAs the_row self.entry (recv_after self.old)) }
        ensures exhausted { IsErr result ↔ (first self.old.received ≡ None) }
        ensures refused { OnErr result (result ≡ Err Recv.Exhausted) }
        ensures first { IfOk result (λ bytes. first self.old.received ≡ Some (tt, bytes.now)) }
    {
        self.offered = None;
        match self.queues.received.take_bytes() {
            Ok(bytes) => Ok(bytes),
            Err(_) => Err(RecvError::Exhausted),
        }
    }

    /// Reads the first packet into the slice. One that is longer than the slice is gone, and the slice is as
    /// it was.
    pub fn recv_slice(&mut self, data: &mut [u8]) -> Result<usize, RecvError>
        ensures answer { result ≡ counted (recv_answer self.old (length «data».old)) }
        ensures state { self.new ≡ recv_after self.old }
        ensures read { «data».new ≡ recv_written self.old «data».old }
    {
        self.offered = None;
        let (count, ()) = self.queues.recv_slice(data)?;
        Ok(count)
    }

    /// Returns the first packet, which stays.
    pub fn peek(&mut self) -> Result<&[u8], RecvError>
        ensures* ends { sem 𝓛 (EndsAs the_row self.entry (peeked self.old)) }
        ensures exhausted { IsErr result ↔ (first self.old.received ≡ None) }
        ensures refused { OnErr result (result ≡ Err Recv.Exhausted) }
        ensures first { IfOk result (λ bytes. first self.old.received ≡ Some (tt, bytes.now)) }
    {
        self.offered = None;
        match self.queues.received.peek() {
            Ok((_, bytes)) => Ok(bytes),
            Err(_) => Err(RecvError::Exhausted),
        }
    }

    /// Copies the first packet into the slice; it stays. Where it is longer than the slice, that is as it was.
    #[tactic(auto, using(crate::proofs::PacketQueues::queues))]
    pub fn peek_slice(&mut self, data: &mut [u8]) -> Result<usize, RecvError>
        ensures answer { result ≡ counted (recv_answer self.old (length «data».old)) }
        ensures state { self.new ≡ peeked self.old }
        ensures read { «data».new ≡ recv_written self.old «data».old }
    {
        self.offered = None;
        let Ok((_, bytes)) = self.queues.received.peek() else {
            return Err(RecvError::Exhausted);
        };
        if data.len() < bytes.len() {
            return Err(RecvError::Truncated);
        }
        data[..bytes.len()].copy_from_slice(bytes);
        Ok(bytes.len())
    }

    /// Whether this packet is for the socket.
    pub fn accepts(&self, ip_repr: &IpRepr) -> bool
        ensures { result ≡ passes self.now.settings.version self.now.settings.protocol ip_repr.now }
    {
        passes(self.ip_version, self.ip_protocol, ip_repr)
    }

    /// A packet for the socket arrives. Its header is queued as it is emitted, before the payload. The packet
    /// is dropped where the queue is full, or where its header can't say its length.
    pub fn process(&mut self, ip_repr: &IpRepr, payload: &[u8])
        ensures { self.new ≡ process_after self.old ip_repr.now payload.now }
    {
        self.offered = None;
        if !fits(ip_repr) {
            return;
        }
        let size = ip_repr.header_len() + payload.len();
        let _ = self
            .queues
            .received
            .enqueue_with_infallible(size, (), |bytes: &mut [u8]| {
                write_packet(bytes, ip_repr, payload);
                size
            });
    }

    /// When the socket wants to be polled: at once where a packet is queued.
    pub fn poll_at(&self) -> PollAt
        ensures { result ≡ poll_of self.now }
    {
        self.queues.poll_at()
    }

    /// Offers the first queued packet. One that may not be sent is dropped: its bytes are no packet, it
    /// doesn't pass the socket's filters, or its destination is unspecified.
    #[tactic(auto, using(crate::proofs::PacketQueues::queues))]
    pub fn offer<C: Context>(&mut self, _cx: &C) -> Offer
        ensures { Offers (C.context _cx.now) self.old result self.new }
    {
        self.offered = None;
        let Ok((_, bytes)) = self.queues.queued.peek() else {
            return Offer::Silent { changed: false };
        };
        let Some(header) = header_to_send(self.ip_version, self.ip_protocol, bytes) else {
            self.queues.queued.drop_first();
            return Offer::Silent { changed: true };
        };
        self.offered = Some(header);
        Offer::Packet { changed: false }
    }

    /// The packet of the open offer.
    pub fn offered(&self) -> Option<Packet<'_>>
        ensures { option_value result ≡ self.now.offered }
    {
        let header = self.offered?;
        let (_, bytes) = self.queues.queued.front().ok()?;
        let payload = payload_following(&header, bytes);
        Some(Packet::new(header, IpPayload::Raw(payload)))
    }

    /// Says what became of the offered packet: one that was sent leaves its queue, another one stays first.
    pub fn settle(&mut self, sent: bool)
        ensures { self.new ≡ settled sent self.old }
    {
        self.queues.settle(sent && self.offered.is_some());
        self.offered = None;
    }

    /// Offers a packet and hands it to `emit`. Where that answers `Ok` the packet leaves its queue, else it
    /// stays first.
    pub fn dispatch<C: Context, E, F: FnOnce(Packet<'_>) -> Result<(), E>>(
        &mut self,
        cx: &C,
        emit: F,
    ) -> Result<(), E>
    where
        F: Drop,
        requires { TakesOffered F.FnOnce emit (Offers (C.context cx.now) self.old) }
        ensures { Dispatches F.FnOnce emit (Offers (C.context cx.now) self.old) result self.new }
    {
        self.offer(cx);
        let Some(packet) = self.offered() else {
            return Ok(());
        };
        let answer = emit(packet);
        self.settle(answer.is_ok());
        answer
    }
}

/// Law: where the socket doesn't want to be polled at an instant yet, an offer at that instant is silent and
/// changes nothing, but that an open offer is settled as not sent.
pub fn silence()
    ensures { (cx : ContextValue) (v v' : RawValue) (answer : Offer) → IsBefore cx.instant (poll_of v)
        → Offers cx v answer v'
        → (answer ≡ Answer.Silent false) × (v' ≡ settled false v) }
{}

/// Law: a packet is offered exactly where the answer says so, and one whose offer is settled as not sent is
/// offered again as it was. An offer that is settled as not sent doesn't change when the socket wants to be
/// polled.
pub fn unsent_is_offered_again()
    ensures packet { (cx : ContextValue) (v v' : RawValue) (answer : Offer)
        → Offers cx v answer v'
        → HasPacket answer v'.offered }
    ensures again { (cx : ContextValue) (v v' : RawValue) (answer : Offer)
        → Offers cx v answer v'
        → IsSome v'.offered
        → Offers cx (settled false v') answer v' }
    ensures settled { (cx : ContextValue) (v v' : RawValue) (answer : Offer)
        → Offers cx (settled false v) answer v' ↔ Offers cx v answer v' }
    ensures due { (v : RawValue) → poll_of (settled false v) ≡ poll_of v }
{}

/// Law: an offer that says that nothing changed, and is settled as not sent, leaves the socket with the same
/// datagrams in its queues.
pub fn unchanged()
    ensures { (cx : ContextValue) (v v' : RawValue) (answer : Offer)
        → Offers cx v answer v'
        → changed_by answer ≡ false
        → IsSameButForSlots v (settled false v') }
{}

/// Law: what an offer answers and leaves is determined.
pub fn one_offer()
    ensures { (cx : ContextValue) (v left right : RawValue) (answer other : Offer)
        → Offers cx v answer left
        → Offers cx v other right
        → (answer ≡ other) × (left ≡ right) }
{}

/// Law: a packet that is offered can be sent. Its lengths fit their fields, its addresses are of one family,
/// and its header has the length of what it carries.
pub fn offered_fits()
    ensures { (cx : ContextValue) (v v' : RawValue) (answer : Offer) (p : PacketValue)
        → Offers cx v answer v'
        → v'.offered ≡ Some p
        → IsSendable p }
{}
