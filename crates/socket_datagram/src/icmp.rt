//! Sockets for control messages (RFC 792, RFC 4443).
ghost use Rattle.std.specs.Prelude.{◌≡◌, ◌≢◌, ◌↔◌, ℕ, ◌+◌, ◌<◌, ◌≤◌, ◌^◌, List, length, take, true, false, IsTrue, IfOk, IfErr, IsErr, OnErr, Ok, Err, None};
ghost use Rattle.std.specs.Prelude.{Some, IsSome, if◌then◌else◌};
ghost use Rattle.std.specs.Borrow.{sem};
ghost use Rattle.std.specs.Fn.{FnOnceTakesAtMut, FnOnceReturnsAtMut};
ghost use Rattle.net_base.specs.Packets.{used_room, first};
ghost use Rattle.socket_context.specs.Addresses.{is_unspecified};
ghost use Rattle.socket_context.specs.Offers.{IsBefore};
ghost use Rattle.socket_context.specs.Context.{ContextValue};
ghost use Rattle.socket_context.specs.Packet.{PacketValue, IsSendable, option_value};
ghost use Rattle.wire_address.specs.declared.ip.IpAddress.TheVariants as Address;
ghost use Rattle.wire_icmpv4.specs.Icmpv4 as Icmpv4;
ghost use Rattle.wire_icmpv6.specs.Icmpv6 as Icmpv6;
ghost use Rattle.socket_context.specs.declared.offer.Offer.{Offer};
ghost use Rattle.socket_context.specs.declared.offer.Offer.TheVariants as Answer;
ghost use Rattle.socket_datagram.specs.Icmp.{IcmpValue, made, is_specified, is_open, with_hop_limit, bind_answer, bind_after, send_answer, send_after};
ghost use Rattle.socket_datagram.specs.Icmp.{takes_echo, takes_quoted, takes_error, accepts_v4, accepts_v6, fits_v4, fits_v6, process_v4_after};
ghost use Rattle.socket_datagram.specs.Icmp.{process_v6_after, Offers};
ghost use Rattle.socket_datagram.specs.IcmpKept.{IsKeptFrom};
ghost use Rattle.socket_datagram.specs.SocketValue.{can_send, can_recv, with_queued, is_done, recv_answer, recv_after, recv_written, settled, poll_of};
ghost use Rattle.socket_datagram.specs.Offers.{HasPacket, IsSameButForSlots, changed_by};
ghost use Rattle.socket_datagram.specs.Dispatch.{TakesOffered, Dispatches};
ghost use Rattle.socket_datagram.specs.declared.error.SendError.TheVariants as Send;
ghost use Rattle.socket_datagram.specs.declared.error.RecvError.TheVariants as Recv;

pub use crate::error::{BindError, RecvError, SendError};
use crate::header::{DEFAULT_HOP_LIMIT, LAST_LENGTH, header_between};
use crate::queues::Queues;
use net_base::ChecksumCapabilities;
use socket_context::addresses::{is_same_address, is_unspecified};
use socket_context::{Context, IpPayload, Offer, Packet, PollAt};
use std::marker::Model;
use wire_address::{IpAddress, IpListenEndpoint, IpProtocol, Ipv4Address, Ipv6Address};
use wire_icmpv4::{Icmpv4Header, Icmpv4Packet, Icmpv4PacketMut, Icmpv4Repr};
use wire_icmpv6::{Icmpv6Header, Icmpv6Packet, Icmpv6PacketMut, Icmpv6Repr};
use wire_ip::ipv4::field::HEADER_LEN as IPV4_HEADER_LEN;
use wire_ip::{IpRepr, Ipv4Repr, Ipv6Repr};

/// What an ICMP socket is bound to: the messages that are for it.
#[derive(Clone, Copy, Debug, PartialEq, Eq)]
pub enum Endpoint {
    /// None.
    Unspecified,
    /// Echo messages with this identifier.
    Ident(u16),
    /// Errors about TCP segments that were sent from this endpoint.
    Tcp(IpListenEndpoint),
    /// Errors about UDP datagrams that were sent from this endpoint.
    Udp(IpListenEndpoint),
}

impl Endpoint {
    /// Whether messages can be for it: it has an identifier, or a port other than 0.
    pub fn is_specified(&self) -> bool
        ensures { result ≡ is_specified self.now }
    {
        match *self {
            Endpoint::Unspecified => false,
            Endpoint::Ident(_) => true,
            Endpoint::Tcp(endpoint) => endpoint.port != 0,
            Endpoint::Udp(endpoint) => endpoint.port != 0,
        }
    }
}

/// An entry of a socket's queue: a message's header is the address of the other host.
pub type PacketMetadata = net_base::PacketMetadata<IpAddress>;

/// A socket's queue.
pub type PacketBuffer = net_base::PacketBuffer<IpAddress>;

/// As much of a quoted packet as an error has to have after the IP header (RFC 792).
const QUOTED_LEN: usize = 8;

/// The longest ICMPv6 message that a pseudo header can say the length of (RFC 8200, section 8.1).
const LONGEST_MESSAGE: usize = 0xffff_ffff;

/// A message of either version, but for the bytes that it carries.
#[derive(Clone, Copy, Debug)]
enum Message {
    V4(Icmpv4Header),
    V6(Icmpv6Header),
}

/// An offered packet, but for the bytes that its message carries: they begin at this place of the
/// first queued message, and end with it.
#[derive(Clone, Copy, Debug)]
struct Kept {
    header: IpRepr,
    message: Message,
    start: usize,
}

/// An ICMP socket: what it is bound to, and a queue for each way.
#[derive(Debug, Drop)]
pub struct Socket {
    endpoint: Endpoint,
    hop_limit: Option<u8>,
    queues: Queues<IpAddress>,
    /// The packet that is offered. It carries the first queued message.
    offered: Option<Kept>,
}

impl Model for Socket {
    ghost use Rattle.net_base.specs.Packets.{first};
    ghost use Rattle.socket_datagram.specs.Icmp.{IcmpValue};
    ghost use Rattle.socket_datagram.specs.IcmpKept.{offered_in, IsOpen};

    ghost Value = { IcmpValue };

    ghost view = { λ s. record {
      received = s.queues.received;
      queued = s.queues.queued;
      settings = record { endpoint = s.endpoint; hop_limit = s.hop_limit };
      offered = offered_in s.offered (first s.queues.queued);
    } };

    ghost invariant = { λ s. IsOpen s.offered s.queues.queued };
}

impl Socket {
    /// An unbound socket with these queues.
    pub fn new(rx_buffer: PacketBuffer, tx_buffer: PacketBuffer) -> Socket
        ensures { result ≡ made rx_buffer tx_buffer }
    {
        Socket {
            endpoint: Endpoint::Unspecified,
            hop_limit: None,
            queues: Queues {
                received: rx_buffer,
                queued: tx_buffer,
            },
            offered: None,
        }
    }

    /// Whether the socket is bound.
    pub fn is_open(&self) -> bool
        ensures { result ≡ is_open self.now }
    {
        match self.endpoint {
            Endpoint::Unspecified => false,
            Endpoint::Ident(_) | Endpoint::Tcp(_) | Endpoint::Udp(_) => true,
        }
    }

    /// The hop limit that was set. Without one it is 64.
    pub fn hop_limit(&self) -> Option<u8>
        ensures { result ≡ self.now.settings.hop_limit }
    {
        self.hop_limit
    }

    /// Sets the hop limit of the messages that are offered from now on. A limit is not 0.
    pub fn set_hop_limit(&mut self, hop_limit: Option<u8>)
        requires { hop_limit ≢ Some 0 }
        ensures { self.new ≡ with_hop_limit self.old hop_limit }
    {
        self.offered = None;
        self.hop_limit = hop_limit;
    }

    /// Whether a message can be queued.
    pub fn can_send(&self) -> bool
        ensures { result ≡ can_send self.now }
    {
        self.queues.can_send()
    }

    /// Whether a message waits to be read.
    pub fn can_recv(&self) -> bool
        ensures { result ≡ can_recv self.now }
    {
        self.queues.can_recv()
    }

    /// Returns how many entries there are for received messages.
    pub fn packet_recv_capacity(&self) -> usize
        ensures { result ≡ self.now.received.positions }
    {
        self.queues.packet_recv_capacity()
    }

    /// Returns how many entries there are for messages to be sent.
    pub fn packet_send_capacity(&self) -> usize
        ensures { result ≡ self.now.queued.positions }
    {
        self.queues.packet_send_capacity()
    }

    /// Returns how many bytes of received messages there is room for.
    pub fn payload_recv_capacity(&self) -> usize
        ensures { result ≡ self.now.received.room }
    {
        self.queues.payload_recv_capacity()
    }

    /// Returns how many bytes of messages to be sent there is room for.
    pub fn payload_send_capacity(&self) -> usize
        ensures { result ≡ self.now.queued.room }
    {
        self.queues.payload_send_capacity()
    }

    /// Returns how many bytes of received messages are taken, those of padding among them.
    pub fn recv_queue(&self) -> usize
        ensures { result ≡ used_room self.now.received.packets }
    {
        self.queues.recv_queue()
    }

    /// Returns how many bytes of messages to be sent are taken, those of padding among them.
    pub fn send_queue(&self) -> usize
        ensures { result ≡ used_room self.now.queued.packets }
    {
        self.queues.send_queue()
    }

    /// Binds the socket: from now on the messages of this endpoint are for it.
    pub fn bind(&mut self, endpoint: Endpoint) -> Result<(), BindError>
        ensures answer { result ≡ bind_answer self.old endpoint }
        ensures state { self.new ≡ bind_after self.old endpoint }
    {
        self.offered = None;
        if !endpoint.is_specified() {
            return Err(BindError::Unaddressable);
        }
        if self.is_open() {
            return Err(BindError::InvalidState);
        }
        self.endpoint = endpoint;
        Ok(())
    }
}

/// Whether a message may be sent to this address.
fn check_send(remote: &IpAddress) -> Result<(), SendError>
    ensures { result ≡ (if is_unspecified remote.now then Err Send.Unaddressable else Ok tt) }
{
    if is_unspecified(remote) {
        return Err(SendError::Unaddressable);
    }
    Ok(())
}

impl Socket {
    ghost use Rattle.socket_datagram.specs.BorrowEnds.{EndsAs};
    ghost use Rattle.socket_datagram.specs.contracts.icmp.Socket.{the_row};

    /// Queues a message of so many bytes, and lends these for writing. The contract doesn't say what is
    /// queued once they are written: those of `send_slice` and `send_with` do.
    pub fn send(&mut self, size: usize, endpoint: IpAddress) -> Result<&mut [u8], SendError>
        ensures refused { IfErr result (λ e. send_answer self.old endpoint size ≡ Err e) }
        ensures room { IfOk result (λ bytes. (send_answer self.old endpoint size ≡ Ok tt) × (length bytes.now ≡ size)) }
    {
        self.offered = None;
        check_send(&endpoint)?;
        Ok(self.queues.queued.enqueue(size, endpoint)?)
    }

    /// Queues a message of these bytes, checksum and all. The checksum is written again when it is sent.
    pub fn send_slice(&mut self, data: &[u8], endpoint: IpAddress) -> Result<(), SendError>
        ensures answer { result ≡ send_answer self.old endpoint (length «data».now) }
        ensures state { self.new ≡ send_after self.old endpoint «data».now }
    {
        self.offered = None;
        check_send(&endpoint)?;
        self.queues.queued.enqueue_slice(endpoint, data)?;
        Ok(())
    }

    /// Queues a message of the bytes that `f` writes: it is lent `max_size` bytes, and answers how many
    /// from the first on are the message's.
    pub fn send_with<F: FnOnce(&mut [u8]) -> usize>(
        &mut self,
        max_size: usize,
        endpoint: IpAddress,
        f: F,
    ) -> Result<usize, SendError>
    where
        F: Drop,
        requires callable { (bytes : List ℕ) → length bytes ≡ max_size → FnOnceTakesAtMut F.FnOnce f bytes }
        requires within { (bytes left : List ℕ) (size : ℕ) → length bytes ≡ max_size → FnOnceReturnsAtMut F.FnOnce f bytes size left → size ≤ max_size }
        ensures answer { is_done result ≡ send_answer self.old endpoint max_size }
        ensures refused { OnErr result (self.new ≡ settled false self.old) }
        ensures queued { IfOk result (λ size. (bytes : List ℕ) × (left : List ℕ) × (length bytes ≡ max_size) × (length left ≡ max_size)
            × FnOnceReturnsAtMut F.FnOnce f bytes size left
            × (self.new ≡ with_queued self.old endpoint max_size (take size left))) }
    {
        self.offered = None;
        check_send(&endpoint)?;
        Ok(
            self.queues
                .queued
                .enqueue_with_infallible(max_size, endpoint, f)?,
        )
    }

    /// Returns the first message and its sender; it leaves its queue.
    #[tactic(auto, using(crate::proofs::PacketQueues::queues))]
    pub fn recv(&mut self) -> Result<(&[u8], IpAddress), RecvError>
        ensures* ends { sem 𝓛 (EndsAs the_row self.entry (recv_after self.old)) }
        ensures exhausted { IsErr result ↔ (first self.old.received ≡ None) }
        ensures refused { OnErr result (result ≡ Err Recv.Exhausted) }
        ensures first { IfOk result (λ p. first self.old.received ≡ Some (p.1, p.0.now)) }
    {
        self.offered = None;
        let Ok((remote, _)) = self.queues.received.peek() else {
            return Err(RecvError::Exhausted);
        };
        let remote = *remote;
        let Ok(bytes) = self.queues.received.take_bytes() else {
            return Err(RecvError::Exhausted);
        };
        Ok((bytes, remote))
    }

    /// Reads the first message into the slice. One that is longer than the slice is gone, and the slice
    /// is as it was.
    pub fn recv_slice(&mut self, data: &mut [u8]) -> Result<(usize, IpAddress), RecvError>
        ensures answer { result ≡ recv_answer self.old (length «data».old) }
        ensures state { self.new ≡ recv_after self.old }
        ensures read { «data».new ≡ recv_written self.old «data».old }
    {
        self.offered = None;
        self.queues.recv_slice(data)
    }
}

/// Whether the packet that an error quotes was sent from this endpoint.
fn takes_quoted(bound: &IpListenEndpoint, destination: &IpAddress, bytes: &[u8]) -> bool
    ensures { result ≡ takes_quoted bound.now destination.now bytes.now }
{
    if let Some(address) = bound.addr {
        if !is_same_address(&address, destination) {
            return false;
        }
    }
    bytes.len() >= QUOTED_LEN && u16::from_be_bytes([bytes[0], bytes[1]]) == bound.port
}

/// Whether the length of an IPv4 header that the message quotes fits its field.
fn fits_v4(message: &Icmpv4Header) -> bool
    ensures value { result ≡ fits_v4 message.now }
    ensures means { IsTrue result → Icmpv4.Fits message.now }
{
    match message {
        Icmpv4Header::EchoRequest { .. } | Icmpv4Header::EchoReply { .. } => true,
        Icmpv4Header::DstUnreachable { header, .. } | Icmpv4Header::TimeExceeded { header, .. } => {
            header.payload_len <= LAST_LENGTH - IPV4_HEADER_LEN
        }
    }
}

/// Whether the length of an IPv6 header that the message quotes fits its field.
fn fits_v6(message: &Icmpv6Header) -> bool
    ensures value { result ≡ fits_v6 (Icmpv6.value_of message.now) }
    ensures means { IsTrue result → Icmpv6.Fits (Icmpv6.value_of message.now) }
{
    match message {
        Icmpv6Header::DstUnreachable { header, .. }
        | Icmpv6Header::PktTooBig { header, .. }
        | Icmpv6Header::TimeExceeded { header, .. }
        | Icmpv6Header::ParamProblem { header, .. } => header.payload_len <= LAST_LENGTH,
        Icmpv6Header::EchoRequest { .. } | Icmpv6Header::EchoReply { .. } => true,
        Icmpv6Header::Ndisc(_) => true,
    }
}

/// Writes a message over the whole buffer, with checksums that hold.
fn write_v4(message: &Icmpv4Header, payload: &[u8], buffer: &mut [u8])
    requires room { length buffer.old ≡ Icmpv4.header_len message.now + length payload.now }
    requires fits { Icmpv4.Fits message.now }
    ensures { buffer.new ≡ Icmpv4.written true true message.now payload.now }
{
    let mut packet = Icmpv4PacketMut::new_unchecked(buffer);
    message.emit(&mut packet, payload, &ChecksumCapabilities::default());
}

/// Writes a message over the whole buffer, with a checksum that holds between these addresses.
fn write_v6(
    source: &Ipv6Address,
    destination: &Ipv6Address,
    message: &Icmpv6Header,
    carried: &[u8],
    buffer: &mut [u8],
)
    requires room { length buffer.old ≡ Icmpv6.header_len (Icmpv6.value_of message.now) + length carried.now }
    requires fits { Icmpv6.Fits (Icmpv6.value_of message.now) }
    requires small { length buffer.old < 2 ^ 32 }
    requires carried { Icmpv6.CanCarry (Icmpv6.value_of message.now) carried.now }
    ensures { buffer.new ≡ Icmpv6.written source.now destination.now true (Icmpv6.value_of message.now) carried.now }
{
    let mut packet = Icmpv6PacketMut::new_unchecked(buffer);
    let caps = ChecksumCapabilities::default();
    message.emit(source, destination, &mut packet, carried, &caps);
}

impl Socket {
    /// Whether echo messages of this identifier are for the socket.
    fn takes_echo(&self, ident: u16) -> bool
        ensures { result ≡ takes_echo self.now.settings.endpoint ident }
    {
        match self.endpoint {
            Endpoint::Ident(bound) => bound == ident,
            Endpoint::Unspecified | Endpoint::Tcp(_) | Endpoint::Udp(_) => false,
        }
    }

    /// Whether an error about a packet of this protocol, and with these bytes, is for the socket.
    fn takes_error(&self, destination: &IpAddress, protocol: IpProtocol, bytes: &[u8]) -> bool
        ensures { result ≡ takes_error self.now.settings.endpoint destination.now protocol bytes.now }
    {
        match self.endpoint {
            Endpoint::Tcp(bound) => {
                u8::from(protocol) == u8::from(IpProtocol::Tcp)
                    && takes_quoted(&bound, destination, bytes)
            }
            Endpoint::Udp(bound) => {
                u8::from(protocol) == u8::from(IpProtocol::Udp)
                    && takes_quoted(&bound, destination, bytes)
            }
            Endpoint::Unspecified | Endpoint::Ident(_) => false,
        }
    }

    /// Whether this message, in a packet with this header, is for the socket.
    pub fn accepts_v4(&self, ip_repr: &Ipv4Repr, icmp_repr: &Icmpv4Repr) -> bool
        ensures { result ≡ accepts_v4 self.now.settings.endpoint (Address.Ipv4 ip_repr.now.dst_addr) (Icmpv4.header_of icmp_repr.now)
            (Icmpv4.payload_of icmp_repr.now) }
    {
        let destination = IpAddress::Ipv4(ip_repr.dst_addr);
        match *icmp_repr {
            Icmpv4Repr::EchoRequest { ident, .. } | Icmpv4Repr::EchoReply { ident, .. } => {
                self.takes_echo(ident)
            }
            Icmpv4Repr::DstUnreachable { header, bytes, .. }
            | Icmpv4Repr::TimeExceeded { header, bytes, .. } => {
                self.takes_error(&destination, header.next_header, bytes)
            }
        }
    }

    /// Whether this message, in a packet with this header, is for the socket.
    pub fn accepts_v6(&self, ip_repr: &Ipv6Repr, icmp_repr: &Icmpv6Repr) -> bool
        ensures { result ≡ accepts_v6 self.now.settings.endpoint (Address.Ipv6 ip_repr.now.dst_addr) (Icmpv6.value_of (Icmpv6.header_of icmp_repr.now))
            (Icmpv6.carried_by icmp_repr.now) }
    {
        let destination = IpAddress::Ipv6(ip_repr.dst_addr);
        match *icmp_repr {
            Icmpv6Repr::EchoRequest { ident, .. } | Icmpv6Repr::EchoReply { ident, .. } => {
                self.takes_echo(ident)
            }
            Icmpv6Repr::DstUnreachable { header, bytes, .. }
            | Icmpv6Repr::TimeExceeded { header, bytes, .. } => {
                self.takes_error(&destination, header.next_header, bytes)
            }
            Icmpv6Repr::PktTooBig { .. } | Icmpv6Repr::ParamProblem { .. } | Icmpv6Repr::Ndisc(_) =>
                false,
        }
    }

    /// A message for the socket arrives. It is dropped where the queue is full, or where the length of the
    /// packet that it is about doesn't fit its field.
    pub fn process_v4(&mut self, ip_repr: &Ipv4Repr, icmp_repr: &Icmpv4Repr)
        ensures { self.new ≡ process_v4_after self.old ip_repr.now (Icmpv4.header_of icmp_repr.now) (Icmpv4.payload_of icmp_repr.now) }
    {
        self.offered = None;
        let sender = IpAddress::Ipv4(ip_repr.src_addr);
        let (message, payload) = (icmp_repr.header(), icmp_repr.bytes());
        if !fits_v4(&message) {
            return;
        }
        let size = icmp_repr.buffer_len();
        let _ = self
            .queues
            .received
            .enqueue_with_infallible(size, sender, |bytes: &mut [u8]| {
                write_v4(&message, payload, bytes);
                size
            });
    }

    /// A message for the socket arrives. It is dropped where the queue is full, where the length of the
    /// packet that it is about doesn't fit its field, or where its own doesn't fit a checksum's.
    pub fn process_v6(&mut self, ip_repr: &Ipv6Repr, icmp_repr: &Icmpv6Repr)
        ensures { self.new ≡ process_v6_after self.old ip_repr.now (Icmpv6.value_of (Icmpv6.header_of icmp_repr.now)) (Icmpv6.carried_by icmp_repr.now) }
    {
        self.offered = None;
        let sender = IpAddress::Ipv6(ip_repr.src_addr);
        let (source, destination) = (ip_repr.src_addr, ip_repr.dst_addr);
        let (message, carried) = (icmp_repr.header(), icmp_repr.bytes());
        let size = icmp_repr.buffer_len();
        if !fits_v6(&message) || size > LONGEST_MESSAGE {
            return;
        }
        let _ = self
            .queues
            .received
            .enqueue_with_infallible(size, sender, |bytes: &mut [u8]| {
                write_v6(&source, &destination, &message, carried, bytes);
                size
            });
    }

    /// When the socket wants to be polled: at once where a message is queued.
    pub fn poll_at(&self) -> PollAt
        ensures { result ≡ poll_of self.now }
    {
        self.queues.poll_at()
    }
}

/// The packet that takes a queued ICMPv4 message, if it is one.
fn kept_v4(source: Ipv4Address, remote: Ipv4Address, bytes: &[u8], hop_limit: u8) -> Option<Kept>
    ensures { IsKeptFrom (Some (Address.Ipv4 source)) (Address.Ipv4 remote) bytes.now hop_limit result }
{
    let packet = Icmpv4Packet::new_unchecked(bytes);
    let Ok(message) = Icmpv4Repr::parse(&packet, &ChecksumCapabilities::ignored()) else {
        return None;
    };
    let header = header_between(
        &IpAddress::Ipv4(source),
        &IpAddress::Ipv4(remote),
        IpProtocol::Icmp,
        message.buffer_len(),
        hop_limit,
    )?;
    Some(Kept {
        header,
        message: Message::V4(message.header()),
        start: bytes.len() - message.bytes().len(),
    })
}

/// The packet that takes a queued ICMPv6 message, if it is one.
fn kept_v6(source: Ipv6Address, remote: Ipv6Address, bytes: &[u8], hop_limit: u8) -> Option<Kept>
    ensures { IsKeptFrom (Some (Address.Ipv6 source)) (Address.Ipv6 remote) bytes.now hop_limit result }
{
    if bytes.len() > LONGEST_MESSAGE {
        return None;
    }
    let packet = Icmpv6Packet::new_unchecked(bytes);
    let unchecked = ChecksumCapabilities::ignored();
    let Ok(message) = Icmpv6Repr::parse(&source, &remote, &packet, &unchecked) else {
        return None;
    };
    let header = header_between(
        &IpAddress::Ipv6(source),
        &IpAddress::Ipv6(remote),
        IpProtocol::Icmpv6,
        message.buffer_len(),
        hop_limit,
    )?;
    Some(Kept {
        header,
        message: Message::V6(message.header()),
        start: bytes.len() - message.bytes().len(),
    })
}

/// The packet that takes a queued message to this address, if there is one.
fn kept_for<C: Context>(cx: &C, remote: &IpAddress, bytes: &[u8], hop_limit: u8) -> Option<Kept>
    ensures { IsKeptFrom ((C.context cx.now).source_for remote.now) remote.now bytes.now hop_limit result }
{
    let source = cx.get_source_address(remote)?;
    match (source, *remote) {
        (IpAddress::Ipv4(source), IpAddress::Ipv4(remote)) => {
            kept_v4(source, remote, bytes, hop_limit)
        }
        (IpAddress::Ipv6(source), IpAddress::Ipv6(remote)) => {
            kept_v6(source, remote, bytes, hop_limit)
        }
        _ => None,
    }
}

impl Socket {
    /// Offers the first queued message, from the context's source. One that can't be sent is dropped: it
    /// isn't a message that is known, it has no source, or it is longer than a length field can say.
    #[tactic(auto, using(crate::proofs::PacketQueues::queues))]
    pub fn offer<C: Context>(&mut self, cx: &C) -> Offer
        ensures { Offers (C.context cx.now) self.old result self.new }
    {
        self.offered = None;
        let hop_limit = self.hop_limit.unwrap_or(DEFAULT_HOP_LIMIT);
        let Ok((remote, bytes)) = self.queues.queued.peek() else {
            return Offer::Silent { changed: false };
        };
        let Some(kept) = kept_for(cx, remote, bytes, hop_limit) else {
            self.queues.queued.drop_first();
            return Offer::Silent { changed: true };
        };
        self.offered = Some(kept);
        Offer::Packet { changed: false }
    }

    /// The packet of the open offer.
    pub fn offered(&self) -> Option<Packet<'_>>
        ensures { option_value result ≡ self.now.offered }
    {
        let kept = self.offered?;
        let (_, bytes) = self.queues.queued.front().ok()?;
        let bytes = &bytes[kept.start..];
        let payload = match kept.message {
            Message::V4(message) => IpPayload::Icmpv4(Icmpv4Repr::new(&message, bytes)),
            Message::V6(message) => IpPayload::Icmpv6(Icmpv6Repr::new(&message, bytes)),
        };
        Some(Packet::new(kept.header, payload))
    }

    /// Says what became of the offered packet: a message that was sent leaves its queue, another one
    /// stays first.
    pub fn settle(&mut self, sent: bool)
        ensures { self.new ≡ settled sent self.old }
    {
        self.queues.settle(sent && self.offered.is_some());
        self.offered = None;
    }

    /// Offers a message and hands the packet to `emit`. Where that answers `Ok` the message leaves its
    /// queue, else it stays first.
    pub fn dispatch<C: Context, E, F: FnOnce(Packet<'_>) -> Result<(), E>>(
        &mut self,
        cx: &C,
        emit: F,
    ) -> Result<(), E>
    where
        F: Drop,
        requires { TakesOffered F.FnOnce emit (Offers (C.context cx.now) self.old) }
        ensures { Dispatches F.FnOnce emit (Offers (C.context cx.now) self.old) result self.new }
    {
        self.offer(cx);
        let Some(packet) = self.offered() else {
            return Ok(());
        };
        let answer = emit(packet);
        self.settle(answer.is_ok());
        answer
    }
}

/// Law: where the socket doesn't want to be polled at an instant yet, an offer at that instant is silent and
/// changes nothing, but that an open offer is settled as not sent.
pub fn silence()
    ensures { (cx : ContextValue) (v v' : IcmpValue) (answer : Offer) → IsBefore cx.instant (poll_of v)
        → Offers cx v answer v'
        → (answer ≡ Answer.Silent false) × (v' ≡ settled false v) }
{}

/// Law: a packet is offered exactly where the answer says so, and one whose offer is settled as not sent is
/// offered again as it was. An offer that is settled as not sent doesn't change when the socket wants to be
/// polled.
pub fn unsent_is_offered_again()
    ensures packet { (cx : ContextValue) (v v' : IcmpValue) (answer : Offer)
        → Offers cx v answer v'
        → HasPacket answer v'.offered }
    ensures again { (cx : ContextValue) (v v' : IcmpValue) (answer : Offer)
        → Offers cx v answer v'
        → IsSome v'.offered
        → Offers cx (settled false v') answer v' }
    ensures settled { (cx : ContextValue) (v v' : IcmpValue) (answer : Offer)
        → Offers cx (settled false v) answer v' ↔ Offers cx v answer v' }
    ensures due { (v : IcmpValue) → poll_of (settled false v) ≡ poll_of v }
{}

/// Law: an offer that says that nothing changed, and is settled as not sent, leaves the socket with the same
/// datagrams in its queues.
pub fn unchanged()
    ensures { (cx : ContextValue) (v v' : IcmpValue) (answer : Offer)
        → Offers cx v answer v'
        → changed_by answer ≡ false
        → IsSameButForSlots v (settled false v') }
{}

/// Law: what an offer answers and leaves is determined.
pub fn one_offer()
    ensures { (cx : ContextValue) (v left right : IcmpValue) (answer other : Offer)
        → Offers cx v answer left
        → Offers cx v other right
        → (answer ≡ other) × (left ≡ right) }
{}

/// Law: a packet that is offered can be sent. Its lengths fit their fields, its addresses are of one family,
/// and its header has the length of what it carries.
pub fn offered_fits()
    ensures { (cx : ContextValue) (v v' : IcmpValue) (answer : Offer) (p : PacketValue)
        → Offers cx v answer v'
        → v'.offered ≡ Some p
        → IsSendable p }
{}
