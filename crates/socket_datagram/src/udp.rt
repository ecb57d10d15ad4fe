//! Sockets for user datagrams (RFC 768).
ghost use Rattle.std.specs.Prelude.{◌≡◌, ◌≢◌, ◌+◌, ◌==◌, ◌<◌, ◌≤◌, ◌^◌, ◌↔◌, ℕ, List, length, take, false, true, IfOk, IfErr, IsErr, IfSome, OnErr, Result, Ok, Err};
ghost use Rattle.std.specs.Prelude.{Option, None, Some, IsSome, if◌then◌else◌};
ghost use Rattle.std.specs.Borrow.{sem};
ghost use Rattle.std.specs.Fn.{FnOnceTakesAtMut, FnOnceReturnsAtMut};
ghost use Rattle.net_base.specs.Packets.{used_room, first};
ghost use Rattle.wire_address.specs.Sum.{word_sum, folded};
ghost use Rattle.wire_address.specs.Text.{endpoint_text};
ghost use Rattle.wire_address.specs.declared.ip.IpListenEndpoint.{IpListenEndpoint};
ghost use Rattle.wire_address.specs.declared.ip.IpAddress.TheVariants as Address;
ghost use Rattle.socket_context.specs.Offers.{IsBefore};
ghost use Rattle.socket_context.specs.Context.{ContextValue};
ghost use Rattle.socket_context.specs.Packet.{PacketValue, IsSendable, option_value};
ghost use Rattle.socket_context.specs.declared.offer.Offer.{Offer};
ghost use Rattle.socket_context.specs.declared.offer.Offer.TheVariants as Answer;
ghost use Rattle.socket_datagram.specs.Udp.{UdpValue, made, metadata_to, metadata_of, is_open, bind_answer, bind_after, closed, with_hop_limit, is_unaddressable};
ghost use Rattle.socket_datagram.specs.Header.{header_between, hop_limit_or_default};
ghost use Rattle.socket_datagram.specs.Udp.{send_answer, send_after, accepts, process_after, header_for, settings_of, IsHeaderToSend, Offers};
ghost use Rattle.socket_datagram.specs.Udp.{offered_in, header_at_once, TakesAtOnce};
ghost use Rattle.socket_datagram.specs.LentDatagram.{lent_value};
ghost use Rattle.socket_datagram.specs.SocketValue.{can_send, can_recv, with_queued, is_done, recv_answer, recv_after, recv_written, settled, poll_of};
ghost use Rattle.socket_datagram.specs.Offers.{HasPacket, IsFound, IsSameButForSlots, changed_by};
ghost use Rattle.socket_datagram.specs.Dispatch.{TakesOffered, Dispatches};
ghost use Rattle.socket_datagram.specs.declared.udp.UdpMetadata.{UdpMetadata};
ghost use Rattle.socket_datagram.specs.declared.error.SendError.TheVariants as Send;
ghost use Rattle.socket_datagram.specs.declared.error.RecvError.TheVariants as Recv;

pub use crate::error::{BindError, RecvError, SendError};
use crate::header::{DEFAULT_HOP_LIMIT, forget_offer, write_between};
use crate::queues::Queues;
use net_base::PacketMeta;
use socket_context::addresses::{is_multicast, is_same_address, is_unspecified};
use socket_context::{Context, IpPayload, Offer, Packet, PollAt};
use std::fmt;
use std::marker::Model;
use wire_address::{
    IpAddress, IpEndpoint, IpListenEndpoint, IpProtocol, Ipv4Address, Ipv6Address, checksum,
};
use wire_ip::udp::field::HEADER_LEN as UDP_HEADER_LEN;
use wire_ip::{IpRepr, UdpRepr};

/// Where a datagram goes to or comes from, and the address of this host on its other end, if it is known.
#[derive(Clone, Copy, Debug, PartialEq, Eq)]
pub struct UdpMetadata {
    pub endpoint: IpEndpoint,
    pub local_address: Option<IpAddress>,
    pub meta: PacketMeta,
}

impl From<IpEndpoint> for UdpMetadata {
    ghost from_gives = { λ endpoint metadata. metadata ≡ metadata_to endpoint };

    fn from(value: IpEndpoint) -> UdpMetadata {
        UdpMetadata {
            endpoint: value,
            local_address: None,
            meta: PacketMeta {},
        }
    }
}

impl From<(IpAddress, u16)> for UdpMetadata {
    ghost from_gives = { λ pair metadata. metadata ≡ metadata_to (record { addr = pair.0; port = pair.1 }) };

    fn from(value: (IpAddress, u16)) -> UdpMetadata {
        UdpMetadata::from(IpEndpoint::from(value))
    }
}

impl From<(Ipv4Address, u16)> for UdpMetadata {
    ghost from_gives = { λ pair metadata. metadata ≡ metadata_to (record { addr = Address.Ipv4 pair.0; port = pair.1 }) };

    fn from(value: (Ipv4Address, u16)) -> UdpMetadata {
        UdpMetadata::from(IpEndpoint::from(value))
    }
}

impl From<(Ipv6Address, u16)> for UdpMetadata {
    ghost from_gives = { λ pair metadata. metadata ≡ metadata_to (record { addr = Address.Ipv6 pair.0; port = pair.1 }) };

    fn from(value: (Ipv6Address, u16)) -> UdpMetadata {
        UdpMetadata::from(IpEndpoint::from(value))
    }
}

/// The endpoint.
impl fmt::Display for UdpMetadata {
    ghost output = { λ metadata. Some (endpoint_text metadata.endpoint) };

    fn fmt<W: fmt::Write>(&self, f: &mut fmt::Formatter<W>) -> fmt::Result {
        write!(f, "{}", self.endpoint)
    }
}

/// The packet of an open offer, whose header and bytes are lent from where they lie in the socket.
#[derive(Clone, Copy, Debug)]
pub struct OfferedDatagram<'a> {
    pub header: &'a IpRepr,
    pub ports: UdpRepr,
    pub bytes: &'a [u8],
}

/// An entry of a socket's queue.
pub type PacketMetadata = net_base::PacketMetadata<UdpMetadata>;

/// A socket's queue.
pub type PacketBuffer = net_base::PacketBuffer<UdpMetadata>;

const UNBOUND: IpListenEndpoint = IpListenEndpoint {
    addr: None,
    port: 0,
};

/// A UDP socket: the endpoint that it is bound to, and a queue for each way.
#[derive(Debug, Drop)]
pub struct Socket {
    endpoint: IpListenEndpoint,
    hop_limit: Option<u8>,
    queues: Queues<UdpMetadata>,
    /// The header of the packet that is offered. It carries the first queued datagram.
    offered: Option<IpRepr>,
}

impl Model for Socket {
    ghost use Rattle.net_base.specs.Packets.{first};
    ghost use Rattle.socket_datagram.specs.Udp.{UdpValue, settings_of, IsOpen, offered_in};

    ghost Value = { UdpValue };

    ghost view = { λ s. record {
      received = s.queues.received;
      queued = s.queues.queued;
      settings = settings_of s.endpoint s.hop_limit;
      offered =
          offered_in s.endpoint s.offered (first s.queues.queued);
    } };

    ghost invariant = { λ s. IsOpen s.offered s.queues.queued };
}

/// What is queued alongside the bytes of a datagram that arrives. Inlined, it is made where it is to lie.
#[inline(always)]
fn metadata_in(meta: PacketMeta, ip_repr: &IpRepr, repr: &UdpRepr) -> UdpMetadata
    ensures { result ≡ metadata_of ip_repr.now repr.now }
{
    UdpMetadata {
        endpoint: IpEndpoint {
            addr: ip_repr.src_addr(),
            port: repr.src_port,
        },
        local_address: Some(ip_repr.dst_addr()),
        meta,
    }
}

impl Socket {
    /// An unbound socket with these queues.
    pub fn new(rx_buffer: PacketBuffer, tx_buffer: PacketBuffer) -> Socket
        ensures { result ≡ made rx_buffer tx_buffer }
    {
        Socket {
            endpoint: UNBOUND,
            hop_limit: None,
            queues: Queues {
                received: rx_buffer,
                queued: tx_buffer,
            },
            offered: None,
        }
    }

    /// The endpoint that the socket is bound to. Its port is 0 while the socket is unbound.
    pub fn endpoint(&self) -> IpListenEndpoint
        ensures { result ≡ self.now.settings.endpoint }
    {
        self.endpoint
    }

    /// Whether the socket is bound.
    pub fn is_open(&self) -> bool
        ensures { result ≡ is_open self.now }
    {
        self.endpoint.port != 0
    }

    /// The hop limit that was set. Without one it is 64.
    pub fn hop_limit(&self) -> Option<u8>
        ensures { result ≡ self.now.settings.hop_limit }
    {
        self.hop_limit
    }

    /// Sets the hop limit of the datagrams that are offered from now on. A limit is not 0.
    pub fn set_hop_limit(&mut self, hop_limit: Option<u8>)
        requires { hop_limit ≢ Some 0 }
        ensures { self.new ≡ with_hop_limit self.old hop_limit }
    {
        self.offered = None;
        self.hop_limit = hop_limit;
    }

    /// Whether a datagram can be queued.
    pub fn can_send(&self) -> bool
        ensures { result ≡ can_send self.now }
    {
        self.queues.can_send()
    }

    /// Whether a datagram waits to be read.
    pub fn can_recv(&self) -> bool
        ensures { result ≡ can_recv self.now }
    {
        self.queues.can_recv()
    }

    /// Returns how many entries there are for received datagrams.
    pub fn packet_recv_capacity(&self) -> usize
        ensures { result ≡ self.now.received.positions }
    {
        self.queues.packet_recv_capacity()
    }

    /// Returns how many entries there are for datagrams to be sent.
    pub fn packet_send_capacity(&self) -> usize
        ensures { result ≡ self.now.queued.positions }
    {
        self.queues.packet_send_capacity()
    }

    /// Returns how many bytes of received datagrams there is room for.
    pub fn payload_recv_capacity(&self) -> usize
        ensures { result ≡ self.now.received.room }
    {
        self.queues.payload_recv_capacity()
    }

    /// Returns how many bytes of datagrams to be sent there is room for.
    pub fn payload_send_capacity(&self) -> usize
        ensures { result ≡ self.now.queued.room }
    {
        self.queues.payload_send_capacity()
    }

    /// Returns how many bytes of received datagrams are taken, those of padding among them.
    pub fn recv_queue(&self) -> usize
        ensures { result ≡ used_room self.now.received.packets }
    {
        self.queues.recv_queue()
    }

    /// Returns how many bytes of datagrams to be sent are taken, those of padding among them.
    pub fn send_queue(&self) -> usize
        ensures { result ≡ used_room self.now.queued.packets }
    {
        self.queues.send_queue()
    }

    /// Binds the socket to an endpoint: a port, an address and a port, or an endpoint of either kind. Without
    /// an address it takes the datagrams to all.
    pub fn bind<T: Into<IpListenEndpoint>>(&mut self, endpoint: T) -> Result<(), BindError>
        ensures { (to : IpListenEndpoint) × T.converts endpoint to
            × (result ≡ bind_answer self.old to) × (self.new ≡ bind_after self.old to) }
    {
        self.bind_to(endpoint.into())
    }

    fn bind_to(&mut self, endpoint: IpListenEndpoint) -> Result<(), BindError>
        ensures answer { result ≡ bind_answer self.old endpoint }
        ensures state { self.new ≡ bind_after self.old endpoint }
    {
        self.offered = None;
        if endpoint.port == 0 {
            return Err(BindError::Unaddressable);
        }
        if self.is_open() {
            return Err(BindError::InvalidState);
        }
        self.endpoint = endpoint;
        Ok(())
    }

    /// Unbinds the socket and empties both queues.
    pub fn close(&mut self)
        ensures { self.new ≡ closed self.old }
    {
        self.offered = None;
        self.endpoint = UNBOUND;
        self.queues.reset();
    }
}

/// The header of the packet that takes a datagram of this size.
fn header_for<C: Context>(
    cx: &C,
    bound: &IpListenEndpoint,
    hop_limit: Option<u8>,
    metadata: &UdpMetadata,
    size: usize,
) -> Option<IpRepr>
    requires { 8 + size < 2 ^ 64 }
    ensures { result ≡ header_for (C.context cx.now) (settings_of bound.now hop_limit) metadata.now size }
{
    let mut header = None;
    write_header(cx, bound, hop_limit, metadata, size, &mut header);
    header
}

/// Writes this header, or that there is none, where it is wanted.
fn write_header<C: Context>(
    cx: &C,
    bound: &IpListenEndpoint,
    hop_limit: Option<u8>,
    metadata: &UdpMetadata,
    size: usize,
    header: &mut Option<IpRepr>,
)
    requires { 8 + size < 2 ^ 64 }
    ensures { header.new ≡ header_for (C.context cx.now) (settings_of bound.now hop_limit) metadata.now size }
{
    match (&metadata.local_address, &bound.addr) {
        (Some(source), _) => write_from(source, hop_limit, metadata, size, header),
        (None, Some(source)) => write_from(source, hop_limit, metadata, size, header),
        (None, None) => match cx.get_source_address(&metadata.endpoint.addr) {
            Some(source) => write_from(&source, hop_limit, metadata, size, header),
            None => *header = None,
        },
    }
}

/// The same of a datagram from this address.
fn write_from(
    source: &IpAddress,
    hop_limit: Option<u8>,
    metadata: &UdpMetadata,
    size: usize,
    header: &mut Option<IpRepr>,
)
    requires { 8 + size < 2 ^ 64 }
    ensures { header.new ≡ header_between source.now metadata.now.endpoint.addr IpProtocol.Udp (8 + size) (hop_limit_or_default hop_limit) }
{
    write_between(
        source,
        &metadata.endpoint.addr,
        IpProtocol::Udp,
        UDP_HEADER_LEN + size,
        hop_limit.unwrap_or(DEFAULT_HOP_LIMIT),
        header,
    );
}

/// Writes the header of the packet that takes a datagram, or none where no packet can.
fn write_to_send<C: Context>(
    cx: &C,
    bound: &IpListenEndpoint,
    hop_limit: Option<u8>,
    metadata: &UdpMetadata,
    bytes: &[u8],
    header: &mut Option<IpRepr>,
)
    ensures { IsHeaderToSend (C.context cx.now) (settings_of bound.now hop_limit) (metadata.now, bytes.now) header.new }
{
    write_header(cx, bound, hop_limit, metadata, bytes.len(), header);
}

impl Socket {
    ghost use Rattle.socket_datagram.specs.BorrowEnds.{EndsAs};
    ghost use Rattle.socket_datagram.specs.SocketValue.{peeked};
    ghost use Rattle.socket_datagram.specs.contracts.udp.Socket.{the_row};

    /// Whether a datagram can't be sent: by an unbound socket, to port 0, or to the unspecified address.
    fn is_unaddressable(&self, metadata: &UdpMetadata) -> bool
        ensures { result ≡ is_unaddressable self.now metadata.now }
    {
        let endpoint = metadata.endpoint;
        !self.is_open() || endpoint.port == 0 || is_unspecified(&endpoint.addr)
    }

    /// Whether a datagram may be sent to this endpoint.
    fn check_send(&self, metadata: &UdpMetadata) -> Result<(), SendError>
        ensures { result ≡ (if is_unaddressable self.now metadata.now then Err Send.Unaddressable else Ok tt) }
    {
        if self.is_unaddressable(metadata) {
            return Err(SendError::Unaddressable);
        }
        Ok(())
    }

    /// Queues a datagram of so many bytes, and lends these for writing. The contract doesn't say what is
    /// queued once they are written: those of `send_slice` and `send_with` do.
    pub fn send<T: Into<UdpMetadata>>(
        &mut self,
        size: usize,
        meta: T,
    ) -> Result<&mut [u8], SendError>
        ensures { (to : UdpMetadata) × T.converts meta to
            × IfErr result (λ e. send_answer self.old to size ≡ Err e)
            × IfOk result (λ bytes. (send_answer self.old to size ≡ Ok tt) × (length bytes.now ≡ size)) }
    {
        self.send_to(size, meta.into())
    }

    fn send_to(&mut self, size: usize, meta: UdpMetadata) -> Result<&mut [u8], SendError>
        ensures refused { IfErr result (λ e. send_answer self.old meta size ≡ Err e) }
        ensures room { IfOk result (λ bytes. (send_answer self.old meta size ≡ Ok tt) × (length bytes.now ≡ size)) }
    {
        self.offered = None;
        self.check_send(&meta)?;
        Ok(self.queues.queued.enqueue(size, meta)?)
    }

    /// Queues a datagram of these bytes. One for which an offer finds no source address is dropped then, in silence.
    pub fn send_slice<T: Into<UdpMetadata>>(
        &mut self,
        data: &[u8],
        meta: T,
    ) -> Result<(), SendError>
        ensures { (to : UdpMetadata) × T.converts meta to
            × (result ≡ send_answer self.old to (length «data».now)) × (self.new ≡ send_after self.old to «data».now) }
    {
        self.send_slice_to(data, meta.into())
    }

    fn send_slice_to(&mut self, data: &[u8], meta: UdpMetadata) -> Result<(), SendError>
        ensures answer { result ≡ send_answer self.old meta (length «data».now) }
        ensures state { self.new ≡ send_after self.old meta «data».now }
    {
        forget_offer(&mut self.offered);
        self.check_send(&meta)?;
        self.queues.queued.enqueue_slice(meta, data)?;
        Ok(())
    }

    /// The packet that would take a datagram of these bytes if it were queued, where none is queued before it, the queue would take it and
    /// a packet can. The socket stays as it is, and the bytes where they lie.
    pub fn packet_at_once<'a, C: Context>(
        &self,
        cx: &C,
        bytes: &'a [u8],
        metadata: &UdpMetadata,
    ) -> Option<Packet<'a>>
        ensures packet { IsFound (TakesAtOnce (C.context cx.now) self.now (metadata.now, bytes.now)) (option_value result) }
        ensures sendable { IfSome (option_value result) IsSendable }
    {
        self.packet_after_header(self.header_at_once(cx, bytes, metadata), bytes, metadata)
    }

    /// The header of the packet that takes a datagram of these bytes, where it would be the first one in the queue.
    fn header_at_once<C: Context>(
        &self,
        cx: &C,
        bytes: &[u8],
        metadata: &UdpMetadata,
    ) -> Option<IpRepr>
        ensures { result ≡ header_at_once (C.context cx.now) self.now metadata.now (length bytes.now) }
    {
        if self.queues.takes_alone(bytes.len()) && !self.is_unaddressable(metadata) {
            header_for(cx, &self.endpoint, self.hop_limit, metadata, bytes.len())
        } else {
            None
        }
    }

    /// A datagram of these bytes after a header, if there is one.
    fn packet_after_header<'a>(
        &self,
        header: Option<IpRepr>,
        bytes: &'a [u8],
        metadata: &UdpMetadata,
    ) -> Option<Packet<'a>>
        ensures { option_value result ≡ offered_in self.now.settings.endpoint header (Some (metadata.now, bytes.now)) }
    {
        let header = header?;
        let src_port = self.endpoint.port;
        let repr = UdpRepr {
            src_port,
            dst_port: metadata.endpoint.port,
        };
        Some(Packet::new(header, IpPayload::Udp(repr, bytes)))
    }

    /// Queues a datagram of the bytes that `f` writes: it is lent `max_size` bytes, and answers how many
    /// from the first on are the datagram's.
    pub fn send_with<T: Into<UdpMetadata>, F: FnOnce(&mut [u8]) -> usize>(
        &mut self,
        max_size: usize,
        meta: T,
        f: F,
    ) -> Result<usize, SendError>
    where
        F: Drop,
        requires callable { (bytes : List ℕ) → length bytes ≡ max_size → FnOnceTakesAtMut F.FnOnce f bytes }
        requires within { (bytes left : List ℕ) (size : ℕ) → length bytes ≡ max_size → FnOnceReturnsAtMut F.FnOnce f bytes size left → size ≤ max_size }
        ensures { (to : UdpMetadata) × T.converts meta to
            × (is_done result ≡ send_answer self.old to max_size)
            × OnErr result (self.new ≡ settled false self.old)
            × IfOk result (λ size. (bytes : List ℕ) × (left : List ℕ) × (length bytes ≡ max_size) × (length left ≡ max_size)
            × FnOnceReturnsAtMut F.FnOnce f bytes size left
            × (self.new ≡ with_queued self.old to max_size (take size left))) }
    {
        self.send_with_to(max_size, meta.into(), f)
    }

    fn send_with_to<F: FnOnce(&mut [u8]) -> usize>(
        &mut self,
        max_size: usize,
        meta: UdpMetadata,
        f: F,
    ) -> Result<usize, SendError>
    where
        F: Drop,
        requires callable { (bytes : List ℕ) → length bytes ≡ max_size → FnOnceTakesAtMut F.FnOnce f bytes }
        requires within { (bytes left : List ℕ) (size : ℕ) → length bytes ≡ max_size → FnOnceReturnsAtMut F.FnOnce f bytes size left → size ≤ max_size }
        ensures answer { is_done result ≡ send_answer self.old meta max_size }
        ensures refused { OnErr result (self.new ≡ settled false self.old) }
        ensures queued { IfOk result (λ size. (bytes : List ℕ) × (left : List ℕ) × (length bytes ≡ max_size) × (length left ≡ max_size)
            × FnOnceReturnsAtMut F.FnOnce f bytes size left
            × (self.new ≡ with_queued self.old meta max_size (take size left))) }
    {
        self.offered = None;
        self.check_send(&meta)?;
        Ok(
            self.queues
                .queued
                .enqueue_with_infallible(max_size, meta, f)?,
        )
    }

    /// Returns the first datagram, which leaves its queue.
    #[tactic(auto, using(crate::proofs::PacketQueues::queues))]
    pub fn recv(&mut self) -> Result<(&[u8], UdpMetadata), RecvError>
        ensures* ends { sem 𝓛 (EndsAs the_row self.entry (recv_after self.old)) }
        ensures exhausted { IsErr result ↔ (first self.old.received ≡ None) }
        ensures refused { OnErr result (result ≡ Err Recv.Exhausted) }
        ensures first { IfOk result (λ p. first self.old.received ≡ Some (p.1, p.0.now)) }
    {
        self.offered = None;
        let Ok((metadata, _)) = self.queues.received.peek() else {
            return Err(RecvError::Exhausted);
        };
        let metadata = *metadata;
        let Ok(bytes) = self.queues.received.take_bytes() else {
            return Err(RecvError::Exhausted);
        };
        Ok((bytes, metadata))
    }

    /// Reads the first datagram into the slice. One that is longer than the slice is gone, and the slice
    /// is as it was.
    pub fn recv_slice(&mut self, data: &mut [u8]) -> Result<(usize, UdpMetadata), RecvError>
        ensures answer { result ≡ recv_answer self.old (length «data».old) }
        ensures state { self.new ≡ recv_after self.old }
        ensures read { «data».new ≡ recv_written self.old «data».old }
    {
        forget_offer(&mut self.offered);
        self.queues.recv_slice(data)
    }

    /// Returns the first datagram, which stays.
    pub fn peek(&mut self) -> Result<(&[u8], &UdpMetadata), RecvError>
        ensures* ends { sem 𝓛 (EndsAs the_row self.entry (peeked self.old)) }
        ensures exhausted { IsErr result ↔ (first self.old.received ≡ None) }
        ensures refused { OnErr result (result ≡ Err Recv.Exhausted) }
        ensures first { IfOk result (λ p. first self.old.received ≡ Some (p.1.now, p.0.now)) }
    {
        self.offered = None;
        match self.queues.received.peek() {
            Ok((metadata, bytes)) => Ok((bytes, metadata)),
            Err(_) => Err(RecvError::Exhausted),
        }
    }

    /// Copies the first datagram into the slice; it stays. Where it is longer than the slice, that is as it
    /// was.
    pub fn peek_slice(&mut self, data: &mut [u8]) -> Result<(usize, &UdpMetadata), RecvError>
        ensures* ends { sem 𝓛 (EndsAs the_row self.entry (peeked self.old)) }
        ensures found { IfOk result (λ p. recv_answer self.old (length «data».old) ≡ Ok (p.0, p.1.now)) }
        ensures refused { IfErr result (λ e. recv_answer self.old (length «data».old) ≡ Err e) }
        ensures read { «data».new ≡ recv_written self.old «data».old }
    {
        self.offered = None;
        let Ok((metadata, bytes)) = self.queues.received.peek() else {
            return Err(RecvError::Exhausted);
        };
        if data.len() < bytes.len() {
            return Err(RecvError::Truncated);
        }
        data[..bytes.len()].copy_from_slice(bytes);
        Ok((bytes.len(), metadata))
    }

    /// Whether this datagram is for the socket.
    pub fn accepts<C: Context>(&self, cx: &C, ip_repr: &IpRepr, repr: &UdpRepr) -> bool
        ensures { result ≡ accepts (C.context cx.now) self.now ip_repr.now repr.now }
    {
        if !self.is_open() || self.endpoint.port != repr.dst_port {
            return false;
        }
        let Some(bound) = self.endpoint.addr else {
            return true;
        };
        let destination = ip_repr.dst_addr();
        is_same_address(&bound, &destination)
            || cx.is_broadcast(&destination)
            || is_multicast(&destination)
    }

    /// A datagram for the socket arrives. It is dropped where the queue is full.
    pub fn process(&mut self, meta: PacketMeta, ip_repr: &IpRepr, repr: &UdpRepr, payload: &[u8])
        ensures { self.new ≡ process_after self.old ip_repr.now repr.now payload.now }
    {
        forget_offer(&mut self.offered);
        let metadata = metadata_in(meta, ip_repr, repr);
        let _ = self.queues.received.enqueue_slice(metadata, payload);
    }

    /// A datagram for the socket arrives whose checksum wasn't tested: its bytes are copied into the queue and summed by that, and where
    /// the checksum holds it is queued as `process` queues it. `rest` is the sum of all else that the checksum covers: the pseudo header
    /// and the header. Answers whether the checksum holds; where it doesn't nothing changes. It is for long datagrams.
    pub fn process_in_one_pass(
        &mut self,
        meta: PacketMeta,
        ip_repr: &IpRepr,
        repr: &UdpRepr,
        payload: &[u8],
        rest: u16,
    ) -> bool
        requires fits { length payload.now < 2 ^ 32 }
        ensures sum { result ≡ (folded (rest + word_sum payload.now) == 65535) }
        ensures queued { self.new ≡ (if folded (rest + word_sum payload.now) == 65535 then process_after self.old ip_repr.now repr.now payload.now else self.old) }
    {
        let metadata = metadata_in(meta, ip_repr, repr);
        let queued = self
            .queues
            .received
            .enqueue_if(payload.len(), metadata, |slot: &mut [u8]| {
                let sum = checksum::copy(slot, payload);
                checksum::add(rest, sum) == 0xffff
            });
        let holds = match queued {
            Ok(holds) => holds,
            Err(_) => checksum::add(rest, checksum::data(payload)) == 0xffff,
        };
        if holds {
            forget_offer(&mut self.offered);
        }
        holds
    }

    /// When the socket wants to be polled: at once where a datagram is queued.
    pub fn poll_at(&self) -> PollAt
        ensures { result ≡ poll_of self.now }
    {
        self.queues.poll_at()
    }

    /// Offers the first queued datagram. One that can't be sent is dropped: it has no source, or one of
    /// another family, or it is longer than a length field can say.
    #[tactic(auto, using(crate::proofs::PacketQueues::queues))]
    pub fn offer<C: Context>(&mut self, cx: &C) -> Offer
        ensures { Offers (C.context cx.now) self.old result self.new }
    {
        forget_offer(&mut self.offered);
        let Ok((metadata, bytes)) = self.queues.queued.peek() else {
            return Offer::Silent { changed: false };
        };
        write_to_send(
            cx,
            &self.endpoint,
            self.hop_limit,
            metadata,
            bytes,
            &mut self.offered,
        );
        match &self.offered {
            Some(_) => Offer::Packet { changed: false },
            None => {
                self.queues.queued.drop_first();
                Offer::Silent { changed: true }
            }
        }
    }

    /// The packet of the open offer, lent from where it lies.
    pub fn offered_datagram(&self) -> Option<OfferedDatagram<'_>>
        ensures { lent_value result ≡ self.now.offered }
    {
        let header = self.offered.as_ref()?;
        let (metadata, bytes) = self.queues.queued.front().ok()?;
        Some(OfferedDatagram {
            header,
            ports: UdpRepr {
                src_port: self.endpoint.port,
                dst_port: metadata.endpoint.port,
            },
            bytes,
        })
    }

    /// The packet of the open offer.
    pub fn offered(&self) -> Option<Packet<'_>>
        ensures { option_value result ≡ self.now.offered }
    {
        match self.offered_datagram() {
            None => None,
            Some(lent) => Some(Packet::new(*lent.header, IpPayload::Udp(lent.ports, lent.bytes))),
        }
    }

    /// Says what became of the offered packet: a datagram that was sent leaves its queue, another one
    /// stays first.
    pub fn settle(&mut self, sent: bool)
        ensures { self.new ≡ settled sent self.old }
    {
        self.queues.settle(sent && self.offered.is_some());
        self.offered = None;
    }

    /// Offers a datagram and hands the packet to `emit`. Where that answers `Ok` the datagram leaves its
    /// queue, else it stays first.
    pub fn dispatch<C: Context, E, F: FnOnce(Packet<'_>) -> Result<(), E>>(
        &mut self,
        cx: &C,
        emit: F,
    ) -> Result<(), E>
    where
        F: Drop,
        requires { TakesOffered F.FnOnce emit (Offers (C.context cx.now) self.old) }
        ensures { Dispatches F.FnOnce emit (Offers (C.context cx.now) self.old) result self.new }
    {
        self.offer(cx);
        let Some(packet) = self.offered() else {
            return Ok(());
        };
        let answer = emit(packet);
        self.settle(answer.is_ok());
        answer
    }
}

/// Law: where the socket doesn't want to be polled at an instant yet, an offer at that instant is silent and
/// changes nothing, but that an open offer is settled as not sent.
pub fn silence()
    ensures { (cx : ContextValue) (v v' : UdpValue) (answer : Offer) → IsBefore cx.instant (poll_of v)
        → Offers cx v answer v'
        → (answer ≡ Answer.Silent false) × (v' ≡ settled false v) }
{}

/// Law: a packet is offered exactly where the answer says so, and one whose offer is settled as not sent is
/// offered again as it was. An offer that is settled as not sent doesn't change when the socket wants to be
/// polled.
pub fn unsent_is_offered_again()
    ensures packet { (cx : ContextValue) (v v' : UdpValue) (answer : Offer)
        → Offers cx v answer v'
        → HasPacket answer v'.offered }
    ensures again { (cx : ContextValue) (v v' : UdpValue) (answer : Offer)
        → Offers cx v answer v'
        → IsSome v'.offered
        → Offers cx (settled false v') answer v' }
    ensures settled { (cx : ContextValue) (v v' : UdpValue) (answer : Offer)
        → Offers cx (settled false v) answer v' ↔ Offers cx v answer v' }
    ensures due { (v : UdpValue) → poll_of (settled false v) ≡ poll_of v }
{}

/// Law: an offer that says that nothing changed, and is settled as not sent, leaves the socket with the same
/// datagrams in its queues.
pub fn unchanged()
    ensures { (cx : ContextValue) (v v' : UdpValue) (answer : Offer)
        → Offers cx v answer v'
        → changed_by answer ≡ false
        → IsSameButForSlots v (settled false v') }
{}

/// Law: what an offer answers and leaves is determined.
pub fn one_offer()
    ensures { (cx : ContextValue) (v left right : UdpValue) (answer other : Offer)
        → Offers cx v answer left
        → Offers cx v other right
        → (answer ≡ other) × (left ≡ right) }
{}

/// Law: a packet that is offered can be sent. Its lengths fit their fields, its addresses are of one family,
/// and its header has the length of what it carries.
pub fn offered_fits()
    ensures { (cx : ContextValue) (v v' : UdpValue) (answer : Offer) (p : PacketValue)
        → Offers cx v answer v'
        → v'.offered ≡ Some p
        → IsSendable p }
{}
