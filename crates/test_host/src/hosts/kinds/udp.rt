//! UDP sockets.
use crate::cases::{Goes, Life, all_live, first_wrong};
use crate::hosts::kinds::common::{make_host, udp_socket, zeros};
use ip_wire::{IpAddress, IpEndpoint, IpProtocol, IpRepr, Ipv4Address, Ipv6Address, UdpRepr};
use net_base::PacketMeta;
use sockets::udp::{RecvError, SendError, Socket, UdpMetadata};
use sockets::{IpPayload, Packet};
use std::alloc::{AllocError, Global};

/// A call of a UDP socket with its answer. What is sent goes to port 53.
enum Call {
    /// To port 48896 of every address.
    Binds,
    /// `send_slice`: so many bytes 7 to this address.
    Sends(usize, IpAddress),
    /// `send`: these bytes to 192.168.1.2, written into a room that the socket lends.
    Writes(&'static [u8], Result<(), SendError>),
    /// A datagram of the bytes abcdef comes, from 192.168.1.2:53 to 192.168.1.1:48896.
    Comes,
    /// The same in one pass, alongside this sum of all else that its checksum covers, and whether that holds.
    ComesInFastPath(u16, bool),
    CanReceive(bool),
    /// `send_queue`: how many bytes wait.
    Queued(usize),
    /// `peek_slice`, `recv_slice`: into a slice of as many bytes 0, which then holds these.
    PeeksSlice(Result<(usize, UdpMetadata), RecvError>, &'static [u8]),
    ReadsSlice(Result<(usize, UdpMetadata), RecvError>, &'static [u8]),
    /// `peek`, `recv`
    Peeks(Result<(&'static [u8], UdpMetadata), RecvError>),
    Reads(Result<(&'static [u8], UdpMetadata), RecvError>),
    /// `dispatch`: it hands out a datagram of so many bytes, which isn't sent, or none.
    HandsOut(Result<(), usize>),
    /// The datagram abc.
    HandsAbc,
}

use Call::{
    Binds, CanReceive, Comes, ComesInFastPath, HandsAbc, HandsOut, Peeks, PeeksSlice, Queued,
    Reads, ReadsSlice, Sends, Writes,
};

impl Goes<Socket> for Call {
    fn goes(&self, alloc: Global, socket: &mut Socket) -> bool {
        match self {
            Sends(count, remote) => sends(alloc, socket, *count, *remote),
            PeeksSlice(answer, holds) => peeks_slice(alloc, socket, answer, holds),
            ReadsSlice(answer, holds) => reads_slice(alloc, socket, answer, holds),
            Peeks(answer) => peeks(socket, answer),
            Reads(answer) => reads(socket, answer),
            _ => goes_alone(socket, self),
        }
    }
}

/// The same of a call that takes no memory and reads nothing.
fn goes_alone(socket: &mut Socket, call: &Call) -> bool {
    match call {
        Binds => socket.bind(48896).is_ok(),
        Writes(bytes, answer) => writes(socket, bytes) == *answer,
        Comes => {
            comes(socket);
            true
        }
        ComesInFastPath(rest, holds) => comes_in_one_pass(socket, *rest) == *holds,
        CanReceive(answer) => socket.can_recv() == *answer,
        Queued(count) => socket.send_queue() == *count,
        HandsOut(answer) => socket.dispatch(&make_host(None), length_of) == *answer,
        HandsAbc => hands_abc(socket),
        _ => false,
    }
}

fn sends(alloc: Global, socket: &mut Socket, count: usize, remote: IpAddress) -> bool {
    match vec![in alloc; 7; count] {
        Ok(bytes) => socket
            .send_slice(bytes.as_slice(), IpEndpoint::new(remote, 53))
            .is_ok(),
        Err(AllocError) => false,
    }
}

fn writes(socket: &mut Socket, bytes: &[u8]) -> Result<(), SendError> {
    match socket.send(bytes.len(), IpEndpoint::new(V4, 53)) {
        Ok(room) => {
            room.copy_from_slice(bytes);
            Ok(())
        }
        Err(error) => Err(error),
    }
}

/// The ports of the datagram that comes.
const PORTS: UdpRepr = UdpRepr {
    src_port: 53,
    dst_port: 48896,
};

fn comes(socket: &mut Socket) {
    let header = IpRepr::new(V4, OWN, IpProtocol::Udp, 14, 64);
    socket.process(PacketMeta {}, &header, &PORTS, b"abcdef");
}

fn comes_in_one_pass(socket: &mut Socket, rest: u16) -> bool {
    let header = IpRepr::new(V4, OWN, IpProtocol::Udp, 14, 64);
    socket.process_in_one_pass(PacketMeta {}, &header, &PORTS, b"abcdef", rest)
}

/// What is read into a slice.
type Filled = Result<(usize, UdpMetadata), RecvError>;

fn peeks_slice(alloc: Global, socket: &mut Socket, answer: &Filled, holds: &[u8]) -> bool {
    match zeros(alloc, holds.len()) {
        Ok(mut slice) => {
            is_peeked(socket, slice.as_mut_slice(), answer) && slice.as_slice() == holds
        }
        Err(AllocError) => false,
    }
}

fn is_peeked(socket: &mut Socket, slice: &mut [u8], answer: &Filled) -> bool {
    match socket.peek_slice(slice) {
        Ok((count, metadata)) => *answer == Ok((count, *metadata)),
        Err(error) => *answer == Err(error),
    }
}

fn reads_slice(alloc: Global, socket: &mut Socket, answer: &Filled, holds: &[u8]) -> bool {
    match zeros(alloc, holds.len()) {
        Ok(mut slice) => {
            socket.recv_slice(slice.as_mut_slice()) == *answer && slice.as_slice() == holds
        }
        Err(AllocError) => false,
    }
}

/// What is lent.
type Lent = Result<(&'static [u8], UdpMetadata), RecvError>;

fn reads(socket: &mut Socket, answer: &Lent) -> bool {
    match socket.recv() {
        Ok((bytes, metadata)) => *answer == Ok((bytes, metadata)),
        Err(error) => *answer == Err(error),
    }
}

fn peeks(socket: &mut Socket, answer: &Lent) -> bool {
    match socket.peek() {
        Ok((bytes, metadata)) => *answer == Ok((bytes, *metadata)),
        Err(error) => *answer == Err(error),
    }
}

/// The bytes of a datagram, or why it is none.
pub fn length_of(packet: Packet<'_>) -> Result<(), usize> {
    match packet.payload() {
        IpPayload::Udp(_, bytes) => Err(bytes.len()),
        _ => Ok(()),
    }
}

/// Whether it hands out the datagram abc, which isn't sent.
pub fn hands_abc(socket: &mut Socket) -> bool {
    socket.dispatch(&make_host(None), is_abc) == Err(true)
}

/// Whether a packet takes the bytes abc from port 48896 to port 53 of 192.168.1.2.
fn is_abc(packet: Packet<'_>) -> Result<(), bool> {
    let header = packet.ip_repr();
    let goes_there = (
        header.hop_limit(),
        header.dst_addr(),
        header.next_header(),
        header.payload_len(),
    ) == (64, V4, IpProtocol::Udp, 11);
    Err(goes_there && carries_abc(&packet.payload()))
}

fn carries_abc(payload: &IpPayload<'_>) -> bool {
    match payload {
        IpPayload::Udp(ports, bytes) => {
            (ports.src_port, ports.dst_port) == (48896, 53) && *bytes == b"abc".as_slice()
        }
        _ => false,
    }
}

const OWN: IpAddress = IpAddress::Ipv4(Ipv4Address([192, 168, 1, 1]));

pub const V4: IpAddress = IpAddress::Ipv4(Ipv4Address([192, 168, 1, 2]));

const V6: IpAddress = IpAddress::Ipv6(Ipv6Address([
    0xfd, 0, 0, 0, 0, 0, 0, 0, 0, 0, 0, 0, 0, 0, 0, 2,
]));

const FROM_V4: UdpMetadata = UdpMetadata {
    endpoint: IpEndpoint { addr: V4, port: 53 },
    local_address: Some(OWN),
    meta: PacketMeta {},
};

/// A new socket with room for so many bytes each way, and its calls.
struct Datagrams(usize, &'static [Call]);

impl Life for Datagrams {
    fn stops_at(&self, alloc: Global) -> Option<usize> {
        match udp_socket(alloc, self.0) {
            Ok(mut socket) => first_wrong(alloc, &mut socket, self.1),
            Err(AllocError) => Some(0),
        }
    }
}

static LIVES: [Datagrams; 9] = [
    // A short slice truncates and stays as it was.
    Datagrams(
        64,
        &[
            Comes,
            PeeksSlice(Err(RecvError::Truncated), &[0; 4]),
            ReadsSlice(Err(RecvError::Truncated), &[0; 4]),
            PeeksSlice(Err(RecvError::Exhausted), &[0; 4]),
            CanReceive(false),
        ],
    ),
    // A datagram is lent, and a longer slice keeps its end.
    Datagrams(
        64,
        &[
            Comes,
            Peeks(Ok((b"abcdef", FROM_V4))),
            PeeksSlice(Ok((6, FROM_V4)), b"abcdef\0"),
            ReadsSlice(Ok((6, FROM_V4)), b"abcdef\0\0"),
            CanReceive(false),
        ],
    ),
    // It is lent once where it is read.
    Datagrams(
        64,
        &[
            Reads(Err(RecvError::Exhausted)),
            Comes,
            Reads(Ok((b"abcdef", FROM_V4))),
            CanReceive(false),
        ],
    ),
    // What comes in one pass is queued where its checksum holds, and where it is full that is still told. The words of abcdef sum to
    // 0x2a2d.
    Datagrams(
        6,
        &[
            ComesInFastPath(0xd5d3, false),
            CanReceive(false),
            ComesInFastPath(0xd5d2, true),
            ComesInFastPath(0xd5d2, true),
            ComesInFastPath(0xd5d3, false),
            Reads(Ok((b"abcdef", FROM_V4))),
            CanReceive(false),
        ],
    ),
    // A lent room is refused or queued.
    Datagrams(
        6,
        &[
            Writes(b"abc", Err(SendError::Unaddressable)),
            Binds,
            Writes(&[0; 7], Err(SendError::BufferFull)),
        ],
    ),
    Datagrams(6, &[Binds, Writes(b"abc", Ok(())), Queued(3), HandsAbc]),
    // What no length holds is dropped.
    Datagrams(65_536, &[Binds, Sends(65_508, V4), HandsOut(Ok(()))]),
    Datagrams(65_536, &[Binds, Sends(65_508, V6), HandsOut(Err(65_508))]),
    Datagrams(65_536, &[Binds, Sends(65_507, V4), HandsOut(Err(65_507))]),
];

#[test]
fn datagrams_are_read_queued_and_dropped(rt: HostRuntime) {
    all_live(&rt, &LIVES);
}
