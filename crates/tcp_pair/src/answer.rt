//! What the calls of a socket answer, as answers of a pair; and the segments that it sends.
ghost use Rattle.std.specs.Prelude.{◌≡◌, ◌≢◌, [], Some, vec_capacity};
ghost use Rattle.socket_context.specs.Packet.{packet_value};
ghost use Rattle.tcp_refinement.specs.Pair.Steps.{listen_says, connect_says, send_says, recv_fault, limit_of};
ghost use Rattle.tcp_pair.specs.Ends.{is_done, count_in, IsShort, carried, FitsRoom};

use socket_context::{IpPayload, Packet};
use tcp_refinement::pair::{Bytes, PairAnswer, SentSegment, TcpFault};
use tcp_socket::{ConnectError, ListenError, RecvError, SendError};

/// An answer and its twin, which the pair keeps.
pub(crate) type Twins = (PairAnswer, PairAnswer);

/// An answer without bytes, twice.
pub(crate) fn twins(answer: PairAnswer) -> Twins
    requires { IsShort answer }
    ensures first { result.0 ≡ answer }
    ensures second { result.1 ≡ answer }
{
    match answer {
        PairAnswer::Done => (PairAnswer::Done, PairAnswer::Done),
        PairAnswer::Count(count) => (PairAnswer::Count(count), PairAnswer::Count(count)),
        PairAnswer::Error(fault) => (PairAnswer::Error(fault), PairAnswer::Error(fault)),
        PairAnswer::Bytes(_) => unreachable!(),
    }
}

/// Whether the answer is that all was done.
pub(crate) fn is_done(answer: &PairAnswer) -> bool
    ensures { result ≡ is_done answer.now }
{
    matches!(answer, PairAnswer::Done)
}

/// How many bytes were taken, by the answer.
pub(crate) fn count_in(answer: &PairAnswer) -> usize
    ensures { result ≡ count_in answer.now }
{
    match answer {
        PairAnswer::Count(count) => *count,
        _ => 0,
    }
}

pub(crate) fn listen_says(outcome: Result<(), ListenError>) -> PairAnswer
    ensures answer { result ≡ listen_says outcome }
    ensures short { IsShort result }
{
    match outcome {
        Ok(()) => PairAnswer::Done,
        Err(ListenError::InvalidState) => PairAnswer::Error(TcpFault::InvalidState),
        Err(ListenError::Unaddressable) => PairAnswer::Error(TcpFault::Unaddressable),
    }
}

pub(crate) fn connect_says(outcome: Result<(), ConnectError>) -> PairAnswer
    ensures answer { result ≡ connect_says outcome }
    ensures short { IsShort result }
{
    match outcome {
        Ok(()) => PairAnswer::Done,
        Err(ConnectError::InvalidState) => PairAnswer::Error(TcpFault::InvalidState),
        Err(ConnectError::Unaddressable) => PairAnswer::Error(TcpFault::Unaddressable),
    }
}

pub(crate) fn send_says(outcome: Result<usize, SendError>) -> PairAnswer
    ensures answer { result ≡ send_says outcome }
    ensures short { IsShort result }
{
    match outcome {
        Ok(count) => PairAnswer::Count(count),
        Err(SendError::InvalidState) => PairAnswer::Error(TcpFault::InvalidState),
    }
}

pub(crate) fn recv_fault(fault: RecvError) -> PairAnswer
    ensures answer { result ≡ recv_fault fault }
    ensures short { IsShort result }
{
    match fault {
        RecvError::InvalidState => PairAnswer::Error(TcpFault::InvalidState),
        RecvError::Finished => PairAnswer::Error(TcpFault::Finished),
    }
}

/// The hop limit that is set: 0 counts as none.
pub(crate) fn limit_of(limit: Option<u8>) -> Option<u8>
    ensures value { result ≡ limit_of limit }
    ensures some { result ≢ Some 0 }
{
    match limit {
        None => None,
        Some(n) => { if n == 0 { None } else { Some(n) } }
    }
}

/// The segment of a packet, its payload copied into memory that is there.
pub(crate) fn segment_of(packet: &Packet<'_>, mut bytes: Vec<u8>) -> SentSegment
    requires empty { bytes.items ≡ [] }
    requires room { FitsRoom (vec_capacity bytes) (packet_value packet.now).payload }
    ensures { carried result ≡ packet_value packet.now }
{
    match packet.payload() {
        IpPayload::Tcp(header, payload) => {
            let Ok(()) = bytes.extend_from_slice(payload.first) else {
                unreachable!()
            };
            let Ok(()) = bytes.extend_from_slice(payload.rest) else {
                unreachable!()
            };
            SentSegment {
                header: packet.ip_repr(),
                segment: *header,
                bytes: Bytes::from_vec(bytes),
            }
        }
        IpPayload::Icmpv4(_) | IpPayload::Icmpv6(_) | IpPayload::Raw(_) | IpPayload::Udp(..) => {
            unreachable!()
        }
    }
}
