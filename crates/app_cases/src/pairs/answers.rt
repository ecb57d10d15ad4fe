//! What is written of an event.
ghost use Rattle.std.specs.Prelude.{◌≡◌, ◌+◌, ◌<◌, ◌≤◌, ◌^◌, IsTrue, length};
ghost use Rattle.ip_wire.specs.Address.{version_of};
ghost use Rattle.ip_wire.specs.Tcp.{header_len, header_of};

use ip_wire::{IpAddress, TcpPacketMut, TcpRepr};
use net_base::ChecksumCapabilities;
use sockets::tcp::Socket;
use sockets::{Offer, PollAt};
use std::alloc::{AllocError, Global};
use tcp_pair::{Pair, PairAnswer, PairRefused, SentSegment, Side, TcpFault};

/// The line of an answer: of an offer what was offered.
pub fn push_answer(
    alloc: Global,
    text: &mut String,
    answered: &Result<(PairAnswer, Option<Offer>), PairRefused>,
) -> Result<(), AllocError> {
    match answered {
        Err(refused) => push_refused(text, *refused),
        Ok((_, Some(offer))) => writeln!(text, "= {}", offer_text(*offer)),
        Ok((answer, None)) => push_said(alloc, text, answer),
    }
}

/// The line of a run: which of the segments that it was to hand over was refused, if one was.
pub fn push_ended(
    text: &mut String,
    ended: Result<(), (usize, PairRefused)>,
) -> Result<(), AllocError> {
    match ended {
        Ok(()) => text.push_str("= done\n"),
        Err((number, refused)) => writeln!(text, "= refused {} at {number}", refused_name(refused)),
    }
}

/// The line of a side that was asked until it had nothing more to say: how many segments it sent.
pub fn push_asked(text: &mut String, asked: Result<usize, PairRefused>) -> Result<(), AllocError> {
    match asked {
        Ok(count) => writeln!(text, "= sent {count}"),
        Err(refused) => push_refused(text, refused),
    }
}

/// The line of a good link: whether all was read.
pub fn push_settled(
    text: &mut String,
    settled: Result<bool, PairRefused>,
) -> Result<(), AllocError> {
    match settled {
        Ok(true) => text.push_str("= all read\n"),
        Ok(false) => text.push_str("= not all read\n"),
        Err(refused) => push_refused(text, refused),
    }
}

/// The line of rounds: how many there were, the instants of A and B then, and what was read in them, one read after the other.
pub fn push_rounds(
    alloc: Global,
    text: &mut String,
    ended: Result<usize, PairRefused>,
    pair: &Pair,
    from: usize,
) -> Result<(), AllocError> {
    match ended {
        Ok(count) => {
            let (a, b) = (pair.instant(Side::A), pair.instant(Side::B));
            let (a, b) = (a.total_micros(), b.total_micros());
            write!(text, "= rounds {count} at {a} {b} read")?;
            for answer in pair.answers().iter().skip(from) {
                push_read(alloc, text, answer)?;
            }
            text.push_str("\n")
        }
        Err(refused) => push_refused(text, refused),
    }
}

/// The bytes of a read that gave some.
fn push_read(alloc: Global, text: &mut String, answer: &PairAnswer) -> Result<(), AllocError> {
    match answer {
        PairAnswer::Bytes(bytes) if !bytes.as_slice().is_empty() => {
            text.push_str(" ")?;
            text.push_str(hex::encode(alloc, bytes.as_slice())?.as_str())
        }
        _ => Ok(()),
    }
}

fn push_refused(text: &mut String, refused: PairRefused) -> Result<(), AllocError> {
    writeln!(text, "= refused {}", refused_name(refused))
}

fn offer_text(offer: Offer) -> &'static str {
    match offer {
        Offer::Packet { changed: false } => "packet",
        Offer::Packet { changed: true } => "packet changed",
        Offer::Silent { changed: false } => "silent",
        Offer::Silent { changed: true } => "silent changed",
    }
}

fn push_said(alloc: Global, text: &mut String, answer: &PairAnswer) -> Result<(), AllocError> {
    match answer {
        PairAnswer::Done => text.push_str("= done\n"),
        PairAnswer::Count(count) => writeln!(text, "= count {count}"),
        PairAnswer::Bytes(bytes) => {
            text.push_str("= bytes ")?;
            push_hex(alloc, text, bytes.as_slice())
        }
        PairAnswer::Error(fault) => writeln!(text, "= error {}", fault_name(*fault)),
    }
}

fn fault_name(fault: TcpFault) -> &'static str {
    match fault {
        TcpFault::InvalidState => "InvalidState",
        TcpFault::Unaddressable => "Unaddressable",
        TcpFault::Finished => "Finished",
    }
}

fn refused_name(refused: PairRefused) -> &'static str {
    match refused {
        PairRefused::NoSegment => "NoSegment",
        PairRefused::OpenedTwice => "OpenedTwice",
        PairRefused::TooManyBytes => "TooManyBytes",
        PairRefused::Moment => "Moment",
        PairRefused::Memory => "Memory",
    }
}

/// Bytes as pairs of hex digits, or `-` for none, and the line's end.
fn push_hex(alloc: Global, text: &mut String, bytes: &[u8]) -> Result<(), AllocError> {
    if bytes.is_empty() {
        return text.push_str("-\n");
    }
    text.push_str(hex::encode(alloc, bytes)?.as_str())?;
    text.push_str("\n")
}

/// A line for each segment of a side from this slot on.
pub fn push_sent(
    alloc: Global,
    text: &mut String,
    side: Side,
    sent: &[SentSegment],
    from: usize,
) -> Result<(), AllocError> {
    for (k, segment) in sent.iter().enumerate().skip(from) {
        let name = match side {
            Side::A => 'A',
            Side::B => 'B',
        };
        write!(text, "sent {name} {k} ")?;
        push_hex(alloc, text, written(alloc, segment)?.as_slice())?;
    }
    Ok(())
}

/// The bytes of a segment, with its checksum: none where no packet holds them.
fn written(alloc: Global, x: &SentSegment) -> Result<Vec<u8>, AllocError> {
    let segment = TcpRepr::new(&x.segment, x.bytes.as_slice());
    let (source, destination) = (x.header.src_addr(), x.header.dst_addr());
    if !fits(&segment, &source, &destination) {
        return Ok(Vec::new(alloc));
    }
    let mut bytes = vec![in alloc; 0; segment.buffer_len()]?;
    write_segment(&segment, &source, &destination, bytes.as_mut_slice());
    Ok(bytes)
}

/// Whether a packet between these addresses holds the segment.
fn fits(segment: &TcpRepr<'_>, source: &IpAddress, destination: &IpAddress) -> bool
    ensures header { IsTrue result → header_len (header_of segment.now) ≤ 60 }
    ensures all { IsTrue result → header_len (header_of segment.now) + length segment.now.payload.now < 2 ^ 16 }
    ensures family { IsTrue result → version_of source.now ≡ version_of destination.now }
{
    segment.header_len() <= 60
        && segment.buffer_len() <= 65_535
        && source.version() == destination.version()
}

/// Writes the segment over the whole buffer.
fn write_segment(
    segment: &TcpRepr<'_>,
    source: &IpAddress,
    destination: &IpAddress,
    buffer: &mut [u8],
)
    requires room { length buffer.old ≡ header_len (header_of segment.now) + length segment.now.payload.now }
    requires header { header_len (header_of segment.now) ≤ 60 }
    requires all { header_len (header_of segment.now) + length segment.now.payload.now < 2 ^ 16 }
    requires family { version_of source.now ≡ version_of destination.now }
{
    let mut packet = TcpPacketMut::new_unchecked(buffer);
    segment.emit(
        &mut packet,
        source,
        destination,
        &ChecksumCapabilities::default(),
    );
}

/// The line of a side: its state, what waits in its queues, and when it wants to be polled.
pub fn push_side(
    text: &mut String,
    name: char,
    socket: &Socket,
    at: PollAt,
) -> Result<(), AllocError> {
    let (state, received, queued) = (socket.state(), socket.recv_queue(), socket.send_queue());
    write!(
        text,
        "{name} {state} recv_queue {received} send_queue {queued} at "
    )?;
    match at {
        PollAt::Now => text.push_str("now\n"),
        PollAt::Ingress => text.push_str("ingress\n"),
        PollAt::Time(instant) => writeln!(text, "{}", instant.total_micros()),
    }
}
