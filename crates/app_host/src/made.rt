//! The sockets that a script's header asks for.
use crate::refusal_text::Refusal;
use crate::stop::{Class, Stop};
use crate::words::{Words, number};
use interface::SocketSet;
use ip_wire::{IpProtocol, IpVersion};
use net_base::{ManagedSlice, PacketBuffer, PacketMetadata, RingBuffer};
use sim_link::{QueueSizes, SocketSpec, StreamSizes};
use sockets::{AnySocket, Socket, icmp, raw, tcp, udp};
use std::alloc::Global;

/// How many bytes a queue or a buffer may hold, and how many datagrams.
const MOST_BYTES: usize = 1 << 30;

const MOST_PACKETS: usize = 1 << 20;

// What is read of a line that asks for no kind of socket.
const NO_SOCKET: SocketSpec = SocketSpec::Tcp(StreamSizes {
    receive_bytes: 0,
    send_bytes: 0,
});

/// Reads what stands after `socket H`.
pub fn read_socket(words: &mut Words<'_>) -> SocketSpec {
    match words.word(Class::Kind) {
        "udp" => SocketSpec::Udp(queue_sizes(words)),
        "icmp" => SocketSpec::Icmp(queue_sizes(words)),
        "raw" => SocketSpec::Raw(version(words), protocol(words), queue_sizes(words)),
        "tcp" => SocketSpec::Tcp(StreamSizes {
            receive_bytes: words.size(),
            send_bytes: words.size(),
        }),
        _ => {
            words.wrong(Class::Kind);
            NO_SOCKET
        }
    }
}

/// `RP RB TP TB`.
fn queue_sizes(words: &mut Words<'_>) -> QueueSizes {
    QueueSizes {
        receive_packets: words.size(),
        receive_bytes: words.size(),
        send_packets: words.size(),
        send_bytes: words.size(),
    }
}

fn version(words: &mut Words<'_>) -> Option<IpVersion> {
    match words.word(Class::Version) {
        "4" => Some(IpVersion::Ipv4),
        "6" => Some(IpVersion::Ipv6),
        "any" => None,
        _ => {
            words.wrong(Class::Version);
            None
        }
    }
}

fn protocol(words: &mut Words<'_>) -> Option<u8> {
    let found = match words.word(Class::Protocol) {
        "any" => return None,
        word => number(word),
    };
    if found.is_none() {
        words.wrong(Class::Protocol);
    }
    found
}

/// Puts these sockets after others, in order. False: one is refused, which the words then say, or there is no memory for it.
pub fn add_all(
    alloc: Global,
    sockets: &mut SocketSet<Socket>,
    specs: &[SocketSpec],
    words: &mut Words<'_>,
) -> bool {
    for spec in specs {
        if !add(alloc, sockets, *spec, words) {
            return false;
        }
    }
    true
}

fn add(
    alloc: Global,
    sockets: &mut SocketSet<Socket>,
    spec: SocketSpec,
    words: &mut Words<'_>,
) -> bool {
    if !is_short(spec) {
        words.note(Stop::Refused(Refusal::Buffers));
        return false;
    }
    match socket_of(alloc, spec) {
        Some(socket) => sockets.add(socket).ok().is_some(),
        None => false,
    }
}

// Whether no queue and no buffer is too long.
fn is_short(spec: SocketSpec) -> bool {
    match spec {
        SocketSpec::Udp(sizes) | SocketSpec::Icmp(sizes) | SocketSpec::Raw(_, _, sizes) => {
            sizes.receive_packets <= MOST_PACKETS
                && sizes.receive_bytes <= MOST_BYTES
                && sizes.send_packets <= MOST_PACKETS
                && sizes.send_bytes <= MOST_BYTES
        }
        SocketSpec::Tcp(sizes) => {
            sizes.receive_bytes <= MOST_BYTES && sizes.send_bytes <= MOST_BYTES
        }
    }
}

// The socket, if there is memory for it.
fn socket_of(alloc: Global, spec: SocketSpec) -> Option<Socket> {
    match spec {
        SocketSpec::Udp(sizes) => {
            let (received, queued) = queues(alloc, sizes)?;
            udp::Socket::new(received, queued).upcast(alloc).ok()
        }
        SocketSpec::Icmp(sizes) => {
            let (received, queued) = queues(alloc, sizes)?;
            icmp::Socket::new(received, queued).upcast(alloc).ok()
        }
        SocketSpec::Raw(version, protocol, sizes) => {
            let (received, queued) = queues(alloc, sizes)?;
            let protocol = protocol.map(IpProtocol::from);
            raw::Socket::new(version, protocol, received, queued)
                .upcast(alloc)
                .ok()
        }
        SocketSpec::Tcp(sizes) => stream(alloc, sizes)?.upcast(alloc).ok(),
    }
}

/// The queue of what is received, and that of what is to be sent.
fn queues<H: Clone + Drop>(
    alloc: Global,
    sizes: QueueSizes,
) -> Option<(PacketBuffer<H>, PacketBuffer<H>)> {
    let received = queue(alloc, sizes.receive_packets, sizes.receive_bytes)?;
    let queued = queue(alloc, sizes.send_packets, sizes.send_bytes)?;
    Some((received, queued))
}

fn queue<H: Clone + Drop>(alloc: Global, packets: usize, bytes: usize) -> Option<PacketBuffer<H>> {
    let slots = vec![in alloc; PacketMetadata::EMPTY; packets].ok()?;
    let bytes = vec![in alloc; 0; bytes].ok()?;
    Some(PacketBuffer::new(ManagedSlice::Fixed(slots), ManagedSlice::Fixed(bytes)))
}

fn stream(alloc: Global, sizes: StreamSizes) -> Option<tcp::Socket> {
    let received = buffer(alloc, sizes.receive_bytes)?;
    let queued = buffer(alloc, sizes.send_bytes)?;
    if tcp::Socket::fits_buffer(&received) && tcp::Socket::fits_buffer(&queued) {
        Some(tcp::Socket::new(received, queued))
    } else {
        None
    }
}

fn buffer(alloc: Global, bytes: usize) -> Option<RingBuffer<u8>> {
    let bytes = vec![in alloc; 0; bytes].ok()?;
    Some(RingBuffer::new(ManagedSlice::Fixed(bytes)))
}
