//! A segment, given to the socket that it is for.
ghost use Rattle.std.specs.Prelude.{◌≡◌, None, Some};
ghost use Rattle.net_base.specs.Time.{IsMoment};
ghost use Rattle.sockets.specs.Packet.{IsSendable};
ghost use Rattle.sockets.specs.Replies.{packet_in};
ghost use Rattle.sockets.specs.TcpAnswering as TcpAnswering;
ghost use Rattle.sockets.specs.TcpArrival.{arrives};
ghost use Rattle.iface_egress.specs.Inner.{context_of};
ghost use Rattle.iface_ingress.specs.Arrives.{IfCanGo, answered, reply_of};
ghost use Rattle.iface_ingress.specs.Delivered.{packet_by, with_segment, answer_of, draws_of, drawn_if};

use crate::reply::Reply;
use iface_egress::InterfaceInner;
use ip_wire::{IpRepr, TcpHeader};
use net_base::Instant;
use sockets::tcp::Due;
use sockets::{Context, IpPayload, Packet, SegmentPayload, Socket, tcp};

/// Gives a segment to a TCP socket, and writes the packet that answers it.
fn process_stream<'a>(
    inner: &mut InterfaceInner,
    socket: &mut tcp::Socket,
    header: &IpRepr,
    segment: &TcpHeader,
    bytes: &[u8],
    reply: &mut Option<Reply<'a>>,
)
    requires { reply.old ≡ None }
    ensures answer { reply_of reply.new ≡
        answered (packet_by (arrives (context_of inner.old) socket.old header.now segment.now bytes.now).answer) }
    ensures sendable { IfCanGo (reply_of reply.new) }
    ensures socket { socket.new ≡ (arrives (context_of inner.old) socket.old header.now segment.now bytes.now).socket }
    ensures host { inner.new ≡ drawn_if (arrives (context_of inner.old) socket.old header.now segment.now bytes.now).draws inner.old }
{
    let now = inner.now();
    if let Some(due) = socket.on_segment(inner, header, segment, bytes) {
        write_answer(socket, due, now, header, segment, bytes.len(), reply);
    }
}

/// Gives a segment to a socket, and writes the packet that answers it.
pub(crate) fn process_segment<'a>(
    inner: &mut InterfaceInner,
    socket: &mut Socket,
    header: &IpRepr,
    segment: &TcpHeader,
    bytes: &[u8],
    reply: &mut Option<Reply<'a>>,
)
    requires { reply.old ≡ None }
    ensures answer { reply_of reply.new ≡
        answered (answer_of (context_of inner.old) header.now segment.now bytes.now socket.old) }
    ensures sendable { IfCanGo (reply_of reply.new) }
    ensures socket { socket.new ≡ with_segment (context_of inner.old) header.now segment.now bytes.now socket.old }
    ensures host { inner.new ≡ drawn_if (draws_of (context_of inner.old) header.now segment.now bytes.now socket.old) inner.old }
{
    if let Socket::Tcp(socket) = socket {
        process_stream(inner, socket, header, segment, bytes, reply);
    }
}

/// Writes the packet of the answer that is due to a segment, in a place of its own: so its packet isn't made ready where none is.
#[inline(never)]
pub(crate) fn write_answer<'a>(
    socket: &tcp::Socket,
    due: Due,
    now: Instant,
    header: &IpRepr,
    segment: &TcpHeader,
    size: usize,
    reply: &mut Option<Reply<'a>>,
)
    requires instant { IsMoment now }
    requires sendable { IsSendable (packet_in (TcpAnswering.reply_of due now socket.now header.now segment.now size)) }
    ensures answer { reply_of reply.new ≡ answered (Some (packet_in (TcpAnswering.reply_of due now socket.now header.now segment.now size))) }
    ensures sendable { IfCanGo (reply_of reply.new) }
{
    let answer = socket.answer_due(due, now, header, segment, size);
    let text = SegmentPayload::whole(&[]);
    let payload = IpPayload::Tcp(answer.segment, text);
    *reply = Some(Reply::Packet(Packet::new(answer.header, payload)));
}
