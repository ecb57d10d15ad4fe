//! What a refused call of a socket answers and leaves, as a caller sees it.
ghost use Rattle.std.specs.Prelude.{◌≡◌, ◌↔◌, length, Err, None, Some, IfErr, IfOk, IsErr, OnErr};
ghost use Rattle.net_base.specs.Packets.{first};
ghost use Rattle.socket_datagram.specs.Udp.{bind_answer, bind_after, send_answer, send_after};
ghost use Rattle.socket_datagram.specs.SocketValue.{recv_answer, recv_after, recv_written};
ghost use Rattle.socket_datagram.specs.declared.error.RecvError.TheVariants as Recv;
ghost use Rattle.tcp_block.specs.Calls as Calls;
ghost use Rattle.tcp_block.specs.Value.{unoffered};

use ip_wire::IpListenEndpoint;
use sockets::{tcp, udp};

/// Law: when a UDP socket is bound, and what a refusal leaves.
pub fn bound(socket: &mut udp::Socket, endpoint: IpListenEndpoint) -> Result<(), udp::BindError>
    ensures answer { result ≡ bind_answer socket.old endpoint }
    ensures state { socket.new ≡ bind_after socket.old endpoint }
{
    socket.bind(endpoint)
}

/// Law: when a datagram is taken for sending.
pub fn datagram_sent(
    socket: &mut udp::Socket,
    bytes: &[u8],
    metadata: udp::UdpMetadata,
) -> Result<(), udp::SendError>
    ensures answer { result ≡ send_answer socket.old metadata (length bytes.now) }
    ensures state { socket.new ≡ send_after socket.old metadata bytes.now }
{
    socket.send_slice(bytes, metadata)
}

/// Law: when a datagram is read, and what stands in the slice then.
pub fn datagram_read(
    socket: &mut udp::Socket,
    bytes: &mut [u8],
) -> Result<(usize, udp::UdpMetadata), udp::RecvError>
    ensures answer { result ≡ recv_answer socket.old (length bytes.old) }
    ensures state { socket.new ≡ recv_after socket.old }
    ensures read { bytes.new ≡ recv_written socket.old bytes.old }
{
    socket.recv_slice(bytes)
}

/// Law: `recv` says `Exhausted` exactly where no datagram waits, and refuses for nothing else.
pub fn datagram_lent(socket: &mut udp::Socket, bytes: &mut [u8]) -> Result<usize, udp::RecvError>
    ensures exhausted { IsErr result ↔ (first socket.old.received ≡ None) }
    ensures refused { OnErr result (result ≡ Err Recv.Exhausted) }
{
    let (lent, _metadata) = socket.recv()?;
    Ok(lent.len().min(bytes.len()))
}

/// Law: when a TCP socket takes bytes for sending.
pub fn bytes_sent(socket: &mut tcp::Socket, bytes: &[u8]) -> Result<usize, tcp::SendError>
    ensures answer { result ≡ Calls.send_answer socket.old (length bytes.now) }
    ensures state { socket.new ≡ Calls.send_after socket.old bytes.now }
{
    socket.send_slice(bytes)
}

/// Law: when a TCP socket's bytes are read.
pub fn bytes_read(socket: &mut tcp::Socket, bytes: &mut [u8]) -> Result<usize, tcp::RecvError>
    ensures answer { result ≡ Calls.recv_answer socket.old (length bytes.old) }
    ensures refused { OnErr result ((socket.new ≡ unoffered socket.old) × (bytes.new ≡ bytes.old)) }
    ensures read { IfOk result (λ count. socket.new ≡ Calls.recv_after socket.old count) }
{
    socket.recv_slice(bytes)
}
