//! The echo of streams.
ghost use Rattle.std.specs.Prelude.{◌≡◌, length};
ghost use Rattle.sockets.specs.TcpCalls.{recv_refusal};
ghost use Rattle.app_tun_services.specs.Echo.{stream_echoed, echoed_unless, room_left};

use sockets::tcp;

/// Sends back what waits, as much as the buffer and the send queue have room for, and closes at the end of what comes (RFC 862).
pub fn echo_stream(socket: &mut tcp::Socket, buffer: &mut [u8])
    ensures { socket.new ≡ stream_echoed (length buffer.old) socket.old }
{
    if !socket.may_send() {
        return;
    }
    let room = room_left(socket, buffer.len());
    echo(socket, &mut buffer[..room]);
}

/// Sends back what waits, as much as the buffer takes, or closes at the end.
fn echo(socket: &mut tcp::Socket, bytes: &mut [u8])
    ensures { socket.new ≡ echoed_unless (recv_refusal socket.old) (length bytes.old) socket.old }
{
    match socket.recv_slice(bytes) {
        Ok(count) => {
            let _ = socket.send_slice(&bytes[..count]);
        }
        Err(tcp::RecvError::Finished) => socket.close(),
        Err(tcp::RecvError::InvalidState) => {}
    }
}

/// How many bytes the send queue has room for, at most so many.
fn room_left(socket: &tcp::Socket, most: usize) -> usize
    ensures { result ≡ room_left most socket.now }
{
    most.min(socket.send_capacity() - socket.send_queue())
}
