//! The echo of datagrams.
ghost use Rattle.std.specs.Prelude.{◌≡◌, length};
ghost use Rattle.app_tun_services.specs.Echo.{datagram_echoed};

use sockets::udp;

/// Sends the first datagram that waits back to where it came from, from the address that it was sent to (RFC 862). One that is
/// longer than the buffer is dropped, and so is one for which the queue has no room.
#[tactic(auto, using(crate::proofs::Echo::sent_back_is))]
pub fn echo_datagram(socket: &mut udp::Socket, buffer: &mut [u8])
    ensures { socket.new ≡ datagram_echoed (length buffer.old) socket.old }
{
    let Ok((count, metadata)) = socket.recv_slice(buffer) else {
        return;
    };
    let _ = socket.send_slice(&buffer[..count], metadata);
}
