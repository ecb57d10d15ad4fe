//! Echo requests, and what answers them.
use anyhow::Result;
use control_wire::{Icmpv4Packet, Icmpv4PacketMut, Icmpv4Repr};
use ip_wire::{IpAddress, Ipv4Address};
use net_base::ChecksumCapabilities;
use sockets::icmp;

/// The identifier of the requests.
pub const IDENT: u16 = 1;

/// Sends an echo request.
pub fn ping(socket: &mut icmp::Socket, remote: Ipv4Address, seq_no: u16) -> Result<()> {
    let request = Icmpv4Repr::EchoRequest {
        ident: IDENT,
        seq_no,
        bytes: b"ping",
    };
    let mut message = [0; 12];
    request.emit(
        &mut Icmpv4PacketMut::new_unchecked(&mut message),
        &ChecksumCapabilities::default(),
    );
    Ok(socket.send_slice(&message, IpAddress::Ipv4(remote))?)
}

/// Reads the next message: whether it answers a request.
pub fn pong(socket: &mut icmp::Socket) -> bool {
    let mut buffer = [0; 64];
    let Ok((count, _)) = socket.recv_slice(&mut buffer) else {
        return false;
    };
    let (bytes, _) = buffer.split_at(count.min(64));
    let Ok(packet) = Icmpv4Packet::new_checked(bytes) else {
        return false;
    };
    matches!(
        Icmpv4Repr::parse(&packet, &ChecksumCapabilities::default()),
        Ok(Icmpv4Repr::EchoReply { .. })
    )
}
