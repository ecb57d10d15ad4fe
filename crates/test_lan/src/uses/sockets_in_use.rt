//! A UDP socket that is offered and settled, as an interface does it.
ghost use Rattle.std.specs.Prelude.{◌≡◌, [], None, IfOk, IsErr};
ghost use Rattle.net_base.specs.Packets.{packets_in};
ghost use Rattle.sockets.specs.Socket.{Offers};
ghost use Rattle.sockets.specs.Offer.{Offer};
ghost use Rattle.sockets.specs.declared.socket.Socket.{Socket};
ghost use Rattle.test_lan.specs.Settled.{SettlesBy};

use anyhow::Result;
use ip_wire::IpListenEndpoint;
use net_base::{ManagedSlice, PacketBuffer, PacketMetadata};
use sockets::{Context, Socket, udp};
use std::alloc::Global;

// A queue of four datagrams and 64 bytes.
fn queue(alloc: Global) -> Result<udp::PacketBuffer>
    ensures { IfOk result (λ queue. queue ≡ packets_in [] 0 4 64) }
{
    let slots = vec![in alloc;
        PacketMetadata::EMPTY,
        PacketMetadata::EMPTY,
        PacketMetadata::EMPTY,
        PacketMetadata::EMPTY,
    ]?;
    let room = vec![in alloc; 0; 64]?;
    Ok(PacketBuffer::new(ManagedSlice::Fixed(slots), ManagedSlice::Fixed(room)))
}

/// A UDP socket that is bound to the port on every own address, with empty queues. No socket is bound
/// to port 0.
pub fn bound(alloc: Global, port: u16) -> Result<udp::Socket>
    ensures endpoint { IfOk result (λ socket. socket.settings.endpoint ≡ record { addr = None; port = port }) }
    ensures queues { IfOk result (λ socket. (socket.received ≡ packets_in [] 0 4 64) × (socket.queued ≡ packets_in [] 0 4 64)) }
    ensures refused { port ≡ 0 → IsErr result }
{
    let mut socket = udp::Socket::new(queue(alloc)?, queue(alloc)?);
    socket.bind(IpListenEndpoint { addr: None, port })?;
    Ok(socket)
}

/// Asks the socket for a packet, and says whether there was one that isn't longer than `room`. Such a packet counts as
/// sent; a longer one stays first in its queue.
pub fn sends_one<C: Context>(socket: &mut Socket, cx: &C, room: usize) -> bool
    ensures { (answer : Offer) × (offered : Socket) × Offers (C.context cx.now) socket.old answer offered
        × SettlesBy room offered result socket.new }
{
    socket.offer(cx);
    let Some(packet) = socket.offered() else {
        return false;
    };
    let fits = packet.ip_repr().buffer_len() <= room;
    socket.settle(fits);
    fits
}
