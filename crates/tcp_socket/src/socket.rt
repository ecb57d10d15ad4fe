//! The socket as a whole.
ghost use Rattle.std.specs.Prelude.{◌≡◌, ◌+◌, ◌↔◌, length, IsTrue};
ghost use Rattle.tcp_block.specs.Value.{new_socket, unoffered};
ghost use Rattle.tcp_socket.specs.Receive.{FitsBuffer};

use crate::receive_buffer::ReceiveBuffer;
use net_base::RingBuffer;
use std::marker::Model;
use tcp_block::{EndReason, OpenOffer, Settings, Tcb};

/// A buffer of a socket.
pub type SocketBuffer = RingBuffer<u8>;

/// A TCP socket: its TCB, a buffer for each way, and the offer that isn't settled.
#[derive(Debug, Drop)]
pub struct Socket {
    pub(crate) tcb: Tcb,
    pub(crate) received: ReceiveBuffer,
    pub(crate) queued: SocketBuffer,
    pub(crate) offered: Option<OpenOffer>,
    /// Why the last connection ended. The view leaves it out.
    pub(crate) end_reason: Option<EndReason>,
}

impl Model for Socket {
    ghost use Rattle.tcp_block.specs.Value.{TcpValue};
    ghost use Rattle.tcp_socket.specs.Socket.{IsSocket};

    ghost Value = { TcpValue };

    ghost view = { λ s. record { tcb = s.tcb; received = s.received; queued = s.queued; offered = s.offered } };

    ghost invariant = { λ s. IsSocket s.tcb s.queued s.offered };
}

impl Socket {
    /// Whether a socket takes this buffer: it holds at most 2^30 bytes.
    pub fn fits_buffer(buffer: &SocketBuffer) -> bool
        ensures { IsTrue result ↔ (FitsBuffer buffer.now) }
    {
        ReceiveBuffer::fits_buffer(buffer)
    }

    /// A closed socket with these buffers, of which each fits. What they hold is forgotten.
    pub fn new(rx_buffer: SocketBuffer, mut tx_buffer: SocketBuffer) -> Socket
        requires rx { FitsBuffer rx_buffer }
        requires tx { FitsBuffer tx_buffer }
        ensures { result ≡ new_socket (length rx_buffer.queue + length rx_buffer.free) tx_buffer }
    {
        tx_buffer.clear();
        Socket {
            tcb: Tcb::new(Settings::new()),
            received: ReceiveBuffer::new(rx_buffer),
            queued: tx_buffer,
            offered: None,
            end_reason: None,
        }
    }
}
