//! The two queues of a socket, whatever header its datagrams have.
ghost use Rattle.std.specs.Prelude.{◌≡◌, length};
ghost use Rattle.net_base.specs.Packets.{used_room, without_first};
ghost use Rattle.socket_datagram.specs.SocketValue.{has_packets, has_slots, emptied, read_answer, read_written, left_by, due, takes_alone};

use crate::error::RecvError;
use net_base::PacketBuffer;
use socket_context::PollAt;

/// The datagrams that a socket received, and those that it is to send.
#[derive(Debug, Drop)]
pub struct Queues<H> {
    pub received: PacketBuffer<H>,
    pub queued: PacketBuffer<H>,
}

impl<H> Queues<H> {
    /// Whether a datagram can be queued.
    pub fn can_send(&self) -> bool
        ensures { result ≡ has_slots self.now.queued }
    {
        !self.queued.is_full()
    }

    /// Whether a datagram waits to be read.
    pub fn can_recv(&self) -> bool
        ensures { result ≡ has_packets self.now.received }
    {
        !self.received.is_empty()
    }

    /// Returns how many entries there are for received datagrams.
    pub fn packet_recv_capacity(&self) -> usize
        ensures { result ≡ self.now.received.positions }
    {
        self.received.packet_capacity()
    }

    /// Returns how many entries there are for datagrams to be sent.
    pub fn packet_send_capacity(&self) -> usize
        ensures { result ≡ self.now.queued.positions }
    {
        self.queued.packet_capacity()
    }

    /// Returns how many bytes of received datagrams there is room for.
    pub fn payload_recv_capacity(&self) -> usize
        ensures { result ≡ self.now.received.room }
    {
        self.received.payload_capacity()
    }

    /// Returns how many bytes of datagrams to be sent there is room for.
    pub fn payload_send_capacity(&self) -> usize
        ensures { result ≡ self.now.queued.room }
    {
        self.queued.payload_capacity()
    }

    /// Returns how many bytes of received datagrams are taken, those of padding among them.
    pub fn recv_queue(&self) -> usize
        ensures { result ≡ used_room self.now.received.packets }
    {
        self.received.payload_bytes_count()
    }

    /// Returns how many bytes of datagrams to be sent are taken, those of padding among them.
    pub fn send_queue(&self) -> usize
        ensures { result ≡ used_room self.now.queued.packets }
    {
        self.queued.payload_bytes_count()
    }

    /// Whether nothing is queued, and there is room for a datagram of so many bytes.
    pub fn takes_alone(&self, size: usize) -> bool
        ensures { result ≡ takes_alone self.now.queued size }
    {
        self.queued.is_empty()
            && self.queued.packet_capacity() > 0
            && size <= self.queued.payload_capacity()
    }

    /// When the socket wants to be polled: at once where a datagram is queued.
    pub fn poll_at(&self) -> PollAt
        ensures { result ≡ due self.now.queued }
    {
        if self.queued.is_empty() {
            PollAt::Ingress
        } else {
            PollAt::Now
        }
    }
}

impl<H: Drop> Queues<H> {
    /// Empties both queues.
    pub fn reset(&mut self)
        ensures received { self.new.received ≡ emptied self.old.received }
        ensures queued { self.new.queued ≡ emptied self.old.queued }
    {
        self.received.reset();
        self.queued.reset();
    }

    /// A datagram to be sent that was sent leaves its queue, another one stays first.
    pub fn settle(&mut self, sent: bool)
        ensures received { self.new.received ≡ self.old.received }
        ensures queued { self.new.queued ≡ left_by sent self.old.queued }
    {
        if sent {
            self.queued.drop_first();
        }
    }

    /// Reads the first received datagram into the slice. One that is longer than the slice is gone, and the
    /// slice is as it was.
    #[tactic(auto, using(crate::proofs::PacketQueues::queues))]
    pub fn recv_slice(&mut self, data: &mut [u8]) -> Result<(usize, H), RecvError>
    where
        H: Copy,
        ensures answer { result ≡ read_answer self.old.received (length «data».old) }
        ensures received { self.new.received ≡ without_first self.old.received }
        ensures queued { self.new.queued ≡ self.old.queued }
        ensures read { «data».new ≡ read_written self.old.received «data».old }
    {
        let Ok((header, bytes)) = self.received.peek() else {
            return Err(RecvError::Exhausted);
        };
        if data.len() < bytes.len() {
            self.received.drop_first();
            return Err(RecvError::Truncated);
        }
        data[..bytes.len()].copy_from_slice(bytes);
        let answer = (bytes.len(), *header);
        self.received.drop_first();
        Ok(answer)
    }
}
