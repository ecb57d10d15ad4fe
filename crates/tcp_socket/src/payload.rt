//! The payload of a segment that is taken.
ghost use Rattle.std.specs.Prelude.{◌≡◌, ◌+◌, ◌≤◌, ◌^◌, length, IfSome, None};
ghost use Rattle.tcp_block.specs.Payload.{data_stored, with_payload, with_payload_at, with_bytes_at};
ghost use Rattle.tcp_socket.specs.FastPath.{payload_by};

use crate::Socket;
use ip_wire::TcpHeader;
use tcp_block::{distance_after, distance_before};

/// The payload of a segment: how far RCV.NXT rose, whether it came in order while other payload was held, and
/// of payload that is held early the place of its first byte.
#[derive(Clone, Copy)]
pub(crate) struct Payload {
    pub(crate) advance: usize,
    pub(crate) fills: bool,
    pub(crate) early: Option<usize>,
}

impl Payload {
    const NONE: Payload = Payload {
        advance: 0,
        fills: false,
        early: None,
    };
}

impl Socket {
    /// The payload of an accepted segment. Where so many bytes are stored already, RCV.NXT rises by them.
    pub(crate) fn take_payload(
        &mut self,
        header: &TcpHeader,
        bytes: &[u8],
        stored: Option<usize>,
    ) -> Payload
        requires unoffered { self.old.offered ≡ None }
        requires small { IfSome stored (λ n. n ≤ 2 ^ 30) }
        ensures payload { data_stored self.new result.advance result.fills result.early ≡ payload_by stored self.old header.now bytes.now }
        ensures small { result.advance ≤ 2 ^ 30 }
        ensures unoffered { self.new.offered ≡ None }
    {
        match stored {
            Some(advance) => {
                self.tcb.advance(advance);
                Payload {
                    advance,
                    fills: false,
                    early: None,
                }
            }
            None => self.store_payload(header, bytes),
        }
    }

    /// The payload of an accepted segment, of which nothing is stored.
    fn store_payload(&mut self, header: &TcpHeader, bytes: &[u8]) -> Payload
        requires unoffered { self.old.offered ≡ None }
        ensures payload { data_stored self.new result.advance result.fills result.early ≡ with_payload self.old header.now bytes.now }
        ensures small { result.advance ≤ 2 ^ 30 }
        ensures unoffered { self.new.offered ≡ None }
    {
        let offset = distance_after(self.tcb.receiver.next, header.seq_number) as usize;
        let before = distance_before(self.tcb.receiver.next, header.seq_number) as usize;
        self.take_payload_at(offset, &bytes[before.min(bytes.len())..])
    }

    /// Payload of which what lies before RCV.NXT is cut off, so far past RCV.NXT.
    fn take_payload_at(&mut self, offset: usize, bytes: &[u8]) -> Payload
        requires unoffered { self.old.offered ≡ None }
        ensures payload { data_stored self.new result.advance result.fills result.early ≡ with_payload_at self.old offset bytes.now }
        ensures small { result.advance ≤ 2 ^ 30 }
        ensures unoffered { self.new.offered ≡ None }
    {
        let free = self.received.window();
        if !self.tcb.state.accepts_data() || bytes.is_empty() || free <= offset {
            return Payload::NONE;
        }
        self.take_bytes(offset, &bytes[..bytes.len().min(free - offset)])
    }

    /// Bytes inside the window.
    fn take_bytes(&mut self, offset: usize, bytes: &[u8]) -> Payload
        requires unoffered { self.old.offered ≡ None }
        requires fits { offset + length bytes.now ≤ length self.old.received.map }
        requires small { length self.old.received.map ≤ 2 ^ 30 }
        ensures payload { data_stored self.new result.advance result.fills result.early ≡ with_bytes_at self.old offset bytes.now }
        ensures small { result.advance ≤ 2 ^ 30 }
        ensures unoffered { self.new.offered ≡ None }
    {
        if offset == 0 {
            let fills = self.received.has_out_of_order();
            let advance = self.received.store(bytes);
            self.tcb.advance(advance);
            return Payload {
                advance,
                fills,
                early: None,
            };
        }
        match self.received.hold(offset, bytes) {
            Ok(()) => Payload {
                advance: 0,
                fills: false,
                early: Some(offset),
            },
            Err(_) => Payload::NONE,
        }
    }
}
