//! A device of one's own: one end of a wire.
use net_base::{
    ChecksumCapabilities, Device, DeviceCapabilities, Instant, Medium, OwnedRxToken, SendRefused,
    TxToken,
};
use std::alloc::{AllocError, Global};
use std::collections::VecDeque;

/// One end of a wire: frames that came, and frames that are to go, the oldest first.
#[derive(Drop)]
pub struct Wire {
    came: VecDeque<Vec<u8>>,
    leaving: VecDeque<Vec<u8>>,
    refused: u64,
    described: DeviceCapabilities,
}

/// Leave to send one frame.
#[derive(Drop)]
pub struct Leave {}

impl TxToken for Leave {}

impl Device for Wire {
    type RxToken = OwnedRxToken;

    type TxToken = Leave;

    ghost moves = { λ old move new. Unit {0} };

    ghost refused = { λ wire. wire.refused };

    ghost described = { λ wire. wire.described };

    fn receive(&mut self, timestamp: Instant) -> Option<(OwnedRxToken, Leave)> {
        let leave = self.transmit(timestamp)?;
        let frame = self.came.pop_front()?;
        Some((OwnedRxToken::new(frame), leave))
    }

    fn transmit(&mut self, _timestamp: Instant) -> Option<Leave> {
        if self.refused < u64::MAX {
            Some(Leave {})
        } else {
            None
        }
    }

    fn send<R: Drop, F: FnOnce(&mut [u8]) -> R>(
        &mut self,
        _token: Leave,
        len: usize,
        f: F,
    ) -> Result<R, SendRefused> {
        let Ok(mut frame) = Vec::from_elem(*self.leaving.allocator(), 0, len) else {
            self.refused += 1;
            return Err(SendRefused);
        };
        let answer = f(frame.as_mut_slice());
        // Without a slot for it the frame is lost, as on any wire.
        let _ = self.leaving.push_back(frame);
        Ok(answer)
    }

    fn capabilities(&self) -> DeviceCapabilities {
        self.described
    }

    fn refusals(&self) -> u64 {
        self.refused
    }
}

impl Wire {
    /// An end of an Ethernet wire at which nothing came. It allocates nothing: `alloc` serves later calls.
    pub fn new(alloc: Global) -> Wire {
        Wire {
            came: VecDeque::new(alloc),
            leaving: VecDeque::new(alloc),
            refused: 0,
            described: DeviceCapabilities {
                medium: Medium::Ethernet,
                max_transmission_unit: 1514,
                checksum: ChecksumCapabilities::default(),
            },
        }
    }

    /// Whether a frame came that wasn't received.
    pub fn has_frame(&self) -> bool {
        !self.came.is_empty()
    }

    /// The next frame that is to go.
    pub fn leave(&mut self) -> Option<Vec<u8>> {
        self.leaving.pop_front()
    }

    /// A frame comes from the other end.
    pub fn come(&mut self, frame: Vec<u8>) -> Result<(), AllocError> {
        self.came.push_back(frame)?;
        Ok(())
    }
}
