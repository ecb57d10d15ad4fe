//! A device whose frames come back to it.
ghost use Rattle.std.specs.Prelude.{◌≡◌, ◌+◌, ◌<◌, ◌≤◌, [], length, vec_len, IfOk, OnOk, OnErr};
ghost use Rattle.std.specs.VecDeque.{deque_len, deque_capacity};

use crate::capabilities::{ChecksumCapabilities, DeviceCapabilities, Medium};
use crate::device::{Device, SendRefused, TxToken};
use crate::owned::OwnedRxToken;
use base_time::Instant;
use std::alloc::{AllocError, Global};
use std::collections::VecDeque;
use std::marker::Model;

const MAX_TRANSMISSION_UNIT: usize = 65_535;

/// A device that receives the frames that it sends, in their order. Frames are at most 65,535 bytes
/// long by its capabilities; longer ones travel too.
///
/// A contract sees the frames on their way, the medium and the count of refusals.
#[derive(Debug, Drop)]
pub struct Loopback {
    queue: VecDeque<Vec<u8>>,
    medium: Medium,
    refused: u64,
}

impl Model for Loopback {
    ghost use Rattle.base_device.specs.Device.{frames_of};
    ghost use Rattle.base_device.specs.Loopback.{LoopbackValue};

    ghost Value = { LoopbackValue };

    ghost view = { λ l. record {
      queue = frames_of l.queue.items;
      refusals = l.refused;
      medium = l.medium;
    } };
}

/// Leave to send one frame on a loopback.
#[derive(Debug, Drop)]
pub struct LoopbackTxToken {}

impl TxToken for LoopbackTxToken {}

impl Loopback {
    /// A loopback with no frame on its way. It allocates nothing: `alloc` serves later sends.
    pub fn new(alloc: Global, medium: Medium) -> Loopback
        ensures { result ≡ record { queue = []; refusals = 0; medium = medium } }
    {
        Loopback {
            queue: VecDeque::new(alloc),
            medium,
            refused: 0,
        }
    }
}

impl Device for Loopback {
    type RxToken = OwnedRxToken;

    type TxToken = LoopbackTxToken;

    ghost use Rattle.base_device.specs.Loopback.{LoopbackMove, loopback_capabilities};

    ghost moves = { LoopbackMove };

    ghost refused = { λ l. l.refusals };

    ghost described = { loopback_capabilities };

    fn receive(&mut self, timestamp: Instant) -> Option<(OwnedRxToken, LoopbackTxToken)> {
        let leave = self.transmit(timestamp)?;
        let frame = self.queue.pop_front()?;
        Some((OwnedRxToken::new(frame), leave))
    }

    fn transmit(&mut self, _timestamp: Instant) -> Option<LoopbackTxToken> {
        if self.refused < u64::MAX {
            Some(LoopbackTxToken {})
        } else {
            None
        }
    }

    fn send<R: Drop, F: FnOnce(&mut [u8]) -> R>(
        &mut self,
        _token: LoopbackTxToken,
        len: usize,
        f: F,
    ) -> Result<R, SendRefused> {
        let Ok(mut frame) = make_buffer(&mut self.queue, len) else {
            self.refused += 1;
            return Err(SendRefused);
        };
        let answer = f(frame.as_mut_slice());
        let Ok(()) = self.queue.push_back(frame) else {
            unreachable!();
        };
        Ok(answer)
    }

    fn capabilities(&self) -> DeviceCapabilities {
        DeviceCapabilities {
            medium: self.medium,
            max_transmission_unit: MAX_TRANSMISSION_UNIT,
            checksum: ChecksumCapabilities::default(),
        }
    }

    fn refusals(&self) -> u64 {
        self.refused
    }
}

/// A buffer for one frame, and an offset for it at the end of `queue`.
fn make_buffer(queue: &mut VecDeque<Vec<u8>>, len: usize) -> Result<Vec<u8>, AllocError>
    ensures frames { queue.new.items ≡ queue.old.items }
    ensures buffer { IfOk result (λ buffer. vec_len buffer ≡ len) }
    ensures place { OnOk result (deque_len queue.new < deque_capacity queue.new) }
{
    queue.reserve(1)?;
    let mut buffer = Vec::new(*queue.allocator());
    buffer.resize(len, 0)?;
    Ok(buffer)
}
