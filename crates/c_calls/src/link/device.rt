//! The device.
ghost use Rattle.std.specs.Prelude.{◌≡◌, drop, length, None, Some, OnOk, IfErr, OnErr};
ghost use Rattle.std.specs.Option.{MatchOption};
ghost use Rattle.c_calls.specs.Link.{unused, IsTaken, push_refusal, arrived, next_frame, next_len, fetch_answer, fetch_after, fetched};

use crate::link::error::{FetchError, PushError};
use crate::link::frame::{Frame, FrameRxToken, lay_ready, put_following};
use crate::link::queue::{copy_first, lay_spare, take_buffer};
use net_base::{Device, DeviceCapabilities, Instant, SendRefused, TxToken};
use std::alloc::Global;
use std::collections::VecDeque;
use std::marker::Model;

/// How many bytes the longest frame has that is read: an IP packet of 65,535 bytes after an Ethernet header.
const LONGEST: usize = 65_549;

/// A device whose frames its caller brings and fetches.
///
/// Frames wait each way, at most so many. While as many are to go, the host gets no token: what it has to send, and what came,
/// waits. Buffers are used again: once frames have been as many and as long as they become, no memory is taken. A contract sees
/// both lists of frames, the oldest first.
#[derive(Drop)]
pub struct FrameLink {
    alloc: Global,
    came: VecDeque<Frame>,
    lent: Option<Frame>,
    ready: Vec<Frame>,
    leaving: VecDeque<Vec<u8>>,
    spare: Vec<Vec<u8>>,
    most: usize,
    refused: u64,
    described: DeviceCapabilities,
}

impl Model for FrameLink {
    ghost use Rattle.std.specs.Prelude.{map};
    ghost use Rattle.net_base.specs.Device.{frames_of};
    ghost use Rattle.c_calls.specs.Link.{LinkValue};

    ghost Value = { LinkValue };

    ghost view = { λ l. record {
      waiting = map (λ frame. frame.value.items) l.came.items;
      sent = frames_of l.leaving.items;
      most = l.most;
      refusals = l.refused;
      capabilities = l.described;
    } };
}

/// Leave to send one frame.
#[derive(Drop)]
pub struct FrameTxToken {}

impl TxToken for FrameTxToken {}

impl FrameLink {
    /// A device without a frame, for at most so many each way. It allocates nothing: `alloc` serves later calls.
    pub fn new(alloc: Global, capabilities: DeviceCapabilities, most: usize) -> FrameLink
        ensures { result ≡ unused capabilities most }
    {
        FrameLink {
            alloc,
            came: VecDeque::new(alloc),
            lent: None,
            ready: Vec::new(alloc),
            leaving: VecDeque::new(alloc),
            spare: Vec::new(alloc),
            most,
            refused: 0,
            described: capabilities,
        }
    }

    /// Takes memory for as many frames each way as may wait, of so many bytes each, and says whether there was enough.
    pub fn reserve(&mut self, length: usize) -> bool
        ensures { self.new ≡ self.old }
    {
        let most = self.most;
        let queues = self.came.reserve(most).is_ok() && self.leaving.reserve(most).is_ok();
        queues
            && lay_ready(self.alloc, &mut self.ready, most.saturating_add(1), length)
            && lay_spare(self.alloc, &mut self.spare, most, length)
    }

    /// How many frames may wait each way.
    pub fn most(&self) -> usize
        ensures { result ≡ self.now.most }
    {
        self.most
    }

    /// How many frames wait for the host.
    pub fn waiting(&self) -> usize
        ensures { result ≡ length self.now.waiting }
    {
        self.came.len()
    }

    /// How many frames are to go.
    pub fn leaving(&self) -> usize
        ensures { result ≡ length self.now.sent }
    {
        self.leaving.len()
    }

    /// Puts the frame that was handed out last, and isn't read any more, back to the buffers that lie ready.
    fn take_back(&mut self)
        ensures { self.new ≡ self.old }
    {
        if let Some(frame) = self.lent.take() {
            // Without a slot for it the buffer is freed.
            let _ = self.ready.push(frame);
        }
    }

    /// A frame comes, and waits after those that wait already.
    pub fn push(&mut self, frame: &[u8]) -> Result<(), PushError>
        ensures refused { IfErr result (push_refusal self.old (length frame.now)) }
        ensures unchanged { OnErr result (self.new ≡ self.old) }
        ensures taken { OnOk result (IsTaken self.old (length frame.now)) }
        ensures arrived { OnOk result (self.new ≡ arrived self.old frame.now) }
    {
        if LONGEST < frame.len() {
            return Err(PushError::TooLong);
        }
        if self.most <= self.came.len() {
            return Err(PushError::Full);
        }
        self.take_back();
        put_following(self.alloc, &mut self.came, &mut self.ready, frame)
    }

    /// How many bytes the first frame has that is to go.
    pub fn next_len(&self) -> Option<usize>
        ensures { result ≡ next_len self.now.sent }
    {
        match self.leaving.front() {
            Some(frame) => Some(frame.len()),
            None => None,
        }
    }

    /// Copies the first frame that is to go to the front of the slice, and drops it. Where the slice is too short, the frame
    /// stays.
    pub fn fetch(&mut self, out: &mut [u8]) -> Result<usize, FetchError>
        ensures answer { result ≡ fetch_answer self.old.sent (length out.old) }
        ensures after { self.new ≡ record self.old { sent = fetch_after self.old.sent (length out.old) } }
        ensures bytes { out.new ≡ fetched self.old.sent out.old }
    {
        let fetched = copy_first(&self.leaving, out);
        if fetched.is_ok() {
            self.drop_first();
        }
        fetched
    }

    /// The first frame that is to go.
    pub fn first(&self) -> Option<&[u8]>
        ensures { MatchOption result (next_frame self.now.sent ≡ None) (λ frame. next_frame self.now.sent ≡ Some frame.now) }
    {
        match self.leaving.front() {
            Some(frame) => Some(frame.as_slice()),
            None => None,
        }
    }

    /// Drops the first frame that is to go. Its buffer lies ready.
    pub(crate) fn drop_first(&mut self)
        ensures { self.new ≡ record self.old { sent = drop 1 self.old.sent } }
    {
        if let Some(buffer) = self.leaving.pop_front() {
            // Without a slot for it the buffer is freed.
            let _ = self.spare.push(buffer);
        }
    }
}

impl Device for FrameLink {
    type RxToken = FrameRxToken;

    type TxToken = FrameTxToken;

    ghost use Rattle.c_calls.specs.Link.{LinkMove};

    ghost moves = { LinkMove };

    ghost refused = { λ l. l.refusals };

    ghost described = { λ l. l.capabilities };

    fn receive(&mut self, timestamp: Instant) -> Option<(FrameRxToken, FrameTxToken)> {
        self.take_back();
        let leave = self.transmit(timestamp)?;
        let frame = self.came.pop_front()?;
        self.lent = frame.clone().ok();
        Some((FrameRxToken { frame }, leave))
    }

    fn transmit(&mut self, _timestamp: Instant) -> Option<FrameTxToken> {
        if self.leaving.len() < self.most && self.refused < u64::MAX {
            Some(FrameTxToken {})
        } else {
            None
        }
    }

    fn send<R: Drop, F: FnOnce(&mut [u8]) -> R>(
        &mut self,
        _token: FrameTxToken,
        len: usize,
        f: F,
    ) -> Result<R, SendRefused> {
        let Some(mut frame) = take_buffer(&mut self.leaving, &mut self.spare, len) else {
            self.refused += 1;
            return Err(SendRefused);
        };
        let answer = f(frame.as_mut_slice());
        let Ok(()) = self.leaving.push_back(frame) else {
            unreachable!();
        };
        Ok(answer)
    }

    fn capabilities(&self) -> DeviceCapabilities {
        self.described
    }

    fn refusals(&self) -> u64 {
        self.refused
    }
}
