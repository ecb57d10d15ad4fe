//! The device of a host whose link is a script.
ghost use Rattle.std.specs.Prelude.{◌≡◌, ◌<◌, ◌+◌, ◌^◌, vec_len, IfSome};

use net_base::{Device, DeviceCapabilities, Instant, OwnedRxToken, SendRefused, TxToken};
use std::alloc::{AllocError, Global};
use std::collections::VecDeque;

/// A device in memory. It has room for so many frames more, and refuses as many of the next sends as it was told.
#[derive(Drop)]
pub struct Wire {
    alloc: Global,
    incoming: VecDeque<Vec<u8>>,
    // The frames that were sent since they were last let go, and how many were before.
    sent: Vec<Vec<u8>>,
    before: u64,
    room: usize,
    to_refuse: u64,
    refused: u64,
    described: DeviceCapabilities,
}

/// Leave to send one frame.
#[derive(Drop)]
pub struct Leave {}

impl TxToken for Leave {}

impl Wire {
    /// A device over which nothing has gone yet.
    pub fn new(alloc: Global, described: DeviceCapabilities) -> Wire {
        Wire {
            alloc,
            incoming: VecDeque::new(alloc),
            sent: Vec::new(alloc),
            before: 0,
            room: usize::MAX,
            to_refuse: 0,
            refused: 0,
            described,
        }
    }

    /// A frame comes, and waits after those that wait already.
    pub fn comes(&mut self, frame: Vec<u8>) -> Result<(), AllocError> {
        self.incoming.push_back(frame)?;
        Ok(())
    }

    /// How many frames wait.
    pub fn waiting(&self) -> usize {
        self.incoming.len()
    }

    /// From now on it takes so many frames more.
    pub fn set_room(&mut self, room: usize) {
        self.room = room;
    }

    /// The next sends, so many, are refused.
    pub fn refuse(&mut self, count: u64) {
        self.to_refuse = count;
    }

    /// It counts as many sends as refused before.
    pub fn set_refused(&mut self, refused: u64) {
        self.refused = refused;
    }

    /// The frames that were sent since they were last let go, the oldest first.
    pub fn sent(&self) -> &[Vec<u8>] {
        self.sent.as_slice()
    }

    /// How many were sent before these.
    pub fn before(&self) -> u64 {
        self.before
    }

    /// Lets the frames go that were sent.
    pub fn let_go(&mut self) {
        self.before = self.before.saturating_add(self.sent.len() as u64);
        self.sent.clear();
    }

    /// A buffer for a frame, unless it is to be refused.
    fn buffer(&mut self, len: usize) -> Option<Vec<u8>>
        ensures frame { IfSome result (λ frame. vec_len frame ≡ len) }
        ensures refused { self.new.refused ≡ self.old.refused }
        ensures described { self.new.described ≡ self.old.described }
    {
        if self.to_refuse > 0 {
            self.to_refuse -= 1;
            return None;
        }
        if self.sent.reserve(1).is_err() {
            return None;
        }
        Vec::from_elem(self.alloc, 0, len).ok()
    }
}

impl Device for Wire {
    type RxToken = OwnedRxToken;

    type TxToken = Leave;

    ghost moves = { λ d move d'. Unit {0} };

    ghost refused = { λ d. d.refused };

    ghost described = { λ d. d.described };

    fn receive(&mut self, timestamp: Instant) -> Option<(OwnedRxToken, Leave)> {
        let leave = self.transmit(timestamp)?;
        let frame = self.incoming.pop_front()?;
        Some((OwnedRxToken::new(frame), leave))
    }

    fn transmit(&mut self, _timestamp: Instant) -> Option<Leave> {
        if 0 < self.room && self.refused < u64::MAX {
            Some(Leave {})
        } else {
            None
        }
    }

    fn send<R: Drop, F: FnOnce(&mut [u8]) -> R>(
        &mut self,
        _token: Leave,
        len: usize,
        f: F,
    ) -> Result<R, SendRefused> {
        let Some(mut frame) = self.buffer(len) else {
            self.refused += 1;
            return Err(SendRefused);
        };
        let answer = f(frame.as_mut_slice());
        // There is a slot for it: `buffer` made it.
        let _ = self.sent.push(frame);
        self.room = self.room.saturating_sub(1);
        Ok(answer)
    }

    fn capabilities(&self) -> DeviceCapabilities {
        self.described
    }

    fn refusals(&self) -> u64 {
        self.refused
    }
}
