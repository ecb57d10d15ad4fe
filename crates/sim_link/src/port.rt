//! A port: the device of a simulated host.
ghost use Rattle.std.specs.Prelude.{◌≡◌, ◌<◌, ◌≤◌, max, [], ◌∷◌, ◌++◌, OnOk, OnErr};
ghost use Rattle.base_device.specs.Device.{frames_of};
ghost use Rattle.sim_link.specs.Port.{unused_end, arrived, added, ready_for};

use crate::pool::{fill, keep, take_buffer};
use base_device::{Device, DeviceCapabilities, OwnedRxToken, SendRefused, TxToken};
use base_time::Instant;
use std::alloc::{AllocError, Global};
use std::collections::VecDeque;
use std::marker::Model;

/// A host's end of a simulated link.
///
/// Frames that the simulator pushes wait until the host receives them; frames that the host sends
/// are kept for the simulator. The port has room for so many frames more; at room 0 it gives no
/// token, and so no frame comes or goes. A contract sees both lists of frames, the room, the count of
/// refusals, the capabilities, and how many buffers lie ready for sends.
#[derive(Debug, Drop)]
pub struct Port {
    incoming: VecDeque<Vec<u8>>,
    outgoing: Vec<Vec<u8>>,
    spare: Vec<Vec<u8>>,
    frame_size: usize,
    left: usize,
    refused: u64,
    described: DeviceCapabilities,
}

impl Model for Port {
    ghost use Rattle.std.specs.Prelude.{vec_len};
    ghost use Rattle.base_device.specs.Device.{frames_of};
    ghost use Rattle.sim_link.specs.Pool.{Pool};
    ghost use Rattle.sim_link.specs.Port.{PortValue};

    ghost Value = { PortValue };

    ghost view = { λ p. record {
      link = record {
        waiting = frames_of p.incoming.items;
        sent = frames_of p.outgoing.items;
        room = p.left;
        refusals = p.refused;
        capabilities = p.described;
      };
      ready = vec_len p.spare;
      size = p.frame_size;
    } };

    ghost invariant = { λ p. Pool p.outgoing p.spare p.frame_size };
}

/// Leave to send one frame at a port.
#[derive(Debug, Drop)]
pub struct PortTxToken {}

impl TxToken for PortTxToken {}

impl Port {
    /// A port over which nothing has gone yet. It allocates nothing: `alloc` serves later calls.
    pub fn new(alloc: Global, capabilities: DeviceCapabilities) -> Port
        ensures { result ≡ record { link = unused_end capabilities; ready = 0; size = 0 } }
    {
        Port {
            incoming: VecDeque::new(alloc),
            outgoing: Vec::new(alloc),
            spare: Vec::new(alloc),
            frame_size: 0,
            left: usize::MAX,
            refused: 0,
            described: capabilities,
        }
    }

    /// A frame comes, and waits after those that wait already. It may find no memory for its
    /// offset in the queue; then it is lost and nothing else changes.
    pub fn push(&mut self, frame: Vec<u8>) -> Result<(), AllocError>
        ensures ok { OnOk result
            (self.new ≡ record self.old { link = arrived self.old.link frame.items }) }
        ensures err { OnErr result (self.new ≡ self.old) }
    {
        self.incoming.push_back(frame)?;
        Ok(())
    }

    /// The frames that wait for the host, the oldest first.
    pub fn waiting(&self) -> &VecDeque<Vec<u8>>
        ensures { frames_of result.now.items ≡ self.now.link.waiting }
    {
        &self.incoming
    }

    /// The frames that the host sent, the oldest first.
    pub fn sent(&self) -> &[Vec<u8>]
        ensures { frames_of result.now ≡ self.now.link.sent }
    {
        self.outgoing.as_slice()
    }

    /// The link puts a frame after the sent ones, whatever the room. It may find no memory for its
    /// offset; then it is lost and nothing else changes.
    pub fn add(&mut self, frame: Vec<u8>) -> Result<(), AllocError>
        ensures ok { OnOk result
            (self.new ≡ record self.old { link = added self.old.link frame.items }) }
        ensures err { OnErr result (self.new ≡ self.old) }
    {
        self.outgoing.reserve(self.spare.len() + 1)?;
        keep(&mut self.outgoing, frame);
        Ok(())
    }

    /// The link puts two frames after the sent ones, whatever the room. There may be no memory for their offsets; then both are lost
    /// and nothing else changes.
    pub fn add_both(&mut self, first: Vec<u8>, second: Vec<u8>) -> Result<(), AllocError>
        ensures ok { OnOk result
            (self.new ≡ record self.old { link = added (added self.old.link first.items) second.items }) }
        ensures err { OnErr result (self.new ≡ self.old) }
    {
        self.outgoing.reserve(self.spare.len() + 2)?;
        keep(&mut self.outgoing, first);
        keep(&mut self.outgoing, second);
        Ok(())
    }

    /// How many frames more the port takes.
    pub fn room(&self) -> usize
        ensures { result ≡ self.now.link.room }
    {
        self.left
    }

    /// From now on the port takes so many frames more.
    pub fn set_room(&mut self, room: usize)
        ensures { self.new ≡ record self.old { link = record self.old.link { room = room } } }
    {
        self.left = room;
    }

    /// Makes buffers ready, so that the next `count` sends of frames of at most `size` bytes are
    /// not refused.
    ///
    /// The memory is taken here. Buffers that lie ready already count; they stay until sends take
    /// them, or until a longer frame is asked for.
    pub fn prepare(&mut self, count: usize, size: usize) -> Result<(), AllocError>
        ensures link { self.new.link ≡ self.old.link }
        ensures ready { OnOk result (self.new.ready ≡ max count (ready_for self.old size)) }
        ensures short { OnErr result ((ready_for self.old size ≤ self.new.ready) × (self.new.ready < count)) }
        ensures size { self.new.size ≡ max self.old.size size }
    {
        if self.frame_size < size {
            self.spare.truncate(0);
            self.frame_size = size;
        }
        fill(&mut self.outgoing, &mut self.spare, count, self.frame_size)
    }
}

impl Device for Port {
    type RxToken = OwnedRxToken;

    type TxToken = PortTxToken;

    ghost use Rattle.sim_link.specs.Port.{PortMove};

    ghost moves = { PortMove };

    ghost refused = { λ p. p.link.refusals };

    ghost described = { λ p. p.link.capabilities };

    fn receive(&mut self, timestamp: Instant) -> Option<(OwnedRxToken, PortTxToken)> {
        let leave = self.transmit(timestamp)?;
        let frame = self.incoming.pop_front()?;
        Some((OwnedRxToken::new(frame), leave))
    }

    fn transmit(&mut self, _timestamp: Instant) -> Option<PortTxToken> {
        if 0 < self.left && self.refused < u64::MAX {
            Some(PortTxToken {})
        } else {
            None
        }
    }

    fn send<R: Drop, F: FnOnce(&mut [u8]) -> R>(
        &mut self,
        _token: PortTxToken,
        len: usize,
        f: F,
    ) -> Result<R, SendRefused> {
        let Some(mut frame) = take_buffer(&mut self.outgoing, &mut self.spare, len, self.frame_size)
        else {
            self.refused += 1;
            return Err(SendRefused);
        };
        let answer = f(frame.as_mut_slice());
        keep(&mut self.outgoing, frame);
        self.left = self.left.saturating_sub(1);
        Ok(answer)
    }

    fn capabilities(&self) -> DeviceCapabilities {
        self.described
    }

    fn refusals(&self) -> u64 {
        self.refused
    }
}
