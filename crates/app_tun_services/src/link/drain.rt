//! The device of a host that takes turns.
ghost use Rattle.std.specs.Prelude.{◌≡◌, ◌+◌, ◌^◌, ◌<◌, ◌≤◌, [], ◌++◌, length, vec_len, vec_capacity, IfSome, OnSome, if◌then◌else◌};
ghost use Rattle.app_tun_services.specs.Link.Answer.{packet_bytes};
ghost use Rattle.app_tun_services.specs.Link.Drain.{brought, received, initial_drain, one_more_if};

use crate::link::fault::{Faults, fault_of};
use crate::link::reset::is_reset;
use net_base::{Device, DeviceCapabilities, Instant, OwnedRxToken, SendRefused, TxToken};
use std::alloc::Global;
use std::marker::Model;
use std::mem;

/// The longest packet whose length an answer can say.
const LONGEST: usize = 65_535;

/// How many bytes of an answer stand before a packet: its length.
const LENGTH_LEN: usize = 2;

/// A device that takes one packet a turn, and keeps what is sent until the turn is answered.
///
/// The answer grows in one buffer, which serves each turn again, and each packet is written in another: once they have been as
/// long as answers and packets become, sending takes no memory.
#[derive(Debug, Drop)]
pub struct Drain {
    packet: Option<Vec<u8>>,
    received: u64,
    resets_received: u64,
    faults: Faults,
    dropped: u64,
    sent: u64,
    resets_sent: u64,
    answer: Vec<u8>,
    spare: Vec<u8>,
    refused: u64,
    described: DeviceCapabilities,
}

impl Model for Drain {
    ghost use Rattle.std.specs.Option.{option_map};
    ghost use Rattle.app_tun_services.specs.Link.Drain.{DrainValue};

    ghost Value = { DrainValue };

    ghost view = { λ d. record {
      waiting = option_map (λ packet. packet.items) d.packet;
      received = d.received;
      resets_received = d.resets_received;
      faults = d.faults;
      dropped = d.dropped;
      sent = d.answer.items;
      emitted = d.sent;
      resets_sent = d.resets_sent;
      refusals = d.refused;
      capabilities = d.described;
    } };
}

/// Leave to send one packet of an answer.
#[derive(Debug, Drop)]
pub struct DrainTxToken {}

impl TxToken for DrainTxToken {}

impl Drain {
    /// A device of these capabilities, with no packet and nothing to answer. It allocates nothing: `alloc` serves later calls.
    pub fn new(alloc: Global, capabilities: DeviceCapabilities) -> Drain
        ensures { result ≡ initial_drain capabilities }
    {
        Drain {
            packet: None,
            received: 0,
            resets_received: 0,
            faults: Faults::NONE,
            dropped: 0,
            sent: 0,
            resets_sent: 0,
            answer: Vec::new(alloc),
            spare: Vec::new(alloc),
            refused: 0,
            described: capabilities,
        }
    }

    /// A turn's packet comes, in place of one that wasn't taken. One of no bytes is none, and one that is longer than the link takes is
    /// dropped and counted.
    pub fn put(&mut self, packet: Vec<u8>)
        ensures { self.new ≡ brought packet.items self.old }
    {
        self.count_received(packet.as_slice());
        if self.described.max_transmission_unit < packet.len() {
            self.packet = None;
            self.dropped = self.dropped.saturating_add(1);
            return;
        }
        self.packet = if packet.is_empty() {
            None
        } else {
            Some(packet)
        };
    }

    /// One packet more that came, unless it has no bytes.
    fn count_received(&mut self, packet: &[u8])
        ensures { self.new ≡ received packet.now self.old }
    {
        let resets = is_reset(self.described.medium, packet);
        self.received = one_more_if(!packet.is_empty(), self.received);
        self.resets_received = one_more_if(resets, self.resets_received);
        if !packet.is_empty() {
            self.faults.count(fault_of(self.described.medium, packet));
        }
    }

    /// How many packets came.
    pub fn received(&self) -> u64
        ensures { result ≡ self.now.received }
    {
        self.received
    }

    /// How many of them were resets of TCP.
    pub fn resets_received(&self) -> u64
        ensures { result ≡ self.now.resets_received }
    {
        self.resets_received
    }

    /// How many of them had a fault, by its kind.
    pub fn faults(&self) -> Faults
        ensures { result ≡ self.now.faults }
    {
        self.faults
    }

    /// How many packets went.
    pub fn sent(&self) -> u64
        ensures { result ≡ self.now.emitted }
    {
        self.sent
    }

    /// How many of them were resets of TCP.
    pub fn resets_sent(&self) -> u64
        ensures { result ≡ self.now.resets_sent }
    {
        self.resets_sent
    }

    /// How many packets were refused, for lack of memory.
    pub fn refused(&self) -> u64
        ensures { result ≡ self.now.refusals }
    {
        self.refused
    }

    /// How many packets were dropped for their length.
    pub fn dropped(&self) -> u64
        ensures { result ≡ self.now.dropped }
    {
        self.dropped
    }

    /// The bytes of the answer so far: each sent packet after its length.
    pub fn answer(&self) -> &[u8]
        ensures { result.now ≡ self.now.sent }
    {
        self.answer.as_slice()
    }

    /// Puts the answer's end after it, if there is room or memory. Whether there was.
    pub(crate) fn append_end(&mut self, end: &[u8]) -> bool
        ensures { self.new ≡ if result then record self.old { sent = self.old.sent ++ end.now } else self.old }
    {
        self.answer.extend_from_slice(end).is_ok()
    }

    /// Forgets the answer. Its buffer stays.
    pub fn clear(&mut self)
        ensures { self.new ≡ record self.old { sent = [] } }
    {
        self.answer.truncate(0);
    }
}

impl Device for Drain {
    type RxToken = OwnedRxToken;

    type TxToken = DrainTxToken;

    ghost use Rattle.app_tun_services.specs.Link.Drain.{DrainMove};

    ghost moves = { DrainMove };

    ghost refused = { λ d. d.refusals };

    ghost described = { λ d. d.capabilities };

    fn receive(&mut self, timestamp: Instant) -> Option<(OwnedRxToken, DrainTxToken)> {
        let leave = self.transmit(timestamp)?;
        let packet = self.packet.take()?;
        Some((OwnedRxToken::new(packet), leave))
    }

    fn transmit(&mut self, _timestamp: Instant) -> Option<DrainTxToken> {
        if self.refused < u64::MAX {
            Some(DrainTxToken {})
        } else {
            None
        }
    }

    fn send<R: Drop, F: FnOnce(&mut [u8]) -> R>(
        &mut self,
        _token: DrainTxToken,
        len: usize,
        f: F,
    ) -> Result<R, SendRefused> {
        let Some(mut packet) = take_buffer(&mut self.answer, &mut self.spare, len) else {
            self.refused += 1;
            return Err(SendRefused);
        };
        let answer = f(packet.as_mut_slice());
        append(&mut self.answer, packet.as_slice());
        let resets = is_reset(self.described.medium, packet.as_slice());
        self.resets_sent = one_more_if(resets, self.resets_sent);
        self.sent = self.sent.saturating_add(1);
        self.spare = packet;
        Ok(answer)
    }

    fn capabilities(&self) -> DeviceCapabilities {
        self.described
    }

    fn refusals(&self) -> u64 {
        self.refused
    }
}

/// One more of what is counted, where it is one.
fn one_more_if(is_one: bool, count: u64) -> u64
    ensures { result ≡ one_more_if is_one count }
{
    if is_one {
        count.saturating_add(1)
    } else {
        count
    }
}

/// A buffer of `len` bytes for a packet that is about to be sent, and room for it in the answer, if its length can be said and
/// there is memory for both.
fn take_buffer(answer: &mut Vec<u8>, spare: &mut Vec<u8>, len: usize) -> Option<Vec<u8>>
    ensures kept { answer.new.items ≡ answer.old.items }
    ensures buffer { IfSome result (λ buffer. vec_len buffer ≡ len) }
    ensures short { OnSome result (len < 2 ^ 16) }
    ensures room { OnSome result (vec_len answer.new + (2 + len) ≤ vec_capacity answer.new) }
{
    if LONGEST < len || answer.reserve(LENGTH_LEN + len).is_err() {
        return None;
    }
    let alloc = *spare.allocator();
    let mut buffer = mem::replace(spare, Vec::new(alloc));
    buffer.truncate(0);
    match buffer.resize(len, 0) {
        Ok(()) => Some(buffer),
        Err(_) => None,
    }
}

/// Puts a packet after the answer, with its length before it, where there is room for both.
fn append(answer: &mut Vec<u8>, packet: &[u8])
    requires short { length packet.now < 2 ^ 16 }
    requires room { vec_len answer.old + (2 + length packet.now) ≤ vec_capacity answer.old }
    ensures { answer.new.items ≡ answer.old.items ++ packet_bytes packet.now }
{
    let len = packet.len();
    answer.push_reserved((len % 256) as u8);
    answer.push_reserved((len / 256 % 256) as u8);
    let Ok(()) = answer.extend_from_slice(packet) else {
        unreachable!();
    };
}
