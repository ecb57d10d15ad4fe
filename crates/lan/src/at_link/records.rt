//! What is kept of a host's history, so that no refusal reads it.
ghost use Rattle.std.specs.Prelude.{◌≡◌, ◌+◌, ◌<◌, ◌≤◌, ◌^◌, ◌&&◌, ◌==◌, is_some, IfOk, length, replicate, slice_set, if◌then◌else◌, drop};
ghost use Rattle.std.specs.List.{count_by};
ghost use Rattle.net_base.specs.Device.{frames_of};
ghost use Rattle.lan.specs.Worlds.AtLink.Kinds.{kind_of, same_side};
ghost use Rattle.lan.specs.Worlds.AtLink.Tables.{no_record, record_at, table_after};
ghost use Rattle.lan.specs.Worlds.AtLink.Origins.{medium_of, is_cut_of, begins_datagram};
ghost use Rattle.sim_link.specs.PacketInFrame.{packet_in};
ghost use Rattle.sim_link.specs.Cuts.{ipv4_part};
ghost use Rattle.ip_wire.specs.Ipv4.{fragment_of};
ghost use Rattle.lan.specs.Worlds.AtLink.Records.{table_next, datagrams_added, slot_of, opening_in, written_in, record_by, HasByteRoom, CanRise};

use crate::at_link::history::{Answer, Event, Opening, Side, SocketRecord};
use crate::at_link::host::Host;
use ip_wire::Ipv4Packet;
use net_base::Medium;
use sim_link::{begins_fragments, ipv4_part, packet_in};
use std::alloc::{AllocError, Global};
use std::marker::Model;

/// A record for each place of a host's socket set, and how many datagrams it numbered.
#[derive(Debug, Drop)]
pub struct Records {
    pub(crate) sockets: Vec<SocketRecord>,
    pub(crate) numbered: usize,
}

impl Model for Records {
    ghost use Rattle.lan.specs.Worlds.AtLink.Refusals.{Table};

    ghost Value = { Table };

    ghost view = { λ r. record { records = r.sockets.items; numbered = r.numbered } };
}

impl Records {
    /// The records of a host at which nothing happened yet.
    pub fn new(alloc: Global, host: &Host) -> Result<Records, AllocError>
        ensures { IfOk result (λ r. r ≡ record { records = replicate (length host.now.slots) no_record; numbered = 0 }) }
    {
        let count = host.sockets.slots.as_slice().len();
        Ok(Records {
            sockets: vec![in alloc; SocketRecord::NONE; count]?,
            numbered: 0,
        })
    }

    /// Follows an event, before which the host had sent so many frames.
    pub(crate) fn follow(
        &mut self,
        side: Side,
        event: &Event,
        answer: &Answer,
        host: &Host,
        before: usize,
    )
        requires few { self.old.numbered ≤ before }
        requires sent { before ≤ length host.now.link.sent }
        requires bytes { HasByteRoom side self.old.records (kind_of event.now) }
        ensures next { self.new ≡ table_next side (kind_of event.now) answer.now before host.now self.old }
        ensures few { self.new.numbered ≤ length host.now.link.sent }
    {
        prove!(before <= host.sent_count());
        follow_call(&mut self.sockets, side, event, answer);
        self.numbered += datagrams_added(side, event, host, before);
    }
}

/// How many datagrams a host began in an event.
fn datagrams_added(side: Side, event: &Event, host: &Host, before: usize) -> usize
    requires { before ≤ length host.now.link.sent }
    ensures value { result ≡ datagrams_added side (kind_of event.now) (medium_of host.now) before host.now.link.sent }
    ensures few { before + result ≤ length host.now.link.sent }
{
    if is_cut_of(side, event) {
        0
    } else {
        datagrams(host.medium(), host.sent_since(before))
    }
}

fn is_cut_of(side: Side, event: &Event) -> bool
    ensures { result ≡ is_cut_of side (kind_of event.now) }
{
    match event {
        Event::Cut(from, _, _) => same_side(*from, side),
        _ => false,
    }
}

fn same_side(one: Side, other: Side) -> bool
    ensures { result ≡ same_side one other }
{
    one == other
}

/// How many of these frames begin a datagram that has a number.
fn datagrams(medium: Medium, frames: &[Vec<u8>]) -> usize
    ensures value { result ≡ count_by (begins_datagram medium) (frames_of frames.now) }
    ensures few { result ≤ length frames.now }
{
    let mut count = 0;
    for frame in frames {
        if begins_datagram(medium, frame.as_slice()) {
            count += 1;
        }
    }
    count
}

fn begins_datagram(medium: Medium, frame: &[u8]) -> bool
    ensures { result ≡ begins_datagram medium frame.now }
{
    begins_ipv4(medium, frame) || begins_fragments(medium, frame)
}

fn begins_ipv4(medium: Medium, frame: &[u8]) -> bool
    ensures { result ≡ (is_some (ipv4_part medium frame.now) && ((fragment_of (packet_in medium frame.now)).offset == 0)) }
{
    if ipv4_part(medium, frame).is_none() {
        return false;
    }
    Ipv4Packet::new_unchecked(packet_in(medium, frame))
        .fragment()
        .offset
        == 0
}

/// The place of the socket that an event calls, where it is this host's.
fn slot_of(side: Side, event: &Event) -> Option<usize>
    ensures { result ≡ slot_of side (kind_of event.now) }
{
    match event {
        Event::Listen(on, slot, _)
        | Event::Connect(on, slot, _, _)
        | Event::Send(on, slot, _)
        | Event::Recv(on, slot, _)
        | Event::Close(on, slot)
        | Event::Abort(on, slot)
        | Event::State(on, slot)
        | Event::TcpSetting(on, slot, _)
        | Event::Bind(on, slot, _)
        | Event::Ident(on, slot, _)
        | Event::SendTo(on, slot, _, _)
        | Event::SendIcmp(on, slot, _, _)
        | Event::SendRaw(on, slot, _)
        | Event::RecvFrom(on, slot, _) => same_side(*on, side).then_some(*slot),
        _ => None,
    }
}

/// How a socket was opened, if an event that was answered so opened one.
fn opening_in(event: &Event, answer: &Answer) -> Option<Opening>
    ensures { result ≡ opening_in (kind_of event.now) answer.now }
{
    let Answer::Done = answer else {
        return None;
    };
    match event {
        Event::Listen(_, _, port) => Some(Opening {
            local: *port,
            remote: None,
        }),
        Event::Connect(_, _, remote, port) => Some(Opening {
            local: *port,
            remote: Some(remote.port),
        }),
        _ => None,
    }
}

/// How many bytes a socket accepted in an event that was answered so.
fn written_in(event: &Event, answer: &Answer) -> usize
    ensures { result ≡ written_in (kind_of event.now) answer.now }
{
    let Answer::Count(count) = answer else {
        return 0;
    };
    match event {
        Event::Send(_, _, bytes) => bytes.len().min(*count),
        _ => 0,
    }
}

/// A record after an event of its socket.
fn record_after(was: SocketRecord, event: &Event, answer: &Answer) -> SocketRecord
    requires { CanRise was (written_in (kind_of event.now) answer.now) }
    ensures { result ≡ record_by was (kind_of event.now) answer.now }
{
    SocketRecord {
        opened: was.opened.or(opening_in(event, answer)),
        accepted: was.accepted + written_in(event, answer) as u32,
    }
}

/// The record of a call's socket follows it, where it is this host's.
#[tactic(auto, using(crate::proofs::Worlds::AtLink::Following::follows, crate::proofs::Worlds::AtLink::Following::room_at))]
fn follow_call(records: &mut Vec<SocketRecord>, side: Side, event: &Event, answer: &Answer)
    requires { HasByteRoom side records.old.items (kind_of event.now) }
    ensures { records.new.items ≡ table_after (kind_of event.now) answer.now side records.old.items }
{
    if let Some(slot) = slot_of(side, event) {
        follow_at(records, slot, event, answer);
    }
}

fn follow_at(records: &mut Vec<SocketRecord>, slot: usize, event: &Event, answer: &Answer)
    requires { CanRise (record_at records.old.items slot) (written_in (kind_of event.now) answer.now) }
    ensures { records.new.items ≡ slice_set records.old.items slot (record_by (record_at records.old.items slot) (kind_of event.now) answer.now) }
{
    if slot < records.len() {
        records[slot] = record_after(records[slot], event, answer);
    }
}
