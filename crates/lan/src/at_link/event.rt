//! Events: when one isn't taken, and what one that is taken does to the two hosts, the link and the tables.
ghost use Rattle.std.specs.Prelude.{◌≡◌, ◌<◌, ◌≤◌, None, IfOk, OnOk, OnErr, length};
ghost use Rattle.lan.specs.Worlds.AtLink.Kinds.{kind_of};
ghost use Rattle.lan.specs.declared.at_link.history.event.Side.TheVariants.{A, B};
ghost use Rattle.lan.specs.Worlds.AtLink.Kinds.Act.{Polls};
ghost use Rattle.lan.specs.Worlds.AtLink.Tables.{first_refusal};
ghost use Rattle.lan.specs.Worlds.AtLink.Acting.{ActsBy, CanActBy, CanHappen, HappensBy, actor, act_refusal, link_refusal, damage_tests, sent_cut_tests};
ghost use Rattle.sim_link.specs.Cuts.{ipv4_part};
ghost use Rattle.lan.specs.Worlds.AtLink.Linking.{CanLinkBy, HasFragment, linked_by};
ghost use Rattle.lan.specs.Worlds.AtLink.Origins.{medium_of, frame_sent, cut as cut_hosts};
ghost use Rattle.lan.specs.Worlds.AtLink.Records.{table_next};
ghost use Rattle.interface.specs.Used.{sockets_in};
ghost use Rattle.lan.specs.Worlds.AtLink.Refusals.{act_tests, refusal, may_run_out};
ghost use Rattle.lan.specs.Worlds.AtLink.Node.{node};
ghost use Rattle.lan.specs.Worlds.AtLink.Steps.{Happens};

use crate::at_link::answer::{Brief, Taken, give};
use crate::at_link::history::{Event, Refused, Side};
use crate::at_link::host::Host;
use crate::at_link::link::{cut, deliver, deliver_damaged, deliver_noise};
use crate::at_link::records::Records;
use crate::at_link::refusal as refusals;
use interface::SocketStorage;
use net_base::Instant;
use sim_link::names_tcp_or_udp;
use sockets::Socket;
use std::alloc::{AllocError, Global};

/// The host that acts; none where the link does.
fn actor(event: &Event) -> Option<Side>
    ensures { result ≡ actor (kind_of event.now) }
{
    match event {
        Event::Listen(side, _, _)
        | Event::Connect(side, _, _, _)
        | Event::Send(side, _, _)
        | Event::Recv(side, _, _)
        | Event::Close(side, _)
        | Event::Abort(side, _)
        | Event::State(side, _)
        | Event::TcpSetting(side, _, _)
        | Event::Bind(side, _, _)
        | Event::Ident(side, _, _)
        | Event::SendTo(side, _, _, _)
        | Event::SendIcmp(side, _, _, _)
        | Event::SendRaw(side, _, _)
        | Event::RecvFrom(side, _, _)
        | Event::HardwareAddr(side, _)
        | Event::Addrs(side, _)
        | Event::Route(side, _)
        | Event::AnyIp(side, _)
        | Event::ReassemblyTimeout(side, _)
        | Event::Poll(side, _, _)
        | Event::PollAt(side, _)
        | Event::Room(side, _) => Some(*side),
        Event::Deliver(..) | Event::Damage(..) | Event::Noise(..) | Event::Cut(..) => None,
    }
}

/// How many sockets there are.
fn socket_count(slots: &[SocketStorage<Socket>]) -> usize
    ensures { result ≡ sockets_in slots.now }
{
    let mut count = 0;
    for slot in slots {
        if slot.inner.is_some() {
            count += 1;
        }
    }
    count
}

/// Whether a poll of this budget might leave its host without an identification.
fn may_run_out(host: &Host, records: &Records, budget: u16) -> bool
    ensures { result ≡ may_run_out host.now records.now budget }
{
    let each = socket_count(host.sockets.slots.as_slice()).saturating_add(1);
    let most = each.saturating_mul(budget as usize);
    records.numbered.saturating_add(most) >= 1 << 16
}

/// Why a host isn't polled.
fn poll_refusal(host: &Host, records: &Records, instant: Instant, budget: u16) -> Option<Refused>
    ensures { result ≡ first_refusal (act_tests host.now records.now (Polls instant budget)) }
{
    if may_run_out(host, records, budget) {
        Some(Refused::TooManyCut)
    } else if refusals::is_too_early(&host.interface, instant) {
        Some(Refused::Moment)
    } else {
        None
    }
}

/// Why a host doesn't do what an event says.
fn act_refusal(host: &Host, records: &Records, event: &Event) -> Option<Refused>
    ensures { result ≡ act_refusal host.now records.now (kind_of event.now) }
{
    let sockets = &host.sockets;
    let table = records.sockets.as_slice();
    match event {
        Event::Listen(_, slot, port) => {
            refusals::listen_refusal(refusals::kind_at(sockets, *slot), table, *slot, *port)
        }
        Event::Connect(_, slot, remote, port) => refusals::connect_refusal(
            refusals::kind_at(sockets, *slot),
            table,
            *slot,
            remote.port,
            *port,
        ),
        Event::Send(_, slot, bytes) => refusals::send_refusal(
            refusals::kind_at(sockets, *slot),
            table,
            *slot,
            bytes.as_slice(),
        ),
        Event::Recv(_, slot, _) => refusals::tcp_refusal(refusals::kind_at(sockets, *slot)),
        Event::Abort(_, slot) => refusals::tcp_refusal(refusals::kind_at(sockets, *slot)),
        Event::State(_, slot) => refusals::tcp_refusal(refusals::kind_at(sockets, *slot)),
        Event::TcpSetting(_, slot, _) => {
            refusals::tcp_refusal(refusals::kind_at(sockets, *slot))
        }
        Event::Close(_, slot) => refusals::close_refusal(refusals::kind_at(sockets, *slot)),
        Event::Bind(_, slot, _) => refusals::udp_refusal(refusals::kind_at(sockets, *slot)),
        Event::SendTo(_, slot, _, _) => refusals::udp_refusal(refusals::kind_at(sockets, *slot)),
        Event::Ident(_, slot, _) => refusals::icmp_refusal(refusals::kind_at(sockets, *slot)),
        Event::SendIcmp(_, slot, _, _) => {
            refusals::icmp_refusal(refusals::kind_at(sockets, *slot))
        }
        Event::SendRaw(_, slot, bytes) => {
            refusals::raw_refusal(refusals::kind_at(sockets, *slot), bytes.as_slice())
        }
        Event::RecvFrom(_, slot, _) => { refusals::read_refusal(refusals::kind_at(sockets, *slot)) }
        Event::Poll(_, instant, budget) => poll_refusal(host, records, *instant, *budget),
        Event::PollAt(_, instant) => {
            refusals::is_too_early(&host.interface, *instant).then_some(Refused::Moment)
        }
        _ => None,
    }
}

/// One of two hosts.
fn node<'a>(a: &'a Host, b: &'a Host, side: Side) -> &'a Host
    ensures { result.now ≡ node (record { a = a.now; b = b.now }) side }
{
    match side {
        Side::A => a,
        Side::B => b,
    }
}

/// Why no word of a sent frame is exchanged.
fn damage_refusal(host: &Host, frame: usize, slot: usize, word: u16) -> Option<Refused>
    ensures { result ≡ first_refusal (damage_tests host.now frame slot word) }
{
    if frame >= host.sent_count() {
        return Some(Refused::NoFrame);
    }
    refusals::damage_refusal(host.medium(), host.sent_frame(frame), slot, word)
}

/// Why a sent frame isn't cut.
fn cut_refusal(host: &Host, frame: usize, at: usize) -> Option<Refused>
    ensures { result ≡ first_refusal (sent_cut_tests host.now frame at) }
{
    if frame >= host.sent_count() {
        return Some(Refused::NoFrame);
    }
    refusals::cut_refusal(host.medium(), host.sent_frame(frame), at)
}

/// Why the link doesn't do what an event says.
fn link_refusal(a: &Host, b: &Host, event: &Event) -> Option<Refused>
    ensures { result ≡ link_refusal (record { a = a.now; b = b.now }) (kind_of event.now) }
{
    match event {
        Event::Deliver(from, frame, _) => {
            (*frame >= node(a, b, *from).sent_count()).then_some(Refused::NoFrame)
        }
        Event::Damage(from, frame, slot, word, _) => {
            damage_refusal(node(a, b, *from), *frame, *slot, *word)
        }
        Event::Noise(to, bytes) => {
            names_tcp_or_udp(node(a, b, *to).medium(), bytes.as_slice()).then_some(
                Refused::NamesTcpOrUdp,
            )
        }
        Event::Cut(from, frame, at) => cut_refusal(node(a, b, *from), *frame, *at),
        _ => None,
    }
}

/// Why an event isn't taken, but for lack of memory.
#[tactic(auto, using(crate::proofs::Worlds::AtLink::Allowed::refused_host, crate::proofs::Worlds::AtLink::Allowed::refused_link))]
pub fn refusal_of(
    a: &Host,
    b: &Host,
    records_a: &Records,
    records_b: &Records,
    event: &Event,
) -> Option<Refused>
    ensures { result ≡ refusal (record { a = a.now; b = b.now }) (record { a = records_a.now; b = records_b.now }) (kind_of event.now) }
{
    match actor(event) {
        Some(Side::A) => act_refusal(a, records_a, event),
        Some(Side::B) => act_refusal(b, records_b, event),
        None => link_refusal(a, b, event),
    }
}

impl Host {
    /// What an event makes of the host that acts, and what it answers.
    pub fn act(&mut self, alloc: Global, event: &Event) -> Result<Taken, AllocError>
        requires { CanActBy self.old (kind_of event.now) }
        ensures done { IfOk result (λ t. ActsBy self.old (kind_of event.now) t self.new) }
        ensures unchanged { OnErr result (self.new ≡ self.old) }
    {
        match event {
            Event::Listen(_, slot, _)
            | Event::Connect(_, slot, _, _)
            | Event::Send(_, slot, _)
            | Event::Recv(_, slot, _)
            | Event::Close(_, slot)
            | Event::Abort(_, slot)
            | Event::State(_, slot)
            | Event::TcpSetting(_, slot, _)
            | Event::Bind(_, slot, _)
            | Event::Ident(_, slot, _)
            | Event::SendTo(_, slot, _, _)
            | Event::SendIcmp(_, slot, _, _)
            | Event::SendRaw(_, slot, _)
            | Event::RecvFrom(_, slot, _) => self.call(alloc, *slot, event),
            Event::HardwareAddr(_, address) => Ok(self.set_hardware_addr(*address)),
            Event::Addrs(_, blocks) => Ok(self.set_addrs(blocks)),
            Event::Route(_, router) => Ok(self.set_route(*router)),
            Event::AnyIp(_, any) => Ok(self.set_any_ip(*any)),
            Event::ReassemblyTimeout(_, timeout) => Ok(self.set_reassembly_timeout(*timeout)),
            Event::Room(_, room) => Ok(self.open_room(*room)),
            Event::PollAt(_, instant) => Ok(self.ask(*instant)),
            Event::Poll(_, instant, budget) => self.polled(*instant, *budget),
            Event::Deliver(..) | Event::Damage(..) | Event::Noise(..) | Event::Cut(..) => {
                unreachable!()
            }
        }
    }
}

/// Cuts a sent frame of one of the hosts.
fn cut_of(
    alloc: Global,
    a: &mut Host,
    b: &mut Host,
    from: Side,
    frame: usize,
    at: usize,
) -> Result<(), AllocError>
    requires frame { frame < length (node (record { a = a.old; b = b.old }) from).link.sent }
    requires fragment { HasFragment
        (ipv4_part (medium_of (node (record { a = a.old; b = b.old }) from)) (frame_sent (record { a = a.old; b = b.old }) from frame)) at }
    ensures ok { OnOk result (record { a = a.new; b = b.new } ≡ cut_hosts (record { a = a.old; b = b.old }) from frame at) }
    ensures a { OnErr result (a.new ≡ a.old) }
    ensures b { OnErr result (b.new ≡ b.old) }
{
    match from {
        Side::A => cut(alloc, a, frame, at),
        Side::B => cut(alloc, b, frame, at),
    }
}

/// What the link does.
fn link(alloc: Global, a: &mut Host, b: &mut Host, event: &Event) -> Result<(), AllocError>
    requires { CanLinkBy (record { a = a.old; b = b.old }) (kind_of event.now) }
    ensures ok { OnOk result (record { a = a.new; b = b.new } ≡ linked_by (record { a = a.old; b = b.old }) (kind_of event.now)) }
    ensures a { OnErr result (a.new ≡ a.old) }
    ensures b { OnErr result (b.new ≡ b.old) }
{
    match event {
        Event::Deliver(Side::A, frame, padding) => deliver(alloc, a, b, *frame, padding),
        Event::Deliver(Side::B, frame, padding) => deliver(alloc, b, a, *frame, padding),
        Event::Damage(Side::A, frame, slot, word, padding) => {
            deliver_damaged(alloc, a, b, *frame, *slot, *word, padding)
        }
        Event::Damage(Side::B, frame, slot, word, padding) => {
            deliver_damaged(alloc, b, a, *frame, *slot, *word, padding)
        }
        Event::Noise(Side::A, bytes) => deliver_noise(alloc, a, bytes),
        Event::Noise(Side::B, bytes) => deliver_noise(alloc, b, bytes),
        Event::Cut(from, frame, at) => cut_of(alloc, a, b, *from, *frame, *at),
        _ => Ok(()),
    }
}

/// What an event makes of both hosts and the link, and what it answers.
#[tactic(auto, using(crate::proofs::Worlds::AtLink::Allowed::allowed))]
fn play(alloc: Global, a: &mut Host, b: &mut Host, event: &Event) -> Result<Taken, AllocError>
    requires { CanHappen (record { a = a.old; b = b.old }) (kind_of event.now) }
    ensures happens { IfOk result (λ t. HappensBy (record { a = a.old; b = b.old }) (kind_of event.now) t (record { a = a.new; b = b.new })) }
    ensures a { OnErr result (a.new ≡ a.old) }
    ensures b { OnErr result (b.new ≡ b.old) }
{
    match actor(event) {
        Some(Side::A) => a.act(alloc, event),
        Some(Side::B) => b.act(alloc, event),
        None => {
            link(alloc, a, b, event)?;
            Ok(give(Brief::Done, None))
        }
    }
}

/// Takes an event that isn't refused: the hosts, the link and the tables follow it. Room is made first, so that lack of memory refuses
/// the event whole.
#[tactic(auto, using(crate::proofs::Worlds::AtLink::Allowed::allowed_can, crate::proofs::Worlds::AtLink::Allowed::allowed_room))]
pub fn take(
    alloc: Global,
    a: &mut Host,
    b: &mut Host,
    records_a: &mut Records,
    records_b: &mut Records,
    event: &Event,
) -> Result<Taken, AllocError>
    requires allowed { refusal (record { a = a.old; b = b.old }) (record { a = records_a.old; b = records_b.old }) (kind_of event.now) ≡ None }
    requires few_a { records_a.old.numbered ≤ length a.old.link.sent }
    requires few_b { records_b.old.numbered ≤ length b.old.link.sent }
    ensures happens { IfOk result (λ t. Happens (record { a = a.old; b = b.old }) (kind_of event.now) t.answer t.found (record { a = a.new; b = b.new })) }
    ensures kept { IfOk result (λ t. t.kept ≡ t.answer) }
    ensures table_a { IfOk result (λ t. records_a.new ≡ table_next A (kind_of event.now) t.answer (length a.old.link.sent) a.new records_a.old) }
    ensures table_b { IfOk result (λ t. records_b.new ≡ table_next B (kind_of event.now) t.answer (length b.old.link.sent) b.new records_b.old) }
    ensures few_a { OnOk result (records_a.new.numbered ≤ length a.new.link.sent) }
    ensures few_b { OnOk result (records_b.new.numbered ≤ length b.new.link.sent) }
    ensures unchanged_a { OnErr result (a.new ≡ a.old) }
    ensures unchanged_b { OnErr result (b.new ≡ b.old) }
    ensures untabled_a { OnErr result (records_a.new ≡ records_a.old) }
    ensures untabled_b { OnErr result (records_b.new ≡ records_b.old) }
{
    let before_a = a.sent_count();
    let before_b = b.sent_count();
    let taken = play(alloc, a, b, event)?;
    records_a.follow(Side::A, event, &taken.answer, a, before_a);
    records_b.follow(Side::B, event, &taken.answer, b, before_b);
    Ok(taken)
}
