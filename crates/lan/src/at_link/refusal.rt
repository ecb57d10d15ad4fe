//! Why an event isn't taken, but for lack of memory. No test reads the history: what it has to say is in the tables.
ghost use Rattle.std.specs.Prelude.{◌≡◌, ◌+◌, ◌≤◌, ◌||◌, ℕ, Bool, int_lt, not, List, length};
ghost use Rattle.interface.specs.Settings.{is_moment};
ghost use Rattle.ip_wire.specs.Fields.{be16};
ghost use Rattle.ip_wire.specs.IpEndpoint.{IpEndpoint};
ghost use Rattle.sim_link.specs.Parts.{bytes_at};
ghost use Rattle.sim_link.specs.Cuts.{ipv4_part};
ghost use Rattle.sim_link.specs.Parts.{tcp_part};
ghost use Rattle.ip_wire.specs.IpAddress.{IpAddress};
ghost use Rattle.net_base.specs.Medium.TheVariants as medium;
ghost use Rattle.sim_link.specs.PacketInFrame.{names_tcp_or_udp};
ghost use Rattle.lan.specs.Worlds.AtLink.Call as calls;
ghost use Rattle.lan.specs.declared.at_link.history.event.TcpSetting.{TcpSetting};
ghost use Rattle.lan.specs.declared.at_link.history.record.SocketRecord.{SocketRecord};
ghost use Rattle.lan.specs.Worlds.AtLink.Tables.{first_refusal, call_refusal, opening_tests, record_at};
ghost use Rattle.interface.specs.Set.{slots};
ghost use Rattle.lan.specs.Worlds.AtLink.Node.{kind_at, kind_of_socket};
ghost use Rattle.lan.specs.Worlds.AtLink.Refusals.{is_no_slot, segment_tests, cut_tests};

use crate::at_link::history::{Opening, Refused, SocketKind, SocketRecord, is_port_taken};
use interface::{Interface, SocketSet};
use ip_wire::network_order::read_u16;
use net_base::{Instant, Medium};
use sim_link::{Part, ipv4_part, names_tcp_or_udp, tcp_part};
use sockets::{Context, Socket};

/// Which kind of socket that events call is at a slot: a client of DHCP or DNS is none.
pub fn kind_at(sockets: &SocketSet<Socket>, slot: usize) -> Option<SocketKind>
    ensures { result ≡ kind_at (slots sockets.now) slot }
{
    match sockets.slots.as_slice().get(slot) {
        Some(storage) => match &storage.inner {
            Some(item) => kind_of_socket(&item.socket),
            None => None,
        },
        None => None,
    }
}

fn kind_of_socket(socket: &Socket) -> Option<SocketKind>
    ensures { result ≡ kind_of_socket socket.now }
{
    match socket {
        Socket::Raw(_) => Some(SocketKind::Raw),
        Socket::Icmp(_) => Some(SocketKind::Icmp),
        Socket::Udp(_) => Some(SocketKind::Udp),
        Socket::Tcp(_) => Some(SocketKind::Tcp),
        Socket::Dhcpv4(_) | Socket::Dns(_) => None,
    }
}

/// Why a slot isn't listened at.
pub fn listen_refusal(
    kind: Option<SocketKind>,
    records: &[SocketRecord],
    slot: usize,
    port: u16,
) -> Option<Refused>
    ensures { (names : List ℕ → Bool) → result ≡ call_refusal names kind records.now slot (calls.Listen port) }
{
    let opening = Opening {
        local: port,
        remote: None,
    };
    match kind {
        None => Some(Refused::NoSocket),
        Some(SocketKind::Tcp) => opening_refusal(records, slot, &opening),
        Some(SocketKind::Raw | SocketKind::Icmp | SocketKind::Udp) => Some(Refused::WrongKind),
    }
}

/// Why no connection is opened at a slot.
pub fn connect_refusal(
    kind: Option<SocketKind>,
    records: &[SocketRecord],
    slot: usize,
    remote_port: u16,
    port: u16,
) -> Option<Refused>
    ensures { (names : List ℕ → Bool) (remote : IpEndpoint) → remote.port ≡ remote_port →
        result ≡ call_refusal names kind records.now slot (calls.Connect remote port) }
{
    let opening = Opening {
        local: port,
        remote: Some(remote_port),
    };
    match kind {
        None => Some(Refused::NoSocket),
        Some(SocketKind::Tcp) => opening_refusal(records, slot, &opening),
        Some(SocketKind::Raw | SocketKind::Icmp | SocketKind::Udp) => Some(Refused::WrongKind),
    }
}

fn record_at(records: &[SocketRecord], slot: usize) -> SocketRecord
    ensures { result ≡ record_at records.now slot }
{
    records.get(slot).copied().unwrap_or(SocketRecord::NONE)
}

fn opening_refusal(records: &[SocketRecord], slot: usize, opening: &Opening) -> Option<Refused>
    ensures { result ≡ first_refusal (opening_tests records.now slot opening.now) }
{
    if record_at(records, slot).opened.is_some() {
        Some(Refused::OpenedTwice)
    } else if is_port_taken(records, opening) {
        Some(Refused::PortTaken)
    } else {
        None
    }
}

/// Why a slot isn't written to.
pub fn send_refusal(
    kind: Option<SocketKind>,
    records: &[SocketRecord],
    slot: usize,
    bytes: &[u8],
) -> Option<Refused>
    ensures { (names : List ℕ → Bool) → result ≡ call_refusal names kind records.now slot (calls.Send bytes.now) }
{
    match kind {
        None => Some(Refused::NoSocket),
        Some(SocketKind::Tcp) => record_at(records, slot)
            .is_too_many(bytes.len())
            .then_some(Refused::TooManyBytes),
        Some(SocketKind::Raw | SocketKind::Icmp | SocketKind::Udp) => Some(Refused::WrongKind),
    }
}

/// Why a call that TCP sockets alone have isn't taken.
pub fn tcp_refusal(kind: Option<SocketKind>) -> Option<Refused>
    ensures recv { (names : List ℕ → Bool) (table : List SocketRecord) (i limit : ℕ) → result ≡ call_refusal names kind table i (calls.Recv limit) }
    ensures abort { (names : List ℕ → Bool) (table : List SocketRecord) (i : ℕ) → result ≡ call_refusal names kind table i calls.Abort }
    ensures state { (names : List ℕ → Bool) (table : List SocketRecord) (i : ℕ) → result ≡ call_refusal names kind table i calls.State }
    ensures set { (names : List ℕ → Bool) (table : List SocketRecord) (i : ℕ) (setting : TcpSetting) →
        result ≡ call_refusal names kind table i (calls.Set setting) }
{
    match kind {
        None => Some(Refused::NoSocket),
        Some(SocketKind::Tcp) => None,
        Some(SocketKind::Raw | SocketKind::Icmp | SocketKind::Udp) => Some(Refused::WrongKind),
    }
}

/// Why a socket isn't closed.
pub fn close_refusal(kind: Option<SocketKind>) -> Option<Refused>
    ensures { (names : List ℕ → Bool) (table : List SocketRecord) (i : ℕ) → result ≡ call_refusal names kind table i calls.Close }
{
    match kind {
        None => Some(Refused::NoSocket),
        Some(SocketKind::Tcp | SocketKind::Udp) => None,
        Some(SocketKind::Raw | SocketKind::Icmp) => Some(Refused::WrongKind),
    }
}

/// Why a call that UDP sockets alone have isn't taken.
pub fn udp_refusal(kind: Option<SocketKind>) -> Option<Refused>
    ensures bind { (names : List ℕ → Bool) (table : List SocketRecord) (i port : ℕ) → result ≡ call_refusal names kind table i (calls.Bind port) }
    ensures send { (names : List ℕ → Bool) (table : List SocketRecord) (i : ℕ) (remote : IpEndpoint) (bytes : List ℕ) →
        result ≡ call_refusal names kind table i (calls.SendTo remote bytes) }
{
    match kind {
        None => Some(Refused::NoSocket),
        Some(SocketKind::Udp) => None,
        Some(SocketKind::Raw | SocketKind::Icmp | SocketKind::Tcp) => Some(Refused::WrongKind),
    }
}

/// Why a call that ICMP sockets alone have isn't taken.
pub fn icmp_refusal(kind: Option<SocketKind>) -> Option<Refused>
    ensures ident { (names : List ℕ → Bool) (table : List SocketRecord) (i ident : ℕ) → result ≡ call_refusal names kind table i (calls.Ident ident) }
    ensures send { (names : List ℕ → Bool) (table : List SocketRecord) (i : ℕ) (remote : IpAddress) (bytes : List ℕ) →
        result ≡ call_refusal names kind table i (calls.SendIcmp remote bytes) }
{
    match kind {
        None => Some(Refused::NoSocket),
        Some(SocketKind::Icmp) => None,
        Some(SocketKind::Raw | SocketKind::Udp | SocketKind::Tcp) => Some(Refused::WrongKind),
    }
}

/// Why no datagram, message or packet is read.
pub fn read_refusal(kind: Option<SocketKind>) -> Option<Refused>
    ensures { (names : List ℕ → Bool) (table : List SocketRecord) (i limit : ℕ) → result ≡ call_refusal names kind table i (calls.RecvFrom limit) }
{
    match kind {
        None => Some(Refused::NoSocket),
        Some(SocketKind::Raw | SocketKind::Icmp | SocketKind::Udp) => None,
        Some(SocketKind::Tcp) => Some(Refused::WrongKind),
    }
}

/// Why no IP packet is queued.
pub fn raw_refusal(kind: Option<SocketKind>, bytes: &[u8]) -> Option<Refused>
    ensures { (table : List SocketRecord) (i : ℕ) → result ≡ call_refusal (names_tcp_or_udp (medium.Ip)) kind table i (calls.SendRaw bytes.now) }
{
    match kind {
        None => Some(Refused::NoSocket),
        Some(SocketKind::Raw) => {
            names_tcp_or_udp(Medium::Ip, bytes).then_some(Refused::RawProtocol)
        }
        Some(SocketKind::Icmp | SocketKind::Udp | SocketKind::Tcp) => Some(Refused::WrongKind),
    }
}

/// Why a host isn't polled or asked at an instant.
pub fn is_too_early(interface: &Interface, instant: Instant) -> bool
    ensures { result ≡ (not (is_moment instant) || int_lt instant interface.now.inner.instant) }
{
    !instant.is_moment() || instant < interface.now()
}

/// Why no word of a sent frame's TCP segment is exchanged.
pub fn damage_refusal(medium: Medium, frame: &[u8], slot: usize, word: u16) -> Option<Refused>
    ensures { result ≡ first_refusal (segment_tests frame.now (tcp_part medium frame.now) slot word) }
{
    match tcp_part(medium, frame) {
        None => Some(Refused::NotTcp),
        Some(part) => {
            if is_no_slot(part, slot) {
                Some(Refused::Place)
            } else if word_at(frame, part, slot) % 65535 == word % 65535 {
                Some(Refused::SameSum)
            } else {
                None
            }
        }
    }
}

/// The word at a place of a part of a frame.
fn word_at(frame: &[u8], part: Part, slot: usize) -> u16
    requires within { part.at + part.len ≤ length frame.now }
    requires word { slot + 2 ≤ part.len }
    ensures { result ≡ be16 (bytes_at frame.now part) slot }
{
    read_u16(&frame[part.at..part.at + part.len], slot)
}

/// Whether a part has no word at a slot that stands at an even one.
fn is_no_slot(part: Part, slot: usize) -> bool
    ensures { result ≡ is_no_slot part slot }
{
    slot % 2 == 1 || part.len < 2 || part.len - 2 < slot
}

/// Why a sent frame isn't cut there.
pub fn cut_refusal(medium: Medium, frame: &[u8], at: usize) -> Option<Refused>
    ensures { result ≡ first_refusal (cut_tests (ipv4_part medium frame.now) at) }
{
    match ipv4_part(medium, frame) {
        None => Some(Refused::NotIpv4),
        Some(part) => {
            if at == 0 || at % 8 != 0 || at >= part.len {
                Some(Refused::CutPlace)
            } else {
                None
            }
        }
    }
}
