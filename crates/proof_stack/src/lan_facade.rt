//! What `lan` passes on is its modules' or `sim_link`'s: each function takes an item under the name that it has there and
//! gives it under the one that `lan` passes on, which is accepted only where both names mean one item.
ghost use Rattle.std.specs.Prelude.{◌≡◌, List, ℕ, IfOk};
ghost use Rattle.std.specs.String.{string_bytes};
ghost use Rattle.net_base.specs.Medium.{Medium};
ghost use Rattle.lan.specs.Answers.{answer_line};
ghost use Rattle.lan.specs.Events.{event_of, side_of};
ghost use Rattle.sim_link.specs.PacketInFrame.{names_tcp_or_udp};
ghost use Rattle.lan.specs.declared.at_link.history.event.Side.{Side};
ghost use Rattle.lan.specs.Worlds.AtLink.History.{Entry};
ghost use Rattle.lan.specs.Worlds.AtLink.PeerSides.{ArePartners};
ghost use Rattle.lan.specs.Worlds.AtLink.Tables.{Slots, AreAllowed};
ghost use Rattle.lan.specs.RequestSilence.{requests, AreApart};
ghost use Rattle.lan.specs.Machine.{Turn, Machine, HostRun};

use net_base::Medium;
use std::alloc::{AllocError, Global};

/// A side, a setting, a fault, and a reason of a refusal.
pub fn passes_on_names(
    side: lan::at_link::Side,
    setting: lan::at_link::TcpSetting,
    fault: lan::at_link::Fault,
    refused: lan::at_link::Refused,
) -> (lan::Side, lan::TcpSetting, lan::Fault, lan::Refused)
    ensures { result ≡ (side, setting, fault, refused) }
{
    (side, setting, fault, refused)
}

/// An event.
pub fn passes_on_events(event: &lan::at_link::Event) -> &lan::Event
    ensures { result.now ≡ event.now }
{
    event
}

/// An answer.
pub fn passes_on_answers(answer: &lan::at_link::Answer) -> &lan::Answer
    ensures { result.now ≡ answer.now }
{
    answer
}

/// Bytes.
pub fn passes_on_bytes(bytes: &lan::at_link::Bytes) -> &lan::Bytes
    ensures { result.now ≡ bytes.now }
{
    bytes
}

/// A host.
pub fn passes_on_hosts(host: &lan::at_link::Host) -> &lan::Host
    ensures { result.now ≡ host.now }
{
    host
}

/// A port.
pub fn passes_on_ports(port: &sim_link::Port) -> &lan::Port
    ensures { result.now ≡ port.now }
{
    port
}

/// Leave to send at a port.
pub fn passes_on_tokens(token: &sim_link::PortTxToken) -> &lan::PortTxToken
    ensures { result.now ≡ token.now }
{
    token
}

/// A line of a script.
pub fn passes_on_lines<'a, 'b>(line: &'a sim_link::Line<'b>) -> &'a lan::Line<'b>
    ensures { result.now ≡ line.now }
{
    line
}

/// The host that a line names.
pub fn passes_on_side_of(side: sim_link::Side) -> lan::Side
    ensures { result ≡ side_of side }
{
    lan::side_of(side)
}

/// The event that a line names.
pub fn passes_on_event_of(
    alloc: Global,
    line: &sim_link::Line<'_>,
) -> Result<Option<lan::Event>, AllocError>
    ensures { IfOk result (λ event. event ≡ event_of line.now) }
{
    lan::event_of(alloc, line)
}

/// The line that answers an event.
pub fn passes_on_answer_line(alloc: Global, answer: &lan::Answer) -> Result<String, AllocError>
    ensures { IfOk result (λ text. string_bytes text ≡ answer_line answer.now) }
{
    lan::answer_line(alloc, answer)
}

/// The test whether bytes say that they carry TCP or UDP.
pub fn passes_on_the_test(medium: Medium, bytes: &[u8]) -> bool
    ensures { result ≡ names_tcp_or_udp medium bytes.now }
{
    lan::names_tcp_or_udp(medium, bytes)
}

/// Law: a socket has at most one peer, by the laws of histories that `lan` passes on.
pub fn passes_on_histories()
    ensures { (slots : Slots) (history : List Entry) (side : Side) (i j k : ℕ) → AreAllowed slots history
        → ArePartners history side i j → ArePartners history side i k → j ≡ k }
{
    lan::history_laws::a_socket_has_at_most_one_peer_side();
}

/// Law: a machine's own requests for neighbours are a second apart, by the laws of hosts that `lan` passes on.
pub fn passes_on_machines()
    ensures { (start : Machine) (room : ℕ) (turns : List Turn) (now : Machine)
        → HostRun start room turns now → AreApart (requests turns) }
{
    lan::host_laws::requests_are_apart();
}
