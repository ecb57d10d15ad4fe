//! Numbers of protocols, operations and reasons, printed as a name and the number: `UDP (17)`.
ghost use Rattle.std.specs.Prelude.{◌≡◌, Some, ◌++◌, codes, decimal};
ghost use Rattle.std.specs.Fmt.{DisplaysOnOk};
ghost use Rattle.wire_print.specs.Names.{protocol_name, protocol_text, operation_name, operation_text, unreachable4_name, unreachable4_text, exceeded4_name};
ghost use Rattle.wire_print.specs.Names.{exceeded4_text, unreachable6_name, unreachable6_text, exceeded6_name, exceeded6_text, problem_name, problem_text};
ghost use Rattle.wire_print.specs.Names.{ether_text};

use crate::parts::write_value;
use control_wire::{
    Icmpv4DstUnreachable, Icmpv4TimeExceeded, Icmpv6DstUnreachable, Icmpv6ParamProblem,
    Icmpv6TimeExceeded,
};
use ip_wire::{ArpOperation, EthernetProtocol, IpProtocol};
use std::fmt;

// Writes a name, and in brackets its number.
fn write_numbered<W: fmt::Write>(f: &mut fmt::Formatter<W>, name: &str, number: u16) -> fmt::Result
    ensures { DisplaysOnOk W.write_str_gives f.old result (Some (name.now ++ (codes " (" ++ (decimal number ++ codes ")")))) f.new }
{
    write!(f, "{name} ({number})")
}

/// Prints a protocol over IP: its name, and in brackets its number.
#[derive(Clone, Copy)]
pub struct ProtocolText(pub IpProtocol);

impl fmt::Display for ProtocolText {
    ghost output = { λ x. Some (protocol_text x.0) };

    fn fmt<W: fmt::Write>(&self, f: &mut fmt::Formatter<W>) -> fmt::Result {
        write_numbered(f, protocol_name(self.0), u16::from(u8::from(self.0)))
    }
}

fn protocol_name(named: IpProtocol) -> &'static str
    ensures { result.now ≡ protocol_name named }
{
    match named {
        IpProtocol::HopByHop => "hop-by-hop options",
        IpProtocol::Icmp => "ICMP",
        IpProtocol::Igmp => "IGMP",
        IpProtocol::Tcp => "TCP",
        IpProtocol::Udp => "UDP",
        IpProtocol::Ipv6Route => "routing header",
        IpProtocol::Ipv6Frag => "fragment header",
        IpProtocol::IpSecEsp => "ESP",
        IpProtocol::IpSecAh => "AH",
        IpProtocol::Icmpv6 => "ICMPv6",
        IpProtocol::Ipv6NoNxt => "no next header",
        IpProtocol::Ipv6Opts => "destination options",
        IpProtocol::Unknown(_) => "protocol",
    }
}

/// Prints the operation of an ARP packet: its name, and in brackets its number.
#[derive(Clone, Copy)]
pub struct OperationText(pub ArpOperation);

impl fmt::Display for OperationText {
    ghost output = { λ x. Some (operation_text x.0) };

    fn fmt<W: fmt::Write>(&self, f: &mut fmt::Formatter<W>) -> fmt::Result {
        write_numbered(f, operation_name(self.0), u16::from(self.0))
    }
}

fn operation_name(named: ArpOperation) -> &'static str
    ensures { result.now ≡ operation_name named }
{
    match named {
        ArpOperation::Request => "request",
        ArpOperation::Reply => "reply",
        ArpOperation::Unknown(_) => "operation",
    }
}

/// Prints why an IPv4 packet didn't reach its destination (RFC 792; RFC 1122, section 3.2.2.1): its name, and in brackets its number.
#[derive(Clone, Copy)]
pub struct Unreachable4Text(pub Icmpv4DstUnreachable);

impl fmt::Display for Unreachable4Text {
    ghost output = { λ x. Some (unreachable4_text x.0) };

    fn fmt<W: fmt::Write>(&self, f: &mut fmt::Formatter<W>) -> fmt::Result {
        write_numbered(f, unreachable4_name(self.0), u16::from(u8::from(self.0)))
    }
}

fn unreachable4_name(named: Icmpv4DstUnreachable) -> &'static str
    ensures { result.now ≡ unreachable4_name named }
{
    match named {
        Icmpv4DstUnreachable::NetUnreachable => "net",
        Icmpv4DstUnreachable::HostUnreachable => "host",
        Icmpv4DstUnreachable::ProtoUnreachable => "protocol",
        Icmpv4DstUnreachable::PortUnreachable => "port",
        Icmpv4DstUnreachable::FragRequired => "fragmentation needed",
        Icmpv4DstUnreachable::SrcRouteFailed => "source route failed",
        Icmpv4DstUnreachable::DstNetUnknown => "net unknown",
        Icmpv4DstUnreachable::DstHostUnknown => "host unknown",
        Icmpv4DstUnreachable::SrcHostIsolated => "source isolated",
        Icmpv4DstUnreachable::NetProhibited => "net prohibited",
        Icmpv4DstUnreachable::HostProhibited => "host prohibited",
        Icmpv4DstUnreachable::NetUnreachToS => "net for this service",
        Icmpv4DstUnreachable::HostUnreachToS => "host for this service",
        Icmpv4DstUnreachable::CommProhibited => "filtered",
        Icmpv4DstUnreachable::HostPrecedViol => "precedence violation",
        Icmpv4DstUnreachable::PrecedCutoff => "precedence cutoff",
        Icmpv4DstUnreachable::Unknown(_) => "code",
    }
}

/// Prints which time was exceeded (RFC 792): its name, and in brackets its number.
#[derive(Clone, Copy)]
pub struct Exceeded4Text(pub Icmpv4TimeExceeded);

impl fmt::Display for Exceeded4Text {
    ghost output = { λ x. Some (exceeded4_text x.0) };

    fn fmt<W: fmt::Write>(&self, f: &mut fmt::Formatter<W>) -> fmt::Result {
        write_numbered(f, exceeded4_name(self.0), u16::from(u8::from(self.0)))
    }
}

fn exceeded4_name(named: Icmpv4TimeExceeded) -> &'static str
    ensures { result.now ≡ exceeded4_name named }
{
    match named {
        Icmpv4TimeExceeded::TtlExpired => "time to live",
        Icmpv4TimeExceeded::FragExpired => "reassembly",
        Icmpv4TimeExceeded::Unknown(_) => "code",
    }
}

/// Prints why an IPv6 packet didn't reach its destination (RFC 4443, section 3.1): its name, and in brackets its number.
#[derive(Clone, Copy)]
pub struct Unreachable6Text(pub Icmpv6DstUnreachable);

impl fmt::Display for Unreachable6Text {
    ghost output = { λ x. Some (unreachable6_text x.0) };

    fn fmt<W: fmt::Write>(&self, f: &mut fmt::Formatter<W>) -> fmt::Result {
        write_numbered(f, unreachable6_name(self.0), u16::from(u8::from(self.0)))
    }
}

fn unreachable6_name(named: Icmpv6DstUnreachable) -> &'static str
    ensures { result.now ≡ unreachable6_name named }
{
    match named {
        Icmpv6DstUnreachable::NoRoute => "no route",
        Icmpv6DstUnreachable::AdminProhibit => "prohibited",
        Icmpv6DstUnreachable::BeyondScope => "beyond scope",
        Icmpv6DstUnreachable::AddrUnreachable => "address",
        Icmpv6DstUnreachable::PortUnreachable => "port",
        Icmpv6DstUnreachable::FailedPolicy => "failed policy",
        Icmpv6DstUnreachable::RejectRoute => "rejected route",
        Icmpv6DstUnreachable::Unknown(_) => "code",
    }
}

/// Prints which limit was exceeded (RFC 4443, section 3.3): its name, and in brackets its number.
#[derive(Clone, Copy)]
pub struct Exceeded6Text(pub Icmpv6TimeExceeded);

impl fmt::Display for Exceeded6Text {
    ghost output = { λ x. Some (exceeded6_text x.0) };

    fn fmt<W: fmt::Write>(&self, f: &mut fmt::Formatter<W>) -> fmt::Result {
        write_numbered(f, exceeded6_name(self.0), u16::from(u8::from(self.0)))
    }
}

fn exceeded6_name(named: Icmpv6TimeExceeded) -> &'static str
    ensures { result.now ≡ exceeded6_name named }
{
    match named {
        Icmpv6TimeExceeded::HopLimitExceeded => "hop limit",
        Icmpv6TimeExceeded::FragReassemExceeded => "reassembly",
        Icmpv6TimeExceeded::Unknown(_) => "code",
    }
}

/// Prints what was wrong with a packet (RFC 4443, section 3.4): its name, and in brackets its number.
#[derive(Clone, Copy)]
pub struct ProblemText(pub Icmpv6ParamProblem);

impl fmt::Display for ProblemText {
    ghost output = { λ x. Some (problem_text x.0) };

    fn fmt<W: fmt::Write>(&self, f: &mut fmt::Formatter<W>) -> fmt::Result {
        write_numbered(f, problem_name(self.0), u16::from(u8::from(self.0)))
    }
}

fn problem_name(named: Icmpv6ParamProblem) -> &'static str
    ensures { result.now ≡ problem_name named }
{
    match named {
        Icmpv6ParamProblem::ErroneousHdrField => "header field",
        Icmpv6ParamProblem::UnrecognizedNxtHdr => "next header",
        Icmpv6ParamProblem::UnrecognizedOption => "option",
        Icmpv6ParamProblem::Unknown(_) => "code",
    }
}

/// Prints what an Ethernet frame carries: a name, or the number.
#[derive(Clone, Copy)]
pub struct EtherText(pub EthernetProtocol);

impl fmt::Display for EtherText {
    ghost output = { λ x. Some (ether_text x.0) };

    fn fmt<W: fmt::Write>(&self, f: &mut fmt::Formatter<W>) -> fmt::Result {
        match self.0 {
            EthernetProtocol::Ipv4 => f.write("IPv4"),
            EthernetProtocol::Arp => f.write("ARP"),
            EthernetProtocol::Ipv6 => f.write("IPv6"),
            EthernetProtocol::Unknown(number) => write_value(f, "type ", number),
        }
    }
}
