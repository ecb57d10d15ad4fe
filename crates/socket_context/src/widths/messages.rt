//! Control messages: each field is a number of its width, since it is of that type.
ghost use Rattle.std.specs.Prelude.{◌≤◌, length};
ghost use Rattle.control_wire.specs.Icmpv4 as Icmpv4;
ghost use Rattle.control_wire.specs.Icmpv6 as Icmpv6;
ghost use Rattle.control_wire.specs.Ndisc as Ndisc;
ghost use Rattle.control_wire.specs.NdiscOption.{link_bytes};
ghost use Rattle.ip_wire.specs.Fields.{IsBytes};
ghost use Rattle.ip_wire.specs.Hardware.{raw_bytes};

use super::headers::{ipv4_widths, ipv6_address_width, ipv6_widths};
use control_wire::laws::{
    icmpv4_exceeded_width, icmpv4_unreachable_width, icmpv6_exceeded_width, icmpv6_problem_width,
    icmpv6_unreachable_width,
};
use control_wire::{Icmpv4Repr, Icmpv6Repr, NdiscRepr};
use ip_wire::RawHardwareAddress;

/// Each field of a control message is a number of its width.
pub(crate) fn icmpv4_widths(message: &Icmpv4Repr<'_>)
    ensures { Icmpv4.IsValue (Icmpv4.header_of message.now) }
{
    match message {
        Icmpv4Repr::EchoRequest { ident, seq_no, .. }
        | Icmpv4Repr::EchoReply { ident, seq_no, .. } => {
            let (_ident, _seq_no) = (*ident, *seq_no);
        }
        Icmpv4Repr::DstUnreachable { reason, header, .. } => {
            icmpv4_unreachable_width(*reason);
            ipv4_widths(*header);
        }
        Icmpv4Repr::TimeExceeded { reason, header, .. } => {
            icmpv4_exceeded_width(*reason);
            ipv4_widths(*header);
        }
    }
}

/// Bytes are numbers of eight bits.
fn bytes_widths(bytes: &[u8])
    ensures { IsBytes bytes.now }
{}

/// A hardware address has at most six bytes.
fn raw_width(link: &RawHardwareAddress)
    ensures short { length (raw_bytes link.now) ≤ 6 }
    ensures bytes { IsBytes (raw_bytes link.now) }
{
    bytes_widths(link.as_bytes());
}

/// A link address has at most six bytes.
fn link_width(link: Option<RawHardwareAddress>)
    ensures { Ndisc.IsLink (link_bytes link) }
{
    if let Some(link) = link {
        raw_width(&link);
    }
}

/// Each field of a neighbour message is a number of its width.
fn ndisc_widths(message: &NdiscRepr)
    ensures { Ndisc.IsValue (Ndisc.neighbor_message message.now) }
{
    match message {
        NdiscRepr::NeighborSolicit {
            target_addr,
            lladdr,
        } => {
            ipv6_address_width(*target_addr);
            link_width(*lladdr);
        }
        NdiscRepr::NeighborAdvert {
            target_addr,
            lladdr,
            ..
        } => {
            ipv6_address_width(*target_addr);
            link_width(*lladdr);
        }
    }
}

/// Each field of a control message is a number of its width, and a neighbour message carries no bytes.
pub(crate) fn icmpv6_widths(message: &Icmpv6Repr<'_>)
    ensures value { Icmpv6.IsValue (Icmpv6.value_of (Icmpv6.header_of message.now)) }
    ensures carried { Icmpv6.CanCarry (Icmpv6.value_of (Icmpv6.header_of message.now)) (Icmpv6.carried_by message.now) }
{
    match message {
        Icmpv6Repr::DstUnreachable { reason, header, .. } => {
            icmpv6_unreachable_width(*reason);
            ipv6_widths(*header);
        }
        Icmpv6Repr::PktTooBig { mtu, header, .. } => {
            let _mtu = *mtu;
            ipv6_widths(*header);
        }
        Icmpv6Repr::TimeExceeded { reason, header, .. } => {
            icmpv6_exceeded_width(*reason);
            ipv6_widths(*header);
        }
        Icmpv6Repr::ParamProblem {
            reason,
            pointer,
            header,
            ..
        } => {
            icmpv6_problem_width(*reason);
            let _pointer = *pointer;
            ipv6_widths(*header);
        }
        Icmpv6Repr::EchoRequest { ident, seq_no, .. } => {
            let (_ident, _seq_no) = (*ident, *seq_no);
        }
        Icmpv6Repr::EchoReply { ident, seq_no, .. } => {
            let (_ident, _seq_no) = (*ident, *seq_no);
        }
        Icmpv6Repr::Ndisc(message) => ndisc_widths(message),
    }
}
