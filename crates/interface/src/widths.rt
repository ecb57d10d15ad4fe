//! What the types of a lent segment or datagram say of its numbers: each has the width of its field. No packet is made for it.
ghost use Rattle.std.specs.Prelude.{◌<◌, ◌^◌};
ghost use Rattle.ip_wire.specs.Address.{IsIpv4Address};
ghost use Rattle.ip_wire.specs.Fields.{IsNumber};
ghost use Rattle.ip_wire.specs.Ip as Ips;
ghost use Rattle.ip_wire.specs.Ipv4 as Ipv4;
ghost use Rattle.ip_wire.specs.Options.{AreOptions, AreRanges, IsRange, IsStamp};
ghost use Rattle.ip_wire.specs.Protocol.{protocol_number};
ghost use Rattle.ip_wire.specs.Tcp.{IsAck};
ghost use Rattle.iface_egress.specs.FastPath.{segment_in, datagram_in, direct_packet};
ghost use Rattle.iface_ingress.specs.WellFormed.{AreFields, ArePorts, HasWidths};

use iface_egress::{Direct, LentDatagram, LentSegment};
use ip_wire::{
    IpProtocol, Ipv4Address, Ipv4Repr, SeqNumber, TcpHeader, TcpOptions, TcpTimestampRepr, UdpRepr,
    laws as wire_laws,
};

/// Law: each field of a lent segment is a number of its width, since it is of that type. A caller that holds the segment calls this,
/// which does nothing.
pub(crate) fn segment_has_widths(segment: &Direct<'_, LentSegment<'_>>)
    ensures header { Ips.IsValue (direct_packet segment_in segment.now).header }
    ensures payload { HasWidths (direct_packet segment_in segment.now).payload }
{
    ipv4_widths(*segment.header);
    tcp_widths(*segment.carried.header);
}

/// Law: the same of a lent datagram.
pub(crate) fn datagram_has_widths(datagram: &Direct<'_, LentDatagram<'_>>)
    ensures header { Ips.IsValue (direct_packet datagram_in datagram.now).header }
    ensures payload { HasWidths (direct_packet datagram_in datagram.now).payload }
{
    ipv4_widths(*datagram.header);
    ports_widths(datagram.carried.header);
}

/// A protocol has a number of eight bits.
fn protocol_width(protocol: IpProtocol)
    ensures { protocol_number protocol < 256 }
{
    wire_laws::protocol_width(protocol);
}

/// An IPv4 address has four bytes.
fn address_width(address: Ipv4Address)
    ensures { IsIpv4Address address }
{}

/// Each field of an IPv4 header is a number of its width.
fn ipv4_widths(header: Ipv4Repr)
    ensures { Ipv4.IsValue header }
{
    protocol_width(header.next_header);
    address_width(header.src_addr);
    address_width(header.dst_addr);
}

/// The ends of a range are numbers of 32 bits.
fn range_widths(range: Option<(u32, u32)>)
    ensures { IsRange range }
{
    match range {
        Some((first, end)) => {
            let (_first, _end) = (first, end);
        }
        None => {}
    }
}

/// Both ports are numbers of 16 bits.
fn ports_widths(header: UdpRepr)
    ensures { ArePorts header }
{
    let (_source, _destination) = (header.src_port, header.dst_port);
}

/// There are three ranges.
fn ranges_widths(ranges: [Option<(u32, u32)>; 3])
    ensures { AreRanges ranges }
{
    let [a, b, c] = ranges;
    range_widths(a);
    range_widths(b);
    range_widths(c);
}

/// Both timestamps are numbers of 32 bits.
fn stamp_widths(stamp: Option<TcpTimestampRepr>)
    ensures { IsStamp stamp }
{
    if let Some(stamp) = stamp {
        let (_tsval, _tsecr) = (stamp.tsval, stamp.tsecr);
    }
}

/// A size is a number of 16 bits.
fn size_width(size: Option<u16>)
    ensures { IsNumber (2 ^ 16) size }
{
    if let Some(size) = size {
        let _size = size;
    }
}

/// A scale is a number of eight bits.
fn scale_width(scale: Option<u8>)
    ensures { IsNumber 256 scale }
{
    if let Some(scale) = scale {
        let _scale = scale;
    }
}

/// An acknowledgement is a number of 32 bits.
fn ack_width(ack: Option<SeqNumber>)
    ensures { IsAck ack }
{
    if let Some(ack) = ack {
        let _ack = ack.0;
    }
}

/// Each option is a number of its width.
fn options_widths(options: TcpOptions)
    ensures { AreOptions options }
{
    size_width(options.max_seg_size);
    scale_width(options.window_scale);
    ranges_widths(options.sack_ranges);
    stamp_widths(options.timestamp);
}

/// Each field of a segment's header is a number of its width.
fn tcp_widths(header: TcpHeader)
    ensures { AreFields header }
{
    ack_width(header.ack_number);
    options_widths(header.options);
}
