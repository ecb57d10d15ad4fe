//! Headers: each field is a number of its width, since it is of that type.
ghost use Rattle.std.specs.Prelude.{◌<◌, ◌^◌};
ghost use Rattle.ip_wire.specs.Address.{IsIpv4Address, IsIpv6Address};
ghost use Rattle.ip_wire.specs.Ip as Ips;
ghost use Rattle.ip_wire.specs.Ipv4 as Ipv4;
ghost use Rattle.ip_wire.specs.Ipv6 as Ipv6;
ghost use Rattle.ip_wire.specs.Fields.{IsNumber};
ghost use Rattle.ip_wire.specs.Options.{AreOptions, AreRanges, IsRange, IsStamp};
ghost use Rattle.ip_wire.specs.Protocol.{protocol_number};
ghost use Rattle.ip_wire.specs.Tcp.{IsAck};
ghost use Rattle.socket_context.specs.WellFormed.{AreFields, ArePorts};

use ip_wire::{
    IpProtocol, IpRepr, Ipv4Address, Ipv4Repr, Ipv6Address, Ipv6Repr, SeqNumber, TcpHeader,
    TcpOptions, TcpTimestampRepr, UdpRepr, laws as wire_laws,
};

/// A protocol has a number of eight bits.
fn protocol_width(protocol: IpProtocol)
    ensures { protocol_number protocol < 256 }
{
    wire_laws::protocol_width(protocol);
}

/// An IPv4 address has four bytes.
fn ipv4_address_width(address: Ipv4Address)
    ensures { IsIpv4Address address }
{}

/// An IPv6 address has sixteen bytes.
pub(crate) fn ipv6_address_width(address: Ipv6Address)
    ensures { IsIpv6Address address }
{}

/// Each field of an IPv4 header is a number of its width.
pub(crate) fn ipv4_widths(header: Ipv4Repr)
    ensures { Ipv4.IsValue header }
{
    protocol_width(header.next_header);
    ipv4_address_width(header.src_addr);
    ipv4_address_width(header.dst_addr);
}

/// Each field of an IPv6 header is a number of its width.
pub(crate) fn ipv6_widths(header: Ipv6Repr)
    ensures { Ipv6.IsValue header }
{
    protocol_width(header.next_header);
    ipv6_address_width(header.src_addr);
    ipv6_address_width(header.dst_addr);
}

/// Each field of an IP header is a number of its width.
pub(crate) fn ip_widths(header: IpRepr)
    ensures { Ips.IsValue header }
{
    match header {
        IpRepr::Ipv4(header) => ipv4_widths(header),
        IpRepr::Ipv6(header) => ipv6_widths(header),
    }
}

/// Both ports are numbers of 16 bits.
pub(crate) fn udp_widths(header: UdpRepr)
    ensures { ArePorts header }
{}

/// The ends of a range are numbers of 32 bits.
fn range_widths(range: Option<(u32, u32)>)
    ensures { IsRange range }
{
    match range {
        Some((first, end)) => {
            let (_first, _end) = (first, end);
        }
        None => {}
    }
}

/// There are three ranges.
fn ranges_widths(ranges: [Option<(u32, u32)>; 3])
    ensures { AreRanges ranges }
{
    let [a, b, c] = ranges;
    range_widths(a);
    range_widths(b);
    range_widths(c);
}

/// Both timestamps are numbers of 32 bits.
fn stamp_widths(stamp: Option<TcpTimestampRepr>)
    ensures { IsStamp stamp }
{
    if let Some(stamp) = stamp {
        let (_tsval, _tsecr) = (stamp.tsval, stamp.tsecr);
    }
}

/// A size is a number of 16 bits.
fn size_width(size: Option<u16>)
    ensures { IsNumber (2 ^ 16) size }
{
    if let Some(size) = size {
        let _size = size;
    }
}

/// A scale is a number of eight bits.
fn scale_width(scale: Option<u8>)
    ensures { IsNumber 256 scale }
{
    if let Some(scale) = scale {
        let _scale = scale;
    }
}

/// An acknowledgement is a number of 32 bits.
fn ack_width(ack: Option<SeqNumber>)
    ensures { IsAck ack }
{
    if let Some(ack) = ack {
        let _ack = ack.0;
    }
}

/// Each option is a number of its width.
fn options_widths(options: TcpOptions)
    ensures { AreOptions options }
{
    size_width(options.max_seg_size);
    scale_width(options.window_scale);
    ranges_widths(options.sack_ranges);
    stamp_widths(options.timestamp);
}

/// Each field of a segment's header is a number of its width.
pub(crate) fn tcp_widths(header: TcpHeader)
    ensures { AreFields header }
{
    ack_width(header.ack_number);
    options_widths(header.options);
}
