//! What this crate re-exports stands under the name of its own format; a protocol has a number of eight bits.
ghost use Rattle.std.specs.Prelude.{◌≡◌, ◌<◌};
ghost use Rattle.wire_address.specs.Protocol.{protocol_number};

use crate::arp_field::OPER;
use crate::ethernet_field::ETHERTYPE;
use crate::ipv4_field::TTL;
use crate::ipv6_field::HOP_LIMIT;
use crate::ipv6_fragment_field::FR_OF_M;
use crate::tcp_field::SEQ_NUM;
use crate::udp_field::CHECKSUM;
use crate::{
    ETHERNET_HEADER_LEN, IPV4_HEADER_LEN, IPV6_FRAGMENT_HEADER_LEN, IPV6_HEADER_LEN, IpProtocol,
    TCP_HEADER_LEN, UDP_HEADER_LEN,
};

/// Law: of each module of fields, a field that has this name and offset in no other format.
pub fn fields_are_passed_on()
    ensures ethernet { ETHERTYPE ≡ record { start = 12; end = 14 } }
    ensures arp { OPER ≡ record { start = 6; end = 8 } }
    ensures ipv4 { TTL ≡ 8 }
    ensures ipv6 { HOP_LIMIT ≡ 7 }
    ensures ipv6_fragment { FR_OF_M ≡ record { start = 0; end = 2 } }
    ensures udp { CHECKSUM ≡ record { start = 6; end = 8 } }
    ensures tcp { SEQ_NUM ≡ record { start = 4; end = 8 } }
{}

/// Law: the lengths of headers without options.
pub fn header_lengths()
    ensures ethernet { ETHERNET_HEADER_LEN ≡ 14 }
    ensures ipv4 { IPV4_HEADER_LEN ≡ 20 }
    ensures ipv6 { IPV6_HEADER_LEN ≡ 40 }
    ensures ipv6_fragment { IPV6_FRAGMENT_HEADER_LEN ≡ 6 }
    ensures udp { UDP_HEADER_LEN ≡ 8 }
    ensures tcp { TCP_HEADER_LEN ≡ 20 }
{}

/// Law: a protocol has a number of eight bits.
pub fn protocol_width(protocol: IpProtocol)
    ensures { protocol_number protocol < 256 }
{
    let _number = u8::from(protocol);
}
