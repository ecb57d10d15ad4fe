//! Neighbour solicitations and advertisements (RFC 4861, sections 4.3 and 4.4).
ghost use Rattle.std.specs.Prelude.{◌≡◌, ℕ, ◌+◌, ◌<◌, ◌≤◌, IsOk, IfOk, List, [], ◌∷◌, ◌++◌, length};
ghost use Rattle.wire_icmpv6.specs.Message.{message_number};
ghost use Rattle.wire_icmpv6.specs.NdiscOption.{link_bytes, link_len, link_option};
ghost use Rattle.wire_icmpv6.specs.Ndisc.{NeighborMessage, neighbor_message, flag_bits, IsNdisc, buffer_len, spelling};
ghost use Rattle.wire_icmpv6.specs.Packet.{bytes_of, bytes_in, name_of};

use crate::field;
use crate::message::Icmpv6Message;
use crate::ndisc_flags::NdiscNeighborFlags;
use crate::ndisc_option::{
    SOURCE_LINK_LAYER_ADDR, TARGET_LINK_LAYER_ADDR, emit_link_layer_addr, link_layer_addr_len,
    parse_link_layer_addr,
};
use crate::packet::Icmpv6Packet;
use crate::packet_mut::Icmpv6PacketMut;
use wire_address::{Error, Ipv6Address, RawHardwareAddress};

/// What a neighbour message says. Options other than the link address are left out.
#[derive(Clone, Copy, Debug, PartialEq, Eq)]
pub enum NdiscRepr {
    /// Asks for the target's link address.
    NeighborSolicit {
        target_addr: Ipv6Address,
        /// The link address of the sender.
        lladdr: Option<RawHardwareAddress>,
    },
    /// Gives the target's link address.
    NeighborAdvert {
        flags: NdiscNeighborFlags,
        target_addr: Ipv6Address,
        /// The link address of the target.
        lladdr: Option<RawHardwareAddress>,
    },
}

impl NdiscRepr {
    /// The neighbour message in the bytes, up to their end. Its checksum isn't looked at.
    pub fn parse(packet: &Icmpv6Packet) -> Result<NdiscRepr, Error>
        ensures found { IfOk result (λ v. IsNdisc (bytes_of packet.now) (neighbor_message v)) }
        ensures only { (v : NeighborMessage)
            → IsNdisc (bytes_of packet.now) v
            → IsOk result × IfOk result (λ r. neighbor_message r ≡ v) }
    {
        packet.check_len()?;
        if packet.msg_code() != 0 {
            return Err(Error);
        }
        match packet.msg_type() {
            Icmpv6Message::NeighborSolicit => Ok(NdiscRepr::NeighborSolicit {
                target_addr: packet.target_addr(),
                lladdr: parse_link_layer_addr(packet.payload(), SOURCE_LINK_LAYER_ADDR)?,
            }),
            Icmpv6Message::NeighborAdvert => Ok(NdiscRepr::NeighborAdvert {
                flags: packet.neighbor_flags(),
                target_addr: packet.target_addr(),
                lladdr: parse_link_layer_addr(packet.payload(), TARGET_LINK_LAYER_ADDR)?,
            }),
            _ => Err(Error),
        }
    }

    /// The length of the message.
    pub fn buffer_len(&self) -> usize
        ensures { result ≡ buffer_len (neighbor_message self.now) }
    {
        match self {
            NdiscRepr::NeighborSolicit { lladdr, .. } | NdiscRepr::NeighborAdvert { lladdr, .. } =>
                { field::TARGET_ADDR.end + link_layer_addr_len(lladdr) }
        }
    }

    /// Writes the message over the whole buffer, with zeros in the place of the checksum.
    pub fn emit(&self, packet: &mut Icmpv6PacketMut)
        requires room { length (bytes_in packet.old)
            ≡ buffer_len (neighbor_message self.now) }
        ensures same_reference { name_of packet.new ≡ name_of packet.old }
        ensures bytes { bytes_in packet.new ≡ spelling (neighbor_message self.now) 0 }
    {
        match self {
            NdiscRepr::NeighborSolicit {
                target_addr,
                lladdr,
            } => {
                let header = header(Icmpv6Message::NeighborSolicit, NdiscNeighborFlags::empty());
                let option_type = SOURCE_LINK_LAYER_ADDR;
                put_message(packet.buffer, &header, &target_addr.0, option_type, lladdr);
            }
            NdiscRepr::NeighborAdvert {
                flags,
                target_addr,
                lladdr,
            } => {
                let header = header(Icmpv6Message::NeighborAdvert, *flags);
                let option_type = TARGET_LINK_LAYER_ADDR;
                put_message(packet.buffer, &header, &target_addr.0, option_type, lladdr);
            }
        }
    }
}

/// The first eight bytes of a message, with zeros for its code, its checksum and what is reserved.
fn header(msg_type: Icmpv6Message, flags: NdiscNeighborFlags) -> [u8; 8]
    ensures { result
        ≡ message_number msg_type ∷ 0 ∷ 0 ∷ 0 ∷ flag_bits flags ∷ 0 ∷ 0 ∷ 0 ∷ [] }
{
    [msg_type.into(), 0, 0, 0, flags.bits(), 0, 0, 0]
}

/// Writes a message: its header, the target, and the option of the link address.
fn put_message(
    bytes: &mut [u8],
    header: &[u8; 8],
    target_addr: &[u8; 16],
    option_type: u8,
    lladdr: &Option<RawHardwareAddress>,
)
    requires { length bytes.old ≡ 24 + link_len (link_bytes lladdr.now) }
    ensures { bytes.new
        ≡ header.now ++ (target_addr.now ++ link_option option_type (link_bytes lladdr.now)) }
{
    let (front, rest) = bytes.split_at_mut(field::HEADER_END);
    front.copy_from_slice(header);
    let (target, option) = rest.split_at_mut(target_addr.len());
    target.copy_from_slice(target_addr);
    emit_link_layer_addr(option, option_type, lladdr);
}
