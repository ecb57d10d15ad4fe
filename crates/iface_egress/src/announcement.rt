//! What tells neighbours the hardware address of a local address.
ghost use Rattle.std.specs.Prelude.{◌≡◌, ◌+◌, ◌<◌, ◌^◌};
ghost use Rattle.ip_wire.specs.HardwareAddress.TheVariants as Hardware;
ghost use Rattle.socket_context.specs.Packet.{packet_value, IsSendable};
ghost use Rattle.iface_egress.specs.Emits.{Emits};
ghost use Rattle.iface_egress.specs.Announcement.{announcement, unsolicited};
ghost use Rattle.iface_egress.specs.Departure.{frame_from, len_from};

use crate::fill::send;
use crate::frame::{ArpFrame, Whole, arp_request};
use control_wire::{Icmpv6Repr, NdiscNeighborFlags, NdiscRepr};
use ip_wire::{
    EthernetAddress, HardwareAddress, IPV6_LINK_LOCAL_ALL_NODES, IpAddress, IpProtocol, IpRepr,
    Ipv6Address, Ipv6Repr, RawHardwareAddress,
};
use net_base::{ChecksumCapabilities, Device};
use socket_context::{IpPayload, Packet};

/// The Ethernet address of the group of all nodes.
const ALL_NODES_HARDWARE_ADDR: EthernetAddress = EthernetAddress([0x33, 0x33, 0, 0, 0, 1]);

/// Tells all neighbours that this address has this hardware address: by an ARP request of the address for itself, or by an unsolicited
/// advertisement, which overrides what they know. Says whether the device took it.
pub fn announce<D: Device>(
    device: &mut D,
    token: D::TxToken,
    local: &EthernetAddress,
    address: &IpAddress,
    checksums: &ChecksumCapabilities,
) -> bool
    requires room { D.refused device.old + 1 < 2 ^ 64 }
    ensures emits { Emits D.moves device.old (frame_from (Hardware.Ethernet local.now) checksums.now (announcement local.now address.now))
        (len_from (Hardware.Ethernet local.now) (announcement local.now address.now)) result device.new }
    ensures capabilities { D.described device.new ≡ D.described device.old }
{
    match address {
        IpAddress::Ipv4(address) => {
            let packet = arp_request(local, address, address);
            send(device, token, &ArpFrame { packet })
        }
        IpAddress::Ipv6(address) => {
            let packet = unsolicited(local, address);
            let header = packet.ip_repr();
            let frame = Whole {
                from: HardwareAddress::Ethernet(*local),
                to: HardwareAddress::Ethernet(ALL_NODES_HARDWARE_ADDR),
                header: &header,
                payload: packet.payload(),
                checksums: *checksums,
            };
            send(device, token, &frame)
        }
    }
}

/// The unsolicited advertisement of an address.
fn unsolicited(local: &EthernetAddress, address: &Ipv6Address) -> Packet<'static>
    ensures value { packet_value result ≡ unsolicited local.now address.now }
    ensures fits { IsSendable (packet_value result) }
{
    let header = Ipv6Repr {
        src_addr: *address,
        dst_addr: IPV6_LINK_LOCAL_ALL_NODES,
        next_header: IpProtocol::Icmpv6,
        payload_len: 32,
        hop_limit: 255,
    };
    let message = NdiscRepr::NeighborAdvert {
        flags: NdiscNeighborFlags::OVERRIDE,
        target_addr: *address,
        lladdr: Some(RawHardwareAddress::from(*local)),
    };
    Packet::new(
        IpRepr::Ipv6(header),
        IpPayload::Icmpv6(Icmpv6Repr::Ndisc(message)),
    )
}
