//! What announcements are for.
ghost use Rattle.std.specs.Prelude.{◌≡◌, true};
ghost use Rattle.ip_wire.specs.Address.{IsEthernetAddress};
ghost use Rattle.ip_wire.specs.AddressTests.{is_ethernet_unicast, is_unicast_v4, is_unicast_v6};
ghost use Rattle.ip_wire.specs.EthernetAddress.{EthernetAddress};
ghost use Rattle.ip_wire.specs.HardwareAddress.TheVariants as Hardware;
ghost use Rattle.ip_wire.specs.IpAddress.TheVariants as Address;
ghost use Rattle.ip_wire.specs.Ipv4Address.{Ipv4Address};
ghost use Rattle.ip_wire.specs.Ipv6Address.{Ipv6Address};
ghost use Rattle.iface_egress.specs.Announcement.{unsolicited_header, unsolicited_message};
ghost use Rattle.iface_egress.specs.Departure.{arp_request};
ghost use Rattle.iface_egress.specs.Inner.{InnerValue, is_on_local_network, with_neighbor};
ghost use Rattle.iface_ingress.specs.Acquaintance.{knows};
ghost use Rattle.iface_ingress.specs.Arp.{arp_arrived};
ghost use Rattle.iface_ingress.specs.Ndisc.{neighbor_learned};

/// Law: a neighbour that knows an address takes the hardware address that an announcement tells of it, in place of the one that it knew.
pub fn announcements_are_heard()
    ensures ipv4 { (i : InnerValue) (local : EthernetAddress) (a : Ipv4Address)
        → knows i (Address.Ipv4 a) ≡ true
        → is_on_local_network i (Address.Ipv4 a) ≡ true
        → is_unicast_v4 a ≡ true
        → is_ethernet_unicast local ≡ true
        → arp_arrived i (arp_request local a a) ≡ with_neighbor i (Address.Ipv4 a) (Hardware.Ethernet local) }
    ensures ipv6 { (i : InnerValue) (local other : EthernetAddress) (a : Ipv6Address)
        → i.hardware ≡ Hardware.Ethernet other
        → knows i (Address.Ipv6 a) ≡ true
        → is_unicast_v6 a ≡ true
        → is_ethernet_unicast local ≡ true
        → IsEthernetAddress local
        → (neighbor_learned i (unsolicited_header a) (unsolicited_message local a)).inner ≡ with_neighbor i (Address.Ipv6 a) (Hardware.Ethernet local) }
{}
