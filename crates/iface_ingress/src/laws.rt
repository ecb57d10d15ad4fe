//! What follows from the definitions, for whoever reasons about hosts.
ghost use Rattle.std.specs.Prelude.{◌≡◌, ℕ, List, Option, Some, None};
ghost use Rattle.ip_wire.specs.IpAddress.TheVariants as Address;
ghost use Rattle.ip_wire.specs.IpProtocol.TheVariants as Protocol;
ghost use Rattle.ip_wire.specs.IpRepr.TheVariants as Either;
ghost use Rattle.ip_wire.specs.Ipv4Fragment.{Ipv4Fragment};
ghost use Rattle.ip_wire.specs.Ipv4Repr.{Ipv4Repr};
ghost use Rattle.ip_wire.specs.Ipv6Repr.{Ipv6Repr};
ghost use Rattle.ip_wire.specs.declared.arp.repr.ArpRepr.{ArpRepr};
ghost use Rattle.ip_wire.specs.declared.ethernet.repr.EthernetRepr.{EthernetRepr};
ghost use Rattle.iface_ingress.specs.Incoming.{IncomingValue, Arp, Ip4, Ip6};
ghost use Rattle.iface_egress.specs.Inner.{InnerValue};
ghost use Rattle.iface_ingress.specs.Arrives.{Arrived, Arrives, ArrivesAs, Brings};
ghost use Rattle.iface_ingress.specs.Delivered.{Slots};
ghost use Rattle.iface_ingress.specs.FragmentStored.{with_ports, HaveNoPorts, IsNoFragmentV6, IsDamaged, HasSameSettings, RenewsOnly, LearnsOnly};
ghost use Rattle.iface_ingress.specs.Reassembled.{Assemblers};

/// Law: a whole packet of protocol TCP whose payload is no segment leaves every TCP and UDP socket as it was, and isn't answered.
pub fn damaged_segment()
    ensures ipv4 { (i : InnerValue) (slots : Slots) (link : Option EthernetRepr) (header : Ipv4Repr) (fragment : Ipv4Fragment) (payload : List ℕ) (a : Arrived)
        → Brings i slots (Some (Ip4 link header fragment payload)) a
        → IsDamaged i.checksums (Either.Ipv4 header) payload
        → (with_ports a.slots ≡ with_ports slots) × (a.reply ≡ None) }
    ensures ipv6 { (i : InnerValue) (slots : Slots) (link : Option EthernetRepr) (header : Ipv6Repr) (payload : List ℕ) (a : Arrived)
        → Brings i slots (Some (Ip6 link header payload)) a
        → IsDamaged i.checksums (Either.Ipv6 header) payload
        → (with_ports a.slots ≡ with_ports slots) × (a.reply ≡ None) }
{}

/// Law: an ARP packet, and an IP packet that carries neither TCP nor UDP, leave every TCP and UDP socket as it was; so does a
/// fragment of such an IPv4 packet, whatever it completes.
pub fn other_protocols()
    ensures whole { (i : InnerValue) (slots : Slots) (content : Option IncomingValue) (a : Arrived)
        → Brings i slots content a → HaveNoPorts content → with_ports a.slots ≡ with_ports slots }
    ensures any { (i : InnerValue) (timeout : ℕ) (assemblers : Assemblers) (slots : Slots) (content : Option IncomingValue) (after : Assemblers) (a : Arrived)
        → ArrivesAs i timeout assemblers slots content after a → HaveNoPorts content → IsNoFragmentV6 content
        → with_ports a.slots ≡ with_ports slots }
{}

/// Law: what arrives changes of a host, alongside its sockets and slots, its neighbours and its random words alone.
pub fn same_settings()
    ensures { (i : InnerValue) (slots : Slots) (content : Option IncomingValue) (a : Arrived)
        → Brings i slots content a → HasSameSettings i a.inner }
{}

/// Law: of its neighbours a host believes again the sender of an IP packet alone, and that only where the frame came from the
/// hardware address that is known; from an ARP packet it learns its sender's. What neighbour messages do stands alongside them.
pub fn refreshes()
    ensures ipv4 { (i : InnerValue) (slots : Slots) (link : Option EthernetRepr) (header : Ipv4Repr) (fragment : Ipv4Fragment) (payload : List ℕ) (a : Arrived)
        → Brings i slots (Some (Ip4 link header fragment payload)) a
        → RenewsOnly i link (Address.Ipv4 header.src_addr) a.inner.neighbors }
    ensures ipv6 { (i : InnerValue) (slots : Slots) (link : Option EthernetRepr) (header : Ipv6Repr) (payload : List ℕ) (a : Arrived)
        → Brings i slots (Some (Ip6 link header payload)) a
        → (header.next_header ≡ Protocol.Icmpv6 → ⊥)
        → RenewsOnly i link (Address.Ipv6 header.src_addr) a.inner.neighbors }
    ensures arp { (i : InnerValue) (slots : Slots) (link : EthernetRepr) (packet : ArpRepr) (a : Arrived)
        → Brings i slots (Some (Arp link packet)) a
        → LearnsOnly i packet a.inner }
{}

/// Law: what a frame brings is determined: host, sockets, slots and reply.
pub fn one_arrival()
    ensures content { (i : InnerValue) (timeout : ℕ) (assemblers : Assemblers) (slots : Slots) (content : Option IncomingValue) (s t : Assemblers) (a b : Arrived)
        → ArrivesAs i timeout assemblers slots content s a
        → ArrivesAs i timeout assemblers slots content t b
        → (s ≡ t) × (a ≡ b) }
    ensures frame { (i : InnerValue) (timeout : ℕ) (assemblers : Assemblers) (slots : Slots) (frame : List ℕ) (s t : Assemblers) (a b : Arrived)
        → Arrives i timeout assemblers slots frame s a
        → Arrives i timeout assemblers slots frame t b
        → (s ≡ t) × (a ≡ b) }
{}
