//! What follows from the definitions of what frames carry.
ghost use Rattle.std.specs.Prelude.{◌≡◌, ◌+◌, ◌%◌, ◌<◌, ◌^◌, ℕ, List, ◌++◌, length, Option, Some};
ghost use Rattle.net_base.specs.Capabilities.{computes};
ghost use Rattle.net_base.specs.ChecksumCapabilities.{ChecksumCapabilities};
ghost use Rattle.ip_wire.specs.Arp as Arps;
ghost use Rattle.ip_wire.specs.declared.arp.repr.ArpRepr.{ArpRepr};
ghost use Rattle.ip_wire.specs.EthernetProtocol.TheVariants as Ether;
ghost use Rattle.ip_wire.specs.declared.ethernet.repr.EthernetRepr.{EthernetRepr};
ghost use Rattle.ip_wire.specs.HardwareAddress.{HardwareAddress};
ghost use Rattle.ip_wire.specs.Ip as Ips;
ghost use Rattle.ip_wire.specs.IpRepr.{IpRepr};
ghost use Rattle.ip_wire.specs.Ipv4 as Ipv4;
ghost use Rattle.ip_wire.specs.Ipv4Fragment.{Ipv4Fragment};
ghost use Rattle.ip_wire.specs.Ipv4Repr.{Ipv4Repr};
ghost use Rattle.sockets.specs.Packet.{PacketValue, PayloadValue, PayloadFits, IsSendable, payload_written};
ghost use Rattle.iface_ingress.specs.Incoming.{IncomingValue, Arp, Ip4, IsContent, IsIncoming, IsMeasured};
ghost use Rattle.iface_ingress.specs.UpperLayer.{IsCarried, IsCarriedContent};
ghost use Rattle.iface_ingress.specs.Upper.{IsBrought};
ghost use Rattle.iface_ingress.specs.Sent.{framed, CanFrame, ether_for, AreSealed, uncut, CanBeRead, normal_payload};
ghost use Rattle.ip_wire.specs.Fields.{IsBytes};

/// Law: what a frame carries is determined.
pub fn one_content()
    ensures { (hardware : HardwareAddress) (caps : ChecksumCapabilities) (frame : List ℕ) (one other : Option IncomingValue)
        → IsContent hardware caps frame one
        → IsContent hardware caps frame other
        → one ≡ other }
{}

/// Law: what stands after a header is determined.
pub fn one_carried()
    ensures { (caps : ChecksumCapabilities) (header : IpRepr) (payload : List ℕ) (one other : Option PayloadValue)
        → IsCarriedContent caps header payload one
        → IsCarriedContent caps header payload other
        → one ≡ other }
{}

/// Law: the payload in a frame is as long as its header says, without options and padding.
pub fn measured()
    ensures { (hardware : HardwareAddress) (caps : ChecksumCapabilities) (frame : List ℕ) (v : IncomingValue)
        → IsBytes frame
        → IsIncoming hardware caps frame v
        → IsMeasured v }
{}

/// Law: a frame that was sent is read as what was sent in it, in its canonical form and whatever
/// padding follows, of which no byte is in the payload. A checksum that the receiver tests has to be written.
pub fn frames_arrive()
    ensures packet { (hardware : HardwareAddress) (sender receiver : ChecksumCapabilities) (link : Option EthernetRepr) (header : IpRepr)
        (payload padding : List ℕ)
        → CanFrame hardware link (ether_for header)
        → Ips.Fits header
        → Ips.IsValue header
        → Ips.payload_len_of header ≡ length payload
        → AreSealed sender receiver
        → IsContent hardware receiver (framed link (Ips.written (computes sender.ipv4) header ++ payload) ++
        padding) (Some (uncut link (Ips.normal header) payload)) }
    ensures fragment { (hardware : HardwareAddress) (sender receiver : ChecksumCapabilities) (link : Option EthernetRepr) (header : Ipv4Repr) (fragment : Ipv4Fragment)
        (payload padding : List ℕ)
        → CanFrame hardware link Ether.Ipv4
        → Ipv4.Fits header
        → Ipv4.IsValue header
        → header.payload_len ≡ length payload
        → fragment.offset < 2 ^ 16
        → fragment.offset % 8 ≡ 0
        → AreSealed sender receiver
        → IsContent hardware receiver (framed link (Ipv4.written_fragment (computes sender.ipv4) header fragment.offset fragment.more ++ payload) ++
        padding) (Some (Ip4 link (Ipv4.normal header) fragment payload)) }
    ensures arp { (hardware : HardwareAddress) (receiver : ChecksumCapabilities) (link : EthernetRepr) (packet : ArpRepr) (padding : List ℕ)
        → CanFrame hardware (Some link) Ether.Arp
        → Arps.IsValue packet
        → IsContent hardware receiver (framed (Some link) (Arps.written packet) ++ padding) (Some (Arp link (Arps.normal packet))) }
{}

/// Law: what was sent after a header is read there in its canonical form.
pub fn payloads_arrive()
    ensures { (sender receiver : ChecksumCapabilities) (header : IpRepr) (v : PayloadValue)
        → PayloadFits header v
        → CanBeRead header v
        → AreSealed sender receiver
        → IsCarriedContent receiver (Ips.normal header) (payload_written sender header v) (Some (normal_payload v)) }
{}

/// Law: a packet that can be sent is read in its frame, and what it carries after its headers,
/// whatever padding follows: no byte of the padding is in either.
pub fn packets_arrive()
    ensures { (hardware : HardwareAddress) (sender receiver : ChecksumCapabilities) (link : Option EthernetRepr) (p : PacketValue) (padding : List ℕ)
        → CanFrame hardware link (ether_for p.header)
        → IsSendable p
        → Ips.IsValue p.header
        → CanBeRead p.header p.payload
        → AreSealed sender receiver
        → IsContent hardware receiver
        (framed link (Ips.written (computes sender.ipv4) p.header ++ payload_written sender p.header p.payload) ++ padding)
        (Some (uncut link (Ips.normal p.header) (payload_written sender p.header p.payload)))
        × IsBrought receiver (Ips.normal p.header) (payload_written sender p.header p.payload) (Some (normal_payload p.payload)) }
{}
