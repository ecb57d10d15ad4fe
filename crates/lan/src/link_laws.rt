//! What the link hands over was made by the other host, or by the host itself.
ghost use Rattle.std.specs.Prelude.{◌≡◌, ◌+◌, ◌%◌, ◌*◌, ◌≤◌, ℕ, ℤ, Bool, false, List, ◌∷◌, ◌++◌, Option, Some, is_some};
ghost use Rattle.sim_link.specs.Medium.{Medium};
ghost use Rattle.iface_ingress.specs.HardwareAddress.{HardwareAddress};
ghost use Rattle.interface.specs.IpRepr.TheVariants as Ip;
ghost use Rattle.interface.specs.Ipv4Repr.{Ipv4Repr};
ghost use Rattle.iface_ingress.specs.ArpRepr.{ArpRepr};
ghost use Rattle.sockets.specs.Packet.{PacketValue};
ghost use Rattle.lan.specs.Worlds.AtLink.Inner.{InnerValue};
ghost use Rattle.lan.specs.Worlds.AtLink.Assemblers.{without_expired};
ghost use Rattle.lan.specs.Worlds.AtLink.Departure.{Tells};
ghost use Rattle.lan.specs.Worlds.AtLink.Fragments.{LeftValue};
ghost use Rattle.lan.specs.Worlds.AtLink.IsTransmitted.{IsTransmitted, FragmentIsTransmitted, Departs};
ghost use Rattle.lan.specs.Worlds.AtLink.Plan.{plan_of};
ghost use Rattle.lan.specs.Worlds.AtLink.Sent.{Sent};
ghost use Rattle.lan.specs.Worlds.AtLink.Arrives.{Arrived, ArrivesAs, Brings, whole_arrived};
ghost use Rattle.lan.specs.Worlds.AtLink.Delivered.{Slots};
ghost use Rattle.lan.specs.Worlds.AtLink.Incoming.{IncomingValue, IsContent};
ghost use Rattle.lan.specs.Worlds.AtLink.Reassembled.{Assemblers};
ghost use Rattle.sim_link.specs.PacketInFrame.{names_tcp_or_udp};
ghost use Rattle.sim_link.specs.Cuts.{ipv4_part, first_fragment, second_fragment};
ghost use Rattle.sim_link.specs.Parts.{tcp_part, damaged};
ghost use Rattle.sim_link.specs.declared.part.Part.{Part};
ghost use Rattle.lan.specs.Worlds.AtLink.History.{Entry};
ghost use Rattle.lan.specs.Worlds.AtLink.Kinds.{kind_of};
ghost use Rattle.lan.specs.Worlds.AtLink.Kinds.Act.{Polls};
ghost use Rattle.lan.specs.Worlds.AtLink.Kinds.Kind.{OfHost};
ghost use Rattle.lan.specs.Worlds.AtLink.Side.{Side};
ghost use Rattle.lan.specs.Worlds.AtLink.Port.{PortValue, PortMove};
ghost use Rattle.lan.specs.Worlds.AtLink.Origins.{medium_of};
ghost use Rattle.interface.specs.Used.{sockets_in};
ghost use Rattle.lan.specs.Worlds.AtLink.Runs.{Leads, table_in};
ghost use Rattle.lan.specs.Worlds.AtLink.Node.{Nodes, node};
ghost use Rattle.lan.specs.Worlds.Link.Made.{Addressed, IsIn, BringsMade, IsGoing};
ghost use Rattle.lan.specs.Worlds.Link.Frames.{Outgoing, medium_on, IsAmong, IsNumbered, BringsFrom, AreOut};
ghost use Rattle.lan.specs.Worlds.Link.Numbers.{AreNumbered, AreFew, IsTied, count_numbered};
ghost use Rattle.lan.specs.Worlds.Link.Sides.{AreSent, IsHostFrame, IsDamage, IsReceiver, IsSender, IsNode, IsBetweenNodes, WasSentOut};

/// Law: what the link hands over to a host brings to its TCP and UDP sockets what the other host made, or a fragment of what it sent, at
/// its slot: a frame that the host sent, with any padding; one of which a word of its segment was exchanged for one of another sum, which
/// brings no segment; a fragment that the link made of one; bytes that name neither TCP nor UDP.
pub fn frames_bring_what_was_made()
    ensures sent { (made : List Addressed) (hardware : HardwareAddress) (out : List Outgoing) (frame padding : List ℕ)
        → AreOut (IsIn made) out
        → IsHostFrame (medium_on hardware) out frame
        → BringsFrom (IsIn made) out hardware (frame ++ padding) }
    ensures cut { (medium : Medium) (out : List Outgoing) (frame : List ℕ) (part : Part) (at : ℕ)
        → IsHostFrame medium out frame
        → ipv4_part medium frame ≡ Some part
        → at ≤ part.len
        → at % 8 ≡ 0
        → IsHostFrame medium out (first_fragment medium frame at) × IsHostFrame medium out (second_fragment medium frame at) }
    ensures damaged { (made : List Addressed) (hardware : HardwareAddress) (out : List Outgoing) (frame padding : List ℕ) (part : Part) (slot word : ℕ)
        → AreOut (IsIn made) out
        → IsHostFrame (medium_on hardware) out frame
        → tcp_part (medium_on hardware) frame ≡ Some part
        → IsDamage frame part slot word
        → BringsFrom (IsIn made) out hardware (damaged frame part slot word ++ padding) }
    ensures noise { (made : List Addressed) (hardware : HardwareAddress) (out : List Outgoing) (bytes : List ℕ)
        → names_tcp_or_udp (medium_on hardware) bytes ≡ false
        → BringsFrom (IsIn made) out hardware bytes }
{}

/// Law: a host to which such frames are handed over takes one, and what it brings, whole or reassembled of fragments, was made. What is
/// reassembled is one packet's payload, since the other host gave each packet of IPv4, and each of IPv6 that it cut, a number of its own. The
/// host stays one of which this can be said.
pub fn what_is_taken_was_made()
    ensures brings { (made : List Addressed) (first next : ℕ) (out : List Outgoing) (i : InnerValue) (timeout : ℕ) (assemblers : Assemblers) (frame : List ℕ)
        (rest : List (List ℕ)) (content : Option IncomingValue)
        → AreSent (IsIn made) first next out
        → AreFew out
        → IsReceiver (IsIn made) out i assemblers (frame ∷ rest)
        → IsContent i.hardware i.checksums frame content
        → BringsMade (IsIn made) (whole_arrived i timeout assemblers content) }
    ensures keeps { (made : List Addressed) (first next : ℕ) (out : List Outgoing) (i : InnerValue) (timeout : ℕ) (assemblers assemblers' : Assemblers) (slots : Slots)
        (frame : List ℕ) (rest : List (List ℕ)) (content : Option IncomingValue) (a : Arrived)
        → AreSent (IsIn made) first next out
        → AreFew out
        → IsReceiver (IsIn made) out i assemblers (frame ∷ rest)
        → IsContent i.hardware i.checksums frame content
        → ArrivesAs i timeout assemblers slots content assemblers' a
        → IsReceiver (IsIn made) out a.inner assemblers' rest }
    ensures expires { (made : List Addressed) (out : List Outgoing) (i : InnerValue) (assemblers : Assemblers) (waiting : List (List ℕ)) (instant : ℤ)
        → IsReceiver (IsIn made) out i assemblers waiting
        → IsReceiver (IsIn made) out i (without_expired assemblers instant) waiting }
{}

/// Law: among fewer than 65,536 packets that have a number one number is for one packet: one of IPv4 has that of its header, and one of
/// IPv6 that was cut has that of its fragments.
pub fn one_number()
    ensures ipv4 { (first next : ℕ) (out : List Outgoing) (p q : PacketValue) (v w : Ipv4Repr)
        → AreNumbered first out next
        → AreFew out
        → IsAmong p out
        → IsAmong q out
        → p.header ≡ Ip.Ipv4 v
        → q.header ≡ Ip.Ipv4 w
        → v.ident ≡ w.ident
        → p ≡ q }
    ensures any { (first next : ℕ) (out : List Outgoing) (p q : PacketValue) (number : ℕ)
        → AreNumbered first out next
        → AreFew out
        → IsNumbered p number out
        → IsNumbered q number out
        → p ≡ q }
{}

/// Law: what leaves a host keeps what is said of its frames: a packet, whole or as its first fragment, or a question in its slot; a later
/// fragment; an ARP packet. A packet takes one number at most, and then its frame begins a datagram; the others take none. What arrives
/// keeps it too.
pub fn what_leaves_was_made()
    ensures packet { (made : List Addressed) (first : ℕ) (out : List Outgoing) (i i' : InnerValue) (l l' : Option LeftValue) (d d' : PortValue)
        (p : PacketValue) (busy : Bool) (sent : Sent)
        → IsSender (IsIn made) first i l d.link.sent out
        → IsGoing (IsIn made) p
        → IsTransmitted PortMove d i l p (plan_of i busy p.header) sent d' i' l'
        → WasSentOut (IsIn made) first 1 out d.link.sent i' l' d'.link.sent }
    ensures fragment { (made : List Addressed) (first : ℕ) (out : List Outgoing) (i : InnerValue) (l : LeftValue) (l' : Option LeftValue) (d d' : PortValue)
        (gone : Bool)
        → IsSender (IsIn made) first i (Some l) d.link.sent out
        → FragmentIsTransmitted PortMove d i l gone d' l'
        → WasSentOut (IsIn made) first 0 out d.link.sent i l' d'.link.sent }
    ensures arp { (made : List Addressed) (first : ℕ) (out : List Outgoing) (i : InnerValue) (l : Option LeftValue) (d d' : PortValue) (packet : ArpRepr)
        (gone : Bool)
        → IsSender (IsIn made) first i l d.link.sent out
        → IsNode i.hardware
        → IsBetweenNodes packet
        → Departs PortMove d i (Tells packet) gone d'
        → WasSentOut (IsIn made) first 0 out d.link.sent i l d'.link.sent }
    ensures arrival { (made : List Addressed) (first : ℕ) (out : List Outgoing) (i : InnerValue) (l : Option LeftValue) (sent : List (List ℕ))
        (slots : Slots) (content : Option IncomingValue) (a : Arrived)
        → IsSender (IsIn made) first i l sent out
        → Brings i slots content a
        → IsSender (IsIn made) first a.inner l sent out }
{}

/// Law: a poll that isn't refused leaves a host with fewer packets that have a number than there are numbers, where it had no more of them than its
/// history numbered, took no more in the poll than one for each frame that it took and each socket's turn, and each of them has a first
/// frame. Then it has no more of them than its history numbers now. What a history numbered only grows.
pub fn numbers_suffice()
    ensures polled { (past : List Entry) (e : Entry) (old new : Nodes) (side : Side) (t : ℤ) (budget : ℕ) (out out' : List Outgoing)
        → Leads past old e new
        → kind_of e.event ≡ OfHost side (Polls t budget)
        → count_numbered out ≤ (table_in past side (node old side)).numbered
        → count_numbered out' ≤ count_numbered out + budget * (1 + sockets_in (node old side).slots)
        → IsTied (medium_of (node old side)) out (node old side).link.sent out' (node new side).link.sent
        → AreFew out' × (count_numbered out' ≤ (table_in (e ∷ past) side (node new side)).numbered) }
    ensures grows { (past : List Entry) (e : Entry) (old new : Nodes) (side : Side)
        → Leads past old e new
        → (table_in past side (node old side)).numbered ≤ (table_in (e ∷ past) side (node new side)).numbered }
{}
