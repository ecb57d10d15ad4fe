//! Segments and fragments fit their paths, and fragments go.

ghost use Rattle.std.specs.Prelude.{◌≡◌, ℕ, ℤ, ◌+◌, ◌≤◌, Bool, length, Option, Some};
ghost use Rattle.tcp_state.specs.declared.offer.OpenOffer.{OpenOffer};
ghost use Rattle.tcp_block.specs.Offers.{offer_of};
ghost use Rattle.tcp_block.specs.Value.{TcpValue};
ghost use Rattle.sockets.specs.Context.{ContextValue};
ghost use Rattle.iface_tables.specs.Inner.{InnerValue, at_instant};
ghost use Rattle.iface_egress.specs.Departure.{Part, fragment_header_len};
ghost use Rattle.iface_egress.specs.Fragments.{LeftValue, cut_mtu, departure_from, left_from, fragment_from};
ghost use Rattle.iface_egress.specs.Plan.{total_len};
ghost use Rattle.interface.specs.Egress.{EgressStep};
ghost use Rattle.interface.specs.State.{State};
ghost use Rattle.proof_stack.specs.Progress.Queued.{FragmentWent};

use net_base::Device;

/// Law: a segment that a TCP socket offers is no longer than the longest packet that it is shown, where that is long enough for a SYN of IPv6 with all its
/// options. So none has to be cut.
pub fn segments_fit_their_packets()
    ensures { (cx : ContextValue) (v : TcpValue) (o : OpenOffer) → 80 ≤ cx.ip_mtu → (offer_of cx v).socket.offered ≡ Some o
        → total_len o.header ≤ cx.ip_mtu }
{}

/// Law: of a datagram that is half sent the next fragment goes where the first one went, after the same header; and with its headers it
/// is no longer than the path to the datagram's destination carries, as that is known then.
pub fn fragments_fit_their_paths()
    ensures goes { (i : InnerValue) (l : LeftValue) → departure_from i l ≡ Part l.to l.header (fragment_from i l) }
    ensures fits { (i : InnerValue) (l : LeftValue) → fragment_header_len l.header ≤ cut_mtu i l
        → fragment_header_len l.header + length (fragment_from i l).bytes ≤ cut_mtu i l }
{}

/// Law: a fragment that waits goes in the next step of the egress path, before the sockets have their turns in it, unless the device refuses; and what is
/// left of the datagram is shorter by 8 bytes at least, where the path carries its headers and as many. So a datagram that is half sent holds up
/// other long ones for as many steps as it has fragments, and no other packet.
pub fn waiting_fragments_go<D: Device>()
    ensures goes { (t : ℤ) (s s' : State D) (answer : Option Bool) (l : LeftValue)
        → s.host.left ≡ Some l
        → EgressStep D.moves t s answer s'
        → FragmentWent D.moves (at_instant t s.host.inner) l s.device s'.device s'.host.left }
    ensures shorter { (i : InnerValue) (l rest : LeftValue)
        → fragment_header_len l.header + 8 ≤ cut_mtu i l
        → left_from i l ≡ Some rest
        → (rest.payload ≡ l.payload) × (l.at + 8 ≤ rest.at) × (rest.at + 1 ≤ length rest.payload) }
{}
