//! A datagram that comes is queued.

ghost use Rattle.std.specs.Prelude.{◌≡◌, ℕ, ℤ, true, false, List, [], ◌∷◌, ◌++◌, length, slice_get, Option, Some};
ghost use Rattle.net_base.specs.Device.{Took};
ghost use Rattle.net_base.specs.Packets.{contents, is_full_for};
ghost use Rattle.wire_ip.specs.declared.ip.repr.IpRepr.{IpRepr};
ghost use Rattle.wire_ip.specs.declared.udp.repr.UdpRepr.{UdpRepr};
ghost use Rattle.ip_wire.specs.declared.ethernet.repr.EthernetRepr.{EthernetRepr};
ghost use Rattle.socket_datagram.specs.Udp.{UdpValue, process_after, metadata_of};
ghost use Rattle.iface_ingress.specs.Incoming.{IsContent};
ghost use Rattle.iface_ingress.specs.Sent.{uncut};
ghost use Rattle.iface_tables.specs.Inner.{at_instant};
ghost use Rattle.iface_egress.specs.declared.socket_meta.Meta.{Meta};
ghost use Rattle.interface.specs.Ingress.{IngressStep};
ghost use Rattle.interface.specs.State.{State};
ghost use Rattle.proof_stack.specs.Progress.Reached.{IsFor, udp_slot};

use net_base::Device;

/// Law: a host that reads the frame that waits at its device, in which a whole packet brings a datagram for it, gives the datagram to the
/// first socket that accepts it; where that is a UDP socket with room, it waits there after those that came before it, with the endpoint
/// that it came from and the address that it was sent to.
pub fn datagrams_reach_their_socket<D: Device>()
    ensures reaches { (t : ℤ) (s s' : State D) (frame : List ℕ) (link : Option EthernetRepr) (ip : IpRepr) (payload : List ℕ) (udp : UdpRepr)
        (bytes : List ℕ) (m : ℕ) (meta : Meta) (w : UdpValue)
        → ((other : List ℕ) (d : D) → D.moves s.device (Took t other) d → other ≡ frame)
        → IsContent s.host.inner.hardware s.host.inner.checksums frame (Some (uncut link ip payload))
        → IsFor (at_instant t s.host.inner) s.slots link ip payload udp bytes m meta w
        → IngressStep D.moves t s (Some true) s'
        → slice_get s'.slots m ≡ Some (udp_slot meta (process_after w ip udp bytes)) }
    ensures following { (w : UdpValue) (ip : IpRepr) (udp : UdpRepr) (bytes : List ℕ)
        → is_full_for w.received (length bytes) ≡ false
        → contents (process_after w ip udp bytes).received ≡ contents w.received ++ (metadata_of ip udp, bytes) ∷ [] }
{}
