//! What the sentences exclude: what no poll does to a socket, and no datagram that a host reads.

ghost use Rattle.std.specs.Prelude.{◌≡◌, ◌≢◌, ℕ, ℤ, false, IsTrue, List, [], ◌∷◌};
ghost use Rattle.net_base.specs.Device.{Took};
ghost use Rattle.net_base.specs.Capabilities.{verifies};
ghost use Rattle.net_base.specs.Packets.{contents};
ghost use Rattle.ip_wire.specs.Ip.{source_of, destination_of};
ghost use Rattle.ip_wire.specs.IpRepr.{IpRepr};
ghost use Rattle.ip_wire.specs.TcpHeader.{TcpHeader};
ghost use Rattle.ip_wire.specs.Udp.{IsChecked, payload_of};
ghost use Rattle.sockets.specs.Context.{ContextValue};
ghost use Rattle.socket_datagram.specs.Udp.{UdpValue};
ghost use Rattle.socket_datagram.specs.declared.udp.UdpMetadata.{UdpMetadata};
ghost use Rattle.tcp_block.specs.Names.{accepts};
ghost use Rattle.tcp_block.specs.Value.{TcpValue};
ghost use Rattle.interface.specs.State.{State};
ghost use Rattle.iface_ingress.specs.Upper.{upper_header, upper_payload};
ghost use Rattle.tcp_refinement.specs.Run.Event.{Reads, Closes};
ghost use Rattle.proof_stack.specs.PeerHost.SocketRun.Event.{Comes, Sends, Does};
ghost use Rattle.proof_stack.specs.PeerHost.ReceivedPackets.{SegmentArrived};
ghost use Rattle.proof_stack.specs.PeerHost.Streams.{IsOfPoll};
ghost use Rattle.proof_stack.specs.PeerHost.Datagrams.{WasReceived, DatagramsProceed};

use net_base::Device;

/// No poll writes, reads or closes for its user, hands a socket a segment that isn't for it, or one that came in no frame.
pub fn bad_streams_are_excluded<D: Device>()
    ensures written { (t : ℤ) (s : State D) (v : TcpValue) (bytes : List ℕ) → IsOfPoll D.moves t s v (Sends bytes) → ⊥ }
    ensures read { (t : ℤ) (s : State D) (v : TcpValue) (count : ℕ) → IsOfPoll D.moves t s v (Does (Reads count)) → ⊥ }
    ensures closed { (t : ℤ) (s : State D) (v : TcpValue) → IsOfPoll D.moves t s v (Does Closes) → ⊥ }
    ensures for_another { (t : ℤ) (s : State D) (v : TcpValue) (cx : ContextValue) (ip : IpRepr) (header : TcpHeader) (bytes : List ℕ)
        → accepts v.tcb ip header ≡ false → IsOfPoll D.moves t s v (Comes cx ip header bytes) → ⊥ }
    ensures no_frame { (t : ℤ) (s : State D) (ip : IpRepr) (header : TcpHeader) (bytes : List ℕ)
        → ((at : ℤ) (d d' : D) (frame : List ℕ) → D.moves d (Took at frame) d' → ⊥) → SegmentArrived D.moves t s ip header bytes → ⊥ }
{}

/// No datagram is read that came in no frame, to another port, from another one, with a checksum that doesn't hold where the host tests
/// it, or with other bytes; and no poll loses one that waits, or puts another before it.
pub fn bad_datagrams_are_excluded<D: Device>()
    ensures no_frame { (t : ℤ) (s : State D) (port : ℕ) (d : UdpMetadata × List ℕ)
        → ((at : ℤ) (d d' : D) (frame : List ℕ) → D.moves d (Took at frame) d' → ⊥) → WasReceived D.moves t s port d → ⊥ }
    ensures other_port { (t : ℤ) (s : State D) (port : ℕ) (d : UdpMetadata × List ℕ) (w : WasReceived D.moves t s port d)
        → w.udp.dst_port ≢ port → ⊥ }
    ensures other_sender { (t : ℤ) (s : State D) (port : ℕ) (d : UdpMetadata × List ℕ) (w : WasReceived D.moves t s port d)
        → d.0.endpoint.port ≢ w.udp.src_port → ⊥ }
    ensures bad_checksum { (t : ℤ) (s : State D) (port : ℕ) (d : UdpMetadata × List ℕ) (w : WasReceived D.moves t s port d)
        → IsTrue (verifies w.came.caps.udp) → (IsChecked (source_of (upper_header w.ip w.came.payload)) (destination_of (upper_header w.ip w.came.payload))
        (upper_payload w.ip w.came.payload) → ⊥) → ⊥ }
    ensures other_bytes { (t : ℤ) (s : State D) (port : ℕ) (d : UdpMetadata × List ℕ) (w : WasReceived D.moves t s port d)
        → d.1 ≢ payload_of (upper_payload w.ip w.came.payload) → ⊥ }
    ensures lost { (t : ℤ) (s s' : State D) (i : ℕ) (v : UdpValue) (d : UdpMetadata × List ℕ) (rest : List (UdpMetadata × List ℕ))
        (g : DatagramsProceed D.moves t s i v s') → contents v.received ≡ d ∷ rest → contents g.new.received ≡ [] → ⊥ }
    ensures another_first { (t : ℤ) (s s' : State D) (i : ℕ) (v : UdpValue) (d e : UdpMetadata × List ℕ) (rest later : List (UdpMetadata × List ℕ))
        (g : DatagramsProceed D.moves t s i v s') → contents v.received ≡ d ∷ rest → contents g.new.received ≡ e ∷ later → e ≢ d → ⊥ }
{}
