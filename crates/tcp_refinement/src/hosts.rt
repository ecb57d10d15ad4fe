//! The invariant between two sockets, where what each of them sent is told by the segments of its host.

ghost use Rattle.std.specs.Prelude.{◌≡◌, ◌≢◌, ◌⊎◌, ◌==◌, ◌++◌, ℕ, ℤ, true, false, if◌then◌else◌, List, [], ◌∷◌, Some, slice_get};
ghost use Rattle.std.specs.List.{AllByRecursion};
ghost use Rattle.ip_wire.specs.Ip.{source_of, destination_of};
ghost use Rattle.ip_wire.specs.IpAddress.{IpAddress};
ghost use Rattle.ip_wire.specs.IpRepr.{IpRepr};
ghost use Rattle.ip_wire.specs.Tcp.{normal};
ghost use Rattle.ip_wire.specs.TcpHeader.{TcpHeader};
ghost use Rattle.tcp_block.specs.Context.{ContextValue};
ghost use Rattle.tcp_theory.specs.Alone.{AreResets};
ghost use Rattle.tcp_theory.specs.Segment.Control.{Rst};
ghost use Rattle.tcp_block.specs.Arrival.{arrives};
ghost use Rattle.tcp_block.specs.Names.{accepts};
ghost use Rattle.tcp_block.specs.Offers.{offer_of};
ghost use Rattle.tcp_block.specs.Opening.{is_first_syn};
ghost use Rattle.tcp_block.specs.Settled.{settled};
ghost use Rattle.tcp_block.specs.Value.{TcpValue};
ghost use Rattle.tcp_block.specs.declared.tcb.Tcb.{Tcb};
ghost use Rattle.tcp_refinement.specs.Endpoints.{Ports, HasPorts};
ghost use Rattle.tcp_refinement.specs.Host.{Made, source_port, destination_port, seen_of, sent_from, past_at, IsAmong, MayCome, IsSeenAmong, and_answer, and_offer};
ghost use Rattle.tcp_refinement.specs.Pair.Values.{HostContext, context_on};
ghost use Rattle.tcp_refinement.specs.Promises.{KeepsAlone};
ghost use Rattle.tcp_refinement.specs.Tie.{Past, Keeps, segment_of};

/// The segments of a host from one port: one more of them, and each of them.
#[tactic(auto, using(crate::proofs::HostLaws::one_more, crate::proofs::HostLaws::among_sent, crate::proofs::HostLaws::resets_from))]
pub fn segments_of_a_host()
    ensures more { (port : ℕ) (made : List Made) (x : Made)
        → sent_from port (made ++ x ∷ []) ≡ (if source_port x == port then sent_from port made ++ seen_of x ∷ [] else sent_from port made) }
    ensures among { (port : ℕ) (made : List Made) (x : Made) → IsAmong made x → source_port x ≡ port
        → (k : ℕ) × (slice_get (sent_from port made) k ≡ Some (seen_of x)) }
    ensures resets { (port : ℕ) (made : List Made) → AllByRecursion (λ x. source_port x ≡ port → (seen_of x).control ≡ Rst) made
        → AreResets (sent_from port made) }
{}

/// A segment that the peer's host made, from the peer's port to the socket's, comes; the socket is asked for a segment, which goes
/// from its port; the host makes any reset, or a segment from another port.
#[tactic(auto, using(crate::proofs::HostLaws::hosted))]
pub fn hosts_keep_the_invariant()
    ensures arrival { (cx : ContextValue) (v w : TcpValue) (p q : Past) (ip : IpRepr) (header : TcpHeader) (bytes : List ℕ)
        (made theirs : List Made) → Keeps v (past_at header.dst_port made p) w (past_at header.src_port theirs q)
        → IsSeenAmong theirs header bytes
        → Keeps (arrives cx v ip header bytes).socket
        (past_at header.dst_port (and_answer made (arrives cx v ip header bytes).answer) p) w (past_at header.src_port theirs q) }
    ensures offer { (cx : ContextValue) (v w : TcpValue) (p q : Past) (o : Ports) (made : List Made) (from : IpAddress)
        → Keeps v (past_at o.local made p) w q → HasPorts o v.tcb
        → Keeps (settled true (offer_of cx v).socket)
        (past_at o.local (and_offer made from (offer_of cx v).socket.offered (offer_of cx v).socket.queued.queue) p) w q }
    ensures reset { (v w : TcpValue) (p q : Past) (port : ℕ) (made : List Made) (x : Made) → Keeps v (past_at port made p) w q
        → (seen_of x).control ≡ Rst → Keeps v (past_at port (made ++ x ∷ []) p) w q }
    ensures elsewhere { (v w : TcpValue) (p q : Past) (port : ℕ) (made : List Made) (x : Made) → Keeps v (past_at port made p) w q
        → source_port x ≢ port → Keeps v (past_at port (made ++ x ∷ []) p) w q }
{}

/// A reset of another host comes to a socket without a peer.
#[tactic(auto, using(crate::proofs::HostLaws::hosted_reset_arrives))]
pub fn hosts_keep_a_socket_alone()
    ensures arrival { (cx : ContextValue) (v : TcpValue) (p : Past) (ip : IpRepr) (header : TcpHeader) (bytes : List ℕ)
        (made : List Made) → KeepsAlone v (past_at header.dst_port made p) → (segment_of header bytes).control ≡ Rst
        → KeepsAlone (arrives cx v ip header bytes).socket
        (past_at header.dst_port (and_answer made (arrives cx v ip header bytes).answer) p) }
{}

/// A segment that was emitted and read again, which gives its canonical form, is seen as it was sent. So is each that may come, with the
/// ports that it was made with.
#[tactic(auto, using(crate::proofs::HostLaws::comes_as_made))]
pub fn normal_segments_are_seen_alike()
    ensures segment { (header : TcpHeader) (bytes : List ℕ) → segment_of (normal header) bytes ≡ segment_of header bytes }
    ensures made { (made : List Made) (from to : IpAddress) (header : TcpHeader) (bytes : List ℕ) → MayCome made from to header bytes
        → IsSeenAmong made header bytes }
    ensures opening { (header : TcpHeader) → is_first_syn (normal header) ≡ is_first_syn header }
{}

/// Of the IP header of a segment that comes a socket reads the addresses alone; and of its host's random words nothing, where initial sequence numbers are made
/// with a key (RFC 6528).
pub fn only_addresses_matter()
    ensures accepts { (b : Tcb) (ip other : IpRepr) (header : TcpHeader) → source_of ip ≡ source_of other → destination_of ip ≡ destination_of other
        → accepts b ip header ≡ accepts b other header }
    ensures arrives { (host : HostContext) (key : List ℕ) (instant : ℤ) (random words : ℕ) (v : TcpValue) (ip other : IpRepr) (header : TcpHeader)
        (bytes : List ℕ) → host.isn_key ≡ Some key → source_of ip ≡ source_of other → destination_of ip ≡ destination_of other
        → arrives (context_on host instant random) v ip header bytes ≡ arrives (context_on host instant words) v other header bytes }
    ensures draws { (host : HostContext) (key : List ℕ) (instant : ℤ) (random : ℕ) (v : TcpValue) (ip : IpRepr) (header : TcpHeader) (bytes : List ℕ)
        → host.isn_key ≡ Some key → (arrives (context_on host instant random) v ip header bytes).draws ≡ false }
{}
