//! The law of names: which segments a socket takes, where its own segments go, and what becomes of its endpoints.

ghost use Rattle.std.specs.Prelude.{◌≡◌, ℕ, true, false, List, [], Option, Some, None};
ghost use Rattle.ip_wire.specs.IpListenEndpoint.{IpListenEndpoint};
ghost use Rattle.ip_wire.specs.IpRepr.{IpRepr};
ghost use Rattle.ip_wire.specs.TcpHeader.{TcpHeader};
ghost use Rattle.net_base.specs.Ring.{Ring};
ghost use Rattle.tcp_block.specs.Context.{ContextValue};
ghost use Rattle.tcp_block.specs.BaseOffers.{offered_as};
ghost use Rattle.tcp_block.specs.Offer.TheVariants as Answer;
ghost use Rattle.tcp_theory.specs.Segment.Control.{Rst};
ghost use Rattle.tcp_block.specs.declared.tcb.Tcb.{Tcb};
ghost use Rattle.tcp_block.specs.FourTuple.{FourTuple};
ghost use Rattle.tcp_block.specs.OpenOffer.{OpenOffer};
ghost use Rattle.tcp_block.specs.Reply.{Reply};
ghost use Rattle.tcp_block.specs.Arrival.{arrives};
ghost use Rattle.tcp_block.specs.TcbRules.{nowhere};
ghost use Rattle.tcp_block.specs.Calls.{listening, connecting, sent_more, recv_after, close_after, abort_after};
ghost use Rattle.tcp_block.specs.Names.{accepts};
ghost use Rattle.tcp_block.specs.Offers.{offer_of};
ghost use Rattle.tcp_block.specs.Segments.{rst_reply};
ghost use Rattle.tcp_block.specs.Settled.{settled};
ghost use Rattle.tcp_block.specs.Value.{TcpValue, dropped, unoffered};
ghost use Rattle.tcp_refinement.specs.Tie.{core_of, segment_of};
ghost use Rattle.tcp_refinement.specs.Endpoints.{IsFor, GoesBetween, GoesBack, KeepsOrForgets, IsLeftBy, IsRenamed, Ports, HasPorts, IsNameless};

/// A socket takes a segment only where both its ports are the socket's: in LISTEN the port that it listens on, later both endpoints.
#[tactic(auto, using(crate::proofs::NameLaws::accepted))]
pub fn accepted_segments_are_for_the_socket()
    ensures accepted { (b : Tcb) (ip : IpRepr) (header : TcpHeader) → accepts b ip header ≡ true → IsFor b ip header }
{}

/// Of the calls only an OPEN names a socket, and only a close or an abort may forget the names.
#[tactic(auto, using(crate::proofs::NameLaws::close_names, crate::proofs::NameLaws::abort_names))]
pub fn calls_name_a_socket()
    ensures listens { (v : TcpValue) (endpoint : IpListenEndpoint)
        → (listening v endpoint).tcb.names ≡ record { listen = endpoint; pair = None } }
    ensures connects { (v : TcpValue) (pair : FourTuple) (number : ℕ)
        → (connecting v pair number).tcb.names ≡ record { listen = nowhere; pair = Some pair } }
    ensures sends { (v : TcpValue) (queued : Ring ℕ) → (sent_more v queued).tcb ≡ v.tcb }
    ensures reads { (v : TcpValue) (count : ℕ) → (recv_after v count).tcb ≡ v.tcb }
    ensures closes { (v : TcpValue) → KeepsOrForgets v.tcb (close_after v).tcb }
    ensures aborts { (v : TcpValue) → KeepsOrForgets v.tcb (abort_after v).tcb }
{}

/// When a segment comes, the endpoints stay, or are forgotten; or a listener takes the segment's, or loses them again. What answers
/// it has its endpoints, exchanged.
#[tactic(auto, using(crate::proofs::NameLaws::arrival_names, crate::proofs::NameLaws::answer_back))]
pub fn arrivals_rename_a_socket()
    ensures names { (cx : ContextValue) (v : TcpValue) (ip : IpRepr) (header : TcpHeader) (bytes : List ℕ)
        → IsRenamed ip header v.tcb (arrives cx v ip header bytes).socket.tcb }
    ensures answer { (cx : ContextValue) (v : TcpValue) (ip : IpRepr) (header : TcpHeader) (bytes : List ℕ) (reply : Reply)
        → (arrives cx v ip header bytes).answer ≡ Some reply → GoesBack ip header reply }
{}

/// What a socket offers goes between the endpoints of its pair; and with its settling they stay, or are forgotten, or a listener that
/// gives up listens again.
#[tactic(auto, using(crate::proofs::NameLaws::offer_between_ends, crate::proofs::NameLaws::sent_names, crate::proofs::NameLaws::withheld_names))]
pub fn offers_go_between_the_endpoints()
    ensures offered { (cx : ContextValue) (v : TcpValue) (o : OpenOffer) → (offer_of cx v).socket.offered ≡ Some o
        → (pair : FourTuple) × (v.tcb.names.pair ≡ Some pair) × GoesBetween pair o }
    ensures sent { (cx : ContextValue) (v : TcpValue)
        → IsLeftBy v.tcb (settled true (offer_of cx v).socket).tcb }
    ensures withheld { (cx : ContextValue) (v : TcpValue)
        → IsLeftBy v.tcb (settled false (offer_of cx v).socket).tcb }
{}

/// A host answers a segment that no socket takes by a reset, back to where it came from.
#[tactic(auto, using(crate::proofs::NameLaws::reset_back))]
pub fn hosts_answer_by_resets()
    ensures reset { (ip : IpRepr) (header : TcpHeader) (size : ℕ)
        → (segment_of (rst_reply ip header size).segment []).control ≡ Rst }
    ensures back { (ip : IpRepr) (header : TcpHeader) (size : ℕ) → GoesBack ip header (rst_reply ip header size) }
{}

/// So the ports that a socket was opened with are those of all that names it, whatever comes.
#[tactic(auto, using(crate::proofs::PortLaws::port_laws))]
pub fn ports_stay()
    ensures listens { (v : TcpValue) (endpoint : IpListenEndpoint)
        → HasPorts (record { local = endpoint.port; remote = None }) (listening v endpoint).tcb }
    ensures connects { (v : TcpValue) (pair : FourTuple) (number : ℕ)
        → HasPorts (record { local = pair.local_port; remote = Some pair.remote_port }) (connecting v pair number).tcb }
    ensures same { (v new : TcpValue) (o : Ports) → core_of new ≡ core_of v → HasPorts o v.tcb → HasPorts o new.tcb }
    ensures sends { (v : TcpValue) (queued : Ring ℕ) (o : Ports) → HasPorts o v.tcb → HasPorts o (sent_more v queued).tcb }
    ensures reads { (v : TcpValue) (count : ℕ) (o : Ports) → HasPorts o v.tcb → HasPorts o (recv_after v count).tcb }
    ensures closes { (v : TcpValue) (o : Ports) → HasPorts o v.tcb → HasPorts o (close_after v).tcb }
    ensures aborts { (v : TcpValue) (o : Ports) → HasPorts o v.tcb → HasPorts o (abort_after v).tcb }
    ensures arrives { (cx : ContextValue) (v : TcpValue) (ip : IpRepr) (header : TcpHeader) (bytes : List ℕ) (o : Ports)
        → accepts v.tcb ip header ≡ true → HasPorts o v.tcb → HasPorts o (arrives cx v ip header bytes).socket.tcb }
    ensures sent { (cx : ContextValue) (v : TcpValue) (o : Ports)
        → HasPorts o v.tcb → HasPorts o (settled true (offer_of cx v).socket).tcb }
    ensures withheld { (cx : ContextValue) (v : TcpValue) (o : Ports)
        → HasPorts o v.tcb → HasPorts o (settled false (offer_of cx v).socket).tcb }
{}

/// A closed socket takes no segment; and one without a remote endpoint offers none.
#[tactic(auto, using(crate::proofs::PortLaws::nameless_refuses, crate::proofs::PortLaws::nameless_drops, crate::proofs::PortLaws::nameless_silent))]
pub fn a_nameless_socket_is_silent()
    ensures refuses { (b : Tcb) (ip : IpRepr) (header : TcpHeader) → IsNameless b → accepts b ip header ≡ false }
    ensures drops { (cx : ContextValue) (v : TcpValue) (ip : IpRepr) (header : TcpHeader) (bytes : List ℕ) → IsNameless v.tcb
        → arrives cx v ip header bytes ≡ dropped (unoffered v) }
    ensures offers { (cx : ContextValue) (v : TcpValue) → IsNameless v.tcb
        → offer_of cx v ≡ offered_as (Answer.Silent false) (unoffered v) }
{}
