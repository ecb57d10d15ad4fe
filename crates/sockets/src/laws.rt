//! Laws of sockets of any kind, and those of each kind.
ghost use Rattle.std.specs.Prelude.{◌≡◌, ◌⊎◌, ◌↔◌, ℕ, List, false, true, IsSome, IsTrue};
ghost use Rattle.wire_icmpv4.specs.declared.header.Icmpv4Header.{Icmpv4Header};
ghost use Rattle.wire_icmpv6.specs.Icmpv6.{MessageValue};
ghost use Rattle.ip_wire.specs.IpAddress.{IpAddress};
ghost use Rattle.ip_wire.specs.IpRepr.{IpRepr};
ghost use Rattle.ip_wire.specs.TcpHeader.{TcpHeader};
ghost use Rattle.ip_wire.specs.UdpRepr.{UdpRepr};
ghost use Rattle.socket_context.specs.Context.{ContextValue};
ghost use Rattle.socket_context.specs.Offers.{IsBefore};
ghost use Rattle.socket_context.specs.declared.offer.Offer as Answer;
ghost use Rattle.socket_context.specs.declared.offer.Offer.TheVariants as Offer;
ghost use Rattle.socket_context.specs.declared.poll_at.PollAt.TheVariants as At;
ghost use Rattle.sockets.specs.Idle.{is_idle, IsOfPorts};
ghost use Rattle.tcp_block.specs.States.{is_listening};
ghost use Rattle.tcp_block.specs.Value.{TcpValue};
ghost use Rattle.tcp_socket.specs.Socket.{times_out_after};
ghost use Rattle.sockets.specs.Keys.{key_of, of_clients, of_icmp, of_listeners, of_port, of_ports, of_raw};
ghost use Rattle.socket_datagram.specs.Offers.{HasPacket, changed_by};
ghost use Rattle.sockets.specs.Socket.{Offers, offered_by, settled, poll_of, IsSameButForSlots, IsOfDatagrams};
ghost use Rattle.sockets.specs.Socket.{accepts_packet, accepts_icmpv4, accepts_icmpv6, accepts_datagram, accepts_segment};
ghost use Rattle.socket_datagram.specs.declared.error.BindError.{BindError};
ghost use Rattle.socket_datagram.specs.declared.error.RecvError.{RecvError};
ghost use Rattle.socket_datagram.specs.declared.error.SendError.{SendError};
ghost use Rattle.socket_datagram.specs.declared.icmp.Endpoint.{Endpoint};
ghost use Rattle.socket_datagram.specs.declared.udp.UdpMetadata.{UdpMetadata};
ghost use Rattle.sockets.specs.declared.socket.Socket.{Socket};
ghost use Rattle.sockets.specs.declared.socket.Socket.TheVariants as Kind;

use crate::{icmp, raw, udp};
use socket_datagram::error::{BindError, RecvError, SendError};
use socket_datagram::icmp::Endpoint;
use socket_datagram::udp::UdpMetadata;

/// Law: where the socket doesn't want to be polled at an instant yet, an offer at that instant is silent and
/// changes nothing, but that an open offer is settled as not sent.
pub fn silence()
    ensures { (cx : ContextValue) (s s' : Socket) (answer : Answer.Offer)
        → IsBefore cx.instant (poll_of cx s)
        → Offers cx s answer s'
        → (answer ≡ Offer.Silent false) × (s' ≡ settled false s) }
{}

/// Law: before a connection wants to be polled its retransmission timer doesn't run out.
#[tactic(auto, using(crate::proofs::AnyKind::untimed))]
pub fn no_timer_runs_out_before()
    ensures { (count : ℕ) (cx : ContextValue) (v : TcpValue) → IsBefore cx.instant (poll_of cx (Kind.Tcp v))
        → times_out_after count cx.instant v.tcb ≡ false }
{}

/// Law: an idle socket that is asked for a packet, at whatever instant, has none and stays as it is; nothing but an arrival makes it want
/// to be polled; and it is a UDP or a TCP socket.
#[tactic(auto, using(crate::proofs::AtRest::stays, crate::proofs::AtRest::waits_at, crate::proofs::AtRest::of_ports))]
pub fn idle_is_at_rest()
    ensures offers { (cx : ContextValue) (s : Socket) → is_idle s ≡ true → Offers cx s (Offer.Silent false) s }
    ensures instant { (cx : ContextValue) (s : Socket) → is_idle s ≡ true → poll_of cx s ≡ At.Ingress }
    ensures kinds { (s : Socket) → is_idle s ≡ true → IsOfPorts s }
{}

/// Law: whatever accepts what arrives is found by a key that this tells: raw and ICMP sockets by their kind; of a datagram UDP sockets by its
/// destination port, or the clients; of a segment connections by both ports, or listeners by its destination port.
#[tactic(auto, using(crate::proofs::Found::of_datagram, crate::proofs::Found::of_segment, crate::proofs::Found::of_connection))]
pub fn what_arrives_tells_the_key()
    ensures packet { (s : Socket) (ip : IpRepr) → accepts_packet s ip ≡ true → key_of s ≡ of_raw }
    ensures icmpv4 { (s : Socket) (to : IpAddress) (message : Icmpv4Header) (bytes : List ℕ) → accepts_icmpv4 s to message bytes ≡ true
        → key_of s ≡ of_icmp }
    ensures icmpv6 { (s : Socket) (to : IpAddress) (message : MessageValue) (bytes : List ℕ) → accepts_icmpv6 s to message bytes ≡ true
        → key_of s ≡ of_icmp }
    ensures datagram { (cx : ContextValue) (s : Socket) (ip : IpRepr) (udp : UdpRepr) → accepts_datagram cx s ip udp ≡ true
        → (key_of s ≡ of_port udp.dst_port) ⊎ (key_of s ≡ of_clients) }
    ensures segment { (s : Socket) (ip : IpRepr) (header : TcpHeader) → accepts_segment s ip header ≡ true
        → (key_of s ≡ of_ports header.dst_port header.src_port) ⊎ (key_of s ≡ of_listeners header.dst_port) }
    ensures connection { (v : TcpValue) (ip : IpRepr) (header : TcpHeader) → is_listening v.tcb.state ≡ false
        → accepts_segment (Kind.Tcp v) ip header ≡ true → key_of (Kind.Tcp v) ≡ of_ports header.dst_port header.src_port }
{}

/// Law: an offer that is settled as not sent doesn't change when the socket wants to be polled.
pub fn due_as_before()
    ensures { (cx : ContextValue) (s : Socket) → poll_of cx (settled false s) ≡ poll_of cx s }
{}

/// Law: a packet is offered exactly where the answer says so, and a datagram, or a message of a client, whose offer is settled as not
/// sent is offered again as it was.
pub fn unsent_is_offered_again()
    ensures packet { (cx : ContextValue) (s s' : Socket) (answer : Answer.Offer)
        → Offers cx s answer s'
        → HasPacket answer (offered_by s') }
    ensures again { (cx : ContextValue) (s s' : Socket) (answer : Answer.Offer)
        → IsOfDatagrams s
        → Offers cx s answer s'
        → IsSome (offered_by s')
        → Offers cx (settled false s') answer s' }
    ensures settled { (cx : ContextValue) (s s' : Socket) (answer : Answer.Offer)
        → Offers cx (settled false s) answer s' ↔ Offers cx s answer s' }
{
    raw::unsent_is_offered_again();
    icmp::unsent_is_offered_again();
    udp::unsent_is_offered_again();
}

/// Law: an offer that says that nothing changed, and is settled as not sent, leaves the socket with the same
/// datagrams or bytes in its queues, and a connection in its state.
pub fn unchanged()
    ensures { (cx : ContextValue) (s s' : Socket) (answer : Answer.Offer)
        → Offers cx s answer s'
        → changed_by answer ≡ false
        → IsSameButForSlots s (settled false s') }
{}

/// Law: what an offer answers and leaves is determined.
pub fn one_offer()
    ensures { (cx : ContextValue) (s left right : Socket) (answer other : Answer.Offer)
        → Offers cx s answer left
        → Offers cx s other right
        → (answer ≡ other) × (left ≡ right) }
{
    raw::one_offer();
    icmp::one_offer();
    udp::one_offer();
}

/// Law: `==` says of the metadata of two datagrams, of two endpoints of ICMP sockets, and of two errors
/// whether they are the same.
pub fn equal()
    ensures metadata { (a b : UdpMetadata) → IsTrue (⟦<UdpMetadata as PartialEq>⟧.eq a b) ↔ (a ≡ b) }
    ensures endpoints { (a b : Endpoint) → IsTrue (⟦<Endpoint as PartialEq>⟧.eq a b) ↔ (a ≡ b) }
    ensures bind { (a b : BindError) → IsTrue (⟦<BindError as PartialEq>⟧.eq a b) ↔ (a ≡ b) }
    ensures send { (a b : SendError) → IsTrue (⟦<SendError as PartialEq>⟧.eq a b) ↔ (a ≡ b) }
    ensures recv { (a b : RecvError) → IsTrue (⟦<RecvError as PartialEq>⟧.eq a b) ↔ (a ≡ b) }
{}
