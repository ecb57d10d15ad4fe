//! What `sockets` passes on is what its members have under that name.
ghost use Rattle.std.specs.Prelude.{◌≡◌, ◌↔◌, IsTrue};
ghost use Rattle.socket_context.specs.declared.offer.Offer.{Offer};
ghost use Rattle.socket_context.specs.declared.packet.Packet.{Packet};
ghost use Rattle.socket_context.specs.declared.poll_at.PollAt.{PollAt};
ghost use Rattle.socket_context.specs.declared.segment_payload.SegmentPayload.{SegmentPayload};
ghost use Rattle.socket_context.specs.Packet.{packet_value};
ghost use Rattle.socket_context.specs.SegmentPayload.{payload_bytes};
ghost use Rattle.tcp_block.specs.ConnectError.{ConnectError};
ghost use Rattle.tcp_block.specs.ListenError.{ListenError};
ghost use Rattle.tcp_block.specs.RecvError.{RecvError};
ghost use Rattle.tcp_block.specs.Reno.{RenoValue};
ghost use Rattle.tcp_block.specs.State.{State};
ghost use Rattle.tcp_block.specs.declared.tcb.CongestionControl.{CongestionControl};

use crate::connections::blocks_are_equated;
use socket_context::laws;
use sockets::tcp::{
    CongestionControl, ConnectError, ListenError, RecvError, Reno, SendError, State,
};
use sockets::{Offer, Packet, PollAt, SegmentPayload};

/// Law: `==` of what any socket offers.
pub fn offers_are_equated<'a>()
    ensures offers { (a b : Offer) → IsTrue (⟦<Offer as PartialEq>⟧.eq a b) ↔ (a ≡ b) }
    ensures due { (a b : PollAt) → IsTrue (⟦<PollAt as PartialEq>⟧.eq a b) ↔ (a ≡ b) }
    ensures texts { (a b : SegmentPayload) → IsTrue (⟦<SegmentPayload<'a> as PartialEq>⟧.eq a b)
        ↔ (payload_bytes a ≡ payload_bytes b) }
    ensures packets { (a b : Packet) → IsTrue (⟦<Packet<'a> as PartialEq>⟧.eq a b)
        ↔ (packet_value a ≡ packet_value b) }
{
    laws::equal();
}

/// Law: `==` of what a TCP socket is told and says.
pub fn tcp_is_equated(one: SendError, other: SendError) -> bool
    ensures send { IsTrue result }
    ensures state { (a b : State) → IsTrue (⟦<State as PartialEq>⟧.eq a b) ↔ (a ≡ b) }
    ensures reno { (a b : RenoValue) → IsTrue (⟦<Reno as PartialEq>⟧.eq a b) ↔ (a ≡ b) }
    ensures congestion { (a b : CongestionControl) → IsTrue (⟦<CongestionControl as PartialEq>⟧.eq a b) ↔ (a ≡ b) }
    ensures listen { (a b : ListenError) → IsTrue (⟦<ListenError as PartialEq>⟧.eq a b) ↔ (a ≡ b) }
    ensures connect { (a b : ConnectError) → IsTrue (⟦<ConnectError as PartialEq>⟧.eq a b) ↔ (a ≡ b) }
    ensures recv { (a b : RecvError) → IsTrue (⟦<RecvError as PartialEq>⟧.eq a b) ↔ (a ≡ b) }
{
    blocks_are_equated();
    one == other
}
