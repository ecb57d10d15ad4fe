//! What a TCP socket goes by, under the names that `tcp_block` passes on.
ghost use Rattle.std.specs.Prelude.{◌≡◌, ◌↔◌, IsTrue, codes, Some, None, false};
ghost use Rattle.tcp_block.specs.AddressPair.{AddressPair};
ghost use Rattle.tcp_block.specs.FourTuple.{FourTuple};
ghost use Rattle.tcp_block.specs.OfferKind.{OfferKind};
ghost use Rattle.tcp_block.specs.OpenOffer.{OpenOffer};
ghost use Rattle.tcp_block.specs.Reply.{Reply};
ghost use Rattle.tcp_block.specs.Reno.{RenoValue};
ghost use Rattle.tcp_block.specs.RoundTrip.{RoundTripValue};
ghost use Rattle.tcp_block.specs.Run.{Run};
ghost use Rattle.tcp_block.specs.Scoreboard.{no_run, no_runs};
ghost use Rattle.tcp_state.specs.declared.scoreboard.Scoreboard.{Scoreboard};
ghost use Rattle.tcp_block.specs.State.{State};
ghost use Rattle.tcp_block.specs.declared.tcb.Tcb.{Tcb};
ghost use Rattle.tcp_block.specs.declared.tcb.CongestionControl.{CongestionControl};
ghost use Rattle.tcp_block.specs.declared.tcb.Loss.{Loss};
ghost use Rattle.tcp_block.specs.declared.tcb.Undo.{Undo};
ghost use Rattle.tcp_block.specs.declared.tcb.Names.{Names};
ghost use Rattle.tcp_block.specs.declared.tcb.Peer.{Peer};
ghost use Rattle.tcp_block.specs.declared.tcb.Receiver.{Receiver};
ghost use Rattle.tcp_block.specs.declared.tcb.Sender.{Sender};
ghost use Rattle.tcp_block.specs.declared.tcb.Settings.{Settings};
ghost use Rattle.tcp_block.specs.declared.tcb.Stamps.{Stamps};
ghost use Rattle.tcp_block.specs.declared.tcb.Timers.{Timers};
ghost use Rattle.tcp_block.specs.declared.tcb.checks.Verdict.{Verdict};
ghost use Rattle.tcp_block.specs.declared.tcb.rules.Part.{Part};

use std::fmt::Display;
use tcp_block::{
    AddressPair, CongestionControl, FourTuple, Loss, Names, OfferKind, OpenOffer, PROBE, Part,
    Peer, Receiver, Reno, Reply, RoundTrip, Run, Scoreboard, Sender, Settings, Stamps, State, Tcb,
    Timers, Undo, Verdict,
};

/// Law: `==` of a control block, and of each part of it, says whether they are the same.
pub fn blocks_are_equated()
    ensures state { (a b : State) → IsTrue (⟦<State as PartialEq>⟧.eq a b) ↔ (a ≡ b) }
    ensures names { (a b : Names) → IsTrue (⟦<Names as PartialEq>⟧.eq a b) ↔ (a ≡ b) }
    ensures sender { (a b : Sender) → IsTrue (⟦<Sender as PartialEq>⟧.eq a b) ↔ (a ≡ b) }
    ensures receiver { (a b : Receiver) → IsTrue (⟦<Receiver as PartialEq>⟧.eq a b) ↔ (a ≡ b) }
    ensures peer { (a b : Peer) → IsTrue (⟦<Peer as PartialEq>⟧.eq a b) ↔ (a ≡ b) }
    ensures stamps { (a b : Stamps) → IsTrue (⟦<Stamps as PartialEq>⟧.eq a b) ↔ (a ≡ b) }
    ensures timers { (a b : Timers) → IsTrue (⟦<Timers as PartialEq>⟧.eq a b) ↔ (a ≡ b) }
    ensures round_trip { (a b : RoundTripValue) → IsTrue (⟦<RoundTrip as PartialEq>⟧.eq a b) ↔ (a ≡ b) }
    ensures reno { (a b : RenoValue) → IsTrue (⟦<Reno as PartialEq>⟧.eq a b) ↔ (a ≡ b) }
    ensures run { (a b : Run) → IsTrue (⟦<Run as PartialEq>⟧.eq a b) ↔ (a ≡ b) }
    ensures scoreboard { (a b : Scoreboard) → IsTrue (⟦<Scoreboard as PartialEq>⟧.eq a b) ↔ (a ≡ b) }
    ensures undo { (a b : Undo) → IsTrue (⟦<Undo as PartialEq>⟧.eq a b) ↔ (a ≡ b) }
    ensures loss { (a b : Loss) → IsTrue (⟦<Loss as PartialEq>⟧.eq a b) ↔ (a ≡ b) }
    ensures congestion { (a b : CongestionControl) → IsTrue (⟦<CongestionControl as PartialEq>⟧.eq a b) ↔ (a ≡ b) }
    ensures settings { (a b : Settings) → IsTrue (⟦<Settings as PartialEq>⟧.eq a b) ↔ (a ≡ b) }
    ensures tcb { (a b : Tcb) → IsTrue (⟦<Tcb as PartialEq>⟧.eq a b) ↔ (a ≡ b) }
{}

/// Law: the same of endpoints, offers, answers and what becomes of a segment.
pub fn offers_are_equated()
    ensures addresses { (a b : AddressPair) → IsTrue (⟦<AddressPair as PartialEq>⟧.eq a b) ↔ (a ≡ b) }
    ensures pair { (a b : FourTuple) → IsTrue (⟦<FourTuple as PartialEq>⟧.eq a b) ↔ (a ≡ b) }
    ensures kind { (a b : OfferKind) → IsTrue (⟦<OfferKind as PartialEq>⟧.eq a b) ↔ (a ≡ b) }
    ensures open_offer { (a b : OpenOffer) → IsTrue (⟦<OpenOffer as PartialEq>⟧.eq a b) ↔ (a ≡ b) }
    ensures reply { (a b : Reply) → IsTrue (⟦<Reply as PartialEq>⟧.eq a b) ↔ (a ≡ b) }
    ensures verdict { (a b : Verdict) → IsTrue (⟦<Verdict as PartialEq>⟧.eq a b) ↔ (a ≡ b) }
    ensures part { (a b : Part) → IsTrue (⟦<Part as PartialEq>⟧.eq a b) ↔ (a ≡ b) }
{}

/// Law: no names, nothing that is held or lost, and the byte that probes a closed window.
pub fn constants()
    ensures names { Names.NONE ≡ record { listen = record { addr = None; port = 0 }; pair = None } }
    ensures run { Run.NONE ≡ no_run }
    ensures scoreboard { Scoreboard.EMPTY ≡ record { runs = no_runs } }
    ensures probe { PROBE ≡ record { offset = 0; len = 1; fin = false } }
{}

/// Law: the names of the states are those of RFC 9293, section 3.3.2.
pub fn states_have_names()
    ensures closed { ⟦<State as Display>⟧.output State.Closed ≡ Some (codes "CLOSED") }
    ensures listen { ⟦<State as Display>⟧.output State.Listen ≡ Some (codes "LISTEN") }
    ensures syn_sent { ⟦<State as Display>⟧.output State.SynSent ≡ Some (codes "SYN-SENT") }
    ensures syn_received { ⟦<State as Display>⟧.output State.SynReceived ≡ Some (codes "SYN-RECEIVED") }
    ensures established { ⟦<State as Display>⟧.output State.Established ≡ Some (codes "ESTABLISHED") }
    ensures fin_wait1 { ⟦<State as Display>⟧.output State.FinWait1 ≡ Some (codes "FIN-WAIT-1") }
    ensures fin_wait2 { ⟦<State as Display>⟧.output State.FinWait2 ≡ Some (codes "FIN-WAIT-2") }
    ensures close_wait { ⟦<State as Display>⟧.output State.CloseWait ≡ Some (codes "CLOSE-WAIT") }
    ensures closing { ⟦<State as Display>⟧.output State.Closing ≡ Some (codes "CLOSING") }
    ensures last_ack { ⟦<State as Display>⟧.output State.LastAck ≡ Some (codes "LAST-ACK") }
    ensures time_wait { ⟦<State as Display>⟧.output State.TimeWait ≡ Some (codes "TIME-WAIT") }
{}
