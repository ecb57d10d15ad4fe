//! What `==` says of events' and histories' values, and of runs of bytes in a frame: two are equal exactly where they are the
//! same value.
ghost use Rattle.std.specs.Prelude.{◌≡◌, ◌↔◌, IsTrue};

use lan::at_link::{Fault, Opening, Refused, Side, SocketKind, SocketRecord, TcpSetting};
use sim_link::Part;

/// Law: `==` says of two faults, and of two reasons of a refusal, whether they are the same.
pub fn faults_are_equated()
    ensures faults { (a b : Fault) → IsTrue (⟦<Fault as PartialEq>⟧.eq a b) ↔ (a ≡ b) }
    ensures refusals { (a b : Refused) → IsTrue (⟦<Refused as PartialEq>⟧.eq a b) ↔ (a ≡ b) }
{}

/// Law: `==` says of two sides, kinds of sockets, openings and records whether they are the same.
pub fn records_are_equated()
    ensures sides { (a b : Side) → IsTrue (⟦<Side as PartialEq>⟧.eq a b) ↔ (a ≡ b) }
    ensures kinds { (a b : SocketKind) → IsTrue (⟦<SocketKind as PartialEq>⟧.eq a b) ↔ (a ≡ b) }
    ensures openings { (a b : Opening) → IsTrue (⟦<Opening as PartialEq>⟧.eq a b) ↔ (a ≡ b) }
    ensures records { (a b : SocketRecord) → IsTrue (⟦<SocketRecord as PartialEq>⟧.eq a b) ↔ (a ≡ b) }
{}

/// Law: `==` says of two settings of TCP sockets, and of two runs of bytes, whether they are the same.
pub fn settings_are_equated()
    ensures settings { (a b : TcpSetting) → IsTrue (⟦<TcpSetting as PartialEq>⟧.eq a b) ↔ (a ≡ b) }
    ensures parts { (a b : Part) → IsTrue (⟦<Part as PartialEq>⟧.eq a b) ↔ (a ≡ b) }
{}
