//! What is kept of a socket of two hosts at a link: the first record, and how many bytes are too many; and what faults, refusals and
//! errors of a world say.
ghost use Rattle.std.specs.Prelude.{◌≡◌, ◌↔◌, ◌+◌, ◌≤◌, ℕ, IsTrue, None, Some};
ghost use Rattle.lan.specs.Worlds.AtLink.Tables.{is_too_many};
ghost use Rattle.lan.specs.Worlds.AtLink.ErrorTexts.{fault_text, refused_text};
ghost use Rattle.lan.specs.New.{world_error_text};

use lan::at_link::SocketRecord;
use lan::{Fault, Refused, WorldError};
use std::fmt::Display;

/// Law: a socket accepts fewer than 2^29 bytes.
pub fn most_bytes()
    ensures { (r : SocketRecord) (more : ℕ) → IsTrue (is_too_many r more) ↔ (536870912 ≤ r.accepted + more) }
{}

/// The record of a socket at which nothing happened.
pub fn no_record() -> SocketRecord
    ensures opened { result.opened ≡ None }
    ensures accepted { result.accepted ≡ 0 }
{
    SocketRecord::NONE
}

/// Law: what faults, refusals and errors say.
pub fn world_texts()
    ensures faults { (fault : Fault) → ⟦<Fault as Display>⟧.output fault ≡ Some (fault_text fault) }
    ensures refusals { (refused : Refused) → ⟦<Refused as Display>⟧.output refused ≡ Some (refused_text refused) }
    ensures errors { (error : WorldError) → ⟦<WorldError as Display>⟧.output error ≡ Some (world_error_text error) }
{}
