//! What `==` says of the answers of hosts at a link, and of why they make no world: two are equal exactly where they are the same
//! value.
ghost use Rattle.std.specs.Prelude.{◌≡◌, ◌↔◌, IsTrue};

use lan::WorldError;
use lan::at_link::Brief;

/// Law: `==` says of two answers without bytes, and of why hosts make no world, whether it is the same.
pub fn worlds_are_equated()
    ensures answers { (a b : Brief) → IsTrue (⟦<Brief as PartialEq>⟧.eq a b) ↔ (a ≡ b) }
    ensures worlds { (a b : WorldError) → IsTrue (⟦<WorldError as PartialEq>⟧.eq a b) ↔ (a ≡ b) }
{}
