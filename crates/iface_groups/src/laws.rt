//! What the rules are for, and what they refuse.
ghost use Rattle.std.specs.Prelude.{◌≡◌, ℕ, ◌+◌, ◌*◌, ◌<◌, ◌≤◌, true, false, Option, Some, None, List, [], ◌∷◌, length};
ghost use Rattle.wire_igmp.specs.declared.group_record.RecordType.TheVariants as Record;
ghost use Rattle.iface_groups.specs.History.{Event, Include, run, told_in, hears_all, forwards, changes_in, queries_in, says_it_listens};
ghost use Rattle.iface_groups.specs.Member.{absent, joined, left_group, queried, heard, due_at, next_told, after_told, IsSound, IsDueBy, IsToldTwice};
ghost use Rattle.iface_groups.specs.Querier.{mode_at, heard_query};
ghost use Rattle.iface_groups.specs.declared.member.Member.{Member};
ghost use Rattle.iface_groups.specs.declared.mode.CompatibilityMode.{CompatibilityMode};
ghost use Rattle.iface_groups.specs.declared.mode.CompatibilityMode.TheVariants as Mode;
ghost use Rattle.iface_groups.specs.declared.mode.Told.{Told};
ghost use Rattle.iface_groups.specs.declared.mode.Told.TheVariants as Told_of;
ghost use Rattle.iface_groups.specs.declared.querier.Querier.{Querier};

use crate::member::Member;
use crate::mode::{CompatibilityMode, Told};
use crate::querier::Querier;

/// Law: a router that reads a host's records in the order in which they left forwards the group where the
/// host listens to it, and only there, once a record of the last change came (RFC 3376, 6.4).
pub fn the_last_record_counts()
    ensures { (history : List Event)
        → (run absent history).changes ≤ 1
        → forwards (hears_all Include (told_in absent history)) ≡ (run absent history).listens }
{}

/// Law: before the moment at which something is due nothing is told, from it on something is.
pub fn reports_are_quiet()
    ensures before { (mode : CompatibilityMode) (now at : ℕ) (m : Member) → due_at m ≡ Some at → now < at → next_told mode now m ≡ None }
    ensures never { (mode : CompatibilityMode) (now : ℕ) (m : Member) → due_at m ≡ None → next_told mode now m ≡ None }
    ensures then { (mode : CompatibilityMode) (now at : ℕ) (m : Member) → due_at m ≡ Some at → at ≤ now → next_told mode now m ≡ None → ⊥ }
{}

/// Law: a host that joins a group tells it at once and once more after the gap, and then no more.
pub fn a_group_is_told()
    ensures { (mode : CompatibilityMode) (now gap : ℕ) (m : Member) → m.listens ≡ false → IsToldTwice mode now gap m }
{}

/// Law: of a group that the host listens to, a query has something due by its moment, and what is told
/// then says that the host listens.
pub fn a_query_is_answered()
    ensures due { (at : ℕ) (m : Member) → m.listens ≡ true → IsDueBy at (due_at (queried at m)) }
    ensures says { (mode : CompatibilityMode) (now : ℕ) (m : Member) (told : Told)
        → m.listens ≡ true
        → next_told mode now m ≡ Some told
        → says_it_listens told ≡ true }
{}

/// Law: what is told says that the host listens where it does, and that it doesn't where it left. In a
/// history at most two reports of each change leave, and one of each query.
pub fn nothing_else_is_told()
    ensures says { (mode : CompatibilityMode) (now : ℕ) (m : Member) (told : Told)
        → IsSound m
        → next_told mode now m ≡ Some told
        → says_it_listens told ≡ m.listens }
    ensures counted { (history : List Event) → length (told_in absent history) ≤ 2 * changes_in history + queries_in history }
{}

/// Law: of a group that the host doesn't listen to no query is to be answered.
pub fn members_are_sound()
    ensures absent { IsSound absent }
    ensures join { (now gap : ℕ) (m : Member) → IsSound m → IsSound (joined now gap m) }
    ensures leave { (mode : CompatibilityMode) (now gap : ℕ) (m : Member) → IsSound m → IsSound (left_group mode now gap m) }
    ensures query { (at : ℕ) (m : Member) → IsSound m → IsSound (queried at m) }
    ensures hear { (m : Member) → IsSound m → IsSound (heard m) }
    ensures tell { (now : ℕ) (m : Member) → IsSound m → IsSound (after_told now m) }
{}

/// Law: a join that is told as a change to include isn't forwarded; a leave that is told as a change to
/// exclude, or as the filter being include, goes on being forwarded.
pub fn exchanged_records_are_refused()
    ensures join { forwards (hears_all Include (Told_of.Record Record.ChangeToInclude ∷ [])) ≡ false }
    ensures leave { forwards (hears_all Include (Told_of.Record Record.ChangeToExclude ∷ Told_of.Record Record.ChangeToExclude ∷ [])) ≡ true }
    ensures mode { forwards (hears_all Include (Told_of.Record Record.ChangeToExclude ∷ Told_of.Record Record.ModeIsInclude ∷ [])) ≡ true }
{}

/// Law: after a query of version 1 a host keeps to it for 260 seconds, after one of version 2 unless one of
/// version 1 counts; then it is of version 3 again.
pub fn an_older_querier_counts_for_a_while()
    ensures first { (now later : ℕ) (q : Querier) → later < now + 260_000_000 → mode_at later (heard_query Mode.Igmpv1 now q) ≡ Mode.Igmpv1 }
    ensures second { (now later : ℕ) (q : Querier)
        → q.igmpv1_until ≤ later
        → later < now + 260_000_000
        → mode_at later (heard_query Mode.Igmpv2 now q) ≡ Mode.Igmpv2 }
    ensures over { (later : ℕ) (q : Querier) → q.igmpv1_until ≤ later → q.igmpv2_until ≤ later → mode_at later q ≡ Mode.Igmpv3 }
{}
