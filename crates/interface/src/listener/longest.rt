//! The entry that has been at a stage for longest.
ghost use Rattle.interface.specs.Backlog.Oldest.{IsOldest};

use crate::listener::entry::Entry;
use crate::listener::stage::Stage;

/// Where the entry is that has been at this stage for longest, the first of several.
#[tactic(auto, using(crate::proofs::Backlog::Older::older))]
pub(crate) fn oldest(entries: &[Entry], stage: Stage) -> Option<usize>
    ensures { IsOldest stage entries.now result }
{
    let mut found: Option<usize> = None;
    for i in 0..entries.len() {
        if entries[i].stage == stage {
            match found {
                Some(best) if entries[best].since <= entries[i].since => {}
                _ => found = Some(i),
            }
        }
    }
    found
}
