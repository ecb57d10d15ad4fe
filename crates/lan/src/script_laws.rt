//! The laws of the script language. Each is a function that does nothing, whose clause is the law.
ghost use Rattle.std.specs.Prelude.{◌≡◌, ◌^◌, ℕ, List};
ghost use Rattle.sim_link.specs.Lines.{SaysLine};
ghost use Rattle.sim_link.specs.declared.line.Line.{Line};
ghost use Rattle.lan.specs.Scripts.{IsReplay, IsSameReplay};

use crate::host_laws::one_outcome;
use crate::script::MOST_READS;

/// `replay` reads from its reader 2^32 times at most.
pub fn reads_have_a_bound()
    ensures { MOST_READS ≡ 2 ^ 32 }
{}

/// What a script writes, and its status, are determined, unless memory was wanting.
pub fn scripts_have_one_outcome()
    ensures { (script output other : List ℕ) (status last : ℕ) → IsReplay script output status → IsReplay script other last →
        IsSameReplay output status other last }
{
    one_outcome();
}
