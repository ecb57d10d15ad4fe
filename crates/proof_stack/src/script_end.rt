//! Of the run of a script: when two ends are equal, how often it reads, and the promise of `replay`, which a program doesn't say
//! again.
ghost use Rattle.std.specs.Prelude.{◌≡◌, ◌≢◌, ◌↔◌, ◌≤◌, ℕ, List, IsTrue, IfSome};
ghost use Rattle.std.specs.Io.KnownBytes.{Appends};
ghost use Rattle.lan.specs.FragmentList.{ReadsOn};
ghost use Rattle.lan.specs.Scripts.{IsReplay};
ghost use Rattle.lan.specs.contracts.end.EndPartialEq.TheImpl as Ends;
ghost use Rattle.lan.specs.declared.end.End.{End};

use lan::MOST_READS;
use std::alloc::Global;
use std::io::{Read, Write};

/// Law: `==` says of the ends of two scripts whether they are the same.
pub fn ends_are_equated()
    ensures { (a b : End) → IsTrue (Ends.ghosts.eq a b) ↔ (a ≡ b) }
{}

/// Law: a run of a script reads at most 2^32 times.
pub fn most_reads()
    ensures { MOST_READS ≡ 4294967296 }
{}

/// A script is run.
pub fn run<R: Read, W: Write>(alloc: Global, reader: &mut R, writer: &mut W) -> u8
    ensures status { result ≤ 2 }
    ensures replays { result ≢ 2 → (script output : List ℕ)
        × IfSome (R.remaining reader.old) (λ input. script ≡ input)
        × IsReplay script output result
        × Appends (W.contents writer.old) (W.contents writer.new) output }
    ensures reads { result ≢ 2 → ReadsOn (R.remaining reader.old) (R.remaining reader.new) }
{
    lan::replay(alloc, reader, writer)
}
