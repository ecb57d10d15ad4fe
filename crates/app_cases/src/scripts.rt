//! Scripts of two hosts.
ghost use Rattle.std.specs.Prelude.{◌≢◌, List, ℕ, IfOk};
ghost use Rattle.std.specs.Io.KnownBytes.{Appends};
ghost use Rattle.lan.specs.Scripts.{IsReplay};
ghost use Rattle.app_cases.specs.Cases.{case_text};

use app_case_files::Case;
use std::alloc::Global;
use std::io::{self, Write};

/// Plays a case: its name, what its script writes, and with which status it ended.
pub fn play_case<W: Write>(alloc: Global, case: &Case, writer: &mut W) -> io::Result<u8>
    ensures played { IfOk result (λ status. status ≢ 2 → (output : List ℕ)
        × IsReplay case.now.text.items output status
        × Appends (W.contents writer.old) (W.contents writer.new) (case_text case.now.name.items output status)) }
{
    writer.write_all(b"== ")?;
    writer.write_all(case.name.as_slice())?;
    writer.write_all(b"\n")?;
    let mut script = case.text.as_slice();
    let status = lan::replay(alloc, &mut script, writer);
    writeln!(writer, "status {status}")?;
    Ok(status)
}
