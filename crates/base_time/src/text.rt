//! The text that lengths of time and instants share.
ghost use Rattle.std.specs.Prelude.{Some};
ghost use Rattle.std.specs.Fmt.{DisplaysOnOk};
ghost use Rattle.base_time.specs.Text.{seconds_text};

use std::fmt;

/// Writes so many microseconds as seconds, with three digits after the point.
pub(crate) fn write_seconds<W: fmt::Write>(f: &mut fmt::Formatter<W>, micros: u64) -> fmt::Result
    ensures { DisplaysOnOk W.write_str_gives f.old result (Some (seconds_text micros)) f.new }
{
    let seconds = micros / 1_000_000;
    let millis = micros % 1_000_000 / 1000;
    let (hundreds, tens, ones) = (millis / 100, millis / 10 % 10, millis % 10);
    write!(f, "{seconds}.{hundreds}{tens}{ones}s")
}
