//! Texts with values that can be printed: each format stands once, whatever the values are.
ghost use Rattle.std.specs.Prelude.{Some, codes};
ghost use Rattle.std.specs.Fmt.{DisplaysOnOk, ◌++?◌};

use std::fmt::{Display, Formatter, Result, Write};

/// Writes a text, and a value after it.
pub(crate) fn write_value<A: Display + Copy, W: Write>(
    f: &mut Formatter<W>,
    what: &str,
    value: A,
) -> Result
    ensures { DisplaysOnOk W.write_str_gives f.old result (Some what.now ++? A.output value) f.new }
{
    write!(f, "{what}{value}")
}

/// Writes two values, each after a text.
pub(crate) fn write_values<A: Display + Copy, B: Display + Copy, W: Write>(
    f: &mut Formatter<W>,
    what: &str,
    first: A,
    between: &str,
    second: B,
) -> Result
    ensures { DisplaysOnOk W.write_str_gives f.old result (Some what.now ++? A.output first ++? Some between.now ++? B.output second) f.new }
{
    write!(f, "{what}{first}{between}{second}")
}

/// Writes what an error says, and the header that it quotes.
pub(crate) fn write_error<A: Display + Copy, B: Display + Copy, W: Write>(
    f: &mut Formatter<W>,
    what: &str,
    reason: A,
    header: B,
) -> Result
    ensures { DisplaysOnOk W.write_str_gives f.old result (Some what.now ++? A.output reason ++? Some (codes ", of [") ++? B.output header ++? Some (codes "]")) f.new }
{
    write!(f, "{what}{reason}, of [{header}]")
}
