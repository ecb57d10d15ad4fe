//! The lines of a file of cases.
ghost use Rattle.std.specs.Prelude.{◌≡◌, ◌==◌};

/// What a line of a file of cases is.
pub(crate) enum CaseLine<'a> {
    /// A comment, or empty.
    Passed,
    /// Begins the case of this name.
    Name(&'a [u8]),
    /// A line of the case.
    Text(&'a [u8]),
}

/// What a line is, without the line feed that ends it.
pub(crate) fn case_line(line: &[u8]) -> CaseLine<'_> {
    match line {
        [] | [b'#', ..] => CaseLine::Passed,
        [b'=', b'=', b' ', name @ ..] => CaseLine::Name(name),
        _ => CaseLine::Text(line),
    }
}

/// Whether a byte ends a line.
pub fn ends_line(byte: &u8) -> bool
    ensures { result ≡ (byte.now == 10) }
{
    *byte == b'\n'
}
