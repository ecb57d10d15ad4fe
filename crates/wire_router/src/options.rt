//! Options of neighbour discovery, one after the other (RFC 4861, section 4.6).
ghost use Rattle.std.specs.Prelude.{◌≡◌, ◌↔◌, ℕ, IsTrue, IsOk, IfOk, List};
ghost use Rattle.wire_icmpv6.specs.NdiscOption.{OptionValue, Begins};
ghost use Rattle.wire_router.specs.Options.{AreOptions, value_of};

use wire_address::Error;

/// How many bytes a unit of an option's length field stands for.
const UNIT: usize = 8;

/// An option: its type, and what is after its length field.
#[derive(Clone, Copy, Debug)]
pub struct OptionBytes<'a> {
    pub option_type: u8,
    pub inside: &'a [u8],
}

impl<'a> OptionBytes<'a> {
    /// The option at the front, and the bytes after it.
    pub fn parse(bytes: &'a [u8]) -> Result<(OptionBytes<'a>, &'a [u8]), Error>
        ensures found { IfOk result (λ p. Begins bytes.now (value_of p.0) p.1.now) }
        ensures only { (o : OptionValue) (rest : List ℕ)
            → Begins bytes.now o rest
            → IsOk result × IfOk result (λ p. (value_of p.0 ≡ o) × (p.1.now ≡ rest)) }
    {
        let [option_type, units, ..] = bytes else {
            return Err(Error);
        };
        let length = UNIT * *units as usize;
        if length == 0 || length > bytes.len() {
            return Err(Error);
        }
        let (option, rest) = bytes.split_at(length);
        let option = OptionBytes {
            option_type: *option_type,
            inside: &option[2..],
        };
        Ok((option, rest))
    }
}

/// Whether the bytes are options to their end.
pub fn are_options(bytes: &[u8]) -> bool
    ensures { IsTrue result ↔ AreOptions bytes.now }
{
    let mut rest = bytes;
    while !rest.is_empty() {
        match OptionBytes::parse(rest) {
            Ok((_option, following)) => rest = following,
            Err(_) => return false,
        }
    }
    true
}
