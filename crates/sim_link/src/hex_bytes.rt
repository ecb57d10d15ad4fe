//! Bytes in the text of a line.
ghost use Rattle.std.specs.Prelude.{◌≡◌, IfOk};
ghost use Rattle.std.specs.List.{list_all};
ghost use Rattle.std.specs.Char.{is_ascii_hexdigit};
ghost use Rattle.std.specs.Result.{is_ok};
ghost use Rattle.hex.specs.Hex.{decode_of};
ghost use Rattle.sim_link.specs.Words.{hex_bytes_of};

use std::alloc::{AllocError, Global};
use std::marker::Model;

/// The text of bytes: pairs of hex digits, or `-` for no bytes. It takes no memory of its own. A contract sees the bytes.
#[derive(Drop)]
pub struct HexBytes<'a> {
    // None where the text is `-`.
    digits: Option<&'a str>,
}

impl<'a> Model for HexBytes<'a> {
    ghost use Rattle.std.specs.Prelude.{List, ℕ};
    ghost use Rattle.sim_link.specs.Words.{bytes_said, IsHex};

    ghost Value = { List ℕ };

    ghost view = { λ h. bytes_said h.digits };

    ghost invariant = { λ h. IsHex h.digits };
}

impl<'a> HexBytes<'a> {
    /// The bytes that a text says, in either case.
    pub fn from_text(word: &'a str) -> Option<HexBytes<'a>>
        ensures { result ≡ hex_bytes_of word.now }
    {
        if word == "-" {
            return Some(HexBytes { digits: None });
        }
        if word.is_empty() || !is_hex(word) {
            return None;
        }
        Some(HexBytes { digits: Some(word) })
    }

    /// The bytes in memory of their own.
    pub fn decode(&self, alloc: Global) -> Result<Vec<u8>, AllocError>
        ensures { IfOk result (λ bytes. bytes.items ≡ self.now) }
    {
        match self.digits {
            None => Ok(Vec::new(alloc)),
            Some(digits) => hex::decode(alloc, digits).map_err(|_| AllocError),
        }
    }
}

fn is_hex(word: &str) -> bool
    ensures { result ≡ is_ok (decode_of word.now) }
{
    word.len() % 2 == 0 && all_hex_digits(word)
}

fn all_hex_digits(word: &str) -> bool
    ensures { result ≡ list_all is_ascii_hexdigit word.now }
{
    word.bytes().all(|b| b.is_ascii_hexdigit())
}
