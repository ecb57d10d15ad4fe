//! How many bytes were read, and their sum: the CRC-32 of RFC 1952, section 8, which any changed byte changes, and any two bytes that
//! change offsets (of less than 2^29 bytes).
ghost use Rattle.std.specs.Prelude.{◌≡◌, [], OnOk};
ghost use Rattle.std.specs.Io.KnownBytes.{Appends};
ghost use Rattle.app_case_files.specs.Tallies.{following_bit, following_byte, following_four_bits, tally, tally_line, with_bytes};

use std::io::{self, Write};

/// What a bit that falls out of the register is worth.
const POLYNOMIAL: u32 = 0xedb8_8320;

/// How many bytes were read, and their sum.
#[derive(Clone, Copy)]
pub struct Tally {
    count: u64,
    register: u32,
}

impl Tally {
    /// Of no byte.
    pub fn new() -> Tally
        ensures { result ≡ tally [] }
    {
        Tally {
            count: 0,
            register: u32::MAX,
        }
    }

    /// Further bytes.
    pub fn take(&mut self, bytes: &[u8])
        ensures { self.new ≡ with_bytes self.old bytes.now }
    {
        self.count = self.count.wrapping_add(bytes.len() as u64);
        self.register = bytes.iter().fold(
            self.register,
            |register, byte| following_byte(register, *byte),
        );
    }

    /// Writes both on a line.
    pub fn write_line<W: Write>(&self, writer: &mut W) -> io::Result<()>
        ensures { OnOk result (Appends (W.contents writer.old) (W.contents writer.new) (tally_line self.now)) }
    {
        let sum = self.register ^ u32::MAX;
        writeln!(writer, "read {} bytes, sum {sum}", self.count)
    }
}

#[tactic(auto, unfolding(crate::specs::Tallies::following_byte))]
fn following_byte(register: u32, byte: u8) -> u32
    ensures { result ≡ following_byte register byte }
{
    following_four_bits(following_four_bits(register ^ u32::from(byte)))
}

fn following_four_bits(register: u32) -> u32
    ensures { result ≡ following_four_bits register }
{
    following_bit(following_bit(following_bit(following_bit(register))))
}

#[tactic(auto, unfolding(crate::specs::Tallies::following_bit))]
fn following_bit(register: u32) -> u32
    ensures { result ≡ following_bit register }
{
    if register % 2 == 1 {
        (register >> 1) ^ POLYNOMIAL
    } else {
        register >> 1
    }
}
