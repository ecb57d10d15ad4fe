//! Numbers in network order inside byte slices. Every format reads and writes its fields by these
//! calls, so that all contracts speak of numbers in bytes in one way.
ghost use Rattle.std.specs.Prelude.{◌≡◌, ◌≢◌, ◌⊎◌, ℕ, ◌+◌, ◌^◌, ◌<◌, ◌≤◌, List, ◌∷◌, ◌++◌, length, drop, slice_index, slice_range};
ghost use Rattle.std.specs.Int.{w16, w32, to_be_bytes};
ghost use Rattle.wire_address.specs.Fields.{be16, be32, put8, put16, put32, IsBytes};

use byteorder::{BigEndian, ByteOrder};

/// The number of the two bytes at `at`.
#[inline]
pub fn read_u16(bytes: &[u8], at: usize) -> u16
    requires { at + 2 ≤ length bytes.now }
    ensures { result ≡ be16 bytes.now at }
{
    BigEndian::read_u16(&bytes[at..at + 2])
}

/// The number of the four bytes at `at`.
#[inline]
pub fn read_u32(bytes: &[u8], at: usize) -> u32
    requires { at + 4 ≤ length bytes.now }
    ensures { result ≡ be32 bytes.now at }
{
    BigEndian::read_u32(&bytes[at..at + 4])
}

/// Writes the two bytes at `at`.
#[inline]
pub fn write_u16(bytes: &mut [u8], at: usize, value: u16)
    requires { at + 2 ≤ length bytes.old }
    ensures { bytes.new ≡ put16 bytes.old at value }
{
    let [high, low] = value.to_be_bytes();
    bytes[at] = high;
    bytes[at + 1] = low;
}

/// Writes the four bytes at `at`.
#[inline]
pub fn write_u32(bytes: &mut [u8], at: usize, value: u32)
    requires { at + 4 ≤ length bytes.old }
    ensures { bytes.new ≡ put32 bytes.old at value }
{
    let [first, second, third, fourth] = value.to_be_bytes();
    bytes[at] = first;
    bytes[at + 1] = second;
    bytes[at + 2] = third;
    bytes[at + 3] = fourth;
}

/// Law: of two numbers written at one place the second counts.
pub fn second_write_counts()
    ensures { (bytes : List ℕ) (at first second : ℕ) → put16 (put16 bytes at first) at second ≡ put16 bytes at second }
{}

/// Law: a number that was written is read at its offset, and what was read at another offset stays.
pub fn written_numbers_are_read()
    ensures one { (bytes : List ℕ) (at value : ℕ) → at < length bytes → slice_index (put8 bytes at value) at ≡ value }
    ensures two { (bytes : List ℕ) (at value : ℕ) → at + 2 ≤ length bytes → value < 2 ^ 16 → be16 (put16 bytes at value) at ≡ value }
    ensures four { (bytes : List ℕ) (at value : ℕ) → at + 4 ≤ length bytes → value < 2 ^ 32 → be32 (put32 bytes at value) at ≡ value }
    ensures one_elsewhere { (bytes : List ℕ) (at offset value : ℕ) → offset ≢ at → slice_index (put8 bytes at value) offset ≡ slice_index bytes offset }
    ensures two_elsewhere { (bytes : List ℕ) (at offset value : ℕ) → (offset < at) ⊎ (at + 2 ≤ offset) →
        slice_index (put16 bytes at value) offset ≡ slice_index bytes offset }
    ensures four_elsewhere { (bytes : List ℕ) (at offset value : ℕ) → (offset < at) ⊎ (at + 4 ≤ offset) →
        slice_index (put32 bytes at value) offset ≡ slice_index bytes offset }
{}

/// Law: what stands from an offset on is the bytes of the field there, then what stands after it.
pub fn fields_stand_in_turn()
    ensures one { (bytes : List ℕ) (at value : ℕ) (rest : List ℕ) → at < length bytes → value ≡ slice_index bytes at → drop (at + 1) bytes ≡ rest →
        drop at bytes ≡ value ∷ rest }
    ensures two { (bytes : List ℕ) (at value : ℕ) (rest : List ℕ) → IsBytes bytes → at + 2 ≤ length bytes → value ≡ be16 bytes at → drop (at + 2) bytes ≡ rest →
        drop at bytes ≡ to_be_bytes w16 value ++ rest }
    ensures four { (bytes : List ℕ) (at value : ℕ) (rest : List ℕ) → IsBytes bytes → at + 4 ≤ length bytes → value ≡ be32 bytes at →
        drop (at + 4) bytes ≡ rest → drop at bytes ≡ to_be_bytes w32 value ++ rest }
    ensures run { (bytes : List ℕ) (at end : ℕ) (field rest : List ℕ) → at ≤ end → field ≡ slice_range bytes at end → drop end bytes ≡ rest →
        drop at bytes ≡ field ++ rest }
{}
