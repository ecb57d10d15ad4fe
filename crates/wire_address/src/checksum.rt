//! The Internet checksum (RFC 1071). A checksum field holds the complement of the one's complement
//! sum of all 16-bit words that it covers, so a receiver's sum over all of them is `0xffff`.
ghost use Rattle.std.specs.Prelude.{◌≡◌, ◌≢◌, ◌↔◌, ℕ, ◌+◌, ◌-◌, ◌*◌, ◌/◌, ◌%◌, ◌^◌, ◌<◌, ◌≤◌, List, ◌++◌, length, sum};
ghost use Rattle.wire_address.specs.Address.{version_of};
ghost use Rattle.wire_address.specs.Fields.{be16, put16};
ghost use Rattle.std.specs.Simd.Lanes.{fold_l, zip2};
ghost use Rattle.wire_address.specs.Halves.{halves_in};
ghost use Rattle.wire_address.specs.LowFirst.{low_first};
ghost use Rattle.wire_address.specs.Protocol.{protocol_number};
ghost use Rattle.wire_address.specs.Pseudo.{FitsPseudo, covered, pseudo_of, pseudo_v4, pseudo_v6};
ghost use Rattle.wire_address.specs.Sum.{word_sum, folded, ChecksumHolds, complement};

use crate::ip::{IpAddress, IpProtocol};
use crate::ipv4::Ipv4Address;
use crate::ipv6::Ipv6Address;
use crate::network_order::read_u16;
use std::simd::prelude::*;

/// The one's complement sum of the 16-bit words of the bytes, not complemented. An odd last byte
/// is the high byte of a word.
pub fn data(bytes: &[u8]) -> u16
    ensures { result ≡ folded (word_sum bytes.now) }
{
    if WORTH_COPYING <= bytes.len() && bytes.len() < 0x1_0000_0000 {
        sum_in_vectors(bytes)
    } else {
        fold(sum_low_first(bytes)).swap_bytes()
    }
}

/// Below so many bytes a copy, and then the sum of the whole packet, is quicker than `copy`.
pub const WORTH_COPYING: usize = 256;

/// The sum by eight words a step, as `copy` has it.
fn sum_in_vectors(bytes: &[u8]) -> u16
    requires fits { length bytes.now < 2 ^ 32 }
    ensures { result ≡ folded (word_sum bytes.now) }
{
    let whole = bytes.len() / 64 * 64;
    let (mut words, mut high) = (u64x8::splat(0), u64x8::splat(0));
    let mut done = 0;
    while done < whole {
        let these = u64x8::from_le_bytes(u8x64::from_slice(&bytes[done..]));
        words += these;
        high += these >> u64x8::splat(32);
        done += 64;
    }
    let halves = sum_of_halves(words, high) as u128;
    fold(add_u128(halves, sum_low_first(&bytes[done..]))).swap_bytes()
}

/// Copies the bytes and answers their sum, as `data` does, in one pass over them. It is for payloads
/// that are written into a frame.
pub fn copy(to: &mut [u8], from: &[u8]) -> u16
    requires same_length { length to.old ≡ length from.now }
    requires fits { length from.now < 2 ^ 32 }
    ensures copied { to.new ≡ from.now }
    ensures sum { result ≡ folded (word_sum from.now) }
{
    let whole = from.len() / 64 * 64;
    let (mut words, mut high) = (u64x8::splat(0), u64x8::splat(0));
    let mut done = 0;
    while done < whole {
        let bytes = u8x64::from_slice(&from[done..]);
        bytes.copy_to_slice(&mut to[done..]);
        let these = u64x8::from_le_bytes(bytes);
        words += these;
        high += these >> u64x8::splat(32);
        done += 64;
    }
    to[done..].copy_from_slice(&from[done..]);
    let halves = sum_of_halves(words, high) as u128;
    fold(add_u128(halves, sum_low_first(&from[done..]))).swap_bytes()
}

/// What the halves of words sum to, of which these are the sums of the words, as far as a lane holds them, and of
/// their high halves. Since 2^32 is 1 modulo 65535 the halves count as the words do, and their sums overflow
/// no lane; what the words sum to without the high halves is what the low ones do.
fn sum_of_halves(words: u64x8, high: u64x8) -> u64
    ensures { result ≡ fold_l (λ a b. (a + b) % 2 ^ 64) 0 (zip2 halves_in words high) }
{
    (words - (high << u64x8::splat(32)) + high).reduce_sum()
}

/// The one's complement sum of two strings of bytes, one after the other, of their sums. The bytes
/// of the second lie the other way round in the words where the first has an odd length.
pub const fn join(front: u16, front_len: usize, back: u16) -> u16
    ensures { (first second : List ℕ) → length first ≡ front_len → front ≡ folded (word_sum first) → back ≡ folded (word_sum second) →
        result ≡ folded (word_sum (first ++ second)) }
{
    add(
        front,
        if front_len.is_multiple_of(2) {
            back
        } else {
            back.swap_bytes()
        },
    )
}

/// The one's complement sum of sums, as those of the parts of what one checksum covers.
pub fn combine(checksums: &[u16]) -> u16
    ensures { result ≡ folded (sum checksums.now) }
{
    let mut total: u128 = 0;
    for checksum in checksums {
        total += *checksum as u128;
    }
    fold(total)
}

/// The one's complement sum of two sums, as those of a pseudo header and of what follows it.
pub const fn add(a: u16, b: u16) -> u16
    ensures { result ≡ folded (a + b) }
{
    let (sum, carry) = a.overflowing_add(b);
    sum + carry as u16
}

/// The sum of the pseudo header over IPv4: both addresses, the protocol and the length of what
/// follows.
pub fn pseudo_header_v4(
    source: &Ipv4Address,
    destination: &Ipv4Address,
    protocol: IpProtocol,
    length: u32,
) -> u16
    requires { length < 2 ^ 16 }
    ensures { result ≡ folded (word_sum (pseudo_v4 source.now.0 destination.now.0 (protocol_number protocol) length)) }
{
    fold_u32(words_v4(source) + words_v4(destination) + u8::from(protocol) as u32 + length)
}

/// The sum of the pseudo header over IPv6.
pub fn pseudo_header_v6(
    source: &Ipv6Address,
    destination: &Ipv6Address,
    protocol: IpProtocol,
    length: u32,
) -> u16
    ensures { result ≡ folded (word_sum (pseudo_v6 source.now.0 destination.now.0 (protocol_number protocol) length)) }
{
    let length_words = length / 65536 + length % 65536;
    fold_u32(words_v6(source) + words_v6(destination) + length_words + u8::from(protocol) as u32)
}

/// The sum of the pseudo header over the family of both addresses.
pub fn pseudo_header(
    source: &IpAddress,
    destination: &IpAddress,
    protocol: IpProtocol,
    length: u32,
) -> u16
    requires family { version_of source.now ≡ version_of destination.now }
    requires fits { FitsPseudo source.now length }
    ensures { result ≡ folded (word_sum (pseudo_of source.now destination.now (protocol_number protocol) length)) }
{
    match (source, destination) {
        (IpAddress::Ipv4(source), IpAddress::Ipv4(destination)) => pseudo_header_v4(
            source,
            destination,
            protocol,
            length,
        ),
        (IpAddress::Ipv6(source), IpAddress::Ipv6(destination)) => pseudo_header_v6(
            source,
            destination,
            protocol,
            length,
        ),
        _ => unreachable!(),
    }
}

/// The sum of the address's two words.
fn words_v4(address: &Ipv4Address) -> u32
    ensures same { result ≡ word_sum address.now.0 }
    ensures room { result < 2 ^ 20 }
{
    let [a, b, c, d] = address.0;
    u16::from_be_bytes([a, b]) as u32 + u16::from_be_bytes([c, d]) as u32
}

/// The sum of the address's eight words.
fn words_v6(address: &Ipv6Address) -> u32
    ensures same { result ≡ word_sum address.now.0 }
    ensures room { result < 2 ^ 20 }
{
    let (front, back) = address.0.split_at(8);
    words_of_eight(front) + words_of_eight(back)
}

/// The sum of the four words of eight bytes.
fn words_of_eight(bytes: &[u8]) -> u32
    requires { length bytes.now ≡ 8 }
    ensures same { result ≡ word_sum bytes.now }
    ensures room { result < 2 ^ 19 }
{
    read_u16(bytes, 0) as u32
        + read_u16(bytes, 2) as u32
        + read_u16(bytes, 4) as u32
        + read_u16(bytes, 6) as u32
}

/// The sum of the words with their bytes exchanged, which saves exchanging them in each word: since
/// 65536 is 1 modulo 65535, it is enough to exchange the bytes of the folded sum. 2^128 is 1, too: so
/// carries are counted, and count as much at the end.
fn sum_low_first(bytes: &[u8]) -> u128
    ensures { folded (256 * result) ≡ folded (word_sum bytes.now) }
{
    let mut total: u128 = 0;
    let mut carries: u64 = 0;
    let mut rest = bytes;
    while let Some((front, tail)) = rest.split_first_chunk::<64>() {
        (total, carries) = add_cidr(total, carries, front);
        rest = tail;
    }
    while let Some((part, tail)) = rest.split_first_chunk::<16>() {
        (total, carries) = add_quarter(total, carries, part);
        rest = tail;
    }
    add_u128(total, carries as u128 + sum_of_end(rest))
}

/// The sum and its carries with 64 bytes added. A step of the loop takes as many, since it isn't
/// unrolled.
fn add_cidr(total: u128, carries: u64, bytes: &[u8; 64]) -> (u128, u64)
    requires { carries + 4 < 2 ^ 64 }
    ensures sum { folded (256 * (result.0 + result.1)) ≡ folded (256 * (total + carries) + word_sum bytes.now) }
    ensures room { result.1 ≤ carries + 4 }
{
    let (front, back) = bytes.split_at(32);
    let (total, carries) = add_half(total, carries, front);
    add_half(total, carries, back)
}

/// The same with 32 bytes.
fn add_half(total: u128, carries: u64, bytes: &[u8]) -> (u128, u64)
    requires half { length bytes.now ≡ 32 }
    requires counted { carries + 2 < 2 ^ 64 }
    ensures sum { folded (256 * (result.0 + result.1)) ≡ folded (256 * (total + carries) + word_sum bytes.now) }
    ensures room { result.1 ≤ carries + 2 }
{
    let (front, back) = bytes.split_at(16);
    let (total, carries) = add_quarter(total, carries, front);
    add_quarter(total, carries, back)
}

/// The same with sixteen bytes.
fn add_quarter(total: u128, carries: u64, bytes: &[u8]) -> (u128, u64)
    requires quarter { length bytes.now ≡ 16 }
    requires counted { carries + 1 < 2 ^ 64 }
    ensures sum { folded (256 * (result.0 + result.1)) ≡ folded (256 * (total + carries) + word_sum bytes.now) }
    ensures room { result.1 ≤ carries + 1 }
{
    match bytes.split_first_chunk::<16>() {
        Some((front, _)) => {
            let (sum, carry) = total.overflowing_add(u128::from_le_bytes(*front));
            (sum, carries + carry as u64)
        }
        None => unreachable!(),
    }
}

/// The sum of fewer than sixteen bytes.
fn sum_of_end(bytes: &[u8]) -> u128
    requires { length bytes.now < 16 }
    ensures sum { folded (256 * result) ≡ folded (word_sum bytes.now) }
    ensures room { result < 2 ^ 66 }
{
    match bytes.split_first_chunk::<8>() {
        Some((front, tail)) => u64::from_le_bytes(*front) as u128 + sum_below_eight(tail) as u128,
        None => sum_below_eight(bytes) as u128,
    }
}

/// The same for fewer than eight bytes.
fn sum_below_eight(bytes: &[u8]) -> u64
    requires { length bytes.now < 8 }
    ensures { folded (256 * result) ≡ folded (word_sum bytes.now) }
{
    match bytes.split_first_chunk::<4>() {
        Some((front, tail)) => u32::from_le_bytes(*front) as u64 + low_isn(tail) as u64,
        None => low_isn(bytes) as u64,
    }
}

/// The number of fewer than four bytes, the least significant first.
fn low_isn(bytes: &[u8]) -> u32
    requires { length bytes.now < 4 }
    ensures { result ≡ low_first bytes.now }
{
    match bytes {
        [] => 0,
        [a] => *a as u32,
        [a, b] => u16::from_le_bytes([*a, *b]) as u32,
        [a, b, c] => u32::from_le_bytes([*a, *b, *c, 0]),
        _ => unreachable!(),
    }
}

/// The sum brought to 16 bits. The halves are added to each other, since 2^64, 2^32 and 2^16 are 1
/// modulo 65535.
const fn fold(total: u128) -> u16
    ensures { result ≡ folded total }
{
    fold_u64(add_u64(
        (total / 0x1_0000_0000_0000_0000) as u64,
        (total % 0x1_0000_0000_0000_0000) as u64,
    ))
}

/// The same for a sum of 64 bits.
const fn fold_u64(total: u64) -> u16
    ensures { result ≡ folded total }
{
    fold_u32(add_u32(
        (total / 0x1_0000_0000) as u32,
        (total % 0x1_0000_0000) as u32,
    ))
}

/// The same for a sum of 32 bits.
const fn fold_u32(total: u32) -> u16
    ensures { result ≡ folded total }
{
    add((total / 0x1_0000) as u16, (total % 0x1_0000) as u16)
}

/// The one's complement sum of two numbers of 128 bits.
const fn add_u128(a: u128, b: u128) -> u128
    ensures { folded result ≡ folded (a + b) }
{
    let (sum, carry) = a.overflowing_add(b);
    sum + carry as u128
}

/// The one's complement sum of two numbers of 64 bits.
const fn add_u64(a: u64, b: u64) -> u64
    ensures { folded result ≡ folded (a + b) }
{
    let (sum, carry) = a.overflowing_add(b);
    sum + carry as u64
}

/// The one's complement sum of two numbers of 32 bits.
const fn add_u32(a: u32, b: u32) -> u32
    ensures { folded result ≡ folded (a + b) }
{
    let (sum, carry) = a.overflowing_add(b);
    sum + carry as u32
}

/// Law: the sum of joined strings is the combination of their sums, where the first has an even
/// length.
pub fn joined()
    ensures words { (front back : List ℕ) → length front % 2 ≡ 0 → word_sum (front ++ back) ≡ word_sum front + word_sum back }
    ensures sums { (front back : List ℕ) → length front % 2 ≡ 0 →
        folded (word_sum (front ++ back)) ≡ folded (folded (word_sum front) + folded (word_sum back)) }
{}

/// Law: the sum of what the checksum of a protocol above IP covers is the combination of the sums of
/// the pseudo header and of the packet.
pub fn covered_combines()
    ensures { (source destination : IpAddress) (protocol : ℕ) (packet : List ℕ) →
        folded (folded (word_sum (pseudo_of source destination protocol (length packet))) + folded (word_sum packet)) ≡
        folded (covered source destination protocol packet) }
{}

/// Law: a checksum holds exactly where the sum of all that it covers is `0xffff`.
pub fn holds_at_all_ones()
    ensures { (sum : ℕ) → (folded sum ≡ 65535) ↔ ChecksumHolds sum }
{}

/// Law: with the complement of the sum of all else in its field a checksum holds.
pub fn complement_holds()
    ensures { (sum : ℕ) → ChecksumHolds (sum + complement sum) }
{}

/// Law: a checksum that holds fails once one aligned word that it covers is replaced by a number
/// that is not congruent to it modulo 65535. `covered` is the sum of what else it covers.
pub fn changed_word_fails()
    ensures { (covered : ℕ) (bytes : List ℕ) (i n : ℕ) → i % 2 ≡ 0 → i + 2 ≤ length bytes → n < 2 ^ 16 → be16 bytes i % 65535 ≢ n % 65535 →
        ChecksumHolds (covered + word_sum bytes) → ¬ (ChecksumHolds (covered + word_sum (put16 bytes i n))) }
{}
