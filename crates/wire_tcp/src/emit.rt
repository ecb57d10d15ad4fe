//! Options written.
ghost use Rattle.std.specs.Prelude.{◌≡◌, ℕ, ◌+◌, ◌-◌, ◌*◌, ◌<◌, ◌≤◌, ◌==◌, ◌++◌, Option, IsSome, List, [], ◌∷◌, length, take, drop, replicate, if◌then◌else◌};
ghost use Rattle.wire_address.specs.Extends.{Extends};
ghost use Rattle.wire_tcp.specs.Options.{value_of, option_bytes, options_bytes, ranges_bytes, FitsOption, size_options, scale_options, permitted_options};
ghost use Rattle.wire_tcp.specs.Options.{range_options, timestamps_options, sack_options, sack_room, options_room, padded, options_area};
ghost use Rattle.wire_tcp.specs.Options.{SackRange, TimeStamp, Unknown};

use crate::field;
use crate::option::{TcpOption, TcpOptions};
use crate::timestamp::TcpTimestampRepr;

impl<'a> TcpOption<'a> {
    /// How many bytes the option takes.
    pub fn buffer_len(&self) -> usize
        requires { FitsOption (value_of self.now) }
        ensures { result ≡ length (option_bytes (value_of self.now)) }
    {
        match self {
            TcpOption::EndOfList | TcpOption::NoOperation => 1,
            TcpOption::MaxSegmentSize(_) => 4,
            TcpOption::WindowScale(_) => 3,
            TcpOption::SackPermitted => 2,
            TcpOption::SackRange(ranges) => 2 + three_len(ranges),
            TcpOption::TimeStamp { .. } => 10,
            TcpOption::Unknown { bytes, .. } => 2 + bytes.len(),
        }
    }

    /// Writes the option at the front, the ranges of `SackRange` closed up, and leaves what is
    /// after it. Answers how many bytes it takes.
    pub fn emit(&self, buffer: &mut [u8]) -> usize
        requires fits { FitsOption (value_of self.now) }
        requires room { length (option_bytes (value_of self.now)) ≤ length buffer.old }
        ensures bytes { buffer.new
            ≡ option_bytes (value_of self.now)
            ++ drop (length (option_bytes (value_of self.now))) buffer.old }
        ensures len { result ≡ length (option_bytes (value_of self.now)) }
    {
        let length = self.buffer_len();
        let (slot, _rest) = buffer.split_at_mut(length);
        self.spell(slot);
        length
    }

    /// Writes the option over the whole of `slot`.
    fn spell(&self, slot: &mut [u8])
        requires fits { FitsOption (value_of self.now) }
        requires room { length slot.old ≡ length (option_bytes (value_of self.now)) }
        ensures { slot.new ≡ option_bytes (value_of self.now) }
    {
        match self {
            TcpOption::EndOfList => slot.copy_from_slice(&[field::OPT_END]),
            TcpOption::NoOperation => slot.copy_from_slice(&[field::OPT_NOP]),
            TcpOption::MaxSegmentSize(size) => {
                let [high, low] = size.to_be_bytes();
                slot.copy_from_slice(&[field::OPT_MSS, 4, high, low]);
            }
            TcpOption::WindowScale(shift) => slot.copy_from_slice(&[field::OPT_WS, 3, *shift]),
            TcpOption::SackPermitted => slot.copy_from_slice(&[field::OPT_SACKPERM, 2]),
            TcpOption::SackRange(ranges) => spell_ranges(slot, ranges),
            TcpOption::TimeStamp { tsval, tsecr } => spell_timestamp(slot, *tsval, *tsecr),
            TcpOption::Unknown { kind, bytes } => spell_unknown(slot, *kind, bytes),
        }
    }
}

/// Writes an option of ranges.
fn spell_ranges(slot: &mut [u8], ranges: &[Option<(u32, u32)>; 3])
    requires { length slot.old ≡ 2 + length (ranges_bytes ranges.now) }
    ensures { slot.new ≡ option_bytes (SackRange ranges.now) }
{
    let length = 2 + three_len(ranges) as u8;
    let (head, body) = slot.split_at_mut(2);
    head.copy_from_slice(&[field::OPT_SACKRNG, length]);
    put_ranges(body, ranges);
}

/// Writes an option of timestamps.
fn spell_timestamp(slot: &mut [u8], tsval: u32, tsecr: u32)
    requires { length slot.old ≡ 10 }
    ensures { slot.new ≡ option_bytes (TimeStamp tsval tsecr) }
{
    let (head, body) = slot.split_at_mut(2);
    head.copy_from_slice(&[field::OPT_TSTAMP, 10]);
    let (first, second) = body.split_at_mut(4);
    first.copy_from_slice(&tsval.to_be_bytes());
    second.copy_from_slice(&tsecr.to_be_bytes());
}

/// Writes an option of another kind.
fn spell_unknown(slot: &mut [u8], kind: u8, bytes: &[u8])
    requires fits { 2 + length bytes.now < 256 }
    requires room { length slot.old ≡ 2 + length bytes.now }
    ensures { slot.new ≡ option_bytes (Unknown kind bytes.now) }
{
    let length = 2 + bytes.len() as u8;
    let (head, body) = slot.split_at_mut(2);
    head.copy_from_slice(&[kind, length]);
    body.copy_from_slice(bytes);
}

/// How many bytes a range takes, if it is one.
fn range_len(range: &Option<(u32, u32)>) -> usize
    ensures exact { result ≡ length (ranges_bytes (range.now ∷ [])) }
    ensures small { result ≤ 8 }
{
    if range.is_some() { 8 } else { 0 }
}

/// How many bytes three ranges take, closed up.
fn three_len(ranges: &[Option<(u32, u32)>; 3]) -> usize
    ensures exact { result ≡ length (ranges_bytes ranges.now) }
    ensures small { result ≤ 24 }
{
    let [first, second, third] = ranges;
    range_len(first) + range_len(second) + range_len(third)
}

/// Writes ranges, closed up, over the whole of `body`.
fn put_ranges(body: &mut [u8], ranges: &[Option<(u32, u32)>])
    requires { length body.old ≡ length (ranges_bytes ranges.now) }
    ensures { body.new ≡ ranges_bytes ranges.now }
{
    match ranges.split_first() {
        None => (),
        Some((None, rest)) => put_ranges(body, rest),
        Some((Some((left, right)), rest)) => {
            let (first, following) = body.split_at_mut(4);
            first.copy_from_slice(&left.to_be_bytes());
            let (second, following) = following.split_at_mut(4);
            second.copy_from_slice(&right.to_be_bytes());
            put_ranges(following, rest);
        }
    }
}

impl TcpOptions {
    /// How many bytes a header makes room for, a multiple of four. Ranges count also where they
    /// aren't sent.
    pub fn buffer_len(&self) -> usize
        ensures exact { result ≡ padded (options_room self.now) }
        ensures small { result ≤ 48 }
    {
        let mut length = if self.max_seg_size.is_some() { 4 } else { 0 };
        length += if self.window_scale.is_some() { 3 } else { 0 };
        length += if self.sack_permitted { 2 } else { 0 };
        length += ranges_room(&self.sack_ranges);
        length += if self.timestamp.is_some() { 10 } else { 0 };
        (length + 3) / 4 * 4
    }

    /// Writes the options over the whole area, with zeros after them. Ranges are sent where the
    /// segment acknowledges and SACK isn't being permitted.
    pub fn emit(&self, area: &mut [u8], acknowledges: bool)
        requires { length area.old ≡ padded (options_room self.now) }
        ensures { area.new ≡ options_area acknowledges self.now }
    {
        let at = put_size(area, 0, self.max_seg_size);
        let at = put_scale(area, at, self.window_scale);
        let at = put_sack(area, at, self, acknowledges);
        let at = put_stamp(area, at, self.timestamp);
        let (_options, rest) = area.split_at_mut(at);
        rest.fill(field::OPT_END);
    }
}

/// How many bytes an option of ranges takes, if there is any.
fn ranges_room(ranges: &[Option<(u32, u32)>; 3]) -> usize
    ensures exact { result ≡ length (options_bytes (range_options ranges.now)) }
    ensures small { result ≤ 26 }
{
    let length = three_len(ranges);
    if length == 0 { 0 } else { 2 + length }
}

/// Writes an option at an offset. Answers where it ends.
fn put_option(area: &mut [u8], at: usize, option: &TcpOption) -> usize
    requires fits { FitsOption (value_of option.now) }
    requires room { at + length (option_bytes (value_of option.now)) ≤ length area.old }
    ensures { Extends area.old at area.new result (option_bytes (value_of option.now)) }
{
    let (_done, rest) = area.split_at_mut(at);
    at + option.emit(rest)
}

fn put_size(area: &mut [u8], at: usize, size: Option<u16>) -> usize
    requires { at + length (options_bytes (size_options size)) ≤ length area.old }
    ensures { Extends area.old at area.new result (options_bytes (size_options size)) }
{
    match size {
        Some(size) => put_option(area, at, &TcpOption::MaxSegmentSize(size)),
        None => at,
    }
}

fn put_scale(area: &mut [u8], at: usize, scale: Option<u8>) -> usize
    requires { at + length (options_bytes (scale_options scale)) ≤ length area.old }
    ensures { Extends area.old at area.new result (options_bytes (scale_options scale)) }
{
    match scale {
        Some(shift) => put_option(area, at, &TcpOption::WindowScale(shift)),
        None => at,
    }
}

fn put_sack(area: &mut [u8], at: usize, options: &TcpOptions, acknowledges: bool) -> usize
    requires { at + sack_room options.now ≤ length area.old }
    ensures written { Extends area.old at area.new result
        (options_bytes
        (sack_options options.now.sack_permitted acknowledges options.now.sack_ranges)) }
    ensures within { result ≤ at + sack_room options.now }
{
    if options.sack_permitted {
        put_option(area, at, &TcpOption::SackPermitted)
    } else if acknowledges {
        put_range_option(area, at, &options.sack_ranges)
    } else {
        at
    }
}

fn put_range_option(area: &mut [u8], at: usize, ranges: &[Option<(u32, u32)>; 3]) -> usize
    requires { at + length (options_bytes (range_options ranges.now)) ≤ length area.old }
    ensures { Extends area.old at area.new result (options_bytes (range_options ranges.now)) }
{
    if three_len(ranges) == 0 {
        at
    } else {
        put_option(area, at, &TcpOption::SackRange(*ranges))
    }
}

fn put_stamp(area: &mut [u8], at: usize, stamp: Option<TcpTimestampRepr>) -> usize
    requires { at + length (options_bytes (timestamps_options stamp)) ≤ length area.old }
    ensures { Extends area.old at area.new result (options_bytes (timestamps_options stamp)) }
{
    match stamp {
        Some(TcpTimestampRepr { tsval, tsecr }) => {
            put_option(area, at, &TcpOption::TimeStamp { tsval, tsecr })
        }
        None => at,
    }
}
