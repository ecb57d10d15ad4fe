//! TCP options: read one by one, read as a whole, and written.
ghost use Rattle.std.specs.Prelude.{◌≡◌, ℕ, ◌<◌, ◌≤◌, ◌^◌, true, IsOk, IfOk, List, length};
ghost use Rattle.wire_tcp.specs.Options.{OptionValue, value_of, range_at, no_options, taken, Begins, Says};
ghost use Rattle.wire_tcp.specs.Seen.{inside, first_long, is_end, seen, seen_first};
ghost use Rattle.wire_tcp.specs.declared.option.TcpOptions.{TcpOptions};

use crate::field;
use crate::timestamp::TcpTimestampRepr;
use wire_address::Error;
use wire_address::network_order::{read_u16, read_u32};

/// The shift counts of window scaling end here; larger ones are read as this one.
pub const MAX_WINDOW_SCALE: u8 = 14;

/// One option. The ranges of `SackRange` are the first three that a segment holds, each from its
/// first sequence number to the one after its last.
#[derive(Clone, Copy, Debug, PartialEq, Eq)]
pub enum TcpOption<'a> {
    EndOfList,
    NoOperation,
    MaxSegmentSize(u16),
    /// The shift count as it stands.
    WindowScale(u8),
    SackPermitted,
    SackRange([Option<(u32, u32)>; 3]),
    TimeStamp { tsval: u32, tsecr: u32 },
    /// An option of another kind, with what is inside.
    Unknown { kind: u8, bytes: &'a [u8] },
}

impl<'a> TcpOption<'a> {
    /// The bytes after the option at the front, and the option.
    pub fn parse(buffer: &'a [u8]) -> Result<(&'a [u8], TcpOption<'a>), Error>
        ensures found { IfOk result (λ p. Begins buffer.now (value_of p.1) p.0.now) }
        ensures only { (o : OptionValue) (rest : List ℕ) → Begins buffer.now o rest
            → IsOk result × IfOk result (λ p. (value_of p.1 ≡ o) × (p.0.now ≡ rest)) }
    {
        let [kind, rest @ ..] = buffer else {
            return Err(Error);
        };
        match *kind {
            field::OPT_END => Ok((rest, TcpOption::EndOfList)),
            field::OPT_NOP => Ok((rest, TcpOption::NoOperation)),
            _ => match rest {
                [] => Err(Error),
                [end, ..] => parse_long(buffer, *end as usize),
            },
        }
    }

    /// Whether no option follows this one.
    fn is_end(&self) -> bool
        ensures { result ≡ is_end (value_of self.now) }
    {
        matches!(self, TcpOption::EndOfList)
    }
}

/// The option of more than one byte at the front, whose length field is `end`.
fn parse_long<'a>(buffer: &'a [u8], end: usize) -> Result<(&'a [u8], TcpOption<'a>), Error>
    requires { 2 ≤ length buffer.now }
    ensures { seen_first result ≡ first_long buffer.now end }
{
    if end < 2 || end > buffer.len() {
        return Err(Error);
    }
    let option = parse_inside(buffer[0], &buffer[2..end])?;
    let (_option, rest) = buffer.split_at(end);
    Ok((rest, option))
}

/// What is inside an option of this kind.
fn parse_inside<'a>(kind: u8, inner: &'a [u8]) -> Result<TcpOption<'a>, Error>
    ensures { seen result ≡ inside kind inner.now }
{
    match (kind, inner.len()) {
        (field::OPT_MSS, 2) => Ok(TcpOption::MaxSegmentSize(read_u16(inner, 0))),
        (field::OPT_WS, 1) => Ok(TcpOption::WindowScale(inner[0])),
        (field::OPT_SACKPERM, 0) => Ok(TcpOption::SackPermitted),
        (field::OPT_SACKRNG, length) if length % 8 == 0 => Ok(TcpOption::SackRange([
            range_at(inner, 0),
            range_at(inner, 8),
            range_at(inner, 16),
        ])),
        (field::OPT_TSTAMP, 8) => Ok(TcpOption::TimeStamp {
            tsval: read_u32(inner, 0),
            tsecr: read_u32(inner, 4),
        }),
        (
            field::OPT_MSS
            | field::OPT_WS
            | field::OPT_SACKPERM
            | field::OPT_SACKRNG
            | field::OPT_TSTAMP,
            _,
        ) => Err(Error),
        _ => Ok(TcpOption::Unknown { kind, bytes: inner }),
    }
}

/// The range at an offset, if it is there.
fn range_at(inner: &[u8], at: usize) -> Option<(u32, u32)>
    requires { at < 2 ^ 32 }
    ensures { result ≡ range_at inner.now at }
{
    if at + 8 <= inner.len() {
        Some((read_u32(inner, at), read_u32(inner, at + 4)))
    } else {
        None
    }
}

/// All options of a segment. Of several options of a kind the last one counts.
#[derive(Clone, Copy, Debug, PartialEq, Eq)]
pub struct TcpOptions {
    pub max_seg_size: Option<u16>,
    pub window_scale: Option<u8>,
    pub sack_permitted: bool,
    pub sack_ranges: [Option<(u32, u32)>; 3],
    pub timestamp: Option<TcpTimestampRepr>,
}

impl TcpOptions {
    pub const NONE: TcpOptions = TcpOptions {
        max_seg_size: None,
        window_scale: None,
        sack_permitted: false,
        sack_ranges: [None; 3],
        timestamp: None,
    };

    /// No option.
    pub fn none() -> TcpOptions
        ensures { result ≡ no_options }
    {
        TcpOptions::NONE
    }

    /// The options in the option bytes of a header, up to their end.
    pub fn parse(area: &[u8]) -> Result<TcpOptions, Error>
        ensures found { IfOk result (λ v. Says no_options area.now v) }
        ensures only { (v : TcpOptions) → Says no_options area.now v → result ≡ Ok v }
    {
        let mut options = TcpOptions::none();
        let mut rest = area;
        while !rest.is_empty() {
            let (following, option) = TcpOption::parse(rest)?;
            if option.is_end() {
                return Ok(options);
            }
            options = options.with(&option);
            rest = following;
        }
        Ok(options)
    }

    /// Reads the options in the option bytes of a header into this offset, as `parse` does, and says
    /// whether they are options. Where they aren't, what the offset holds isn't said.
    pub fn read(&mut self, area: &[u8]) -> bool
        ensures found { result ≡ true → Says no_options area.now self.new }
        ensures only { (v : TcpOptions) → Says no_options area.now v → (result ≡ true) × (self.new ≡ v) }
    {
        if area.is_empty() {
            *self = TcpOptions::none();
            true
        } else {
            self.read_some(area)
        }
    }

    /// The same of options that are there, in a place of its own: so their offsets aren't made ready
    /// where there are none.
    #[inline(never)]
    fn read_some(&mut self, area: &[u8]) -> bool
        ensures found { result ≡ true → Says no_options area.now self.new }
        ensures only { (v : TcpOptions) → Says no_options area.now v → (result ≡ true) × (self.new ≡ v) }
    {
        match TcpOptions::parse(area) {
            Ok(options) => {
                *self = options;
                true
            }
            Err(_) => false,
        }
    }

    /// These options with one more, which replaces an earlier one of its kind.
    fn with(self, option: &TcpOption) -> TcpOptions
        ensures { result ≡ taken self (value_of option.now) }
    {
        match *option {
            TcpOption::EndOfList | TcpOption::NoOperation | TcpOption::Unknown { .. } => self,
            TcpOption::MaxSegmentSize(size) => TcpOptions {
                max_seg_size: Some(size),
                ..self
            },
            TcpOption::WindowScale(shift) => TcpOptions {
                window_scale: Some(shift.min(MAX_WINDOW_SCALE)),
                ..self
            },
            TcpOption::SackPermitted => TcpOptions {
                sack_permitted: true,
                ..self
            },
            TcpOption::SackRange(ranges) => TcpOptions {
                sack_ranges: ranges,
                ..self
            },
            TcpOption::TimeStamp { tsval, tsecr } => TcpOptions {
                timestamp: Some(TcpTimestampRepr { tsval, tsecr }),
                ..self
            },
        }
    }
}
