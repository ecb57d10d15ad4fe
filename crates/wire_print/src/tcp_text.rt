//! The header of a TCP segment as text.
ghost use Rattle.std.specs.Prelude.{◌≡◌, Some};
ghost use Rattle.std.specs.List.{flat_map};
ghost use Rattle.wire_print.specs.Headers.{control_text, ack_mark, ack_text, size_text, scale_text, stamp_text, range_text, options_text, tcp_text};

use crate::headers::set;
use crate::parts::{write_value, write_values};
use ip_wire::{SeqNumber, TcpControl, TcpHeader, TcpOption, TcpOptions, TcpTimestampRepr};
use std::fmt;

/// Prints a header: `48896 > 80, flags [S.], seq 7, ack 9, win 1024, mss 1460, wscale 7, sackOK, sack 1:2, TS val 3 ecr 4`.
#[derive(Clone, Copy)]
pub struct TcpText(pub TcpHeader);

impl fmt::Display for TcpText {
    ghost output = { λ x. Some (tcp_text x.0) };

    fn fmt<W: fmt::Write>(&self, f: &mut fmt::Formatter<W>) -> fmt::Result {
        let header = self.0;
        write!(
            f,
            "{} > {}, flags [{}{}], seq {}{}, win {}{}",
            header.src_port,
            header.dst_port,
            control_letter(header.control),
            ack_mark(header.ack_number),
            header.seq_number.0,
            AckText(header.ack_number),
            header.window_len,
            OptionsText(header.options)
        )
    }
}

fn control_letter(control: TcpControl) -> &'static str
    ensures { result.now ≡ control_text control }
{
    match control {
        TcpControl::None => "",
        TcpControl::Psh => "P",
        TcpControl::Syn => "S",
        TcpControl::Fin => "F",
        TcpControl::Rst => "R",
    }
}

fn ack_mark(number: Option<SeqNumber>) -> &'static str
    ensures { result.now ≡ ack_mark number }
{
    match number {
        Some(_) => ".",
        None => "",
    }
}

#[derive(Clone, Copy)]
struct AckText(Option<SeqNumber>);

impl fmt::Display for AckText {
    ghost output = { λ x. Some (ack_text x.0) };

    fn fmt<W: fmt::Write>(&self, f: &mut fmt::Formatter<W>) -> fmt::Result {
        match self.0 {
            Some(number) => write_value(f, ", ack ", number.0),
            None => Ok(()),
        }
    }
}

#[derive(Clone, Copy)]
struct OptionsText(TcpOptions);

impl fmt::Display for OptionsText {
    ghost output = { λ x. Some (options_text x.0) };

    fn fmt<W: fmt::Write>(&self, f: &mut fmt::Formatter<W>) -> fmt::Result {
        let options = self.0;
        write!(
            f,
            "{}{}{}{}{}",
            SizeText(options.max_seg_size),
            ScaleText(options.window_scale),
            set(options.sack_permitted, ", sackOK"),
            RangesText(options.sack_ranges),
            StampText(options.timestamp)
        )
    }
}

#[derive(Clone, Copy)]
struct SizeText(Option<u16>);

impl fmt::Display for SizeText {
    ghost output = { λ x. Some (size_text x.0) };

    fn fmt<W: fmt::Write>(&self, f: &mut fmt::Formatter<W>) -> fmt::Result {
        match self.0 {
            Some(size) => write_value(f, ", mss ", size),
            None => Ok(()),
        }
    }
}

#[derive(Clone, Copy)]
struct ScaleText(Option<u8>);

impl fmt::Display for ScaleText {
    ghost output = { λ x. Some (scale_text x.0) };

    fn fmt<W: fmt::Write>(&self, f: &mut fmt::Formatter<W>) -> fmt::Result {
        match self.0 {
            Some(shift) => write_value(f, ", wscale ", shift),
            None => Ok(()),
        }
    }
}

#[derive(Clone, Copy)]
struct StampText(Option<TcpTimestampRepr>);

impl fmt::Display for StampText {
    ghost output = { λ x. Some (stamp_text x.0) };

    fn fmt<W: fmt::Write>(&self, f: &mut fmt::Formatter<W>) -> fmt::Result {
        match self.0 {
            Some(stamp) => write_values(f, ", TS val ", stamp.tsval, " ecr ", stamp.tsecr),
            None => Ok(()),
        }
    }
}

#[derive(Clone, Copy)]
struct RangesText([Option<(u32, u32)>; 3]);

impl fmt::Display for RangesText {
    ghost output = { λ x. Some (flat_map range_text x.0) };

    fn fmt<W: fmt::Write>(&self, f: &mut fmt::Formatter<W>) -> fmt::Result {
        let [first, second, third] = self.0;
        write!(
            f,
            "{}{}{}",
            RangeText(first),
            RangeText(second),
            RangeText(third)
        )
    }
}

#[derive(Clone, Copy)]
struct RangeText(Option<(u32, u32)>);

impl fmt::Display for RangeText {
    ghost output = { λ x. Some (range_text x.0) };

    fn fmt<W: fmt::Write>(&self, f: &mut fmt::Formatter<W>) -> fmt::Result {
        match self.0 {
            Some((begin, end)) => write!(f, ", sack {begin}:{end}"),
            None => Ok(()),
        }
    }
}

/// Prints one option as it stands: `mss 1460`, `nop`, `sack 1:2`.
#[derive(Clone, Copy)]
pub struct TcpOptionText<'a>(pub TcpOption<'a>);

impl<'a> fmt::Display for TcpOptionText<'a> {
    fn fmt<W: fmt::Write>(&self, f: &mut fmt::Formatter<W>) -> fmt::Result {
        match self.0 {
            TcpOption::EndOfList => f.write("eol"),
            TcpOption::NoOperation => f.write("nop"),
            TcpOption::MaxSegmentSize(size) => write_value(f, "mss ", size),
            TcpOption::WindowScale(shift) => write_value(f, "wscale ", shift),
            TcpOption::SackPermitted => f.write("sackOK"),
            TcpOption::SackRange(ranges) => write_value(f, "sacks", RangesText(ranges)),
            TcpOption::TimeStamp { tsval, tsecr } => write_values(
                f, "TS val ", tsval, " ecr ", tsecr,
            ),
            TcpOption::Unknown { kind, bytes } => write!(
                f,
                "kind {kind} with {} bytes",
                bytes.len()
            ),
        }
    }
}
