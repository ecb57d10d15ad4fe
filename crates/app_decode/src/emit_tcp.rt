//! TCP segments written from their fields.
use crate::emit::last_bytes;
use crate::fault::{FAMILIES, TOO_LONG};
use crate::room::{MOST, checksums, room};
use crate::words::{Words, number};
use ip_wire::{SeqNumber, TcpControl, TcpHeader, TcpOptions, TcpPacketMut, TcpTimestampRepr};
use std::alloc::Global;

/// A segment: addresses, ports, flag, both numbers, window, options and payload.
pub(crate) fn emit_tcp(alloc: Global, words: &mut Words<'_>, is_summed: bool) -> Option<Vec<u8>> {
    let source = words.address("source");
    let destination = words.address("destination");
    let header = header(words);
    let payload = last_bytes(alloc, words)?;
    let header_len = header.header_len();
    if header_len > 60 || payload.len() > MOST - 60 {
        return words.refuse(TOO_LONG);
    }
    if source.version() != destination.version() {
        return words.refuse(FAMILIES);
    }
    let mut bytes = room(alloc, header_len + payload.len())?;
    header.emit(
        &mut TcpPacketMut::new_unchecked(bytes.as_mut_slice()),
        &source,
        &destination,
        payload.as_slice(),
        &checksums(is_summed),
    );
    Some(bytes)
}

fn header(words: &mut Words<'_>) -> TcpHeader {
    TcpHeader {
        src_port: words.short("source port"),
        dst_port: words.short("destination port"),
        control: control(words),
        seq_number: SeqNumber(words.long("seq")),
        ack_number: ack_number(words),
        window_len: words.short("window"),
        options: options(words),
    }
}

fn control(words: &mut Words<'_>) -> TcpControl {
    let word = words.word("flag");
    match word {
        "-" => TcpControl::None,
        "P" => TcpControl::Psh,
        "S" => TcpControl::Syn,
        "F" => TcpControl::Fin,
        "R" => TcpControl::Rst,
        _ => {
            words.no("flag of - P S F R", word);
            TcpControl::None
        }
    }
}

fn ack_number(words: &mut Words<'_>) -> Option<SeqNumber> {
    let word = words.word("ack");
    let found = match word {
        "-" => return None,
        _ => number(word),
    };
    match found {
        Some(number) => Some(SeqNumber(number)),
        None => {
            words.no("ack", word);
            None
        }
    }
}

// `-` for none, or options with commas between them.
fn options(words: &mut Words<'_>) -> TcpOptions {
    let word = words.word("options");
    let mut options = TcpOptions::none();
    match word {
        "-" => return options,
        _ => {}
    }
    let mut ranges = 0;
    for part in word.split(',') {
        match with_option(options, &mut ranges, part) {
            Some(more) => options = more,
            None => words.no("option", part),
        }
    }
    options
}

fn with_option(options: TcpOptions, ranges: &mut usize, part: &str) -> Option<TcpOptions> {
    match part {
        "sackok" => Some(TcpOptions {
            sack_permitted: true,
            ..options
        }),
        _ => with_value(options, ranges, part),
    }
}

// One option more, which has a value.
fn with_value(options: TcpOptions, ranges: &mut usize, part: &str) -> Option<TcpOptions> {
    let (name, value) = part.split_once('=')?;
    match name {
        "mss" => Some(TcpOptions {
            max_seg_size: Some(number(value)?),
            ..options
        }),
        "wscale" => Some(TcpOptions {
            window_scale: Some(number(value)?),
            ..options
        }),
        "ts" => {
            let (tsval, tsecr) = pair(value)?;
            Some(TcpOptions {
                timestamp: Some(TcpTimestampRepr { tsval, tsecr }),
                ..options
            })
        }
        "sack" => with_range(options, ranges, value),
        _ => None,
    }
}

// One range more, or an offset for one that is left empty.
fn with_range(options: TcpOptions, ranges: &mut usize, value: &str) -> Option<TcpOptions> {
    let range = match value {
        "-" => None,
        _ => Some(pair(value)?),
    };
    let mut sack_ranges = options.sack_ranges;
    *sack_ranges.get_mut(*ranges)? = range;
    *ranges = ranges.saturating_add(1);
    Some(TcpOptions {
        sack_ranges,
        ..options
    })
}

fn pair(value: &str) -> Option<(u32, u32)> {
    let (front, back) = value.split_once(':')?;
    Some((number(front)?, number(back)?))
}
