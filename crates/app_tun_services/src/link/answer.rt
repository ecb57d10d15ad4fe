//! Answers, written.
ghost use Rattle.std.specs.Prelude.{◌≡◌, ◌++◌, [], OnOk};
ghost use Rattle.std.specs.Io.KnownBytes.{Appends};
ghost use Rattle.app_tun_services.specs.Link.Answer.{answer_end, next_micros};

use crate::link::drain::Drain;
use byteorder::{ByteOrder, LittleEndian};
use net_base::Instant;
use std::io::{self, Write};

/// How many bytes end an answer: a length and an instant.
const END_LEN: usize = 10;

/// The instant as an answer says it: in microseconds, the largest number for never.
fn said(next: Option<Instant>) -> u64
    ensures { result ≡ next_micros next }
{
    match next {
        None => u64::MAX,
        Some(instant) => u64::try_from(instant.total_micros()).unwrap_or(0),
    }
}

/// What ends an answer: a length of 0, and the instant of the next turn.
fn end_of(next: Option<Instant>) -> [u8; END_LEN]
    ensures { result ≡ answer_end next }
{
    let mut end = [0; END_LEN];
    LittleEndian::write_u16(&mut end, 0);
    LittleEndian::write_u64(&mut end[2..], said(next));
    end
}

/// Writes the answer of a turn: the packets that were sent, an end, and the instant at which the host wants its next turn.
/// After that the device has nothing to answer. It goes in one piece, unless there is no memory for its end after the packets.
pub fn write_answer<W: Write>(
    drain: &mut Drain,
    writer: &mut W,
    next: Option<Instant>,
) -> io::Result<()>
    ensures bytes { OnOk result (Appends (W.contents writer.old) (W.contents writer.new) (drain.old.sent ++ answer_end next)) }
    ensures after { OnOk result (drain.new ≡ record drain.old { sent = [] }) }
{
    let end = end_of(next);
    let is_whole = drain.append_end(&end);
    writer.write_all(drain.answer())?;
    if !is_whole {
        writer.write_all(&end)?;
    }
    writer.flush()?;
    drain.clear();
    Ok(())
}
