//! Turns, read.
ghost use Rattle.std.specs.Prelude.{◌≡◌, ◌≤◌, ◌<◌, pos, ◌≤ℤ◌, length, take, IfOk, OnOk, OnErr, IfErr, IfSome, Err};
ghost use Rattle.std.specs.Io.KnownBytes.{Consumes, IsAtEnd};
ghost use Rattle.app_tun_services.specs.Link.Turn.{MayFollow, Next, Refuses, LacksBytes};

use byteorder::{ByteOrder, LittleEndian};
use net_base::Instant;
use std::io::{ErrorKind, Read};
use thiserror::Error;

/// How many bytes stand before a turn's packet: its length and the instant.
pub const HEAD_LEN: usize = 10;

/// Why a turn isn't taken. None comes after it.
#[derive(Clone, Copy, Debug, PartialEq, Eq, Drop, Error)]
pub enum TurnError {
    /// The packet is longer than the link takes.
    #[error("a packet is too long")]
    Length,
    /// The instant is before the last one, or past all that the stack takes.
    #[error("a moment is out of order")]
    Moment,
    /// The input ends inside a turn.
    #[error("the input ends inside a turn")]
    Cut,
    /// A growth was refused.
    #[error("out of memory")]
    Memory,
    /// The reader failed.
    #[error("the reader failed")]
    Reader,
}

/// Reads bytes until the buffer is full or the input ends, and returns how many.
fn fill<R: Read>(reader: &mut R, buffer: &mut [u8]) -> Result<usize, TurnError>
    ensures count { IfOk result (λ count. count ≤ length buffer.new) }
    ensures bytes { IfOk result (λ count. Consumes (R.remaining reader.old) (R.remaining reader.new) (take count buffer.new)) }
    ensures end { IfOk result (λ count. count < length buffer.new → IsAtEnd (R.remaining reader.new)) }
    ensures err { OnErr result (result ≡ Err TurnError.Reader) }
{
    let mut at = 0;
    for _ in 0..u64::MAX {
        if at >= buffer.len() {
            return Ok(at);
        }
        match reader.read(&mut buffer[at..]) {
            Ok(0) => return Ok(at),
            Ok(count) => at += count,
            Err(error) if error.kind() == ErrorKind::Interrupted => {}
            Err(_) => return Err(TurnError::Reader),
        }
    }
    Err(TurnError::Reader)
}

/// The instant of so many microseconds, if it isn't before the last one and the stack takes it.
fn instant_of(micros: u64, last: Instant) -> Result<Instant, TurnError>
    ensures instant { IfOk result (λ instant. (instant ≡ pos micros) × MayFollow last instant) }
    ensures refused { IfErr result (λ error. (error ≡ TurnError.Moment) × (MayFollow last (pos micros) → ⊥)) }
{
    let Ok(micros) = i64::try_from(micros) else {
        return Err(TurnError::Moment);
    };
    let instant = Instant::from_micros(micros);
    if last <= instant && instant.is_moment() {
        Ok(instant)
    } else {
        Err(TurnError::Moment)
    }
}

/// Reads the next turn: its packet, of at most so many bytes, into `packet`, in place of what it holds, and its instant, which
/// isn't before the last one. There is none at the end of the input.
pub fn read_turn<R: Read>(
    reader: &mut R,
    packet: &mut Vec<u8>,
    most: usize,
    last: Instant,
) -> Result<Option<Instant>, TurnError>
    ensures turn { IfOk result (λ instant. IfSome (R.remaining reader.old) (λ bytes. Next most last bytes instant packet.new.items (R.remaining reader.new))) }
    ensures refused { IfErr result (λ error. IfSome (R.remaining reader.old) (λ bytes. Refuses most last bytes error)) }
    ensures size { IfOk result (λ instant. IfSome instant (λ _. length packet.new.items ≤ most)) }
    ensures instant { IfOk result (λ instant. IfSome instant (MayFollow last)) }
{
    let mut head = [0; HEAD_LEN];
    let count = fill(reader, &mut head)?;
    if count == 0 {
        return Ok(None);
    }
    if count < HEAD_LEN {
        return Err(TurnError::Cut);
    }
    let size = LittleEndian::read_u16(&head) as usize;
    if most < size {
        return Err(TurnError::Length);
    }
    let instant = instant_of(LittleEndian::read_u64(&head[2..]), last)?;
    read_packet(reader, packet, size)?;
    Ok(Some(instant))
}

/// Reads a packet of so many bytes.
fn read_packet<R: Read>(reader: &mut R, packet: &mut Vec<u8>, size: usize) -> Result<(), TurnError>
    ensures size { OnOk result (length packet.new.items ≡ size) }
    ensures bytes { OnOk result (Consumes (R.remaining reader.old) (R.remaining reader.new) packet.new.items) }
    ensures refused { IfErr result (λ error. IfSome (R.remaining reader.old) (LacksBytes size error)) }
{
    packet.truncate(0);
    if packet.resize(size, 0).is_err() {
        return Err(TurnError::Memory);
    }
    let count = fill(reader, packet.as_mut_slice())?;
    if count < size {
        return Err(TurnError::Cut);
    }
    Ok(())
}
