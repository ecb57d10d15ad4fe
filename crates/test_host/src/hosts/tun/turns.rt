//! Turns.
use crate::cases::{Life, all_live};
use app_tun_services::link::{TurnError, read_turn};
use net_base::Instant;
use std::alloc::Global;

/// A turn at 258 microseconds with a packet of three bytes, and then a tick at 65,537 microseconds.
const TWO: [u8; 23] = [
    3, 0, 2, 1, 0, 0, 0, 0, 0, 0, 0x61, 0x62, 0x63, 0, 0, 1, 0, 1, 0, 0, 0, 0, 0,
];

/// A turn is read with packets of at most so many bytes, from this instant on, in microseconds: its instant, and its packet where that is
/// said.
struct Turn(
    usize,
    u32,
    Result<Option<u32>, TurnError>,
    Option<&'static [u8]>,
);

fn at(micros: u32) -> Instant {
    Instant::from_micros(i64::from(micros))
}

/// What is read of a turn.
fn answer(said: &Result<Option<u32>, TurnError>) -> Result<Option<Instant>, TurnError> {
    match said {
        Ok(Some(micros)) => Ok(Some(at(*micros))),
        Ok(None) => Ok(None),
        Err(error) => Err(*error),
    }
}

/// Whether the next turn is this one.
fn is_next(reader: &mut &[u8], packet: &mut Vec<u8>, turn: &Turn) -> bool {
    read_turn(reader, packet, turn.0, at(turn.1)) == answer(&turn.2)
        && holds(packet.as_slice(), turn.3)
}

fn holds(packet: &[u8], said: Option<&[u8]>) -> bool {
    match said {
        Some(bytes) => packet == bytes,
        None => true,
    }
}

/// The place of the first turn that isn't the next.
fn first_other(mut reader: &[u8], packet: &mut Vec<u8>, turns: &[Turn]) -> Option<usize> {
    for (slot, turn) in turns.iter().enumerate() {
        if !is_next(&mut reader, packet, turn) {
            return Some(slot);
        }
    }
    None
}

/// Bytes, and the turns that they hold.
struct Bytes(&'static [u8], &'static [Turn]);

impl Life for Bytes {
    fn stops_at(&self, alloc: Global) -> Option<usize> {
        first_other(self.0, &mut Vec::new(alloc), self.1)
    }
}

static TURNS: [Bytes; 4] = [
    // They come one after the other.
    Bytes(
        &TWO,
        &[
            Turn(1500, 0, Ok(Some(258)), Some(b"abc")),
            Turn(1500, 258, Ok(Some(65_537)), Some(b"")),
            Turn(1500, 65_537, Ok(None), None),
        ],
    ),
    // Turns that can't be are refused.
    Bytes(&TWO, &[Turn(2, 0, Err(TurnError::Length), None)]),
    Bytes(&TWO, &[Turn(3, 259, Err(TurnError::Moment), None)]),
    Bytes(
        &[3, 0, 2, 1, 0, 0, 0, 0, 0, 0, 0x61, 0x62],
        &[Turn(3, 0, Err(TurnError::Cut), None)],
    ),
];

#[test]
fn turns_are_read(rt: HostRuntime) {
    all_live(&rt, &TURNS);
}
