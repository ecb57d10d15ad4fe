//! Numbers of 32 bits as counts.
ghost use Rattle.std.specs.Prelude.{◌≡◌, ◌≤◌, ◌<◌, ◌^◌};
ghost use Rattle.tcp_state.specs.Offsets.{distance_after, distance_before, advanced_by, overlaps_window};

use ip_wire::SeqNumber;

const HALF: u32 = 1 << 31;

/// How far past the reference the number lies, 0 where it lies before it.
pub fn distance_after(reference: SeqNumber, number: SeqNumber) -> u32
    ensures { result ≡ distance_after reference number }
{
    let distance = reference.distance(number);
    if distance < HALF { distance } else { 0 }
}

/// How far before the reference the number lies, 0 where it lies past it.
pub fn distance_before(reference: SeqNumber, number: SeqNumber) -> u32
    ensures { result ≡ distance_before reference number }
{
    let distance = reference.distance(number);
    if distance < HALF {
        0
    } else {
        u32::MAX - distance + 1
    }
}

/// The number so many after this one.
pub fn advanced_by(number: SeqNumber, count: usize) -> SeqNumber
    ensures { result ≡ advanced_by number count }
{
    SeqNumber(number.0.wrapping_add((count % (1 << 32)) as u32))
}

/// Whether a segment of so many positions meets the window of so much space.
pub fn overlaps_window(before: u32, past: u32, size: usize, space: usize) -> bool
    ensures { result ≡ overlaps_window before past size space }
{
    if size == 0 {
        before == 0 && (past == 0 || (past as usize) < space)
    } else {
        (past as usize) < space && (before as usize) < size
    }
}
