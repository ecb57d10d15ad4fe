//! Frames as lines of text.
ghost use Rattle.std.specs.Prelude.{◌≡◌, ◌≢◌, ◌≤◌, ◌++◌, ℕ, List, length, take, drop, min, IfOk, IfErr};
ghost use Rattle.c_calls.specs.declared.code.Code.TheVariants as Is;
ghost use Rattle.zemplovir_c.specs.Answers.{Gives, Traces};

use crate::answers::{NO_HOST, given};
use crate::handle::Handle;
use base_wrappers::Direction;
use c_calls::Code;
use net_base::{Instant, Medium};
use std::alloc::Global;
use wire_trace::trace_line;

/// Copies the front of the bytes, as many as there is room for. Answers how many.
fn copy_front(bytes: &[u8], out: &mut [u8]) -> usize
    ensures count { result ≡ min (length bytes.now) (length out.old) }
    ensures front { out.new ≡ take result bytes.now ++ drop result out.old }
{
    let count = bytes.len().min(out.len());
    out[..count].copy_from_slice(&bytes[..count]);
    count
}

/// Writes the line of a frame.
fn line_in(
    alloc: Global,
    medium: Medium,
    now: Instant,
    direction: Direction,
    frame: &[u8],
    text: &mut [u8],
) -> Result<usize, Code>
    ensures line { IfOk result (λ count. (line : List ℕ) × (length line ≡ count) × (text.new ≡ line ++ drop count text.old)) }
    ensures within { IfOk result (λ count. count ≤ length text.old) }
    ensures memory { IfErr result (λ code. (code ≡ Is.Memory) × (text.new ≡ text.old)) }
{
    let mut line = String::new(alloc);
    match trace_line(alloc, medium, now, direction, frame, &mut line) {
        Ok(()) => Ok(copy_front(line.as_bytes(), text)),
        Err(_) => Err(Code::Memory),
    }
}

/// Which way a frame goes.
fn direction_in(sent: u8) -> Direction {
    if sent == 0 {
        Direction::Rx
    } else {
        Direction::Tx
    }
}

/// Writes what a frame is as a line of text: the instant in seconds, whether it came or was sent, and a header behind the other. Of a
/// line that is longer than the buffer the front is written. What the buffer has behind it stays.
#[unsafe(no_mangle)]
pub extern "C" fn zv_trace_line(
    alloc: Global,
    handle: &mut Handle,
    now: i64,
    sent: u8,
    frame: &[u8],
    text: &mut [u8],
    count: &mut usize,
) -> u32
    ensures answers { Gives (Traces (length text.old)) handle.old.inside result count.old count.new handle.new.inside }
    ensures line { result ≡ 0 → (line : List ℕ) × (length line ≡ count.new) × (text.new ≡ line ++ drop count.new text.old) }
    ensures refused { result ≢ 0 → text.new ≡ text.old }
{
    let Some(host) = handle.take(alloc) else {
        return NO_HOST;
    };
    let medium = host.medium();
    handle.put(host);
    let line = line_in(
        alloc,
        medium,
        Instant::from_micros(now),
        direction_in(sent),
        frame,
        text,
    );
    given(line, count)
}
