//! Frames that are to go, and the buffers that lie ready for the next ones.
ghost use Rattle.std.specs.Prelude.{◌≡◌, ◌<◌, if◌then◌else◌, is_ok, drop, length, vec_len, IfSome, OnSome};
ghost use Rattle.std.specs.VecDeque.{deque_len, deque_capacity};
ghost use Rattle.net_base.specs.Device.{frames_of};
ghost use Rattle.c_calls.specs.Link.{fetch_answer, fetch_after, fetched};

use crate::link::error::FetchError;
use std::alloc::Global;
use std::collections::VecDeque;

/// Copies the first frame to the front of the slice, if it is that long.
pub(crate) fn copy_first(leaving: &VecDeque<Vec<u8>>, out: &mut [u8]) -> Result<usize, FetchError>
    ensures answer { result ≡ fetch_answer (frames_of leaving.now.items) (length out.old) }
    ensures bytes { out.new ≡ fetched (frames_of leaving.now.items) out.old }
    ensures left { fetch_after (frames_of leaving.now.items) (length out.old) ≡
        (if is_ok result then drop 1 (frames_of leaving.now.items) else frames_of leaving.now.items) }
{
    let Some(first) = leaving.front() else {
        return Err(FetchError::Empty);
    };
    let count = first.len();
    if out.len() < count {
        return Err(FetchError::TooShort);
    }
    out[..count].copy_from_slice(first.as_slice());
    Ok(count)
}

/// A buffer of `len` bytes for a frame, and a slot for it after those that are to go, if there is memory for both.
pub(crate) fn take_buffer(
    leaving: &mut VecDeque<Vec<u8>>,
    ready: &mut Vec<Vec<u8>>,
    len: usize,
) -> Option<Vec<u8>>
    ensures frames { leaving.new.items ≡ leaving.old.items }
    ensures buffer { IfSome result (λ buffer. vec_len buffer ≡ len) }
    ensures slot { OnSome result (deque_len leaving.new < deque_capacity leaving.new) }
{
    leaving.reserve(1).ok()?;
    let mut buffer = match ready.pop() {
        Some(buffer) => buffer,
        None => Vec::new(*leaving.allocator()),
    };
    // What stands in it is of a frame that went: the host writes each byte.
    buffer.resize(len, 0).ok()?;
    Some(buffer)
}

/// Lays so many more buffers ready, each for a frame of so many bytes, and says whether there was memory for all.
pub(crate) fn lay_spare(
    alloc: Global,
    spare: &mut Vec<Vec<u8>>,
    count: usize,
    length: usize,
) -> bool {
    if spare.reserve(count).is_err() {
        return false;
    }
    for _ in 0..count {
        let Ok(buffer) = Vec::with_capacity(alloc, length) else {
            return false;
        };
        if spare.push(buffer).is_err() {
            return false;
        }
    }
    true
}
