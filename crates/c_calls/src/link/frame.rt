//! Frames that came, and the buffers that lie ready for the next ones.
ghost use Rattle.std.specs.Prelude.{◌≡◌, [], ◌∷◌, ◌++◌, map, IfSome, MatchResult};

use crate::link::error::PushError;
use net_base::RxToken;
use std::alloc::Global;
use std::collections::VecDeque;
use std::rc::Rc;

/// A frame, which a token shares with the device while it is read: so its buffer is free again once the token is dropped.
pub(crate) type Frame = Rc<Vec<u8>>;

/// A frame that came.
#[derive(Drop)]
pub struct FrameRxToken {
    pub(crate) frame: Frame,
}

impl RxToken for FrameRxToken {
    ghost frame = { λ token. token.frame.value.items };

    fn bytes(&self) -> &[u8] {
        self.frame.as_ref().as_slice()
    }

    fn consume<R, F: FnOnce(&[u8]) -> R>(self, f: F) -> R {
        f(self.bytes())
    }
}

/// Puts a frame of these bytes after those that came, if there is memory.
pub(crate) fn put_following(
    alloc: Global,
    came: &mut VecDeque<Frame>,
    ready: &mut Vec<Frame>,
    bytes: &[u8],
) -> Result<(), PushError>
    ensures { MatchResult result
        (λ u. map (λ frame. frame.value.items) came.new.items ≡ map (λ frame. frame.value.items) came.old.items ++ bytes.now ∷ [])
        (λ error. (error ≡ PushError.Memory) × (came.new.items ≡ came.old.items)) }
{
    let Some(frame) = filled(alloc, ready, bytes) else {
        return Err(PushError::Memory);
    };
    match came.push_back(frame) {
        Ok(()) => Ok(()),
        Err(_) => Err(PushError::Memory),
    }
}

/// The bytes in a buffer that lies ready, or in a new one.
pub(crate) fn filled(alloc: Global, ready: &mut Vec<Frame>, bytes: &[u8]) -> Option<Frame>
    ensures { IfSome result (λ frame. frame.value.items ≡ bytes.now) }
{
    if let Some(frame) = ready.pop() {
        if let Some(frame) = refilled(frame, bytes) {
            return Some(frame);
        }
    }
    let mut buffer = Vec::new(alloc);
    buffer.extend_from_slice(bytes).ok()?;
    Rc::new(alloc, buffer).ok()
}

/// The buffer with these bytes in place of its own, if nobody else reads it and there is memory.
fn refilled(mut frame: Frame, bytes: &[u8]) -> Option<Frame>
    ensures { IfSome result (λ frame. frame.value.items ≡ bytes.now) }
{
    let buffer = Rc::get_mut(&mut frame)?;
    buffer.truncate(0);
    buffer.extend_from_slice(bytes).ok()?;
    Some(frame)
}

/// Lays so many more buffers ready, each for a frame of so many bytes, and says whether there was memory for all.
pub(crate) fn lay_ready(
    alloc: Global,
    ready: &mut Vec<Frame>,
    count: usize,
    length: usize,
) -> bool {
    if ready.reserve(count).is_err() {
        return false;
    }
    for _ in 0..count {
        let Ok(buffer) = Vec::with_capacity(alloc, length) else {
            return false;
        };
        let Ok(frame) = Rc::new(alloc, buffer) else {
            return false;
        };
        if ready.push(frame).is_err() {
            return false;
        }
    }
    true
}
