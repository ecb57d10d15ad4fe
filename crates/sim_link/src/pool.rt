//! The buffers that a port holds ready.
ghost use Rattle.std.specs.Prelude.{◌≡◌, ◌+◌, ◌-◌, ◌<◌, ◌≤◌, vec_len, vec_capacity, [], ◌∷◌, ◌++◌, max, All, IfSome, IfNone, OnSome, IfOk, OnOk, OnErr};
ghost use Rattle.base_device.specs.Device.{frames_of};
ghost use Rattle.sim_link.specs.Pool.{Pool, ready_left};

use std::alloc::AllocError;

/// Makes ready as many buffers of `size` bytes as are missing to `count`, each with an offset among
/// the sent frames. Those that were made stay where one more finds no memory.
pub(crate) fn fill(
    sent: &mut Vec<Vec<u8>>,
    ready: &mut Vec<Vec<u8>>,
    count: usize,
    size: usize,
) -> Result<(), AllocError>
    requires { Pool sent.old ready.old size }
    ensures pool { Pool sent.new ready.new size }
    ensures frames { sent.new.items ≡ sent.old.items }
    ensures ok { OnOk result (vec_len ready.new ≡ max count (vec_len ready.old)) }
    ensures err { OnErr result ((vec_len ready.old ≤ vec_len ready.new) × (vec_len ready.new < count)) }
{
    if count <= ready.len() {
        return Ok(());
    }
    sent.reserve(count)?;
    ready.reserve(count - ready.len())?;
    while ready.len() < count {
        let buffer = Vec::with_capacity(*ready.allocator(), size)?;
        ready.push_reserved(buffer);
    }
    Ok(())
}

/// A buffer of `len` bytes for a frame that is about to be sent, and an offset for it among the sent
/// frames: one that lies ready where the frame fits it, else new memory.
pub(crate) fn take_buffer(
    sent: &mut Vec<Vec<u8>>,
    ready: &mut Vec<Vec<u8>>,
    len: usize,
    size: usize,
) -> Option<Vec<u8>>
    requires { Pool sent.old ready.old size }
    ensures pool { Pool sent.new ready.new size }
    ensures frames { sent.new.items ≡ sent.old.items }
    ensures buffer { IfSome result (λ buffer. vec_len buffer ≡ len) }
    ensures offset { OnSome result (vec_len sent.new + vec_len ready.new < vec_capacity sent.new) }
    ensures taken { OnSome result (vec_len ready.new ≡ ready_left (vec_len ready.old) size len) }
    ensures kept { IfNone result (vec_len ready.new ≡ vec_len ready.old) }
    ensures none_fits { IfNone result (len ≤ size → vec_len ready.old ≡ 0) }
{
    if len <= size && !ready.is_empty() {
        Some(take_ready(ready, len, size))
    } else {
        allocate(sent, ready, len).ok()
    }
}

/// One of the buffers that lie ready, made `len` bytes long.
fn take_ready(ready: &mut Vec<Vec<u8>>, len: usize, size: usize) -> Vec<u8>
    requires some { 0 < vec_len ready.old }
    requires room { All (λ buffer. size ≤ vec_capacity buffer) ready.old.items }
    requires fits { len ≤ size }
    ensures len { vec_len result ≡ len }
    ensures count { vec_len ready.new + 1 ≡ vec_len ready.old }
    ensures room { All (λ buffer. size ≤ vec_capacity buffer) ready.new.items }
{
    let Some(mut buffer) = ready.pop() else {
        unreachable!();
    };
    buffer.truncate(0);
    let Ok(()) = buffer.resize(len, 0) else {
        unreachable!();
    };
    buffer
}

/// A new buffer of `len` bytes, and an offset for it among the sent frames alongside the offsets of the
/// buffers that lie ready.
fn allocate(
    sent: &mut Vec<Vec<u8>>,
    ready: &Vec<Vec<u8>>,
    len: usize,
) -> Result<Vec<u8>, AllocError>
    ensures frames { sent.new.items ≡ sent.old.items }
    ensures count { vec_len sent.new ≡ vec_len sent.old }
    ensures capacity { vec_capacity sent.old ≤ vec_capacity sent.new }
    ensures buffer { IfOk result (λ buffer. vec_len buffer ≡ len) }
    ensures offset { OnOk result (vec_len sent.new + vec_len ready.now < vec_capacity sent.new) }
{
    sent.reserve(ready.len() + 1)?;
    let mut buffer = Vec::new(*sent.allocator());
    buffer.resize(len, 0)?;
    Ok(buffer)
}

/// Puts a frame after the sent ones, where an offset was reserved for it. What its buffer has too
/// much is given back: the sent frames stay for the whole simulation.
pub(crate) fn keep(sent: &mut Vec<Vec<u8>>, mut frame: Vec<u8>)
    requires { vec_len sent.old < vec_capacity sent.old }
    ensures frames { frames_of sent.new.items ≡ frames_of sent.old.items ++ frame.items ∷ [] }
    ensures len { vec_len sent.new ≡ vec_len sent.old + 1 }
    ensures capacity { vec_capacity sent.new ≡ vec_capacity sent.old }
{
    frame.shrink_to_fit();
    sent.push_reserved(frame);
}
