//! Streams and frames without copies, and memory for frames that is taken at once.
ghost use Rattle.std.specs.Prelude.{◌≡◌, length};
ghost use Rattle.sockets.specs.AnySocket.{as_tcp};
ghost use Rattle.sockets.specs.declared.socket.Socket.TheVariants as Kind;
ghost use Rattle.c_calls.specs.Slots.{answer_at, after_at};
ghost use Rattle.c_calls.specs.Lending.{reserve_answer, reserve_after, commit_answer, commit_after, skip_answer, skip_after};
ghost use Rattle.c_calls.specs.Lending.{first_frame, skip_frame_answer, frame_skipped, TakesMemory};
ghost use Rattle.zemplovir_c.specs.Answers.{answer_by, after_by, given_by, mapped, Acts};

use crate::answers::{NO_HOST, OK, done, given};
use crate::handle::Handle;
use crate::streams::lend;
use std::alloc::Global;

/// Lends free bytes after those that are queued, as many as lie after one another, to be written until the next poll or call of the socket.
#[unsafe(no_mangle)]
pub extern "C" fn zv_tcp_reserve(
    alloc: Global,
    handle: &mut Handle,
    socket: usize,
    bytes: &mut *mut u8,
    count: &mut usize,
) -> u32
    ensures answer { result ≡ answer_by handle.old.inside (λ host. answer_at as_tcp (reserve_answer) host.slots socket) }
    ensures after { handle.new.inside ≡
        after_by handle.old.inside (λ host. record host { slots = after_at as_tcp Kind.Tcp (reserve_after) host.slots socket }) }
    ensures count { count.new ≡ given_by handle.old.inside (λ host. answer_at as_tcp (reserve_answer) host.slots socket) count.old }
{
    let Some(mut host) = handle.take(alloc) else {
        return NO_HOST;
    };
    let answer = host.tcp_reserve(socket, bytes);
    handle.put(host);
    given(answer, count)
}

/// Queues the first bytes that were lent to be written.
#[unsafe(no_mangle)]
pub extern "C" fn zv_tcp_commit(
    alloc: Global,
    handle: &mut Handle,
    socket: usize,
    count: usize,
) -> u32
    ensures answer { result ≡ answer_by handle.old.inside (λ host. answer_at as_tcp (commit_answer count) host.slots socket) }
    ensures after { handle.new.inside ≡
        after_by handle.old.inside (λ host. record host { slots = after_at as_tcp Kind.Tcp (commit_after count) host.slots socket }) }
{
    let Some(mut host) = handle.take(alloc) else {
        return NO_HOST;
    };
    let answer = host.tcp_commit(socket, count);
    handle.put(host);
    done(answer)
}

/// Gives up the first bytes of those that are lent for reading.
#[unsafe(no_mangle)]
pub extern "C" fn zv_tcp_skip(
    alloc: Global,
    handle: &mut Handle,
    socket: usize,
    count: usize,
) -> u32
    ensures answer { result ≡ answer_by handle.old.inside (λ host. answer_at as_tcp (skip_answer count) host.slots socket) }
    ensures after { handle.new.inside ≡
        after_by handle.old.inside (λ host. record host { slots = after_at as_tcp Kind.Tcp (skip_after count) host.slots socket }) }
{
    let Some(mut host) = handle.take(alloc) else {
        return NO_HOST;
    };
    let answer = host.tcp_skip(socket, count);
    handle.put(host);
    done(answer)
}

/// Lends the first frame that is to go, until it is skipped or fetched.
#[unsafe(no_mangle)]
pub extern "C" fn zv_frame_peek_out(
    alloc: Global,
    handle: &mut Handle,
    frame: &mut *const u8,
    count: &mut usize,
) -> u32
    ensures answer { result ≡ answer_by handle.old.inside (λ host. first_frame host.link.sent) }
    ensures after { handle.new.inside ≡ handle.old.inside }
    ensures count { count.new ≡ given_by handle.old.inside (λ host. mapped length (first_frame host.link.sent)) count.old }
{
    let Some(host) = handle.take(alloc) else {
        return NO_HOST;
    };
    let answer = match host.frame_peek_out() {
        Ok(first) => {
            lend(first, frame, count);
            OK
        }
        Err(code) => code.number(),
    };
    handle.put(host);
    answer
}

/// The first frame that is to go went: it is dropped, and counted.
#[unsafe(no_mangle)]
pub extern "C" fn zv_frame_skip_out(alloc: Global, handle: &mut Handle) -> u32
    ensures answer { result ≡ answer_by handle.old.inside (λ host. skip_frame_answer host.link.sent) }
    ensures after { handle.new.inside ≡ after_by handle.old.inside frame_skipped }
{
    let Some(mut host) = handle.take(alloc) else {
        return NO_HOST;
    };
    let answer = host.frame_skip_out();
    handle.put(host);
    done(answer)
}

/// Takes memory for as many frames each way as may wait, of so many bytes each.
#[unsafe(no_mangle)]
pub extern "C" fn zv_frames_reserve(alloc: Global, handle: &mut Handle, length: usize) -> u32
    ensures { Acts TakesMemory handle.old.inside result handle.new.inside }
{
    let Some(mut host) = handle.take(alloc) else {
        return NO_HOST;
    };
    let answer = host.frames_reserve(length);
    handle.put(host);
    done(answer)
}
