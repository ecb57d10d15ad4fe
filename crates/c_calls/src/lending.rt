//! Streams without copies: room that is written where it stands, and bytes that are read where they stand.
ghost use Rattle.std.specs.Prelude.{◌≡◌, ◌≤◌, nat_le, if◌then◌else◌, length, MatchResult, Ok, Err};
ghost use Rattle.sockets.specs.AnySocket.{as_tcp};
ghost use Rattle.sockets.specs.declared.socket.Socket.TheVariants as Kind;
ghost use Rattle.c_calls.specs.Lending.{reserve_answer, reserve_after, commit_answer, commit_after, skip_answer, skip_after};
ghost use Rattle.c_calls.specs.Lending.{first_frame, skip_frame_answer, frame_skipped, TakesMemory};
ghost use Rattle.c_calls.specs.Slots.{answer_at, after_at};

use crate::code::{Code, of_stream_recv, of_stream_send};
use crate::host::{Host, frame_went};
use crate::kinds::lent;
use crate::slots::Slots;
use sockets::tcp;
use std::ptr;

/// Where bytes stand that are lent, and how many.
#[derive(Clone, Copy)]
struct Place {
    at: *const u8,
    len: usize,
}

/// Where they stand. None of them is queued.
fn place_of(free: &mut [u8]) -> (usize, Place)
    ensures count { result.0 ≡ 0 }
    ensures len { result.1.len ≡ length free.old }
    ensures unchanged { free.new ≡ free.old }
{
    let at = match free.first() {
        Some(first) => ptr::from_ref(first),
        None => ptr::null(),
    };
    let len = free.len();
    (0, Place { at, len })
}

/// Lends free bytes after those that are queued, as many as lie after one another, and answers how many.
pub fn reserve(sockets: &mut Slots, number: usize, at: &mut *mut u8) -> Result<usize, Code>
    ensures answer { result ≡ answer_at as_tcp reserve_answer sockets.old number }
    ensures after { sockets.new ≡ after_at as_tcp Kind.Tcp reserve_after sockets.old number }
{
    match lent::<tcp::Socket>(sockets, number) {
        Ok(socket) => lend_room(socket, at),
        Err(code) => Err(code),
    }
}

#[tactic(auto, using(crate::proofs::Commits::none_more, crate::proofs::Commits::same_room))]
fn lend_room(socket: &mut tcp::Socket, at: &mut *mut u8) -> Result<usize, Code>
    ensures answer { result ≡ reserve_answer socket.old }
    ensures after { socket.new ≡ reserve_after socket.old }
{
    match socket.send(|free| place_of(free)) {
        Ok(place) => {
            let Place { at: first, len } = place;
            let first = first.cast_mut();
            if len != 0 {
                *at = first;
            }
            Ok(len)
        }
        Err(error) => Err(of_stream_send(error)),
    }
}

/// Queues the first bytes that were lent to be written.
pub fn commit(sockets: &mut Slots, number: usize, count: usize) -> Result<(), Code>
    ensures answer { result ≡ answer_at as_tcp (commit_answer count) sockets.old number }
    ensures after { sockets.new ≡ after_at as_tcp Kind.Tcp (commit_after count) sockets.old number }
{
    match lent::<tcp::Socket>(sockets, number) {
        Ok(socket) => queue_lent(socket, count),
        Err(code) => Err(code),
    }
}

#[tactic(auto, using(crate::proofs::Commits::none_more, crate::proofs::Commits::same_room))]
fn queue_lent(socket: &mut tcp::Socket, count: usize) -> Result<(), Code>
    ensures answer { result ≡ commit_answer count socket.old }
    ensures after { socket.new ≡ commit_after count socket.old }
{
    match socket.send(|free| written(free, count)) {
        Ok(true) => Ok(()),
        Ok(false) => Err(Code::TooLong),
        Err(error) => Err(of_stream_send(error)),
    }
}

/// How many of the bytes are queued: so many, or none where there are fewer. And which of the two.
fn written(free: &mut [u8], count: usize) -> (usize, bool)
    ensures count { result.0 ≡ (if nat_le count (length free.old) then count else 0) }
    ensures fits { result.1 ≡ nat_le count (length free.old) }
    ensures unchanged { free.new ≡ free.old }
{
    if count <= free.len() {
        (count, true)
    } else {
        (0, false)
    }
}

/// Gives up the first bytes of those that are lent for reading.
pub fn skip(sockets: &mut Slots, number: usize, count: usize) -> Result<(), Code>
    ensures answer { result ≡ answer_at as_tcp (skip_answer count) sockets.old number }
    ensures after { sockets.new ≡ after_at as_tcp Kind.Tcp (skip_after count) sockets.old number }
{
    match lent::<tcp::Socket>(sockets, number) {
        Ok(socket) => skip_waiting(socket, count),
        Err(code) => Err(code),
    }
}

fn skip_waiting(socket: &mut tcp::Socket, count: usize) -> Result<(), Code>
    ensures answer { result ≡ skip_answer count socket.old }
    ensures after { socket.new ≡ skip_after count socket.old }
{
    match socket.peek(socket.recv_queue()) {
        Ok(bytes) if count <= bytes.len() => {}
        Ok(_) => return Err(Code::TooLong),
        Err(error) => return Err(of_stream_recv(error)),
    }
    match socket.recv(|bytes| taken(bytes, count)) {
        Ok(()) => Ok(()),
        Err(error) => Err(of_stream_recv(error)),
    }
}

/// So many of the bytes are read.
fn taken(bytes: &[u8], count: usize) -> (usize, ())
    requires fits { count ≤ length bytes.now }
    ensures count { result.0 ≡ count }
{
    (count, ())
}

impl Host {
    /// Lends free bytes after those that are queued, as many as lie after one another, and answers how many.
    pub fn tcp_reserve(&mut self, number: usize, at: &mut *mut u8) -> Result<usize, Code>
        ensures answer { result ≡ answer_at as_tcp reserve_answer self.old.slots number }
        ensures after { self.new ≡ record self.old { slots = after_at as_tcp Kind.Tcp reserve_after self.old.slots number } }
    {
        reserve(self.sockets(), number, at)
    }

    /// Queues the first bytes that were lent to be written.
    pub fn tcp_commit(&mut self, number: usize, count: usize) -> Result<(), Code>
        ensures answer { result ≡ answer_at as_tcp (commit_answer count) self.old.slots number }
        ensures after { self.new ≡ record self.old { slots = after_at as_tcp Kind.Tcp (commit_after count) self.old.slots number } }
    {
        commit(self.sockets(), number, count)
    }

    /// Gives up the first bytes of those that are lent for reading.
    pub fn tcp_skip(&mut self, number: usize, count: usize) -> Result<(), Code>
        ensures answer { result ≡ answer_at as_tcp (skip_answer count) self.old.slots number }
        ensures after { self.new ≡ record self.old { slots = after_at as_tcp Kind.Tcp (skip_after count) self.old.slots number } }
    {
        skip(self.sockets(), number, count)
    }

    /// Takes memory for as many frames each way as may wait, of so many bytes each.
    pub fn frames_reserve(&mut self, length: usize) -> Result<(), Code>
        ensures { TakesMemory self.old result self.new }
    {
        if self.link().reserve(length) {
            Ok(())
        } else {
            Err(Code::Memory)
        }
    }

    /// Lends the first frame that is to go.
    pub fn frame_peek_out(&self) -> Result<&[u8], Code>
        ensures { MatchResult result
            (λ frame. first_frame self.now.link.sent ≡ Ok frame.now)
            (λ code. first_frame self.now.link.sent ≡ Err code) }
    {
        match self.seen_link().first() {
            Some(frame) => Ok(frame),
            None => Err(Code::Empty),
        }
    }

    /// The first frame that is to go went: it is dropped, and counted.
    pub fn frame_skip_out(&mut self) -> Result<(), Code>
        ensures answer { result ≡ skip_frame_answer self.old.link.sent }
        ensures after { self.new ≡ frame_skipped self.old }
    {
        if self.seen_link().leaving() == 0 {
            return Err(Code::Empty);
        }
        self.link().drop_first();
        frame_went(self.counted());
        Ok(())
    }
}
