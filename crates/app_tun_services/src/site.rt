//! A site: what is said on a connection of the page.
ghost use Rattle.std.specs.Prelude.{◌≡◌, ◌<◌, ◌≤◌, length, min, take};
ghost use Rattle.app_tun_services.specs.Site.{talk, room_in, pattern, said_more, head_text, end_text, body_text, body_said, said, counted, rounds, ServesOnce, Serves};
ghost use Rattle.app_tun_services.specs.Site.{Answers};

use crate::counts::{Counts, say_counts};
use crate::request::{Answer, Reply, Verdict, judge};
use sockets::tcp;

/// How many bytes the megabyte has.
pub const MEGABYTE: usize = 1_000_000;

/// How many requests of a connection are answered in a turn, at most.
const ROUNDS: usize = 8;

/// How many bytes an answer takes, at most, but for the megabyte.
const MOST_REPLY: usize = 1024;

/// What was seen of a connection in a turn, and since when it has been so.
#[derive(Clone, Copy, Debug, PartialEq, Eq)]
pub struct Seen {
    /// 1 where bytes of a request wait, else 0.
    pub request: usize,
    /// How many bytes wait to be acknowledged.
    pub queued: usize,
    /// How many bytes of the megabyte are still to be said.
    pub left: usize,
    /// In microseconds.
    pub since: u64,
}

/// What a connection is in the middle of.
#[derive(Clone, Copy, Debug, PartialEq, Eq)]
pub struct Session {
    /// How many bytes of the megabyte are still to be said.
    pub left: usize,
    /// Nothing is said after them.
    pub closes: bool,
    /// A request was answered.
    pub was_asked: bool,
    /// What was last seen of it.
    pub seen: Option<Seen>,
    /// How many requests were answered with 200 since that was last asked.
    pub answered: u64,
    /// How many were answered with something else.
    pub declined: u64,
}

impl Session {
    /// That of a connection that wasn't asked for anything.
    pub const INITIAL: Session = Session {
        left: 0,
        closes: false,
        was_asked: false,
        seen: None,
        answered: 0,
        declined: 0,
    };

    /// One answer more.
    fn count(&mut self, reply: Reply)
        ensures { self.new ≡ counted reply self.old }
    {
        match reply {
            Reply::Page | Reply::Counts | Reply::Megabyte => {
                self.answered = self.answered.saturating_add(1)
            }
            _ => self.declined = self.declined.saturating_add(1),
        }
    }
}

/// The status line and the fields that depend on the reply alone.
#[tactic(auto, unfolding(crate::specs::Site::head_text))]
fn head_of(reply: Reply) -> &'static [u8]
    ensures { result.now ≡ head_text reply }
{
    match reply {
        Reply::Page => b"HTTP/1.1 200 OK\r\nContent-Type: text/html\r\nContent-Length: 106\r\n",
        Reply::Counts => {
            b"HTTP/1.1 200 OK\r\nContent-Type: text/plain\r\nCache-Control: no-store\r\nContent-Length: 599\r\n"
        }
        Reply::Megabyte => {
            b"HTTP/1.1 200 OK\r\nContent-Type: text/plain\r\nContent-Length: 1000000\r\n"
        }
        Reply::BadRequest => {
            b"HTTP/1.1 400 Bad Request\r\nContent-Type: text/plain\r\nContent-Length: 12\r\n"
        }
        Reply::NotFound => {
            b"HTTP/1.1 404 Not Found\r\nContent-Type: text/plain\r\nContent-Length: 10\r\n"
        }
        Reply::NotAllowed => {
            b"HTTP/1.1 405 Method Not Allowed\r\nAllow: GET, HEAD\r\nContent-Type: text/plain\r\nContent-Length: 19\r\n"
        }
        Reply::TooLarge => {
            b"HTTP/1.1 431 Request Header Fields Too Large\r\nContent-Type: text/plain\r\nContent-Length: 32\r\n"
        }
        Reply::NotImplemented => {
            b"HTTP/1.1 501 Not Implemented\r\nContent-Type: text/plain\r\nContent-Length: 16\r\n"
        }
    }
}

/// What ends the head.
#[tactic(auto, unfolding(crate::specs::Site::end_text))]
fn end_of(closes: bool) -> &'static [u8]
    ensures { result.now ≡ end_text closes }
{
    if closes {
        b"Connection: close\r\n\r\n"
    } else {
        b"\r\n"
    }
}

/// The body of a reply whose body is always the same.
#[tactic(auto, unfolding(crate::specs::Site::body_text))]
fn body_of(reply: Reply) -> &'static [u8]
    ensures { result.now ≡ body_text reply }
{
    match reply {
        Reply::Page => {
            b"<!DOCTYPE html>\n<title>Zemplovir</title>\n<p>This page came over a TCP/IP stack whose promises are proved.\n"
        }
        Reply::Counts => b"",
        Reply::Megabyte => b"",
        Reply::BadRequest => b"bad request\n",
        Reply::NotFound => b"not found\n",
        Reply::NotAllowed => b"method not allowed\n",
        Reply::TooLarge => b"request header fields too large\n",
        Reply::NotImplemented => b"not implemented\n",
    }
}

/// How many requests of a connection are answered in a turn, at most.
#[tactic(auto, unfolding(crate::specs::Site::rounds))]
fn rounds() -> usize
    ensures { result ≡ rounds }
{
    ROUNDS
}

/// Does what can be done now on an accepted connection: says more of the megabyte, or answers the requests that wait, one after the
/// other, and closes where the connection ends after an answer, or its peer closed and asks for no more. A request's head is judged
/// by as many bytes as the buffer holds.
pub fn serve_site(
    socket: &mut tcp::Socket,
    session: &mut Session,
    counts: &Counts,
    buffer: &mut [u8],
)
    ensures { Serves counts.now (length buffer.old) (talk socket.old session.old) (talk socket.new session.new) }
{
    for _ in 0..rounds() {
        serve_once(socket, session, counts, buffer);
    }
}

/// Says more, or closes, or answers one request.
fn serve_once(socket: &mut tcp::Socket, session: &mut Session, counts: &Counts, buffer: &mut [u8])
    ensures { ServesOnce counts.now (length buffer.old) (talk socket.old session.old) (talk socket.new session.new) }
{
    if !socket.may_send() {
        return;
    }
    if session.left > 0 {
        say_more(socket, session, buffer);
    } else if session.closes {
        socket.close();
    } else if room_in(socket) >= MOST_REPLY {
        answer(socket, session, counts, buffer);
    }
}

/// For how many bytes more the send queue has room.
fn room_in(socket: &tcp::Socket) -> usize
    ensures { result ≡ room_in socket.now }
{
    socket.send_capacity() - socket.send_queue()
}

/// Says more of the megabyte, as much as the send queue has room for and the buffer holds.
fn say_more(socket: &mut tcp::Socket, session: &mut Session, buffer: &mut [u8])
    ensures { talk socket.new session.new ≡ said_more (length buffer.old) (talk socket.old session.old) }
{
    let count = room_in(socket).min(session.left).min(buffer.len());
    let piece = &mut buffer[..count];
    fill(piece, MEGABYTE.saturating_sub(session.left));
    let _ = socket.send_slice(piece);
    session.left -= count;
}

/// The megabyte from this slot on: the 94 printable characters in turn.
#[tactic(auto, using(crate::proofs::Megabyte::pattern_more, crate::proofs::Megabyte::pattern_all))]
fn fill(piece: &mut [u8], from: usize)
    requires { from ≤ 1_000_000 }
    ensures { piece.new ≡ pattern from (length piece.old) }
{
    for i in 0..piece.len() {
        piece[i] = b'!' + ((from + i) % 94) as u8;
    }
}

/// Answers the request that waits, if it is whole.
fn answer(socket: &mut tcp::Socket, session: &mut Session, counts: &Counts, buffer: &mut [u8])
    ensures { Answers counts.now (length buffer.old) (talk socket.old session.old) (talk socket.new session.new) }
{
    let is_end = socket.state() == tcp::State::CloseWait;
    let count = request_in(socket, buffer);
    if is_end && count == 0 {
        socket.close();
        return;
    }
    let is_full = count == buffer.len();
    match judge(&buffer[..count], is_end, is_full) {
        Verdict::Wait => {}
        Verdict::Asks { len, answer } => {
            let _ = socket.recv_slice(&mut buffer[..len]);
            say(socket, session, counts, answer);
        }
        Verdict::Refused(reply) => say(socket, session, counts, Answer::refusal(reply)),
    }
}

/// Copies the request as far as it came, and returns how many bytes that is.
fn request_in(socket: &tcp::Socket, buffer: &mut [u8]) -> usize
    ensures count { result ≡ min (length buffer.old) (length socket.now.received.waiting) }
    ensures bytes { take result buffer.new ≡ take (length buffer.old) socket.now.received.waiting }
    ensures len { length buffer.new ≡ length buffer.old }
{
    match socket.peek_slice(buffer) {
        Ok(count) => count,
        Err(_) => 0,
    }
}

/// Says an answer, but for the megabyte, which is said by and by.
fn say(socket: &mut tcp::Socket, session: &mut Session, counts: &Counts, answer: Answer)
    ensures { talk socket.new session.new ≡ said counts.now answer (talk socket.old session.old) }
{
    let _ = socket.send_slice(head_of(answer.reply));
    let _ = socket.send_slice(end_of(answer.closes));
    if !answer.is_head {
        say_body(socket, session, counts, answer.reply);
    }
    session.closes = answer.closes;
    session.was_asked = true;
    session.count(answer.reply);
}

fn say_body(socket: &mut tcp::Socket, session: &mut Session, counts: &Counts, reply: Reply)
    ensures { talk socket.new session.new ≡ body_said counts.now reply (talk socket.old session.old) }
{
    match reply {
        Reply::Counts => say_counts(socket, counts),
        Reply::Megabyte => session.left = MEGABYTE,
        _ => {
            let _ = socket.send_slice(body_of(reply));
        }
    }
}
