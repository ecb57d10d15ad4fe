//! What a request asks for (RFC 9112, sections 2 to 3 and 6; RFC 9110, sections 9 and 15).
ghost use Rattle.std.specs.Prelude.{◌≡◌, ◌==◌, ◌<◌, ◌≤◌, length, map, position, All, IfSome};
ghost use Rattle.http1.specs.Fields.{known_fields};
ghost use Rattle.httparse.specs.Spans.{IsWithin, IsHeaderWithin, span_bytes, header_bytes};
ghost use Rattle.app_tun_services.specs.Request.{following_authority, origin_form, before_query, path_of, reply_at, is_read, is_known, reply_to, is_in_order};
ghost use Rattle.app_tun_services.specs.Request.{closes_after, refusal, answer_by, Judges};

use http1::fields::{ContentLength, KnownFields, TransferEncoding};
use httparse::spans::{EMPTY_HEADER_SPAN, HeaderSpan, RequestSpans, parse_request};
use httparse::{Error, Status};

/// How many header fields a request may have.
const MOST_FIELDS: usize = 32;

/// What is said to a request.
#[derive(Clone, Copy, Debug, PartialEq, Eq)]
pub enum Reply {
    /// 200, with the page.
    Page,
    /// 200, with what the host counted.
    Counts,
    /// 200, with a body of a megabyte.
    Megabyte,
    /// 400: it is no request, or one that contradicts itself.
    BadRequest,
    /// 404: nothing is at its path.
    NotFound,
    /// 405: its method is neither GET nor HEAD.
    NotAllowed,
    /// 431: its head is too long, or has too many fields.
    TooLarge,
    /// 501: its method isn't known.
    NotImplemented,
}

/// How a request is answered.
#[derive(Clone, Copy, Debug, PartialEq, Eq)]
pub struct Answer {
    pub reply: Reply,
    /// HEAD is answered without the body.
    pub is_head: bool,
    /// Nothing is said after it.
    pub closes: bool,
}

impl Answer {
    /// The answer to what isn't a request: the connection ends after it.
    pub fn refusal(reply: Reply) -> Answer
        ensures { result ≡ refusal reply }
    {
        Answer {
            reply,
            is_head: false,
            closes: true,
        }
    }
}

/// What is to be done about the bytes of a request so far.
#[derive(Clone, Copy, Debug, PartialEq, Eq)]
pub enum Verdict {
    /// More bytes may make it a request.
    Wait,
    /// The first bytes, so many, are the head of a request.
    Asks { len: usize, answer: Answer },
    /// It isn't a request, nor can it become one.
    Refused(Reply),
}

/// Judges the bytes that came. `is_end` says that no more will come, `is_full` that no more will be looked at.
pub fn judge(bytes: &[u8], is_end: bool, is_full: bool) -> Verdict
    ensures { Judges bytes.now is_end is_full result }
{
    let mut fields = [EMPTY_HEADER_SPAN; MOST_FIELDS];
    match parse_request(bytes, &mut fields) {
        Ok(Status::Complete(head)) => Verdict::Asks {
            len: head.len,
            answer: answer_to(bytes, &head, &fields[..head.headers]),
        },
        Ok(Status::Partial) if is_full => Verdict::Refused(Reply::TooLarge),
        Ok(Status::Partial) if is_end => Verdict::Refused(Reply::BadRequest),
        Ok(Status::Partial) => Verdict::Wait,
        Err(Error::TooManyHeaders) => Verdict::Refused(Reply::TooLarge),
        Err(_) => Verdict::Refused(Reply::BadRequest),
    }
}

/// How the request of this head is answered.
fn answer_to(bytes: &[u8], head: &RequestSpans, fields: &[HeaderSpan]) -> Answer
    requires method { IsWithin (length bytes.now) head.now.method }
    requires path { IsWithin (length bytes.now) head.now.path }
    requires fields { All (IsHeaderWithin (length bytes.now)) fields.now }
    ensures { result ≡ answer_by (span_bytes bytes.now head.now.method) (span_bytes bytes.now head.now.path) head.now.version
        (known_fields (map (header_bytes bytes.now) fields.now)) }
{
    let known = KnownFields::from_spans(bytes, fields);
    let method = head.method.of(bytes);
    if !is_in_order(head.version, &known) {
        return Answer::refusal(Reply::BadRequest);
    }
    Answer {
        reply: reply_to(method, head.path.of(bytes)),
        is_head: method == b"HEAD".as_slice(),
        closes: closes_after(head.version, &known),
    }
}

/// One `Host`, which HTTP/1.0 may leave out, and a length that is one.
fn is_in_order(version: u8, known: &KnownFields) -> bool
    ensures { result ≡ is_in_order version known.now }
{
    known.hosts <= 1
        && (version == 0 || known.hosts == 1)
        && !matches!(known.content_length, ContentLength::Invalid)
}

/// The connection ends after the answer to a request of HTTP/1.0, to one that says so, and to one with a body, which isn't read.
fn closes_after(version: u8, known: &KnownFields) -> bool
    ensures { result ≡ closes_after version known.now }
{
    version == 0
        || known.close
        || !matches!(
            known.content_length,
            ContentLength::Absent | ContentLength::Value(0)
        )
        || !matches!(known.transfer_encoding, TransferEncoding::Absent)
}

/// Where the byte stands first.
fn slot_of(byte: u8, bytes: &[u8]) -> Option<usize>
    ensures slot { result ≡ position (λ b. b == byte) bytes.now }
    ensures within { IfSome result (λ at. at < length bytes.now) }
{
    bytes.iter().position(|b| *b == byte)
}

/// What stands after the authority of an absolute target.
fn following_authority(rest: &[u8]) -> &[u8]
    ensures { result.now ≡ following_authority rest.now }
{
    match slot_of(b'/', rest) {
        Some(at) => &rest[at..],
        None => b"/",
    }
}

/// A target without its scheme and authority.
fn origin_form(target: &[u8]) -> &[u8]
    ensures { result.now ≡ origin_form target.now }
{
    match target.strip_prefix(b"http://") {
        Some(rest) => following_authority(rest),
        None => target,
    }
}

/// What stands before a query.
fn before_query(target: &[u8]) -> &[u8]
    ensures { result.now ≡ before_query target.now }
{
    match slot_of(b'?', target) {
        Some(at) => &target[..at],
        None => target,
    }
}

/// What is said of this method and target.
fn reply_to(method: &[u8], target: &[u8]) -> Reply
    ensures { result ≡ reply_to method.now target.now }
{
    if is_read(method) {
        reply_at(before_query(origin_form(target)))
    } else if is_known(method) {
        Reply::NotAllowed
    } else {
        Reply::NotImplemented
    }
}

/// GET or HEAD.
fn is_read(method: &[u8]) -> bool
    ensures { result ≡ is_read method.now }
{
    method == b"GET".as_slice() || method == b"HEAD".as_slice()
}

/// The other methods of RFC 9110, section 9.3, and PATCH.
fn is_known(method: &[u8]) -> bool
    ensures { result ≡ is_known method.now }
{
    method == b"POST".as_slice()
        || method == b"PUT".as_slice()
        || method == b"DELETE".as_slice()
        || method == b"CONNECT".as_slice()
        || method == b"OPTIONS".as_slice()
        || method == b"TRACE".as_slice()
        || method == b"PATCH".as_slice()
}

/// What is at this path.
fn reply_at(path: &[u8]) -> Reply
    ensures { result ≡ reply_at path.now }
{
    if path == b"/".as_slice() {
        Reply::Page
    } else if path == b"/counts".as_slice() {
        Reply::Counts
    } else if path == b"/megabyte".as_slice() {
        Reply::Megabyte
    } else {
        Reply::NotFound
    }
}
