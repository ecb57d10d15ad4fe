//! What a line of a case says.
use crate::pairs::bad::Bad;
use crate::pairs::words::Words;
use hex::FromHexError;
use ip_wire::{IpEndpoint, IpListenEndpoint, TcpTimestampGenerator};
use net_base::{Duration, Instant};
use sockets::tcp::CongestionControl;
use std::alloc::{AllocError, Global};
use tcp_pair::{Bytes, PairEvent, Side, TcpSetting};

/// How many letters a line sends at most.
const MOST_LETTERS: usize = 1 << 20;

/// How many bytes the receive and the send buffers of A and B hold.
#[derive(Clone, Copy)]
pub struct Sizes {
    pub a: (usize, usize),
    pub b: (usize, usize),
}

/// What is to happen.
#[derive(Drop)]
pub enum Todo {
    Listen(Side, u16),
    /// To this endpoint, from this port.
    Connect(Side, IpEndpoint, u16),
    Send(Side, Vec<u8>),
    Recv(Side, usize),
    Close(Side),
    Abort(Side),
    Set(Side, TcpSetting),
    /// Its host's clock goes on to this instant.
    Clock(Side, Instant),
    /// At this instant, and whether what is offered counts as sent.
    Offer(Side, Instant, bool),
    /// The segment of this number, of those that the side sent, to the other side.
    Deliver(Side, usize),
}

/// What a line after the first says.
#[derive(Drop)]
pub enum Line {
    Event(Todo),
    /// The segments from this number to that one, of those that the side sent, to the other side, by one run of the pair.
    Burst(Side, usize, usize),
    /// The side is asked at this instant until it has nothing more to say.
    Ask(Side, Instant),
    /// From now on each new segment comes once and in order, and both users read: all is read within this span.
    Settle(Duration),
    /// Rounds in which each side has its turn, until neither waits, by the pair itself.
    Rounds,
}

/// A listening or local endpoint of any address.
pub fn at_port(port: u16) -> IpListenEndpoint {
    IpListenEndpoint { addr: None, port }
}

impl Todo {
    /// The event of a pair.
    pub fn event(&self, alloc: Global) -> Result<PairEvent, AllocError> {
        Ok(match self {
            Todo::Listen(side, port) => PairEvent::Listen(*side, at_port(*port)),
            Todo::Connect(side, remote, port) => {
                PairEvent::Connect(*side, *remote, at_port(*port))
            }
            Todo::Send(side, bytes) => {
                PairEvent::Send(*side, Bytes::from_vec(bytes.as_slice().to_vec(alloc)?))
            }
            Todo::Recv(side, count) => PairEvent::Recv(*side, *count),
            Todo::Close(side) => PairEvent::Close(*side),
            Todo::Abort(side) => PairEvent::Abort(*side),
            Todo::Set(side, setting) => PairEvent::TcpSetting(*side, *setting),
            Todo::Clock(side, instant) => PairEvent::Clock(*side, *instant),
            Todo::Offer(side, instant, sent) => PairEvent::Offer(*side, *instant, *sent),
            Todo::Deliver(side, k) => PairEvent::Deliver(*side, *k),
        })
    }
}

/// The sizes of a line `sockets A RX TX B RX TX`.
pub fn read_sizes(line: &str) -> Result<Sizes, Bad> {
    let mut words = Words::new(line);
    words.exactly("sockets");
    words.exactly("A");
    let a = (words.size(), words.size());
    words.exactly("B");
    let b = (words.size(), words.size());
    match words.end() {
        None => Ok(Sizes { a, b }),
        Some(bad) => Err(bad),
    }
}

/// What a line after the first says: nothing where an earlier run wrote it.
pub fn read_line(alloc: Global, line: &str) -> Result<Option<Line>, Bad> {
    let mut words = Words::new(line);
    match words.word() {
        ">" => read_event(alloc, &mut words),
        "=" | "sent" | "A" | "B" => Ok(None),
        _ => Err(Bad::new(">", 1)),
    }
}

fn read_event(alloc: Global, words: &mut Words<'_>) -> Result<Option<Line>, Bad> {
    let said = said(alloc, words);
    match words.end() {
        None => Ok(Some(said)),
        Some(bad) => Err(bad),
    }
}

fn said(alloc: Global, words: &mut Words<'_>) -> Line {
    let verb = words.word();
    match verb {
        "burst" => burst(words),
        "ask" => Line::Ask(words.side(), words.instant()),
        "settle" => Line::Settle(words.span()),
        "rounds" => Line::Rounds,
        _ => Line::Event(event(alloc, verb, words)),
    }
}

fn burst(words: &mut Words<'_>) -> Line {
    let side = words.side();
    let (first, last) = (words.size(), words.size());
    if last < first {
        words.lacks("number");
    }
    Line::Burst(side, first, last)
}

/// The event of this verb and the words after it.
fn event(alloc: Global, verb: &str, words: &mut Words<'_>) -> Todo {
    if !is_verb(verb) {
        words.lacks("event");
    }
    let side = words.side();
    match verb {
        "listen" => Todo::Listen(side, words.port()),
        "connect" => Todo::Connect(side, words.endpoint(), words.port()),
        "send" => Todo::Send(side, bytes(alloc, words)),
        "fill" => Todo::Send(side, letters(alloc, words)),
        "recv" => Todo::Recv(side, words.size()),
        "close" => Todo::Close(side),
        "abort" => Todo::Abort(side),
        "set" => Todo::Set(side, setting(words)),
        "clock" => Todo::Clock(side, words.instant()),
        "offer" => Todo::Offer(side, words.instant(), words.either("sent", "unsent")),
        _ => Todo::Deliver(side, words.size()),
    }
}

fn is_verb(word: &str) -> bool {
    matches!(
        word,
        "listen"
            | "connect"
            | "send"
            | "fill"
            | "recv"
            | "close"
            | "abort"
            | "set"
            | "clock"
            | "offer"
            | "deliver"
    )
}

/// The bytes of a word: pairs of hex digits, or `-` for none.
fn bytes(alloc: Global, words: &mut Words<'_>) -> Vec<u8> {
    let read = match words.word() {
        "-" => return Vec::new(alloc),
        word => hex::decode(alloc, word),
    };
    match read {
        Ok(bytes) => return bytes,
        Err(FromHexError::OutOfMemory) => words.lacks("memory"),
        Err(_) => words.lacks("bytes"),
    }
    Vec::new(alloc)
}

/// So many letters `a`.
fn letters(alloc: Global, words: &mut Words<'_>) -> Vec<u8> {
    let count = words.size();
    if count > MOST_LETTERS {
        words.lacks("number");
        return Vec::new(alloc);
    }
    match vec![in alloc; b'a'; count] {
        Ok(bytes) => bytes,
        Err(_) => {
            words.lacks("memory");
            Vec::new(alloc)
        }
    }
}

/// A setting, named as its setter is without `set_`.
fn setting(words: &mut Words<'_>) -> TcpSetting {
    match words.word() {
        "timeout" => TcpSetting::Timeout(words.duration()),
        "ack_delay" => TcpSetting::AckDelay(words.duration()),
        "keep_alive" => TcpSetting::KeepAlive(words.duration()),
        "nagle_enabled" => TcpSetting::NagleEnabled(words.either("on", "off")),
        "hop_limit" => TcpSetting::HopLimit(words.number_or_none()),
        "tsval_generator" => tsval_generator(words.number_or_none()),
        "congestion_control" => TcpSetting::CongestionControl(congestion_control(words)),
        "retries" => TcpSetting::Retries(words.number_or_none()),
        "min_rto" => TcpSetting::MinRto(words.span()),
        "fine_timer" => TcpSetting::FineTimer(words.either("on", "off")),
        "pause_synack" => TcpSetting::PauseSynack(words.either("on", "off")),
        _ => {
            words.lacks("setting");
            TcpSetting::NagleEnabled(true)
        }
    }
}

fn tsval_generator(offset: Option<u32>) -> TcpSetting {
    TcpSetting::TsvalGenerator(match offset {
        None => None,
        Some(offset) => Some(TcpTimestampGenerator(offset)),
    })
}

fn congestion_control(words: &mut Words<'_>) -> CongestionControl {
    match words.word() {
        "none" => CongestionControl::None,
        "reno" => CongestionControl::Reno,
        "cubic" => CongestionControl::Cubic,
        _ => {
            words.lacks("reno");
            CongestionControl::None
        }
    }
}
