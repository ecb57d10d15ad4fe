//! A script as far as it has come, line by line.
use crate::answer::{Answer, put_sent};
use crate::header::Header;
use crate::host::Host;
use crate::line::Line;
use crate::stop::{Class, Order, Stop};
use crate::words::Words;
use crate::{commands, datagrams, device_lines, host_lines, polls, settings, streams};
use std::alloc::{AllocError, Global};
use std::mem::replace;

/// How far a script has come.
#[derive(Drop)]
pub enum Session {
    /// No line has been read.
    Begun,
    /// The header is being read.
    Header(Header),
    /// The host runs.
    Running(Box<Host>),
}

impl Session {
    /// Takes one line of ASCII, without the byte 0a that ends it: what it writes. A line without bytes, or that begins with `#`, says
    /// nothing.
    pub fn take_line(&mut self, alloc: Global, line: &[u8]) -> Result<String, Stop> {
        let text = match str::from_utf8(line) {
            Ok(text) if !text.ends_with('\r') => text,
            _ => return Err(Stop::CarriageReturn),
        };
        if text.is_empty() || text.starts_with('#') {
            return Ok(String::new(alloc));
        }
        let mut words = Words::new(text);
        match self.take_words(alloc, &mut words) {
            Some(text) => Ok(text),
            None => Err(words.stop()),
        }
    }

    // Takes a line that says something. None: it isn't taken.
    fn take_words(&mut self, alloc: Global, words: &mut Words<'_>) -> Option<String> {
        let line = Line::of(words.word(Class::Line));
        match self {
            Session::Begun => {
                let header = begun(alloc, line, words)?;
                self.set(Session::Header(header));
                Some(String::new(alloc))
            }
            Session::Header(header) => match line {
                Line::Start => {
                    let host = started(alloc, header, words)?;
                    self.set(Session::Running(host));
                    String::from_str(alloc, "ok\n").ok()
                }
                Line::Header(verb) => {
                    if header.take(verb, words) {
                        Some(String::new(alloc))
                    } else {
                        None
                    }
                }
                _ => {
                    words.note(Stop::Misplaced(Order::StartFirst, 1));
                    None
                }
            },
            Session::Running(host) => proceed(alloc, host, line, words),
        }
    }

    /// What comes next. (An assignment would do, but its proof follows each part of the host that it lets go.)
    pub fn set(&mut self, next: Session) {
        drop(replace(self, next));
    }
}

// What the first line of a script asks for.
fn begun(alloc: Global, line: Line, words: &mut Words<'_>) -> Option<Header> {
    match line {
        Line::World => {}
        _ => words.note(Stop::Misplaced(Order::WorldFirst, 1)),
    }
    Header::read(alloc, words)
}

// The host that the header asks for, at the header's end.
fn started(alloc: Global, header: &Header, words: &mut Words<'_>) -> Option<Box<Host>> {
    words.end();
    if words.is_taken() {
        header.start(alloc, words)
    } else {
        None
    }
}

/// Takes a line once the host runs: its answer, and the frames that were sent then.
fn proceed(alloc: Global, host: &mut Host, line: Line, words: &mut Words<'_>) -> Option<String> {
    let answer = play(alloc, host, line, words);
    if words.is_taken() {
        written(alloc, &answer, host).ok()
    } else {
        None
    }
}

fn play(alloc: Global, host: &mut Host, line: Line, words: &mut Words<'_>) -> Answer {
    match line {
        Line::Stream(verb) => streams::play(alloc, host, verb, words),
        Line::Datagram(verb) => datagrams::play(alloc, host, verb, words),
        Line::Host(verb) => host_lines::play(alloc, host, verb, words),
        Line::Poll(verb) => polls::play(host, verb, words),
        Line::Device(verb) => device_lines::play(alloc, host, verb, words),
        Line::Set => settings::set(host, words),
        Line::Get => settings::get(host, words),
        Line::Ask => commands::play(host, words),
        Line::World | Line::Start | Line::Header(_) => {
            words.note(Stop::Misplaced(Order::BeforeStart, 1));
            Answer::Done
        }
        Line::Unknown => {
            words.note(Stop::Wrong(Class::SuchLine, 1));
            Answer::Done
        }
    }
}

// The line of an answer, and one for each frame that was sent since the last line, which are let go.
fn written(alloc: Global, answer: &Answer, host: &mut Host) -> Result<String, AllocError> {
    let mut text = answer.to_line(alloc)?;
    let mut number = host.wire.before();
    for frame in host.wire.sent() {
        put_sent(alloc, &mut text, number, frame.as_slice())?;
        number = number.saturating_add(1);
    }
    host.wire.let_go();
    Ok(text)
}
