//! Why a line isn't taken.
use crate::refusal_text::Refusal;
use std::alloc::{AllocError, Global};
use std::str;

/// How much of a word is shown, in characters.
const MOST_SHOWN: usize = 40;

/// What a word is to be.
#[derive(Clone, Copy)]
pub enum Class {
    Line,
    /// One that there is.
    SuchLine,
    Host,
    Number,
    Medium,
    HardwareAddress,
    Key,
    Kind,
    Version,
    Protocol,
    NeighborQuery,
    Setting,
    Switch,
    Control,
    HopLimit,
    Identifier,
    Port,
    Listened,
    KindOfEndpoint,
    Endpoint,
    Address,
    Cidr,
    Bytes,
    Budget,
}

impl Class {
    fn text(self) -> &'static str {
        match self {
            Class::Line => "line",
            Class::SuchLine => "such line",
            Class::Host => "host",
            Class::Number => "number",
            Class::Medium => "medium",
            Class::HardwareAddress => "hardware address",
            Class::Key => "key",
            Class::Kind => "kind of socket",
            Class::Version => "version of IP",
            Class::Protocol => "protocol",
            Class::NeighborQuery => "question",
            Class::Setting => "setting",
            Class::Switch => "on or off",
            Class::Control => "congestion control",
            Class::HopLimit => "hop limit",
            Class::Identifier => "identifier",
            Class::Port => "port",
            Class::Listened => "port or endpoint",
            Class::KindOfEndpoint => "kind of endpoint",
            Class::Endpoint => "endpoint",
            Class::Address => "address",
            Class::Cidr => "block",
            Class::Bytes => "bytes",
            Class::Budget => "budget",
        }
    }
}

/// Where a line or a word has to stand.
#[derive(Clone, Copy)]
pub enum Order {
    WorldFirst,
    StartFirst,
    BeforeStart,
    TooMany,
}

impl Order {
    fn text(self) -> &'static str {
        match self {
            Order::WorldFirst => "`world` comes first",
            Order::StartFirst => "`start` comes first",
            Order::BeforeStart => "it stands before the host runs",
            Order::TooMany => "a word too many",
        }
    }
}

/// Why a line ended its script. A word is named by its number, from 1.
#[derive(Clone, Copy)]
pub enum Stop {
    /// The line ends with a carriage return.
    CarriageReturn,
    /// It ends where a word of this class is wanted.
    Missing(Class),
    /// This word is none of this class.
    Wrong(Class, usize),
    /// This word, or a line that begins with it, doesn't stand here.
    Misplaced(Order, usize),
    /// What the line says isn't done.
    Refused(Refusal),
}

impl Stop {
    /// What is written of it after the line's number, of this line.
    pub fn to_text(self, alloc: Global, line: &[u8]) -> Result<String, AllocError> {
        match self {
            Stop::CarriageReturn => {
                String::from_str(alloc, "bad event: a carriage return ends the line")
            }
            Stop::Missing(class) => {
                format!(in alloc; "bad event: no {}: the line ends", class.text())
            }
            Stop::Wrong(class, number) => text_of(alloc, "no ", class.text(), line, number),
            Stop::Misplaced(order, number) => text_of(alloc, "", order.text(), line, number),
            Stop::Refused(refusal) => format!(in alloc; "refused {}", refusal.text()),
        }
    }
}

/// What is written of a word of a line.
fn text_of(
    alloc: Global,
    said: &str,
    what: &str,
    line: &[u8],
    number: usize,
) -> Result<String, AllocError> {
    let word = shown(alloc, word_at(str::from_utf8(line).unwrap_or(""), number))?;
    format!(in alloc; "bad event: {said}{what}: {word}")
}

/// The word of a line that has this number.
fn word_at(line: &str, number: usize) -> &str {
    let mut rest = line;
    for _ in 1..number {
        rest = match rest.split_once(' ') {
            Some((_, rest)) => rest,
            None => "",
        };
    }
    match rest.split_once(' ') {
        Some((word, _)) => word,
        None => rest,
    }
}

/// A word as it is shown: its first characters, each that can't be printed as `?`. No characters are `""`.
fn shown(alloc: Global, word: &str) -> Result<String, AllocError> {
    let mut text = String::new(alloc);
    for c in word.chars().take(MOST_SHOWN) {
        text.push(if c.is_ascii_graphic() { c } else { '?' })?;
    }
    text.push_str(end_of(word))?;
    Ok(text)
}

// What stands after the characters that are shown of a word.
fn end_of(word: &str) -> &'static str {
    if word.is_empty() {
        "\"\""
    } else if MOST_SHOWN < word.len() {
        ".."
    } else {
        ""
    }
}
