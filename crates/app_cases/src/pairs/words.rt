//! The words of a line.
use crate::pairs::bad::Bad;
use ip_wire::{IpAddress, IpEndpoint, Ipv4Address};
use net_base::{Duration, Instant};
use std::str::FromStr;
use tcp_pair::Side;

/// What is left of the words of a text, which one blank each keeps apart, and what the line lacks first. After that each word is read as
/// something that nobody looks at. So what reads a line goes straight on.
#[derive(Drop)]
pub struct Words<'a> {
    rest: Option<&'a str>,
    /// How many words were taken.
    taken: usize,
    bad: Option<Bad>,
}

impl<'a> Words<'a> {
    pub fn new(text: &'a str) -> Words<'a> {
        Words {
            rest: Some(text),
            taken: 0,
            bad: None,
        }
    }

    /// The next word: empty where none is left.
    pub fn word(&mut self) -> &'a str {
        self.taken = self.taken.saturating_add(1);
        let Some(rest) = self.rest else {
            return "";
        };
        match rest.split_once(' ') {
            Some((word, rest)) => {
                self.rest = Some(rest);
                word
            }
            None => {
                self.rest = None;
                rest
            }
        }
    }

    /// The word that was taken last lacks this. What a line lacks first counts.
    pub fn lacks(&mut self, lack: &'static str) {
        if self.bad.is_none() {
            self.bad = Some(Bad::new(lack, self.taken));
        }
    }

    /// No word is left: what the line lacks, if anything.
    pub fn end(&mut self) -> Option<Bad> {
        if self.rest.is_some() {
            let _ = self.word();
            self.lacks("end");
        }
        self.bad
    }

    /// This word.
    pub fn exactly(&mut self, wanted: &'static str) {
        if self.word() != wanted {
            self.lacks(wanted);
        }
    }

    // What was found in the word that was taken last, or else another value.
    fn found<T: Copy>(&mut self, lack: &'static str, found: Option<T>, other: T) -> T {
        match found {
            Some(value) => value,
            None => {
                self.lacks(lack);
                other
            }
        }
    }

    pub fn side(&mut self) -> Side {
        match self.word() {
            "A" => Side::A,
            "B" => Side::B,
            _ => {
                self.lacks("side");
                Side::A
            }
        }
    }

    pub fn size(&mut self) -> usize {
        let size = number(self.word());
        self.found("number", size, 0)
    }

    pub fn port(&mut self) -> u16 {
        let port = number(self.word());
        self.found("port", port, 0)
    }

    /// An instant in microseconds, also one before 0.
    pub fn instant(&mut self) -> Instant {
        let micros = micros(self.word());
        Instant::from_micros(self.found("moment", micros, 0))
    }

    pub fn endpoint(&mut self) -> IpEndpoint {
        let endpoint = self.word().parse::<IpEndpoint>().ok();
        let none = IpEndpoint::new(IpAddress::Ipv4(Ipv4Address::UNSPECIFIED), 0);
        self.found("endpoint", endpoint, none)
    }

    /// A duration in microseconds, or none.
    pub fn duration(&mut self) -> Option<Duration> {
        let micros = match self.word() {
            "none" => return None,
            word => number(word),
        };
        Some(Duration::from_micros(self.found("duration", micros, 0)))
    }

    /// A duration in microseconds.
    pub fn span(&mut self) -> Duration {
        let span = self.duration();
        self.found("duration", span, Duration::ZERO)
    }

    /// A number of this type, or none.
    pub fn number_or_none<T: FromStr + Copy>(&mut self) -> Option<T>
    where
        T::Err: Drop,
    {
        let found = match self.word() {
            "none" => return None,
            word => number(word),
        };
        if found.is_none() {
            self.lacks("number");
        }
        found
    }

    /// One of two words: whether it is the first, which a line lacks that has neither.
    pub fn either(&mut self, yes: &'static str, no: &'static str) -> bool {
        let word = self.word();
        let is_first = word == yes;
        if !is_first && word != no {
            self.lacks(yes);
        }
        is_first
    }
}

/// The number that a word of digits alone says, where it has that type.
fn number<T: FromStr>(word: &str) -> Option<T>
where
    T::Err: Drop,
{
    if is_digits(word) {
        word.parse().ok()
    } else {
        None
    }
}

/// A word of digits alone.
fn is_digits(word: &str) -> bool {
    word.bytes().all(|byte| byte.is_ascii_digit())
}

fn micros(word: &str) -> Option<i64> {
    let digits = word.strip_prefix('-').unwrap_or(word);
    if is_digits(digits) {
        word.parse().ok()
    } else {
        None
    }
}
