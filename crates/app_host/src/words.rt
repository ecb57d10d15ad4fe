//! The words of a line, and the classes that they come in.
ghost use Rattle.std.specs.Prelude.{◌≢◌, Some};

use crate::answer::Answer;
use crate::refusal_text::Refusal;
use crate::stop::{Class, Order, Stop};
use arrayvec::ArrayVec;
use interface::TABLE_ROOM;
use ip_wire::{IpAddress, IpCidr, IpEndpoint};
use sim_link::HexBytes;
use std::alloc::{AllocError, Global};
use std::str::FromStr;

/// How many bytes a word may say by a count after it.
const MOST_REPEATED: usize = 1 << 20;

/// What is left of the words of a line, where each two have one blank between them, and why the line isn't taken, if a word before them
/// says so. After that each word is read as something that nobody looks at, and so is the line's answer. So what reads a line goes straight
/// on, and asks `is_taken` before it does anything.
#[derive(Drop)]
pub struct Words<'a> {
    rest: Option<&'a str>,
    /// How many words were read.
    count: usize,
    stop: Option<Stop>,
}

/// The text of bytes, and how often they come.
#[derive(Drop)]
struct Bytes<'a> {
    once: HexBytes<'a>,
    times: usize,
}

impl<'a> Bytes<'a> {
    // The bytes in memory of their own.
    fn decode(&self, alloc: Global) -> Result<Vec<u8>, AllocError> {
        let once = self.once.decode(alloc)?;
        if self.times == 1 {
            return Ok(once);
        }
        let mut all = Vec::new(alloc);
        for _ in 0..self.times {
            all.extend_from_slice(once.as_slice())?;
        }
        Ok(all)
    }
}

impl<'a> Words<'a> {
    /// The words of a text.
    pub fn new(text: &'a str) -> Words<'a> {
        Words {
            rest: Some(text),
            count: 0,
            stop: None,
        }
    }

    /// The line isn't taken. What says so first counts.
    pub fn note(&mut self, stop: Stop) {
        if self.stop.is_none() {
            self.stop = Some(stop);
        }
    }

    /// The word that was read last is none of this class.
    pub fn wrong(&mut self, class: Class) {
        self.note(Stop::Wrong(class, self.count));
    }

    /// How many words were read.
    pub fn count(&self) -> usize {
        self.count
    }

    /// What the line says isn't done: an answer that nobody looks at.
    pub fn refuse(&mut self, refusal: Refusal) -> Answer {
        self.note(Stop::Refused(refusal));
        Answer::Done
    }

    /// Whether the line is taken as far as it was read.
    pub fn is_taken(&self) -> bool {
        self.stop.is_none()
    }

    /// Why the line isn't taken. Where no word and no refusal says so, there was no memory for its answer.
    pub fn stop(&self) -> Stop {
        match self.stop {
            Some(stop) => stop,
            None => Stop::Refused(Refusal::Memory),
        }
    }

    /// No word is left.
    pub fn end(&mut self) {
        if self.next().is_some() {
            self.note(Stop::Misplaced(Order::TooMany, self.count));
        }
    }

    /// The next word, if there is one left.
    pub fn next(&mut self) -> Option<&'a str> {
        let rest = self.rest?;
        self.count = self.count.saturating_add(1);
        match rest.split_once(' ') {
            Some((word, rest)) => {
                self.rest = Some(rest);
                Some(word)
            }
            None => {
                self.rest = None;
                Some(rest)
            }
        }
    }

    /// The next word, where one of this class is wanted.
    pub fn word(&mut self, class: Class) -> &'a str {
        match self.next() {
            Some(word) => word,
            None => {
                self.note(Stop::Missing(class));
                ""
            }
        }
    }

    // What was found in the word that was read last, of this class, or else another value.
    fn found<T: Copy>(&mut self, class: Class, found: Option<T>, other: T) -> T {
        match found {
            Some(value) => value,
            None => {
                self.wrong(class);
                other
            }
        }
    }

    /// The host, which is A.
    pub fn host(&mut self) {
        match self.word(Class::Host) {
            "A" => {}
            _ => self.wrong(Class::Host),
        }
    }

    // What a word of this class says, where it is a number of this type.
    fn digits<T: FromStr + Copy>(&mut self, class: Class, other: T) -> T
    where
        T::Err: Drop,
    {
        let found = number(self.word(class));
        self.found(class, found, other)
    }

    // What a word of this class says.
    fn parsed<T: FromStr + Copy>(&mut self, class: Class, other: T) -> T
    where
        T::Err: Drop,
    {
        let found = self.word(class).parse().ok();
        self.found(class, found, other)
    }

    /// A count or a value.
    pub fn number(&mut self) -> u64 {
        self.digits(Class::Number, 0)
    }

    /// A slot or a size.
    pub fn size(&mut self) -> usize {
        self.digits(Class::Number, 0)
    }

    /// A port, an identifier or a budget.
    pub fn short(&mut self, class: Class) -> u16 {
        self.digits(class, 0)
    }

    /// An instant, in microseconds.
    pub fn micros(&mut self) -> i64 {
        self.digits(Class::Number, 0)
    }

    /// An instant, which may lie before 0.
    pub fn signed_micros(&mut self) -> i64 {
        let found = signed_micros(self.word(Class::Number));
        self.found(Class::Number, found, 0)
    }

    /// An instant, or none.
    pub fn until(&mut self) -> Option<i64> {
        self.unless_none()
    }

    /// How many microseconds something takes, or none.
    pub fn span(&mut self) -> Option<u64> {
        self.unless_none()
    }

    /// A number of this type, or none.
    pub fn unless_none<T: FromStr + Copy>(&mut self) -> Option<T>
    where
        T::Err: Drop,
    {
        let found = match self.word(Class::Number) {
            "none" => return None,
            word => number(word),
        };
        if found.is_none() {
            self.wrong(Class::Number);
        }
        found
    }

    /// A hop limit, or none.
    pub fn hop_limit(&mut self) -> Option<u8>
        ensures { result ≢ Some 0 }
    {
        let found = match self.word(Class::HopLimit) {
            "none" => return None,
            word => number(word),
        };
        match found {
            None | Some(0) => {
                self.wrong(Class::HopLimit);
                None
            }
            Some(hop_limit) => Some(hop_limit),
        }
    }

    /// `on` or `off`.
    pub fn switch(&mut self) -> bool {
        match self.word(Class::Switch) {
            "on" => true,
            "off" => false,
            _ => {
                self.wrong(Class::Switch);
                false
            }
        }
    }

    /// `on` or `off`, as the last word.
    pub fn last_switch(&mut self) -> bool {
        let is_on = self.switch();
        self.end();
        is_on
    }

    /// An address and a port.
    pub fn endpoint(&mut self) -> IpEndpoint {
        let none = IpEndpoint::new(IpAddress::v4(0, 0, 0, 0), 0);
        self.parsed(Class::Endpoint, none)
    }

    /// An address of either family.
    pub fn address(&mut self) -> IpAddress {
        self.parsed(Class::Address, IpAddress::v4(0, 0, 0, 0))
    }

    /// An address with a prefix.
    pub fn cidr(&mut self) -> IpCidr {
        self.parsed(Class::Cidr, IpCidr::default())
    }

    /// All words that are left, as at most four blocks.
    pub fn blocks(&mut self) -> ArrayVec<IpCidr, TABLE_ROOM> {
        let mut found = ArrayVec::new();
        for _ in 0..TABLE_ROOM {
            let Some(word) = self.next() else {
                break;
            };
            match word.parse::<IpCidr>() {
                Ok(cidr) => {
                    let _ = found.try_push(cidr);
                }
                Err(_) => self.wrong(Class::Cidr),
            }
        }
        self.end();
        found
    }

    /// The last word, which says bytes in hex, which a count after `*` may repeat: these bytes.
    pub fn last_bytes(&mut self, alloc: Global) -> Vec<u8> {
        let bytes = read_bytes(self.word(Class::Bytes));
        if bytes.is_none() {
            self.wrong(Class::Bytes);
        }
        self.end();
        match self.decoded(alloc, bytes) {
            Some(bytes) => bytes,
            None => {
                self.note(Stop::Refused(Refusal::Memory));
                Vec::new(alloc)
            }
        }
    }

    // The bytes of a line that is taken, if there is memory for them.
    fn decoded(&self, alloc: Global, bytes: Option<Bytes<'_>>) -> Option<Vec<u8>> {
        if self.is_taken() {
            bytes?.decode(alloc).ok()
        } else {
            None
        }
    }
}

fn read_bytes<'a>(word: &'a str) -> Option<Bytes<'a>> {
    match word.split_once('*') {
        None => Some(Bytes {
            once: HexBytes::from_text(word)?,
            times: 1,
        }),
        Some((once, count)) => {
            let times = number(count)?;
            let len = once.len().checked_mul(times)?;
            if len <= 2 * MOST_REPEATED && times <= MOST_REPEATED {
                Some(Bytes {
                    once: HexBytes::from_text(once)?,
                    times,
                })
            } else {
                None
            }
        }
    }
}

fn is_digits(word: &str) -> bool {
    word.bytes().all(|b| b.is_ascii_digit())
}

/// The number that a word of decimal digits alone says, where it has that type.
pub fn number<T: FromStr>(word: &str) -> Option<T>
where
    T::Err: Drop,
{
    if is_digits(word) {
        word.parse().ok()
    } else {
        None
    }
}

fn signed_micros(word: &str) -> Option<i64> {
    if is_digits(word.strip_prefix('-').unwrap_or(word)) {
        word.parse().ok()
    } else {
        None
    }
}
