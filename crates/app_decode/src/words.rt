//! The words of a line, one blank apart, and the classes that they come in.
use crate::fault::{Fault, NO_MEMORY};
use hex::FromHexError;
use ip_wire::{EthernetAddress, EthernetProtocol, IpAddress, IpProtocol, Ipv4Address, Ipv6Address};
use std::alloc::Global;
use std::str::FromStr;

/// The words that are left of a line, and the first fault in those before them. After a fault each word is read as something that nobody
/// looks at: `fault` says it. So what reads a line goes straight on.
#[derive(Drop)]
pub(crate) struct Words<'a> {
    rest: Option<&'a str>,
    fault: Option<Fault<'a>>,
}

impl<'a> Words<'a> {
    pub(crate) fn new(text: &'a str) -> Words<'a> {
        Words {
            rest: Some(text),
            fault: None,
        }
    }

    /// A fault at the word that was read last. The first one counts.
    pub(crate) fn note(&mut self, fault: Fault<'a>) {
        if self.fault.is_none() {
            self.fault = Some(fault);
        }
    }

    /// The word that was read last isn't `what`.
    pub(crate) fn no(&mut self, what: &'static str, word: &'a str) {
        self.note(Fault::no(what, word));
    }

    // The next word, if there is one.
    fn next(&mut self) -> Option<&'a str> {
        let text = self.rest?;
        match text.split_once(' ') {
            Some((word, rest)) => {
                self.rest = Some(rest);
                Some(word)
            }
            None => {
                self.rest = None;
                Some(text)
            }
        }
    }

    /// The next word, which is `what`.
    pub(crate) fn word(&mut self, what: &'static str) -> &'a str {
        match self.next() {
            Some(word) => word,
            None => {
                self.note(Fault::missing(what));
                ""
            }
        }
    }

    /// Whether this is the end of the line, and no fault was found in it.
    pub(crate) fn end(&mut self) -> bool {
        if let Some(word) = self.next() {
            self.note(Fault::extra(word));
        }
        self.fault.is_none()
    }

    /// The first fault. Where no word has one, there was no memory.
    pub(crate) fn fault(&self) -> Fault<'a> {
        match self.fault {
            Some(fault) => fault,
            None => NO_MEMORY,
        }
    }

    /// No packet, for this fault.
    pub(crate) fn refuse(&mut self, fault: Fault<'a>) -> Option<Vec<u8>> {
        self.note(fault);
        None
    }

    // What was found in a word of this class, or else another value.
    fn found<T: Copy>(
        &mut self,
        what: &'static str,
        word: &'a str,
        found: Option<T>,
        other: T,
    ) -> T {
        match found {
            Some(value) => value,
            None => {
                self.no(what, word);
                other
            }
        }
    }

    // The number that a word of this class is.
    fn number<T: FromStr + Copy>(&mut self, what: &'static str, other: T) -> T
    where
        T::Err: Drop,
    {
        let word = self.word(what);
        self.found(what, word, number(word), other)
    }

    // What a word of this class says.
    fn parsed<T: FromStr + Copy>(&mut self, what: &'static str, other: T) -> T
    where
        T::Err: Drop,
    {
        let word = self.word(what);
        self.found(what, word, word.parse().ok(), other)
    }

    /// A number up to 255.
    pub(crate) fn byte(&mut self, what: &'static str) -> u8 {
        self.number(what, 0)
    }

    /// A number up to 65535.
    pub(crate) fn short(&mut self, what: &'static str) -> u16 {
        self.number(what, 0)
    }

    /// A number up to 2^32 - 1.
    pub(crate) fn long(&mut self, what: &'static str) -> u32 {
        self.number(what, 0)
    }

    /// One of two words: whether it is the first.
    pub(crate) fn either(&mut self, yes: &str, no: &str, what: &'static str) -> bool {
        let word = self.word(what);
        let is_first = word == yes;
        if !is_first && word != no {
            self.no(what, word);
        }
        is_first
    }

    /// An address of either family.
    pub(crate) fn address(&mut self, what: &'static str) -> IpAddress {
        self.parsed(what, IpAddress::Ipv4(Ipv4Address::UNSPECIFIED))
    }

    /// An IPv4 address.
    pub(crate) fn ipv4(&mut self, what: &'static str) -> Ipv4Address {
        self.parsed(what, Ipv4Address::UNSPECIFIED)
    }

    /// An IPv6 address.
    pub(crate) fn ipv6(&mut self, what: &'static str) -> Ipv6Address {
        self.parsed(what, Ipv6Address::UNSPECIFIED)
    }

    /// An Ethernet address.
    pub(crate) fn hardware_addr(&mut self, what: &'static str) -> EthernetAddress {
        self.parsed(what, EthernetAddress::BROADCAST)
    }

    /// The number of a protocol; with `?` before it the value that has no name.
    pub(crate) fn protocol(&mut self) -> IpProtocol {
        let word = self.word("protocol");
        let number = self.found("protocol", word, numbered(word), 0);
        if is_named(word) {
            IpProtocol::from(number)
        } else {
            IpProtocol::Unknown(number)
        }
    }

    /// What a frame carries: four hex digits; with `?` before them the value that has no name.
    pub(crate) fn ethertype(&mut self) -> EthernetProtocol {
        let word = self.word("type");
        let number = self.found("type", word, four_digits(word), 0);
        if is_named(word) {
            EthernetProtocol::from(number)
        } else {
            EthernetProtocol::Unknown(number)
        }
    }

    /// A code; with `?` before it the value that has no name: the code, and whether it has a name.
    pub(crate) fn code(&mut self) -> (u8, bool) {
        let word = self.word("code");
        let number = self.found("code", word, numbered(word), 0);
        (number, is_named(word))
    }

    /// Bytes in hex, `-` for none.
    pub(crate) fn bytes(&mut self, alloc: Global, what: &'static str) -> Vec<u8> {
        let word = self.word(what);
        match bytes_of(alloc, what, word) {
            Ok(bytes) => bytes,
            Err(fault) => {
                self.note(fault);
                Vec::new(alloc)
            }
        }
    }
}

/// The bytes that a word spells in hex, `-` for none.
pub(crate) fn bytes_of<'a>(
    alloc: Global,
    what: &'static str,
    word: &'a str,
) -> Result<Vec<u8>, Fault<'a>> {
    match word {
        "-" => return Ok(Vec::new(alloc)),
        "" => return Err(Fault::no(what, word)),
        _ => {}
    }
    match hex::decode(alloc, word) {
        Ok(bytes) => Ok(bytes),
        Err(FromHexError::OutOfMemory) => Err(NO_MEMORY),
        Err(_) => Err(Fault::no(what, word)),
    }
}

/// The number that a word of digits alone says, where it has that type.
pub(crate) fn number<T: FromStr>(word: &str) -> Option<T>
where
    T::Err: Drop,
{
    if word.bytes().all(|b| b.is_ascii_digit()) {
        word.parse().ok()
    } else {
        None
    }
}

// Whether no `?` stands before the word.
fn is_named(word: &str) -> bool {
    !word.starts_with('?')
}

// A number up to 255, with or without `?` before it.
fn numbered(word: &str) -> Option<u8> {
    number(word.strip_prefix('?').unwrap_or(word))
}

// Four hex digits, with or without `?` before them.
fn four_digits(word: &str) -> Option<u16> {
    let digits = word.strip_prefix('?').unwrap_or(word);
    if digits.len() != 4 || digits.starts_with('+') {
        return None;
    }
    u16::from_str_radix(digits, 16).ok()
}
