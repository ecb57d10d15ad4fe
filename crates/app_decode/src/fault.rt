//! Why a line isn't taken, and which word it is.
use std::alloc::AllocError;
use std::fmt;

/// Why a line isn't taken: what is said of it, and the word that it is about, if there is one.
#[derive(Clone, Copy)]
pub(crate) struct Fault<'a> {
    said: &'static str,
    what: &'static str,
    word: Option<&'a str>,
}

/// The line ends with a carriage return.
pub(crate) const CARRIAGE_RETURN: Fault<'static> = Fault {
    said: "a carriage return at the line's end",
    what: "",
    word: None,
};
/// The packet has more bytes than its length field counts.
pub(crate) const TOO_LONG: Fault<'static> = Fault {
    said: "more bytes than the length field counts",
    what: "",
    word: None,
};
/// The two addresses aren't of one family.
pub(crate) const FAMILIES: Fault<'static> = Fault {
    said: "addresses of two families",
    what: "",
    word: None,
};

pub(crate) const NO_MEMORY: Fault<'static> = Fault {
    said: "no memory",
    what: "",
    word: None,
};

impl<'a> Fault<'a> {
    /// The line ends before this word.
    pub(crate) fn missing(what: &'static str) -> Fault<'a> {
        Fault {
            said: "no word for ",
            what,
            word: None,
        }
    }

    /// The word is not what stands at its offset.
    pub(crate) fn no(what: &'static str, word: &'a str) -> Fault<'a> {
        Fault {
            said: "no ",
            what,
            word: Some(word),
        }
    }

    /// A word after the last one.
    pub(crate) fn extra(word: &'a str) -> Fault<'a> {
        Fault {
            said: "a word too many",
            what: "",
            word: Some(word),
        }
    }
}

/// Why an answer wasn't written, if it wasn't.
pub(crate) fn done(written: Result<(), AllocError>) -> Option<Fault<'static>> {
    match written {
        Ok(()) => None,
        Err(_) => Some(NO_MEMORY),
    }
}

impl<'a> fmt::Display for Fault<'a> {
    fn fmt<W: fmt::Write>(&self, f: &mut fmt::Formatter<W>) -> fmt::Result {
        match self.word {
            Some(word) => write!(f, "{}{}: {}", self.said, self.what, Shown(word)),
            None => write!(f, "{}{}", self.said, self.what),
        }
    }
}

/// How many bytes of a word are shown.
const SHOWN: usize = 40;

/// A word as a message shows it: its first bytes, and those that aren't printed as `\x00`.
#[derive(Drop)]
struct Shown<'a>(&'a str);

impl<'a> fmt::Display for Shown<'a> {
    fn fmt<W: fmt::Write>(&self, f: &mut fmt::Formatter<W>) -> fmt::Result {
        for byte in self.0.as_bytes().iter().take(SHOWN) {
            write!(f, "{}", ShownByte(*byte))?;
        }
        write!(f, "{}", if self.0.len() > SHOWN { ".." } else { "" })
    }
}

#[derive(Drop)]
struct ShownByte(u8);

impl fmt::Display for ShownByte {
    fn fmt<W: fmt::Write>(&self, f: &mut fmt::Formatter<W>) -> fmt::Result {
        if self.0.is_ascii_graphic() {
            write!(f, "{}", char::from(self.0))
        } else {
            write!(f, "\\x{:02x}", self.0)
        }
    }
}
