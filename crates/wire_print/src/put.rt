//! What the lines of all layers share: bytes, checksums, and a header that isn't read.
use ip_wire::Error;
use net_base::ChecksumCapabilities;
use std::alloc::{AllocError, Global};
use std::fmt::Display;

/// The text so far, and where more of it finds its memory. Where a part of it found none, no more is written, and `end` says so: so
/// what writes a text goes straight on.
#[derive(Drop)]
pub(crate) struct Out<'a> {
    alloc: Global,
    text: &'a mut String,
    is_short: bool,
}

impl<'a> Out<'a> {
    /// After this text.
    pub(crate) fn new(alloc: Global, text: &'a mut String) -> Out<'a> {
        Out {
            alloc,
            text,
            is_short: false,
        }
    }

    /// Whether there was memory for all of it.
    pub(crate) fn end(&self) -> Result<(), AllocError> {
        if self.is_short {
            Err(AllocError)
        } else {
            Ok(())
        }
    }

    /// What `write!` and `writeln!` call.
    pub(crate) fn write_fmt<D: Display + Drop>(&mut self, part: D) {
        if !self.is_short {
            self.is_short = self.text.write_fmt(part).is_err();
        }
    }

    /// A text.
    pub(crate) fn put_text(&mut self, text: &str) {
        write!(self, "{text}");
    }

    /// A text where a flag is set.
    pub(crate) fn put_where(&mut self, flag: bool, text: &str) {
        if flag {
            self.put_text(text);
        }
    }

    /// A text, and a value after it.
    pub(crate) fn put<D: Display + Copy>(&mut self, what: &str, value: D) {
        write!(self, "{what}{value}");
    }

    /// The same at the end of a line.
    pub(crate) fn put_last<D: Display + Copy>(&mut self, what: &str, value: D) {
        writeln!(self, "{what}{value}");
    }

    /// The end of a line.
    pub(crate) fn end_line(&mut self) {
        writeln!(self, "");
    }

    /// A header that is read after its layer, and whether it has a wrong checksum.
    pub(crate) fn put_header<D: Display + Copy>(&mut self, layer: &str, is_good: bool, header: D) {
        self.put_text(layer);
        self.put(if is_good { "" } else { "bad checksum, " }, header);
    }

    /// A checksum.
    pub(crate) fn put_checksum(&mut self, checksum: u16) {
        write!(self, ", checksum 0x{checksum:04x}");
    }

    /// A checksum, and whether it is right.
    pub(crate) fn put_tested(&mut self, checksum: u16, is_good: bool) {
        self.put_checksum(checksum);
        self.put(" ", good(is_good));
    }

    /// A flow label.
    pub(crate) fn put_flow(&mut self, label: u32) {
        write!(self, ", flow 0x{label:05x}");
    }

    /// A line for bytes: what they are, how many, and the bytes in hex.
    pub(crate) fn put_bytes(&mut self, what: &str, bytes: &[u8]) {
        if bytes.is_empty() {
            self.put_last(what, " 0");
            return;
        }
        match hex::encode(self.alloc, bytes) {
            Ok(digits) => self.put_digits(what, bytes.len(), digits.as_str()),
            Err(_) => self.is_short = true,
        }
    }

    fn put_digits(&mut self, what: &str, len: usize, digits: &str) {
        self.put(what, " ");
        self.put("", len);
        self.put_last(": ", digits);
    }

    /// The same, where there are any.
    pub(crate) fn put_some_bytes(&mut self, what: &str, bytes: &[u8]) {
        if !bytes.is_empty() {
            self.put_bytes(what, bytes);
        }
    }

    /// A text, and after it inside a line bytes in hex, `-` where there are none.
    pub(crate) fn put_hex(&mut self, what: &str, bytes: &[u8]) {
        if bytes.is_empty() {
            self.put(what, "-");
            return;
        }
        self.put_text(what);
        match hex::encode(self.alloc, bytes) {
            Ok(digits) => self.put_text(digits.as_str()),
            Err(_) => self.is_short = true,
        }
    }

    /// The same, where there are any.
    pub(crate) fn put_some_hex(&mut self, what: &str, bytes: &[u8]) {
        if !bytes.is_empty() {
            self.put_hex(what, bytes);
        }
    }

    /// A header that ends before its bytes, or whose lengths say more than is there.
    pub(crate) fn put_cut(&mut self, layer: &str, len: usize) {
        self.put(layer, " cut short after ");
        self.put("", len);
        self.put_text(" bytes");
    }

    /// The same in a line of its own.
    pub(crate) fn put_cut_line(&mut self, layer: &str, bytes: &[u8]) {
        self.put_cut(layer, bytes.len());
        self.end_line();
    }
}

/// How a checksum is called.
pub(crate) fn good(is_good: bool) -> &'static str {
    if is_good { "good" } else { "bad" }
}

/// What a reader makes of a packet that it tests, or, where it refuses that, of the same untested; and whether it was tested.
pub(crate) fn tested_first<T: Copy>(
    tested: Result<T, Error>,
    untested: Result<T, Error>,
) -> Option<(bool, T)> {
    match (tested, untested) {
        (Ok(header), _) => Some((true, header)),
        (Err(_), Ok(header)) => Some((false, header)),
        (Err(_), Err(_)) => None,
    }
}

/// All checksums are tested.
pub(crate) fn all() -> ChecksumCapabilities {
    ChecksumCapabilities::default()
}

/// None is.
pub(crate) fn none() -> ChecksumCapabilities {
    ChecksumCapabilities::ignored()
}
