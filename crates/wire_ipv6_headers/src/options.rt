//! Options of a hop-by-hop or a destination options header (RFC 8200, section 4.2).
ghost use Rattle.std.specs.Prelude.{◌≡◌, ◌+◌, ◌<◌, ◌^◌, length};
ghost use Rattle.wire_ipv6_headers.specs.Options.{is_skipped, front_of, asked_by, SkipsWithin, AsksWithin};

/// The option of one byte, which has no length.
const PAD1: u8 = 0;

/// What options ask of a host that knows none but those that pad.
#[derive(Clone, Copy, Debug, PartialEq, Eq)]
pub enum Options {
    /// Each may be skipped.
    Skipped,
    /// The last one runs past its header.
    Broken,
    /// An option of this type, at this offset, may not be skipped.
    Unknown { kind: u8, at: usize },
}

/// What stands first among options.
#[derive(Clone, Copy, Debug, PartialEq, Eq)]
pub(crate) enum First {
    /// No option is left.
    End,
    /// An option that runs past its header.
    Broken,
    /// An option of so many bytes that may be skipped.
    Skip(usize),
    /// An option of this type that may not be skipped.
    Unknown(u8),
}

/// What the options in these bytes ask of a host. `at` is the place of the first byte.
pub fn asked_by(bytes: &[u8], at: usize) -> Options
    requires { at + length bytes.now < 2 ^ 32 }
    ensures value { result ≡ asked_by at bytes.now }
    ensures within { AsksWithin (at + length bytes.now) result }
{
    let mut rest = bytes;
    let mut offset = at;
    for _count in 0..bytes.len() {
        match front_of(rest) {
            First::End => return Options::Skipped,
            First::Broken => return Options::Broken,
            First::Unknown(kind) => return Options::Unknown { kind, at: offset },
            First::Skip(len) => {
                let (_option, following) = rest.split_at(len);
                rest = following;
                offset += len;
            }
        }
    }
    Options::Skipped
}

/// What stands first among options.
fn front_of(bytes: &[u8]) -> First
    ensures value { result ≡ front_of bytes.now }
    ensures within { SkipsWithin (length bytes.now) result }
{
    let [kind, following @ ..] = bytes else {
        return First::End;
    };
    if *kind == PAD1 {
        return First::Skip(1);
    }
    let [len, data @ ..] = following else {
        return First::Broken;
    };
    if data.len() < *len as usize {
        return First::Broken;
    }
    if is_skipped(*kind) {
        First::Skip(2 + *len as usize)
    } else {
        First::Unknown(*kind)
    }
}

/// Whether a host that doesn't know an option's type skips it: its two highest bits are 00.
fn is_skipped(kind: u8) -> bool
    ensures { result ≡ is_skipped kind }
{
    kind < 64
}
