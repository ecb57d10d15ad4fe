//! Names as text.
ghost use Rattle.std.specs.Prelude.{◌≡◌};
ghost use Rattle.wire_dns.specs.Text.{IsLabelEnd, without_last_dot};

use thiserror::Error;

/// Why a text isn't a name.
#[derive(Clone, Copy, Debug, PartialEq, Eq, Error)]
pub enum DnsNameError {
    /// A label has no bytes, or more than 63.
    #[error("a label without bytes, or of more than 63")]
    Invalid,
    /// The name has more than 255 bytes.
    #[error("a name of more than 255 bytes")]
    TooLong,
}

/// A text without the dot at its end, if there is one.
pub(crate) fn without_last_dot(text: &[u8]) -> &[u8]
    ensures { result.now ≡ without_last_dot text.now }
{
    let len = text.len();
    if len > 0 && text[len - 1] == b'.' {
        &text[..len - 1]
    } else {
        text
    }
}

/// How many bytes come before the first dot.
pub(crate) fn label_end(text: &[u8]) -> usize
    ensures { IsLabelEnd text.now result }
{
    for i in 0..text.len() {
        if text[i] == b'.' {
            return i;
        }
    }
    text.len()
}
