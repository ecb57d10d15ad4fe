//! Bytes to write a packet into.
ghost use Rattle.std.specs.Prelude.{◌≡◌, length, IfSome};

use net_base::ChecksumCapabilities;
use std::alloc::Global;

/// The most bytes that a packet carries here.
pub(crate) const MOST: usize = 0xffff;

/// So many bytes, if there is memory for them, none of which is zero, so that one which isn't written shows.
pub(crate) fn room(alloc: Global, len: usize) -> Option<Vec<u8>>
    ensures { IfSome result (λ bytes. length bytes.items ≡ len) }
{
    vec![in alloc; 0xa5; len].ok()
}

/// All checksums are written, or none is.
pub(crate) fn checksums(are_written: bool) -> ChecksumCapabilities {
    if are_written {
        ChecksumCapabilities::default()
    } else {
        ChecksumCapabilities::ignored()
    }
}
