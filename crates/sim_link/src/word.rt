//! A word of a frame, exchanged.
ghost use Rattle.std.specs.Prelude.{◌≡◌, ◌+◌, ◌≤◌, ◌^◌, ◌<◌, length};
ghost use Rattle.sim_link.specs.Parts.{damaged};

use crate::part::Part;
use wire_address::network_order::write_u16;

/// Exchanges the word at a place of a part of a frame, as noise on the link may.
pub fn damage(frame: &mut [u8], part: Part, offset: usize, word: u16)
    requires word { offset + 2 ≤ part.len }
    requires within { part.at + part.len ≤ length frame.old }
    ensures { frame.new ≡ damaged frame.old part offset word }
{
    write_u16(frame, part.at + offset, word)
}
