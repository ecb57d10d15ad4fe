//! Areas of options, read in place.
ghost use Rattle.std.specs.Prelude.{◌≡◌, ◌↔◌, ℕ, ◌<◌, ◌≤◌, IsTrue, IsOk, IfOk, List, length};
ghost use Rattle.wire_dhcp.specs.Options.{last_of, options_in, is_area, are_options, seen};

use crate::field;
use wire_address::Error;

/// Whether bytes are whole options one after the other, with no pad and no end.
#[tactic(auto, using(crate::proofs::Areas::whole_steps))]
pub(crate) fn are_options(bytes: &[u8]) -> bool
    ensures { result ≡ are_options 0 bytes.now }
{
    let mut rest = bytes;
    'options: loop {
        let Some((code, following)) = rest.split_first() else {
            return true;
        };
        if *code == field::OPT_END || *code == field::OPT_PAD {
            return false;
        }
        let Some((length, inner)) = following.split_first() else {
            return false;
        };
        let length = *length as usize;
        if length > inner.len() {
            return false;
        }
        let (_inside, after) = inner.split_at(length);
        rest = after;
    }
}

/// What is inside the last option of a code in an area, or else what was found elsewhere. Refuses
/// an area with an option that is cut.
#[tactic(auto, using(crate::proofs::Areas::area_steps))]
pub(crate) fn last_option<'a>(
    elsewhere: Option<&'a [u8]>,
    area: &'a [u8],
    kind: u8,
) -> Result<Option<&'a [u8]>, Error>
    ensures whole { IsOk result ↔ IsTrue (is_area 0 area.now) }
    ensures found { IfOk result (λ found. seen found
        ≡ last_of kind (seen elsewhere.entry) (options_in 0 area.now)) }
{
    let mut found = elsewhere;
    let mut rest = area;
    'options: loop {
        let Some((code, following)) = rest.split_first() else {
            return Ok(found);
        };
        if *code == field::OPT_END {
            return Ok(found);
        }
        if *code == field::OPT_PAD {
            rest = following;
            continue;
        }
        let Some((length, inner)) = following.split_first() else {
            return Err(Error);
        };
        let length = *length as usize;
        if length > inner.len() {
            return Err(Error);
        }
        let (inside, after) = inner.split_at(length);
        if *code == kind {
            found = Some(inside);
        }
        rest = after;
    }
}
