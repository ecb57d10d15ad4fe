//! Names, read through their compression.
ghost use Rattle.std.specs.Prelude.{◌≡◌, ◌↔◌, ℕ, ◌+◌, ◌<◌, ◌≤◌, ◌++◌, ◌∷◌, IsOk, IfOk, OnOk, List, length};
ghost use Rattle.wire_dns.specs.Name.{IsName, IsPartAt, bytes_of_name};
ghost use Rattle.wire_dns.specs.Text.{IsNameOfText};

use crate::text::{DnsNameError, label_end, without_last_dot};
use arrayvec::ArrayVec;
use wire_address::Error;
use wire_address::network_order::read_u16;

/// How long a name is at most, its lengths and its last zero included (RFC 1035, section 2.3.4).
pub const MAX_NAME_LEN: usize = 255;

/// How long a label is at most.
const MAX_LABEL_LEN: usize = 63;

/// A name without compression: labels, each after its length, and a zero.
#[derive(Clone, Debug, Drop)]
pub struct DnsName {
    bytes: ArrayVec<u8, MAX_NAME_LEN>,
}

impl DnsName {
    /// The name that stands at a place of a message, and where its own bytes end. Pointers lead
    /// back, below the place where the name begins and below every pointer before.
    pub fn parse(message: &[u8], at: usize) -> Result<(DnsName, usize), Error>
        ensures found { IfOk result (λ p. IsName message.now at (bytes_of_name p.0) p.1) }
        ensures only { (name : List ℕ) (end : ℕ) → IsName message.now at name end
            → IsOk result × IfOk result (λ p. (bytes_of_name p.0 ≡ name) × (p.1 ≡ end)) }
    {
        let mut bytes = ArrayVec::new();
        let mut end = None;
        let mut limit = at;
        let mut offset = at;
        'parts: loop {
            match part_at(message, limit, offset)? {
                Part::Root => {
                    let Ok(()) = bytes.try_push(0) else {
                        return Err(Error);
                    };
                    return Ok((DnsName { bytes }, end.unwrap_or(offset + 1)));
                }
                Part::Label(label) => {
                    push_label(&mut bytes, label)?;
                    offset += 1 + label.len();
                }
                Part::Pointer(target) => {
                    end = Some(end.unwrap_or(offset + 2));
                    limit = target;
                    offset = target;
                }
            }
        }
    }

    /// The name that a text is, with dots between its labels (RFC 1035, section 2.3.1). One dot may stand at its end.
    pub fn from_text(text: &str) -> Result<DnsName, DnsNameError>
        ensures { IsNameOfText text.now result }
    {
        let whole = without_last_dot(text.as_bytes());
        if whole.len() + 2 > MAX_NAME_LEN {
            return Err(DnsNameError::TooLong);
        }
        let mut bytes = ArrayVec::new();
        let mut rest = whole;
        'labels: loop {
            let end = label_end(rest);
            if end == 0 {
                return Err(DnsNameError::Invalid);
            }
            if end > MAX_LABEL_LEN {
                return Err(DnsNameError::Invalid);
            }
            let (label, _) = rest.split_at(end);
            let Ok(()) = push_label(&mut bytes, label) else {
                return Err(DnsNameError::TooLong);
            };
            if end == rest.len() {
                bytes.push(0);
                return Ok(DnsName { bytes });
            }
            rest = rest.split_at(end + 1).1;
        }
    }

    /// The bytes of the name: its labels, each after its length, and a zero.
    pub fn as_bytes(&self) -> &[u8]
        ensures { result.now ≡ bytes_of_name self.now }
    {
        self.bytes.as_slice()
    }
}

/// What stands at a place of a name.
#[derive(Clone, Copy)]
enum Part<'a> {
    Root,
    Label(&'a [u8]),
    Pointer(usize),
}

/// What stands at a place of a name whose pointers lead below a limit.
fn part_at<'a>(message: &'a [u8], limit: usize, at: usize) -> Result<Part<'a>, Error>
    ensures { IsPartAt message.now limit at result }
{
    if at >= message.len() {
        return Err(Error);
    }
    let following = message.len() - at - 1;
    let first = message[at] as usize;
    if first == 0 {
        Ok(Part::Root)
    } else if first < 64 {
        if first > following {
            return Err(Error);
        }
        Ok(Part::Label(&message[at + 1..at + 1 + first]))
    } else {
        if first < 192 || following == 0 {
            return Err(Error);
        }
        let offset = read_u16(message, at) as usize - 49152;
        if offset >= limit {
            return Err(Error);
        }
        Ok(Part::Pointer(offset))
    }
}

/// Appends a label after its length, where there is room.
fn push_label(bytes: &mut ArrayVec<u8, MAX_NAME_LEN>, label: &[u8]) -> Result<(), Error>
    requires { length label.now < 64 }
    ensures pushed { OnOk result (bytes.new.items ≡ bytes.old.items ++ (length label.now ∷ label.now)) }
    ensures full { IsOk result ↔ (length bytes.old.items + 1 + length label.now ≤ 255) }
{
    if bytes.len() + 1 + label.len() > MAX_NAME_LEN {
        return Err(Error);
    }
    bytes.push(label.len() as u8);
    let _ = bytes.try_extend_from_slice(label);
    Ok(())
}
