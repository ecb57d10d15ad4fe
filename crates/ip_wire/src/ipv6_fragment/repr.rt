//! A header as a value.
ghost use Rattle.std.specs.Prelude.{◌≡◌, ◌+◌, ◌/◌, ◌<◌, ◌≤◌, IfOk, ◌++◌, length, drop};
ghost use Rattle.std.specs.Int.{w16, w32, to_be_bytes};
ghost use Rattle.ip_wire.specs.Fragment.{IsFragment, bytes_of, bytes_in, name_of, written};
ghost use Rattle.ip_wire.specs.declared.ipv6_fragment.repr.Ipv6FragmentRepr.{Ipv6FragmentRepr};

use super::field;
use super::packet::Ipv6FragmentHeader;
use super::packet_mut::Ipv6FragmentHeaderMut;
use wire_address::Error;

/// The place of a fragment in its datagram.
#[derive(Clone, Copy, Debug, PartialEq, Eq)]
pub struct Ipv6FragmentRepr {
    /// In units of eight bytes, of 13 bits.
    pub frag_offset: u16,
    pub more_frags: bool,
    pub ident: u32,
}

impl Ipv6FragmentRepr {
    /// The offset that the header in the bytes gives.
    pub fn parse(header: &Ipv6FragmentHeader) -> Result<Ipv6FragmentRepr, Error>
        ensures found { IfOk result (λ v. IsFragment (bytes_of header.now) v) }
        ensures only { (v : Ipv6FragmentRepr) → IsFragment (bytes_of header.now) v → result ≡ Ok v }
    {
        header.check_len()?;
        Ok(Ipv6FragmentRepr {
            frag_offset: header.frag_offset(),
            more_frags: header.more_frags(),
            ident: header.ident(),
        })
    }

    /// The length of the header.
    pub const fn buffer_len(&self) -> usize
        ensures { result ≡ 6 }
    {
        field::HEADER_LEN
    }

    /// Writes the header, of 6 bytes, and leaves what lies after it.
    pub fn emit(&self, header: &mut Ipv6FragmentHeaderMut)
        requires { 6 ≤ length (bytes_in header.old) }
        ensures same_reference { name_of header.new ≡ name_of header.old }
        ensures bytes { bytes_in header.new ≡ written self.now ++ drop 6 (bytes_in header.old) }
        ensures exact { length (bytes_in header.old) ≡ 6 → bytes_in header.new ≡ written self.now }
    {
        let first = ((self.frag_offset & 0x1fff) << 3) + (self.more_frags as u16);
        put_header(header.buffer, first, self.ident);
    }
}

/// Writes a header of 6 bytes at the front.
fn put_header(bytes: &mut [u8], first: u16, ident: u32)
    requires { 6 ≤ length bytes.old }
    ensures front { bytes.new
        ≡ (to_be_bytes w16 first ++ to_be_bytes w32 ident) ++ drop 6 bytes.old }
    ensures exact { length bytes.old ≡ 6
        → bytes.new ≡ to_be_bytes w16 first ++ to_be_bytes w32 ident }
{
    let [high, low] = first.to_be_bytes();
    let [i0, i1, i2, i3] = ident.to_be_bytes();
    let (front, _rest) = bytes.split_at_mut(field::HEADER_LEN);
    front.copy_from_slice(&[high, low, i0, i1, i2, i3]);
}
