//! The header of a frame as a value.
ghost use Rattle.std.specs.Prelude.{◌≡◌, ◌+◌, ◌<◌, ◌≤◌, IfOk, ◌++◌, length, drop};
ghost use Rattle.std.specs.Int.{w16, to_be_bytes};
ghost use Rattle.ip_wire.specs.Ethernet.{IsEthernet, bytes_of, bytes_in, name_of, written};
ghost use Rattle.ip_wire.specs.declared.ethernet.repr.EthernetRepr.{EthernetRepr};

use super::field;
use super::packet::EthernetFrame;
use super::packet_mut::EthernetFrameMut;
use wire_address::{Error, EthernetAddress, EthernetProtocol};

/// The header of a frame.
#[derive(Clone, Copy, Debug, PartialEq, Eq)]
pub struct EthernetRepr {
    pub src_addr: EthernetAddress,
    pub dst_addr: EthernetAddress,
    pub ethertype: EthernetProtocol,
}

impl EthernetRepr {
    /// The header of the frame in the bytes.
    pub fn parse(frame: &EthernetFrame) -> Result<EthernetRepr, Error>
        ensures found { IfOk result (λ v. IsEthernet (bytes_of frame.now) v) }
        ensures only { (v : EthernetRepr) → IsEthernet (bytes_of frame.now) v → result ≡ Ok v }
    {
        frame.check_len()?;
        Ok(EthernetRepr {
            src_addr: frame.src_addr(),
            dst_addr: frame.dst_addr(),
            ethertype: frame.ethertype(),
        })
    }

    /// The length of the header.
    pub const fn buffer_len(&self) -> usize
        ensures { result ≡ 14 }
    {
        field::HEADER_LEN
    }

    /// Writes the header, of 14 bytes, and leaves what lies after it.
    pub fn emit(&self, frame: &mut EthernetFrameMut)
        requires { 14 ≤ length (bytes_in frame.old) }
        ensures same_reference { name_of frame.new ≡ name_of frame.old }
        ensures bytes { bytes_in frame.new ≡ written self.now ++ drop 14 (bytes_in frame.old) }
        ensures exact { length (bytes_in frame.old) ≡ 14 → bytes_in frame.new ≡ written self.now }
    {
        put_header(
            frame.buffer,
            &self.dst_addr.0,
            &self.src_addr.0,
            self.ethertype.into(),
        );
    }
}

/// Writes a header of 14 bytes at the front.
fn put_header(bytes: &mut [u8], destination: &[u8; 6], source: &[u8; 6], ethertype: u16)
    requires { 14 ≤ length bytes.old }
    ensures front { bytes.new
        ≡ (destination.now ++ (source.now ++ to_be_bytes w16 ethertype)) ++ drop 14 bytes.old }
    ensures exact { length bytes.old ≡ 14
        → bytes.new ≡ destination.now ++ (source.now ++ to_be_bytes w16 ethertype) }
{
    let (front, rest) = bytes.split_at_mut(6);
    front.copy_from_slice(destination);
    let (middle, rest) = rest.split_at_mut(6);
    middle.copy_from_slice(source);
    let (last, _rest) = rest.split_at_mut(2);
    last.copy_from_slice(&ethertype.to_be_bytes());
}
