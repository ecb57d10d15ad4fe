//! Frames that carry a reset of TCP.
ghost use Rattle.std.specs.Prelude.{◌≡◌, ◌≤◌, slice_index};
ghost use Rattle.app_tun_services.specs.Link.Reset.{is_reset, head_len, has_rst};

use net_base::Medium;

/// The byte at a slot, 0 past the end.
pub(crate) fn byte_at(bytes: &[u8], at: usize) -> u8
    ensures { result ≡ slice_index bytes.now at }
{
    if at < bytes.len() { bytes[at] } else { 0 }
}

/// How many bytes stand before a packet on a link.
pub(crate) fn head_len(medium: Medium) -> usize
    ensures len { result ≡ head_len medium }
    ensures small { result ≤ 14 }
{
    match medium {
        Medium::Ethernet => 14,
        Medium::Ip => 0,
    }
}

/// Whether the flags at this place of a segment's header have RST.
fn has_rst(flags: u8) -> bool
    ensures { result ≡ has_rst flags }
{
    flags / 4 % 2 == 1
}

/// Whether a frame carries a TCP segment that is a reset, as the fields of its headers say: an IPv4 packet with any options, or an IPv6
/// packet without extension headers.
pub fn is_reset(medium: Medium, frame: &[u8]) -> bool
    ensures { result ≡ is_reset medium frame.now }
{
    let at = head_len(medium);
    let first = byte_at(frame, at);
    match first / 16 {
        4 => {
            byte_at(frame, at + 9) == 6
                && has_rst(byte_at(frame, at + (first % 16) as usize * 4 + 13))
        }
        6 => byte_at(frame, at + 6) == 6 && has_rst(byte_at(frame, at + 53)),
        _ => false,
    }
}
