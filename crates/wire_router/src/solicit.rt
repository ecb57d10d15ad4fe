//! Router solicitations.
ghost use Rattle.std.specs.Prelude.{◌≡◌, length};
ghost use Rattle.wire_router.specs.Solicit.{solicitation};

use wire_address::EthernetAddress;

/// A router solicitation with the link address of its sender (RFC 4861, section 4.1), with 0 for its checksum.
pub fn emit_router_solicit(lladdr: &EthernetAddress) -> [u8; 16]
    ensures { result ≡ solicitation lladdr.now }
{
    let mut message = [0; 16];
    let (front, address) = message.split_at_mut(10);
    front.copy_from_slice(&[133, 0, 0, 0, 0, 0, 0, 0, 1, 1]);
    address.copy_from_slice(&lladdr.0);
    message
}
