//! The fragment header of IPv6, where it is written. `app_decode` reads and writes it as data.
use crate::cases::all;
use ip_wire::Ipv6FragmentHeaderMut;

#[test]
fn fragment_header_is_set(rt: HostRuntime) {
    let mut out = [0x01, 0x29, 0x12, 0x34, 0x56, 0x78, 0xa5];
    let mut header = Ipv6FragmentHeaderMut::new_checked(&mut out).expect(&rt, "whole");
    header.set_frag_offset(0xffff);
    header.set_more_frags(false);
    header.set_ident(1);
    let mut full = [0xff; 6];
    Ipv6FragmentHeaderMut::new_unchecked(&mut full).clear_reserved();
    all(
        &rt,
        &[
            header.check_len().is_ok(),
            header.frag_offset() == 0x1fff,
            !header.more_frags(),
            header.ident() == 1,
            &header.into_inner()[..2] == [0xff, 0xf8].as_slice(),
            full[1] == 0xf9,
        ],
    );
}
