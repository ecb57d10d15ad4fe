//! The field modules and header lengths under the names by which `ip_wire` passes them on. Their numbers stand in laws, which `laws.rt`
//! calls; what depends on lengths is a call.
use crate::cases::all;
use ip_wire::laws::{fields_are_passed_on, header_lengths};
use ip_wire::{MAX_WINDOW_SCALE, arp_field, tcp_field, udp_field};

#[test]
fn fields_stand_where_the_standards_say(rt: HostRuntime) {
    fields_are_passed_on();
    header_lengths();
    let addresses = [
        arp_field::SHA(6, 4),
        arp_field::SPA(6, 4),
        arp_field::THA(6, 4),
        arp_field::TPA(6, 4),
    ];
    let rests = [udp_field::PAYLOAD(12), tcp_field::OPTIONS(28)];
    all(
        &rt,
        &[
            addresses == [8..14, 14..18, 18..24, 24..28],
            rests == [8..12, 20..28],
            MAX_WINDOW_SCALE == 14,
        ],
    );
}
