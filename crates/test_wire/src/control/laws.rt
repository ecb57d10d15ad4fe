//! The laws of control messages, as a user of `control_wire` calls them.
use control_wire::{icmpv4_laws, icmpv6_laws};

#[test]
fn of_control_messages(_rt: HostRuntime) {
    icmpv4_laws::icmpv4_fields();
    icmpv4_laws::icmpv4_equated();
    icmpv4_laws::icmpv4_spelled();
    icmpv4_laws::icmpv4_fits();
    icmpv4_laws::icmpv4_no_longer();
    icmpv4_laws::icmpv4_reads_back();
    icmpv4_laws::icmpv4_normal();
    icmpv6_laws::icmpv6_fields();
    icmpv6_laws::icmpv6_equated();
    icmpv6_laws::icmpv6_spelled();
    icmpv6_laws::icmpv6_no_longer();
    icmpv6_laws::icmpv6_fits();
    icmpv6_laws::icmpv6_reads_back();
    icmpv6_laws::icmpv6_normal();
    icmpv6_laws::ndisc_flags();
    icmpv6_laws::ndisc_spelled();
    icmpv6_laws::ndisc_reads_back();
    icmpv6_laws::ndisc_no_longer();
    icmpv6_laws::ndisc_normal();
}
