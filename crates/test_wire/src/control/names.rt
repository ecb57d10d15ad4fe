//! What types and reasons print: the words of RFC 792, RFC 1122 and RFC 4443, and the number where there are none.
use crate::cases::all_named;
use control_wire::{
    Icmpv4DstUnreachable, Icmpv4Message, Icmpv4TimeExceeded, Icmpv6DstUnreachable, Icmpv6Message,
    Icmpv6ParamProblem, Icmpv6TimeExceeded,
};

/// Messages of ICMPv4.
static MESSAGES4: [(u8, &str); 11] = [
    (0, "echo reply"),
    (3, "destination unreachable"),
    (5, "redirect"),
    (8, "echo request"),
    (9, "router advertisement"),
    (10, "router solicitation"),
    (11, "time exceeded"),
    (12, "parameter problem"),
    (13, "timestamp"),
    (14, "timestamp reply"),
    (255, "255"),
];

/// Why a destination can't be reached by IPv4.
static UNREACHABLE4: [(u8, &str); 17] = [
    (0, "network unreachable"),
    (1, "host unreachable"),
    (2, "protocol unreachable"),
    (3, "port unreachable"),
    (4, "fragmentation needed and DF set"),
    (5, "source route failed"),
    (6, "destination network unknown"),
    (7, "destination host unknown"),
    (8, "source host isolated"),
    (9, "network administratively prohibited"),
    (10, "host administratively prohibited"),
    (11, "network unreachable for type of service"),
    (12, "host unreachable for type of service"),
    (13, "communication administratively prohibited"),
    (14, "host precedence violation"),
    (15, "precedence cutoff in effect"),
    (16, "16"),
];

/// Which time was exceeded, by IPv4.
static EXCEEDED4: [(u8, &str); 3] = [
    (0, "time to live exceeded in transit"),
    (1, "fragment reassembly time exceeded"),
    (2, "2"),
];

/// Messages of ICMPv6.
static MESSAGES6: [(u8, &str); 15] = [
    (1, "destination unreachable"),
    (2, "packet too big"),
    (3, "time exceeded"),
    (4, "parameter problem"),
    (128, "echo request"),
    (129, "echo reply"),
    (130, "multicast listener query"),
    (133, "router solicitation"),
    (134, "router advertisement"),
    (135, "neighbor solicitation"),
    (136, "neighbor advertisement"),
    (137, "redirect"),
    (143, "multicast listener report"),
    (155, "RPL control"),
    (200, "200"),
];

/// Why a destination can't be reached by IPv6.
static UNREACHABLE6: [(u8, &str); 8] = [
    (0, "no route to destination"),
    (
        1,
        "communication with destination administratively prohibited",
    ),
    (2, "beyond scope of source address"),
    (3, "address unreachable"),
    (4, "port unreachable"),
    (5, "source address failed ingress/egress policy"),
    (6, "reject route to destination"),
    (7, "7"),
];

/// Which time was exceeded, by IPv6.
static EXCEEDED6: [(u8, &str); 3] = [
    (0, "hop limit exceeded in transit"),
    (1, "fragment reassembly time exceeded"),
    (9, "9"),
];

/// What is wrong with a packet.
static PROBLEMS: [(u8, &str); 4] = [
    (0, "erroneous header field"),
    (1, "unrecognized next header type"),
    (2, "unrecognized IPv6 option"),
    (3, "3"),
];

#[test]
fn messages_and_reasons_have_names(rt: HostRuntime) {
    all_named::<Icmpv4Message>(&rt, &MESSAGES4);
    all_named::<Icmpv4DstUnreachable>(&rt, &UNREACHABLE4);
    all_named::<Icmpv4TimeExceeded>(&rt, &EXCEEDED4);
    all_named::<Icmpv6Message>(&rt, &MESSAGES6);
    all_named::<Icmpv6DstUnreachable>(&rt, &UNREACHABLE6);
    all_named::<Icmpv6TimeExceeded>(&rt, &EXCEEDED6);
    all_named::<Icmpv6ParamProblem>(&rt, &PROBLEMS);
}
