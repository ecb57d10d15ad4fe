//! Worlds that go on after refused steps, as they were before. Each refusal by itself ends a script of `app_cases`.
use crate::worlds::common::Row;
use crate::worlds::steps::play_steps;
use crate::worlds::texts::{EACH, IP, OPENING, STREAMS, TWO_STREAMS};
use std::test::Fail;

const OVER_EACH: &str = "\
state A 9
> refused NoSocket
recv A 1 8
> refused WrongKind
sendraw A 2 45000018000000004006f739c0a80101c0a8010201020304
> refused RawProtocol
sendraw A 2 45000018000000004059f739c0a80101c0a8010201020304
> ok
poll A 0 32768
> refused TooManyCut
poll A 0 8
> changed
> sent A 0 45000018c24d0000405934ecc0a80101c0a8010201020304
sendraw A 2 00
> ok
";

/// The last instant is 2^61.
const OVER_IP: &str = "\
deliver A 0 -
> refused NoFrame
bind A 0 48896
> ok
sendto A 0 192.168.1.2:53 aa0000ff
> ok
poll A -1 0
> refused Moment
poll A 7 8
> changed
damage A 0 0 0001 -
> refused NotTcp
cut A 0 4
> refused CutPlace
noise A 45000000000000000011
> refused NamesTcpOrUdp
deliver B 0 -
> refused NoFrame
deliver A 0 -
> ok
poll A 6 0
> refused Moment
pollat A 9
> never
poll A 8 0
> refused Moment
poll B 6 0
> none
poll A 2305843009213693953 0
> refused Moment
poll A 2305843009213693952 0
> none
";

const OVER_STREAMS: &str = "\
connect A 0 192.168.1.2:80 49500
> ok
connect A 0 192.168.1.2:80 49501
> refused OpenedTwice
listen A 0 81
> refused OpenedTwice
connect A 1 192.168.1.2:80 49501
> refused PortTaken
listen A 1 49500
> refused PortTaken
connect A 1 192.168.1.2:81 49501
> ok
";

/// The first frame is an ARP request. A segment of 23 bytes is cut in two fragments, which are no segments, and is read from them.
const OF_FRAGMENTS: &str = "\
cut A 0 8
> refused NotIpv4
send A 0 616263
> ok 3
poll A 0 8
> changed
damage A 3 19 6163 -
> refused Place
damage A 3 18 ffff -
> refused SameSum
cut A 3 24
> refused CutPlace
cut A 3 16
> ok
damage A 4 0 0001 -
> refused NotTcp
deliver A 5 -
> ok
deliver A 4 -
> ok
poll B 0 8
> changed
recv B 0 8
> data 616263
";

static ROWS: [Row; 4] = [
    ("sockets of each kind", &[EACH], OVER_EACH),
    ("datagram sockets on bare ip", &[IP], OVER_IP),
    ("two streams of a host", &[TWO_STREAMS], OVER_STREAMS),
    (
        "pieces of a segment are no segments",
        &[STREAMS, OPENING],
        OF_FRAGMENTS,
    ),
];

#[test]
fn a_world_proceeds_following_a_refusal(rt: HostRuntime) -> Result<(), Fail> {
    play_steps(&rt, &ROWS)
}
