//! Events that no line of a script names, all of host A: settings of a stream are those of its socket 3, and bytes go to its socket 0.
use crate::worlds::common::{Row, cut};
use crate::worlds::steps::play_steps;
use crate::worlds::texts::{EACH, ETHERNET};
use ip_wire::TcpTimestampGenerator;
use lan::{Bytes, Event, Side, TcpSetting};
use net_base::{Duration, Instant};
use sockets::tcp::CongestionControl;
use std::alloc::{AllocError, Global};
use std::test::Fail;

/// So many bytes 5a.
fn filled(alloc: Global, count: usize) -> Result<Bytes, AllocError> {
    Ok(Bytes::from_vec(vec![in alloc; 0x5a; count]?))
}

fn span(micros: u64) -> Option<Duration> {
    Some(Duration::from_micros(micros))
}

fn tcp_setting(name: &str) -> Option<TcpSetting> {
    Some(match name {
        "timeout" => TcpSetting::Timeout(span(5_000_000)),
        "ack-delay" => TcpSetting::AckDelay(span(20_000)),
        "no-ack-delay" => TcpSetting::AckDelay(None),
        "keep-alive" => TcpSetting::KeepAlive(span(1_000_000)),
        "no-nagle" => TcpSetting::NagleEnabled(false),
        "hop-limit-9" => TcpSetting::HopLimit(Some(9)),
        "hop-limit-0" => TcpSetting::HopLimit(Some(0)),
        "reno" => TcpSetting::CongestionControl(CongestionControl::Reno),
        "cubic" => TcpSetting::CongestionControl(CongestionControl::Cubic),
        "timestamps" => TcpSetting::TsvalGenerator(Some(TcpTimestampGenerator(7))),
        "pause-synack" => TcpSetting::PauseSynack(true),
        _ => return None,
    })
}

fn setting(name: &str) -> Option<Event> {
    match name {
        "any-ip" => Some(Event::AnyIp(Side::A, true)),
        "reassembly-timeout" => {
            Some(Event::ReassemblyTimeout(Side::A, Duration::from_micros(1_000_000)))
        }
        _ => Some(Event::TcpSetting(Side::A, 3, tcp_setting(name)?)),
    }
}

/// The event of `set NAME`, of `fill COUNT`, which sends so many bytes 5a, or of a poll before the start.
pub fn other_event(alloc: Global, line: &str) -> Result<Option<Event>, AllocError> {
    let (verb, word) = cut(line, " ");
    match verb {
        "set" => Ok(setting(word)),
        "fill" => Ok(Some(Event::Send(
            Side::A,
            0,
            filled(alloc, word.parse::<usize>().unwrap_or(0))?,
        ))),
        _ if line == "poll A -1 0" => Ok(Some(Event::Poll(Side::A, Instant::from_micros(-1), 0))),
        _ => Ok(None),
    }
}

const OF_A_STREAM: &str = "\
set timeout
> ok
set ack-delay
> ok
set keep-alive
> ok
set no-nagle
> ok
set hop-limit-9
> ok
set reno
> ok
set cubic
> ok
set timestamps
> ok
set pause-synack
> ok
set no-ack-delay
> ok
state A 3
> state CLOSED
";

/// A SYN has the hop limit that was set.
const LIMITED: &str = "\
set hop-limit-9
> ok
connect A 3 192.168.1.2:80 49500
> ok
poll A 0 8
> changed
> sent A 0 45000034c24d000009066c23c0a80101c0a80102c15c0050
";

/// A limit of 0 is none, and then it is 64.
const UNLIMITED: &str = "\
set hop-limit-9
> ok
set hop-limit-0
> ok
connect A 3 192.168.1.2:80 49500
> ok
poll A 0 8
> changed
> sent A 0 45000034c24d000040063523c0a80101c0a80102c15c0050
";

const OF_A_HOST: &str = "\
set any-ip
> ok
set reassembly-timeout
> ok
poll A 0 8
> none
pollat A 0
> never
";

static ROWS: [Row; 4] = [
    ("each setting of a stream is taken", &[EACH], OF_A_STREAM),
    ("a hop limit is written", &[EACH], LIMITED),
    ("a hop limit of none is the usual one", &[EACH], UNLIMITED),
    ("each setting of a host is taken", &[ETHERNET], OF_A_HOST),
];

#[test]
fn settings_are_taken(rt: HostRuntime) -> Result<(), Fail> {
    play_steps(&rt, &ROWS)
}

/// What was taken as bytes is given back as memory.
#[test]
fn bytes_are_given_back(rt: HostRuntime) -> Result<(), Fail> {
    let bytes = filled(rt.alloc(), 3)?.into_vec();
    assert!(rt; bytes.as_slice() == b"ZZZ".as_slice());
    Ok(())
}
