//! The run of the host: turns that are read, taken, and answered.
ghost use Rattle.net_base.specs.Time.{IsMoment};

use crate::boot::client::Host;
use crate::boot::orders::Orders;
use anyhow::Result;
use app_tun_services::Watch;
use app_tun_services::link::{read_turn, write_answer};
use net_base::Instant;
use std::io::{self, Read};

/// The longest frame that a turn brings, in bytes.
const LONGEST: usize = 65_535;

/// Takes turns until the input ends, or so many after the first one were taken. The first one brings what the host is to do; each other
/// one brings a frame, or none, and is answered with the frames that the host sends and the instant at which it wants its next turn.
pub fn serve<R: Input + Print + Eprint + AllocGlobal, V: Watch>(
    rt: &R,
    watch: &mut V,
    turns: u64,
) -> Result<()> {
    let alloc = rt.alloc();
    let mut reader = rt.reader();
    let mut first = Vec::new(alloc);
    match read_turn(&mut reader, &mut first, LONGEST, Instant::ZERO)? {
        Some(begin) => {
            let orders = Orders::read(alloc, first.as_slice())?;
            let mut host = Host::new(alloc, orders, begin)?;
            take_turns(rt, watch, &mut reader, &mut host, begin, turns)
        }
        None => Ok(()),
    }
}

/// So many turns after the first one.
fn take_turns<R: Print + Eprint + AllocGlobal, V: Watch, B: Read>(
    rt: &R,
    watch: &mut V,
    reader: &mut B,
    host: &mut Host,
    begin: Instant,
    turns: u64,
) -> Result<()>
    requires { IsMoment begin }
{
    let mut writer = io::writer(rt);
    write_answer(&mut host.drain, &mut writer, Some(begin))?;
    let mut last = begin;
    for _ in 0..turns {
        let mut frame = Vec::new(rt.alloc());
        let Some(now) = read_turn(reader, &mut frame, LONGEST, last)? else {
            break;
        };
        host.turn(rt, watch, frame, now)?;
        let next = host.next(now);
        write_answer(&mut host.drain, &mut writer, next)?;
        last = now;
    }
    Ok(())
}
