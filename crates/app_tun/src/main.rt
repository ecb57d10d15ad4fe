//! A host whose link is standard input and output: another program owns the device and the clock (docs/reference/linux.md). With the argument
//! `boot` it is one that configures itself; with `boot N` that takes N turns after its first one, and the host without an argument takes
//! what comes then. Before these, `--trace` shows the frames as lines on standard error, and `--pcap FILE` writes a capture of them.
#![tactic(auto)]

mod boot;
mod taps;

use anyhow::Result;
use app_tun_services::{Unwatched, Watch, run_watched};
use std::env;
use std::process::ExitCode;
use taps::Taps;

/// The status where the arguments name no host.
const NO_SUCH_HOST: u8 = 2;

fn main(rt: HostRuntime) -> Result<ExitCode> {
    let words: Vec<String> = env::args(&rt)?.collect(rt.alloc())?;
    // The first word is the program's name.
    let (_, arguments) = words.as_slice().split_at(words.len().min(1));
    let (mut taps, count) = Taps::read(&rt, arguments)?;
    let (_, arguments) = arguments.split_at(count.min(arguments.len()));
    if taps.is_any() {
        run(&rt, &mut taps, arguments)
    } else {
        run(&rt, &mut Unwatched {}, arguments)
    }
}

/// Runs the host that the arguments name.
fn run<R: Input + Print + Eprint + AllocGlobal, V: Watch>(
    rt: &R,
    watch: &mut V,
    arguments: &[String],
) -> Result<ExitCode> {
    if arguments.is_empty() {
        return Ok(run_watched(rt, watch));
    }
    match turns(arguments) {
        Some(turns) => run_both(rt, watch, turns),
        None => refuse(rt, arguments),
    }
}

/// How many turns the host that configures itself takes after its first one, if the arguments name it.
fn turns(arguments: &[String]) -> Option<u64> {
    match arguments {
        [word] if word.as_str() == "boot" => Some(u64::MAX),
        [word, turns] if word.as_str() == "boot" => turns.as_str().parse().ok(),
        _ => None,
    }
}

/// The host that configures itself takes so many turns after its first one, and the other host what comes then.
fn run_both<R: Input + Print + Eprint + AllocGlobal, V: Watch>(
    rt: &R,
    watch: &mut V,
    turns: u64,
) -> Result<ExitCode> {
    boot::serve(rt, watch, turns)?;
    Ok(run_watched(rt, watch))
}

fn refuse<R: Eprint>(rt: &R, arguments: &[String]) -> Result<ExitCode> {
    eprintln!(rt; "no such host: {arguments:?}")?;
    Ok(ExitCode::from(NO_SUCH_HOST))
}
