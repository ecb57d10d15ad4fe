//! Says of each frame on standard input what it carries, and writes packets from their fields.
#![tactic(auto)]

mod emit;
mod emit_control;
mod emit_tcp;
mod fault;
mod lines;
mod room;
mod texts;
mod words;

use std::io;
use std::process::ExitCode;

fn main(rt: HostRuntime) -> ExitCode {
    match lines::run(rt.alloc(), rt.reader(), &mut io::writer(&rt)) {
        Ok(true) => ExitCode::SUCCESS,
        Ok(false) => ExitCode::from(1),
        Err(_) => ExitCode::from(2),
    }
}
