//! A host between a script and its frames: the language of `lan` for one host, whose link is the script itself.
//!
//! Plays the scripts on standard input, each at a host of its own, and writes what each line answers, and the frames that the host sent
//! then, to standard output.
#![tactic(auto)]

mod answer;
mod commands;
mod datagrams;
mod device_lines;
mod header;
mod host;
mod host_lines;
mod line;
mod made;
mod polls;
mod refusal_text;
mod run;
mod script;
mod session;
mod settings;
mod stop;
mod streams;
mod wire;
mod words;

use std::io;
use std::process::ExitCode;

fn main(rt: HostRuntime) -> ExitCode {
    let status = script::replay(rt.alloc(), &mut rt.reader(), &mut io::writer(&rt));
    ExitCode::from(status)
}
