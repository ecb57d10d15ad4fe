//! A host as a program.
use crate::turns::serve_watched;
use crate::watch::{Unwatched, Watch};
use std::io::{self, BufReader};
use std::process::ExitCode;

/// Serves a program's standard input and output, and returns the status with which it ends: success where its input ended. All that
/// is known of what it writes is what `serve` promises. A turn that was written in one piece is read in one.
pub fn run<R: Input + Print + AllocGlobal>(rt: &R) -> ExitCode {
    run_watched(rt, &mut Unwatched {})
}

/// The same of a host whose link is watched.
pub fn run_watched<R: Input + Print + AllocGlobal, V: Watch>(rt: &R, watch: &mut V) -> ExitCode {
    let Ok(mut reader) = BufReader::new(rt.alloc(), rt.reader()) else {
        return ExitCode::FAILURE;
    };
    match serve_watched(rt.alloc(), &mut reader, &mut io::writer(rt), watch) {
        Ok(()) => ExitCode::SUCCESS,
        Err(_) => ExitCode::FAILURE,
    }
}
