//! Tests of the program's scripts, of their lines, of worlds, of the device in memory and of what the link makes of frames. What they expect
//! comes from outside: worked examples, the language's rules, and frames that another program made.
//!
//! Scripts are cases of the program `app_cases`; here is what only Rust can say. `steps` has a world take the events of such a text one by
//! one, and names the frames that matter alone: what goes on after a refusal (`going_on`), what no script says (`settings`, `bounds`), and
//! what an event does that finds no memory (`memory`). `fragments` has readers and writers that give little, or fail;
//! `files`, files of cases.

pub mod begun;
mod bounds;
mod common;
mod files;
mod fragments;
mod frames;
mod going_on;
mod lines;
mod made;
mod memory;
mod port;
mod settings;
mod settling;
mod steps;
mod texts;
