//! Texts that a world takes event by event. A script ends at the first line that is refused: a world goes on as it was.
//!
//!     deliver A 0 -         a line of a script, or one of `settings`
//!     > refused NoFrame     its answer, or why it is refused
//!     > sent A 0 4500       after an answer: the frame 0 of A begins with these bytes
use crate::worlds::begun::{events_of, world};
use crate::worlds::common::{Row, cut, push_line, tell};
use crate::worlds::settings::other_event;
use lan::{Answer, End, Event, Line, Refused, Side, World, answer_line, event_of};
use sim_link::hex_text;
use std::alloc::{AllocError, Global};
use std::test::Fail;

/// Plays each script of each row at a world of its own. The failure names the first line that goes otherwise.
pub fn play_steps(rt: &HostRuntime, rows: &[Row]) -> Result<(), Fail> {
    for (name, before, text) in rows {
        for script in text.split("==\n") {
            if let Some(line) = first_wrong(rt, before, script)? {
                return Err(Fail::new(format_args!("{name}: {line}")));
            }
        }
    }
    Ok(())
}

fn first_wrong(
    rt: &HostRuntime,
    before: &[&'static str],
    text: &'static str,
) -> Result<Option<&'static str>, Fail> {
    let mut world = world(rt, before)?;
    first_wrong_at(rt, &mut world, before, text)
}

/// The same at a world that has taken no event.
fn first_wrong_at(
    rt: &HostRuntime,
    world: &mut World,
    before: &[&'static str],
    text: &'static str,
) -> Result<Option<&'static str>, Fail> {
    for part in before {
        if let Some(line) = first_wrong_in(rt, world, events_of(part))? {
            return Ok(Some(line));
        }
    }
    first_wrong_in(rt, world, text)
}

/// The same of one text. An event without an answer is wrong, too.
fn first_wrong_in(
    rt: &HostRuntime,
    world: &mut World,
    text: &'static str,
) -> Result<Option<&'static str>, Fail> {
    let mut asked = "";
    for line in text.lines() {
        match line.strip_prefix("> ") {
            Some(wanted) => {
                if !goes(rt, world, asked, wanted)? {
                    return Ok(Some(line));
                }
                asked = "";
            }
            None if line.starts_with("# ") => {}
            None if asked.is_empty() => asked = line,
            None => return Ok(Some(asked)),
        }
    }
    Ok(if asked.is_empty() { None } else { Some(asked) })
}

/// Whether the line is answered so, or the frame was sent.
fn goes(rt: &HostRuntime, world: &mut World, line: &str, wanted: &str) -> Result<bool, Fail> {
    let given = if wanted.starts_with("sent ") {
        None
    } else {
        Some(take(rt, world, line)?)
    };
    is_answer(rt, world, &given, wanted)
}

/// Takes the line's event. Where it finds no memory, it is taken once more, now that there is memory, and is answered as it would have been.
fn take(rt: &HostRuntime, world: &mut World, line: &str) -> Result<Result<Answer, End>, Fail> {
    match step(rt.alloc(), world, line) {
        Err(End::Refusal(Refused::Memory)) => {
            tell(rt, "a step is taken again")?;
            Ok(step(rt.alloc(), world, line))
        }
        answer => Ok(answer),
    }
}

fn step(alloc: Global, world: &mut World, line: &str) -> Result<Answer, End> {
    match event(alloc, line)? {
        Some(event) => Ok(world.step(event)?),
        None => Err(End::BadEvent),
    }
}

/// The event that a line names, if it names one.
fn event(alloc: Global, line: &str) -> Result<Option<Event>, AllocError> {
    let mut text = String::new(alloc);
    push_line(&mut text, line)?;
    let line = text.as_str().trim_end();
    match Line::read(line.as_bytes()) {
        Some(line) => event_of(alloc, &line),
        None => other_event(alloc, line),
    }
}

/// Whether the answer is written so; written again where an allocation is refused.
fn is_answer(
    rt: &HostRuntime,
    world: &World,
    given: &Option<Result<Answer, End>>,
    wanted: &str,
) -> Result<bool, Fail> {
    if let Ok(so) = is_so(rt.alloc(), world, given, wanted) {
        return Ok(so);
    }
    tell(rt, "an answer is written again")?;
    Ok(is_so(rt.alloc(), world, given, wanted)?)
}

/// The same, if memory is left. No answer: of a frame.
fn is_so(
    alloc: Global,
    world: &World,
    given: &Option<Result<Answer, End>>,
    wanted: &str,
) -> Result<bool, AllocError> {
    let mut line = String::new(alloc);
    push_line(&mut line, wanted)?;
    let text = match given {
        Some(Ok(answer)) => answer_line(alloc, answer)?,
        Some(Err(end)) => format!(in alloc; "{end}\n")?,
        None => return was_sent(alloc, world, line.as_str().trim_end()),
    };
    Ok(text == line)
}

/// Whether a frame was sent that begins as `sent A 0 4500` says.
fn was_sent(alloc: Global, world: &World, line: &str) -> Result<bool, AllocError> {
    let (_, words) = cut(line, " ");
    let (side, words) = cut(words, " ");
    let (slot, start) = cut(words, " ");
    let frames = world.sent(if side == "B" { Side::B } else { Side::A });
    match frames.get(slot.parse::<usize>().unwrap_or(usize::MAX)) {
        Some(frame) => Ok(
            hex_text(alloc, frame.as_slice())?
                .as_str()
                .starts_with(start),
        ),
        None => Ok(false),
    }
}
