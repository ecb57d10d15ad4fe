//! Worlds, whose hosts are made as the header of a script says.
use crate::worlds::common::{cut, tell};
use lan::{End, Header, Line, World, side_of};
use std::alloc::Global;
use std::test::Fail;

/// What stands between a header and its events.
const START: &str = "start\n> ok\n";

/// The header that begins with this line.
fn begun(alloc: Global, line: &str) -> Result<Header, End> {
    match Line::read(line.as_bytes()) {
        Some(Line::World(medium, mtu)) => Ok(Header::new(alloc, medium, mtu)),
        _ => Err(End::BadEvent),
    }
}

/// Adds the sockets of these lines.
fn add_sockets(header: &mut Header, lines: &str) -> Result<(), End> {
    for line in lines.lines() {
        match Line::read(line.as_bytes()) {
            Some(Line::Socket(side, spec)) => header.push(side_of(side), spec)?,
            _ => return Err(End::BadEvent),
        }
    }
    Ok(())
}

fn started(alloc: Global, text: &str) -> Result<World, End> {
    let (line, sockets) = cut(text, "\n");
    let mut header = begun(alloc, line)?;
    add_sockets(&mut header, sockets)?;
    header.start(alloc)
}

/// The world of a header, on the heap, where lending it is cheap to prove.
pub fn made(alloc: Global, header: &str) -> Option<Box<World>> {
    Box::new(alloc, started(alloc, header).ok()?).ok()
}

/// The world of the header that the first of these texts begins with; made again where the allocation that is refused is one of its own.
pub fn world(rt: &HostRuntime, texts: &[&str]) -> Result<Box<World>, Fail> {
    let (header, _) = cut(texts.first().copied().unwrap_or(""), START);
    if let Some(world) = made(rt.alloc(), header) {
        return Ok(world);
    }
    tell(rt, "a world is made again")?;
    match made(rt.alloc(), header) {
        Some(world) => Ok(world),
        None => Err("a world".into()),
    }
}

/// What a text says after its header, if it has one.
pub fn events_of<'a>(text: &'a str) -> &'a str {
    match text.split_once(START) {
        Some((_, events)) => events,
        None => text,
    }
}
