//! Cases of clients of DHCP and DNS, and of their messages, line by line.
mod dhcp_client;
mod dhcp_message;
mod dns_client;
mod dns_message;
mod host;
mod packets;

use crate::clients::host::Host;
use app_case_files::ends_line;
use hex::FromHexError;
use sockets::{dhcp, dns};
use std::alloc::{AllocError, Global};
use std::mem::replace;
use std::str;

/// The client that lines are for.
#[derive(Drop)]
enum Client {
    Dhcp(dhcp::Socket),
    Dns(dns::Socket),
}

/// A host and its client.
#[derive(Drop)]
struct Player {
    host: Host,
    client: Client,
}

/// What became of a line.
enum Answer {
    Taken,
    NoMessage,
    NoSuchLine,
}

/// A client of DHCP.
fn dhcp_player(seed: u64) -> Player {
    Player {
        host: Host::new(0),
        client: Client::Dhcp(dhcp_client::new(seed)),
    }
}

/// A client of DNS, with two servers.
fn dns_player(seed: u64) -> Player {
    Player {
        host: Host::new(seed),
        client: Client::Dns(dns_client::new()),
    }
}

/// Plays the lines of a case, at a client of DHCP until another one begins, puts what they answer after a text, and says by its number
/// which line isn't taken. False: one wasn't.
pub fn play(alloc: Global, script: &[u8], out: &mut String) -> Result<bool, AllocError> {
    let mut player = dhcp_player(0);
    play_at(alloc, script, &mut player, out)
}

/// The same of this player. (It is borrowed: where it is owned each egress path lets it go, which makes a long proof.)
fn play_at(
    alloc: Global,
    script: &[u8],
    player: &mut Player,
    out: &mut String,
) -> Result<bool, AllocError> {
    let mut all_taken = true;
    for (slot, line) in script.split(|byte| ends_line(byte)).enumerate() {
        let why = match take(alloc, line, player, out)? {
            Answer::Taken => continue,
            Answer::NoMessage => "no message",
            Answer::NoSuchLine => "no such line",
        };
        writeln!(out, "line {}: {why}", slot.saturating_add(1))?;
        all_taken = false;
    }
    Ok(all_taken)
}

/// Answers a line; says nothing of one without a word and of a comment after blanks.
fn take(
    alloc: Global,
    line: &[u8],
    player: &mut Player,
    out: &mut String,
) -> Result<Answer, AllocError> {
    let Ok(text) = str::from_utf8(line) else {
        return Ok(Answer::NoSuchLine);
    };
    let text = text.trim();
    if text.is_empty() || text.starts_with('#') {
        return Ok(Answer::Taken);
    }
    let (word, rest) = text.split_once(' ').unwrap_or((text, ""));
    match word {
        "dhcp" | "dns" => describe(alloc, word, rest, out),
        _ => tell(alloc, word, rest, player, out),
    }
}

/// Says what a message of this kind says.
fn describe(
    alloc: Global,
    kind: &str,
    digits: &str,
    out: &mut String,
) -> Result<Answer, AllocError> {
    if digits.is_empty() {
        return Ok(Answer::NoMessage);
    }
    let bytes = match hex::decode(alloc, digits) {
        Ok(bytes) => bytes,
        Err(FromHexError::OutOfMemory) => return Err(AllocError),
        Err(_) => return Ok(Answer::NoMessage),
    };
    match kind {
        "dhcp" => dhcp_message::describe(alloc, bytes.as_slice(), out)?,
        _ => dns_message::describe(bytes.as_slice(), out)?,
    }
    Ok(Answer::Taken)
}

/// Begins a client, or tells the one that began last.
fn tell(
    alloc: Global,
    word: &str,
    rest: &str,
    player: &mut Player,
    out: &mut String,
) -> Result<Answer, AllocError> {
    let known = match word {
        "client" => begin(player, dhcp_player(seed(rest))),
        "resolver" => begin(player, dns_player(seed(rest))),
        _ => play_on(alloc, word, rest, player, out)?,
    };
    Ok(if known {
        Answer::Taken
    } else {
        Answer::NoSuchLine
    })
}

/// Another client begins. True. (An assignment would do, but its proof follows each part of the client that it lets go.)
fn begin(player: &mut Player, next: Player) -> bool {
    drop(replace(player, next));
    true
}

/// Tells the client that began last. False: no line begins with that word.
fn play_on(
    alloc: Global,
    word: &str,
    rest: &str,
    player: &mut Player,
    out: &mut String,
) -> Result<bool, AllocError> {
    let host = &mut player.host;
    match &mut player.client {
        Client::Dhcp(client) => dhcp_client::answer(alloc, word, rest, host, client, out),
        Client::Dns(client) => dns_client::answer(alloc, word, rest, host, client, out),
    }
}

/// The seed that a text says, and 0 where it says none.
fn seed(text: &str) -> u64 {
    text.parse::<u64>().unwrap_or(0)
}
