//! What the first turn brings: who the host is, and which names it asks for.
use anyhow::{Result, bail};
use byteorder::{ByteOrder, LittleEndian};
use ip_wire::EthernetAddress;
use sockets::dns::DnsQueryType;
use std::alloc::Global;

/// How many bytes stand before the names: an Ethernet address and a seed.
const HEAD_LEN: usize = 14;

/// A name that is asked for.
#[derive(Drop)]
pub struct Question {
    pub name: String,
    pub kind: DnsQueryType,
    /// Whether the page of the host is fetched that has this name.
    pub fetches: bool,
}

/// Who the host is, and what it asks for, the last name first.
#[derive(Drop)]
pub struct Orders {
    pub hardware_addr: EthernetAddress,
    pub seed: u64,
    pub questions: Vec<Question>,
}

impl Orders {
    /// The Ethernet address, the seed with its low byte first, and lines of `A NAME`, `AAAA NAME` and `GET NAME`.
    pub fn read(alloc: Global, bytes: &[u8]) -> Result<Orders> {
        if bytes.len() < HEAD_LEN {
            bail!("the first turn is too short");
        }
        let (head, payload) = bytes.split_at(HEAD_LEN);
        let mut hardware_addr = [0; 6];
        hardware_addr.copy_from_slice(&head[..6]);
        Ok(Orders {
            hardware_addr: EthernetAddress(hardware_addr),
            seed: LittleEndian::read_u64(&head[6..14]),
            questions: questions(alloc, payload)?,
        })
    }
}

/// The questions of some lines, the last one first.
fn questions(alloc: Global, payload: &[u8]) -> Result<Vec<Question>> {
    let mut found = Vec::new(alloc);
    for line in payload.split(|b| *b == b'\n') {
        if let Ok(line) = str::from_utf8(line) {
            if let Some(question) = question_of(alloc, line)? {
                found.insert(0, question)?;
            }
        }
    }
    Ok(found)
}

/// The question of a line, if it has one.
fn question_of(alloc: Global, line: &str) -> Result<Option<Question>> {
    let Some((word, name)) = line.split_once(' ') else {
        return Ok(None);
    };
    let kind = match word {
        "A" | "GET" => DnsQueryType::A,
        "AAAA" => DnsQueryType::Aaaa,
        _ => bail!("no such question"),
    };
    Ok(Some(Question {
        name: String::from_str(alloc, name)?,
        kind,
        fetches: word == "GET",
    }))
}
