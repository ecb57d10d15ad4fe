//! Two connected TCP sockets over a link that loses, repeats and reorders frames: all bytes arrive, in order.
use crate::cases::boxed;
use crate::hosts::polls::common::{Host, Plan, TCP};
use net_base::Rand;
use sockets::tcp;
use sockets::tcp::{RecvError, State};
use std::alloc::Global;
use std::test::Fail;

/// How many bytes go each way.
const LENGTH: usize = 1_048_576;

const MINUTE: u32 = 60_000_000;

/// One side of the transfer: a host, and how far its application has come.
#[derive(Drop)]
struct Side {
    host: Box<Host>,
    text: Vec<u8>,
    written: usize,
    read: usize,
    /// Whether the other side's end was read, after all of its bytes.
    finished: bool,
    /// How many of the sent frames the link has taken.
    carried: usize,
    /// How many of them it lost.
    lost: usize,
    /// A frame that it holds back.
    held: Option<Vec<u8>>,
}

/// The bytes 0 to 250 again and again, beginning with this number.
fn make_text(alloc: Global, first: u8) -> Result<Vec<u8>, Fail> {
    let mut text = Vec::with_capacity(alloc, LENGTH)?;
    for slot in 0..LENGTH {
        text.push((slot % 251) as u8 ^ first)?;
    }
    Ok(text)
}

/// A side whose host and whose text have this number.
fn make_side(alloc: Global, number: u8) -> Result<Side, Fail> {
    let plan = Plan {
        number,
        room: 8_192,
        ..TCP
    };
    let text = make_text(alloc, number)?;
    Host::new(alloc, &plan).map(|host| Side {
        host,
        text,
        written: 0,
        read: 0,
        finished: false,
        carried: 0,
        lost: 0,
        held: None,
    })
}

/// Writes those of the bytes for which there is room, and closes where there are none. The answer is how many it wrote.
fn write(socket: &mut tcp::Socket, rest: &[u8]) -> Option<usize> {
    if !socket.may_send() {
        return Some(0);
    }
    if rest.is_empty() {
        socket.close();
        return Some(0);
    }
    socket.send_slice(rest).ok()
}

impl Side {
    /// Writes what there is room for, and closes after the last byte.
    fn write(&mut self) -> bool {
        let (Some(socket), Some(rest)) = (self.host.tcp(), self.text.get(self.written..)) else {
            return false;
        };
        match write(socket, rest) {
            Some(count) => {
                self.written = self.written.saturating_add(count);
                true
            }
            None => false,
        }
    }

    /// Reads what has come, which must be the next bytes of this text.
    fn read(&mut self, expected: &[u8]) -> bool {
        let mut bytes = [0; 4_096];
        let Some(socket) = self.host.tcp() else {
            return false;
        };
        match socket.recv_slice(&mut bytes) {
            Ok(count) => self.takes(bytes.get(..count), count, expected),
            Err(RecvError::Finished) => {
                self.finished = self.read == expected.len();
                true
            }
            Err(RecvError::InvalidState) => true,
        }
    }

    /// So many bytes were read, which must be the next of this text.
    fn takes(&mut self, came: Option<&[u8]>, count: usize, expected: &[u8]) -> bool {
        let until = self.read.saturating_add(count);
        let (Some(came), Some(wanted)) = (came, expected.get(self.read..until)) else {
            return false;
        };
        self.read = until;
        came == wanted
    }

    fn is_done(&mut self) -> bool {
        self.finished && matches!(self.host.state(), Some(State::TimeWait | State::Closed))
    }

    /// In how many microseconds the host wants to be polled, at most a minute.
    fn delay(&mut self, micros: u32) -> u32 {
        self.host.now = micros;
        match self.host.delay() {
            Some(delay) => u32::try_from(delay).unwrap_or(MINUTE),
            None => MINUTE,
        }
    }

    /// The application's turn, and then the host's.
    fn turn(&mut self, micros: u32, expected: &[u8]) -> bool {
        if !self.write() || !self.read(expected) {
            return false;
        }
        self.host.now = micros;
        let _told = self.host.poll(64);
        true
    }
}

/// A copy of the frame comes.
fn pass(to: &mut Host, frame: &Vec<u8>) -> bool {
    match frame.clone() {
        Ok(frame) => to.comes(frame),
        Err(_) => false,
    }
}

/// A frame on its way: by the word it is lost, comes twice, comes after the next, or comes.
fn carry_one(
    frame: &Vec<u8>,
    word: u32,
    lost: &mut usize,
    held: &mut Option<Vec<u8>>,
    to: &mut Host,
) -> Result<bool, Fail> {
    match word % 8 {
        0 => {
            *lost = lost.saturating_add(1);
            Ok(true)
        }
        1 => Ok(pass(to, frame) && pass(to, frame)),
        2 if held.is_none() => {
            *held = Some(frame.clone()?);
            Ok(true)
        }
        _ => Ok(pass(to, frame) && pass_held(held, to)),
    }
}

/// The frame that was held back comes, if there is one.
fn pass_held(held: &mut Option<Vec<u8>>, to: &mut Host) -> bool {
    match held.take() {
        Some(earlier) => to.comes(earlier),
        None => true,
    }
}

/// Carries the frames that one side sent to the other: of eight one is lost, one comes twice, and one comes after the next.
fn carry(from: &mut Side, to: &mut Host, words: &mut Rand) -> Result<bool, Fail> {
    let mut came = true;
    for frame in from.host.wire.sent().get(from.carried..).ok_or("frames")? {
        let word = words.rand_u32();
        came = carry_one(frame, word, &mut from.lost, &mut from.held, to)? && came;
    }
    from.carried = from.host.wire.sent().len();
    Ok(came)
}

/// Both sides at their link, at an instant.
#[derive(Drop)]
struct Transfer {
    client: Side,
    server: Side,
    words: Rand,
    micros: u32,
}

fn make_transfer(alloc: Global) -> Result<Box<Transfer>, Fail> {
    let client = make_side(alloc, 1)?;
    let transfer = make_side(alloc, 2).map(|server| Transfer {
        client,
        server,
        words: Rand::new(9),
        micros: 0,
    })?;
    boxed(alloc, transfer)
}

impl Transfer {
    /// The client connects, and the server listens.
    fn opens(&mut self) -> bool {
        self.client.host.connect() && self.server.host.listen()
    }

    /// How long it is to the next turns: a hundredth of a second, and where no frame is on its way, until a host wants to be
    /// polled.
    fn pause(&mut self) -> u32 {
        let (client, server) = (&mut self.client, &mut self.server);
        if client.host.left() == 0 && server.host.left() == 0 {
            client
                .delay(self.micros)
                .min(server.delay(self.micros))
                .clamp(10_000, MINUTE)
        } else {
            10_000
        }
    }

    /// A turn of each side; then the link carries what they sent.
    fn step(&mut self) -> Result<bool, Fail> {
        let (client, server) = (&mut self.client, &mut self.server);
        if !client.turn(self.micros, server.text.as_slice())
            || !server.turn(self.micros, client.text.as_slice())
        {
            return Ok(false);
        }
        let came = carry(client, &mut server.host, &mut self.words)?
            && carry(server, &mut client.host, &mut self.words)?;
        self.micros = self.micros.saturating_add(self.pause());
        Ok(came)
    }

    fn is_done(&mut self) -> bool {
        self.client.is_done() && self.server.is_done()
    }

    /// Takes so many steps, or until both sides are done. The answer is whether each went well.
    fn run(&mut self, steps: u32) -> Result<bool, Fail> {
        for _ in 0..steps {
            if self.is_done() {
                break;
            }
            if !self.step()? {
                return Ok(false);
            }
        }
        Ok(true)
    }

    /// Whether both sides have read everything, and the link lost at least six frames of each.
    fn has_all(&self) -> bool {
        let (client, server) = (&self.client, &self.server);
        (client.read, server.read) == (LENGTH, LENGTH) && client.lost >= 6 && server.lost >= 6
    }
}

/// Whether all goes well until both sides have everything.
fn ends_well(transfer: &mut Transfer) -> Result<bool, Fail> {
    let went = transfer.opens() && transfer.run(100_000)?;
    Ok(went && transfer.is_done() && transfer.has_all())
}

#[test]
fn all_bytes_arrive_over_a_bad_link(rt: HostRuntime) -> Result<(), Fail> {
    let mut transfer = make_transfer(rt.alloc())?;
    let end = ends_well(&mut transfer)?;
    assert!(rt; end);
    Ok(())
}
