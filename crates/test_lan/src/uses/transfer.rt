//! A transfer over a link that loses every third segment, as a time-sequence picture: A on the left, B on the right, and
//! each segment between them at its time in milliseconds, with its flags, its slot in its stream, counted from the SYN,
//! its length, and what it acknowledges. An `x` marks a loss.
ghost use Rattle.std.specs.Prelude.{IfOk, OnOk};
ghost use Rattle.tcp_pair.specs.Promises.{IsInitial};
ghost use Rattle.tcp_pair.specs.Safe.{IsSafe};
ghost use Rattle.tcp_pair.specs.States.{hosted};
ghost use Rattle.sockets.specs.TcpReceive.{FitsBuffer};

use anyhow::Result;
use ip_wire::{IpAddress, IpEndpoint, IpListenEndpoint, TcpControl};
use net_base::{Instant, ManagedSlice, RingBuffer};
use sockets::tcp::{Socket, SocketBuffer, State};
use std::alloc::{AllocError, Global};
use std::str;
use tcp_pair::{Bytes, Pair, PairAnswer, PairEvent, SentSegment, Side, TcpFault, TcpSetting};

const TEXT: &[u8; 60] = b"Whatever a network loses, the bytes that are read are these.";

/// A buffer with room for 64 bytes.
fn buffer(alloc: Global) -> Result<SocketBuffer, AllocError>
    ensures { IfOk result FitsBuffer }
{
    let room = vec![in alloc; 0u8; 64]?;
    Ok(RingBuffer::new(ManagedSlice::Owned(room)))
}

/// A closed socket with room for 64 bytes each way.
fn socket(alloc: Global) -> Result<Socket, AllocError>
    ensures { IfOk result IsInitial }
{
    let received = buffer(alloc)?;
    let queued = buffer(alloc)?;
    Ok(Socket::new(received, queued))
}

/// A calls B. Each fragment that A writes goes at once, and B acknowledges each segment.
fn opening(alloc: Global) -> Result<Vec<PairEvent>, AllocError> {
    let server = IpEndpoint {
        addr: IpAddress::v4(192, 168, 1, 2),
        port: 80,
    };
    Ok(vec![in alloc;
        PairEvent::TcpSetting(Side::A, TcpSetting::NagleEnabled(false)),
        PairEvent::TcpSetting(Side::B, TcpSetting::AckDelay(None)),
        PairEvent::Listen(Side::B, port(80)),
        PairEvent::Connect(Side::A, server, port(49500)),
    ]?)
}

/// Two such sockets, with nothing between them.
fn initial(alloc: Global) -> Result<Pair>
    ensures { IfOk result (λ pair. IsSafe (hosted pair)) }
{
    let a = socket(alloc)?;
    let b = socket(alloc)?;
    Ok(Pair::new(alloc, a, b))
}

fn open(alloc: Global, pair: &mut Pair) -> Result<()>
    ensures { OnOk result (IsSafe (hosted pair.new)) }
{
    match pair.run(opening(alloc)?) {
        Ok(()) => Ok(()),
        Err((_slot, refused)) => Err(refused.into()),
    }
}

fn port(port: u16) -> IpListenEndpoint {
    IpListenEndpoint { addr: None, port }
}

/// The users: what A has still to write, and what B read.
#[derive(Drop)]
struct Users {
    written: usize,
    read: Vec<u8>,
    read_all: bool,
}

/// An event whose answer nobody looks at.
fn take(pair: &mut Pair, event: PairEvent) -> Result<()> {
    Ok(pair.step(event).map(|_| ())?)
}

/// The next ten bytes after those that were written.
fn fragment(written: usize) -> &'static [u8] {
    let rest = TEXT.get(written..).unwrap_or(&[]);
    rest.get(..10).unwrap_or(rest)
}

/// A writes ten bytes more where it may, and closes after the last.
fn write(alloc: Global, pair: &mut Pair, users: &mut Users) -> Result<()> {
    if !pair.socket(Side::A).may_send() {
        return Ok(());
    }
    let fragment = fragment(users.written);
    if fragment.is_empty() {
        return take(pair, PairEvent::Close(Side::A));
    }
    let event = PairEvent::Send(Side::A, Bytes::from_vec(fragment.to_vec(alloc)?));
    if let PairAnswer::Count(count) = pair.step(event)? {
        users.written = users.written.saturating_add(count);
    }
    Ok(())
}

/// B reads, and closes at the end.
fn read(pair: &mut Pair, users: &mut Users) -> Result<()> {
    match pair.step(PairEvent::Recv(Side::B, 64))? {
        PairAnswer::Bytes(bytes) => Ok(users.read.extend_from_slice(bytes.as_slice())?),
        PairAnswer::Error(TcpFault::Finished) if !users.read_all => {
            users.read_all = true;
            take(pair, PairEvent::Close(Side::B))
        }
        _ => Ok(()),
    }
}

/// What the link has carried of each side's segments, and how many in all.
#[derive(Drop)]
struct Link {
    of_a: usize,
    of_b: usize,
    all: usize,
}

impl Link {
    /// The place of the next segment of this side.
    fn next(&self, from: Side) -> usize {
        match from {
            Side::A => self.of_a,
            Side::B => self.of_b,
        }
    }

    /// It has carried one more of them.
    fn count(&mut self, from: Side) {
        match from {
            Side::A => self.of_a = self.of_a.saturating_add(1),
            Side::B => self.of_b = self.of_b.saturating_add(1),
        }
        self.all = self.all.saturating_add(1);
    }

    /// Carries the next segment of this side, if there is one, and shows it.
    fn carry(
        &mut self,
        alloc: Global,
        picture: &mut String,
        pair: &mut Pair,
        from: Side,
        now: i64,
    ) -> Result<()> {
        let k = self.next(from);
        if pair.sent(from).len() <= k {
            return Ok(());
        }
        self.count(from);
        let lost = self.all % 3 == 0;
        show_segment(alloc, picture, pair, from, k, now, lost)?;
        if lost {
            Ok(())
        } else {
            take(pair, PairEvent::Deliver(from, k))
        }
    }
}

/// Shows the segment of this side at this slot.
fn show_segment(
    alloc: Global,
    picture: &mut String,
    pair: &Pair,
    from: Side,
    k: usize,
    now: i64,
    lost: bool,
) -> Result<()> {
    let Some(segment) = pair.sent(from).get(k) else {
        return Ok(());
    };
    let label = described(alloc, pair, from, segment)?;
    Ok(show(picture, now, from, label.as_str(), lost)?)
}

/// The number of a side's first segment, its SYN.
fn start_of(pair: &Pair, side: Side) -> u32 {
    match pair.sent(side).first() {
        Some(first) => first.segment.seq_number.0,
        None => 0,
    }
}

fn described(
    alloc: Global,
    pair: &Pair,
    from: Side,
    x: &SentSegment,
) -> Result<String, AllocError> {
    let flags = match x.segment.control {
        TcpControl::Syn => "SYN ",
        TcpControl::Fin => "FIN ",
        TcpControl::Rst => "RST ",
        TcpControl::None | TcpControl::Psh => "",
    };
    let slot = x.segment.seq_number.0.wrapping_sub(start_of(pair, from));
    let other = match from {
        Side::A => Side::B,
        Side::B => Side::A,
    };
    let len = x.bytes.as_slice().len();
    match x.segment.ack_number {
        None => format!(in alloc; " {flags}{slot}({len}) "),
        Some(number) => {
            let acked = number.0.wrapping_sub(start_of(pair, other));
            format!(in alloc; " {flags}{slot}({len}) ack {acked} ")
        }
    }
}

fn show(
    picture: &mut String,
    now: i64,
    from: Side,
    label: &str,
    lost: bool,
) -> Result<(), AllocError> {
    let millis = now / 1000;
    match (from, lost) {
        (Side::A, false) => write!(picture, "{millis:>6}  A --{label:-<26}-> B\n"),
        (Side::A, true) => write!(picture, "{millis:>6}  A --{label:-<22}- x   B\n"),
        (Side::B, false) => write!(picture, "{millis:>6}  A <-{label:->26}-- B\n"),
        (Side::B, true) => write!(picture, "{millis:>6}  A   x -{label:->22}-- B\n"),
    }
}

/// One side is offered its next segment, and the link carries what there is.
fn offer(
    alloc: Global,
    picture: &mut String,
    pair: &mut Pair,
    link: &mut Link,
    side: Side,
    now: i64,
) -> Result<()> {
    take(
        pair,
        PairEvent::Offer(side, Instant::from_micros(now), true),
    )?;
    for _ in 0..9 {
        link.carry(alloc, picture, pair, Side::A, now)?;
        link.carry(alloc, picture, pair, Side::B, now)?;
    }
    Ok(())
}

/// The users act, then both sides are offered a segment.
fn turn(
    alloc: Global,
    picture: &mut String,
    pair: &mut Pair,
    users: &mut Users,
    link: &mut Link,
    now: i64,
) -> Result<()> {
    write(alloc, pair, users)?;
    read(pair, users)?;
    offer(alloc, picture, pair, link, Side::A, now)?;
    offer(alloc, picture, pair, link, Side::B, now)
}

fn is_over(pair: &Pair) -> bool {
    pair.socket(Side::A).state() == State::TimeWait && pair.socket(Side::B).state() == State::Closed
}

fn show_end(picture: &mut String, pair: &Pair, read: &[u8]) -> Result<()> {
    let a = pair.socket(Side::A).state();
    let b = pair.socket(Side::B).state();
    let text = str::from_utf8(read)?;
    Ok(write!(picture, "A is in {a}, B in {b}\nread: {text}\n")?)
}

/// A value on the heap.
fn boxed<T: Drop>(alloc: Global, value: T) -> Result<Box<T>> {
    Ok(Box::new(alloc, value)?)
}

/// Draws the transfer.
pub fn draw(alloc: Global) -> Result<String> {
    let mut pair = boxed(alloc, initial(alloc)?)?;
    open(alloc, &mut pair)?;
    let mut picture = String::new(alloc);
    transfer(alloc, &mut picture, &mut pair).map(|()| picture)
}

/// The transfer between two connected sockets, to its end.
fn transfer(alloc: Global, picture: &mut String, pair: &mut Pair) -> Result<()> {
    let mut users = Users {
        written: 0,
        read: Vec::new(alloc),
        read_all: false,
    };
    take_turns(alloc, picture, pair, &mut users)?;
    show_end(picture, pair, users.read.as_slice())
}

/// A turn each tenth of a second, at most for a minute.
fn take_turns(
    alloc: Global,
    picture: &mut String,
    pair: &mut Pair,
    users: &mut Users,
) -> Result<()> {
    let mut link = Link {
        of_a: 0,
        of_b: 0,
        all: 0,
    };
    for tick in 0..600_u16 {
        let now = i64::from(tick) * 100_000;
        turn(alloc, picture, pair, users, &mut link, now)?;
        if is_over(pair) {
            break;
        }
    }
    Ok(())
}

/// The picture.
pub static PICTURE: &str = "     0  A -- SYN 0(0) -----------------> B
     0  A <----------- SYN 0(0) ack 1 -- B
   100  A -- 1(10) ack 1 ---------- x   B
   200  A -- 11(10) ack 1 -------------> B
   200  A <--------------- 1(0) ack 1 -- B
   300  A -- 21(10) ack 1 --------- x   B
   400  A -- 31(10) ack 1 -------------> B
   400  A <--------------- 1(0) ack 1 -- B
   500  A -- 41(10) ack 1 --------- x   B
   600  A -- 51(10) ack 1 -------------> B
   600  A <--------------- 1(0) ack 1 -- B
   700  A -- 1(10) ack 1 ---------- x   B
   800  A -- FIN 61(0) ack 1 ----------> B
   800  A <--------------- 1(0) ack 1 -- B
   900  A -- 21(10) ack 1 --------- x   B
  1000  A -- 41(10) ack 1 -------------> B
  1000  A <--------------- 1(0) ack 1 -- B
  2000  A -- FIN 1(60) ack 1 ------ x   B
  4000  A -- FIN 1(60) ack 1 ----------> B
  4000  A <-------------- 1(0) ack 62 -- B
  4200  A   x ------ FIN 1(0) ack 62 -- B
  5200  A <---------- FIN 1(0) ack 62 -- B
  5300  A -- 62(0) ack 2 --------------> B
A is in TIME-WAIT, B in CLOSED
read: Whatever a network loses, the bytes that are read are these.
";
