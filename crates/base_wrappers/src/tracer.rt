//! A device that writes the frames that go over the device in it.
ghost use Rattle.std.specs.Prelude.{◌≡◌, ◌+◌, ◌^◌, ◌<◌, ℕ, pos, List, length, is_ok, if◌then◌else◌, IfOk, OnErr, IfSome};
ghost use Rattle.std.specs.Fn.{FnOnceReturnsAtMut, FnOnceTakesAtMut};
ghost use Rattle.base_device.specs.Device.{Emitted, Denied};
ghost use Rattle.base_wrappers.specs.declared.writer.Direction.TheVariants.{Tx};
ghost use Rattle.base_wrappers.specs.Trace.{Put, Noted};
ghost use Rattle.base_wrappers.specs.TracerValue.{with_inner, with_sink};

use crate::sink::Sink;
use crate::writer::{Direction, FrameWriter};
use base_device::{Device, DeviceCapabilities, RxToken, SendRefused};
use base_time::Instant;
use std::alloc::Global;
use std::marker::Model;
use std::mem;

/// A device that writes the frames that go over the device in it. It never changes what a host does: a frame that isn't written,
/// for lack of memory or of room in the sink, goes on, and is counted.
#[derive(Debug, Drop)]
pub struct Tracer<D, S, W> {
    inner: D,
    sink: S,
    writer: W,
    instant: Instant,
    lost: u64,
    // Buffers that serve each call, so that in time nothing is allocated.
    copy: Vec<u8>,
    line: Vec<u8>,
}

impl<D, S, W> Model for Tracer<D, S, W> {
    ghost use Rattle.base_wrappers.specs.TracerValue.{TracerValue, tracer_code};

    ghost Value = { TracerValue D S W };

    ghost coded = { tracer_code D.code S.code W.code };

    ghost view = { λ v. record { inner = v.inner; sink = v.sink; writer = v.writer; instant = v.instant; lost = v.lost } };
}

/// A frame in the buffer in place of what it held, if there is memory for it.
fn copy_of(mut buffer: Vec<u8>, frame: &[u8]) -> Option<Vec<u8>>
    ensures { IfSome result (λ copy. copy.items ≡ frame.now) }
{
    buffer.truncate(0);
    match buffer.extend_from_slice(frame) {
        Ok(()) => Some(buffer),
        Err(_) => None,
    }
}

/// Runs the closure, and copies what it left, if there is memory for it.
fn run_and_copy<R, F: FnOnce(&mut [u8]) -> R>(
    f: F,
    frame: &mut [u8],
    buffer: Vec<u8>,
) -> (R, Option<Vec<u8>>)
    requires { FnOnceTakesAtMut F.FnOnce f frame.old }
    ensures ran { FnOnceReturnsAtMut F.FnOnce f frame.old result.0 frame.new }
    ensures copied { IfSome result.1 (λ copy. copy.items ≡ frame.new) }
{
    let answer = f(frame);
    (answer, copy_of(buffer, frame))
}

/// Sends a frame over the device, and copies it. A closure that is given to a device borrows nothing that is needed behind the call,
/// since nothing is known of what it leaves there: so the copy comes back by value.
fn send_copied<D: Device, R: Drop, F: FnOnce(&mut [u8]) -> R>(
    device: &mut D,
    token: D::TxToken,
    len: usize,
    f: F,
    buffer: Vec<u8>,
) -> Result<(R, Option<Vec<u8>>), SendRefused>
    requires callable { (buffer : List ℕ) → length buffer ≡ len →
        FnOnceTakesAtMut F.FnOnce f buffer }
    requires room { D.refused device.old + 1 < 2 ^ 64 }
    ensures ok { IfOk result (λ r. (buffer : List ℕ) × (frame : List ℕ)
        × (length buffer ≡ len) × (length frame ≡ len)
        × FnOnceReturnsAtMut F.FnOnce f buffer r.0 frame
        × D.moves device.old (Emitted frame) device.new
        × IfSome r.1 (λ copy. copy.items ≡ frame)) }
    ensures err { OnErr result (D.moves device.old (Denied len) device.new) }
    ensures refusals { D.refused device.new ≡
        (if is_ok result then D.refused device.old else D.refused device.old + 1) }
    ensures capabilities { D.described device.new ≡ D.described device.old }
{
    device.send(
        token,
        len,
        move |frame: &mut [u8]| run_and_copy(f, frame, buffer),
    )
}

impl<D: Device, S: Sink, W: FrameWriter> Tracer<D, S, W> {
    /// A device that writes by `writer`, to `sink`, what goes over `inner`. `alloc` serves its buffers.
    pub fn new(alloc: Global, inner: D, sink: S, writer: W) -> Tracer<D, S, W>
        ensures { result ≡ record { inner = inner; sink = sink; writer = writer; instant = pos 0; lost = 0 } }
    {
        Tracer::with_lost(alloc, inner, sink, writer, 0)
    }

    /// The same, where so many were lost before.
    pub(crate) fn with_lost(
        alloc: Global,
        inner: D,
        sink: S,
        writer: W,
        lost: u64,
    ) -> Tracer<D, S, W>
        ensures { result ≡ record { inner = inner; sink = sink; writer = writer; instant = pos 0; lost = lost } }
    {
        Tracer {
            inner,
            sink,
            writer,
            instant: Instant::ZERO,
            lost,
            copy: Vec::new(alloc),
            line: Vec::new(alloc),
        }
    }

    /// How many frames weren't written, of those that the writer takes.
    pub fn lost(&self) -> u64
        ensures { result ≡ self.now.lost }
    {
        self.lost
    }

    /// The device.
    pub fn get_ref(&self) -> &D
        ensures { result.now ≡ self.now.inner }
    {
        &self.inner
    }

    /// The sink.
    pub fn sink(&self) -> &S
        ensures { result.now ≡ self.now.sink }
    {
        &self.sink
    }

    /// Lends the device to `f`, as a program needs it that hands frames over.
    pub fn update_inner<R, F: FnOnce(&mut D) -> R>(&mut self, f: F) -> R
        requires { FnOnceTakesAtMut F.FnOnce f self.old.inner }
        ensures { (after : D) × FnOnceReturnsAtMut F.FnOnce f self.old.inner result after
            × (self.new ≡ with_inner after self.old) }
    {
        f(&mut self.inner)
    }

    /// Lends the sink to `f`, to read from it.
    pub fn update_sink<R, F: FnOnce(&mut S) -> R>(&mut self, f: F) -> R
        requires { FnOnceTakesAtMut F.FnOnce f self.old.sink }
        ensures { (after : S) × FnOnceReturnsAtMut F.FnOnce f self.old.sink result after
            × (self.new ≡ with_sink after self.old) }
    {
        f(&mut self.sink)
    }

    /// The device, the sink and the writer, out of the wrapper.
    pub fn into_parts(self) -> (D, S, W)
        ensures { result ≡ (self.inner, self.sink, self.writer) }
    {
        let Tracer {
            inner,
            sink,
            writer,
            ..
        } = self;
        (inner, sink, writer)
    }

    /// Writes a frame to the sink. Whether there was memory and room for it.
    fn put(&mut self, direction: Direction, frame: &[u8]) -> bool
        ensures inner { self.new.inner ≡ self.old.inner }
        ensures writer { self.new.writer ≡ self.old.writer }
        ensures instant { self.new.instant ≡ self.old.instant }
        ensures lost { self.new.lost ≡ self.old.lost }
        ensures put { Put result (W.writes self.old.writer self.old.instant direction frame.now)
            (S.taken self.old.sink) (S.taken self.new.sink) }
    {
        self.line.truncate(0);
        match self
            .writer
            .write(self.instant, direction, frame, &mut self.line)
        {
            Ok(()) => self.sink.put(self.line.as_slice()),
            Err(_) => false,
        }
    }

    /// Writes a frame, if it is one that the writer takes.
    fn note(&mut self, direction: Direction, frame: &[u8])
        ensures inner { self.new.inner ≡ self.old.inner }
        ensures writer { self.new.writer ≡ self.old.writer }
        ensures instant { self.new.instant ≡ self.old.instant }
        ensures noted { Noted (W.takes self.old.writer direction)
            (W.writes self.old.writer self.old.instant direction frame.now)
            (S.taken self.old.sink) self.old.lost (S.taken self.new.sink) self.new.lost }
    {
        if !self.writer.takes(direction) {
            return;
        }
        if !self.put(direction, frame) {
            self.lost = self.lost.saturating_add(1);
        }
    }

    /// Writes the copy of a frame that was sent. One of which there is no copy is lost.
    fn note_copy(&mut self, copy: Option<Vec<u8>>)
        ensures inner { self.new.inner ≡ self.old.inner }
        ensures writer { self.new.writer ≡ self.old.writer }
        ensures instant { self.new.instant ≡ self.old.instant }
        ensures noted { (frame : List ℕ) → IfSome copy (λ c. c.items ≡ frame)
            → Noted (W.takes self.old.writer Tx) (W.writes self.old.writer self.old.instant Tx frame)
            (S.taken self.old.sink) self.old.lost (S.taken self.new.sink) self.new.lost }
    {
        let Some(copy) = copy else {
            if self.writer.takes(Direction::Tx) {
                self.lost = self.lost.saturating_add(1);
            }
            return;
        };
        self.note(Direction::Tx, copy.as_slice());
        self.copy = copy;
    }

    /// The buffer for a copy.
    fn take_buffer(&mut self) -> Vec<u8>
        ensures { self.new ≡ self.old }
    {
        let alloc = *self.copy.allocator();
        mem::replace(&mut self.copy, Vec::new(alloc))
    }
}

impl<D: Device, S: Sink, W: FrameWriter> Device for Tracer<D, S, W> {
    type RxToken = D::RxToken;

    type TxToken = D::TxToken;

    ghost use Rattle.base_wrappers.specs.Trace.{Traces};

    ghost moves = { Traces D.moves S.taken W.takes W.writes };

    ghost refused = { λ v. D.refused v.inner };

    ghost described = { λ v. D.described v.inner };

    fn receive(&mut self, timestamp: Instant) -> Option<(D::RxToken, D::TxToken)> {
        self.instant = timestamp;
        let (frame, token) = self.inner.receive(timestamp)?;
        self.note(Direction::Rx, frame.bytes());
        Some((frame, token))
    }

    fn transmit(&mut self, timestamp: Instant) -> Option<D::TxToken> {
        self.instant = timestamp;
        self.inner.transmit(timestamp)
    }

    fn send<R: Drop, F: FnOnce(&mut [u8]) -> R>(
        &mut self,
        token: D::TxToken,
        len: usize,
        f: F,
    ) -> Result<R, SendRefused> {
        let buffer = self.take_buffer();
        let (answer, copy) = send_copied(&mut self.inner, token, len, f, buffer)?;
        self.note_copy(copy);
        Ok(answer)
    }

    fn capabilities(&self) -> DeviceCapabilities {
        self.inner.capabilities()
    }

    fn refusals(&self) -> u64 {
        self.inner.refusals()
    }
}
