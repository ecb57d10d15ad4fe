//! A device that writes a capture of the frames that go over the device in it.
ghost use Rattle.std.specs.Prelude.{◌≡◌, ◌++◌, pos, OnOk, true};
ghost use Rattle.std.specs.Fn.{FnOnceReturnsAtMut, FnOnceTakesAtMut};
ghost use Rattle.base_wrappers.specs.Trace.{Kept};
ghost use Rattle.base_wrappers.specs.TracerValue.{with_inner, with_sink};
ghost use Rattle.base_wrappers.specs.Pcap.{le32, link_type, file_header, stamp, record_of};

use crate::sink::Sink;
use crate::tracer::Tracer;
use crate::writer::{Direction, FrameWriter};
use base_device::{Device, DeviceCapabilities, Medium, SendRefused};
use base_time::Instant;
use std::alloc::{AllocError, Global};
use std::marker::Model;

/// Which frames are captured.
#[derive(Clone, Copy, Debug, PartialEq, Eq)]
pub enum PcapMode {
    /// Those that come and those that are sent.
    Both,
    /// Those that come.
    RxOnly,
    /// Those that are sent.
    TxOnly,
}

/// An instant's microseconds, 0 before the start.
fn stamp(instant: Instant) -> u64
    ensures { result ≡ stamp instant }
{
    let micros = instant.total_micros();
    if micros < 0 { 0 } else { micros as u64 }
}

/// Puts the 32 lowest bits of a number behind the bytes.
fn put_le32(bytes: &mut Vec<u8>, n: u64) -> Result<(), AllocError>
    ensures { OnOk result (bytes.new.items ≡ bytes.old.items ++ le32 n) }
{
    bytes.extend_from_slice(&[
        (n % 256) as u8,
        (n / 256 % 256) as u8,
        (n / 65_536 % 256) as u8,
        (n / 16_777_216 % 256) as u8,
    ])
}

/// Puts a frame's record into the buffer in place of what it held.
#[tactic(auto, unfolding(crate::specs::Pcap::record_of))]
fn write_record(buffer: &mut Vec<u8>, instant: Instant, frame: &[u8]) -> Result<(), AllocError>
    ensures { OnOk result (buffer.new.items ≡ record_of instant frame.now) }
{
    let micros = stamp(instant);
    buffer.truncate(0);
    put_le32(buffer, micros / 1_000_000)?;
    put_le32(buffer, micros % 1_000_000)?;
    put_le32(buffer, frame.len() as u64)?;
    put_le32(buffer, frame.len() as u64)?;
    buffer.extend_from_slice(frame)?;
    Ok(())
}

/// Frames are written as records of a capture.
impl FrameWriter for PcapMode {
    ghost use Rattle.base_wrappers.specs.Pcap.{captures, IsRecord};

    ghost takes = { captures };

    ghost writes = { IsRecord };

    fn takes(&self, direction: Direction) -> bool {
        match (*self, direction) {
            (PcapMode::Both, _) => true,
            (PcapMode::RxOnly, Direction::Rx) => true,
            (PcapMode::RxOnly, Direction::Tx) => false,
            (PcapMode::TxOnly, Direction::Rx) => false,
            (PcapMode::TxOnly, Direction::Tx) => true,
        }
    }

    fn write(
        &self,
        instant: Instant,
        _direction: Direction,
        frame: &[u8],
        line: &mut Vec<u8>,
    ) -> Result<(), AllocError> {
        write_record(line, instant, frame)
    }
}

/// The number of a medium.
fn link_type(medium: Medium) -> u8
    ensures { result ≡ link_type medium }
{
    match medium {
        Medium::Ethernet => 1,
        Medium::Ip => 101,
    }
}

/// What stands before the records.
fn file_header(medium: Medium) -> [u8; 24]
    ensures { result ≡ file_header medium }
{
    let link = link_type(medium);
    [
        0xd4, 0xc3, 0xb2, 0xa1, 2, 0, 4, 0, 0, 0, 0, 0, 0, 0, 0, 0, 0x0d, 0, 1, 0, link, 0, 0, 0,
    ]
}

/// Gives a file's header to the sink. How many headers were lost by that.
fn put_header<S: Sink>(sink: &mut S, medium: Medium) -> u64
    ensures { Kept (λ bytes. bytes ≡ file_header medium) (S.taken sink.old) 0 (S.taken sink.new) result }
{
    let header = file_header(medium);
    if sink.put(&header) {
        return 0;
    }
    1
}

/// A device that writes a capture of the frames that go over the device in it, in the form of libpcap. A header or a record that
/// isn't written is counted.
#[derive(Debug, Drop)]
pub struct PcapWriter<D, S> {
    tracer: Tracer<D, S, PcapMode>,
}

impl<D, S> Model for PcapWriter<D, S> {
    ghost use Rattle.base_wrappers.specs.TracerValue.{TracerValue, tracer_code};
    ghost use Rattle.base_wrappers.specs.declared.pcap.PcapMode.{PcapMode};
    ghost use Rattle.base_wrappers.specs.Pcap.{pcap_mode_code};

    ghost Value = { TracerValue D S PcapMode };

    ghost coded = { tracer_code D.code S.code pcap_mode_code };

    ghost view = { λ w. w.tracer };
}

impl<D: Device, S: Sink> PcapWriter<D, S> {
    /// A capture of what goes over the device, from the file's header on. `alloc` serves its buffers.
    pub fn new(alloc: Global, lower: D, mut sink: S, mode: PcapMode) -> PcapWriter<D, S>
        ensures inner { result.inner ≡ lower }
        ensures mode { result.writer ≡ mode }
        ensures instant { result.instant ≡ pos 0 }
        ensures header { Kept (λ bytes. bytes ≡ file_header (D.described lower).medium) (S.taken sink) 0 (S.taken result.sink) result.lost }
    {
        let lost = put_header(&mut sink, lower.capabilities().medium);
        PcapWriter {
            tracer: Tracer::with_lost(alloc, lower, sink, mode, lost),
        }
    }

    /// How many records weren't written.
    pub fn lost(&self) -> u64
        ensures { result ≡ self.now.lost }
    {
        self.tracer.lost()
    }

    /// The device.
    pub fn get_ref(&self) -> &D
        ensures { result.now ≡ self.now.inner }
    {
        self.tracer.get_ref()
    }

    /// The sink.
    pub fn sink(&self) -> &S
        ensures { result.now ≡ self.now.sink }
    {
        self.tracer.sink()
    }

    /// Lends the device to `f`, as a program needs it that hands frames over.
    pub fn update_inner<R, F: FnOnce(&mut D) -> R>(&mut self, f: F) -> R
        requires { FnOnceTakesAtMut F.FnOnce f self.old.inner }
        ensures { (after : D) × FnOnceReturnsAtMut F.FnOnce f self.old.inner result after
            × (self.new ≡ with_inner after self.old) }
    {
        self.tracer.update_inner(f)
    }

    /// Lends the sink to `f`, to read from it.
    pub fn update_sink<R, F: FnOnce(&mut S) -> R>(&mut self, f: F) -> R
        requires { FnOnceTakesAtMut F.FnOnce f self.old.sink }
        ensures { (after : S) × FnOnceReturnsAtMut F.FnOnce f self.old.sink result after
            × (self.new ≡ with_sink after self.old) }
    {
        self.tracer.update_sink(f)
    }

    /// The device and the sink, out of the wrapper.
    pub fn into_parts(self) -> (D, S)
        ensures { result ≡ (self.inner, self.sink) }
    {
        let PcapWriter { tracer } = self;
        let (inner, sink, _mode) = tracer.into_parts();
        (inner, sink)
    }
}

impl<D: Device, S: Sink> Device for PcapWriter<D, S> {
    type RxToken = D::RxToken;

    type TxToken = D::TxToken;

    ghost use Rattle.base_wrappers.specs.Trace.{Traces};
    ghost use Rattle.base_wrappers.specs.Pcap.{captures, IsRecord};

    ghost moves = { Traces D.moves S.taken captures IsRecord };

    ghost refused = { λ w. D.refused w.inner };

    ghost described = { λ w. D.described w.inner };

    fn receive(&mut self, timestamp: Instant) -> Option<(D::RxToken, D::TxToken)> {
        self.tracer.receive(timestamp)
    }

    fn transmit(&mut self, timestamp: Instant) -> Option<D::TxToken> {
        self.tracer.transmit(timestamp)
    }

    fn send<R: Drop, F: FnOnce(&mut [u8]) -> R>(
        &mut self,
        token: D::TxToken,
        len: usize,
        f: F,
    ) -> Result<R, SendRefused> {
        self.tracer.send(token, len, f)
    }

    fn capabilities(&self) -> DeviceCapabilities {
        self.tracer.capabilities()
    }

    fn refusals(&self) -> u64 {
        self.tracer.refusals()
    }
}
