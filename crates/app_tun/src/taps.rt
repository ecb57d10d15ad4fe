//! What is seen of the frames on the host's link: `--trace` writes a line of text for each on standard error, and `--pcap FILE` a capture for
//! Wireshark.
ghost use Rattle.std.specs.Prelude.{◌≡◌};
ghost use Rattle.net_base.specs.Time.{IsMoment};
ghost use Rattle.interface.specs.Polls.{HostPolls, is_change};
ghost use Rattle.interface.specs.Set.{slots};
ghost use Rattle.interface.specs.State.{state};
ghost use Rattle.app_tun_services.specs.Link.Drain.{DrainMove};

use anyhow::{Result, bail};
use app_tun_services::Watch;
use app_tun_services::link::Drain;
use base_wrappers::{PcapMode, PcapWriter, Tracer, VecSink};
use interface::{Interface, PollResult, SocketSet};
use net_base::{Device, Instant};
use sockets::Socket;
use std::alloc::Global;
use std::io::Write;
use std::rt::Files;
use std::{fs, mem, str};
use wire_trace::TraceLines;

/// How many bytes a capture has before its records.
const HEADER: usize = 24;

/// The device with two around it that watch its frames.
type Tap = Tracer<PcapWriter<Drain, VecSink>, VecSink, TraceLines>;

/// Puts both around a device.
fn tap(alloc: Global, drain: Drain) -> Tap
    ensures { result.inner.inner ≡ drain }
{
    let lines = TraceLines::new(alloc, drain.capabilities().medium);
    let capture = PcapWriter::new(alloc, drain, VecSink::new(alloc), PcapMode::Both);
    Tracer::new(alloc, capture, VecSink::new(alloc), lines)
}

/// The device again, the capture and the lines.
fn parts(tap: Tap) -> (Drain, VecSink, VecSink)
    ensures { result.0 ≡ tap.inner.inner }
{
    let (capture, lines, _) = tap.into_parts();
    let (drain, records) = capture.into_parts();
    (drain, records, lines)
}

/// A poll over what watches the device is one over the device.
fn poll_through(
    interface: &mut Interface,
    tap: &mut Tap,
    sockets: &mut SocketSet<Socket>,
    now: Instant,
    budget: u16,
) -> PollResult
    requires { IsMoment now }
    ensures { HostPolls DrainMove now budget (state tap.old.inner.inner interface.old (slots sockets.old)) (is_change result)
        (state tap.new.inner.inner interface.new (slots sockets.new)) }
{
    interface.poll(now, tap, sockets, budget)
}

/// What is to be seen, and where it is written.
#[derive(Drop)]
pub struct Taps<'a, R: Files + Eprint + AllocGlobal> {
    rt: &'a R,
    traces: bool,
    capture: Option<R::File>,
    is_begun: bool,
}

impl<'a, R: Files + Eprint + AllocGlobal> Taps<'a, R> {
    /// What the first arguments ask for, and how many these are. The file is made anew.
    pub fn read(rt: &'a R, arguments: &[String]) -> Result<(Taps<'a, R>, usize)> {
        let mut taps = Taps {
            rt,
            traces: false,
            capture: None,
            is_begun: false,
        };
        let mut names_file = false;
        for (at, word) in arguments.iter().enumerate() {
            match word.as_str() {
                name if names_file => {
                    taps.capture = Some(fs::create(rt, name)?);
                    names_file = false;
                }
                "--trace" => taps.traces = true,
                "--pcap" => names_file = true,
                _ => return Ok((taps, at)),
            }
        }
        if names_file {
            bail!("--pcap FILE");
        }
        Ok((taps, arguments.len()))
    }

    /// Whether anything is to be seen.
    pub fn is_any(&self) -> bool {
        self.traces || self.capture.is_some()
    }

    /// Writes what was seen. What can't be written is left out, and the host goes on.
    fn show(&mut self, lines: &[u8], records: &[u8]) {
        if self.traces
            && let Ok(text) = str::from_utf8(lines)
        {
            let _ = eprint!(self.rt; "{text}");
        }
        self.write(records);
    }

    /// Writes a part of the capture, which begins with a header as each does: a file has one.
    fn write(&mut self, records: &[u8]) {
        let header = if self.is_begun { HEADER } else { 0 };
        if let Some(file) = &mut self.capture {
            let _ = file.write_all(&records[header.min(records.len())..]);
            self.is_begun = true;
        }
    }
}

impl<'a, R: Files + Eprint + AllocGlobal> Watch for Taps<'a, R> {
    fn poll(
        &mut self,
        interface: &mut Interface,
        drain: &mut Drain,
        sockets: &mut SocketSet<Socket>,
        now: Instant,
        budget: u16,
    ) -> PollResult {
        let alloc = self.rt.alloc();
        let spare = Drain::new(alloc, drain.capabilities());
        let mut tap = tap(alloc, mem::replace(drain, spare));
        let result = poll_through(interface, &mut tap, sockets, now, budget);
        let (device, records, lines) = parts(tap);
        *drain = device;
        self.show(lines.bytes(), records.bytes());
        result
    }
}
