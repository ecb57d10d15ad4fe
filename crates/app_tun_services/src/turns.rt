//! The run of a host over a reader and a writer.
ghost use Rattle.std.specs.Prelude.{◌≡◌, ◌≢◌, ℕ, List, IfOk, IfErr, IfSome, Err};
ghost use Rattle.std.specs.Option.{option_map};
ghost use Rattle.std.specs.Io.KnownBytes.{Appends};
ghost use Rattle.net_base.specs.Time.{IsMoment};
ghost use Rattle.app_tun_services.specs.Link.Turn.{Next, Refuses};
ghost use Rattle.app_tun_services.specs.declared.link.turn.TurnError.{TurnError};
ghost use Rattle.app_tun_services.specs.Settings.{settings_in};
ghost use Rattle.app_tun_services.specs.Turns.{state_of, IsSetUp, Begun, Arrives, BeginsNone, ArrivesNot, IsServed};

use crate::error::ServeError;
use crate::host::Host;
use crate::link::read_turn;
use crate::settings::Settings;
use crate::watch::{Unwatched, Watch};
use net_base::Instant;
use std::alloc::Global;
use std::io::{Read, Write};

/// The longest packet that a turn brings, in bytes: the most that its length can say. The link drops one that is longer than its own.
pub const LONGEST: usize = 65_535;

/// Takes turns until the reader ends. The first one brings the settings; each other one brings a packet, or none, and is answered
/// with the packets that the host sends and the instant at which it wants its next turn.
pub fn serve<R: Read, W: Write>(
    alloc: Global,
    reader: &mut R,
    writer: &mut W,
) -> Result<(), ServeError>
    ensures served { result ≢ Err ServeError.Writer → (output : List ℕ)
        × IsServed (R.remaining reader.old) output result
        × Appends (W.contents writer.old) (W.contents writer.new) output }
{
    serve_watched(alloc, reader, writer, &mut Unwatched {})
}

/// The same, where the link is watched.
#[tactic(auto, using(crate::proofs::Running::running_none, crate::proofs::Running::at_end, crate::proofs::Running::counted_out))]
pub fn serve_watched<R: Read, W: Write, V: Watch>(
    alloc: Global,
    reader: &mut R,
    writer: &mut W,
    watch: &mut V,
) -> Result<(), ServeError>
    ensures served { result ≢ Err ServeError.Writer → (output : List ℕ)
        × IsServed (R.remaining reader.old) output result
        × Appends (W.contents writer.old) (W.contents writer.new) output }
{
    let mut host = None;
    let mut last = Instant::ZERO;
    for _ in 0..u64::MAX {
        let mut packet = Vec::new(alloc);
        let Some(now) = next_turn(reader, &mut packet, last)? else {
            return Ok(());
        };
        let (mut current, packet) = arrive(alloc, host, packet, now)?;
        current.answer_turn(writer, watch, packet, now)?;
        host = Some(current);
        last = now;
    }
    Err(ServeError::Turns)
}

/// Reads the next turn's packet, and its instant.
fn next_turn<R: Read>(
    reader: &mut R,
    packet: &mut Vec<u8>,
    last: Instant,
) -> Result<Option<Instant>, ServeError>
    requires { IsMoment last }
    ensures turn { IfOk result (λ instant. IfSome (R.remaining reader.old) (λ bytes. Next LONGEST last bytes instant packet.new.items (R.remaining reader.new))) }
    ensures instant { IfOk result (λ instant. IfSome instant IsMoment) }
    ensures refused { IfErr result (λ error. (why : TurnError) × (error ≡ ServeError.Turn why) ×
        IfSome (R.remaining reader.old) (λ bytes. Refuses LONGEST last bytes why)) }
{
    match read_turn(reader, packet, LONGEST, last) {
        Ok(instant) => Ok(instant),
        Err(error) => Err(ServeError::Turn(error)),
    }
}

/// A host of the settings in these bytes.
fn begun(alloc: Global, bytes: &[u8], now: Instant) -> Result<Host, ServeError>
    requires { IsMoment now }
    ensures begun { IfOk result (λ host. Begun (settings_in bytes.now) now (state_of host)) }
    ensures set_up { IfOk result IsSetUp }
    ensures refused { IfErr result (BeginsNone (settings_in bytes.now)) }
{
    match Settings::read(bytes) {
        Some(settings) => Host::new(alloc, &settings, now),
        None => Err(ServeError::Settings),
    }
}

/// The host that takes a turn, and the packet that it takes.
fn arrive(
    alloc: Global,
    host: Option<Host>,
    packet: Vec<u8>,
    now: Instant,
) -> Result<(Host, Vec<u8>), ServeError>
    requires instant { IsMoment now }
    requires set_up { IfSome host IsSetUp }
    ensures arrives { IfOk result (λ r. Arrives (option_map state_of host) (record { instant = now; packet = packet.items }) (state_of r.0) r.1.items) }
    ensures set_up { IfOk result (λ r. IsSetUp r.0) }
    ensures refused { IfErr result (ArrivesNot (option_map state_of host) packet.items) }
{
    match host {
        Some(host) => Ok((host, packet)),
        None => Ok((begun(alloc, packet.as_slice(), now)?, Vec::new(alloc))),
    }
}
