//! A wire with two devices around it that watch its frames: one writes a capture, the other lines of text.
use crate::wire::Wire;
use anyhow::Result;
use base_wrappers::{PcapMode, PcapWriter, RingSink, Tracer};
use net_base::{Device, ManagedSlice};
use std::alloc::{AllocError, Global};
use wire_trace::TraceLines;

/// What a host at the wire has for a device. It sends and receives as over the wire alone.
pub type Tap = Tracer<PcapWriter<Wire, RingSink>, RingSink, TraceLines>;

/// A place for so many bytes, which wait there until they are read. What finds no room is lost.
fn sink(alloc: Global, room: usize) -> Result<RingSink> {
    Ok(RingSink::new(ManagedSlice::Fixed(vec![in alloc; 0; room]?)))
}

/// An end of a wire, with room for so many bytes of a capture, and as many of lines.
pub fn tap(alloc: Global, room: usize) -> Result<Tap> {
    let wire = Wire::new(alloc);
    let lines = TraceLines::new(alloc, wire.capabilities().medium);
    let capture = PcapWriter::new(alloc, wire, sink(alloc, room)?, PcapMode::Both);
    Ok(Tracer::new(alloc, capture, sink(alloc, room)?, lines))
}

/// Moves bytes that wait behind those of a buffer, as many as there is memory for.
fn read(sink: &mut RingSink, bytes: &mut Vec<u8>) -> Result<(), AllocError> {
    let mut part = [0; 512];
    for _ in 0..u64::MAX {
        let count = sink.read(&mut part);
        if count == 0 {
            break;
        }
        bytes.extend_from_slice(&part[..count])?;
    }
    Ok(())
}

/// The lines that were written since the last call.
pub fn lines(alloc: Global, tap: &mut Tap) -> Result<Vec<u8>> {
    let mut bytes = Vec::new(alloc);
    tap.update_sink(|sink| read(sink, &mut bytes))?;
    Ok(bytes)
}

/// The same of the capture.
pub fn records(alloc: Global, tap: &mut Tap) -> Result<Vec<u8>> {
    let mut bytes = Vec::new(alloc);
    tap.update_inner(|capture| capture.update_sink(|sink| read(sink, &mut bytes)))?;
    Ok(bytes)
}

/// Whether a frame came that wasn't received.
pub fn has_frame(tap: &Tap) -> bool {
    tap.get_ref().get_ref().has_frame()
}

/// Carries the frames that are to go to the other end.
pub fn carry(from: &mut Tap, to: &mut Tap) -> Result<(), AllocError> {
    for _ in 0..u64::MAX {
        let Some(frame) = from.update_inner(|capture| capture.update_inner(Wire::leave)) else {
            break;
        };
        to.update_inner(|capture| capture.update_inner(|wire| wire.come(frame)))?;
    }
    Ok(())
}
