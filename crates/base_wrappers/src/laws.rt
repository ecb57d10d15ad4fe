//! What a device in a wrapper still does, and what is written of it.
ghost use Rattle.std.specs.Prelude.{◌≡◌, ℕ, ◌+◌, ◌<◌, ◌^◌, List, ◌++◌, All, map};
ghost use Rattle.std.specs.List.{FoldsTo};
ghost use Rattle.base_device.specs.Device.{Move};
ghost use Rattle.base_wrappers.specs.Trace.{Seen, captured, Written};
ghost use Rattle.base_wrappers.specs.TracerValue.{TracerValue};
ghost use Rattle.base_wrappers.specs.Pcap.{captures, records_of};
ghost use Rattle.base_wrappers.specs.File.{IsRecords, packet_of, HasLength};
ghost use Rattle.base_wrappers.specs.declared.pcap.PcapMode.{PcapMode};

use crate::pcap::PcapWriter;
use crate::sink::Sink;
use crate::tracer::Tracer;
use crate::writer::FrameWriter;
use base_device::Device;

/// Law: whatever a host does with a device that is watched, it does with the device itself.
pub fn watching_is_nothing<D: Device, S: Sink, W: FrameWriter>()
    ensures { (moves : List Move) (old new : TracerValue D S W)
        → FoldsTo ⟦<Tracer<D, S, W> as Device>⟧.moves old moves new
        → FoldsTo D.moves old.inner moves new.inner }
{}

/// Law: what a sink took in the course of such moves is what the writer writes of the frames that went over, in their order, without those
/// that were lost, and these are counted.
pub fn traces_are_exact<D: Device, S: Sink, W: FrameWriter>()
    ensures { (moves : List Move) (old new : TracerValue D S W)
        → FoldsTo ⟦<Tracer<D, S, W> as Device>⟧.moves old moves new
        → Written (W.writes old.writer) (captured (W.takes old.writer) old.instant moves)
        (S.taken old.sink) old.lost (S.taken new.sink) new.lost }
{}

/// Law: a capture of which nothing was lost is exactly the records of all frames that went over, of those that its mode captures.
pub fn captures_are_exact<D: Device, S: Sink>()
    ensures { (moves : List Move) (old new : TracerValue D S PcapMode)
        → FoldsTo ⟦<PcapWriter<D, S> as Device>⟧.moves old moves new
        → new.lost ≡ old.lost
        → old.lost + 1 < 2 ^ 64
        → S.taken new.sink ≡ S.taken old.sink ++ records_of (captured (captures old.writer) old.instant moves) }
{}

/// Law: records read back as the frames, each with its instant. So what the sink of a new capture took, read as a file, is these.
pub fn records_read_back()
    ensures { (frames : List Seen) → All HasLength frames → IsRecords (records_of frames) (map packet_of frames) }
{}
