//! What a host does over a device that is watched.
ghost use Rattle.std.specs.Prelude.{ℕ, ℤ, Bool};
ghost use Rattle.base_wrappers.specs.TracerValue.{TracerValue};
ghost use Rattle.base_wrappers.specs.declared.pcap.PcapMode.{PcapMode};
ghost use Rattle.interface.specs.Polls.{Polls, HostPolls};
ghost use Rattle.interface.specs.State.{State};
ghost use Rattle.proof_wrappers.specs.Unwatched.{unwatched};

use base_wrappers::{FrameWriter, PcapWriter, Sink, Tracer};
use net_base::Device;

/// Law: a poll over a device that is watched is a poll over the device itself, with what the host does of its own and without. So what is said of polls over it holds.
pub fn polls_of_less<D: Device, S: Sink, W: FrameWriter>()
    ensures tracer { (t : ℤ) (budget : ℕ) (s s' : State (TracerValue D S W)) (changed : Bool)
        → Polls ⟦<Tracer<D, S, W> as Device>⟧.moves t budget s changed s'
        → Polls D.moves t budget (unwatched s) changed (unwatched s') }
    ensures capture { (t : ℤ) (budget : ℕ) (s s' : State (TracerValue D S PcapMode)) (changed : Bool)
        → Polls ⟦<PcapWriter<D, S> as Device>⟧.moves t budget s changed s'
        → Polls D.moves t budget (unwatched s) changed (unwatched s') }
    ensures host_tracer { (t : ℤ) (budget : ℕ) (s s' : State (TracerValue D S W)) (changed : Bool)
        → HostPolls ⟦<Tracer<D, S, W> as Device>⟧.moves t budget s changed s'
        → HostPolls D.moves t budget (unwatched s) changed (unwatched s') }
    ensures host_capture { (t : ℤ) (budget : ℕ) (s s' : State (TracerValue D S PcapMode)) (changed : Bool)
        → HostPolls ⟦<PcapWriter<D, S> as Device>⟧.moves t budget s changed s'
        → HostPolls D.moves t budget (unwatched s) changed (unwatched s') }
{}
