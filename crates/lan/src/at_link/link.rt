//! What the link does: it hands frames to hosts, and cuts sent ones.
ghost use Rattle.std.specs.Prelude.{◌≡◌, ◌+◌, ◌<◌, ◌≤◌, ◌++◌, [], false, Some, length, slice_index_or, IfOk, OnOk, OnErr};
ghost use Rattle.sim_link.specs.Cuts.{ipv4_part, first_fragment, second_fragment};
ghost use Rattle.sim_link.specs.Parts.{tcp_part, damaged};
ghost use Rattle.sim_link.specs.declared.part.Part.{Part};
ghost use Rattle.sim_link.specs.Port.{added, arrived};
ghost use Rattle.lan.specs.Worlds.AtLink.Node.{with_link};
ghost use Rattle.lan.specs.Worlds.AtLink.Origins.{medium_of, damaged_in};
ghost use Rattle.lan.specs.Worlds.AtLink.Refusals.{is_no_slot, is_no_cut};
ghost use Rattle.lan.specs.Worlds.AtLink.Linking.{frame_at, HasSegment, HasFragment};

use crate::at_link::history::Bytes;
use crate::at_link::host::Host;
use net_base::{Device, Medium};
use sim_link::{cut_frame, damage, tcp_part};
use std::alloc::{AllocError, Global};

impl Host {
    pub(crate) fn medium(&self) -> Medium
        ensures { result ≡ medium_of self.now }
    {
        self.port.capabilities().medium
    }

    /// The frame at a place of those that the host sent.
    pub(crate) fn sent_frame(&self, frame: usize) -> &[u8]
        requires { frame < length self.now.link.sent }
        ensures { result.now ≡ frame_at self.now frame }
    {
        self.port.sent()[frame].as_slice()
    }

    /// A frame waits after the others.
    fn push(&mut self, frame: Vec<u8>) -> Result<(), AllocError>
        ensures ok { OnOk result (self.new ≡ with_link self.old (arrived self.old.link frame.items)) }
        ensures err { OnErr result (self.new ≡ self.old) }
    {
        self.port.push(frame)
    }

    /// The link puts two frames after the sent ones.
    fn add_both(&mut self, first: Vec<u8>, second: Vec<u8>) -> Result<(), AllocError>
        ensures ok { OnOk result (self.new ≡ with_link self.old (added (added self.old.link first.items) second.items)) }
        ensures err { OnErr result (self.new ≡ self.old) }
    {
        self.port.add_both(first, second)
    }
}

/// A sent frame, with padding after it.
fn padded(alloc: Global, frame: &[u8], padding: &Bytes) -> Result<Vec<u8>, AllocError>
    ensures { IfOk result (λ copy. copy.items ≡ frame.now ++ padding.now) }
{
    let mut copy = frame.to_vec(alloc)?;
    copy.extend_from_slice(padding.as_slice())?;
    Ok(copy)
}

/// A sent frame with the word at a place of its TCP segment exchanged.
fn damaged(
    alloc: Global,
    medium: Medium,
    frame: &[u8],
    slot: usize,
    word: u16,
) -> Result<Vec<u8>, AllocError>
    requires { HasSegment (tcp_part medium frame.now) slot }
    ensures { IfOk result (λ copy. copy.items ≡ damaged_in (tcp_part medium frame.now) frame.now slot word) }
{
    let Some(part) = tcp_part(medium, frame) else {
        unreachable!();
    };
    let mut copy = frame.to_vec(alloc)?;
    damage(&mut copy, part, slot, word);
    Ok(copy)
}

/// Hands a sent frame to the other host, with padding after it.
pub fn deliver(
    alloc: Global,
    from: &Host,
    to: &mut Host,
    frame: usize,
    padding: &Bytes,
) -> Result<(), AllocError>
    requires { frame < length from.now.link.sent }
    ensures ok { OnOk result (to.new ≡ with_link to.old (arrived to.old.link (frame_at from.now frame ++ padding.now))) }
    ensures err { OnErr result (to.new ≡ to.old) }
{
    to.push(padded(alloc, from.sent_frame(frame), padding)?)
}

/// Hands a sent frame to the other host with the word at a place of its TCP segment exchanged, and padding after it.
pub fn deliver_damaged(
    alloc: Global,
    from: &Host,
    to: &mut Host,
    frame: usize,
    slot: usize,
    word: u16,
    padding: &Bytes,
) -> Result<(), AllocError>
    requires frame { frame < length from.now.link.sent }
    requires segment { HasSegment (tcp_part (medium_of from.now) (frame_at from.now frame)) slot }
    ensures ok { OnOk result (to.new ≡ with_link to.old (arrived to.old.link
        (damaged_in (tcp_part (medium_of from.now) (frame_at from.now frame)) (frame_at from.now frame) slot word ++ padding.now))) }
    ensures err { OnErr result (to.new ≡ to.old) }
{
    let mut copy = damaged(alloc, from.medium(), from.sent_frame(frame), slot, word)?;
    copy.extend_from_slice(padding.as_slice())?;
    to.push(copy)
}

/// Hands bytes to a host.
pub fn deliver_noise(alloc: Global, to: &mut Host, bytes: &Bytes) -> Result<(), AllocError>
    ensures ok { OnOk result (to.new ≡ with_link to.old (arrived to.old.link bytes.now)) }
    ensures err { OnErr result (to.new ≡ to.old) }
{
    to.push(bytes.as_slice().to_vec(alloc)?)
}

/// Cuts a sent frame in two; the fragments join the host's sent frames.
pub fn cut(alloc: Global, host: &mut Host, frame: usize, at: usize) -> Result<(), AllocError>
    requires frame { frame < length host.old.link.sent }
    requires fragment { HasFragment (ipv4_part (medium_of host.old) (frame_at host.old frame)) at }
    ensures ok { OnOk result (host.new ≡ with_link host.old (added
        (added host.old.link (first_fragment (medium_of host.old) (frame_at host.old frame) at))
        (second_fragment (medium_of host.old) (frame_at host.old frame) at))) }
    ensures err { OnErr result (host.new ≡ host.old) }
{
    let (first, second) = cut_frame(alloc, host.medium(), host.sent_frame(frame), at)?;
    host.add_both(first, second)
}
