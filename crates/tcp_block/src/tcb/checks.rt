//! Whether a segment is acceptable, from SYN-RECEIVED on.
ghost use Rattle.std.specs.Prelude.{◌≡◌, ◌≤◌, ◌<◌, ◌^◌};
ghost use Rattle.tcp_block.specs.Checks.{opening_check, synchronized_check, acknowledgement_check, is_in_window, lies_before, falls_back};
ghost use Rattle.tcp_block.specs.Arrival.{takes_reset, challenges_syn};
ghost use Rattle.tcp_block.specs.Checked.{check_of};

use crate::Tcb;
use ip_wire::{SeqNumber, TcpHeader};
use tcp_state::controls::is_syn;
use tcp_state::offsets::{distance_after, distance_before, overlaps_window};

/// What becomes of a segment.
#[derive(Clone, Copy, PartialEq, Eq)]
pub enum Verdict {
    /// It is taken, and SND.UNA rises by so much.
    Passes(u32),
    /// It is taken but for its acknowledgement, which is old.
    Old,
    Drops,
    /// An acknowledgement answers it.
    Draws,
    /// A reset answers it.
    Resets,
}

/// In SYN-RECEIVED only the SYN may be acknowledged.
fn opening_check(by: u32) -> Verdict
    ensures { check_of result ≡ opening_check by }
{
    if by == 1 {
        Verdict::Passes(1)
    } else {
        Verdict::Resets
    }
}

impl Tcb {
    /// Of an acknowledgement so far past SND.UNA or before it: what was never sent can't be
    /// acknowledged. One that doesn't reach past ISS doesn't count. An older one is ignored, and
    /// answered where no window of the remote reached so far.
    fn check_synchronized(&self, past: u32, before: u32) -> Verdict
        ensures { check_of result ≡ synchronized_check self.now past before }
    {
        if self.sender.snd_max < past {
            Verdict::Draws
        } else if past == 0 && self.sender.past_iss <= before {
            Verdict::Drops
        } else if before == 0 {
            Verdict::Passes(past)
        } else if self.peer.largest_window < before {
            Verdict::Draws
        } else {
            Verdict::Old
        }
    }

    /// What becomes of a segment by its acknowledgement.
    pub fn check_acknowledgement(&self, ack_number: Option<SeqNumber>) -> Verdict
        ensures { check_of result ≡ acknowledgement_check self.now ack_number }
    {
        let Some(number) = ack_number else {
            return Verdict::Drops;
        };
        let una = self.sender.una;
        if self.state.is_answering() {
            opening_check(una.distance(number))
        } else {
            self.check_synchronized(distance_after(una, number), distance_before(una, number))
        }
    }

    /// Whether a segment lies wholly before RCV.NXT, by no more than a receive buffer of this capacity
    /// holds, a SYN and a FIN.
    pub fn lies_before(&self, capacity: usize, header: &TcpHeader, size: usize) -> bool
        requires capacity { capacity ≤ 2 ^ 30 }
        requires size { size < 2 ^ 63 }
        ensures { result ≡ lies_before self.now capacity header.now size }
    {
        let before = distance_before(self.receiver.next, header.seq_number) as usize;
        before != 0 && size + header.control.len() <= before && before <= capacity + 2
    }

    /// Whether a reset takes the connection down: it counts at RCV.NXT alone, and not in TIME-WAIT.
    pub fn takes_reset(&self, header: &TcpHeader) -> bool
        ensures { result ≡ takes_reset self.now header.now }
    {
        !self.state.is_time_wait() && self.receiver.next == header.seq_number
    }

    /// Whether a SYN elicits an acknowledgement, whatever its numbers.
    pub fn challenges_syn(&self, header: &TcpHeader) -> bool
        ensures { result ≡ challenges_syn self.now header.now }
    {
        is_syn(header.control) && !self.state.is_answering()
    }

    /// Whether a segment with so many bytes meets the receive window of so much space.
    pub fn is_in_window(&self, space: usize, header: &TcpHeader, size: usize) -> bool
        requires { size < 2 ^ 63 }
        ensures { result ≡ is_in_window self.now space header.now size }
    {
        let before = distance_before(self.receiver.next, header.seq_number);
        let past = distance_after(self.receiver.next, header.seq_number);
        overlaps_window(before, past, size + header.control.len(), space)
    }

    /// Whether it was opened by `listen`, and its connection isn't there yet.
    pub fn falls_back(&self) -> bool
        ensures { result ≡ falls_back self.now }
    {
        self.state.is_answering() && self.names.listen.port != 0
    }
}
