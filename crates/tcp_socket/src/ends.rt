//! Why a connection ended. It stands beside the value of the socket, since no rule of TCP looks at it.
ghost use Rattle.std.specs.Prelude.{◌≡◌, ◌&&◌, if◌then◌else◌, IfSome, true};
ghost use Rattle.tcp_block.specs.States.{is_closed, is_opening};
ghost use Rattle.tcp_block.specs.Calls.{close_after};
ghost use Rattle.tcp_socket.specs.Socket.{has_sent};

use crate::Socket;
use ip_wire::{IpEndpoint, SeqNumber, TcpHeader};
use tcp_block::{EndEvent, EndReason, State, is_rst};

/// What a segment is to the connection that it ends.
pub(crate) fn end_event(header: &TcpHeader) -> EndEvent {
    if is_rst(header.control) {
        EndEvent::Reset
    } else {
        EndEvent::Segment
    }
}

impl Socket {
    /// Why the last connection ended, or the last attempt to open one: `EndReason::after` of the event that did. None while the socket is open,
    /// and before it was.
    pub fn end_reason(&self) -> Option<EndReason>
        ensures { IfSome result (λ _. is_closed self.now.tcb.state ≡ true) }
    {
        match self.end_reason {
            Some(reason) if self.tcb.state.is_closed() => Some(reason),
            _ => None,
        }
    }

    /// Notes why the connection is over, if an event ended it.
    pub(crate) fn note_end(&mut self, event: EndEvent, before: State)
        ensures { self.new ≡ self.old }
    {
        let is_syn_unacked = self.tcb.sender.syn_unacked;
        let reason = EndReason::after(event, is_syn_unacked, before, self.tcb.state);
        if reason.is_some() {
            self.end_reason = reason;
        }
    }

    /// An ICMP message that the remote can't be reached quotes the segment at this number. It ends an attempt whose SYN that is, as `close`
    /// does, and nothing else (RFC 5461; RFC 1122, section 4.2.3.9).
    pub fn on_unreachable(&mut self, local: &IpEndpoint, remote: &IpEndpoint, number: SeqNumber)
        ensures { self.new ≡ (if is_opening self.old.tcb.state && has_sent self.old.tcb local.now remote.now number then close_after self.old
            else self.old) }
    {
        if self.tcb.state.is_opening() && self.has_sent(local, remote, number) {
            let before = self.tcb.state;
            self.close_unnoted();
            self.note_end(EndEvent::Unreachable, before);
        }
    }
}
