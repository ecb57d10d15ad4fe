//! One host on any device, whatever is at the other end: what a poll does to each TCP and UDP socket of its interface, what calls do to a
//! TCP socket (`calls`), and what every run of that socket by its rules leaves (`beside`).
//!
//! A law of `interface`'s polls, and of `Interface::poll` itself. `specs/PeerHost/Streams.antt` and `Datagrams.antt` have the sentences.

pub mod calls;
pub mod conforming_peer;
pub mod excluded;

ghost use Rattle.std.specs.Prelude.{◌≡◌, ℕ, ℤ, Bool, List};
ghost use Rattle.net_base.specs.Time.{IsMoment};
ghost use Rattle.tcp_block.specs.Value.{TcpValue};
ghost use Rattle.socket_datagram.specs.Udp.{UdpValue};
ghost use Rattle.interface.specs.OwnWork.{OwnWork};
ghost use Rattle.interface.specs.Polls.{Polls, is_change};
ghost use Rattle.interface.specs.State.{State, state};
ghost use Rattle.iface_egress.specs.Set.{slots};
ghost use Rattle.proof_stack.specs.PeerHost.Moved.{MovedTo};
ghost use Rattle.lan.specs.Worlds.PollSteps.{Reaches};
ghost use Rattle.proof_stack.specs.PeerHost.Streams.{IsTcpAt, StreamProceeds};
ghost use Rattle.proof_stack.specs.PeerHost.Datagrams.{IsUdpAt, DatagramsProceed};
ghost use Rattle.proof_stack.specs.PeerHost.Runs.{Act, ActsAll, IsSafeRun, IsSafeWhereTaken};

use interface::{Interface, PollResult, SocketSet};
use net_base::{Device, Instant};
use sockets::Socket;

/// Law: a poll leads each TCP socket on by offers, and by segments that came in frames and are for the socket; so its stream is safe alongside
/// each conforming peer that sent all of them. Of a UDP socket it keeps each datagram that waits, and adds such as came in frames with these
/// bytes, ports and addresses. It does nothing else to either.
pub fn polls_proceed<D: Device>()
    ensures streams { (t : ℤ) (budget : ℕ) (s s' : State D) (changed : Bool) (i : ℕ) (v : TcpValue)
        → IsTcpAt s.slots i v → Polls D.moves t budget s changed s' → StreamProceeds D.moves t s i v s' }
    ensures datagrams { (t : ℤ) (budget : ℕ) (s s' : State D) (changed : Bool) (i : ℕ) (v : UdpValue)
        → IsUdpAt s.slots i v → Polls D.moves t budget s changed s' → DatagramsProceed D.moves t s i v s' }
{}

/// Law: wherever a poll has come, and where it ends, nothing but moves of its device led the device there; and so what the host does of its own
/// before it, which touches no socket. So what each move keeps of a device holds all through a poll.
pub fn devices_only_move<D: Device>()
    ensures on_the_way { (t : ℤ) (s s' : State D) → Reaches D.moves t s s' → MovedTo D.moves s.device s'.device }
    ensures at_the_end { (t : ℤ) (budget : ℕ) (s s' : State D) (changed : Bool)
        → Polls D.moves t budget s changed s' → MovedTo D.moves s.device s'.device }
    ensures before_it { (t : ℤ) (s s' : State D) → OwnWork D.moves t s s' → (s'.slots ≡ s.slots) × MovedTo D.moves s.device s'.device }
{}

/// Law: after every run of a host, with its polls, the calls of one of its TCP sockets, and whatever else happens at it: what that socket saw
/// is those calls, offers, and segments that came in frames; and alongside each conforming peer that sent all that came, what was read and waits
/// begins the peer's stream, a FIN that was taken means that it ended and all was taken in, what left the send queue was acknowledged, and the
/// socket is a conforming peer, too.
pub fn hosts_are_safe_beside_an_honest_peer<D: Device>()
    ensures safe { (acts : List Act) (s s' : State D) (i : ℕ) (v : TcpValue)
        → ActsAll D.moves i acts s s' → IsTcpAt s.slots i v → IsSafeRun D.moves i acts s v s' }
{}

/// Law: the same alongside each peer that is honest of what the socket takes, at that moment. Where the socket is a listener as the run begins,
/// what it was before doesn't matter: each client in turn has the promise.
pub fn hosts_are_safe_where_it_counts<D: Device>()
    ensures safe { (acts : List Act) (s s' : State D) (i : ℕ) (v : TcpValue)
        → ActsAll D.moves i acts s s' → IsTcpAt s.slots i v → IsSafeWhereTaken D.moves i acts s v s' }
{}

/// Polls an interface, which leads each socket on so, from where the host has done what it does of its own.
pub fn poll<D: Device>(
    interface: &mut Interface,
    timestamp: Instant,
    device: &mut D,
    sockets: &mut SocketSet<Socket>,
    budget: u16,
) -> PollResult
    requires { IsMoment timestamp }
    ensures { (begun : State D) × OwnWork D.moves timestamp (state device.old interface.old (slots sockets.old)) begun
        × (begun.slots ≡ slots sockets.old)
        × Polls D.moves timestamp budget begun (is_change result) (state device.new interface.new (slots sockets.new))
        × ((i : ℕ) (v : TcpValue) → IsTcpAt (slots sockets.old) i v
        → StreamProceeds D.moves timestamp begun i v (state device.new interface.new (slots sockets.new)))
        × ((i : ℕ) (v : UdpValue) → IsUdpAt (slots sockets.old) i v
        → DatagramsProceed D.moves timestamp begun i v (state device.new interface.new (slots sockets.new))) }
{
    interface.poll(timestamp, device, sockets, budget)
}
