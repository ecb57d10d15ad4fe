//! One TCP socket, by its rules, alongside a conforming peer, whatever runs there. `specs/PeerHost/SocketRun.antt` says which end of the connection
//! a socket is and what a run is, `TakenRun.antt` what is taken of a segment.

ghost use Rattle.std.specs.Prelude.{◌≡◌, ◌⊎◌, ℕ, true, List, None, Err};
ghost use Rattle.tcp_theory.specs.Alone.{AreResets};
ghost use Rattle.tcp_theory.specs.Segment.{Segment};
ghost use Rattle.ip_wire.specs.TcpHeader.{TcpHeader};
ghost use Rattle.tcp_block.specs.Calls.{recv_answer};
ghost use Rattle.tcp_block.specs.Context.{ContextValue};
ghost use Rattle.tcp_block.specs.Controls.{is_syn};
ghost use Rattle.tcp_block.specs.Opening.{acks_syn};
ghost use Rattle.tcp_block.specs.RecvError.TheVariants as Recv;
ghost use Rattle.tcp_block.specs.State.TheVariants as In;
ghost use Rattle.tcp_block.specs.Value.{TcpValue};
ghost use Rattle.tcp_refinement.specs.Promises.{IsInitial};
ghost use Rattle.tcp_refinement.specs.Tie.{Past};
ghost use Rattle.tcp_peer.specs.Peer.{End, IsEnd};
ghost use Rattle.proof_stack.specs.PeerHost.SocketRun.{Event, IsRun, run, start, IsSafeBeside};
ghost use Rattle.proof_stack.specs.PeerHost.TakenRun.{is_taken, IsTakenRun, IsListener, anew};
ghost use Rattle.proof_stack.specs.PeerHost.TakenRun as taken;

/// After each run of a socket that wasn't opened, with its user's calls, its offers, and whatever a conforming peer sent, in any order, late, again
/// or never: what was read and waits begins the peer's stream, a FIN that was taken means that it ended and all was taken in, what left the
/// send queue was acknowledged, and the socket is a conforming peer, too.
pub fn sockets_are_safe_beside_an_honest_peer()
    ensures safe { (peer : End) (v : TcpValue) (resets : List Segment) (events : List Event) → IsEnd peer → IsInitial v → AreResets resets
        → IsRun peer (start v resets) events
        → IsSafeBeside peer (run (start v resets) events).here.socket (run (start v resets) events).here.past
        (run (start v resets) events).came }
{}

/// The same where the peer is honest of what the socket takes, at that moment. What the rules drop, challenge or answer by a reset may say
/// anything, as what is sent for an old connection.
pub fn honest_of_what_is_taken_is_enough()
    ensures safe { (peer : End) (v : TcpValue) (resets : List Segment) (events : List Event) → IsEnd peer → IsInitial v → AreResets resets
        → IsTakenRun peer (start v resets) events
        → IsSafeBeside peer (taken.run (start v resets) events).here.socket (taken.run (start v resets) events).here.past
        (taken.run (start v resets) events).came }
{}

/// What is taken (RFC 9293, 3.10.7; RFC 5961, 4): in SYN-SENT a SYN alone or one that acknowledges ISS + 1, in SYN-RECEIVED an acknowledgement
/// of ISS + 1, no SYN but in LISTEN and SYN-SENT.
pub fn what_is_taken()
    ensures syn_sent { (cx : ContextValue) (v : TcpValue) (header : TcpHeader) (size : ℕ) → v.tcb.state ≡ In.SynSent
        → is_taken cx v header size ≡ true
        → (is_syn header.control ≡ true) × ((header.ack_number ≡ None) ⊎ (acks_syn v.tcb.sender.una header.ack_number ≡ true)) }
    ensures syn_received { (cx : ContextValue) (v : TcpValue) (header : TcpHeader) (size : ℕ) → v.tcb.state ≡ In.SynReceived
        → is_taken cx v header size ≡ true → acks_syn v.tcb.sender.una header.ack_number ≡ true }
    ensures syn { (cx : ContextValue) (v : TcpValue) (header : TcpHeader) (size : ℕ) → is_syn header.control ≡ true
        → is_taken cx v header size ≡ true → (v.tcb.state ≡ In.Listen) ⊎ (v.tcb.state ≡ In.SynSent) }
{}

/// A listener begins anew, whatever it was before: alongside each next client, as if it had just listened. One that took a client's SYN and
/// fell back is such a listener again, so a scanned port serves whoever comes next.
pub fn a_listener_begins_anew()
    ensures safe { (peer : End) (v : TcpValue) (resets : List Segment) (events : List Event) → IsEnd peer → IsListener v → AreResets resets
        → IsTakenRun peer (anew v resets) events
        → IsSafeBeside peer (taken.run (anew v resets) events).here.socket (taken.run (anew v resets) events).here.past
        (taken.run (anew v resets) events).came }
    ensures fell_back { (peer : End) (v : TcpValue) (resets : List Segment) (events : List Event) → IsEnd peer → IsInitial v → AreResets resets
        → IsTakenRun peer (start v resets) events → (taken.run (start v resets) events).here.socket.tcb.state ≡ In.Listen
        → IsListener (taken.run (start v resets) events).here.socket }
    ensures fell_back_again { (peer : End) (v : TcpValue) (resets : List Segment) (events : List Event) → IsEnd peer → IsListener v
        → AreResets resets → IsTakenRun peer (anew v resets) events → (taken.run (anew v resets) events).here.socket.tcb.state ≡ In.Listen
        → IsListener (taken.run (anew v resets) events).here.socket }
{}

/// And where a read is answered by the end of the stream, the peer's stream ends there, and all of it was read.
pub fn the_end_of_the_peers_stream_is_complete()
    ensures finished { (peer : End) (v : TcpValue) (p : Past) (came : List Segment) (room : ℕ) → IsSafeBeside peer v p came
        → recv_answer v room ≡ Err Recv.Finished → (peer.ends ≡ true) × (p.read ≡ peer.stream) }
{}
