//! The program on a TUN device alongside whoever sends to it: what the polls of a turn do to each TCP and UDP socket of its host. A turn is
//! what the contract of `app_tun_services::serve` is made of.
ghost use Rattle.std.specs.Prelude.{◌≡◌, ℕ, ℤ, List, Option};
ghost use Rattle.ip_wire.specs.IpRepr.{IpRepr};
ghost use Rattle.interface.specs.State.{state};
ghost use Rattle.socket_datagram.specs.Udp.{UdpValue};
ghost use Rattle.sockets.specs.TcpValue.{TcpValue};
ghost use Rattle.app_tun_services.specs.Backlogs.{HostState};
ghost use Rattle.app_tun_services.specs.Turns.{TakesTurn};
ghost use Rattle.app_tun_services.specs.Link.Drain.{DrainMove};
ghost use Rattle.proof_stack.specs.PeerHost.ReceivedPackets.{WasBrought};
ghost use Rattle.proof_stack.specs.PeerHost.Streams.{IsTcpAt, StreamProceeds};
ghost use Rattle.proof_stack.specs.PeerHost.Datagrams.{IsUdpAt, DatagramsProceed};

/// Law: in a turn the packet comes, the host is polled, its services do what can be done, and it is polled again. What the host does of its own
/// before a poll touches no socket. Each poll leads each TCP
/// socket on by offers, and by segments that came in frames and are for it, so its stream is safe alongside each conforming peer that sent all of
/// them; and of the datagrams that wait at a UDP socket it loses and changes none, and adds such as came in frames.
pub fn turns_proceed()
    ensures streams_in { (old new : HostState) (instant : ℤ) (packet : List ℕ) (next : Option ℤ) (turn : TakesTurn old instant packet next new)
        (i : ℕ) (v : TcpValue) → IsTcpAt old.net.slots i v → StreamProceeds DrainMove instant turn.begun i v turn.come }
    ensures streams_out { (old new : HostState) (instant : ℤ) (packet : List ℕ) (next : Option ℤ) (turn : TakesTurn old instant packet next new)
        (i : ℕ) (v : TcpValue) → IsTcpAt turn.done.sockets i v
        → StreamProceeds DrainMove instant turn.begun_again i v turn.gone }
    ensures datagrams_in { (old new : HostState) (instant : ℤ) (packet : List ℕ) (next : Option ℤ) (turn : TakesTurn old instant packet next new)
        (i : ℕ) (v : UdpValue) → IsUdpAt old.net.slots i v → DatagramsProceed DrainMove instant turn.begun i v turn.come }
    ensures datagrams_out { (old new : HostState) (instant : ℤ) (packet : List ℕ) (next : Option ℤ) (turn : TakesTurn old instant packet next new)
        (i : ℕ) (v : UdpValue) → IsUdpAt turn.done.sockets i v
        → DatagramsProceed DrainMove instant turn.begun_again i v turn.gone }
{}

/// Law: a frame that either poll of a turn takes is the packet of that turn. So what came in frames came in the packets that were read.
pub fn frames_are_the_packet()
    ensures in_the_first { (old new : HostState) (instant : ℤ) (packet : List ℕ) (next : Option ℤ) (turn : TakesTurn old instant packet next new)
        (ip : IpRepr) (payload : List ℕ) (b : WasBrought DrainMove instant turn.begun ip payload) → b.frame ≡ packet }
    ensures in_the_second { (old new : HostState) (instant : ℤ) (packet : List ℕ) (next : Option ℤ) (turn : TakesTurn old instant packet next new)
        (ip : IpRepr) (payload : List ℕ)
        (b : WasBrought DrainMove instant turn.begun_again ip payload) → b.frame ≡ packet }
{}
