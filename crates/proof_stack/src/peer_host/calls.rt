//! The calls of a TCP socket alongside a conforming peer, whatever runs there. Each function is a call of `tcp_socket::Socket` whose contract says
//! which event of `specs/PeerHost/Beside.antt` it is: so wherever calls led a socket that wasn't opened, the next one leads on, and what the
//! socket took in begins the stream of each conforming peer that sent all that came. `specs/PeerHost/Goes.antt` has the sentence.
ghost use Rattle.std.specs.Prelude.{◌≡◌, ◌++◌, Bool, List, [], length, take, drop, Err, IfOk, OnErr};
ghost use Rattle.ip_wire.specs.IpEndpoint.{IpEndpoint};
ghost use Rattle.ip_wire.specs.IpListenEndpoint.{IpListenEndpoint};
ghost use Rattle.ip_wire.specs.Tcp.{header_of};
ghost use Rattle.tcp_block.specs.Calls.{listen_answer, listen_after, connect_answer, connect_after, send_answer, recv_answer, close_after, abort_after};
ghost use Rattle.tcp_block.specs.Arrival.{arrives};
ghost use Rattle.tcp_block.specs.Offers.{offer_of};
ghost use Rattle.tcp_block.specs.RecvError.TheVariants as Recv;
ghost use Rattle.tcp_block.specs.Value.{TcpValue, unoffered};
ghost use Rattle.tcp_socket.specs.Dispatch.{TakesOffered, Hands};
ghost use Rattle.tcp_socket.specs.Replies.{replies_in};
ghost use Rattle.tcp_refinement.specs.Run.Event.{Reads, Closes, Aborts, Offers};
ghost use Rattle.proof_stack.specs.PeerHost.SocketRun.{Event};
ghost use Rattle.proof_stack.specs.PeerHost.SocketRun.Event.{Comes, Listens, Connects, Sends, Does};
ghost use Rattle.proof_stack.specs.PeerHost.ReachedSocket.{after, Proceed, Proceeds, EndIsTrue, EndIsTrueWhereTaken};

use ip_wire::{IpEndpoint, IpListenEndpoint, IpRepr, TcpRepr};
use socket_context::{Context, Packet};
use tcp_socket::{ConnectError, ListenError, RecvError, SendError, Socket};

/// Law: whatever event happens at a socket leads on from wherever events led it.
pub fn events_proceed()
    ensures one { (v : TcpValue) (event : Event) → Proceeds v event (after v event) }
    ensures more { (u v w : TcpValue) (events later : List Event) → Proceed u events v → Proceed v later w → Proceed u (events ++ later) w }
    ensures none { (v : TcpValue) → Proceed v [] v }
{}

fn listen_to(socket: &mut Socket, endpoint: IpListenEndpoint) -> Result<(), ListenError>
    ensures answer { result ≡ listen_answer socket.old endpoint }
    ensures after { socket.new ≡ listen_after socket.old endpoint }
{
    socket.listen(endpoint)
}

fn connect_to<C: Context>(
    socket: &mut Socket,
    cx: &mut C,
    remote: IpEndpoint,
    local: IpListenEndpoint,
) -> Result<(), ConnectError>
    ensures answer { result ≡ connect_answer (C.context cx.old) socket.old remote local }
    ensures after { socket.new ≡ connect_after (C.context cx.old) socket.old remote local }
{
    socket.connect(cx, remote, local)
}

/// Opens the socket for a connection that a remote opens.
pub fn listen(socket: &mut Socket, endpoint: IpListenEndpoint) -> Result<(), ListenError>
    ensures answer { result ≡ listen_answer socket.old endpoint }
    ensures proceeds { Proceeds socket.old (Listens endpoint) socket.new }
{
    listen_to(socket, endpoint)
}

/// Opens a connection to a remote.
pub fn connect<C: Context>(
    socket: &mut Socket,
    cx: &mut C,
    remote: IpEndpoint,
    local: IpListenEndpoint,
) -> Result<(), ConnectError>
    ensures answer { result ≡ connect_answer (C.context cx.old) socket.old remote local }
    ensures proceeds { Proceeds socket.old (Connects (C.context cx.old) remote local) socket.new }
{
    connect_to(socket, cx, remote, local)
}

/// Queues as many of the bytes as there is room for, and returns how many.
pub fn send_slice(socket: &mut Socket, bytes: &[u8]) -> Result<usize, SendError>
    ensures answer { result ≡ send_answer socket.old (length bytes.now) }
    ensures proceeds { Proceeds socket.old (Sends bytes.now) socket.new }
{
    socket.send_slice(bytes)
}

/// Reads waiting bytes into the slice, and returns how many.
pub fn recv_slice(socket: &mut Socket, bytes: &mut [u8]) -> Result<usize, RecvError>
    ensures answer { result ≡ recv_answer socket.old (length bytes.old) }
    ensures read { IfOk result (λ count. Proceeds socket.old (Does (Reads count)) socket.new
        × (bytes.new ≡ take count socket.old.received.waiting ++ drop count bytes.old)) }
    ensures refused { OnErr result ((socket.new ≡ unoffered socket.old) × (bytes.new ≡ bytes.old)) }
    ensures end { result ≡ Err Recv.Finished → EndIsTrue socket.old }
    ensures end_where_taken { result ≡ Err Recv.Finished → EndIsTrueWhereTaken socket.old }
{
    socket.recv_slice(bytes)
}

/// Closes the egress path.
pub fn close(socket: &mut Socket)
    ensures after { socket.new ≡ close_after socket.old }
    ensures proceeds { Proceeds socket.old (Does Closes) socket.new }
{
    socket.close();
}

/// Ends the connection.
pub fn abort(socket: &mut Socket)
    ensures after { socket.new ≡ abort_after socket.old }
    ensures proceeds { Proceeds socket.old (Does Aborts) socket.new }
{
    socket.abort();
}

/// A segment for the socket comes. The answer is the segment that is to be sent back at once.
pub fn process<C: Context>(
    socket: &mut Socket,
    cx: &mut C,
    ip_repr: &IpRepr,
    repr: &TcpRepr<'_>,
) -> Option<(IpRepr, TcpRepr<'static>)>
    ensures answer { replies_in result ≡
        (arrives (C.context cx.old) socket.old ip_repr.now (header_of repr.now) repr.now.payload.now).answer }
    ensures proceeds { Proceeds socket.old (Comes (C.context cx.old) ip_repr.now (header_of repr.now) repr.now.payload.now) socket.new }
{
    socket.process(cx, ip_repr, repr)
}

/// Offers a segment and hands its packet to `emit`. Where that answers `Ok` the segment counts as sent.
pub fn dispatch<C: Context, E, F: FnOnce(Packet<'_>) -> Result<(), E>>(
    socket: &mut Socket,
    cx: &C,
    emit: F,
) -> Result<(), E>
where
    F: Drop,
    requires { TakesOffered F.FnOnce emit (offer_of (C.context cx.now) socket.old).socket }
    ensures hands { Hands F.FnOnce emit (offer_of (C.context cx.now) socket.old).socket result socket.new }
    ensures proceeds { (sent : Bool) × Proceeds socket.old (Does (Offers (C.context cx.now) sent)) socket.new }
{
    socket.dispatch(cx, emit)
}
