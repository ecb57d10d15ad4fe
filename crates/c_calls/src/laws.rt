//! What the numbers of sockets are for.
ghost use Rattle.std.specs.Prelude.{◌≡◌, ℕ, ℤ, ◌+◌, ◌^◌, ◌<◌, ◌≤◌, Bool, true, false, List, ◌++◌, length, Some, Ok};
ghost use Rattle.iface_egress.specs.Plan.{plan_to, total_len};
ghost use Rattle.iface_egress.specs.declared.plan.Plan.TheVariants as Way;
ghost use Rattle.ip_wire.specs.HardwareAddress.{HardwareAddress};
ghost use Rattle.ip_wire.specs.Ip.{destination_of};
ghost use Rattle.ip_wire.specs.IpRepr.{IpRepr};
ghost use Rattle.sockets.specs.AnySocket.{as_tcp};
ghost use Rattle.net_base.specs.Ring.{anchored};
ghost use Rattle.sockets.specs.TcpCalls.{send_after};
ghost use Rattle.sockets.specs.TcpStates.{takes_writes};
ghost use Rattle.sockets.specs.TcpValue.{TcpValue};
ghost use Rattle.sockets.specs.declared.socket.Socket.{Socket};
ghost use Rattle.sockets.specs.declared.socket.Socket.TheVariants as Kind;
ghost use Rattle.c_calls.specs.Added.{MakesSocket};
ghost use Rattle.c_calls.specs.Calls.{PollsAt};
ghost use Rattle.c_calls.specs.Controls.{header_len, message_room};
ghost use Rattle.c_calls.specs.Datagrams.{datagram_room, headers_len};
ghost use Rattle.c_calls.specs.Generations.{Event, behind, removals};
ghost use Rattle.c_calls.specs.Host.{StackValue};
ghost use Rattle.c_calls.specs.Lending.{commit_after, reserve_after, room_of};
ghost use Rattle.c_calls.specs.Numbers.{is_current, slot_of, socket_named};
ghost use Rattle.c_calls.specs.RawPackets.{packet_len, packet_room};
ghost use Rattle.c_calls.specs.Slots.{after_at};
ghost use Rattle.c_calls.specs.SlotsValue.{SlotsValue};

/// Law: the number that a call answers for a socket names that socket.
pub fn a_number_names_what_it_was_made_for()
    ensures { (socket : Socket) (s s' : StackValue) (number : ℕ) → MakesSocket socket s (Ok number) s' → socket_named s'.slots number ≡ Some socket }
{}

/// Law: a number names its slot until the socket there is removed, and nothing behind that, whatever else happens, until 2^32 sockets were
/// removed from the slot.
pub fn a_number_is_of_one_socket()
    ensures before { (s : SlotsValue) (number : ℕ) (history : List Event)
        → number < 2 ^ 64
        → is_current s.tags number ≡ true
        → removals (slot_of number) history ≡ 0
        → is_current (behind s history).tags number ≡ true }
    ensures behind { (s : SlotsValue) (number : ℕ) (history : List Event)
        → number < 2 ^ 64
        → is_current s.tags number ≡ true
        → 1 ≤ removals (slot_of number) history
        → removals (slot_of number) history < 2 ^ 32
        → is_current (behind s history).tags number ≡ false }
{}

/// Law: calls of sockets and polls leave each number what it was.
pub fn calls_leave_numbers()
    ensures streams { (after : TcpValue → TcpValue) (s : SlotsValue) (number : ℕ) → (after_at as_tcp Kind.Tcp after s number).tags ≡ s.tags }
    ensures polls { (now : ℤ) (budget : ℕ) (s s' : StackValue) (changed : Bool)
        → PollsAt now budget s (Ok changed) s'
        → s'.slots.tags ≡ s.slots.tags }
{}

/// Law: a datagram that is refused for its length is dropped on every path, whatever frames it carries: with its headers it is longer than a
/// frame, and than what goes in fragments.
pub fn what_is_too_long_never_leaves()
    ensures { (s : StackValue) (to : HardwareAddress) (mtu : ℕ) (busy : Bool) (header : IpRepr) (length : ℕ)
        → datagram_room s (destination_of header) < length
        → total_len header ≡ headers_len (destination_of header) + length
        → mtu ≤ s.host.inner.mtu
        → plan_to to mtu busy header ≡ Way.Drop }
{}

/// Law: so is a message of ICMP, and a packet of a raw socket.
pub fn nor_do_messages_and_packets()
    ensures messages { (s : StackValue) (to : HardwareAddress) (mtu : ℕ) (busy : Bool) (header : IpRepr) (length : ℕ)
        → message_room s (destination_of header) < length
        → total_len header ≡ header_len (destination_of header) + length
        → mtu ≤ s.host.inner.mtu
        → plan_to to mtu busy header ≡ Way.Drop }
    ensures packets { (s : StackValue) (to : HardwareAddress) (mtu : ℕ) (busy : Bool) (header : IpRepr) (bytes : List ℕ)
        → packet_room s < packet_len bytes
        → total_len header ≡ packet_len bytes
        → mtu ≤ s.host.inner.mtu
        → plan_to to mtu busy header ≡ Way.Drop }
{}

/// Law: what is lent to be written isn't queued by it. Of what a program wrote there as many bytes are queued as it commits: a commit is a send
/// of them.
pub fn a_commit_is_a_send()
    ensures reserved { (v : TcpValue) → (reserve_after v).queued.queue ≡ v.queued.queue }
    ensures committed { (v : TcpValue) (bytes rest : List ℕ)
        → takes_writes v.tcb.state ≡ true
        → (anchored v.queued).free ≡ bytes ++ rest
        → length bytes ≤ room_of v
        → commit_after (length bytes) v ≡ send_after v bytes }
{}
