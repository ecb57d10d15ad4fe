//! Texts of scripts, as `common` has them: headers, and events with what they write.

/// Hosts on bare IP with one UDP socket each.
pub const IP: &str = "\
world ip 1500
socket A udp 1 64 1 64
socket B udp 1 64 1 64
start
> ok
";

/// The same on Ethernet.
pub const ETHERNET: &str = "\
world eth 1514
socket A udp 1 64 1 64
socket B udp 1 64 1 64
start
> ok
";

/// Hosts on Ethernet with one TCP socket each.
pub const STREAMS: &str = "\
world eth 1514
socket A tcp 64 64
socket B tcp 64 64
start
> ok
";

/// Hosts on bare IP, A with two TCP sockets and B with one.
pub const TWO_STREAMS: &str = "\
world ip 1500
socket A tcp 64 64
socket A tcp 64 64
socket B tcp 64 64
start
> ok
";

/// Hosts with one socket of each kind: UDP, ICMP, raw, TCP.
pub const EACH: &str = "\
world ip 1500
socket A udp 1 64 1 64
socket A icmp 1 64 1 64
socket A raw 4 89 1 64 1 64
socket A tcp 64 64
socket B udp 1 64 1 64
socket B icmp 1 64 1 64
socket B raw any any 4 256 4 256
socket B tcp 64 64
start
> ok
";

/// A datagram waits in the socket of A.
pub const QUEUED: &str = "\
bind A 0 48896
> ok
bind B 0 53
> ok
sendto A 0 192.168.1.2:53 aa0000ff
> ok
";

/// It goes to B, which reads it.
pub const CARRIED: &str = "\
poll A 0 8
> changed
> sent A 0 45000020c24d00004011352cc0a80101c0a80102bf000035000c124daa0000ff
deliver A 0 -
> ok
poll B 0 8
> changed
recvfrom B 0 64
> from 192.168.1.1:48896 aa0000ff
";

/// A datagram is cut, and read once both fragments came.
pub const CUT_DATAGRAM: &str = "\
bind A 0 48896
> ok
bind B 0 53
> ok
sendto A 0 192.168.1.2:53 aa0000ff
> ok
poll A 0 8
> changed
> sent A 0 45000020c24d00004011352cc0a80101c0a80102bf000035000c124daa0000ff
cut A 0 8
> ok
> sent A 1 4500001cc24d200040111530c0a80101c0a80102bf000035000c124d
> sent A 2 45000018c24d000140113533c0a80101c0a80102aa0000ff
deliver A 2 -
> ok
poll B 0 8
> changed
recvfrom B 0 64
> error Exhausted
deliver A 1 -
> ok
poll B 0 8
> changed
recvfrom B 0 64
> from 192.168.1.1:48896 aa0000ff
recvfrom B 0 64
> error Exhausted
";

/// B listens at port 80, A connects: A's frames are a request, a SYN and an ACK, B's an answer and a SYN.
pub const OPENING: &str = "\
listen B 0 80
> ok
connect A 0 192.168.1.2:80 49500
> ok
poll A 0 8
> none
> sent A 0 ffffffffffff02000000000108060001080006040001020000000001c0a80101ffffffffffffc0a80102
deliver A 0 -
> ok
poll B 0 8
> changed
> sent B 0 02000000000102000000000208060001080006040002020000000002c0a80102020000000001c0a80101
deliver B 0 -
> ok
poll A 0 8
> changed
> sent A 1 020000000002020000000001080045000034c24d000040063523c0a80101c0a80102c15c0050dc9072b20000000080020040de930000020405b40303000402000000
deliver A 1 -
> ok
poll B 0 8
> changed
> sent B 1 020000000001020000000002080045000034e14500004006162bc0a80102c0a801010050c15cc9498c12dc9072b38012004089260000020405b40303000402000000
deliver B 1 -
> ok
poll A 0 8
> changed
> sent A 2 020000000002020000000001080045000028c24e00004006352ec0a80101c0a80102c15c0050dc9072b3c9498c1350100040c5f20000
deliver A 2 -
> ok
poll B 0 8
> changed
";

/// Both are connected, and nothing has come.
pub const OPENED: &str = "\
state A 0
> state ESTABLISHED
state B 0
> state ESTABLISHED
recv B 0 64
> data -
";

/// A sends abc.
pub const ABC: &str = "\
send A 0 616263
> ok 3
poll A 0 8
> changed
> sent A 3 02000000000202000000000108004500002bc24f00004006352ac0a80101c0a80102c15c0050dc9072b3c9498c135018004001850000616263
";

/// B reads abc, and acknowledges it when its delay is over.
pub const ACKNOWLEDGED: &str = "\
deliver A 3 -
> ok
poll B 0 8
> changed
recv B 0 64
> data 616263
pollat B 0
> at 10000
poll B 10000 8
> changed
> sent B 2 020000000001020000000002080045000028e146000040061636c0a80102c0a801010050c15cc9498c13dc9072b650100040c5ef0000
deliver B 2 -
> ok
poll A 10000 8
> changed
pollat A 10000
> never
pollat B 10000
> never
";
