//! Each call of a user, by its answer, and the packet of an offer.

ghost use Rattle.std.specs.Prelude.{◌≡◌, ◌≢◌, ◌++◌, ◌^◌, ◌<◌, ℕ, Bool, true, List, length, take, Option, Ok, Err};
ghost use Rattle.ip_wire.specs.IpEndpoint.{IpEndpoint};
ghost use Rattle.ip_wire.specs.IpListenEndpoint.{IpListenEndpoint};
ghost use Rattle.ip_wire.specs.TcpTimestampGenerator.{TcpTimestampGenerator};
ghost use Rattle.tcp_block.specs.Context.{ContextValue};
ghost use Rattle.tcp_theory.specs.Side.Opening.{NotYet, Passive, Active};
ghost use Rattle.tcp_block.specs.declared.tcb.CongestionControl.{CongestionControl};
ghost use Rattle.tcp_block.specs.RecvError.TheVariants as Recv;
ghost use Rattle.tcp_block.specs.Calls.{listen_after, connect_after, send_answer, send_after, recv_answer};
ghost use Rattle.tcp_block.specs.Offers.{offered_packet};
ghost use Rattle.tcp_block.specs.Settings.{set_timeout, set_keep_alive, set_ack_delay, set_nagle_enabled, set_hop_limit, set_tsval_generator, pause_synack};
ghost use Rattle.tcp_block.specs.Settings.{set_retries, set_min_rto, set_fine_timer, set_congestion_control};
ghost use Rattle.tcp_block.specs.Value.{TcpValue, unoffered};
ghost use Rattle.tcp_refinement.specs.History.{listen_opens, connect_opens, opened_by, bytes_taken, with_written, with_offer, with_packet};
ghost use Rattle.tcp_refinement.specs.Promises.{KeepsAlone};
ghost use Rattle.tcp_refinement.specs.Tie.{Past, Keeps, core_of};

/// A listen and a connect that open the socket, for the first time; each other one leaves it. A send, of the bytes that it took.
#[tactic(auto, using(crate::proofs::AnsweredLaws::keeps_listen, crate::proofs::AnsweredLaws::keeps_connect, crate::proofs::AnsweredLaws::keeps_send))]
pub fn answered_calls_keep_the_invariant()
    ensures listen { (v w : TcpValue) (p q : Past) (endpoint : IpListenEndpoint) → Keeps v p w q
        → (listen_opens v endpoint ≡ true → p.opening ≡ NotYet)
        → Keeps (listen_after v endpoint) (opened_by Passive (listen_opens v endpoint) p) w q }
    ensures connect { (cx : ContextValue) (v w : TcpValue) (p q : Past) (remote : IpEndpoint) (local : IpListenEndpoint) → Keeps v p w q
        → (connect_opens cx v remote local ≡ true → p.opening ≡ NotYet)
        → Keeps (connect_after cx v remote local) (opened_by Active (connect_opens cx v remote local) p) w q }
    ensures send { (v w : TcpValue) (p q : Past) (bytes : List ℕ) → Keeps v p w q
        → length (p.written ++ bytes_taken (send_answer v (length bytes)) bytes) < 2 ^ 29
        → Keeps (send_after v bytes) (with_written p (bytes_taken (send_answer v (length bytes)) bytes)) w q }
{}

/// Where a read is answered by the end of the stream, the peer was closed, and all that it wrote was read. A socket without a
/// peer is never answered so.
#[tactic(auto, using(crate::proofs::AnsweredLaws::read_to_the_end, crate::proofs::AnsweredLaws::alone_reads_on))]
pub fn the_end_of_a_stream_is_complete()
    ensures finished { (v w : TcpValue) (p q : Past) (room : ℕ) → Keeps v p w q → recv_answer v room ≡ Err Recv.Finished
        → (q.closed ≡ true) × (p.read ≡ q.written) }
    ensures alone { (v : TcpValue) (p : Past) (room : ℕ) → KeepsAlone v p → recv_answer v room ≢ Err Recv.Finished }
{}

/// No setting changes what the tie reads, nor does it that an offer is settled as not sent.
pub fn settings_change_no_stream()
    ensures timeout { (v : TcpValue) (duration : Option ℕ) → core_of (set_timeout v duration) ≡ core_of v }
    ensures keep_alive { (v : TcpValue) (interval : Option ℕ) → core_of (set_keep_alive v interval) ≡ core_of v }
    ensures ack_delay { (v : TcpValue) (duration : Option ℕ) → core_of (set_ack_delay v duration) ≡ core_of v }
    ensures nagle { (v : TcpValue) (enabled : Bool) → core_of (set_nagle_enabled v enabled) ≡ core_of v }
    ensures hop_limit { (v : TcpValue) (limit : Option ℕ) → core_of (set_hop_limit v limit) ≡ core_of v }
    ensures timestamps { (v : TcpValue) (generator : Option TcpTimestampGenerator)
        → core_of (set_tsval_generator v generator) ≡ core_of v }
    ensures paused { (v : TcpValue) (paused : Bool) → core_of (pause_synack v paused) ≡ core_of v }
    ensures retries { (v : TcpValue) (limit : Option ℕ) → core_of (set_retries v limit) ≡ core_of v }
    ensures min_rto { (v : TcpValue) (duration : ℕ) → core_of (set_min_rto v duration) ≡ core_of v }
    ensures fine_timer { (v : TcpValue) (fine : Bool) → core_of (set_fine_timer v fine) ≡ core_of v }
    ensures congestion { (v : TcpValue) (control : CongestionControl) → core_of (set_congestion_control v control) ≡ core_of v }
    ensures unoffered { (v : TcpValue) → core_of (unoffered v) ≡ core_of v }
{}

/// The packet of the open offer is the segment that counts as sent where it is settled so.
#[tactic(auto, using(crate::proofs::AnsweredLaws::packet_counts))]
pub fn the_offered_packet_counts_as_sent()
    ensures packet { (v : TcpValue) (p : Past) → with_packet p (offered_packet v) ≡ with_offer p v.offered v.queued.queue }
{}
