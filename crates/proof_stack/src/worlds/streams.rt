//! Connections.
ghost use Rattle.std.specs.Prelude.{◌≡◌, ℕ};
ghost use Rattle.lan.specs.declared.at_link.history.answer.Answer.TheVariants as To;
ghost use Rattle.lan.specs.declared.at_link.history.answer.Fault.TheVariants as Fault;
ghost use Rattle.lan.specs.declared.at_link.history.event.Side.TheVariants.{A, B};
ghost use Rattle.lan.specs.Worlds.AtLink.PeerSides.{ArePartners};
ghost use Rattle.tcp_block.specs.State.TheVariants as In;
ghost use Rattle.lan.specs.Worlds.AtLink.Moves.{IsRun, run};
ghost use Rattle.lan.specs.Worlds.AtLink.PacketsSafe.{IsInitialNet};
ghost use Rattle.proof_stack.specs.Worlds.Candidates as Candidates;
ghost use Rattle.proof_stack.specs.Worlds.Connection.{telling, told, ending, half_closed, closing, closed, whole};
ghost use Rattle.proof_stack.specs.Worlds.Fallback as Fallback;
ghost use Rattle.proof_stack.specs.Worlds.Hosts.{no_names, unbound, text, last_answer};
ghost use Rattle.proof_stack.specs.Worlds.Lone as Lone;
ghost use Rattle.proof_stack.specs.Worlds.Opening.{opening, opened};
ghost use Rattle.proof_stack.specs.Worlds.Played.{start, steps_of};
ghost use Rattle.proof_stack.specs.Worlds.Streams.{tcp_at};

/// A socket that connects where nobody listens is refused by the other host's reset: it has no peer, and reads no end.
#[tactic(auto, using(crate::proofs::Runs::LoneRun::is_run, crate::proofs::Runs::LoneRun::are_initial, crate::proofs::Runs::LoneRun::alone))]
pub fn a_lone_socket_is_refused()
    ensures initial { IsInitialNet unbound Lone.hosts }
    ensures run { IsRun no_names Lone.hosts Lone.steps }
    ensures alone { (j : ℕ) → ¬ (ArePartners (run Lone.hosts Lone.steps).history A 0 j) }
    ensures state { (tcp_at (run Lone.hosts Lone.steps) A 0).tcb.state ≡ In.Closed }
    ensures answer { last_answer (run Lone.hosts Lone.steps) ≡ To.Error Fault.InvalidState }
{}

/// Of two listeners, the one whose port is named is the peer, and takes the SYN.
#[tactic(auto, using(crate::proofs::Runs::CandidatesRun::candidates))]
pub fn ports_tell_the_peer_side()
    ensures initial { IsInitialNet unbound Candidates.hosts }
    ensures run { IsRun no_names Candidates.hosts Candidates.steps }
    ensures second { ArePartners (run Candidates.hosts Candidates.steps).history A 0 1 }
    ensures not_first { ¬ (ArePartners (run Candidates.hosts Candidates.steps).history A 0 0) }
    ensures takes { (tcp_at (run Candidates.hosts Candidates.steps) B 1).tcb.state ≡ In.SynReceived }
    ensures listens { (tcp_at (run Candidates.hosts Candidates.steps) B 0).tcb.state ≡ In.Listen }
{}

/// A listener that took a SYN falls back at a reset, and takes the old SYN again.
#[tactic(auto, using(crate::proofs::Runs::FallbackRun::fell_run, crate::proofs::Runs::FallbackRun::is_run, crate::proofs::Runs::FallbackRun::are_initial))]
pub fn a_listener_falls_back_and_takes_the_old_syn()
    ensures initial { IsInitialNet unbound Fallback.hosts }
    ensures falls { IsRun no_names Fallback.hosts Fallback.fell }
    ensures listens { (tcp_at (run Fallback.hosts Fallback.fell) B 0).tcb.state ≡ In.Listen }
    ensures run { IsRun no_names Fallback.hosts Fallback.steps }
    ensures takes { (tcp_at (run Fallback.hosts Fallback.steps) B 0).tcb.state ≡ In.SynReceived }
{}

/// Three segments open a connection.
#[tactic(auto, using(crate::proofs::Runs::OpeningRun::opening_run, crate::proofs::Runs::OpeningRun::are_initial, crate::proofs::Runs::OpeningRun::leads))]
pub fn three_segments_open_a_connection()
    ensures initial { IsInitialNet unbound start.net }
    ensures run { IsRun no_names start.net (steps_of start opening) }
    ensures end { run start.net (steps_of start opening) ≡ opened.net }
    ensures caller { (tcp_at opened.net A 0).tcb.state ≡ In.Established }
    ensures listener { (tcp_at opened.net B 0).tcb.state ≡ In.Established }
{}

/// Three bytes go over it: they come twice, and are read once.
#[tactic(auto, using(crate::proofs::Runs::ConnectionRun::telling_run, crate::proofs::Runs::ConnectionRun::telling_leads, crate::proofs::Runs::ConnectionEnd::reads))]
pub fn three_bytes_are_read_once()
    ensures run { IsRun no_names opened.net (steps_of opened telling) }
    ensures end { run opened.net (steps_of opened telling) ≡ told.net }
    ensures read { last_answer told.net ≡ To.Bytes text }
{}

/// The side that wrote them closes, and the other's next read is told the end of the stream.
#[tactic(auto, using(crate::proofs::Runs::ConnectionRun::ending_run, crate::proofs::Runs::ConnectionRun::ending_leads, crate::proofs::Runs::ConnectionEnd::finishes))]
pub fn a_close_is_read_as_the_end()
    ensures run { IsRun no_names told.net (steps_of told ending) }
    ensures end { run told.net (steps_of told ending) ≡ half_closed.net }
    ensures read { last_answer half_closed.net ≡ To.Error Fault.Finished }
{}

/// The other closes too: the side that was first waits in TIME-WAIT, and the connection of the other is over.
#[tactic(auto, using(crate::proofs::Runs::ConnectionEnd::closed_for_good))]
pub fn both_sides_close()
    ensures run { IsRun no_names half_closed.net (steps_of half_closed closing) }
    ensures end { run half_closed.net (steps_of half_closed closing) ≡ closed.net }
    ensures caller { (tcp_at closed.net A 0).tcb.state ≡ In.TimeWait }
    ensures listener { (tcp_at closed.net B 0).tcb.state ≡ In.Closed }
{}

/// All of it, from two new sockets on, is one run, and the two are peers.
#[tactic(auto, using(crate::proofs::Runs::ConnectionRun::whole_run, crate::proofs::Runs::ConnectionRun::whole_leads, crate::proofs::Runs::ConnectionEnd::are_peer_sides))]
pub fn a_connection_from_open_to_close()
    ensures run { IsRun no_names start.net (steps_of start whole) }
    ensures end { run start.net (steps_of start whole) ≡ closed.net }
    ensures peer_sides { ArePartners closed.net.history A 0 0 }
{}
