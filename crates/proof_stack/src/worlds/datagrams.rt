//! A datagram between bound ports.
ghost use Rattle.std.specs.Prelude.{◌≡◌};
ghost use Rattle.lan.specs.declared.at_link.history.answer.Answer.TheVariants as To;
ghost use Rattle.lan.specs.declared.at_link.history.event.Side.TheVariants.{A, B};
ghost use Rattle.lan.specs.Worlds.AtLink.Reads.{ReadsWereAccepted};
ghost use Rattle.lan.specs.Worlds.AtLink.Moves.{IsRun, run};
ghost use Rattle.lan.specs.Worlds.AtLink.PacketsSafe.{IsInitialNet};
ghost use Rattle.proof_stack.specs.Worlds.Datagrams.{hosts, steps};
ghost use Rattle.proof_stack.specs.Worlds.Hosts.{no_names, unbound, endpoint, text, last_answer};

/// Both hosts bind a socket, A sends abc to B's port, and B reads it with its sender's endpoint.
#[tactic(auto, using(crate::proofs::Runs::DatagramRun::is_run, crate::proofs::Runs::DatagramRun::are_initial))]
pub fn a_datagram_is_read_at_its_port()
    ensures initial { IsInitialNet unbound hosts }
    ensures run { IsRun no_names hosts steps }
    ensures read { last_answer (run hosts steps) ≡ To.FromEndpoint (endpoint A 48_896) text }
{}
