//! A connection on numerals, which the check computes.

ghost use Rattle.std.specs.Prelude.{◌≡◌, [], ◌∷◌, drop, Some};
ghost use Rattle.tcp_block.specs.State.TheVariants as In;
ghost use Rattle.tcp_refinement.specs.declared.pair.event.PairAnswer.TheVariants.{Done, Count, Bytes, Error};
ghost use Rattle.tcp_refinement.specs.declared.pair.event.PairEvent.TheVariants.{Connect, Deliver};
ghost use Rattle.tcp_refinement.specs.declared.pair.event.PairRefused.TheVariants.{NoSegment, OpenedTwice};
ghost use Rattle.tcp_refinement.specs.declared.pair.event.Side.TheVariants.{A, B};
ghost use Rattle.tcp_refinement.specs.declared.pair.event.TcpFault.TheVariants as Fault;
ghost use Rattle.tcp_refinement.specs.Pair.Examples.{opened, told, closed, ended, read_out, server, port};
ghost use Rattle.tcp_refinement.specs.Pair.History.{answers_of};
ghost use Rattle.tcp_refinement.specs.Pair.Steps.{refusal};

/// Three segments open the connection; three bytes, delivered twice, are read once.
pub fn bytes_are_read_once()
    ensures one { opened.sides.a.socket.tcb.state ≡ In.Established }
    ensures other { opened.sides.b.socket.tcb.state ≡ In.Established }
    ensures read { drop 8 (answers_of told.history) ≡ Count 3 ∷ Done ∷ Done ∷ Done ∷ Bytes (97 ∷ 98 ∷ 99 ∷ []) ∷ [] }
    ensures absent { refusal told (Deliver A 9) ≡ Some NoSegment }
    ensures again { refusal told (Connect A server (port 49_500)) ≡ Some OpenedTwice }
{}

/// Both sides close; after ten seconds in TIME-WAIT what waits is still read, and then the stream has ended.
pub fn a_closed_stream_is_read_to_its_end()
    ensures waits { closed.sides.a.socket.tcb.state ≡ In.TimeWait }
    ensures ends { ended.sides.a.socket.tcb.state ≡ In.Closed }
    ensures read { drop 25 (answers_of read_out.history) ≡ Bytes (120 ∷ 121 ∷ 122 ∷ []) ∷ Error Fault.Finished ∷ [] }
{}
