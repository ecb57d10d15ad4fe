//! That two sockets of hosts at a link are a pair of sockets.
ghost use Rattle.std.specs.Prelude.{◌≡◌, ℕ, ℤ, Bool, List};
ghost use Rattle.lan.specs.declared.at_link.history.event.Side.{Side};
ghost use Rattle.lan.specs.declared.at_link.history.event.Side.TheVariants.{A, B};
ghost use Rattle.lan.specs.Worlds.AtLink.Happening.{AreNumbered, ProceedsBy, Happening, HaveNumbers, events_of_moves, steps_of};
ghost use Rattle.lan.specs.Worlds.AtLink.Moves.{Step, IsRun, run};
ghost use Rattle.lan.specs.Worlds.AtLink.Paired.{AreHosted, AreNew, Proceeds, HaveKeys, NewSocket, Seat, Shows, at_zero, begun, clocks_in};
ghost use Rattle.lan.specs.Worlds.AtLink.Parties.{Net};
ghost use Rattle.lan.specs.Worlds.AtLink.PeerSides.{ArePartners};
ghost use Rattle.lan.specs.Worlds.AtLink.PacketsSafe.{IsInitialNet};
ghost use Rattle.tcp_refinement.specs.Pair.Values.{PairValue};

/// Law: two TCP sockets that are peers in the end of a plain run of two hosts are a pair of sockets: at first two new ones, and each move of a host
/// is none, one or two events of the pair, so what holds of every list of events holds of them. Each segment that comes to one of them has a number
/// among those that the other sent; and whichever numbers that fit the moves are given, the events are just those of these moves. Their hosts stay
/// as the sockets are shown them, but for their clocks, and make initial sequence numbers with a key (RFC 6528).
pub fn peer_sides_are_a_pair()
    ensures begins { (starts : Side → ℕ → ℕ) (net : Net) (seats : Side → Seat) (news : Side → NewSocket) → IsInitialNet starts net → AreNew seats news net
        → Shows seats at_zero net (begun seats news) }
    ensures proceeds { (starts : Side → ℕ → ℕ) (names : List ℕ → Bool) (first : Net) (before steps : List Step) (seats : Side → Seat) (clocks : Side → ℤ)
        (p : PairValue) → IsInitialNet starts first → IsRun names first before → IsRun names (run first before) steps
        → AreHosted seats clocks (run first before) steps → HaveKeys seats
        → ArePartners (run (run first before) steps).history A (seats A).slot (seats B).slot → Shows seats clocks (run first before) p
        → Proceeds seats (clocks_in seats clocks steps) (run (run first before) steps) p }
    ensures have_numbers { (starts : Side → ℕ → ℕ) (names : List ℕ → Bool) (first : Net) (before steps : List Step) (seats : Side → Seat)
        (clocks : Side → ℤ) (p : PairValue) → IsInitialNet starts first → IsRun names first before → IsRun names (run first before) steps
        → AreHosted seats clocks (run first before) steps → HaveKeys seats
        → ArePartners (run (run first before) steps).history A (seats A).slot (seats B).slot → Shows seats clocks (run first before) p
        → HaveNumbers seats (run first before) steps }
    ensures proceed_by { (starts : Side → ℕ → ℕ) (names : List ℕ → Bool) (first : Net) (before : List Step) (moves : List Happening) (seats : Side → Seat)
        (clocks : Side → ℤ) (p : PairValue) → IsInitialNet starts first → IsRun names first before → IsRun names (run first before) (steps_of moves)
        → AreHosted seats clocks (run first before) (steps_of moves) → HaveKeys seats
        → ArePartners (run (run first before) (steps_of moves)).history A (seats A).slot (seats B).slot → AreNumbered seats (run first before) moves
        → Shows seats clocks (run first before) p
        → ProceedsBy seats (clocks_in seats clocks (steps_of moves)) (run (run first before) (steps_of moves)) p (events_of_moves seats clocks moves) }
{}
