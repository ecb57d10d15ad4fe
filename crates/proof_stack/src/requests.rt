//! How many neighbours a host asks for in a second.
ghost use Rattle.std.specs.Prelude.{ℕ, ◌+◌, ◌≤◌, ℤ, List, length};
ghost use Rattle.iface_tables.specs.Neighbor.{CacheValue};
ghost use Rattle.proof_stack.specs.Requests.{AreInSecond, Follows, NeighborEvent, answers_in, requests_in};

/// Law: on a network of many no more requests go within any second than there is room for searches (64), and one for each neighbour that
/// answers meanwhile: an answer ends a search, and makes room for another. Whatever is asked for, in whatever order.
pub fn requests_of_a_second_are_few()
    ensures { (c c' : CacheValue) (start : ℤ) (es : List NeighborEvent)
        → 1 ≤ c.search_room
        → length c.searches ≤ c.search_room
        → Follows c es c'
        → AreInSecond start es
        → requests_in es ≤ c.search_room + answers_in es }
{}
