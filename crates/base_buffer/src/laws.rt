//! What the steps of a packet queue do to its headers and bytes in order.
ghost use Rattle.std.specs.Prelude.{◌≡◌, ℕ, List, [], ◌∷◌, ◌++◌, drop, slice_get};
ghost use Rattle.base_buffer.specs.Packets.{Packets, contents, appended, unpadded, first, without_first, with_first};

/// Packets are taken in the order in which they were queued: a new one is the last, and the one taken is the first.
pub fn packets_keep_their_order<H>()
    ensures appended { (q : Packets H) (size : ℕ) (header : H) (bytes : List ℕ)
        → contents (appended q size header bytes) ≡ contents q ++ (header, bytes) ∷ [] }
    ensures first { (q : Packets H) → first q ≡ slice_get (contents q) 0 }
    ensures without_first { (q : Packets H) → contents (without_first q) ≡ drop 1 (contents q) }
    ensures with_first { (q : Packets H) (header : H) (bytes : List ℕ)
        → contents (with_first q header bytes) ≡ (header, bytes) ∷ drop 1 (contents q) }
{}

/// Giving up the padding before the first packet changes offsets alone, and is done once.
pub fn unpadding_keeps_the_packets<H>()
    ensures contents { (q : Packets H) → contents (unpadded q) ≡ contents q }
    ensures first { (q : Packets H) → first (unpadded q) ≡ first q }
    ensures without_first { (q : Packets H) → without_first (unpadded q) ≡ without_first q }
    ensures again { (q : Packets H) → unpadded (unpadded q) ≡ unpadded q }
{}
