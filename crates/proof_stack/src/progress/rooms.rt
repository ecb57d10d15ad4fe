//! Room for a datagram after the frames before its own, on numerals.

ghost use Rattle.std.specs.Prelude.{◌≡◌, ℕ, List, [], ◌∷◌, length};
ghost use Rattle.net_base.specs.Packets.{packets_in};
ghost use Rattle.iface_ingress.specs.Reassembled.{Assemblers};
ghost use Rattle.proof_stack.specs.Progress.Ready.{HasRoomFollowing};

/// Law: two packets of 40 bytes wait before one with a datagram of 8 bytes, which has 36, and no slot has fragments. An empty queue of 4 entries and 160
/// bytes has room for the datagram whatever these bring; of one of 3 entries, and of one of 159 bytes, that isn't said. Where no frame comes before, one
/// entry and 8 bytes are enough, and 7 bytes aren't.
pub fn a_queue_has_room_or_not()
    ensures room { (a b own : List ℕ) → length a ≡ 40 → length b ≡ 40 → length own ≡ 36
        → HasRoomFollowing (a ∷ b ∷ own ∷ []) [] (packets_in [] 0 4 160) 3 8 }
    ensures entries { (a b own : List ℕ) → length a ≡ 40 → length b ≡ 40 → length own ≡ 36
        → HasRoomFollowing (a ∷ b ∷ own ∷ []) [] (packets_in [] 0 3 160) 3 8 → ⊥ }
    ensures bytes { (a b own : List ℕ) → length a ≡ 40 → length b ≡ 40 → length own ≡ 36
        → HasRoomFollowing (a ∷ b ∷ own ∷ []) [] (packets_in [] 0 4 159) 3 8 → ⊥ }
    ensures first { (frames : List (List ℕ)) (assemblers : Assemblers) → HasRoomFollowing frames assemblers (packets_in [] 0 1 8) 1 8 }
    ensures short { (own : List ℕ) → length own ≡ 36 → HasRoomFollowing (own ∷ []) [] (packets_in [] 0 1 7) 1 8 → ⊥ }
{}
