//! Bytes that came out of order, as TCP's receive buffer and a datagram that is put together from pieces hold them: the bytes lie
//! in a buffer, and the runs of an assembler say which of its offsets hold one. `specs/Held.antt` reads both as the receive map of
//! `tcp_theory`. Each function here is a law about that reading.
#![tactic(auto)]

ghost use Rattle.std.specs.Prelude.{◌⊎◌, ℕ, ◌+◌, ◌-◌, ◌<◌, ◌≤◌, ◌≡◌, ◌↔◌, ◌++◌, true, List, Option, length, take, drop};
ghost use Rattle.base_buffer.specs.Assembler.{Holds, AreRuns, IsUnion, added, without_front};
ghost use Rattle.base_buffer.specs.Assembler as assembler;
ghost use Rattle.tcp_theory.specs.ReceiveMap.{space, store, front, following};
ghost use Rattle.tcp_ranges.specs.OutOfOrder.{is_held, map_from, overlay, runs_of, EndsBy, TakesFront};

/// The map has a byte where its offset is held, and what lies at other offsets doesn't count.
pub fn only_held_bytes_count()
    ensures held { (rs : List (ℕ × ℕ)) (position : ℕ) → (is_held rs position ≡ true) ↔ Holds rs position }
    ensures length { (rs : List (ℕ × ℕ)) (free : List ℕ) → length (map_from rs 0 free) ≡ length free }
    ensures elsewhere { (rs : List (ℕ × ℕ)) (free : List ℕ) (offset : ℕ) (bytes : List ℕ)
        → ((position : ℕ) → Holds rs position → (position < offset) ⊎ (offset + length bytes ≤ position))
        → map_from rs 0 (overlay free offset bytes) ≡ map_from rs 0 free }
    ensures refused { (rs : List (ℕ × ℕ)) (free : List ℕ) (offset : ℕ) (bytes : List ℕ) → AreRuns rs
        → length rs < length (added rs offset (length bytes))
        → map_from rs 0 (overlay free offset bytes) ≡ map_from rs 0 free }
{}

/// To lay bytes over the free ones and to add their offsets to the runs stores the bytes in the map.
pub fn laying_down_stores()
    ensures stores { (rs : List (ℕ × ℕ)) (offset : ℕ) (free bytes : List ℕ) (new : List (ℕ × ℕ))
        → IsUnion rs offset (length bytes) new
        → store (map_from rs 0 free) offset bytes ≡ map_from new 0 (overlay free offset bytes) }
    ensures laid { (free : List ℕ) (offset : ℕ) (bytes : List ℕ) → offset + length bytes ≤ length free
        → overlay free offset bytes ≡ take offset free ++ (bytes ++ drop (offset + length bytes) free) }
    ensures cut { (map : List (Option ℕ)) (offset : ℕ) (bytes : List ℕ)
        → store map offset bytes ≡ store map offset (take (length map - offset) bytes) }
{}

/// The run at 0 is the map's front, and with it taken away the rest is the map after it.
pub fn the_run_at_zero_is_the_front()
    ensures front { (rs : List (ℕ × ℕ)) (free : List ℕ) → AreRuns rs
        → front (map_from rs 0 free) ≡ take (assembler.front rs) free }
    ensures following { (rs : List (ℕ × ℕ)) (free : List ℕ) → AreRuns rs
        → following (map_from rs 0 free) ≡ map_from (without_front rs) 0 (drop (assembler.front rs) free) }
    ensures taken { (rs : List (ℕ × ℕ)) (free : List ℕ) (offset : ℕ) (bytes : List ℕ) → AreRuns rs
        → EndsBy rs (length free) → offset + length bytes ≤ length free
        → TakesFront rs free offset bytes (added rs offset (length bytes)) (overlay free offset bytes) }
{}

/// Space that is freed after the map holds nothing.
pub fn more_room_is_space()
    ensures space { (rs : List (ℕ × ℕ)) (free more : List ℕ) → EndsBy rs (length free)
        → map_from rs 0 (free ++ more) ≡ map_from rs 0 free ++ space (length more) }
{}

/// The map says which runs there are.
pub fn the_map_has_the_runs()
    ensures runs { (rs : List (ℕ × ℕ)) (free : List ℕ) → AreRuns rs → EndsBy rs (length free)
        → runs_of (map_from rs 0 free) ≡ rs }
{}
