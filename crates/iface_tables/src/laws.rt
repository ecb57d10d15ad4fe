//! What follows from the definitions.
ghost use Rattle.std.specs.Prelude.{◌≡◌, ℕ, ℤ, ◌+◌, ◌<◌, ◌≤◌, ◌++◌, Bool, true, false, List, length, drop, pos, Some, None};
ghost use Rattle.std.specs.List.{list_any};
ghost use Rattle.ip_wire.specs.AddressTests.{is_loopback_v6};
ghost use Rattle.ip_wire.specs.IpCidr.{IpCidr};
ghost use Rattle.ip_wire.specs.Ipv6Address.{Ipv6Address};
ghost use Rattle.base_buffer.specs.Assembler.{AreRuns, added};
ghost use Rattle.tcp_ranges.specs.OutOfOrder.{map_from};
ghost use Rattle.iface_tables.specs.Best.{at_index};
ghost use Rattle.iface_tables.specs.Neighbor.{lookup, filled};
ghost use Rattle.iface_tables.specs.Source.{is_abroad, source_v6};
ghost use Rattle.iface_tables.specs.Searches.{nobody, twice, thrice, answer};
ghost use Rattle.iface_tables.specs.declared.neighbor.Answer.TheVariants as Known;
ghost use Rattle.iface_tables.specs.Reassembly.{AssemblerValue, freed, taken, placed, assembler_index_for, overwritten, marked, completed};
ghost use Rattle.iface_tables.specs.Assemblers.{opened, changed_at, with_fragment_of, without_datagram, without_expired, assembler_of, AreApart, IsTest, map_some};
ghost use Rattle.iface_tables.specs.FragmentList.{FragmentPart, fragment_at, IsSliceOf, HoldsSlicesOf};

use crate::key::FragKey;

/// Law: a slot that took in fragments of one payload alone gives that payload when it is complete, whatever their order, number
/// and overlap.
pub fn slices_reassemble<K>()
    ensures taken { (holes : ℕ) (payload : List ℕ) (key : K) (expires : ℤ) (s : AssemblerValue K)
        → HoldsSlicesOf holes payload (taken key expires s) }
    ensures placed { (holes : ℕ) (payload : List ℕ) (s : AssemblerValue K) (p : FragmentPart)
        → HoldsSlicesOf holes payload s → IsSliceOf payload p
        → HoldsSlicesOf holes payload (placed holes s p.bytes p.offset p.more) }
    ensures complete { (holes : ℕ) (payload : List ℕ) (s : AssemblerValue K) (bytes : List ℕ)
        → HoldsSlicesOf holes payload s → completed s ≡ Some bytes → bytes ≡ payload }
{}

/// Law: the fragments of a payload are slices of it, and together they are what is left of it.
pub fn fragments_are_slices()
    ensures slice { (room : ℕ) (payload : List ℕ) (at : ℕ) → at ≤ length payload → IsSliceOf payload (fragment_at room payload at) }
    ensures in_turn { (room : ℕ) (payload : List ℕ) (at : ℕ)
        → (fragment_at room payload at).bytes ++ drop (at + room) payload ≡ drop at payload }
{}

/// Law: a neighbour that was asked for at 0, 1 and 2 s and hasn't answered counts as without answer from 3 s on, and up to 6 s. One that
/// was asked for twice doesn't, nor one that answers meanwhile.
pub fn three_requests()
    ensures waited { lookup thrice nobody (pos 2_999_999) ≡ Known.RateLimited }
    ensures failed { lookup thrice nobody (pos 3_000_000) ≡ Known.Unanswered }
    ensures last { lookup thrice nobody (pos 5_999_999) ≡ Known.Unanswered }
    ensures over { lookup thrice nobody (pos 6_000_000) ≡ Known.NotFound }
    ensures asked_twice { lookup twice nobody (pos 2_000_000) ≡ Known.NotFound }
    ensures answered { lookup (filled thrice answer) nobody (pos 3_000_000) ≡ Known.Found answer.hardware_addr }
    ensures forgotten { lookup (filled thrice answer) nobody (pos 62_500_000) ≡ Known.NotFound }
{}

/// Law: the bytes of a fragment that would leave too many runs change nothing of what came.
pub fn unmarked_bytes_do_not_count()
    ensures { (holes : ℕ) (runs : List (ℕ × ℕ)) (bytes : List ℕ) (offset : ℕ) (fragment : List ℕ)
        → AreRuns runs → length runs ≤ holes → offset + length fragment ≤ length bytes
        → holes < length (added runs offset (length fragment))
        → map_from (marked holes runs offset (length fragment)) 0 (overwritten bytes offset fragment) ≡ map_from runs 0 bytes }
{}

/// Law: to a destination beyond the host nothing is sent from ::1, where the host has another IPv6 address (RFC 4007, section 4).
pub fn loopback_stays_inside()
    ensures { (addresses : List IpCidr) (destination : Ipv6Address)
        → is_loopback_v6 destination ≡ false → list_any is_abroad addresses ≡ true
        → is_loopback_v6 (source_v6 addresses destination) ≡ false }
{}

/// Law: slots are a map from keys to what came of each datagram. A fragment changes what came of its own datagram, and of no
/// other; one that is given up has no slot; and no two slots are ever of one datagram.
pub fn assemblers_are_a_map<K>()
    ensures local { (holes : ℕ) (same : K → K → Bool) (assemblers : List (AssemblerValue K)) (key : K) (expires : ℤ) (fragment : List ℕ) (offset : ℕ) (more : Bool)
        → IsTest same → assembler_of same (with_fragment_of holes same assemblers key expires fragment offset more) key
        ≡ map_some (λ s. placed holes (opened same key expires s) fragment offset more) (at_index (assembler_index_for same assemblers key) assemblers) }
    ensures other { (holes : ℕ) (same : K → K → Bool) (assemblers : List (AssemblerValue K)) (key : K) (expires : ℤ) (fragment : List ℕ) (offset : ℕ) (more : Bool)
        → IsTest same → (other : K) → (key ≡ other → ⊥)
        → assembler_of same (with_fragment_of holes same assemblers key expires fragment offset more) other ≡ assembler_of same assemblers other }
    ensures apart { (holes : ℕ) (same : K → K → Bool) (assemblers : List (AssemblerValue K)) (key : K) (expires : ℤ) (fragment : List ℕ) (offset : ℕ) (more : Bool)
        → IsTest same → AreApart assemblers → AreApart (with_fragment_of holes same assemblers key expires fragment offset more) }
    ensures given_up { (same : K → K → Bool) (assemblers : List (AssemblerValue K)) (key : K) → IsTest same → AreApart assemblers
        → assembler_of same (without_datagram same assemblers key) key ≡ None }
    ensures others_stay { (same : K → K → Bool) (assemblers : List (AssemblerValue K)) (key : K) → IsTest same → (other : K) → (key ≡ other → ⊥)
        → assembler_of same (without_datagram same assemblers key) other ≡ assembler_of same assemblers other }
    ensures freed { (assemblers : List (AssemblerValue K)) (at : ℕ) → AreApart assemblers → AreApart (changed_at freed (Some at) assemblers) }
    ensures expired { (assemblers : List (AssemblerValue K)) (instant : ℤ) → AreApart assemblers → AreApart (without_expired assemblers instant) }
{}

/// Law: keys of fragments are compared whole.
pub fn keys_are_tested()
    ensures { IsTest ⟦<FragKey as PartialEq>⟧.eq }
{}
