//! What follows from the definitions for fragments of datagrams.
ghost use Rattle.std.specs.Prelude.{◌≡◌, ℕ, ◌<◌, true, false, Option, Some, None, length, is_some};
ghost use Rattle.iface_tables.specs.Assemblers.{overlaps_datagram, assembler_of, AreApart};
ghost use Rattle.iface_tables.specs.Room.{has_share, is_same_source};
ghost use Rattle.iface_tables.specs.declared.key.FragKey.{FragKey};
ghost use Rattle.iface_egress.specs.Inner.{InnerValue};
ghost use Rattle.iface_ingress.specs.Arrives.{assemblers_after, whole_after};
ghost use Rattle.iface_ingress.specs.Incoming.{IncomingValue};
ghost use Rattle.iface_ingress.specs.FragmentRows.{first, second, other, overlapping, one_assembler, following_first, whole};
ghost use Rattle.iface_ingress.specs.Reassembled.{Assemblers, FragmentValue, part_of, is_same_datagram, is_strict, is_unfit, slot_in, kept, with_room};

/// Law: a fragment of an IPv6 datagram that overlaps what came of it gives it up (RFC 5722; RFC 8200, section 4.5): no slot is its any more,
/// and nothing is whole. Of every other datagram what came stays.
pub fn overlaps_give_up()
    ensures given_up { (i : InnerValue) (timeout : ℕ) (assemblers : Assemblers) (content : Option IncomingValue) (p : FragmentValue) → AreApart assemblers
        → part_of content ≡ Some p → is_strict p.key ≡ true → overlaps_datagram is_same_datagram assemblers p.key p.bytes p.offset ≡ true
        → assembler_of is_same_datagram (kept i timeout assemblers content) p.key ≡ None }
    ensures nothing { (assemblers : Assemblers) (content : Option IncomingValue) (p : FragmentValue)
        → part_of content ≡ Some p → is_strict p.key ≡ true → overlaps_datagram is_same_datagram assemblers p.key p.bytes p.offset ≡ true
        → slot_in assemblers content ≡ None }
    ensures others { (i : InnerValue) (timeout : ℕ) (assemblers : Assemblers) (content : Option IncomingValue) (p : FragmentValue)
        → part_of content ≡ Some p → is_strict p.key ≡ true → overlaps_datagram is_same_datagram assemblers p.key p.bytes p.offset ≡ true
        → (other : FragKey) → (p.key ≡ other → ⊥)
        → assembler_of is_same_datagram (kept i timeout assemblers content) other ≡ assembler_of is_same_datagram assemblers other }
{}

/// Law: what is no fragment leaves all slots as they were, and is brought as it came; so does an IPv6 datagram that is whole after a fragment
/// header, whatever came of fragments with its identification (RFC 6946).
pub fn wholes_go_by_themselves()
    ensures { (i : InnerValue) (timeout : ℕ) (assemblers : Assemblers) (content : Option IncomingValue) → part_of content ≡ None
        → (assemblers_after i timeout assemblers content ≡ assemblers) × (whole_after i timeout assemblers content ≡ content) }
{}

/// Law, on numerals: the two fragments of an IPv6 datagram give it after a fragment header, with the first one's next header; a fragment of
/// another identification goes to another slot, and one that overlaps the first frees the slot.
pub fn fragments_of_ipv6()
    ensures kept { (i : InnerValue) → assemblers_after i 60 one_assembler (Some first) ≡ following_first i }
    ensures whole { (i : InnerValue) → whole_after i 60 (following_first i) (Some second) ≡ Some whole }
    ensures other { (i : InnerValue) → assemblers_after i 60 (following_first i) (Some other) ≡ following_first i }
    ensures overlap { (i : InnerValue) → slot_in (assemblers_after i 60 (following_first i) (Some overlapping)) (Some other) ≡ Some 0 }
{}

/// Law: with host requirements a fragment that fits finds a slot, where there are some, whoever has them (RFC 1122, section 3.3.2).
pub fn fragments_find_room()
    ensures { (i : InnerValue) (assemblers : Assemblers) (content : Option IncomingValue) (p : FragmentValue) → i.host_requirements ≡ true
        → 0 < length assemblers → part_of content ≡ Some p → is_unfit (with_room i assemblers content) p ≡ false
        → is_some (slot_in (with_room i assemblers content) content) ≡ true }
{}

/// Law: while a source has half of the slots, its fragments leave what came of datagrams from all others.
pub fn no_source_takes_all()
    ensures { (i : InnerValue) (timeout : ℕ) (assemblers : Assemblers) (content : Option IncomingValue) (p : FragmentValue) (other : FragKey)
        → part_of content ≡ Some p → has_share is_same_source p.key assemblers ≡ true → is_same_source other p.key ≡ false
        → assembler_of is_same_datagram (kept i timeout (with_room i assemblers content) content) other ≡ assembler_of is_same_datagram assemblers other }
{}

/// Law: without host requirements no datagram is given up for a new one.
pub fn with_the_flag_off_no_room_is_made()
    ensures { (i : InnerValue) (assemblers : Assemblers) (content : Option IncomingValue) → i.host_requirements ≡ false
        → with_room i assemblers content ≡ assemblers }
{}
