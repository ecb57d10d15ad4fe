//! What follows from how what was told of paths counts.
ghost use Rattle.std.specs.Prelude.{◌≡◌, ℕ, ℤ, ◌+ℤ◌, ◌<ℤ◌, ◌≤ℤ◌, ◌≤◌, pos, min, List, length, [], nat_lt, is_some, true, false, replicate, ◌∷◌, ◌++◌};
ghost use Rattle.ip_wire.specs.IpAddress.{IpAddress};
ghost use Rattle.ip_wire.specs.IpAddress.TheVariants as Address;
ghost use Rattle.ip_wire.specs.AddressTests.{is_same_address};
ghost use Rattle.iface_tables.specs.PathMtu.{path_room, path_time, least_mtu, narrowed, mtu_towards, path_index_of, is_news, lowered};
ghost use Rattle.iface_tables.specs.declared.path_mtu.Path.{Path};

/// Law: whatever was told, a packet may be as long as a frame carries or the least that a path is taken to carry, and is never longer
/// than a frame carries (RFC 8201, section 4).
pub fn paths_are_between()
    ensures least { (paths : List Path) (address : IpAddress) (now : ℤ) (whole : ℕ)
        → min whole (least_mtu address) ≤ mtu_towards paths address now whole }
    ensures whole { (paths : List Path) (address : IpAddress) (now : ℤ) (whole : ℕ) → mtu_towards paths address now whole ≤ whole }
{}

/// Law: what is news counts at once and for ten minutes, and from then on no more; a message that tells no less than was known changes
/// nothing. So within ten minutes no message lets packets be longer.
pub fn news_counts_ten_minutes()
    ensures counts { (paths : List Path) (address : IpAddress) (told : ℕ) (now later : ℤ) (whole : ℕ)
        → is_news paths address told now whole ≡ true → later <ℤ (now +ℤ pos path_time)
        → mtu_towards (lowered paths address told now whole) address later whole ≡ narrowed address told whole }
    ensures forgotten { (paths : List Path) (address : IpAddress) (told : ℕ) (now later : ℤ) (whole : ℕ)
        → is_news paths address told now whole ≡ true → (now +ℤ pos path_time) ≤ℤ later
        → mtu_towards (lowered paths address told now whole) address later whole ≡ whole }
    ensures never_up { (paths : List Path) (address : IpAddress) (told : ℕ) (now later : ℤ) (whole : ℕ)
        → now ≤ℤ later → later <ℤ (now +ℤ pos path_time)
        → mtu_towards (lowered paths address told now whole) address later whole ≤ mtu_towards paths address later whole }
    ensures nothing_else { (paths : List Path) (address : IpAddress) (told : ℕ) (now : ℤ) (whole : ℕ)
        → is_news paths address told now whole ≡ false → lowered paths address told now whole ≡ paths }
{}

/// Law: what a message tells of one destination leaves each other as it was known, unless the table is full and the destination new; and
/// the table never holds more than eight.
pub fn others_stay()
    ensures others { (paths : List Path) (address other : IpAddress) (told : ℕ) (now later : ℤ) (whole : ℕ)
        → is_same_address address other ≡ false → nat_lt (length paths) path_room ≡ true
        → mtu_towards (lowered paths address told now whole) other later whole ≡ mtu_towards paths other later whole }
    ensures known { (paths : List Path) (address other : IpAddress) (told : ℕ) (now later : ℤ) (whole : ℕ)
        → is_same_address address other ≡ false → is_some (path_index_of paths address) ≡ true
        → mtu_towards (lowered paths address told now whole) other later whole ≡ mtu_towards paths other later whole }
    ensures few { (paths : List Path) (address : IpAddress) (told : ℕ) (now : ℤ) (whole : ℕ) → length paths ≤ path_room
        → length (lowered paths address told now whole) ≤ path_room }
{}

/// Law: a host at a device of 1500 bytes is told at instant 0 that the path to fd00::2 carries 1400, a second later 1300, and a second later
/// 1350 (RFC 8201, section 4: a node doesn't increase its estimate in response to a Packet Too Big message). It is told 68, too: no path
/// carries less than 1280. What is told of 10.0.0.2 counts from 576 on.
#[tactic(auto, unfolding(crate::specs::PathMtu::lowered, crate::specs::PathMtu::mtu_towards))]
pub fn told_by_hand()
    ensures first { let six : IpAddress = Address.Ipv6 (record { 0 = 0xfd ∷ replicate 14 0 ++ (2 ∷ []) }) in
        mtu_towards (lowered [] six 1400 (pos 0) 1500) six (pos 599_999_999) 1500 ≡ 1400 }
    ensures forgotten { let six : IpAddress = Address.Ipv6 (record { 0 = 0xfd ∷ replicate 14 0 ++ (2 ∷ []) }) in
        mtu_towards (lowered [] six 1400 (pos 0) 1500) six (pos 600_000_000) 1500 ≡ 1500 }
    ensures lower { let six : IpAddress = Address.Ipv6 (record { 0 = 0xfd ∷ replicate 14 0 ++ (2 ∷ []) }) in
        let two = lowered (lowered [] six 1400 (pos 0) 1500) six 1300 (pos 1_000_000) 1500 in
        mtu_towards (lowered two six 1350 (pos 2_000_000) 1500) six (pos 600_999_999) 1500 ≡ 1300 }
    ensures least { let six : IpAddress = Address.Ipv6 (record { 0 = 0xfd ∷ replicate 14 0 ++ (2 ∷ []) }) in
        mtu_towards (lowered [] six 68 (pos 0) 1500) six (pos 0) 1500 ≡ 1280 }
    ensures least_of_ipv4 { let four : IpAddress = Address.Ipv4 (record { 0 = 10 ∷ 0 ∷ 0 ∷ 2 ∷ [] }) in
        mtu_towards (lowered [] four 0 (pos 0) 1500) four (pos 0) 1500 ≡ 576 }
    ensures not_more { let four : IpAddress = Address.Ipv4 (record { 0 = 10 ∷ 0 ∷ 0 ∷ 2 ∷ [] }) in
        lowered [] four 1500 (pos 0) 1500 ≡ [] }
{}
