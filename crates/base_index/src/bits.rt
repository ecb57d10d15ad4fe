//! Numbers as bits of words: number `i` is bit `i % 64` of word `i / 64`.
ghost use Rattle.std.specs.Prelude.{◌≡◌, not, ◌+◌, ◌*◌, ◌/◌, ◌%◌, ◌<◌, ◌≤◌, ◌^◌, true, false, length, slice_index, IsSome};
ghost use Rattle.base_index.specs.Bits.{AreGrouped, AreWith, IsFirst, IsFirstIn, tells, tells_some};

/// Whether a number is among them.
pub fn contains(words: &[u64], at: usize) -> bool
    requires { at / 64 < length words.now }
    ensures { result ≡ tells words.now at }
{
    words[at / 64] >> (at % 64) & 1 == 1
}

/// Adds a number.
pub fn insert(words: &mut Vec<u64>, at: usize)
    requires { at / 64 < length words.old.items }
    ensures { AreWith at true words.old.items words.new.items }
{
    words[at / 64] |= 1 << (at % 64);
}

/// Takes a number out. Answers whether its word is empty then.
pub fn remove(words: &mut Vec<u64>, at: usize) -> bool
    requires { at / 64 < length words.old.items }
    ensures without { AreWith at false words.old.items words.new.items }
    ensures empty { result ≡ not (tells_some words.new.items (at / 64)) }
    ensures less { slice_index words.new.items (at / 64) ≤ slice_index words.old.items (at / 64) }
{
    words[at / 64] &= !(1 << (at % 64));
    words[at / 64] == 0
}

/// The first number from this one on, if it is in the same word.
pub fn next_in_word(words: &[u64], from: usize) -> Option<usize>
    requires { from / 64 < length words.now }
    ensures first { IsFirstIn words.now from result }
    ensures some { from % 64 ≡ 0 → tells_some words.now (from / 64) ≡ true → IsSome result }
{
    let rest = words[from / 64] >> (from % 64);
    if rest == 0 {
        None
    } else {
        Some(from + rest.trailing_zeros() as usize)
    }
}

/// The first number from this one on.
pub fn next(words: &[u64], from: usize) -> Option<usize>
    requires { 64 * length words.now ≤ 2 ^ 64 }
    ensures { IsFirst (tells words.now) from result }
{
    if from / 64 >= words.len() {
        return None;
    }
    let here = next_in_word(words, from);
    if here.is_some() {
        return here;
    }
    for word in from / 64 + 1..words.len() {
        let found = next_in_word(words, 64 * word);
        if found.is_some() {
            return found;
        }
    }
    None
}

/// The same, where other words tell which of these tell of a number, so that those that tell of none
/// are passed over.
pub fn next_grouped(words: &[u64], groups: &[u64], from: usize) -> Option<usize>
    requires groups { AreGrouped words.now groups.now }
    requires room { 64 * length words.now < 2 ^ 64 + 64 }
    requires groups_room { 64 * length groups.now ≤ 2 ^ 64 }
    ensures { IsFirst (tells words.now) from result }
{
    if from / 64 >= words.len() {
        return None;
    }
    if let Some(at) = next_in_word(words, from) {
        return Some(at);
    }
    match next(groups, from / 64 + 1) {
        Some(word) => next_in_word(words, 64 * word),
        None => None,
    }
}
