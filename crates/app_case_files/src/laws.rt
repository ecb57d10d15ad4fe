//! Laws of sums.
ghost use Rattle.std.specs.Prelude.{◌≡◌, codes};
ghost use Rattle.app_case_files.specs.Tallies.{crc32};

/// The sum of the nine digits, which catalogues of checksums give as the check value of CRC-32.
#[tactic(auto, unfolding(crate::specs::Tallies::following_byte, crate::specs::Tallies::following_bit))]
pub fn nine_digits_have_their_sum()
    ensures { crc32 (codes "123456789") ≡ 0xcbf43926 }
{}
