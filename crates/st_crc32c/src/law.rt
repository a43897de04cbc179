ghost use Rattle.std.specs.Prelude.{◌≡◌, ◌≢◌, ◌<◌, ◌++◌, ◌∷◌, [], List, ℕ, replicate};
ghost use Rattle.st_crc32c.specs.Crc.{are_bytes, crc32c};

/// If one byte changes, the sum does.
#[tactic(auto, using(crate::proofs::OneByte::another_sum))]
pub fn another_byte_is_told()
    ensures { (before behind : List ℕ) (a b : ℕ) → are_bytes before → are_bytes behind → a < 256 → b < 256 → a ≢ b → crc32c (before ++ a ∷ behind) ≢ crc32c (before ++ b ∷ behind) }
{}

/// The sums that the standard of iSCSI gives, and the usual check value, of the digits 1 to 9.
#[tactic(auto, using(crate::proofs::Known::digits, crate::proofs::Known::zeros, crate::proofs::Known::ones))]
pub fn known_sums()
    ensures digits { crc32c (49 ∷ 50 ∷ 51 ∷ 52 ∷ 53 ∷ 54 ∷ 55 ∷ 56 ∷ 57 ∷ []) ≡ 3808858755 }
    ensures zeros { crc32c (replicate 32 0) ≡ 2324772522 }
    ensures ones { crc32c (replicate 32 255) ≡ 1655221059 }
{}
