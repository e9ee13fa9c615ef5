//! The laws of bits and of their long division, for all numbers, lists and polynomials.

ghost use Rattle.std.specs.Prelude.{◌≡◌, ℕ, suc, ◌+◌, ◌-◌, ◌%◌, ◌^◌, ◌≤◌, Bool, true, false, List, [], ◌∷◌, length, bit_xor};
ghost use Rattle.crc_division.specs.Bits.{bits, number};
ghost use Rattle.crc_division.specs.Division.{added, remainder};

/// A field has as many bits as it is wide and spells the number that fits it; a list of bits is
/// read back from its number.
pub fn bits_spell_numbers()
    ensures length { (width n : ℕ) → length (bits width n) ≡ width }
    ensures spelled { (width n : ℕ) → number (bits width n) ≡ n % 2 ^ width }
    ensures back { (bs : List Bool) → bits (length bs) (number bs) ≡ bs }
{}

/// The sum of two fields without carry is the exclusive or of their numbers.
pub fn sums_are_exclusive_ors()
    ensures { (width a b : ℕ) → bits width (bit_xor a b) ≡ added (bits width a) (bits width b) }
{}

/// A remainder is one bit shorter than the divisor.
pub fn remainders_are_short()
    ensures { (bs divisor : List Bool) → 1 ≤ length divisor → length divisor ≤ length bs + 1
        → length (remainder bs divisor) ≡ length divisor - 1 }
{}

/// A division that textbooks work by hand: 1101011011 with four 0 bits behind it, by x^4 + x + 1,
/// leaves 1110.
pub fn worked_division()
    ensures { remainder
        (true ∷ true ∷ false ∷ true ∷ false ∷ true ∷ true ∷ false ∷ true ∷ true ∷ false ∷ false
        ∷ false ∷ false ∷ [])
        (true ∷ false ∷ false ∷ true ∷ true ∷ [])
        ≡ true ∷ true ∷ true ∷ false ∷ [] }
{}
