//! Numbers from decimal digits.

ghost use Rattle.std.specs.Prelude.{◌≡◌, ◌≢◌, ℕ, ◌<◌, ◌≤◌, ◌^◌, length, slice_index, MatchOption};
ghost use Rattle.std.specs.Fmt.{decimal};
ghost use Rattle.fabric_script.specs.Words.{ReadsNumber};

use crate::reasons::Reason;

/// The most digits that a number has.
const MOST_DIGITS: usize = 10;

/// The number that a word spells: decimal, without leading zeros, up to 4,294,967,295; or None if
/// it spells no such number.
pub fn read_number(word: &[u8]) -> Option<u32>
    ensures { MatchOption result
        ((n : ℕ) → n < 2 ^ 32 → word.now ≢ decimal n)
        (λ n. word.now ≡ decimal n) }
{
    if word.is_empty() {
        return None;
    }
    if word[0] == b'0' {
        return if word.len() == 1 { Some(0) } else { None };
    }
    if word.len() > MOST_DIGITS {
        return None;
    }
    read_digits(word)
}

/// The number of digits of which the first is not 0.
fn read_digits(word: &[u8]) -> Option<u32>
    requires some { 0 < length word.now }
    requires few { length word.now ≤ 10 }
    requires first { slice_index word.now 0 ≢ 48 }
    ensures { MatchOption result
        ((n : ℕ) → n < 2 ^ 32 → word.now ≢ decimal n)
        (λ n. word.now ≡ decimal n) }
{
    let mut value: u64 = 0;
    for byte in word {
        if !byte.is_ascii_digit() {
            return None;
        }
        value = 10 * value + u64::from(*byte - b'0');
    }
    if value > u64::from(u32::MAX) {
        return None;
    }
    Some(value as u32)
}

/// The number that a word spells, in a range.
pub(crate) fn read_count(word: &[u8], least: u32, most: u32) -> Result<u32, Reason>
    ensures { ReadsNumber word.now least most result }
{
    match read_number(word) {
        Some(n) if least <= n && n <= most => Ok(n),
        _ => Err(Reason::BadNumber),
    }
}
