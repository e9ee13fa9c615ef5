//! Decimal and hexadecimal digits.
ghost use Rattle.std.specs.Prelude.{◌≡◌, ◌≢◌, ◌≤◌, ◌<◌, ◌*◌, ◌/◌, ◌%◌, ℕ, ◌∷◌, [], All, List, length, drop, true, false, IfOk, IfSome, IfNone, MatchOption};
ghost use Rattle.std.specs.Fmt.{decimal};
ghost use Rattle.rio_chars.specs.HexText.{hex_digit as hex_digit_of, hex_of};

use crate::memory::zeros;
use std::alloc::{AllocError, Global};

/// The number of each lower-case hexadecimal digit, and 255 at each byte that is no digit.
const HEX_VALUES: [u8; 256] = [
    255, 255, 255, 255, 255, 255, 255, 255, 255, 255, 255, 255, 255, 255, 255, 255, 255, 255, 255,
    255, 255, 255, 255, 255, 255, 255, 255, 255, 255, 255, 255, 255, 255, 255, 255, 255, 255, 255,
    255, 255, 255, 255, 255, 255, 255, 255, 255, 255, 0, 1, 2, 3, 4, 5, 6, 7, 8, 9, 255, 255, 255,
    255, 255, 255, 255, 255, 255, 255, 255, 255, 255, 255, 255, 255, 255, 255, 255, 255, 255, 255,
    255, 255, 255, 255, 255, 255, 255, 255, 255, 255, 255, 255, 255, 255, 255, 255, 255, 10, 11,
    12, 13, 14, 15, 255, 255, 255, 255, 255, 255, 255, 255, 255, 255, 255, 255, 255, 255, 255, 255,
    255, 255, 255, 255, 255, 255, 255, 255, 255, 255, 255, 255, 255, 255, 255, 255, 255, 255, 255,
    255, 255, 255, 255, 255, 255, 255, 255, 255, 255, 255, 255, 255, 255, 255, 255, 255, 255, 255,
    255, 255, 255, 255, 255, 255, 255, 255, 255, 255, 255, 255, 255, 255, 255, 255, 255, 255, 255,
    255, 255, 255, 255, 255, 255, 255, 255, 255, 255, 255, 255, 255, 255, 255, 255, 255, 255, 255,
    255, 255, 255, 255, 255, 255, 255, 255, 255, 255, 255, 255, 255, 255, 255, 255, 255, 255, 255,
    255, 255, 255, 255, 255, 255, 255, 255, 255, 255, 255, 255, 255, 255, 255, 255, 255, 255, 255,
    255, 255, 255, 255, 255, 255, 255, 255, 255, 255, 255, 255, 255, 255, 255, 255, 255, 255, 255,
    255, 255, 255, 255,
];

/// The lower-case digit of a number below 16.
pub(crate) fn hex_digit(number: u8) -> u8
    requires { number < 16 }
    ensures { result ≡ hex_digit_of number }
{
    if number < 10 {
        b'0' + number
    } else {
        b'a' - 10 + number
    }
}

/// Writes two digits for each byte. No table is read, so that the compiler can make those of many
/// bytes at once.
pub(crate) fn write_hex(room: &mut [u8], bytes: &[u8])
    requires { length room.old ≡ 2 * length bytes.now }
    ensures { room.new ≡ hex_of bytes.now }
{
    for (i, byte) in bytes.iter().enumerate() {
        room[2 * i] = hex_digit(*byte / 16);
        room[2 * i + 1] = hex_digit(*byte % 16);
    }
}

/// Writes the decimal digits of a number, with no zero in front, at the end of the room, and
/// answers where they begin.
pub fn write_decimal(number: u32, digits: &mut [u8; 10]) -> usize
    ensures begin { result ≤ 10 }
    ensures text { drop result digits.new ≡ decimal number }
{
    let mut begin = 9;
    digits[begin] = b'0' + (number % 10) as u8;
    let mut rest = number / 10;
    while rest > 0 {
        begin -= 1;
        digits[begin] = b'0' + (rest % 10) as u8;
        rest /= 10;
    }
    begin
}

/// The number of a lower-case digit, and 255 for a byte that is no digit.
fn hex_value(digit: u8) -> u8
    ensures digit { result < 16 → digit ≡ hex_digit_of result }
    ensures none { 16 ≤ result → (number : ℕ) → number < 16 → digit ≢ hex_digit_of number }
{
    HEX_VALUES[usize::from(digit)]
}

/// The byte of two lower-case hexadecimal digits, the high one first, or None if one of them is no
/// digit.
pub fn read_hex_byte(high: u8, low: u8) -> Option<u8>
    ensures below { IfSome result (λ byte. byte < 256) }
    ensures text { IfSome result (λ byte. (high ∷ low ∷ []) ≡ hex_of (byte ∷ [])) }
    ensures none { IfNone result
        ((byte : ℕ) → byte < 256 → (high ∷ low ∷ []) ≢ hex_of (byte ∷ [])) }
{
    let high = hex_value(high);
    let low = hex_value(low);
    if high < 16 && low < 16 {
        Some(16 * high + low)
    } else {
        None
    }
}

/// The bytes that these digits spell, two lower-case hexadecimal digits a byte, the high one first;
/// or None if they spell none. No digits spell no bytes.
pub fn read_hex(alloc: Global, digits: &[u8]) -> Result<Option<Vec<u8>>, AllocError>
    ensures { IfOk result (λ read. MatchOption read
        ((bytes : List ℕ) → All (λ byte. byte < 256) bytes → digits.now ≢ hex_of bytes)
        (λ bytes. All (λ byte. byte < 256) bytes.items × (digits.now ≡ hex_of bytes.items))) }
{
    let mut bytes = zeros(alloc, digits.len() / 2)?;
    if digits.len() % 2 == 0 && read_pairs(bytes.as_mut_slice(), digits) {
        Ok(Some(bytes))
    } else {
        Ok(None)
    }
}

/// Reads two digits for each byte, and answers whether all of them are digits. Only the end of the
/// loop asks for that, so that the compiler can read many at once.
fn read_pairs(room: &mut [u8], digits: &[u8]) -> bool
    requires { length digits.now ≡ 2 * length room.old }
    ensures below { All (λ byte. byte < 256) room.new }
    ensures spelled { result ≡ true → digits.now ≡ hex_of room.new }
    ensures none { result ≡ false
        → (bytes : List ℕ) → All (λ byte. byte < 256) bytes → digits.now ≢ hex_of bytes }
{
    let mut are_digits = true;
    for i in 0..room.len() {
        let high = hex_number(digits[2 * i]);
        let low = hex_number(digits[2 * i + 1]);
        are_digits = are_digits & (high < 16) & (low < 16);
        room[i] = high % 16 * 16 + low % 16;
    }
    are_digits
}

/// What `hex_value` answers, without a table.
fn hex_number(digit: u8) -> u8
    ensures digit { result < 16 → digit ≡ hex_digit_of result }
    ensures none { 16 ≤ result → (number : ℕ) → number < 16 → digit ≢ hex_digit_of number }
{
    match digit {
        b'0'..=b'9' => digit - b'0',
        b'a'..=b'f' => digit - b'a' + 10,
        _ => 255,
    }
}
