//! Bytes and numbers from hexadecimal digits.

ghost use Rattle.std.specs.Prelude.{◌≡◌, ◌≢◌, ℕ, ◌^◌, ◌<◌, ◌≤◌, List, All, IfOk, MatchOption};
ghost use Rattle.rio_chars.specs.HexText.{hex_digit};
ghost use Rattle.fabric_script.specs.Texts.{hex_text, digits_text};

use rio_chars::read_hex_byte;
use std::alloc::{AllocError, Global};
use std::marker::Model;

/// The bytes that a script spells in hexadecimal digits.
#[derive(Debug, Drop)]
pub struct Hex {
    items: Vec<u8>,
}

impl Model for Hex {
    ghost use Rattle.std.specs.Prelude.{List, ℕ};

    ghost Value = { List ℕ };

    ghost view = { λ hex. hex.items.items };
}

impl Hex {
    /// These bytes.
    pub fn new(items: Vec<u8>) -> Hex
        ensures { result ≡ items.items }
    {
        Hex { items }
    }

    /// The bytes.
    pub fn as_slice(&self) -> &[u8]
        ensures { result.now ≡ self.now }
    {
        self.items.as_slice()
    }
}

/// The bytes that a word spells, as those of a line.
pub(crate) fn read_hex(alloc: Global, word: &[u8]) -> Result<Option<Hex>, AllocError>
    ensures { IfOk result (λ read. MatchOption read
        ((bytes : List ℕ) → All (λ byte. byte < 256) bytes → word.now ≢ hex_text bytes)
        (λ hex. All (λ byte. byte < 256) hex × (word.now ≡ hex_text hex))) }
{
    match read_bytes(alloc, word)? {
        Some(bytes) => Ok(Some(Hex::new(bytes))),
        None => Ok(None),
    }
}

/// The bytes that a word spells: two digits a byte, or a hyphen for no bytes.
pub fn read_bytes(alloc: Global, word: &[u8]) -> Result<Option<Vec<u8>>, AllocError>
    ensures { IfOk result (λ read. MatchOption read
        ((bytes : List ℕ) → All (λ byte. byte < 256) bytes → word.now ≢ hex_text bytes)
        (λ bytes. All (λ byte. byte < 256) bytes.items × (word.now ≡ hex_text bytes.items))) }
{
    if word == b"-".as_slice() {
        return Ok(Some(Vec::new(alloc)));
    }
    if word.is_empty() {
        return Ok(None);
    }
    let Some(bytes) = rio_chars::read_hex(alloc, word)? else {
        return Ok(None);
    };
    Ok(Some(bytes))
}

/// The number that a word spells in just so many hexadecimal digits.
pub fn read_digits(word: &[u8], count: usize) -> Option<u32>
    requires { count ≤ 8 }
    ensures { MatchOption result
        ((n : ℕ) → n < 16 ^ count → word.now ≢ digits_text count n)
        (λ n. (n < 16 ^ count) × (word.now ≡ digits_text count n)) }
{
    if word.len() != count {
        return None;
    }
    let mut value: u32 = 0;
    for digit in word {
        let Some(low) = digit_value(*digit) else {
            return None;
        };
        value = 16 * value + u32::from(low);
    }
    Some(value)
}

/// The value of one digit, which is that of the byte with a 0 before it.
fn digit_value(digit: u8) -> Option<u8>
    ensures { MatchOption result
        ((value : ℕ) → value < 16 → digit ≢ hex_digit value)
        (λ value. (value < 16) × (digit ≡ hex_digit value)) }
{
    read_hex_byte(b'0', digit)
}
