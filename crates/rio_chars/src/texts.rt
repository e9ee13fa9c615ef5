//! The text of a character, in both directions.
ghost use Rattle.std.specs.Prelude.{◌≡◌, ◌≢◌, ◌∷◌, [], Some, IfSome, IfNone};
ghost use Rattle.rio_chars.specs.CharText.{char_text_of, HasByte};
ghost use Rattle.rio_chars.specs.HexText.{hex_of};
ghost use Rattle.rio_chars.specs.declared.chars.Char.{Char};

use crate::Char;
use crate::digits::{hex_digit, read_hex_byte};

/// The text of a character: `d` or `k` and two lower-case hexadecimal digits, or `inv`.
pub fn char_text(c: Char) -> [u8; 3]
    ensures { result ≡ char_text_of c }
{
    match c {
        Char::Data(byte) => spelled(b'd', byte),
        Char::Special(byte) => spelled(b'k', byte),
        Char::Invalid => *b"inv",
    }
}

/// The character of a text, or None if the word is the text of no character.
pub fn read_char(word: &[u8]) -> Option<Char>
    ensures text { IfSome result (λ c. word.now ≡ char_text_of c) }
    ensures byte { IfSome result HasByte }
    ensures none { IfNone result ((c : Char) → HasByte c → word.now ≢ char_text_of c) }
    ensures reads_back { (c : Char) → HasByte c → word.now ≡ char_text_of c → result ≡ Some c }
{
    match word {
        [b'd', high, low] => Some(Char::Data(read_hex_byte(*high, *low)?)),
        [b'k', high, low] => Some(Char::Special(read_hex_byte(*high, *low)?)),
        b"inv" => Some(Char::Invalid),
        _ => None,
    }
}

fn spelled(kind: u8, byte: u8) -> [u8; 3]
    ensures { result ≡ kind ∷ hex_of (byte ∷ []) }
{
    [kind, hex_digit(byte / 16), hex_digit(byte % 16)]
}
