//! Characters of a wire.
ghost use Rattle.std.specs.Prelude.{◌≡◌};
ghost use Rattle.rio_chars.specs.DataChars.{is_data_char, byte_of_char};

use std::marker::Model;

/// A character of a link as it stands after 8b/10b decoding.
#[derive(Clone, Copy, Debug, Default, PartialEq, Eq)]
pub enum Char {
    /// A data character and its byte.
    Data(u8),
    /// A special character, as K28.5, by its byte.
    Special(u8),
    /// A code group that is no character.
    #[default]
    Invalid,
}

impl Char {
    /// Whether it is a data character.
    #[inline(always)]
    pub fn is_data(self) -> bool
        ensures { result ≡ is_data_char self }
    {
        matches!(self, Char::Data(_))
    }

    /// The byte of a data or special character, and 0 of one that is invalid.
    #[inline(always)]
    pub fn byte(self) -> u8
        ensures { result ≡ byte_of_char self }
    {
        match self {
            Char::Data(byte) | Char::Special(byte) => byte,
            Char::Invalid => 0,
        }
    }
}

/// A list of characters.
#[derive(Drop)]
pub struct Chars {
    items: Vec<Char>,
}

impl Model for Chars {
    ghost use Rattle.std.specs.Prelude.{List};
    ghost use Rattle.rio_chars.specs.declared.chars.Char.{Char};

    ghost Value = { List Char };

    ghost view = { λ chars. chars.items.items };
}

impl Chars {
    /// The list of these characters.
    pub fn new(items: Vec<Char>) -> Chars
        ensures { result ≡ items.items }
    {
        Chars { items }
    }

    /// The characters, in order.
    pub fn as_slice(&self) -> &[Char]
        ensures { result.now ≡ self.now }
    {
        self.items.as_slice()
    }
}
