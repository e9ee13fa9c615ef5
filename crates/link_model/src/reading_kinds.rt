//! What one character is to a receiver.
ghost use Rattle.std.specs.Prelude.{◌≡◌};
ghost use Rattle.link_model.specs.ReadingKinds.{kind};

use rio_chars::Char;
use rio_symbols::Delimiter;

/// What a character is to a receiver, by the special characters of RapidIO Interconnect
/// Specification 1.3, Part 6.
#[derive(Clone, Copy, Debug, PartialEq, Eq)]
pub enum CharKind {
    /// A data character and its byte.
    Byte(u8),
    /// A delimiter, which begins a control symbol.
    Opens(Delimiter),
    /// An idle character: K28.5, K29.7 or K27.7.
    Idle,
    /// Any other special character, or no character at all.
    Stray,
}

/// What has come of a control symbol.
#[derive(Clone, Copy, Debug, PartialEq, Eq)]
pub enum Pending {
    /// No symbol is in progress.
    Nothing,
    /// Its delimiter.
    Opened(Delimiter),
    /// Its delimiter and one byte.
    One(Delimiter, u8),
    /// Its delimiter and two bytes.
    Two(Delimiter, u8, u8),
}

/// What a character is to a receiver.
#[tactic(auto, unfolding(crate::specs::ReadingKinds::kind))]
pub fn char_kind(c: Char) -> CharKind
    ensures { result ≡ kind c }
{
    match c {
        Char::Data(byte) => CharKind::Byte(byte),
        Char::Special(0x1c) => CharKind::Opens(Delimiter::Sc),
        Char::Special(0x7c) => CharKind::Opens(Delimiter::Pd),
        Char::Special(0xbc | 0xfd | 0xfb) => CharKind::Idle,
        Char::Special(_) | Char::Invalid => CharKind::Stray,
    }
}
