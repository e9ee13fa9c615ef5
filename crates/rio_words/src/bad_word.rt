//! What in a line of characters is to blame.
ghost use Rattle.std.specs.Prelude.{◌≡◌, ◌++◌, ◌∷◌, [], ℕ, List, IfSome, OnOk};
ghost use Rattle.rio_words.specs.BadWords.{IsNoCharacter, IsCharsWhy, no_character_text};

use refusal_words::push_shown;
use rio_chars::read_char;
use std::alloc::AllocError;

/// Adds what is to blame in a line of characters of which a word is none.
pub fn push_bad_word(message: &mut Vec<u8>, text: &[u8]) -> Result<(), AllocError>
    ensures { OnOk result ((why : List ℕ) × IsCharsWhy text.now why
        × (message.new.items ≡ message.old.items ++ why)) }
{
    if let [.., b'\r'] = text {
        return message.extend_from_slice(b"the line ends with a carriage return");
    }
    match bad_word_of(text) {
        Some(word) => push_no_character(message, word),
        None => message.extend_from_slice(b"a word of this line is not a character"),
    }
}

/// Adds that a word is no character.
fn push_no_character(message: &mut Vec<u8>, word: &[u8]) -> Result<(), AllocError>
    ensures { OnOk result
        (message.new.items ≡ message.old.items ++ no_character_text word.now) }
{
    push_shown(message, word)?;
    message.extend_from_slice(
        b" is no character: d or k and two lower-case hexadecimal digits, or inv",
    )
}

/// The first word of a line that is no character.
fn bad_word_of(text: &[u8]) -> Option<&[u8]>
    ensures { IfSome result (λ word. IsNoCharacter text.now word.now) }
{
    for word in text.split(|byte| *byte == b' ') {
        if !word.is_empty() && read_char(word).is_none() {
            return Some(word);
        }
    }
    None
}
