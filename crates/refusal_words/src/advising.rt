//! What in a line is to blame.
ghost use Rattle.std.specs.Prelude.{◌≡◌, ◌++◌, [], ℕ, List, IfOk, OnOk, MatchBool};
ghost use Rattle.std.specs.Fmt.{decimal};
ghost use Rattle.refusal_words.specs.Advising.{IsWhy, IsPlainWhy, advice_text as advice_text_of, blame_text, word_kind_text};
ghost use Rattle.fabric_script.specs.declared.advice.Advice.TheVariants as AnAdvice;
ghost use Rattle.fabric_script.specs.declared.advice.WordKind.TheVariants as AWordKind;

use crate::blame::{Blame, blame_of, plain_blame};
use fabric_script::{Advice, WordKind};
use rio_chars::write_decimal;
use std::alloc::{AllocError, Global};

/// Adds what in the text of a line is to blame that is refused for the reason of this number, if the
/// text alone shows that, or else what the reason means.
pub fn push_why(
    alloc: Global,
    message: &mut Vec<u8>,
    text: &[u8],
    reason: u8,
    meaning: &[u8],
) -> Result<(), AllocError>
    ensures { OnOk result ((why : List ℕ) × IsWhy text.now meaning.now why
        × (message.new.items ≡ message.old.items ++ why)) }
{
    push_blame(message, blame_of(alloc, text, reason), meaning)
}

/// Adds what is to blame in a line of any language, if the bytes of its text alone show that, and
/// answers whether they do.
pub fn push_plain(message: &mut Vec<u8>, text: &[u8]) -> Result<bool, AllocError>
    ensures { IfOk result (λ found. MatchBool found
        ((why : List ℕ) × IsPlainWhy text.now why
        × (message.new.items ≡ message.old.items ++ why))
        (message.new.items ≡ message.old.items)) }
{
    let Some(blame) = plain_blame(text) else {
        return Ok(false);
    };
    push_blame(message, blame, b"")?;
    Ok(true)
}

/// Adds what is to blame.
fn push_blame(message: &mut Vec<u8>, blame: Blame, meaning: &[u8]) -> Result<(), AllocError>
    ensures { OnOk result
        (message.new.items ≡ message.old.items ++ blame_text meaning.now blame) }
{
    match blame {
        Blame::Advice(advice) => push_advice(message, advice, meaning),
        Blame::ByteOrderMark => message.extend_from_slice(
            b"the line begins with a byte-order mark, and only plain ASCII is read",
        ),
        Blame::ZeroByte => message.extend_from_slice(
            b"the line has bytes of 0, as UTF-16 has, and only plain ASCII is read",
        ),
        Blame::Tab => message.extend_from_slice(
            b"the line has a tab, and one space separates words",
        ),
        Blame::TraceLine => message.extend_from_slice(
            b"a line of a trace may not stand here: rio check and rio_view read one after set-up lines and a line ---, as examples/traced.sh writes them",
        ),
        Blame::Between => message.extend_from_slice(
            b"a line --- stands between set-up lines and a trace, which rio check and rio_view read, and in no script",
        ),
    }
}

/// Adds what in a line is to blame, or the reason if its text alone does not show that.
pub fn push_advice(message: &mut Vec<u8>, advice: Advice, reason: &[u8]) -> Result<(), AllocError>
    ensures { OnOk result
        (message.new.items ≡ message.old.items ++ advice_text_of reason.now advice) }
{
    match advice {
        Advice::Nothing => message.extend_from_slice(reason),
        Advice::CarriageReturn => message.extend_from_slice(
            b"the line ends with a carriage return",
        ),
        Advice::Indent => message.extend_from_slice(b"the line begins with a space"),
        Advice::Comment => {
            message.extend_from_slice(b"a comment needs a line of its own that begins with #")
        }
        Advice::EmptyWord => {
            message.extend_from_slice(b"one space separates two words, and none ends a line")
        }
        Advice::Keyword => message.extend_from_slice(b"no kind of line begins with this word"),
        Advice::WordCount(count) => push_words(message, count),
        Advice::Word { place, kind } => push_word(message, place, kind),
    }
}

/// Adds how many words a line has behind its first.
fn push_words(message: &mut Vec<u8>, count: u8) -> Result<(), AllocError>
    ensures { OnOk result (message.new.items
        ≡ message.old.items ++ advice_text_of [] (AnAdvice.WordCount count)) }
{
    message.extend_from_slice(b"this kind of line has ")?;
    push_number(message, u32::from(count))?;
    message.extend_from_slice(b" words after the first")
}

/// Adds what the word at this place must be.
fn push_word(message: &mut Vec<u8>, place: u8, kind: WordKind) -> Result<(), AllocError>
    ensures { OnOk result (message.new.items
        ≡ message.old.items ++ advice_text_of [] (AnAdvice.Word place kind)) }
{
    message.extend_from_slice(b"word ")?;
    push_number(message, u32::from(place))?;
    message.extend_from_slice(b" must be ")?;
    push_kind(message, kind)
}

/// Adds how a word is spelled.
pub fn push_kind(message: &mut Vec<u8>, kind: WordKind) -> Result<(), AllocError>
    ensures { OnOk result (message.new.items ≡ message.old.items ++ word_kind_text kind) }
{
    match kind {
        WordKind::Name => message.extend_from_slice(b"a letter and up to seven letters or digits"),
        WordKind::Port => message.extend_from_slice(b"a name, a point and a number from 0 to 15"),
        WordKind::Number { least, most } => push_range(message, least, most),
        WordKind::Bytes => message.extend_from_slice(
            b"bytes of two lower-case hexadecimal digits each, or a hyphen for none",
        ),
        WordKind::Digits(count) => push_digits(message, count),
        WordKind::Character => {
            message.extend_from_slice(b"d or k and two lower-case hexadecimal digits, or inv")
        }
    }
}

/// Adds how a number of a range is spelled.
fn push_range(message: &mut Vec<u8>, least: u32, most: u32) -> Result<(), AllocError>
    ensures { OnOk result (message.new.items
        ≡ message.old.items ++ word_kind_text (AWordKind.Number least most)) }
{
    message.extend_from_slice(b"a number from ")?;
    push_number(message, least)?;
    message.extend_from_slice(b" to ")?;
    push_number(message, most)?;
    message.extend_from_slice(b" in decimal")
}

/// Adds how a number in so many digits is spelled.
fn push_digits(message: &mut Vec<u8>, count: u8) -> Result<(), AllocError>
    ensures { OnOk result (message.new.items
        ≡ message.old.items ++ word_kind_text (AWordKind.Digits count)) }
{
    push_number(message, u32::from(count))?;
    message.extend_from_slice(b" lower-case hexadecimal digits")
}

/// Adds a number in decimal digits.
pub fn push_number(message: &mut Vec<u8>, number: u32) -> Result<(), AllocError>
    ensures { OnOk result (message.new.items ≡ message.old.items ++ decimal number) }
{
    let mut digits = [0; 10];
    let begin = write_decimal(number, &mut digits);
    message.extend_from_slice(&digits[begin..])
}
