//! What of a text is to blame, in words.
ghost use Rattle.std.specs.Prelude.{◌≡◌, ◌++◌, IfOk, OnOk, codes};
ghost use Rattle.std.specs.String.{string_bytes};
ghost use Rattle.rio_chars.specs.HexText.{hex_of};
ghost use Rattle.check_words.specs.MisfitTexts.{word_fault_end, word_fault_front, word_fault_text, misfit_text};

use crate::misfits::{Misfit, WordFault};
use crate::needs::push_hex;
use crate::reasons::trace_reason;
use std::alloc::{AllocError, Global};

/// Adds what of a text is to blame, or what the reason of a text without a form means.
pub(crate) fn push_misfit(
    alloc: Global,
    message: &mut Vec<u8>,
    misfit: Misfit,
) -> Result<(), AllocError>
    ensures { OnOk result (message.new.items ≡ message.old.items ++ misfit_text misfit) }
{
    match misfit {
        Misfit::Nothing => message.extend_from_slice(trace_reason(21)),
        Misfit::EmptyLine => message.extend_from_slice(b"the line is empty"),
        Misfit::Comment => message.extend_from_slice(
            b"a trace has no comments: they stand among set-up lines alone",
        ),
        Misfit::Keyword => message.extend_from_slice(
            b"no line of a trace begins with this word, and before an event stands >",
        ),
        Misfit::EmptyWord => message.extend_from_slice(
            b"one space separates two words, and none ends a line",
        ),
        Misfit::Missing(place) => {
            let text = format!(in alloc; "word {place} is missing")?;
            message.extend_from_slice(text.as_bytes())
        }
        Misfit::TooMany(place) => {
            let text = format!(in alloc; "word {place} is one too many")?;
            message.extend_from_slice(text.as_bytes())
        }
        Misfit::Word { place, fault } => push_fault(alloc, message, place, fault),
    }
}

/// Adds what of the word at this place is to blame.
fn push_fault(
    alloc: Global,
    message: &mut Vec<u8>,
    place: usize,
    fault: WordFault,
) -> Result<(), AllocError>
    ensures { OnOk result (message.new.items ≡ message.old.items ++ word_fault_text place fault) }
{
    let text = front_of(alloc, place, fault)?;
    message.extend_from_slice(text.as_bytes())?;
    push_end(message, fault)
}

/// What of the word at this place is to blame.
fn front_of(alloc: Global, place: usize, fault: WordFault) -> Result<String, AllocError>
    ensures { IfOk result (λ text. string_bytes text ≡ word_fault_front place fault) }
{
    match fault {
        WordFault::NoNode => format!(in alloc; "word {place} is the name of no node"),
        WordFault::NoPoint => {
            format!(in alloc; "word {place} must be a name, a point and a number from 0 to 15")
        }
        WordFault::NoPortNode => {
            format!(in alloc; "what stands before the point of word {place} is the name of no node")
        }
        WordFault::NoPort => {
            format!(in alloc; "the node of word {place} has no port of this number")
        }
        WordFault::Unlinked => format!(in alloc; "the port of word {place} has no link"),
        WordFault::NoCharacter => format!(in alloc;
            "word {place} must be d or k and two lower-case hexadecimal digits, or inv"
        ),
        WordFault::NoNumber => {
            format!(in alloc; "word {place} must be a number from 0 to 4294967295 in decimal")
        }
        WordFault::NoEventKind => format!(in alloc; "word {place} must be symbol or packet"),
        WordFault::Capital(digit) => format!(in alloc;
            "digit {digit} of word {place} is a capital one, and digits are lower-case"
        ),
        WordFault::NoDigit(digit) => {
            format!(in alloc; "character {digit} of word {place} is no hexadecimal digit")
        }
        WordFault::OddDigits => format!(in alloc;
            "word {place} has an odd number of digits, and a byte has two"
        ),
        WordFault::PacketLength(n) => format!(in alloc;
            "word {place} has {n} bytes, and a packet has 8 to 276, a multiple of 4"
        ),
        WordFault::AckId => format!(in alloc;
            "word {place} has an ackID, and the first six bits of a packet are 0"
        ),
        WordFault::Crc { behind, .. } => {
            format!(in alloc; "word {place} has behind byte {behind} the CRC ")
        }
    }
}

/// Adds the CRC that is there and the one that is right, if that is to blame.
fn push_end(message: &mut Vec<u8>, fault: WordFault) -> Result<(), AllocError>
    ensures { OnOk result (message.new.items ≡ message.old.items ++ word_fault_end fault) }
{
    match fault {
        WordFault::Crc { there, right, .. } => push_crcs(message, &there, &right),
        WordFault::NoNode | WordFault::NoPoint | WordFault::NoPortNode | WordFault::NoPort => Ok(
            (),
        ),
        WordFault::Unlinked | WordFault::NoCharacter | WordFault::NoNumber => Ok(()),
        WordFault::NoEventKind | WordFault::Capital(_) | WordFault::NoDigit(_) => Ok(()),
        WordFault::OddDigits | WordFault::PacketLength(_) | WordFault::AckId => Ok(()),
    }
}

/// Adds the CRC that is there and the one that is right.
fn push_crcs(message: &mut Vec<u8>, there: &[u8], right: &[u8]) -> Result<(), AllocError>
    ensures { OnOk result (message.new.items ≡ message.old.items
        ++ (hex_of there.now ++ (codes ", and the right one is " ++ hex_of right.now))) }
{
    push_hex(message, there)?;
    message.extend_from_slice(b", and the right one is ")?;
    push_hex(message, right)
}
