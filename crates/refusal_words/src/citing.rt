//! How a line is shown.
ghost use Rattle.std.specs.Prelude.{◌≡◌, ◌++◌, OnOk, map, take};
ghost use Rattle.rio_chars.specs.Written.{Writes};
ghost use Rattle.refusal_words.specs.Citing.{refusal_line, excerpt_of, shown_text, shown_byte as shown_byte_of};

use rio_chars::{Outbox, Sink};
use std::alloc::AllocError;

/// How many bytes of a line are shown.
const MOST_SHOWN: usize = 80;

/// Tells the line of a refusal: the number of its reason, and what is said of it.
pub fn write_refusal<K: Sink>(outbox: &mut Outbox<K>, reason: u8, why: &[u8])
    ensures { Writes outbox.old outbox.new (refusal_line reason why.now) }
{
    outbox.write(b"refused ");
    outbox.write_decimal(u32::from(reason));
    outbox.write(b" ");
    outbox.write(why);
    outbox.write(b"\n");
}

/// Adds what is shown of a line, after a colon, and nothing of an empty line.
pub fn push_excerpt(message: &mut Vec<u8>, text: &[u8]) -> Result<(), AllocError>
    ensures { OnOk result (message.new.items ≡ message.old.items ++ excerpt_of text.now) }
{
    if text.is_empty() {
        return Ok(());
    }
    message.extend_from_slice(b": ")?;
    push_shown(message, text)
}

/// Adds what is shown of a text: its first bytes, as a terminal prints them.
pub fn push_shown(message: &mut Vec<u8>, text: &[u8]) -> Result<(), AllocError>
    ensures { OnOk result (message.new.items ≡ message.old.items ++ shown_text text.now) }
{
    push_printed(message, front_of(text))?;
    if text.len() > MOST_SHOWN {
        message.extend_from_slice(b" ...")?;
    }
    Ok(())
}

/// The bytes of a line that are shown.
fn front_of(text: &[u8]) -> &[u8]
    ensures { result.now ≡ take 80 text.now }
{
    if text.len() <= MOST_SHOWN {
        return text;
    }
    &text[..MOST_SHOWN]
}

/// Adds bytes as they are shown.
fn push_printed(message: &mut Vec<u8>, bytes: &[u8]) -> Result<(), AllocError>
    ensures { OnOk result
        (message.new.items ≡ message.old.items ++ map shown_byte_of bytes.now) }
{
    for byte in bytes {
        message.push(shown_byte(*byte))?;
    }
    Ok(())
}

/// A byte as it is shown: a question mark for one that a terminal would not print.
fn shown_byte(byte: u8) -> u8
    ensures { result ≡ shown_byte_of byte }
{
    if b' ' <= byte && byte <= b'~' {
        byte
    } else {
        b'?'
    }
}
