//! What would have been lawful at a line of a trace, in words.
ghost use Rattle.std.specs.Prelude.{◌≡◌, ◌++◌, OnOk};
ghost use Rattle.rio_chars.specs.CharText.{spaced_chars};
ghost use Rattle.check_words.specs.Hints.{hint_text, expected_text, front_text, came_text, waiting_text};

use crate::needs::{push_hex, push_unmet};
use rio_chars::{Char, char_text};
use rio_packets::Packet;
use std::alloc::{AllocError, Global};
use trace_check::Expected;

/// Adds what would have been lawful, if that is known.
pub fn push_hint(
    alloc: Global,
    message: &mut Vec<u8>,
    expected: &Option<Expected>,
) -> Result<(), AllocError>
    ensures { OnOk result (message.new.items ≡ message.old.items ++ hint_text expected.now) }
{
    match expected {
        Some(expected) => push_expected(alloc, message, expected),
        None => Ok(()),
    }
}

/// Adds what would have been lawful.
fn push_expected(
    alloc: Global,
    message: &mut Vec<u8>,
    expected: &Expected,
) -> Result<(), AllocError>
    ensures { OnOk result (message.new.items ≡ message.old.items ++ expected_text expected.now) }
{
    match expected {
        Expected::Front(chars) => push_front(message, chars.as_slice()),
        Expected::OnWire(n) => {
            let text = format!(in alloc; "; the wire has a length of {n}")?;
            message.extend_from_slice(text.as_bytes())
        }
        Expected::OnLink(n) => {
            let text = format!(in alloc; "; a wire of the link has a length of {n}")?;
            message.extend_from_slice(text.as_bytes())
        }
        Expected::Came(ack, packet) => push_came(alloc, message, *ack, packet),
        Expected::Freed(n) => {
            let text = format!(in alloc; "; the number acknowledged so far is {n}")?;
            message.extend_from_slice(text.as_bytes())
        }
        Expected::Waiting(prio, packet) => push_waiting(alloc, message, *prio, packet),
        Expected::Needed(unmet) => push_unmet(alloc, message, unmet),
    }
}

/// Adds the next characters of a wire.
fn push_front(message: &mut Vec<u8>, chars: &[Char]) -> Result<(), AllocError>
    ensures { OnOk result (message.new.items ≡ message.old.items ++ front_text chars.now) }
{
    if chars.is_empty() {
        return message.extend_from_slice(b"; the wire is empty");
    }
    message.extend_from_slice(b"; the wire goes on with")?;
    push_chars(message, chars)
}

/// Adds the first packet that came with an ackID.
fn push_came(
    alloc: Global,
    message: &mut Vec<u8>,
    ack: u8,
    packet: &Option<Packet>,
) -> Result<(), AllocError>
    ensures { OnOk result (message.new.items ≡ message.old.items ++ came_text ack packet.now) }
{
    match packet {
        Some(packet) => {
            let text = format!(in alloc; "; the first packet that came so with ackID {ack} is ")?;
            message.extend_from_slice(text.as_bytes())?;
            push_hex(message, packet.bytes())
        }
        None => {
            let text = format!(in alloc; "; no packet came so with ackID {ack}")?;
            message.extend_from_slice(text.as_bytes())
        }
    }
}

/// Adds the first packet of a priority that waits.
fn push_waiting(
    alloc: Global,
    message: &mut Vec<u8>,
    prio: u8,
    packet: &Option<Packet>,
) -> Result<(), AllocError>
    ensures { OnOk result (message.new.items
        ≡ message.old.items ++ waiting_text prio packet.now) }
{
    match packet {
        Some(packet) => {
            let text = format!(in alloc; "; the first packet of priority {prio} that waits is ")?;
            message.extend_from_slice(text.as_bytes())?;
            push_hex(message, packet.bytes())
        }
        None => {
            let text = format!(in alloc; "; no packet of priority {prio} waits")?;
            message.extend_from_slice(text.as_bytes())
        }
    }
}

/// Adds characters, each behind a space.
fn push_chars(message: &mut Vec<u8>, chars: &[Char]) -> Result<(), AllocError>
    ensures { OnOk result (message.new.items ≡ message.old.items ++ spaced_chars chars.now) }
{
    for c in chars {
        message.push(b' ')?;
        message.extend_from_slice(&char_text(*c))?;
    }
    Ok(())
}
