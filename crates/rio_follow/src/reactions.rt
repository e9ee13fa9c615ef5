//! What is said of reactions, in words.

use fabric_script::{PortRef, split_word};
use follow_lines::{FollowEnd, Journal};
use refusal_words::{push_excerpt, push_shown};
use rio_chars::{Sink, write_unless};
use std::alloc::{AllocError, Global};
use trace_reactions::{Judge, Reaction, ReactionKind, WrongReaction};

/// How many ports a node has at most.
const PORTS: u8 = 16;

/// Says which reaction was not due, or which ones are due at the end. The answer is whether a write
/// failed.
pub(crate) fn say_reactions<M: Sink>(
    alloc: Global,
    end: FollowEnd,
    journal: &Journal,
    messages: &mut M,
) -> bool {
    let said = match end {
        FollowEnd::Wrong { line, wrong } => wrong_of(alloc, line, wrong, journal),
        FollowEnd::Done => due_of(alloc, journal),
        _ => return false,
    };
    match said {
        Ok(message) => write_unless(false, messages, message.as_slice()),
        Err(_) => write_unless(false, messages, b"rio_follow: there is not enough memory\n"),
    }
}

/// What is said of a line that has a reaction which was not due.
fn wrong_of(
    alloc: Global,
    line: u64,
    wrong: WrongReaction,
    journal: &Journal,
) -> Result<Vec<u8>, AllocError> {
    let text = journal.line.as_slice();
    let mut message = Vec::new(alloc);
    let head = format!(in alloc; "rio_follow: line {line}: ")?;
    message.extend_from_slice(head.as_bytes())?;
    push_shown(&mut message, second_word(text))?;
    message.extend_from_slice(b" sent ")?;
    push_reaction(alloc, &mut message, wrong.answer.sent)?;
    message.extend_from_slice(b", and ")?;
    match wrong.answer.due {
        Some(due) => push_reaction(alloc, &mut message, due)?,
        None => message.extend_from_slice(b"no reaction")?,
    }
    message.extend_from_slice(b" was due")?;
    push_excerpt(&mut message, text)?;
    message.extend_from_slice(b"\n")?;
    Ok(message)
}

/// The second word of a line, which names the port.
fn second_word(text: &[u8]) -> &[u8] {
    match split_word(text) {
        (_, Some(rest)) => split_word(rest).0,
        (_, None) => b"",
    }
}

/// Adds a reaction: the name of its symbol, and its ackID.
fn push_reaction(
    alloc: Global,
    message: &mut Vec<u8>,
    reaction: Reaction,
) -> Result<(), AllocError> {
    message.extend_from_slice(kind_name(reaction.kind))?;
    let ack = reaction.ack;
    let text = format!(in alloc; " {ack}")?;
    message.extend_from_slice(text.as_bytes())
}

/// The name of a symbol.
fn kind_name(kind: ReactionKind) -> &'static [u8] {
    match kind {
        ReactionKind::Accepted => b"packet-accepted",
        ReactionKind::Retry => b"packet-retry",
        ReactionKind::NotAccepted => b"packet-not-accepted",
        ReactionKind::Response => b"link-response",
    }
}

/// A line for each port that has not sent all reactions that are due.
fn due_of(alloc: Global, journal: &Journal) -> Result<Vec<u8>, AllocError> {
    let mut message = Vec::new(alloc);
    if let Some(judge) = &journal.judge {
        push_due(alloc, &mut message, judge)?;
    }
    Ok(message)
}

/// Adds a line for each port that has not sent all reactions that are due.
fn push_due(alloc: Global, message: &mut Vec<u8>, judge: &Judge) -> Result<(), AllocError> {
    let mut node = 0u8;
    for name in judge.set_up().names() {
        for port in 0..PORTS {
            let count = judge.due(PortRef { node, port });
            if count > 0 {
                message.extend_from_slice(b"rio_follow: ")?;
                message.extend_from_slice(name.as_slice())?;
                let text = format!(in alloc; ".{port} has not sent what is due: {count}\n")?;
                message.extend_from_slice(text.as_bytes())?;
            }
        }
        node = node.saturating_add(1);
    }
    Ok(())
}
