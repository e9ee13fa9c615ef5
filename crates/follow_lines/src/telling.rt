//! What is told of lines.
ghost use Rattle.std.specs.Prelude.{◌≡◌, [], IfOk, ℕ, List, if◌then◌else◌};
ghost use Rattle.std.specs.String.{string_bytes};
ghost use Rattle.rio_chars.specs.Written.{Writes};
ghost use Rattle.follow_lines.specs.declared.ends.FollowEnd.TheVariants as F;
ghost use Rattle.follow_lines.specs.Following.{HasWritten, TellsVerdict};
ghost use Rattle.follow_lines.specs.Reacting.{answered_line_text, TellsAnswered};
ghost use Rattle.follow_lines.specs.Telling.{end_line_text, ok_text, verdict_line_text};

use crate::ends::{FollowEnd, answered_end, verdict_end};
use fabric_script::Refusal;
use rio_chars::{Outbox, Sink};
use std::alloc::{AllocError, Global};

/// Tells `ok`, if it is to be told, and writes it at once.
pub(crate) fn tell_ok<K: Sink>(tell: bool, outbox: &mut Outbox<K>)
    requires { outbox.old.waiting ≡ [] }
    ensures told { Writes outbox.old outbox.new (ok_text tell) }
    ensures empty { outbox.new.waiting ≡ [] }
{
    if tell {
        write_now(b"ok\n", outbox);
    }
}

/// Tells the verdict, if there is one, and writes it at once. The answer is how the program ends.
pub(crate) fn tell_verdict<K: Sink>(
    alloc: Global,
    verdict: Result<u32, FollowEnd>,
    outbox: &mut Outbox<K>,
) -> FollowEnd
    ensures { (last : List ℕ) × TellsVerdict verdict result last
        × Writes outbox.old outbox.new last × HasWritten verdict result outbox.new }
{
    match verdict_line(alloc, verdict) {
        Ok(text) => tell_line(text.as_bytes(), verdict_end(verdict), outbox),
        Err(_) => tell_line(b"", FollowEnd::NoMemory, outbox),
    }
}

/// The same if reactions are judged.
pub(crate) fn tell_answered<K: Sink>(
    alloc: Global,
    verdict: Result<u64, FollowEnd>,
    outbox: &mut Outbox<K>,
) -> FollowEnd
    ensures { (last : List ℕ) × TellsAnswered verdict result last
        × Writes outbox.old outbox.new last × HasWritten verdict result outbox.new }
{
    match answered_line(alloc, verdict) {
        Ok(text) => tell_line(text.as_bytes(), answered_end(verdict), outbox),
        Err(_) => tell_line(b"", FollowEnd::NoMemory, outbox),
    }
}

/// Tells a line and writes it at once. The answer is this end, or that a write failed.
fn tell_line<K: Sink>(line: &[u8], end: FollowEnd, outbox: &mut Outbox<K>) -> FollowEnd
    ensures told { Writes outbox.old outbox.new line.now }
    ensures empty { outbox.new.waiting ≡ [] }
    ensures end { result ≡ (if outbox.new.failed then F.WriteFault else end) }
{
    write_now(line, outbox);
    if outbox.failed() {
        FollowEnd::WriteFault
    } else {
        end
    }
}

/// Tells bytes and writes them at once.
fn write_now<K: Sink>(bytes: &[u8], outbox: &mut Outbox<K>)
    ensures told { Writes outbox.old outbox.new bytes.now }
    ensures empty { outbox.new.waiting ≡ [] }
{
    outbox.write(bytes);
    outbox.flush();
}

/// The line of a verdict, or nothing if there is none.
fn verdict_line(alloc: Global, verdict: Result<u32, FollowEnd>) -> Result<String, AllocError>
    ensures { IfOk result (λ text. string_bytes text ≡ verdict_line_text verdict) }
{
    match verdict {
        Ok(steps) => format!(in alloc; "lawful {steps}\n"),
        Err(end) => end_line(alloc, end),
    }
}

/// The line of a verdict on reactions, or nothing if there is none.
fn answered_line(alloc: Global, verdict: Result<u64, FollowEnd>) -> Result<String, AllocError>
    ensures { IfOk result (λ text. string_bytes text ≡ answered_line_text verdict) }
{
    match verdict {
        Ok(count) => format!(in alloc; "answered {count}\n"),
        Err(end) => end_line(alloc, end),
    }
}

/// The line of an end, if it is a verdict.
fn end_line(alloc: Global, end: FollowEnd) -> Result<String, AllocError>
    ensures { IfOk result (λ text. string_bytes text ≡ end_line_text end) }
{
    match end {
        FollowEnd::Unlawful { line, reason } => format!(in alloc; "unlawful {line} {reason}\n"),
        FollowEnd::Wrong { line, .. } => format!(in alloc; "wrong {line}\n"),
        FollowEnd::Refused(refusal) => refusal_line(alloc, refusal),
        _ => Ok(String::new(alloc)),
    }
}

/// The line of a refusal.
fn refusal_line(alloc: Global, refusal: Refusal) -> Result<String, AllocError>
    ensures { IfOk result (λ text. string_bytes text ≡ end_line_text (F.Refused refusal)) }
{
    let line = refusal.line;
    let reason = refusal.reason;
    format!(in alloc; "refused {line} {reason}\n")
}
