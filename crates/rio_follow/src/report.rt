//! A report of what was checked, in the form of TAP 14.

use crate::why::push_reason;
use follow_lines::{FollowEnd, Journal};
use refusal_words::push_shown;
use rio_chars::{Sink, write_unless};
use std::alloc::{AllocError, Global};

/// How many lines before the one that is not lawful are shown.
const MOST_BEFORE: u64 = 20;

/// How many bytes of a line are shown.
const MOST_BYTES: usize = 200;

/// Writes a report of how it ended. Of an end that is no verdict it has the beginning of the line
/// that says why. The answer is whether a write failed.
pub(crate) fn say_report<M: Sink>(
    alloc: Global,
    end: FollowEnd,
    journal: &Journal,
    messages: &mut M,
) -> bool {
    match report_of(alloc, end, journal) {
        Ok(report) => write_unless(false, messages, report.as_slice()),
        Err(_) => write_unless(
            false,
            messages,
            b"Bail out! rio_follow: there is not enough memory\n",
        ),
    }
}

/// The report of how it ended.
fn report_of(alloc: Global, end: FollowEnd, journal: &Journal) -> Result<Vec<u8>, AllocError> {
    let mut report = Vec::new(alloc);
    report.extend_from_slice(b"TAP version 14\n1..1\n")?;
    match end {
        FollowEnd::Done => push_lawful(alloc, &mut report, journal)?,
        FollowEnd::Refused(refusal) => {
            let line = u64::from(refusal.line);
            push_hit(alloc, &mut report, "refused", line, refusal.reason, journal)?;
            report.extend_from_slice(b"  ...\n")?;
        }
        FollowEnd::Unlawful { line, reason } => {
            push_hit(alloc, &mut report, "unlawful", line, reason, journal)?;
            push_checked(alloc, &mut report, journal)?;
            push_place(alloc, &mut report, line, journal)?;
            report.extend_from_slice(b"  ...\n")?;
        }
        _ => report.extend_from_slice(b"Bail out! ")?,
    }
    Ok(report)
}

/// Adds what is said of a lawful trace.
fn push_lawful(alloc: Global, report: &mut Vec<u8>, journal: &Journal) -> Result<(), AllocError> {
    let mut steps = 0u64;
    for count in journal.notes.steps().counts() {
        steps = steps.saturating_add(count.times);
    }
    let head = format!(in alloc; "ok 1 - the trace is lawful\n  ---\n  verdict: lawful {steps}\n")?;
    report.extend_from_slice(head.as_bytes())?;
    push_checked(alloc, report, journal)?;
    report.extend_from_slice(b"  ...\n")
}

/// Adds what is said of a line that is refused or not lawful.
fn push_hit(
    alloc: Global,
    report: &mut Vec<u8>,
    kind: &str,
    line: u64,
    reason: u8,
    journal: &Journal,
) -> Result<(), AllocError> {
    report.extend_from_slice(b"not ok 1 - the trace is lawful\n  ---\n")?;
    let verdict = format!(in alloc; "  verdict: {kind} {line} {reason}\n  reason: |\n    ")?;
    report.extend_from_slice(verdict.as_bytes())?;
    push_reason(alloc, report, line, reason, journal)?;
    report.extend_from_slice(b"\n")
}

/// Adds what was checked: how many ports and links the fabric has, how many lines of the trace were
/// read, and how often each step was made.
fn push_checked(alloc: Global, report: &mut Vec<u8>, journal: &Journal) -> Result<(), AllocError> {
    let links = links_of(journal.script.as_slice());
    let ports = links.saturating_mul(2);
    let lines = journal.notes.lines();
    let text = format!(in alloc; "  ports: {ports}\n  links: {links}\n  lines: {lines}\n")?;
    report.extend_from_slice(text.as_bytes())?;
    push_steps(alloc, report, journal)
}

/// Adds how often each step was made.
fn push_steps(alloc: Global, report: &mut Vec<u8>, journal: &Journal) -> Result<(), AllocError> {
    let counts = journal.notes.steps().counts();
    if counts.is_empty() {
        return report.extend_from_slice(b"  steps: {}\n");
    }
    report.extend_from_slice(b"  steps:\n")?;
    for count in counts {
        report.extend_from_slice(b"    ")?;
        report.extend_from_slice(count.step.as_slice())?;
        let times = count.times;
        let text = format!(in alloc; ": {times}\n")?;
        report.extend_from_slice(text.as_bytes())?;
    }
    Ok(())
}

/// How many links the set-up lines make.
fn links_of(script: &[u8]) -> u64 {
    let mut links = 0u64;
    for line in script.split(|byte| *byte == b'\n') {
        if let [b'l', b'i', b'n', b'k', b' ', ..] = line {
            links = links.saturating_add(1);
        }
    }
    links
}

/// Adds the lines of the trace before the one with this number, counted over all, and this one.
fn push_place(
    alloc: Global,
    report: &mut Vec<u8>,
    line: u64,
    journal: &Journal,
) -> Result<(), AllocError> {
    let number = line.saturating_sub(u64::from(journal.before));
    let first = number.saturating_sub(MOST_BEFORE).max(1);
    if first < number {
        report.extend_from_slice(b"  before: |\n")?;
    }
    for place in first..number {
        push_line(alloc, report, place, journal)?;
    }
    if number <= journal.notes.lines() {
        report.extend_from_slice(b"  line: |\n")?;
        push_line(alloc, report, number, journal)?;
    }
    Ok(())
}

/// Adds the first bytes of a line of the trace, if it is kept, as a terminal prints them.
fn push_line(
    alloc: Global,
    report: &mut Vec<u8>,
    number: u64,
    journal: &Journal,
) -> Result<(), AllocError> {
    let Some(text) = journal.notes.line(number) else {
        return Ok(());
    };
    let line = number.saturating_add(u64::from(journal.before));
    let head = format!(in alloc; "    {line}: ")?;
    report.extend_from_slice(head.as_bytes())?;
    push_cut(report, text)?;
    report.extend_from_slice(b"\n")
}

/// Adds the first bytes of a text, in pieces that are short enough to be shown whole.
fn push_cut(report: &mut Vec<u8>, text: &[u8]) -> Result<(), AllocError> {
    let shown = text.get(..MOST_BYTES).unwrap_or(text);
    for piece in shown.chunks(80) {
        push_shown(report, piece)?;
    }
    if text.len() > MOST_BYTES {
        return report.extend_from_slice(b" ...");
    }
    Ok(())
}
