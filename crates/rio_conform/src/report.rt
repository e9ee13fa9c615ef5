//! The report on a scenario.
ghost use Rattle.std.specs.Prelude.{◌≡◌, OnOk};
ghost use Rattle.rio_conform.specs.Report.{HasDetails};

use crate::trial::Trial;
use crate::verdict::Verdict;
use conform_lines::write_said;
use rio_chars::{NoMemory, Outbox, TextBuffer, TextSink};
use rio_framer::Framer;
use std::alloc::{AllocError, Global};

/// What stands before what characters say.
const SAYS: &[u8] = b"    # says: ";

/// Adds what there is to tell of the line at which a scenario ended, unless it passes.
pub(crate) fn push_details(
    alloc: Global,
    details: &mut Vec<u8>,
    verdict: Verdict,
    lines: &[String],
    trial: &Trial,
) -> Result<(), NoMemory>
    ensures { OnOk result (HasDetails verdict details.old.items details.new.items) }
{
    match verdict {
        Verdict::Passes | Verdict::Stopped(_) => Ok(()),
        Verdict::Misspelled(count) => {
            push_head(details, b"# ", lines, count)?;
            Ok(())
        }
        Verdict::Differs(count) | Verdict::Ended(count) => {
            details.extend_from_slice(b"  ---\n")?;
            push_head(details, b"  ", lines, count)?;
            details.extend_from_slice(b"  expected: |\n")?;
            push_answer(alloc, details, trial.expected.as_slice())?;
            details.extend_from_slice(b"  came: |\n")?;
            push_answer(alloc, details, trial.came.as_slice())?;
            details.extend_from_slice(b"  ...\n")?;
            Ok(())
        }
    }
}

/// Adds the number of a line, from 1 on, and the line, each behind a margin.
fn push_head(
    details: &mut Vec<u8>,
    margin: &[u8],
    lines: &[String],
    count: usize,
) -> Result<(), AllocError> {
    details.extend_from_slice(margin)?;
    details.extend_from_slice(b"step: ")?;
    push_number(details, count)?;
    details.push(b'\n')?;
    details.extend_from_slice(margin)?;
    details.extend_from_slice(b"line: ")?;
    if count < lines.len() {
        details.extend_from_slice(lines[count].as_str().as_bytes())?;
    }
    details.extend_from_slice(b"\n")
}

/// Adds a number, counted from 1 on.
fn push_number(details: &mut Vec<u8>, count: usize) -> Result<(), AllocError> {
    let number = match u32::try_from(count) {
        Ok(small) => small.saturating_add(1),
        Err(_) => u32::MAX,
    };
    refusal_words::push_number(details, number)
}

/// Adds the lines of an answer, each behind four spaces, and behind each that sends characters what
/// these say.
fn push_answer(alloc: Global, details: &mut Vec<u8>, text: &[u8]) -> Result<(), NoMemory> {
    if text.is_empty() {
        return Ok(());
    }
    let mut reader = Framer::new();
    let mut buffer = TextBuffer::new(alloc)?;
    let body = text.get(..text.len().saturating_sub(1)).unwrap_or(b"");
    for line in body.split(|byte| *byte == b'\n') {
        details.extend_from_slice(b"    ")?;
        details.extend_from_slice(line)?;
        details.extend_from_slice(b"\n")?;
        push_said(alloc, details, line, &mut reader, &mut buffer)?;
    }
    Ok(())
}

/// Adds what a line of an answer says.
fn push_said(
    alloc: Global,
    details: &mut Vec<u8>,
    line: &[u8],
    reader: &mut Framer,
    buffer: &mut TextBuffer,
) -> Result<(), NoMemory> {
    let mut said = TextSink::new(alloc);
    let mut outbox = Outbox::new(buffer, &mut said);
    let told = write_said(alloc, reader, line, SAYS, &mut outbox);
    outbox.flush();
    let failed = outbox.failed();
    outbox.into_sink();
    told?;
    if failed {
        return Err(NoMemory);
    }
    details.extend_from_slice(said.as_slice())?;
    Ok(())
}
