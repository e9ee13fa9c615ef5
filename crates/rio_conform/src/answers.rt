//! The answers of a device.
ghost use Rattle.std.specs.Prelude.{◌≡◌, ◌++◌, ◌↔◌, IsTrue, codes, OnOk, IfErr};
ghost use Rattle.live_lines.specs.declared.input.LineEnd.TheVariants.{End};
ghost use Rattle.live_lines.specs.Lines.{with_feed};
ghost use Rattle.rio_conform.specs.Answers.{IsDeviceAnswer, Came, EndsEarly};

use live_lines::{LineEnd, LineReader};
use rio_chars::Source;
use std::alloc::AllocError;

/// The most lines of an answer. A port has fewer, whatever it is asked.
const MOST_LINES: u32 = 100_000_000;

/// Reads an answer: the lines up to `ok`, each with its line feed.
pub(crate) fn read_answer<S: Source>(
    input: &mut LineReader,
    source: &mut S,
    line: &mut Vec<u8>,
    answer: &mut Vec<u8>,
) -> Result<(), LineEnd>
    ensures answer { OnOk result (IsDeviceAnswer answer.new.items) }
    ensures read { OnOk result
        (Came (S.left source.old) (S.left source.new) input.old input.new answer.new.items) }
    ensures ended { IfErr result (λ end. end ≡ End
        → EndsEarly (S.left source.old) (S.left source.new) input.old) }
{
    answer.clear();
    let mut left = MOST_LINES;
    while left > 0 {
        if let Err(end) = input.read_line(source, line) {
            return Err(end);
        }
        let Ok(()) = add_line(answer, line.as_slice()) else {
            return Err(LineEnd::NoMemory);
        };
        if ends_answer(line.as_slice()) {
            return Ok(());
        }
        left -= 1;
    }
    Err(LineEnd::TooLong)
}

/// Adds a line and its line feed.
fn add_line(answer: &mut Vec<u8>, line: &[u8]) -> Result<(), AllocError>
    ensures { OnOk result (answer.new.items ≡ answer.old.items ++ with_feed line.now) }
{
    answer.extend_from_slice(line)?;
    answer.extend_from_slice(b"\n")
}

/// Whether a line is the last one of an answer.
fn ends_answer(line: &[u8]) -> bool
    ensures { IsTrue result ↔ (line.now ≡ codes "ok") }
{
    line == b"ok".as_slice()
}
