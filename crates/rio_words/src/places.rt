//! How to see a line of a trace.
ghost use Rattle.std.specs.Prelude.{◌≡◌, ◌++◌, OnOk};
ghost use Rattle.rio_words.specs.Places.{first_shown as first_shown_of, lines_text};

use std::alloc::{AllocError, Global};

/// How many lines before a line that is not lawful are to be seen.
const LED_BY: u32 = 20;

/// Adds how to see a line of a trace, and what led to it.
pub fn push_lines(alloc: Global, message: &mut Vec<u8>, line: u32) -> Result<(), AllocError>
    ensures { OnOk result (message.new.items ≡ message.old.items ++ lines_text line) }
{
    let first = first_shown(line);
    let text = format!(in alloc;
        "rio: to see it: rio_view words --lines {first}-{line} < TRACE\n"
    )?;
    message.extend_from_slice(text.as_bytes())
}

/// The first line that is to be seen before a line.
fn first_shown(line: u32) -> u32
    ensures { result ≡ first_shown_of line }
{
    if line > LED_BY { line - LED_BY } else { 1 }
}
