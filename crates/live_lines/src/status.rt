//! How a program ended.
ghost use Rattle.std.specs.Prelude.{◌≡◌, false, Some, None, MatchOption};
ghost use Rattle.rio_chars.specs.Unless.{WritesUnless};
ghost use Rattle.live_lines.specs.Statuses.{status_value, message_of, status_words};
ghost use Rattle.live_lines.specs.Serving.{end_status};

use crate::input::LineEnd;
use rio_chars::{Sink, write_unless};

/// How a program ended. The numbers are those of `rio`.
#[derive(Clone, Copy, Debug, PartialEq, Eq)]
pub enum LiveStatus {
    /// The end of input was reached.
    Done,
    /// The words ask for nothing.
    Words,
    /// The source failed.
    ReadFault,
    /// The sink failed.
    WriteFault,
    /// Memory ran out.
    NoMemory,
    /// A port acted on an event that was not sent.
    Undetected,
    /// A line is too long.
    TooLong,
}

impl From<LineEnd> for LiveStatus {
    ghost from_gives = { λ end status. status ≡ end_status end };

    fn from(end: LineEnd) -> Self {
        match end {
            LineEnd::End => LiveStatus::Done,
            LineEnd::Fault => LiveStatus::ReadFault,
            LineEnd::TooLong => LiveStatus::TooLong,
            LineEnd::NoMemory => LiveStatus::NoMemory,
        }
    }
}

/// The exit status of a program.
pub fn status_number(status: LiveStatus) -> u8
    ensures { result ≡ status_value status }
{
    match status {
        LiveStatus::Done => 0,
        LiveStatus::Words => 2,
        LiveStatus::ReadFault => 4,
        LiveStatus::WriteFault => 5,
        LiveStatus::NoMemory => 6,
        LiveStatus::Undetected => 7,
        LiveStatus::TooLong => 8,
    }
}

/// Says in one line what there is to say of a status: the program's name, with a colon and a space,
/// and then words; at `Words` how the program is used. At `Done` nothing is said. The answer is
/// whether a write failed.
pub fn say<M: Sink>(messages: &mut M, name: &[u8], usage: &[u8], status: LiveStatus) -> bool
    ensures { WritesUnless false (M.written messages.old) (M.faults messages.old) result
        (M.written messages.new) (M.faults messages.new)
        (message_of name.now usage.now status) }
{
    let Some(words) = words(usage, status) else {
        return false;
    };
    let failed = write_unless(false, messages, name);
    write_unless(failed, messages, words)
}

/// What is said of a status behind the name of the program, if anything is.
fn words(usage: &[u8], status: LiveStatus) -> Option<&[u8]>
    ensures { MatchOption result (status_words usage.entry.now status ≡ None)
        (λ words. status_words usage.entry.now status ≡ Some words.now) }
{
    match status {
        LiveStatus::Done => None,
        LiveStatus::Words => Some(usage),
        LiveStatus::ReadFault => Some(b"standard input cannot be read\n"),
        LiveStatus::WriteFault => Some(b"standard output cannot be written\n"),
        LiveStatus::NoMemory => Some(b"there is not enough memory\n"),
        LiveStatus::Undetected => Some(b"a port acted on what was not sent\n"),
        LiveStatus::TooLong => Some(b"a line is longer than 4194304 bytes\n"),
    }
}
