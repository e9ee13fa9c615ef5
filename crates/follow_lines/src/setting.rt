//! The set-up lines before a trace.
ghost use Rattle.std.specs.Prelude.{◌≡◌, ◌≢◌, ◌≤◌, ◌++◌, [], length, codes, IfOk, OnOk, MatchBool};
ghost use Rattle.live_lines.specs.Lines.{with_feed};
ghost use Rattle.follow_lines.specs.Following.{ReadsSetUp, set_up_ended};

use crate::ends::{FollowEnd, lines_end};
use live_lines::{LineEnd, LineReader};
use rio_chars::Source;
use std::alloc::AllocError;

/// The most bytes that the set-up lines have.
const MOST_SET_UP: usize = 4_194_304;

/// How many set-up lines were read, and whether a line `---` stands behind them.
#[derive(Clone, Copy, Debug, PartialEq, Eq)]
pub(crate) struct SetUpRead {
    pub(crate) lines: u32,
    pub(crate) parted: bool,
}

/// Reads set-up lines, up to a line `---`, which is no part of them, or to the end of input.
pub(crate) fn read_set_up_lines<S: Source>(
    input: &mut LineReader,
    script: &mut Vec<u8>,
    line: &mut Vec<u8>,
    source: &mut S,
) -> Result<SetUpRead, FollowEnd>
    requires { script.old.items ≡ [] }
    ensures reads { ReadsSetUp result script.new.items input.old input.new
        (S.left source.old) (S.left source.new) (S.faults source.old) (S.faults source.new) }
    ensures short { IfOk result (λ read. length script.new.items ≤ 4194304) }
    ensures few { IfOk result (λ read. read.lines ≤ length script.new.items) }
{
    let mut lines = 0u32;
    while script.len() <= MOST_SET_UP {
        if let Err(end) = input.read_line(source, line) {
            return ended(lines, end);
        }
        if is_between(line.as_slice()) {
            return Ok(SetUpRead {
                lines,
                parted: true,
            });
        }
        let Ok(()) = add_line(script, line.as_slice()) else {
            return Err(FollowEnd::NoMemory);
        };
        lines += 1;
    }
    Err(FollowEnd::SetUpTooLong)
}

/// Whether a line is the one between the set-up lines and the trace.
fn is_between(line: &[u8]) -> bool
    ensures { MatchBool result (line.now ≡ codes "---") (line.now ≢ codes "---") }
{
    match line {
        b"---" => true,
        _ => false,
    }
}

/// What was read, if no further line comes.
fn ended(lines: u32, end: LineEnd) -> Result<SetUpRead, FollowEnd>
    ensures { result ≡ set_up_ended lines end }
{
    match lines_end(end) {
        Some(end) => Err(end),
        None => Ok(SetUpRead {
            lines,
            parted: false,
        }),
    }
}

/// Adds a line with its line feed. If memory is not given, only that the bytes may be dropped is
/// promised.
fn add_line(script: &mut Vec<u8>, line: &[u8]) -> Result<(), AllocError>
    ensures { OnOk result (script.new.items ≡ script.old.items ++ with_feed line.now) }
{
    script.extend_from_slice(line)?;
    script.push(b'\n')?;
    Ok(())
}
