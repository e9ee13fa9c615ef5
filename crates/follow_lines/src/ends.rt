//! How the program ends.
ghost use Rattle.std.specs.Prelude.{◌≡◌};
ghost use Rattle.follow_lines.specs.FollowEnds.{end_of_check, end_of_judge, end_of_lines, end_of_verdict, end_words as end_words_of, end_value};

use fabric_script::Refusal;
use live_lines::LineEnd;
use trace_check::CheckEnd;
use trace_reactions::{JudgeEnd, WrongReaction};

/// How the program ends. The numbers are those of `rio`.
#[derive(Clone, Copy, Debug, PartialEq, Eq)]
pub enum FollowEnd {
    /// The trace is lawful, or a question was answered.
    Done,
    /// The words ask for nothing.
    Words,
    /// The set-up lines are refused, or no line `---` stands behind them.
    Refused(Refusal),
    /// A reason hits this line, counted from 1 among all that were read, and this is the least.
    Unlawful { line: u64, reason: u8 },
    /// This line has a reaction that was not due.
    Wrong { line: u64, wrong: WrongReaction },
    /// The source failed.
    ReadFault,
    /// The sink failed.
    WriteFault,
    /// Memory ran out.
    NoMemory,
    /// A line is too long.
    LineTooLong,
    /// The set-up lines are too long.
    SetUpTooLong,
    /// The trace has more lines than are counted.
    TooManyLines,
}

/// What a check says of the lines behind others, of which there are so many.
pub(crate) fn check_end(before: u32, end: CheckEnd) -> FollowEnd
    ensures { result ≡ end_of_check before end }
{
    match end {
        CheckEnd::Refused(refusal) => FollowEnd::Refused(refusal),
        CheckEnd::Unlawful(hit) => FollowEnd::Unlawful {
            line: u64::from(before) + u64::from(hit.line),
            reason: hit.reason,
        },
        CheckEnd::NoMemory => FollowEnd::NoMemory,
    }
}

/// What a judge of reactions says of the line with this number.
pub(crate) fn judge_end(line: u64, end: JudgeEnd) -> FollowEnd
    ensures { result ≡ end_of_judge line end }
{
    match end {
        JudgeEnd::NoForm => FollowEnd::Unlawful { line, reason: 21 },
        JudgeEnd::Wrong(wrong) => FollowEnd::Wrong { line, wrong },
        JudgeEnd::NoMemory => FollowEnd::NoMemory,
    }
}

/// How it ends if there is no further line, if not for the end of input.
pub(crate) fn lines_end(end: LineEnd) -> Option<FollowEnd>
    ensures { result ≡ end_of_lines end }
{
    match end {
        LineEnd::End => None,
        LineEnd::Fault => Some(FollowEnd::ReadFault),
        LineEnd::TooLong => Some(FollowEnd::LineTooLong),
        LineEnd::NoMemory => Some(FollowEnd::NoMemory),
    }
}

/// How it ends with this verdict: how many steps a lawful trace has, or why there is none.
pub(crate) fn verdict_end(verdict: Result<u32, FollowEnd>) -> FollowEnd
    ensures { result ≡ end_of_verdict verdict }
{
    match verdict {
        Ok(_) => FollowEnd::Done,
        Err(end) => end,
    }
}

/// The same with a verdict on reactions: how many were sent, or why there is none.
pub(crate) fn answered_end(verdict: Result<u64, FollowEnd>) -> FollowEnd
    ensures { result ≡ end_of_verdict verdict }
{
    match verdict {
        Ok(_) => FollowEnd::Done,
        Err(end) => end,
    }
}

/// The exit status of the program.
pub fn end_number(end: FollowEnd) -> u8
    ensures { result ≡ end_value end }
{
    match end {
        FollowEnd::Done => 0,
        FollowEnd::Words => 2,
        FollowEnd::Refused(_) => 3,
        FollowEnd::ReadFault => 4,
        FollowEnd::WriteFault => 5,
        FollowEnd::NoMemory => 6,
        FollowEnd::LineTooLong => 8,
        FollowEnd::SetUpTooLong => 8,
        FollowEnd::TooManyLines => 8,
        FollowEnd::Unlawful { .. } => 10,
        FollowEnd::Wrong { .. } => 10,
    }
}

/// What is said of an end, but for why lines are refused or not lawful.
pub fn end_words(end: FollowEnd) -> &'static [u8]
    ensures { result.now ≡ end_words_of end }
{
    match end {
        FollowEnd::Done => b"",
        FollowEnd::Words => b"usage: rio_follow [tell] [--report tap] | reactions\n",
        FollowEnd::Refused(_) => b"",
        FollowEnd::ReadFault => b"rio_follow: standard input cannot be read\n",
        FollowEnd::WriteFault => b"rio_follow: standard output cannot be written\n",
        FollowEnd::NoMemory => b"rio_follow: there is not enough memory\n",
        FollowEnd::LineTooLong => b"rio_follow: a line is longer than 4194304 bytes\n",
        FollowEnd::SetUpTooLong => b"rio_follow: the set-up lines have more than 4194304 bytes\n",
        FollowEnd::TooManyLines => b"rio_follow: the trace has more than 4294967294 lines\n",
        FollowEnd::Unlawful { .. } => b"",
        FollowEnd::Wrong { .. } => b"",
    }
}
