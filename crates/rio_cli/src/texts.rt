//! Why a line is refused, in words.
ghost use Rattle.std.specs.Prelude.{◌≡◌};
ghost use Rattle.rio_cli.specs.Texts.{reason_text as reason_text_of, contest_reason as contest_reason_of};

use crate::command::Command;
use check_words::trace_reason;
use refusal_words::{script_reason, set_up_reason};

/// Why a line is refused, by the number of the reason.
pub(crate) fn reason_text(command: &Command, reason: u8) -> &'static [u8]
    ensures { result.now ≡ reason_text_of command.now reason }
{
    match command {
        Command::Replay => script_reason(reason),
        Command::Enumerate(_) => set_up_reason(reason),
        Command::Contest { .. } => contest_reason(reason),
        Command::Decode => b"a word of this line is not a character",
        Command::Check => trace_reason(reason),
        Command::Io => io_reason(reason),
    }
}

/// Why a line of reads and writes of memory is refused.
fn io_reason(reason: u8) -> &'static [u8]
    ensures { result.now ≡ reason_text_of Command.Io reason }
{
    match reason {
        10 => b"the bytes have a length that is not allowed",
        14 =>
            b"a fabric may have 64 nodes, and lines after --- may cost 100000: round costs 20 times the links, any other line 1",
        15 => b"no line --- follows the set-up lines",
        17 => b"the address is no multiple of 8",
        18 => b"a memory may only be given before all other lines",
        _ => set_up_reason(reason),
    }
}

/// Why a line of set-up, or the line after the last, is refused for two hosts.
fn contest_reason(reason: u8) -> &'static [u8]
    ensures { result.now ≡ contest_reason_of reason }
{
    match reason {
        16 => b"both hosts are the same node",
        _ => set_up_reason(reason),
    }
}
