//! What the program says of an answer in words.
ghost use Rattle.std.specs.Prelude.{◌≡◌, map};
ghost use Rattle.std.specs.String.{string_bytes};
ghost use Rattle.rio_cli.specs.Messages.{status_text as status_text_of, answer_message};
ghost use Rattle.rio_cli.specs.Program.{SaysAll};

use crate::answer::CommandAnswer;
use crate::status::Status;
use rio_chars::{Sink, write_unless};
use rio_words::write_usage;

/// Says what there is to say of an answer: how the program is used if the words ask for no command,
/// and else how it ended. The answer is whether a write failed. It takes no memory.
pub(crate) fn write_message<M: Sink>(
    messages: &mut M,
    words: &[String],
    answer: &CommandAnswer,
) -> bool
    ensures { SaysAll (map string_bytes words.now) answer.now
        (M.written messages.old) (M.faults messages.old)
        result (M.written messages.new) (M.faults messages.new) }
{
    if answer.status == Status::Words {
        write_usage(messages, words)
    } else {
        write_unless(false, messages, text_of(answer))
    }
}

/// What is said of an answer.
fn text_of(answer: &CommandAnswer) -> &[u8]
    ensures { result.now ≡ answer_message answer.now }
{
    match &answer.refusal {
        Some(refusal) => refusal.message.as_slice(),
        None => status_text(answer.status),
    }
}

/// What is said of a status.
fn status_text(status: Status) -> &'static [u8]
    ensures { result.now ≡ status_text_of status }
{
    match status {
        Status::Done => b"",
        Status::Words => b"rio: the words ask for no command\n",
        Status::Script => b"rio: the input is refused\n",
        Status::Unlawful => b"rio: the trace is not lawful\n",
        Status::ReadFault => b"rio: standard input cannot be read\n",
        Status::WriteFault => b"rio: standard output cannot be written\n",
        Status::NoMemory => b"rio: there is not enough memory\n",
        Status::Undetected => {
            b"rio: a port acted on what its peer had not sent; the last line of a trace names it\n"
        },
        Status::TooLong => b"rio: the input is longer than 4194304 bytes\n",
        Status::Locked => b"rio: a device is locked by another host\n",
    }
}
