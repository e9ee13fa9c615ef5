//! The whole program, but for where its words and its streams come from.
ghost use Rattle.std.specs.Prelude.{map};
ghost use Rattle.std.specs.String.{string_bytes};
ghost use Rattle.rio_cli.specs.Program.{ProgramRan};

use crate::messages::write_message;
use crate::status::status_number;
use crate::top::answer;
use program_start::Given;
use rio_chars::{Sink, Source};

/// Does what the words after the program's name ask, and answers the exit status. It reads input
/// from the source and writes output to the sink, as `answer` says, and says of the answer what
/// there is to say to the messages: which line is refused and why, what failed, or how the program is
/// used, all of it for `--help`, or the version for `--version`. It says nothing at Done. What
/// cannot be said changes nothing.
pub fn run<S: Source, K: Sink, M: Sink>(given: &mut Given<S, K, M>) -> u8
    ensures { ProgramRan (map string_bytes given.old.words.now) result
        S.left S.faults given.old.source given.new.source
        K.written K.faults given.old.sink given.new.sink
        M.written M.faults given.old.messages given.new.messages }
{
    let words = given.words;
    let answer = answer(given.alloc, words, &mut given.source, &mut given.sink);
    write_message(&mut given.messages, words, &answer);
    status_number(answer.status)
}
