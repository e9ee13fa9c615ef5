//! `io`: reads and writes of the memory of endpoints are carried out over the links of a fabric.
ghost use Rattle.std.specs.Prelude.{◌≡◌, ◌≢◌, ◌≤◌, length};
ghost use Rattle.rio_cli.specs.Answers.{RefusesBytes, SaysOfBytes};
ghost use Rattle.rio_cli.specs.Inputs.{most_input};
ghost use Rattle.rio_cli.specs.declared.command.Command.TheVariants.{Io};

use crate::answer::CommandAnswer;
use crate::command::Command;
use crate::status::Status;
use crate::top::refuse_line;
use fabric_script::ScriptEnd;
use io_rounds::{IoEnd, carry_out};
use io_script::parse_io;
use rio_chars::Sink;
use std::alloc::Global;

/// Carries out the reads and writes of memory that the bytes spell, and writes what became of them.
pub(crate) fn io_bytes<K: Sink>(alloc: Global, bytes: &[u8], sink: &mut K) -> CommandAnswer
    requires { length bytes.now ≤ most_input }
    ensures says { SaysOfBytes Io result.status bytes.now
        (K.written sink.old) (K.faults sink.old) (K.written sink.new) (K.faults sink.new) }
    ensures refuses { RefusesBytes Io result bytes.now
        (K.written sink.old) (K.written sink.new) }
    ensures sink { K.faults sink.old ≤ K.faults sink.new }
    ensures writes { result.status ≢ Status.WriteFault → K.faults sink.new ≡ K.faults sink.old }
{
    let script = match parse_io(alloc, bytes) {
        Ok(script) => script,
        Err(ScriptEnd::Refused(refusal)) => {
            return refuse_line(
                alloc,
                Command::Io,
                bytes,
                refusal.line,
                refusal.reason,
                sink,
            );
        }
        Err(ScriptEnd::NoMemory) => return CommandAnswer::ended(Status::NoMemory),
    };
    match carry_out(alloc, &script, sink) {
        Ok(()) => CommandAnswer::ended(Status::Done),
        Err(IoEnd::WriteFault) => CommandAnswer::ended(Status::WriteFault),
        Err(IoEnd::NoMemory) => CommandAnswer::ended(Status::NoMemory),
    }
}
