//! How a program is started.
ghost use Rattle.std.specs.Prelude.{◌≡◌, map};
ghost use Rattle.std.specs.String.{string_bytes};
ghost use Rattle.program_start.specs.Questions.{after_name as after_name_of};

use rio_chars::{Sink, Source, StdSink, StdSource, write_unless};
use std::alloc::Global;
use std::io::IsTerminal;
use std::process::ExitCode;
use std::{env, io};

/// What a program is given.
#[derive(Drop)]
pub struct Given<'a, S, K, M> {
    /// Where memory comes from.
    pub alloc: Global,
    /// The words that follow the program's name.
    pub words: &'a [String],
    /// Where it reads.
    pub source: S,
    /// Where it writes.
    pub sink: K,
    /// Where it says what else there is to say.
    pub messages: M,
}

/// What is started.
pub trait Program {
    /// What is said at a terminal before these words are done, which follow the program's name: a
    /// line that says what standard input is read for, or nothing if it is not read.
    fn waits_for(&self, words: &[String]) -> &'static [u8];

    /// Does what the words ask, and answers the exit status.
    fn run<S: Source, K: Sink, M: Sink>(&self, given: &mut Given<S, K, M>) -> u8;
}

/// Runs a program with the arguments and the standard streams of the system. If the system does not
/// give the arguments, the status is 1 and nothing is written.
pub fn start<P: Program>(rt: &HostRuntime, program: &P) -> ExitCode {
    start_reading(rt, program, StdSource::new(rt.reader()))
}

/// The same, with a source of its own that reads standard input.
pub fn start_reading<P: Program, S: Source + Drop>(
    rt: &HostRuntime,
    program: &P,
    source: S,
) -> ExitCode {
    let Ok(arguments) = arguments(rt) else {
        return ExitCode::from(1);
    };
    let words = after_name(arguments.as_slice());
    let mut given = Given {
        alloc: rt.alloc(),
        words,
        source,
        sink: StdSink::new(io::writer(rt)),
        messages: StdSink::new(rt.stderr()),
    };
    if rt.stdin().is_terminal() {
        write_unless(false, &mut given.messages, program.waits_for(words));
    }
    ExitCode::from(program.run(&mut given))
}

/// The program's name and the words that follow it.
fn arguments(rt: &HostRuntime) -> io::Result<Vec<String>> {
    Ok(env::args(rt)?.collect(rt.alloc())?)
}

/// The words that follow the program's name.
fn after_name(arguments: &[String]) -> &[String]
    ensures { map string_bytes result.now ≡ after_name_of (map string_bytes arguments.now) }
{
    match arguments {
        [_, words @ ..] => words,
        [] => arguments,
    }
}
