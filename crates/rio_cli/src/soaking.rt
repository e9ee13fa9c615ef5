//! `soak`: the script that a number stands for, and what became of its packets.
ghost use Rattle.std.specs.Prelude.{◌≡◌, ◌≢◌, ◌≤◌, IfOk};
ghost use Rattle.std.specs.String.{string_bytes};
ghost use Rattle.rio_cli.specs.Soaking.{SaysOfSoak, counts_text};

use crate::status::Status;
use crate::top::write_answer;
use fabric_replay::{Counts, SummaryEnd, summary};
use fabric_script::soak_script;
use rio_chars::Sink;
use std::alloc::{AllocError, Global};

/// Carries out the script that a number stands for, and writes how many packets were taken, have
/// left, were dropped and are held, a line for each; or the one line `undetected`.
pub(crate) fn soak<K: Sink>(alloc: Global, seed: u32, sink: &mut K) -> Status
    ensures says { SaysOfSoak seed result
        (K.written sink.old) (K.faults sink.old) (K.written sink.new) (K.faults sink.new) }
    ensures sink { K.faults sink.old ≤ K.faults sink.new }
    ensures writes { result ≢ Status.WriteFault → K.faults sink.new ≡ K.faults sink.old }
{
    let Ok(script) = soak_script(alloc, seed) else {
        return Status::NoMemory;
    };
    match summary(alloc, &script) {
        Ok(counts) => match lines_of(alloc, &counts) {
            Ok(text) => write_answer(sink, text.as_bytes(), Status::Done),
            Err(_) => Status::NoMemory,
        },
        Err(SummaryEnd::Undetected { .. }) => write_answer(
            sink,
            b"undetected\n",
            Status::Undetected,
        ),
        Err(SummaryEnd::NoMemory) => Status::NoMemory,
    }
}

/// The four lines of the counts.
fn lines_of(alloc: Global, counts: &Counts) -> Result<String, AllocError>
    ensures { IfOk result (λ text. string_bytes text ≡ counts_text counts.now) }
{
    format!(in alloc;
        "taken {}\nleft {}\ndropped {}\nheld {}\n",
        counts.taken, counts.left, counts.dropped, counts.held
    )
}
