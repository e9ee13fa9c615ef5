//! The answer that the tables give.
ghost use Rattle.std.specs.Prelude.{◌≡◌, ◌⊎◌, Ok, [], IfOk, OnOk, OnErr};
ghost use Rattle.std.specs.Io.KnownBytes.{Appends};
ghost use Rattle.port_lines.specs.Lines.{asked_answer};
ghost use Rattle.conform_lines.specs.Stimuli.{TellsAll};

use port_lines::{ClockedPort, PortRequest, answer};
use rio_chars::{NoMemory, Outbox, Sink, TextBuffer};
use std::alloc::Global;

/// Asks a port, and tells its answer to a sink. If a write fails, a front of the answer was
/// written. If memory is not given, the port may have been asked or not.
pub fn expect<K: Sink>(
    alloc: Global,
    port: &mut ClockedPort,
    request: PortRequest,
    buffer: &mut TextBuffer,
    sink: &mut K,
) -> Result<(), NoMemory>
    ensures port { OnOk result (port.new ≡ (asked_answer port.old (Ok request)).stands) }
    ensures text { OnOk result (Appends (K.written sink.old) (K.written sink.new)
        (asked_answer port.old (Ok request)).text) }
    ensures failed { OnErr result ((port.new ≡ port.old)
        ⊎ (port.new ≡ (asked_answer port.old (Ok request)).stands)) }
{
    let mut outbox = Outbox::new(buffer, sink);
    let told = tell(alloc, port, request, &mut outbox);
    outbox.into_sink();
    if told? {
        return Err(NoMemory);
    }
    Ok(())
}

/// The same through an outbox, and whether a write failed. If memory is not given, nothing is done.
fn tell<K: Sink>(
    alloc: Global,
    port: &mut ClockedPort,
    request: PortRequest,
    outbox: &mut Outbox<K>,
) -> Result<bool, NoMemory>
    requires { outbox.old.waiting ≡ [] }
    ensures port { OnOk result (port.new ≡ (asked_answer port.old (Ok request)).stands) }
    ensures text { IfOk result (λ failed. TellsAll failed outbox.old.written outbox.new.written
        (asked_answer port.old (Ok request)).text) }
    ensures unasked { OnErr result (port.new ≡ port.old) }
    ensures same { outbox.new.sink ≡ outbox.old.sink }
{
    answer(alloc, port, Ok(request), outbox)?;
    outbox.flush();
    Ok(outbox.failed())
}
