//! A script is carried out and its trace written.
ghost use Rattle.std.specs.Prelude.{◌≤◌, ◌≡◌, ℕ, true, false, [], None, Some, IsErrOf, OnOk};
ghost use Rattle.rio_chars.specs.Faults.{Rose};
ghost use Rattle.fabric_script.specs.Scripts.{ScriptPasses};
ghost use Rattle.fabric_script.specs.declared.ports.PortRef.{PortRef as Port};
ghost use Rattle.trace_lines.specs.Lines.{Ended, Undetected as UndetectedLine};
ghost use Rattle.fabric_trace.specs.Runs.{start};
ghost use Rattle.fabric_ports.specs.Standing.{Stands};
ghost use Rattle.link_model.specs.declared.event.Event.{Event as LinkEvent};
ghost use Rattle.fabric_replay.specs.Replaying.{ReplayedWhole, ReplayedUndetected, ReplayedFront};
ghost use Rattle.fabric_replay.specs.Going.{ToldFront, ToldUntil, ToldWhole};
ghost use Rattle.fabric_replay.specs.Ending.{EndIsNamed, EndsBy};
ghost use Rattle.fabric_replay.specs.declared.replaying.ReplayEnd.TheVariants.{NoMemory};

use fabric_ports::{Fabric, FabricEnd};
use fabric_script::{PortRef, Script};
use link_model::Event;
use rio_chars::{Outbox, Sink, TextBuffer};
use std::alloc::Global;
use trace_lines::{PacketCounts, TraceWriter};

/// Why a replay ended early.
#[derive(Debug, Drop)]
pub enum ReplayEnd {
    /// The sink failed.
    WriteFault,
    /// A port acted on an event that was not sent, in the event of this line of the script: a
    /// corruption that no check of the link has found.
    Undetected {
        line: u32,
        port: PortRef,
        event: Event,
    },
    /// Memory ran out.
    NoMemory,
}

impl From<rio_chars::NoMemory> for ReplayEnd {
    ghost from_gives = { λ _ end. end ≡ NoMemory };

    fn from(_: rio_chars::NoMemory) -> Self {
        ReplayEnd::NoMemory
    }
}

/// Carries out the events of a script in order and writes its trace, in pieces of kilobytes. The
/// script passes, as each that `parse` of `fabric_script` answers does.
///
/// The trace ends with the line `end`, or with the line `undetected` that names the first event
/// that a port acted on and that was not sent; then the answer is Undetected. WriteFault comes only
/// if the sink's count of faults rose, and the count rises at no other answer. At WriteFault and
/// NoMemory a front of the trace was written: whole lines, and a part of one more. Nothing more is
/// carried out after the event in which a write failed, and a `run` ends within it.
pub fn replay<K: Sink>(alloc: Global, script: &Script, sink: &mut K) -> Result<(), ReplayEnd>
    requires passes { ScriptPasses script.now.names.items script.now.lines.items }
    ensures done { OnOk result (ReplayedWhole script.now.names.items script.now.lines.items
        (K.written sink.old) (K.written sink.new)) }
    ensures undetected { (line : ℕ) (port : Port) (event : LinkEvent)
        → IsErrOf result (ReplayEnd.Undetected line port event)
        → ReplayedUndetected script.now.names.items script.now.lines.items line port event
        (K.written sink.old) (K.written sink.new) }
    ensures write_fault { IsErrOf result ReplayEnd.WriteFault
        → Rose (K.faults sink.old) (K.faults sink.new)
        × ReplayedFront script.now.names.items script.now.lines.items
        (K.written sink.old) (K.written sink.new) }
    ensures no_memory { IsErrOf result ReplayEnd.NoMemory
        → ReplayedFront script.now.names.items script.now.lines.items
        (K.written sink.old) (K.written sink.new) }
    ensures counts { ¬ IsErrOf result ReplayEnd.WriteFault
        → K.faults sink.new ≡ K.faults sink.old }
    ensures never_falls { K.faults sink.old ≤ K.faults sink.new }
{
    let mut fabric = Fabric::new(alloc, script)?;
    replay_on(alloc, script, &mut fabric, sink)
}

/// The same on the fabric of the script.
fn replay_on<K: Sink>(
    alloc: Global,
    script: &Script,
    fabric: &mut Fabric,
    sink: &mut K,
) -> Result<(), ReplayEnd>
    requires passes { ScriptPasses script.now.names.items script.now.lines.items }
    requires stands { Stands (start script.now.lines.items) [] fabric.old }
    ensures done { OnOk result (ReplayedWhole script.now.names.items script.now.lines.items
        (K.written sink.old) (K.written sink.new)) }
    ensures undetected { (line : ℕ) (port : Port) (event : LinkEvent)
        → IsErrOf result (ReplayEnd.Undetected line port event)
        → ReplayedUndetected script.now.names.items script.now.lines.items line port event
        (K.written sink.old) (K.written sink.new) }
    ensures write_fault { IsErrOf result ReplayEnd.WriteFault
        → Rose (K.faults sink.old) (K.faults sink.new)
        × ReplayedFront script.now.names.items script.now.lines.items
        (K.written sink.old) (K.written sink.new) }
    ensures no_memory { IsErrOf result ReplayEnd.NoMemory
        → ReplayedFront script.now.names.items script.now.lines.items
        (K.written sink.old) (K.written sink.new) }
    ensures counts { ¬ IsErrOf result ReplayEnd.WriteFault
        → K.faults sink.new ≡ K.faults sink.old }
    ensures never_falls { K.faults sink.old ≤ K.faults sink.new }
{
    let mut buffer = TextBuffer::new(alloc)?;
    let mut outbox = Outbox::new(&mut buffer, sink);
    let end = write_trace(alloc, script, fabric, &mut outbox);
    outbox.into_sink();
    end
}

/// Carries out the events and hands their lines to the sink, up to the event in which a write
/// failed.
fn write_trace<K: Sink>(
    alloc: Global,
    script: &Script,
    fabric: &mut Fabric,
    outbox: &mut Outbox<K>,
) -> Result<(), ReplayEnd>
    requires passes { ScriptPasses script.now.names.items script.now.lines.items }
    requires stands { Stands (start script.now.lines.items) [] fabric.old }
    requires fine { outbox.old.failed ≡ false }
    requires empty { outbox.old.waiting ≡ [] }
    ensures same { outbox.new.sink ≡ outbox.old.sink }
    ensures done { OnOk result (ReplayedWhole script.now.names.items script.now.lines.items
        outbox.old.written outbox.new.written) }
    ensures undetected { (line : ℕ) (port : Port) (event : LinkEvent)
        → IsErrOf result (ReplayEnd.Undetected line port event)
        → ReplayedUndetected script.now.names.items script.now.lines.items line port event
        outbox.old.written outbox.new.written }
    ensures write_fault { IsErrOf result ReplayEnd.WriteFault
        → Rose outbox.old.faults outbox.new.faults
        × ReplayedFront script.now.names.items script.now.lines.items
        outbox.old.written outbox.new.written }
    ensures no_memory { IsErrOf result ReplayEnd.NoMemory
        → ReplayedFront script.now.names.items script.now.lines.items
        outbox.old.written outbox.new.written }
    ensures counts { ¬ IsErrOf result ReplayEnd.WriteFault → outbox.new.faults ≡ outbox.old.faults }
    ensures never_falls { outbox.old.faults ≤ outbox.new.faults }
{
    let mut writer = TraceWriter {
        outbox,
        names: &script.names,
        counts: PacketCounts::new(),
    };
    let end = tell_trace(alloc, script, fabric, &mut writer);
    outbox.flush();
    if outbox.failed() {
        return Err(ReplayEnd::WriteFault);
    }
    end
}

/// Carries out the events and tells their lines, up to the event in which a write failed: no event
/// behind that one is carried out.
pub(crate) fn tell_trace<K: Sink>(
    alloc: Global,
    script: &Script,
    fabric: &mut Fabric,
    writer: &mut TraceWriter<K>,
) -> Result<(), ReplayEnd>
    requires passes { ScriptPasses script.now.names.items script.now.lines.items }
    requires named { writer.old.names.now ≡ script.now.names.items }
    requires stands { Stands (start script.now.lines.items) [] fabric.old }
    requires fine { writer.old.outbox.now.failed ≡ false }
    ensures front { ToldFront writer.old writer.new script.now.lines.items }
    ensures done { OnOk result (ToldWhole writer.old writer.new script.now.lines.items Ended None) }
    ensures undetected { (line : ℕ) (port : Port) (event : LinkEvent)
        → IsErrOf result (ReplayEnd.Undetected line port event)
        → ToldWhole writer.old writer.new script.now.lines.items (UndetectedLine line port event)
        (Some (record { port = port; event = event })) }
    ensures write_fault { IsErrOf result ReplayEnd.WriteFault
        → ToldUntil writer.old writer.new script.now.lines.items }
{
    for numbered in &script.lines {
        if numbered.line.is_event() {
            if let Err(end) = fabric.event(alloc, &numbered.line, writer) {
                return Err(tell_end(numbered.number, end, writer));
            }
            if writer.failed() {
                return Err(ReplayEnd::WriteFault);
            }
        }
    }
    writer.write_end();
    Ok(())
}

/// Tells the last line of a trace that ends early, if it has one, and answers why it ends.
fn tell_end<K: Sink>(line: u32, end: FabricEnd, writer: &mut TraceWriter<K>) -> ReplayEnd
    requires { EndIsNamed writer.old.names.now end }
    ensures { EndsBy end line writer.old writer.new result }
{
    match end {
        FabricEnd::Undetected { port, event } => {
            writer.write_undetected(line, port, event.event());
            let event = event.event().copy();
            ReplayEnd::Undetected { line, port, event }
        }
        FabricEnd::Failed => ReplayEnd::WriteFault,
        FabricEnd::NoMemory => ReplayEnd::NoMemory,
    }
}
