//! A script is carried out and the lines of its trace are counted.
ghost use Rattle.std.specs.Prelude.{◌≡◌, ◌≢◌, ◌-◌, ◌≤◌, ◌+◌, ℕ, [], IfOk, IsErrOf};
ghost use Rattle.link_model.specs.declared.event.Event.{Event as LinkEvent};
ghost use Rattle.fabric_script.specs.Scripts.{ScriptPasses};
ghost use Rattle.fabric_script.specs.declared.ports.PortRef.{PortRef as Port};
ghost use Rattle.fabric_trace.specs.Runs.{start};
ghost use Rattle.fabric_ports.specs.Standing.{Stands};
ghost use Rattle.fabric_replay.specs.Summing.{EndsLike, Summed, SummedUndetected};
ghost use Rattle.fabric_replay.specs.declared.summing.SummaryEnd.TheVariants.{NoMemory};

use crate::replaying::{ReplayEnd, tell_trace};
use fabric_ports::Fabric;
use fabric_script::{PortRef, Script};
use link_model::Event;
use rio_chars::{Outbox, PlainSink, TextBuffer};
use std::alloc::Global;
use trace_lines::{PacketCounts, TraceWriter};

/// How many packets a script takes, and what has become of them when it ends.
#[derive(Clone, Copy, Debug, PartialEq, Eq)]
pub struct Counts {
    /// Packets that endpoints took: the lines `take`.
    pub taken: u32,
    /// Packets that left the fabric: the lines `leave`.
    pub left: u32,
    /// Packets that switches dropped: the lines `drop`.
    pub dropped: u32,
    /// Packets that stand in some queue, each once: one that the next hop holds and that is not
    /// freed yet stands there.
    pub held: u32,
}

/// Why there are no counts.
#[derive(Debug, Drop)]
pub enum SummaryEnd {
    /// A port acted on an event that was not sent, in the event of this line of the script: a
    /// corruption that no check of the link has found.
    Undetected {
        line: u32,
        port: PortRef,
        event: Event,
    },
    /// Memory ran out.
    NoMemory,
}

impl From<rio_chars::NoMemory> for SummaryEnd {
    ghost from_gives = { λ _ end. end ≡ NoMemory };

    fn from(_: rio_chars::NoMemory) -> Self {
        SummaryEnd::NoMemory
    }
}

/// Carries out the events of a script as `replay` does, and counts the lines of its trace: none of
/// its text is made. The script passes, as each that `parse` of `fabric_script` answers does.
///
/// There are counts exactly if every event that a port acted on was sent, and what was taken is the
/// sum of the others then. Otherwise the answer is Undetected, with the first event that was not
/// sent. `NoMemory` comes if memory runs out.
pub fn summary(alloc: Global, script: &Script) -> Result<Counts, SummaryEnd>
    requires passes { ScriptPasses script.now.names.items script.now.lines.items }
    ensures done { IfOk result (λ counts. Summed script.now.lines.items counts) }
    ensures undetected { (line : ℕ) (port : Port) (event : LinkEvent)
        → IsErrOf result (SummaryEnd.Undetected line port event)
        → SummedUndetected script.now.lines.items line port event }
{
    let mut fabric = Fabric::new(alloc, script)?;
    summary_on(alloc, script, &mut fabric)
}

/// The same on the fabric of the script.
fn summary_on(alloc: Global, script: &Script, fabric: &mut Fabric) -> Result<Counts, SummaryEnd>
    requires passes { ScriptPasses script.now.names.items script.now.lines.items }
    requires stands { Stands (start script.now.lines.items) [] fabric.old }
    ensures done { IfOk result (λ counts. Summed script.now.lines.items counts) }
    ensures undetected { (line : ℕ) (port : Port) (event : LinkEvent)
        → IsErrOf result (SummaryEnd.Undetected line port event)
        → SummedUndetected script.now.lines.items line port event }
{
    let mut buffer = TextBuffer::new(alloc)?;
    let mut sink = PlainSink::new();
    let mut outbox = Outbox::new(&mut buffer, &mut sink);
    let mut writer = TraceWriter {
        outbox: &mut outbox,
        names: &script.names,
        counts: PacketCounts::new(),
    };
    let told = tell_trace(alloc, script, fabric, &mut writer);
    let counts = writer.counts;
    outbox.into_sink();
    match told {
        Ok(()) => Ok(counts_of(counts)),
        Err(end) => Err(end_of(end)),
    }
}

/// Why there are no counts, by why the replay ended. Its sink never fails.
fn end_of(end: ReplayEnd) -> SummaryEnd
    requires { end ≢ ReplayEnd.WriteFault }
    ensures { EndsLike end result }
{
    match end {
        ReplayEnd::Undetected { line, port, event } => SummaryEnd::Undetected { line, port, event },
        ReplayEnd::NoMemory => SummaryEnd::NoMemory,
        ReplayEnd::WriteFault => unreachable!(),
    }
}

/// The counts of a whole trace: what was taken and has neither left nor been dropped is held.
fn counts_of(counts: PacketCounts) -> Counts
    requires { counts.left + counts.dropped ≤ counts.taken }
    ensures { result
        ≡ record {
          taken = counts.taken;
          left = counts.left;
          dropped = counts.dropped;
          held = counts.taken - counts.left - counts.dropped;
        } }
{
    let PacketCounts {
        taken,
        left,
        dropped,
    } = counts;
    Counts {
        taken,
        left,
        dropped,
        held: taken - left - dropped,
    }
}
