//! What devices outside do, and the ports of the fabric beside them.
ghost use Rattle.std.specs.Prelude.{◌≡◌, [], Some, IfOk, OnOk, List};
ghost use Rattle.fabric_trace.specs.Known.{Seen};
ghost use Rattle.fabric_ports.specs.Standing.{Stands};
ghost use Rattle.trace_lines.specs.Lines.{TraceLine};
ghost use Rattle.live_fabric.specs.Holding.{LiveHolds};
ghost use Rattle.live_fabric.specs.Lines.{Taken};
ghost use Rattle.live_fabric.specs.Outside.{MayGoOn, OutsideActed, MayCarryOutside, OutsideDone, OutsideWhole};

use crate::answers::BrokenOff;
use crate::live::Live;
use fabric_ports::Fabric;
use outside_lines::OutsideLine;
use rio_chars::{NoMemory, Outbox, Sink, TextBuffer, TextSink};
use std::alloc::Global;
use trace_lines::{PacketCounts, TraceWriter};

/// Does what a line of a device outside says, and returns what is told of it.
pub(crate) fn outside_text(
    alloc: Global,
    live: &mut Live,
    line: &OutsideLine,
) -> Result<TextSink, BrokenOff>
    requires { (taken : Taken) × LiveHolds live.old taken × MayCarryOutside taken line.now }
    ensures { IfOk result (λ sink. (taken : Taken) → LiveHolds live.old taken
        → MayCarryOutside taken line.now
        → OutsideWhole taken line.now (Some []) (Some sink.text.items) live.new) }
{
    let mut sink = TextSink::new(alloc);
    carry_into(alloc, live, line, &mut sink)?;
    Ok(sink)
}

/// The same into a sink.
fn carry_into<K: Sink>(
    alloc: Global,
    live: &mut Live,
    line: &OutsideLine,
    sink: &mut K,
) -> Result<(), BrokenOff>
    requires { (taken : Taken) × LiveHolds live.old taken × MayCarryOutside taken line.now }
    ensures { OnOk result ((taken : Taken) → LiveHolds live.old taken
        → MayCarryOutside taken line.now
        → OutsideWhole taken line.now (K.written sink.old) (K.written sink.new) live.new) }
{
    let mut buffer = TextBuffer::new(alloc)?;
    let mut outbox = Outbox::new(&mut buffer, sink);
    let carried = carry_whole(alloc, live, line, &mut outbox);
    outbox.into_sink();
    carried
}

/// The same through an outbox.
fn carry_whole<K: Sink>(
    alloc: Global,
    live: &mut Live,
    line: &OutsideLine,
    outbox: &mut Outbox<K>,
) -> Result<(), BrokenOff>
    requires holds { (taken : Taken) × LiveHolds live.old taken × MayCarryOutside taken line.now }
    requires empty { outbox.old.waiting ≡ [] }
    ensures whole { OnOk result ((taken : Taken) → LiveHolds live.old taken
        → MayCarryOutside taken line.now
        → OutsideWhole taken line.now outbox.old.written outbox.new.written live.new) }
    ensures same { OnOk result (outbox.new.sink ≡ outbox.old.sink) }
{
    let carried = carry(alloc, live, line, outbox);
    outbox.flush();
    if outbox.failed() {
        return Err(BrokenOff);
    }
    carried
}

/// Does what a line of a device outside says, and writes what is told of it.
fn carry<K: Sink>(
    alloc: Global,
    live: &mut Live,
    line: &OutsideLine,
    outbox: &mut Outbox<K>,
) -> Result<(), BrokenOff>
    requires { (taken : Taken) × LiveHolds live.old taken × MayCarryOutside taken line.now }
    ensures { OnOk result ((taken : Taken) → LiveHolds live.old taken
        → MayCarryOutside taken line.now
        → OutsideDone taken line.now outbox.old outbox.new live.new) }
{
    let mut fabric = live.take_fabric(alloc)?;
    let names = live.set_up().names();
    let mut writer = TraceWriter {
        outbox,
        names,
        counts: PacketCounts::new(),
    };
    act(alloc, &mut fabric, line, &mut writer)?;
    live.put_fabric(fabric);
    if let OutsideLine::External(at) = line {
        live.face(*at)?;
    }
    Ok(())
}

/// Has a fabric do what such a line says, and writes what is told of it.
fn act<K: Sink>(
    alloc: Global,
    fabric: &mut Fabric,
    line: &OutsideLine,
    writer: &mut TraceWriter<K>,
) -> Result<(), NoMemory>
    requires { MayGoOn fabric.old writer.old.names.now line.now }
    ensures { OnOk result ((from : Seen) (lines : List TraceLine) → Stands from lines fabric.old
        → OutsideActed line.now from lines fabric.new writer.old writer.new) }
{
    match line {
        OutsideLine::External(at) => fabric.outside_joins(at.port),
        OutsideLine::Sent(at, chars) => {
            writer.write_sent(at.device, chars.as_slice());
            return fabric.outside_takes(alloc, at.port, chars.as_slice(), writer);
        }
        OutsideLine::Pump(port, count) => fabric.outside_turns(*port, *count, writer),
        OutsideLine::Timeout(port) => fabric.outside_times_out(*port, writer),
    }
    Ok(())
}
