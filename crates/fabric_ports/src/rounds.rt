//! Rounds: what `run` has a fabric do.
ghost use Rattle.std.specs.Prelude.{◌≤◌, ◌<◌, length, Ok, Err};
ghost use Rattle.fabric_script.specs.declared.lines.Line.TheVariants.{Settle};
ghost use Rattle.fabric_trace.specs.Blocks.{IsSettle};
ghost use Rattle.fabric_trace.specs.Rounds.{Rounds};
ghost use Rattle.fabric_ports.specs.Ends.{PortIsLinked};
ghost use Rattle.fabric_ports.specs.Places.{IsSwitchAt};
ghost use Rattle.fabric_ports.specs.Ran.{Blocks, LinksSettle, SwitchesServe, Serves, FabricRan, end_with};
ghost use Rattle.fabric_ports.specs.Standing.{StandsForLines};

use crate::answers::FabricEnd;
use crate::fabric::Fabric;
use fabric_script::{Action, PortRef};
use rio_chars::Sink;
use std::alloc::Global;
use trace_lines::TraceWriter;

impl Fabric {
    /// Makes so many rounds. In each, every link settles in order, and then every switch in order
    /// makes steps until no packet of it can go. If a write fails, the next link that settles is
    /// the last one.
    pub(crate) fn run<K: Sink>(
        &mut self,
        alloc: Global,
        rounds: u32,
        writer: &mut TraceWriter<K>,
    ) -> Result<(), FabricEnd>
        requires stands { StandsForLines self.old }
        requires named { length self.old.devices.items ≤ length writer.old.names.now }
        requires few { length writer.old.names.now ≤ 256 }
        ensures { FabricRan (Rounds IsSettle rounds)
            self.old writer.old writer.new (end_with self.new result) }
    {
        for _ in 0..rounds {
            self.settle_all(alloc, writer)?;
            self.serve_all(writer);
        }
        Ok(())
    }

    /// Every link settles, in the order of the links. One that has nothing to do is passed by.
    fn settle_all<K: Sink>(
        &mut self,
        alloc: Global,
        writer: &mut TraceWriter<K>,
    ) -> Result<(), FabricEnd>
        requires stands { StandsForLines self.old }
        requires named { length self.old.devices.items ≤ length writer.old.names.now }
        ensures { FabricRan LinksSettle self.old writer.old writer.new (end_with self.new result) }
    {
        for place in 0..self.cables.len() {
            if self.is_still(place) {
                continue;
            }
            let port = self.cables[place].a;
            self.settle_link(alloc, port, writer)?;
        }
        Ok(())
    }

    /// The link of a port settles, and then the writer is asked: behind a write that failed nothing
    /// more would be written.
    pub(crate) fn settle_link<K: Sink>(
        &mut self,
        alloc: Global,
        port: PortRef,
        writer: &mut TraceWriter<K>,
    ) -> Result<(), FabricEnd>
        requires linked { PortIsLinked self.old port }
        requires named { length self.old.devices.items ≤ length writer.old.names.now }
        ensures { FabricRan (Blocks (Settle port))
            self.old writer.old writer.new (end_with self.new result) }
    {
        self.act(alloc, port, Action::Settle, writer)?;
        if writer.failed() {
            return Err(FabricEnd::Failed);
        }
        Ok(())
    }

    /// Every switch makes steps until no packet of it can go, in the order of the devices.
    pub(crate) fn serve_all<K: Sink>(&mut self, writer: &mut TraceWriter<K>)
        requires stands { StandsForLines self.old }
        requires named { length self.old.devices.items ≤ length writer.old.names.now }
        requires few { length writer.old.names.now ≤ 256 }
        ensures { FabricRan SwitchesServe self.old writer.old writer.new (Ok self.new) }
    {
        for node in 0..self.devices.len() {
            if self.devices[node].is_switch() {
                self.serve(node as u8, writer);
            }
        }
    }

    /// A switch makes steps until no packet of it can go. Each step takes a received packet away.
    fn serve<K: Sink>(&mut self, node: u8, writer: &mut TraceWriter<K>)
        requires stands { StandsForLines self.old }
        requires named { node < length writer.old.names.now }
        requires switch { IsSwitchAt self.old.devices.items node }
        ensures { FabricRan (Serves node) self.old writer.old writer.new (Ok self.new) }
    {
        while self.step(node, writer) {}
    }
}
