//! What is collected at the endpoints in a round of an ask, and the round.
ghost use Rattle.std.specs.Prelude.{◌≡◌, ◌≤◌, ◌<◌, length, slice_get, is_some, Ok};
ghost use Rattle.link_buffers.specs.Queues.{list_at};
ghost use Rattle.link_port.specs.Faces.{AreLists};
ghost use Rattle.fabric_trace.specs.Known.{Seen};
ghost use Rattle.fabric_ask.specs.Asks.{AskRound, holds_some};
ghost use Rattle.fabric_ports.specs.Carrying.{LeftBy};
ghost use Rattle.fabric_ports.specs.Gathering.{has_packets, Collects, OthersCollect};
ghost use Rattle.fabric_ports.specs.Places.{IsEndpointAt};
ghost use Rattle.fabric_ports.specs.Ran.{FabricRan, end_with};
ghost use Rattle.fabric_ports.specs.Showing.{ShowsFabric};
ghost use Rattle.fabric_ports.specs.Standing.{StandsForLines};

use crate::answers::{FabricEnd, Happened};
use crate::fabric::Fabric;
use crate::noise::Noise;
use fabric_script::PortRef;
use link_port::{Port, PortFace};
use rio_chars::Sink;
use std::alloc::Global;
use trace_lines::TraceWriter;

impl Fabric {
    /// Makes one round of an ask: every link carries what it can, every switch makes steps until no
    /// packet of it can go, and every endpoint but the host collects.
    pub(crate) fn ask_round<N: Noise, K: Sink>(
        &mut self,
        alloc: Global,
        host: u8,
        noise: &mut N,
        writer: &mut TraceWriter<K>,
    ) -> Result<(), FabricEnd>
        requires stands { StandsForLines self.old }
        requires named { length self.old.devices.items ≤ length writer.old.names.now }
        requires few { length writer.old.names.now ≤ 256 }
        ensures { FabricRan (LeftBy result (AskRound host (N.edits noise.old)) (N.edits noise.new))
            self.old writer.old writer.new (end_with self.new result) }
    {
        self.carry_all(alloc, noise, writer)?;
        self.serve_all(writer);
        self.collect_nodes(host, writer);
        Ok(())
    }

    /// Every endpoint but the host collects, in the order of the devices.
    fn collect_nodes<K: Sink>(&mut self, host: u8, writer: &mut TraceWriter<K>)
        requires stands { StandsForLines self.old }
        requires named { length self.old.devices.items ≤ length writer.old.names.now }
        requires few { length writer.old.names.now ≤ 256 }
        ensures { FabricRan (OthersCollect host) self.old writer.old writer.new (Ok self.new) }
    {
        for node in 0..self.devices.len() {
            if !self.devices[node].is_switch() && node != usize::from(host) {
                self.collect_all(node as u8, writer);
            }
        }
    }

    /// An endpoint collects one packet after another, until it holds none or has no room for a
    /// response.
    fn collect_all<K: Sink>(&mut self, node: u8, writer: &mut TraceWriter<K>)
        requires stands { StandsForLines self.old }
        requires named { node < length writer.old.names.now }
        requires endpoint { IsEndpointAt self.old.devices.items node }
        ensures { FabricRan (Collects node) self.old writer.old writer.new (Ok self.new) }
    {
        while self.holds(node) {
            if let Happened::Full = self.collect(node, writer) {
                return;
            }
        }
    }

    /// Whether an endpoint holds a packet.
    pub(crate) fn holds(&self, node: u8) -> bool
        requires shown { (s : Seen) × ShowsFabric self.now s }
        requires endpoint { IsEndpointAt self.now.devices.items node }
        ensures { (s : Seen) → ShowsFabric self.now s → result ≡ holds_some node s }
    {
        let place = self.place(PortRef { node, port: 0 });
        holds_packet(&self.ports[place])
    }
}

/// Whether a port has received a packet that is not taken yet.
fn holds_packet(port: &Port) -> bool
    ensures { result ≡ has_packets port.now.received.lists }
{
    for prio in 0..4 {
        if holds_at(port, prio) {
            return true;
        }
    }
    false
}

/// Whether a port has received a packet of a priority that is not taken yet.
fn holds_at(port: &Port, prio: u8) -> bool
    requires { prio < 4 }
    ensures held { result ≡ is_some (slice_get (list_at port.now.received.lists prio) 0) }
    ensures lists { AreLists port.now.received.lists }
{
    match port.in_head(prio) {
        Some(_) => true,
        None => false,
    }
}
