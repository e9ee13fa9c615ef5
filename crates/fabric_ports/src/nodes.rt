//! What is sent and collected at an endpoint.
ghost use Rattle.std.specs.Prelude.{◌≡◌, ◌<◌, length, None};
ghost use Rattle.rio_packets.specs.LinkForm.{Passes};
ghost use Rattle.fabric_model.specs.Laws.Priorities.{ByPriority};
ghost use Rattle.fabric_trace.specs.Blocks.{take_lines};
ghost use Rattle.fabric_ports.specs.Events.{Did, answer_taken, answer_collected};
ghost use Rattle.fabric_ports.specs.Places.{IsEndpointAt};
ghost use Rattle.fabric_ports.specs.Showing.{ShowsFabric};
ghost use Rattle.fabric_trace.specs.Known.{Seen};
ghost use Rattle.fabric_trace.specs.Served.{IsCollect};

use crate::answers::Happened;
use crate::fabric::Fabric;
use fabric_script::PortRef;
use link_port::PortFace;
use rio_chars::Sink;
use rio_packets::Packet;
use switch_core::{Collected, endpoint_collect};
use trace_lines::{Lack, TraceWriter};

impl Fabric {
    /// An endpoint takes a packet to be sent, if there is room.
    pub(crate) fn send<K: Sink>(
        &mut self,
        node: u8,
        packet: Packet,
        writer: &mut TraceWriter<K>,
    ) -> Happened
        requires named { node < length writer.old.names.now }
        requires shown { (s : Seen) × ShowsFabric self.old s }
        requires endpoint { IsEndpointAt self.old.devices.items node }
        ensures { (s : Seen) → ShowsFabric self.old s → s.undetected ≡ None
            → Did (λ block. (block ≡ take_lines s node packet)
            × (result ≡ answer_taken block)) writer.old writer.new s self.new }
    {
        let place = self.place(PortRef { node, port: 0 });
        if !self.ports[place].out_room(packet.prio()) {
            writer.write_lack(Lack::Full);
            return Happened::Full;
        }
        writer.write_take(node, &packet);
        self.ports[place].out_put(packet);
        self.idle.wake_port(&self.cable_at, place);
        Happened::Took
    }

    /// The packet whose turn it is leaves at an endpoint, or its registers answer it.
    pub(crate) fn collect<K: Sink>(&mut self, node: u8, writer: &mut TraceWriter<K>) -> Happened
        requires named { node < length writer.old.names.now }
        requires shown { (s : Seen) × ShowsFabric self.old s }
        requires endpoint { IsEndpointAt self.old.devices.items node }
        ensures { (s : Seen) → ShowsFabric self.old s → s.undetected ≡ None
            → ByPriority s.network → Did (λ block. IsCollect s.network node block
            × (result ≡ answer_collected block)) writer.old writer.new s self.new }
    {
        let port = PortRef { node, port: 0 };
        let place = self.place(port);
        self.idle.wake_port(&self.cable_at, place);
        let registers = &mut self.devices[usize::from(node)];
        match endpoint_collect(&mut self.ports[place], registers) {
            Collected::Left(packet) => {
                show_form(&packet);
                writer.write_leave(node, &packet);
                Happened::Left(packet)
            }
            Collected::Answered { request, response } => {
                show_form(&request);
                show_form(&response);
                writer.write_answer(port, &request, &response);
                Happened::Answered
            }
            Collected::Empty => {
                writer.write_lack(Lack::Empty);
                Happened::Empty
            }
            Collected::Full => {
                writer.write_lack(Lack::Full);
                Happened::Full
            }
        }
    }
}

/// Says of a packet what is true of every one: it is in its link form.
pub(crate) fn show_form(packet: &Packet)
    ensures { Passes packet.now }
{
    let _ = packet.bytes();
}
