//! The step of a switch.
ghost use Rattle.std.specs.Prelude.{◌≡◌, ◌<◌, ◌+◌, ◌≤◌, length, true, None, IfSome, is_some};
ghost use Rattle.link_port.specs.Ports.{AreAlike};
ghost use Rattle.maint_registers.specs.Devices.{IsSameDevice};
ghost use Rattle.switch_core.specs.Faces.{AllAlike};
ghost use Rattle.switch_core.specs.Goings.{going_of, Goes};
ghost use Rattle.switch_core.specs.SwitchSteps.{step_of, faces_after, switch_after};
ghost use Rattle.fabric_model.specs.Laws.Priorities.{ByPriority};
ghost use Rattle.fabric_trace.specs.Known.{Seen};
ghost use Rattle.fabric_trace.specs.Served.{IsMove};
ghost use Rattle.fabric_ports.specs.Events.{Did, IsSwitchStep};
ghost use Rattle.fabric_ports.specs.Places.{IsSwitchAt};
ghost use Rattle.fabric_ports.specs.Showing.{ShowsFabric};
ghost use Rattle.fabric_ports.specs.Switching.{MadeStep, Wrote, faces_at, own_ports};

use crate::fabric::Fabric;
use crate::nodes::show_form;
use fabric_script::PortRef;
use link_port::Port;
use maint_packets::Next;
use maint_registers::Registers;
use rio_chars::Sink;
use switch_core::{Going, first_going};
use trace_lines::{Lack, TraceWriter};

impl Fabric {
    /// A switch makes the first step that it can make, which is written; or it is written that it
    /// can make none.
    pub(crate) fn step_or_none<K: Sink>(&mut self, node: u8, writer: &mut TraceWriter<K>)
        requires named { node < length writer.old.names.now }
        requires shown { (s : Seen) × ShowsFabric self.old s }
        requires switch { IsSwitchAt self.old.devices.items node }
        ensures { (s : Seen) → ShowsFabric self.old s → s.undetected ≡ None → ByPriority s.network
            → Did (IsMove s.network node) writer.old writer.new s self.new }
    {
        if !self.step(node, writer) {
            writer.write_lack(Lack::NoStep);
        }
    }

    /// A switch makes the first step that it can make, which is written. Returns whether there was
    /// one; if not, nothing is written, and the switch is marked.
    pub(crate) fn step<K: Sink>(&mut self, node: u8, writer: &mut TraceWriter<K>) -> bool
        requires named { node < length writer.old.names.now }
        requires shown { (s : Seen) × ShowsFabric self.old s }
        requires switch { IsSwitchAt self.old.devices.items node }
        ensures { (s : Seen) → ShowsFabric self.old s → s.undetected ≡ None → ByPriority s.network
            → Did (IsSwitchStep s.network node result) writer.old writer.new s self.new }
    {
        if self.idle.switches[usize::from(node)] {
            return false;
        }
        let first = self.firsts[usize::from(node)];
        let registers = &mut self.devices[usize::from(node)];
        prove!(self.ports.len() <= usize::MAX);
        let Some(going) = step_from(&mut self.ports, first, registers, node, writer) else {
            self.idle.switches[usize::from(node)] = true;
            return false;
        };
        self.idle.wake_going(&self.cable_at, first, going);
        true
    }
}

/// The step of a switch whose ports stand in a list from this place on, which is written. Returns
/// the packet that went, if there is one.
fn step_from<K: Sink>(
    ports: &mut [Port],
    first: usize,
    registers: &mut Registers,
    node: u8,
    writer: &mut TraceWriter<K>,
) -> Option<Going>
    requires within { first + registers.old.ports ≤ length ports.old }
    requires named { node < length writer.old.names.now }
    ensures made { MadeStep first registers.old registers.new ports.old ports.new
        (step_of registers.old (faces_at (own_ports ports.old first registers.old.ports))) }
    ensures going { result ≡ going_of
        (step_of registers.old (faces_at (own_ports ports.old first registers.old.ports))) }
    ensures goes { IfSome result
        (Goes registers.old (faces_at (own_ports ports.old first registers.old.ports))) }
    ensures wrote { Wrote node
        (step_of registers.old (faces_at (own_ports ports.old first registers.old.ports)))
        writer.old writer.new (is_some result) }
{
    let count = usize::from(registers.ports());
    let (_, rest) = ports.split_at_mut(first);
    let (own, _) = rest.split_at_mut(count);
    step_own(own, registers, node, writer)
}

/// The step of a switch with these ports, which is written. Returns the packet that went, if there
/// is one.
fn step_own<K: Sink>(
    own: &mut [Port],
    registers: &mut Registers,
    node: u8,
    writer: &mut TraceWriter<K>,
) -> Option<Going>
    requires ports { length own.old ≡ registers.old.ports }
    requires named { node < length writer.old.names.now }
    ensures lists { faces_at own.new
        ≡ faces_after (faces_at own.old) (step_of registers.old (faces_at own.old)) }
    ensures registers { registers.new
        ≡ switch_after registers.old (step_of registers.old (faces_at own.old)) }
    ensures same { IsSameDevice registers.old registers.new }
    ensures alike { AllAlike AreAlike own.old own.new }
    ensures going { result ≡ going_of (step_of registers.old (faces_at own.old)) }
    ensures goes { IfSome result (Goes registers.old (faces_at own.old)) }
    ensures wrote { Wrote node (step_of registers.old (faces_at own.old))
        writer.old writer.new (is_some result) }
{
    let Some(going) = first_going(own, registers) else {
        return None;
    };
    make_step(own, registers, going, node, writer);
    Some(going)
}

/// The step of the packet that goes. It is written of the packet as it stands at its port.
fn make_step<K: Sink>(
    own: &mut [Port],
    registers: &mut Registers,
    going: Going,
    node: u8,
    writer: &mut TraceWriter<K>,
)
    requires named { node < length writer.old.names.now }
    requires goes { Goes registers.old (faces_at own.old) going }
    ensures lists { faces_at own.new
        ≡ faces_after (faces_at own.old) (step_of registers.old (faces_at own.old)) }
    ensures registers { registers.new
        ≡ switch_after registers.old (step_of registers.old (faces_at own.old)) }
    ensures same { IsSameDevice registers.old registers.new }
    ensures alike { AllAlike AreAlike own.old own.new }
    ensures wrote { Wrote node (step_of registers.old (faces_at own.old))
        writer.old writer.new true }
{
    let from = port_at(node, going.port);
    let packet = going.packet(own);
    show_form(packet);
    match going.next {
        Next::Nowhere => {
            writer.write_drop(from, packet);
            going.pass_on(own);
        }
        Next::Port(to) => {
            writer.write_move(from, port_at(node, to), packet);
            going.pass_on(own);
        }
        Next::RegisterUnit => {
            let request = packet.copy();
            let response = going.answer(own, registers);
            show_form(&response);
            writer.write_answer(from, &request, &response);
        }
    }
}

/// A port of a node.
fn port_at(node: u8, port: u8) -> PortRef
    ensures { result ≡ record { node = node; port = port } }
{
    PortRef { node, port }
}
