//! What lines of set-up make: first the devices and the links, and then the ports.
ghost use Rattle.std.specs.Prelude.{◌≡◌, ◌≤◌, ℕ, ◌<◌, true, false, None, [], ◌∷◌, ◌++◌, All, map, length, replicate, IfOk};
ghost use Rattle.link_machine.specs.States.{empty_wires};
ghost use Rattle.maint_registers.specs.Devices.{new_endpoint, new_switch, with_link};
ghost use Rattle.fabric_model.specs.Laws.Proper.{AreProper};
ghost use Rattle.fabric_model.specs.Network.{Network};
ghost use Rattle.fabric_script.specs.Scripts.{ScriptPasses};
ghost use Rattle.fabric_trace.specs.Events.{ArePorts, counts_after};
ghost use Rattle.fabric_trace.specs.Runs.{bare, set_up, set_up_all, begins};
ghost use Rattle.fabric_trace.specs.SetUps.{MaySetUp};
ghost use Rattle.fabric_ports.specs.Places.{IsPortOf, place_of};
ghost use Rattle.fabric_ports.specs.Plans.{IsPlan, IsNewCable, PlansFor, MayAdd, HasBuffers, plain_port, planned_port, with_plan, counts_of, with_end_at, is_new};
ghost use Rattle.fabric_ports.specs.Showing.{ends_of, LeadToLinks};
ghost use Rattle.fabric_ports.specs.Standing.{Stands};

use crate::fabric::{Cable, Fabric};
use crate::idle::Idle;
use fabric_script::{Line, PortRef, Script};
use link_law::Link;
use link_port::Port;
use maint_registers::Registers;
use rio_chars::NoMemory;
use std::alloc::{AllocError, Global};

/// What a port gets if no line says anything of it.
const PLAIN_PORT: PortPlan = PortPlan {
    buffers: 8,
    tells: false,
};

impl Fabric {
    /// Makes the fabric that the set-up lines of a script make, with no packet in it and nothing on
    /// its wires. The script passes. All memory of the ports is taken here; `NoMemory` is the only
    /// other answer.
    pub fn new(alloc: Global, script: &Script) -> Result<Fabric, NoMemory>
        requires passes { ScriptPasses script.now.names.items script.now.lines.items }
        ensures stands { IfOk result (λ fabric.
            Stands (begins (set_up_all bare script.now.lines.items)) [] fabric) }
        ensures named { IfOk result (λ fabric.
            length fabric.devices.items ≡ length script.now.names.items) }
    {
        let mut plan = Plan::new(alloc);
        for numbered in &script.lines {
            plan.add(alloc, &numbered.line)?;
        }
        let ports = make_ports(alloc, &plan.ports)?;
        let cable_at = plan.number_cables(alloc)?;
        let idle = Idle::new(alloc, plan.cables.len(), plan.devices.len())?;
        Ok(Fabric {
            devices: plan.devices,
            firsts: plan.firsts,
            ports,
            cables: plan.cables,
            cable_at,
            idle,
        })
    }
}

/// What a port gets: so many receive buffers, and whether it tells how many of them are free.
#[derive(Clone, Copy)]
pub(crate) struct PortPlan {
    buffers: u8,
    tells: bool,
}

/// A fabric before its ports are made: in place of each port, what it gets.
#[derive(Drop)]
pub(crate) struct Plan {
    devices: Vec<Registers>,
    firsts: Vec<usize>,
    ports: Vec<PortPlan>,
    cables: Vec<Cable>,
}

impl Plan {
    /// What no lines make.
    fn new(alloc: Global) -> Plan
        ensures plans { PlansFor result bare }
        ensures counts { counts_of result.devices.items ≡ [] }
    {
        Plan {
            devices: Vec::new(alloc),
            firsts: Vec::new(alloc),
            ports: Vec::new(alloc),
            cables: Vec::new(alloc),
        }
    }

    /// Takes a line in. An event makes nothing.
    fn add(&mut self, alloc: Global, line: &Line) -> Result<(), AllocError>
        requires may { MayAdd self.old line.now }
        requires ports { ArePorts (counts_of self.old.devices.items) line.now }
        ensures plans { IfOk result (λ _. (net : Network) → PlansFor self.old net
            → MaySetUp net line.now → PlansFor self.new (set_up net line.now)) }
        ensures counts { IfOk result (λ _. counts_of self.new.devices.items
            ≡ counts_after (counts_of self.old.devices.items) line.now) }
    {
        match line {
            Line::Endpoint { id, .. } => self.add_endpoint(*id),
            Line::Switch { ports, .. } => self.add_switch(*ports),
            Line::Link { a, b } => self.add_cable(alloc, *a, *b),
            _ => {
                self.set(line);
                Ok(())
            }
        }
    }

    /// Adds an endpoint. Registers are large, so no other line has room made for them.
    fn add_endpoint(&mut self, id: u8) -> Result<(), AllocError>
        ensures devices { IfOk result (λ _. self.new.devices.items
            ≡ self.old.devices.items ++ new_endpoint id false ∷ []) }
        ensures firsts { IfOk result (λ _. self.new.firsts.items
            ≡ self.old.firsts.items ++ length self.old.ports.items ∷ []) }
        ensures ports { IfOk result (λ _. self.new.ports.items
            ≡ self.old.ports.items ++ replicate (new_endpoint id false).ports plain_port) }
        ensures cables { self.new.cables ≡ self.old.cables }
    {
        self.add_device(Registers::endpoint(id, false))
    }

    /// Adds a switch of so many ports.
    fn add_switch(&mut self, ports: u8) -> Result<(), AllocError>
        requires least { 2 ≤ ports }
        requires most { ports ≤ 16 }
        ensures devices { IfOk result (λ _. self.new.devices.items
            ≡ self.old.devices.items ++ new_switch ports 0 ∷ []) }
        ensures firsts { IfOk result (λ _. self.new.firsts.items
            ≡ self.old.firsts.items ++ length self.old.ports.items ∷ []) }
        ensures ports { IfOk result (λ _. self.new.ports.items
            ≡ self.old.ports.items ++ replicate (new_switch ports 0).ports plain_port) }
        ensures cables { self.new.cables ≡ self.old.cables }
    {
        self.add_device(Registers::switch(ports, 0))
    }

    /// Adds a device and its ports.
    fn add_device(&mut self, device: Registers) -> Result<(), AllocError>
        ensures devices { IfOk result (λ _. self.new.devices.items
            ≡ self.old.devices.items ++ device ∷ []) }
        ensures firsts { IfOk result (λ _. self.new.firsts.items
            ≡ self.old.firsts.items ++ length self.old.ports.items ∷ []) }
        ensures ports { IfOk result (λ _. self.new.ports.items
            ≡ self.old.ports.items ++ replicate device.ports plain_port) }
        ensures cables { self.new.cables ≡ self.old.cables }
    {
        self.firsts.push(self.ports.len())?;
        for _ in 0..device.ports() {
            self.ports.push(PLAIN_PORT)?;
        }
        self.devices.push(device)?;
        Ok(())
    }

    /// Adds a link between two ports, and tells their devices.
    fn add_cable(&mut self, alloc: Global, a: PortRef, b: PortRef) -> Result<(), AllocError>
        requires first { IsPortOf self.old.devices.items a }
        requires second { IsPortOf self.old.devices.items b }
        ensures cables { IfOk result (λ _. self.new.cables.items
            ≡ self.old.cables.items ++ record { a = a; b = b; link = empty_wires } ∷ []) }
        ensures devices { IfOk result (λ _. self.new.devices.items
            ≡ with_end_at (with_end_at self.old.devices.items a) b) }
        ensures rest { self.new ≡ record self.old {
          devices = self.new.devices;
          cables = self.new.cables;
        } }
    {
        let link = Link::new(alloc);
        self.cables.push(Cable { a, b, link })?;
        self.set_linked(a);
        self.set_linked(b);
        Ok(())
    }

    /// Tells the device of a port that the port has a link.
    fn set_linked(&mut self, port: PortRef)
        requires { IsPortOf self.old.devices.items port }
        ensures devices { self.new.devices.items ≡ with_end_at self.old.devices.items port }
        ensures rest { self.new ≡ record self.old { devices = self.new.devices } }
    {
        tell_link(&mut self.devices[usize::from(port.node)], port.port);
    }

    /// Takes a line in that makes nothing new.
    fn set(&mut self, line: &Line)
        requires may { MayAdd self.old line.now }
        requires ports { ArePorts (counts_of self.old.devices.items) line.now }
        requires old { is_new line.now ≡ false }
        ensures plans { (net : Network) → PlansFor self.old net → MaySetUp net line.now
            → PlansFor self.new (set_up net line.now) }
        ensures counts { counts_of self.new.devices.items ≡ counts_of self.old.devices.items }
    {
        match line {
            Line::Buffers { port, n } => self.set_buffers(*port, *n),
            Line::Credits { port } => self.set_telling(*port),
            Line::Route { node, id, p } => self.devices[usize::from(*node)].set_route(*id, *p),
            Line::Default { node, p } => self.devices[usize::from(*node)].set_default(*p),
            Line::Lock { node, id } => self.devices[usize::from(*node)].set_lock(*id),
            Line::Large { node, id } => self.devices[usize::from(*node)].set_large(*id),
            _ => {}
        }
    }

    /// Says how many receive buffers a port gets.
    fn set_buffers(&mut self, port: PortRef, n: u8)
        requires plan { IsPlan self.old }
        requires port { IsPortOf self.old.devices.items port }
        ensures ports { self.new.ports.items ≡ with_plan self.old.ports.items
            (place_of self.old.firsts.items port) (λ plan. record plan { buffers = n }) }
        ensures rest { self.new ≡ record self.old { ports = self.new.ports } }
    {
        let place = self.place(port);
        self.ports[place].buffers = n;
    }

    /// Says that a port tells its free buffers.
    fn set_telling(&mut self, port: PortRef)
        requires plan { IsPlan self.old }
        requires port { IsPortOf self.old.devices.items port }
        ensures ports { self.new.ports.items ≡ with_plan self.old.ports.items
            (place_of self.old.firsts.items port) (λ plan. record plan { tells = true }) }
        ensures rest { self.new ≡ record self.old { ports = self.new.ports } }
    {
        let place = self.place(port);
        self.ports[place].tells = true;
    }

    /// The number of each port's cable, by the place of the port.
    fn number_cables(&self, alloc: Global) -> Result<Vec<usize>, AllocError>
        requires plan { IsPlan self.now }
        requires cables { All (IsNewCable self.now.devices.items) self.now.cables.items }
        requires proper { AreProper (map ends_of self.now.cables.items) }
        ensures { IfOk result (λ numbers. LeadToLinks (map ends_of self.now.cables.items)
            self.now.firsts.items numbers.items) }
    {
        let mut numbers = vec![in alloc; 0; self.ports.len()]?;
        for (number, cable) in self.cables.iter().enumerate() {
            numbers[self.place(cable.a)] = number;
            numbers[self.place(cable.b)] = number;
        }
        Ok(numbers)
    }

    /// The place of a port among all ports.
    fn place(&self, port: PortRef) -> usize
        requires plan { IsPlan self.now }
        requires port { IsPortOf self.now.devices.items port }
        ensures value { result ≡ place_of self.now.firsts.items port }
        ensures within { result < length self.now.ports.items }
    {
        self.firsts[usize::from(port.node)] + usize::from(port.port)
    }
}

/// Tells a device that one of its ports has a link.
pub(crate) fn tell_link(device: &mut Registers, port: u8)
    requires { port < device.old.ports }
    ensures { device.new ≡ record device.old { linked = with_link device.old.linked port } }
{
    // No device has more than 16 ports.
    prove!(device.ports() <= 16);
    device.set_linked(port);
}

/// New ports as planned.
fn make_ports(alloc: Global, plans: &[PortPlan]) -> Result<Vec<Port>, NoMemory>
    requires { All HasBuffers plans.now }
    ensures { IfOk result (λ ports. ports.items ≡ map planned_port plans.now) }
{
    let mut ports = Vec::new(alloc);
    for plan in plans {
        let port = make_port(alloc, *plan)?;
        let Ok(()) = ports.push(port) else {
            return Err(NoMemory);
        };
    }
    Ok(ports)
}

/// A new port as planned.
fn make_port(alloc: Global, plan: PortPlan) -> Result<Port, NoMemory>
    requires { HasBuffers plan }
    ensures { IfOk result (λ port. port ≡ planned_port plan) }
{
    if plan.tells {
        Port::telling(alloc, plan.buffers)
    } else {
        Port::new(alloc, plan.buffers)
    }
}
