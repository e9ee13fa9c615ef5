//! The devices and links that set-up lines make.
ghost use Rattle.std.specs.Prelude.{◌≡◌, ◌<◌, ℕ, true, false, length, IfOk};
ghost use Rattle.maint_registers.specs.Devices.{is_switch};
ghost use Rattle.maint_registers.specs.Changes.{with_device, routed, defaulted, held_by, large_set};
ghost use Rattle.fabric_script.specs.Known.{links_after};
ghost use Rattle.fabric_script.specs.Scripts.{ScriptPasses};
ghost use Rattle.fabric_map.specs.Plain.{registers_of};
ghost use Rattle.host_enumerate.specs.Devised.{with_linked_end, devices_after, devices_of, links_of, MayDevise, JudgesHost};

use crate::plain::peer_in;
use fabric_script::{Line, PortRef, Script};
use maint_registers::Registers;
use rio_chars::NoMemory;
use std::alloc::{AllocError, Global};

/// The ID of an endpoint that has none.
const NO_ID: u8 = 255;

/// Why a node is no host.
#[derive(Clone, Copy, Debug, PartialEq, Eq)]
pub enum NoHost {
    /// There is no such node.
    Unknown,
    /// It is a switch, or an endpoint with the ID 255.
    WrongKind,
    /// Its port has no link.
    NotLinked,
}

/// The devices and links of the lines that were taken in.
#[derive(Drop)]
pub(crate) struct Devised {
    pub(crate) devices: Vec<Registers>,
    pub(crate) links: Vec<(PortRef, PortRef)>,
}

/// Says whether a node of a script can be the host that numbers the fabric, or why not. The script
/// passes. The reasons are looked at in their order.
pub fn judge_host(alloc: Global, script: &Script, node: u8) -> Result<Result<(), NoHost>, NoMemory>
    requires passes { ScriptPasses script.now.names.items script.now.lines.items }
    ensures { IfOk result (λ judged. JudgesHost (devices_of script.now.lines.items)
        (links_of script.now.lines.items) node judged) }
{
    let devised = Devised::by(alloc, script)?;
    Ok(devised.judge(node))
}

/// The devices and links that the set-up lines of a script make, both in the order of their lines.
/// The script passes.
pub fn devise(
    alloc: Global,
    script: &Script,
) -> Result<(Vec<Registers>, Vec<(PortRef, PortRef)>), NoMemory>
    requires passes { ScriptPasses script.now.names.items script.now.lines.items }
    ensures devices { IfOk result (λ made. made.0.items ≡ devices_of script.now.lines.items) }
    ensures links { IfOk result (λ made. made.1.items ≡ links_of script.now.lines.items) }
{
    let devised = Devised::by(alloc, script)?;
    Ok((devised.devices, devised.links))
}

impl Devised {
    /// What the set-up lines of a script make. The script passes.
    pub(crate) fn by(alloc: Global, script: &Script) -> Result<Devised, AllocError>
        requires passes { ScriptPasses script.now.names.items script.now.lines.items }
        ensures devices { IfOk result (λ devised.
            devised.devices.items ≡ devices_of script.now.lines.items) }
        ensures links { IfOk result (λ devised.
            devised.links.items ≡ links_of script.now.lines.items) }
    {
        let mut devised = Devised {
            devices: Vec::new(alloc),
            links: Vec::new(alloc),
        };
        for numbered in &script.lines {
            devised.add(&numbered.line)?;
        }
        Ok(devised)
    }

    /// Says whether a node can be the host, or why not.
    fn judge(&self, node: u8) -> Result<(), NoHost>
        ensures { JudgesHost self.now.devices.items self.now.links.items node result }
    {
        let Some(device) = self.devices.get(usize::from(node)) else {
            return Err(NoHost::Unknown);
        };
        if device.is_switch() || device.base_id() == NO_ID {
            return Err(NoHost::WrongKind);
        }
        match peer_in(self.links.as_slice(), PortRef { node, port: 0 }) {
            Some(_) => Ok(()),
            None => Err(NoHost::NotLinked),
        }
    }

    /// Takes a line in. An event makes nothing.
    fn add(&mut self, line: &Line) -> Result<(), AllocError>
        requires { MayDevise self.old.devices.items line.now }
        ensures devices { IfOk result (λ _.
            self.new.devices.items ≡ devices_after self.old.devices.items line.now) }
        ensures links { IfOk result (λ _.
            self.new.links.items ≡ links_after self.old.links.items line.now) }
    {
        match line {
            Line::Endpoint { id, .. } => self.devices.push(Registers::endpoint(*id, false))?,
            Line::Switch { ports, .. } => self.devices.push(Registers::switch(*ports, 0))?,
            Line::Link { a, b } => {
                self.links.push((*a, *b))?;
                tell_link(&mut self.devices, *a);
                tell_link(&mut self.devices, *b);
            }
            Line::Route { node, id, p } => set_route(&mut self.devices, *node, *id, *p),
            Line::Default { node, p } => set_default(&mut self.devices, *node, *p),
            Line::Lock { node, id } => set_lock(&mut self.devices, *node, *id),
            Line::Large { node, id } => set_large(&mut self.devices, *node, *id),
            _ => {}
        }
        Ok(())
    }
}

/// Tells the device of a port that the port has a link.
fn tell_link(devices: &mut Vec<Registers>, port: PortRef)
    requires node { port.node < length devices.old.items }
    requires port { port.port < 16 }
    ensures { devices.new.items ≡ with_linked_end devices.old.items port }
{
    devices[usize::from(port.node)].set_linked(port.port);
}

/// Sets the entry of a destination in the table of a switch.
fn set_route(devices: &mut Vec<Registers>, node: u8, id: u16, port: u8)
    requires node { node < length devices.old.items }
    requires switch { is_switch (registers_of devices.old.items node) ≡ true }
    requires destination { id < 1024 }
    ensures { devices.new.items ≡ with_device devices.old.items node (routed id port) }
{
    devices[usize::from(node)].set_route(id, port);
}

/// Sets the default port of a switch.
fn set_default(devices: &mut Vec<Registers>, node: u8, port: u8)
    requires node { node < length devices.old.items }
    requires switch { is_switch (registers_of devices.old.items node) ≡ true }
    ensures { devices.new.items ≡ with_device devices.old.items node (defaulted port) }
{
    devices[usize::from(node)].set_default(port);
}

/// Sets the lock of a device.
fn set_lock(devices: &mut Vec<Registers>, node: u8, id: u16)
    requires { node < length devices.old.items }
    ensures { devices.new.items ≡ with_device devices.old.items node (held_by id) }
{
    devices[usize::from(node)].set_lock(id);
}

/// Sets the 16-bit ID of an endpoint.
fn set_large(devices: &mut Vec<Registers>, node: u8, id: u16)
    requires node { node < length devices.old.items }
    requires endpoint { is_switch (registers_of devices.old.items node) ≡ false }
    ensures { devices.new.items ≡ with_device devices.old.items node (large_set id) }
{
    devices[usize::from(node)].set_large(id);
}
