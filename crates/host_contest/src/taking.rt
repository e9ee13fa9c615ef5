//! A machine takes the device on its path in.
ghost use Rattle.std.specs.Prelude.{◌≡◌, ◌≤◌, ◌<◌, ◌+◌, [], length, OnOk};
ghost use Rattle.fabric_map.specs.Topology.{Topology};
ghost use Rattle.host_enumerate.specs.Underway.{id_after};
ghost use Rattle.contest_machine.specs.declared.stages.Stage.TheVariants.{Ask, Features, Status};
ghost use Rattle.contest_machine.specs.Machine.{taken, numbered, switch_set_up};
ghost use Rattle.contest_machine.specs.Within.{WalkIsBounded};
ghost use Rattle.host_contest.specs.Machines.{machine_of, device_added, with_home, with_tried, first_port};

use crate::machine::Machine;
use crate::writes::{push_home, push_routes, push_write};
use contest_machine::{Stage, Tried};
use fabric_map::{Device, Kind, Path};
use host_enumerate::offsets::{BASE_ID, COMPONENT_TAG};
use std::alloc::AllocError;

impl Machine {
    /// The device on the path is kept from now on. It gets the next tag, and a host its own ID.
    pub(crate) fn keep(&mut self) -> Result<(), AllocError>
        requires few { length self.old.map.devices.items ≤ 64 }
        ensures { OnOk result ((view : Topology) → machine_of view self.new
            ≡ taken (machine_of view self.old)) }
    {
        self.todo.clear();
        if self.path.as_slice().is_empty() {
            push_write(
                &mut self.todo,
                &self.path,
                BASE_ID,
                u32::from(self.id) * 0x1_0000,
            )?;
        }
        let tag = self.next_tag();
        push_write(&mut self.todo, &self.path, COMPONENT_TAG, tag)?;
        self.stage = Stage::Features;
        Ok(())
    }

    /// The tag of the device that is taken in next.
    fn next_tag(&self) -> u32
        requires { length self.now.map.devices.items ≤ 64 }
        ensures { result ≡ length self.now.map.devices.items + 1 }
    {
        self.map.devices.len() as u32 + 1
    }

    /// The device on the path is an endpoint. It gets the next ID, and each switch on its path
    /// sends packets for that onwards. The host keeps its own.
    pub(crate) fn number(&mut self) -> Result<(), AllocError>
        requires few { length self.old.map.devices.items ≤ 64 }
        requires bounded { WalkIsBounded self.old.map.devices.items self.old.id self.old.next
            self.old.path self.old.tried }
        ensures { OnOk result ((view : Topology) → machine_of view self.new
            ≡ numbered (machine_of view self.old) self.old.path) }
    {
        if self.path.as_slice().is_empty() {
            return self.number_host();
        }
        let id = self.next_id();
        self.todo.clear();
        push_write(
            &mut self.todo,
            &self.path,
            BASE_ID,
            u32::from(id) * 0x1_0000,
        )?;
        push_routes(&mut self.todo, self.map.devices.as_slice(), &self.path, id)?;
        self.push_device(Kind::Endpoint { id })?;
        self.next = id + 1;
        self.go_on()
    }

    /// The host is taken in, and its neighbour is tried.
    pub(crate) fn number_host(&mut self) -> Result<(), AllocError>
        requires few { length self.old.map.devices.items ≤ 64 }
        ensures { OnOk result ((view : Topology) → machine_of view self.new
            ≡ numbered (machine_of view self.old) []) }
    {
        self.push_device(Kind::Endpoint { id: self.id })?;
        self.path = Path::of_host().onward(0);
        self.stage = Stage::Ask;
        Ok(())
    }

    /// The ID that is given next.
    fn next_id(&self) -> u8
        requires { self.now.next < 255 }
        ensures { result ≡ id_after self.now.id self.now.next }
    {
        if self.next == self.id {
            self.next + 1
        } else {
            self.next
        }
    }

    /// The device on the path is the next of the list.
    fn push_device(&mut self, kind: Kind) -> Result<(), AllocError>
        requires few { length self.old.map.devices.items ≤ 64 }
        ensures { OnOk result ((view : Topology) → machine_of view self.new
            ≡ device_added (machine_of view self.old) kind) }
    {
        let device = Device {
            tag: self.next_tag(),
            kind,
            path: self.path.copied(),
        };
        self.map.devices.push(device)?;
        Ok(())
    }

    /// The device on the path is a switch. It sends packets home, and its ports are tried.
    pub(crate) fn set_up(&mut self, ports: u8, entry: u8) -> Result<(), AllocError>
        requires few { length self.old.map.devices.items ≤ 64 }
        ensures { OnOk result ((view : Topology) → machine_of view self.new
            ≡ switch_set_up (machine_of view self.old) ports entry) }
    {
        self.set_home(entry)?;
        self.try_ports(ports, entry)?;
        self.push_device(Kind::Switch { ports, entry })?;
        self.stage = Stage::Status;
        Ok(())
    }

    /// The switch on the path is to send packets home.
    fn set_home(&mut self, entry: u8) -> Result<(), AllocError>
        ensures { OnOk result ((view : Topology) → machine_of view self.new
            ≡ with_home (machine_of view self.old) entry) }
    {
        self.todo.clear();
        push_home(&mut self.todo, &self.path, self.id, entry)
    }

    /// The ports of the switch on the path are tried next.
    fn try_ports(&mut self, ports: u8, entry: u8) -> Result<(), AllocError>
        ensures { OnOk result ((view : Topology) → machine_of view self.new
            ≡ with_tried (machine_of view self.old) ports entry) }
    {
        let tried = Tried {
            path: self.path.copied(),
            ports,
            entry,
            port: first_port(entry),
        };
        self.tried.push_front(tried)?;
        Ok(())
    }
}

/// The port of a switch that is tried first: the entry port is left out.
fn first_port(entry: u8) -> u8
    ensures { result ≡ first_port entry }
{
    if entry == 0 { 1 } else { 0 }
}
