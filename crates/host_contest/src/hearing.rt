//! What a machine does with a value that was read, by its stage.
ghost use Rattle.std.specs.Prelude.{◌≡◌, ◌≤◌, ◌<◌, ◌+◌, length, OnOk};
ghost use Rattle.fabric_map.specs.Topology.{Topology};
ghost use Rattle.contest_machine.specs.declared.stages.Stage.TheVariants.{Ask, Claim, Check, Test, Features, Information, Status, Free};
ghost use Rattle.contest_machine.specs.Machine.{freeing, gone_on, judged, numbered, switch_set_up, outward, asked, told_at};
ghost use Rattle.contest_machine.specs.Within.{AreShort, WalkIsBounded, IsBoundedAt};
ghost use Rattle.host_contest.specs.Machines.{machine_of, port_left};

use crate::machine::{Machine, last_of};
use crate::values::FREE;
use crate::writes::{push_entry, push_routes};
use contest_machine::{Stage, Tried};
use host_enumerate::offsets::ALONG_PATH;
use std::alloc::AllocError;

impl Machine {
    /// Does with the value that was read, or that a write answered, what its stage asks for.
    pub(crate) fn hear(&mut self, value: u32) -> Result<(), AllocError>
        requires few { length self.old.map.devices.items ≤ 64 }
        requires bounded { IsBoundedAt self.old.stage self.old.map.devices.items self.old.id
            self.old.next self.old.path self.old.tried }
        ensures { OnOk result ((view : Topology) → machine_of view self.new
            ≡ told_at (machine_of view self.old) value self.old.stage) }
    {
        match self.stage {
            Stage::Ask => self.hear_lock(value),
            Stage::Claim => self.hear_write(),
            Stage::Check => self.hear_claim(value),
            Stage::Test => self.hear_tag(value),
            Stage::Features => self.hear_features(value),
            Stage::Information => self.hear_ports(value),
            Stage::Status => self.hear_status(value),
            Stage::Free => self.hear_freed(),
            Stage::Done | Stage::Lost => Ok(()),
        }
    }

    /// The ID was written to the lock. Whether it stands there is read next.
    fn hear_write(&mut self) -> Result<(), AllocError>
        ensures { OnOk result ((view : Topology) → machine_of view self.new
            ≡ told_at (machine_of view self.old) 0 Claim) }
    {
        self.stage = Stage::Check;
        Ok(())
    }

    /// The last device is free.
    fn hear_freed(&mut self) -> Result<(), AllocError>
        ensures { OnOk result ((view : Topology) → machine_of view self.new
            ≡ told_at (machine_of view self.old) 0 Free) }
    {
        let others = self.count().saturating_sub(1);
        self.map.devices.truncate(others);
        self.free_last()
    }

    /// How many devices are in the list.
    fn count(&self) -> usize
        ensures { result ≡ length self.now.map.devices.items }
    {
        self.map.devices.len()
    }

    /// The lock is the host's own, or is judged.
    fn hear_lock(&mut self, lock: u32) -> Result<(), AllocError>
        ensures { OnOk result ((view : Topology) → machine_of view self.new
            ≡ told_at (machine_of view self.old) lock Ask) }
    {
        if lock == u32::from(self.id) {
            self.stage = Stage::Test;
            Ok(())
        } else {
            self.judge(lock)
        }
    }

    /// The claim was won, or the lock is judged.
    fn hear_claim(&mut self, lock: u32) -> Result<(), AllocError>
        requires few { length self.old.map.devices.items ≤ 64 }
        ensures { OnOk result ((view : Topology) → machine_of view self.new
            ≡ told_at (machine_of view self.old) lock Check) }
    {
        if lock == u32::from(self.id) {
            self.keep()
        } else {
            self.judge(lock)
        }
    }

    /// A device with the own lock and no tag is new. One with a tag was met before.
    fn hear_tag(&mut self, tag: u32) -> Result<(), AllocError>
        requires few { length self.old.map.devices.items ≤ 64 }
        ensures { OnOk result ((view : Topology) → machine_of view self.new
            ≡ told_at (machine_of view self.old) tag Test) }
    {
        if tag == 0 { self.keep() } else { self.go_on() }
    }

    /// An endpoint is numbered. A switch is asked for its ports.
    fn hear_features(&mut self, features: u32) -> Result<(), AllocError>
        requires few { length self.old.map.devices.items ≤ 64 }
        requires bounded { WalkIsBounded self.old.map.devices.items self.old.id self.old.next
            self.old.path self.old.tried }
        ensures { OnOk result ((view : Topology) → machine_of view self.new
            ≡ told_at (machine_of view self.old) features Features) }
    {
        if features / 0x1000_0000 % 2 == 1 {
            self.stage = Stage::Information;
            Ok(())
        } else {
            self.number()
        }
    }

    /// The ports of a switch, and the port by which it was entered.
    fn hear_ports(&mut self, information: u32) -> Result<(), AllocError>
        requires few { length self.old.map.devices.items ≤ 64 }
        ensures { OnOk result ((view : Topology) → machine_of view self.new
            ≡ told_at (machine_of view self.old) information Information) }
    {
        let ports = (information / 0x100 % 0x100) as u8;
        let entry = (information % 0x100) as u8;
        self.set_up(ports, entry)
    }

    /// The device behind a port with a link is tried, else the next port.
    fn hear_status(&mut self, status: u32) -> Result<(), AllocError>
        requires { AreShort 64 self.old.tried }
        ensures { OnOk result ((view : Topology) → machine_of view self.new
            ≡ told_at (machine_of view self.old) status Status) }
    {
        if status == 2 {
            self.go_out()
        } else {
            self.go_on()
        }
    }

    /// A lock that is not the host's own: it is claimed, waited for, or makes the walker give up.
    fn judge(&mut self, lock: u32) -> Result<(), AllocError>
        ensures { OnOk result ((view : Topology) → machine_of view self.new
            ≡ judged (machine_of view self.old) lock) }
    {
        if lock == FREE {
            self.stage = Stage::Claim;
            return Ok(());
        }
        if u32::from(self.id) < lock {
            return self.free_last();
        }
        self.stage = Stage::Ask;
        Ok(())
    }

    /// The last device is freed next, if one is left.
    fn free_last(&mut self) -> Result<(), AllocError>
        ensures { OnOk result ((view : Topology) → machine_of view self.new
            ≡ freeing (machine_of view self.old) self.old.map.devices.items) }
    {
        self.tried.clear();
        self.todo.clear();
        let devices = self.map.devices.as_slice();
        match last_of(devices) {
            Some(device) => {
                push_routes(&mut self.todo, devices, &device.path, ALONG_PATH)?;
                self.stage = Stage::Free;
            }
            None => self.stage = Stage::Lost,
        }
        Ok(())
    }

    /// The next port of the last switch is tried, or, once it has none, that of the one before.
    pub(crate) fn go_on(&mut self) -> Result<(), AllocError>
        ensures { OnOk result ((view : Topology) → machine_of view self.new
            ≡ gone_on (machine_of view self.old) self.old.tried) }
    {
        let Some(top) = self.tried.pop_front() else {
            self.stage = Stage::Done;
            return Ok(());
        };
        match next_port(&top) {
            Some(port) => {
                self.tried.push_front(Tried { port, ..top })?;
                self.stage = Stage::Status;
                Ok(())
            }
            None => self.go_on(),
        }
    }

    /// The device behind the port that is tried is asked.
    fn go_out(&mut self) -> Result<(), AllocError>
        requires { AreShort 64 self.old.tried }
        ensures { OnOk result ((view : Topology) → machine_of view self.new
            ≡ outward (machine_of view self.old) self.old.tried) }
    {
        let Some(top) = self.tried.front() else {
            self.stage = Stage::Done;
            return Ok(());
        };
        self.path = top.path.onward(top.port);
        self.todo.clear();
        push_entry(&mut self.todo, &top.path, ALONG_PATH, top.port)?;
        self.stage = Stage::Ask;
        Ok(())
    }
}

/// The port of a switch that is tried next, if one is left: the entry port is left out.
fn next_port(top: &Tried) -> Option<u8>
    ensures { result ≡ port_left top.now }
{
    let next = u32::from(top.port) + 1;
    let port = if next == u32::from(top.entry) {
        next + 1
    } else {
        next
    };
    if port < u32::from(top.ports) {
        Some(port as u8)
    } else {
        None
    }
}
