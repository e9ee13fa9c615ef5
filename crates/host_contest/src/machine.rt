//! `Machine`: what a walker knows between two accesses, what it asks next, and what it does with
//! the answer.
ghost use Rattle.std.specs.Prelude.{◌≡◌, ◌≢◌, ◌≤◌, ◌<◌, ◌+◌, ◌^◌, [], length, OnOk, OnSome, IfSome, IfNone};
ghost use Rattle.fabric_map.specs.Topology.{Topology};
ghost use Rattle.host_enumerate.specs.declared.maint.Access.TheVariants.{Write};
ghost use Rattle.contest_machine.specs.declared.stages.Stage.TheVariants.{Ask, Claim, Check, Test, Features, Information, Status, Free};
ghost use Rattle.contest_machine.specs.Machine.{last_path, taken, asked, status_asked, wants_at, wants, settled, walker_told};
ghost use Rattle.contest_machine.specs.Within.{IsBoundedAt};
ghost use Rattle.host_enumerate.specs.Accesses.{access_offset};
ghost use Rattle.host_contest.specs.Machines.{machine_of, new_walker};
ghost use Rattle.host_contest.specs.Reaching.{AreLow};

use contest_machine::{Asked, PendingWrite, Stage, Tried};
use fabric_map::{Device, Map, Path};
use host_enumerate::Access;
use host_enumerate::offsets::{
    COMPONENT_TAG, FEATURES, FIRST_STATUS, HOST_LOCK, PORT_INFORMATION, STATUS_STEP,
};
use std::alloc::{AllocError, Global};
use std::collections::LinkedList;

/// What a walker knows between two accesses.
#[derive(Drop)]
pub(crate) struct Machine {
    /// The ID of its host.
    pub(crate) id: u8,
    /// It has had a turn.
    pub(crate) begun: bool,
    /// The devices that were taken in, in the order of their tags, and the entries once it is done.
    pub(crate) map: Map,
    /// The ID that is given next, if it is not the host's.
    pub(crate) next: u8,
    /// The path of the device that is tried.
    pub(crate) path: Path,
    /// The switches whose ports are tried, the last first.
    pub(crate) tried: LinkedList<Tried>,
    /// What is still to be written, in order.
    pub(crate) todo: LinkedList<PendingWrite>,
    pub(crate) stage: Stage,
}

impl Machine {
    /// Whoever has this ID and has asked nothing yet.
    pub(crate) fn new(alloc: Global, id: u8) -> Machine
        ensures machine { (view : Topology) → machine_of view result ≡ new_walker view id }
        ensures low { AreLow result.todo }
    {
        Machine {
            id,
            begun: false,
            map: Map {
                devices: Vec::new(alloc),
                entries: Vec::new(alloc),
            },
            next: 0,
            path: Path::of_host(),
            tried: LinkedList::new(alloc),
            todo: LinkedList::new(alloc),
            stage: Stage::Ask,
        }
    }

    /// A write was made. The host is taken in once it has its marks.
    fn settle(&mut self) -> Result<(), AllocError>
        requires few { length self.old.map.devices.items ≤ 64 }
        ensures { OnOk result ((view : Topology) → machine_of view self.new
            ≡ settled (machine_of view self.old) self.old.todo self.old.stage self.old.path) }
    {
        if !self.path.as_slice().is_empty() || !self.todo.is_empty() {
            return Ok(());
        }
        match self.stage {
            Stage::Features => self.number_host(),
            _ => Ok(()),
        }
    }

    /// What is asked next, unless the walker has ended.
    pub(crate) fn wants(&self) -> Option<Asked>
        ensures wanted { (view : Topology) → result ≡ wants (machine_of view self.now) }
        ensures low { AreLow self.now.todo
            → IfSome result (λ asked. access_offset asked.access < 2 ^ 24) }
    {
        match self.todo.front() {
            Some(write) => Some(Asked {
                path: write.path.copied(),
                access: Access::Write(write.offset, write.value),
            }),
            None => self.wants_at(),
        }
    }

    /// What is asked next, if nothing is left to be written.
    fn wants_at(&self) -> Option<Asked>
        ensures wanted { (view : Topology)
            → result ≡ wants_at (machine_of view self.now) self.now.stage }
        ensures low { IfSome result (λ asked. access_offset asked.access < 2 ^ 24) }
    {
        match self.stage {
            Stage::Ask | Stage::Check => Some(self.at_path(Access::Read(HOST_LOCK))),
            Stage::Claim => Some(self.at_path(Access::Write(HOST_LOCK, u32::from(self.id)))),
            Stage::Test => Some(self.at_path(Access::Read(COMPONENT_TAG))),
            Stage::Features => Some(self.at_path(Access::Read(FEATURES))),
            Stage::Information => Some(self.at_path(Access::Read(PORT_INFORMATION))),
            Stage::Status => self.status(),
            Stage::Free => Some(self.release()),
            Stage::Done | Stage::Lost => None,
        }
    }

    /// An access to the device on the path.
    fn at_path(&self, access: Access) -> Asked
        ensures { result ≡ asked self.now.path access }
    {
        Asked {
            path: self.path.copied(),
            access,
        }
    }

    /// The status of the port that is tried.
    fn status(&self) -> Option<Asked>
        ensures wanted { result ≡ status_asked self.now.tried }
        ensures low { IfSome result (λ asked. access_offset asked.access < 2 ^ 24) }
    {
        let top = self.tried.front()?;
        Some(Asked {
            path: top.path.copied(),
            access: Access::Read(FIRST_STATUS + STATUS_STEP * u32::from(top.port)),
        })
    }

    /// The last device is freed.
    fn release(&self) -> Asked
        ensures { result ≡ asked (last_path self.now.map.devices.items) (Write 0x68 self.now.id) }
    {
        let path = match last_of(self.map.devices.as_slice()) {
            Some(device) => device.path.copied(),
            None => Path::of_host(),
        };
        Asked {
            path,
            access: Access::Write(HOST_LOCK, u32::from(self.id)),
        }
    }

    /// The access that it wanted was answered with this value.
    pub(crate) fn told(&mut self, value: u32) -> Result<(), AllocError>
        requires few { length self.old.map.devices.items ≤ 64 }
        requires bounded { IsBoundedAt self.old.stage self.old.map.devices.items self.old.id
            self.old.next self.old.path self.old.tried }
        ensures { OnOk result ((view : Topology) → machine_of view self.new
            ≡ walker_told (machine_of view self.old) value) }
    {
        match self.todo.pop_front() {
            Some(_) => self.settle(),
            None => self.hear(value),
        }
    }
}

/// The last of these devices.
pub(crate) fn last_of(devices: &[Device]) -> Option<&Device>
    ensures path { IfSome result (λ device. device.now.path ≡ last_path devices.now) }
    ensures none { IfNone result (devices.now ≡ []) }
    ensures some { OnSome result (devices.now ≢ []) }
{
    match devices {
        [] => None,
        [device] => Some(device),
        [_, rest @ ..] => last_of(rest),
    }
}
