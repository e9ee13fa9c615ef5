//! The turns of a machine, over whoever carries its accesses.
ghost use Rattle.std.specs.Prelude.{◌≡◌, ◌<◌, ◌≤◌, ℕ, [], length, true, OnOk};
ghost use Rattle.fabric_map.specs.Topology.{Topology};
ghost use Rattle.host_enumerate.specs.Carrying.{CallWent};
ghost use Rattle.contest_machine.specs.Machine.{stepped};
ghost use Rattle.contest_machine.specs.Turns.{is_locking, locked_on, walker_turned, came_of};
ghost use Rattle.host_contest.specs.Machines.{machine_of, is_clear};
ghost use Rattle.host_contest.specs.Reaching.{CanReach, CanReachOn, IsAtHost};
ghost use Rattle.host_contest.specs.Steps.{state_in, CanStep};

use crate::machine::Machine;
use crate::reaching::reach;
use contest_machine::{Stage, Turn};
use host_enumerate::{Maint, MaintEnd};
use std::alloc::Global;

impl Machine {
    /// One turn: one access, or in the first turn all that lock the host.
    pub(crate) fn turn<M: Maint>(&mut self, alloc: Global, maint: &mut M) -> Result<(), MaintEnd>
        requires whole { M.IsWhole maint.old }
        requires can { CanStep (M.topology maint.old) (M.registers maint.old) self.old }
        requires reach { CanReachOn (machine_of (M.topology maint.old) self.old)
            (M.registers maint.old) }
        ensures turned { OnOk result (state_in (M.topology maint.old) (M.registers maint.new)
            self.new ≡ walker_turned (machine_of (M.topology maint.old) self.old)
            (M.registers maint.old)) }
        ensures can { OnOk result (CanStep (M.topology maint.old) (M.registers maint.new)
            self.new) }
        ensures went { CallWent M.Maint maint.old maint.new result }
    {
        if self.begun {
            return self.step(alloc, maint);
        }
        self.begun = true;
        self.step(alloc, maint)?;
        self.lock_on(alloc, maint)?;
        self.lock_on(alloc, maint)
    }

    /// One access more, if it is still of the lock that was just read.
    fn lock_on<M: Maint>(&mut self, alloc: Global, maint: &mut M) -> Result<(), MaintEnd>
        requires whole { M.IsWhole maint.old }
        requires can { CanStep (M.topology maint.old) (M.registers maint.old) self.old }
        requires host { is_locking self.old.stage ≡ true
            → IsAtHost (machine_of (M.topology maint.old) self.old) }
        ensures stepped { OnOk result (state_in (M.topology maint.old) (M.registers maint.new)
            self.new ≡ locked_on (state_in (M.topology maint.old) (M.registers maint.old)
            self.old)) }
        ensures can { OnOk result (CanStep (M.topology maint.old) (M.registers maint.new)
            self.new) }
        ensures went { CallWent M.Maint maint.old maint.new result }
    {
        if is_locking(self.stage) {
            self.step(alloc, maint)
        } else {
            Ok(())
        }
    }

    /// One access, which the device on the path answers.
    fn step<M: Maint>(&mut self, alloc: Global, maint: &mut M) -> Result<(), MaintEnd>
        requires whole { M.IsWhole maint.old }
        requires can { CanStep (M.topology maint.old) (M.registers maint.old) self.old }
        requires reach { CanReach (machine_of (M.topology maint.old) self.old)
            (M.registers maint.old) }
        ensures stepped { OnOk result (state_in (M.topology maint.old) (M.registers maint.new)
            self.new ≡ stepped (machine_of (M.topology maint.old) self.old)
            (M.registers maint.old)) }
        ensures can { OnOk result (CanStep (M.topology maint.old) (M.registers maint.new)
            self.new) }
        ensures went { CallWent M.Maint maint.old maint.new result }
    {
        let Some(asked) = self.wants() else {
            return Ok(());
        };
        let answer = reach(alloc, maint, &asked.path, asked.access)?;
        match self.told(answer.value) {
            Ok(()) => Ok(()),
            Err(_) => Err(MaintEnd::NoMemory),
        }
    }

    /// What came of a turn before which something was left to be written, or nothing.
    pub(crate) fn came_of(&self, was_clear: bool) -> Turn
        ensures { (view : Topology) (before : Machine) → was_clear ≡ is_clear before.todo
            → result ≡ came_of (machine_of view before) (machine_of view self.now) }
    {
        let is_clear = self.todo.is_empty();
        match self.stage {
            Stage::Ask if was_clear && is_clear => Turn::Waiting,
            Stage::Done if is_clear => Turn::Done,
            Stage::Lost if is_clear => Turn::Lost,
            _ => Turn::Going,
        }
    }
}

/// Whether what is asked next is still of the lock that was just read.
fn is_locking(stage: Stage) -> bool
    ensures { result ≡ is_locking stage }
{
    matches!(stage, Stage::Claim | Stage::Check | Stage::Test)
}
