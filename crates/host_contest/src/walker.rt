//! `Walker`: one of two hosts that number a fabric during the same time.
ghost use Rattle.std.specs.Prelude.{◌≡◌, ◌↔◌, IsTrue, IsSome, IfSome, OnOk, OnErr, IfOk, IfErr};
ghost use Rattle.fabric_map.specs.Topology.{Topology};
ghost use Rattle.fabric_map.specs.declared.map.Map.{Map};
ghost use Rattle.host_enumerate.specs.Causes.{IsCaused};
ghost use Rattle.contest_machine.specs.declared.stages.Turn.TheVariants.{Going};
ghost use Rattle.contest_machine.specs.Turns.{walker_turned, came_of};
ghost use Rattle.host_contest.specs.Machines.{new_walker, machine_is_done, has_ended};
ghost use Rattle.host_contest.specs.Reaching.{CanReachOn, AreLow};
ghost use Rattle.host_contest.specs.Steps.{state_in, CanStep};
ghost use Rattle.host_contest.specs.Walkers.{machine_in, HasEntries, going_after};

use crate::machine::Machine;
use contest_machine::{Stage, Turn};
use fabric_map::{Map, entries_of};
use host_enumerate::{Maint, MaintEnd};
use rio_chars::NoMemory;
use std::alloc::Global;

/// A host that numbers a fabric while another does, one access a turn.
#[derive(Drop)]
pub struct Walker {
    pub(crate) machine: Machine,
    /// How many turns answered `Going`.
    pub(crate) going: u32,
    /// What came of its last turn.
    pub(crate) last: Turn,
}

impl Walker {
    /// A walker of a host with this ID, which has asked nothing yet.
    pub fn new(alloc: Global, id: u8) -> Walker
        ensures machine { (view : Topology) → machine_in view result ≡ new_walker view id }
        ensures low { AreLow result.machine.todo }
        ensures none { result.going ≡ 0 }
        ensures last { result.last ≡ Going }
        ensures entries { HasEntries result }
    {
        Walker {
            machine: Machine::new(alloc, id),
            going: 0,
            last: Turn::Going,
        }
    }

    /// One turn: one access, or in the first turn all that lock the host. It answers `Waiting` if
    /// it read the lock of a host with a lesser ID, `Done` and `Lost` once it has ended, and else
    /// `Going`. After an end neither fabric nor walker is of use.
    pub fn turn<M: Maint>(&mut self, alloc: Global, maint: &mut M) -> Result<Turn, MaintEnd>
        requires whole { M.IsWhole maint.old }
        requires can { CanStep (M.topology maint.old) (M.registers maint.old) self.old.machine }
        requires reach { CanReachOn (machine_in (M.topology maint.old) self.old)
            (M.registers maint.old) }
        ensures turned { OnOk result (state_in (M.topology maint.old) (M.registers maint.new)
            self.new.machine ≡ walker_turned (machine_in (M.topology maint.old) self.old)
            (M.registers maint.old)) }
        ensures answer { IfOk result (λ turn. turn ≡ came_of
            (machine_in (M.topology maint.old) self.old)
            (machine_in (M.topology maint.old) self.new)) }
        ensures can { OnOk result (CanStep (M.topology maint.old) (M.registers maint.new)
            self.new.machine) }
        ensures topology { M.topology maint.new ≡ M.topology maint.old }
        ensures whole { OnOk result (M.IsWhole maint.new) }
        ensures follows { OnOk result ((origin : _) → M.Follows origin maint.old
            → M.Follows origin maint.new) }
        ensures leaves { OnErr result ((origin : _) → M.Follows origin maint.old
            → M.Leaves origin maint.new) }
        ensures cause { IfErr result (IsCaused (M.undetected maint.old, M.undetected maint.new)
            (M.faults maint.old, M.faults maint.new) (M.IsMet maint.new)) }
        ensures undetected { OnOk result (M.undetected maint.new ≡ M.undetected maint.old) }
        ensures faults { OnOk result (M.faults maint.new ≡ M.faults maint.old) }
        ensures going { IfOk result (λ turn. self.new.going ≡ going_after self.old.going turn) }
        ensures last { IfOk result (λ turn. self.new.last ≡ turn) }
        ensures entries { OnOk result (HasEntries self.new) }
    {
        let was_clear = self.machine.todo.is_empty();
        self.machine.turn(alloc, maint)?;
        let turn = self.machine.came_of(was_clear);
        self.note(turn);
        match self.list_entries(alloc) {
            Ok(()) => Ok(turn),
            Err(_) => Err(MaintEnd::NoMemory),
        }
    }

    /// Lists the entries of the map, once the walker is done.
    fn list_entries(&mut self, alloc: Global) -> Result<(), NoMemory>
        ensures machine { (view : Topology) → machine_in view self.new ≡ machine_in view self.old }
        ensures going { self.new.going ≡ self.old.going }
        ensures last { self.new.last ≡ self.old.last }
        ensures entries { OnOk result (HasEntries self.new) }
    {
        if self.is_done() {
            self.machine.map.entries = entries_of(alloc, self.machine.map.devices.as_slice())?;
        }
        Ok(())
    }

    /// Notes what came of a turn, and counts those that answered `Going`, up to the greatest count.
    fn note(&mut self, turn: Turn)
        ensures machine { self.new.machine ≡ self.old.machine }
        ensures going { self.new.going ≡ going_after self.old.going turn }
        ensures last { self.new.last ≡ turn }
    {
        self.last = turn;
        if turn == Turn::Going {
            self.going = self.going.saturating_add(1);
        }
    }

    /// The ID of the host.
    pub fn id(&self) -> u8
        ensures { result ≡ self.now.machine.id }
    {
        self.machine.id
    }

    /// Whether it has made a turn.
    pub fn has_begun(&self) -> bool
        ensures { result ≡ self.now.machine.begun }
    {
        self.machine.begun
    }

    /// How many turns answered `Going`.
    pub fn going(&self) -> u32
        ensures { result ≡ self.now.going }
    {
        self.going
    }

    /// What came of its last turn, `Going` if it had none.
    pub fn last(&self) -> Turn
        ensures { result ≡ self.now.last }
    {
        self.last
    }

    /// The map of the fabric, once a turn has answered `Done`.
    pub fn map(&self) -> Option<&Map>
        ensures some { IsSome result ↔ IsTrue (machine_is_done self.now.machine) }
        ensures map { IfSome result (λ map. map.now ≡ self.now.machine.map) }
    {
        if self.is_done() {
            Some(&self.machine.map)
        } else {
            None
        }
    }

    /// Whether it has numbered the fabric.
    pub fn is_done(&self) -> bool
        ensures { result ≡ machine_is_done self.now.machine }
    {
        self.machine.stage == Stage::Done && self.machine.todo.is_empty()
    }

    /// Whether it makes no access any more.
    pub fn has_ended(&self) -> bool
        ensures { result ≡ has_ended self.now.machine }
    {
        matches!(self.machine.stage, Stage::Done | Stage::Lost) && self.machine.todo.is_empty()
    }
}
