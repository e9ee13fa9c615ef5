//! `Contest`: two hosts, and the fabric that they contest.
ghost use Rattle.std.specs.Prelude.{◌≡◌, ◌≢◌, ◌&&◌, ◌||◌, ◌<◌, ◌↔◌, IsTrue, OnOk, IfOk};
ghost use Rattle.fabric_script.specs.Scripts.{ScriptPasses};
ghost use Rattle.host_enumerate.specs.Devised.{IsHost, devices_of, links_of};
ghost use Rattle.contest_machine.specs.declared.stages.Turn.TheVariants.{Going, Waiting};
ghost use Rattle.contest_machine.specs.Turns.{turn_of, after_turns};
ghost use Rattle.fabric_contest.specs.Contests.{new_both, both_of, has_stopped, CanTurn};
ghost use Rattle.fabric_contest.specs.LastTurns.{lasts_of, lasts_after, lasts_after_turns, goings_of, goings_after, goings_after_turns};
ghost use Rattle.fabric_contest.specs.Orders.{sides_behind, seeded_turns};
ghost use Rattle.fabric_contest.specs.Waits.{HaveBegun, WaitsChangeNothing};

use crate::orders::{first_number, next_number, side_by};
use crate::over::{id_of, turn_over};
use contest_machine::Turn;
use fabric_ports::Fabric;
use fabric_script::Script;
use host_contest::Walker;
use link_watch::Side;
use rio_chars::NoMemory;
use std::alloc::Global;

/// How many turns are made at most behind the first two.
const LATER_TURNS: u32 = 99_998;

/// Which of two hosts wait, so that a turn of one leaves all as it is.
#[derive(Clone, Copy)]
struct WhoWaits {
    first: bool,
    second: bool,
}

/// Neither.
const NOBODY: WhoWaits = WhoWaits {
    first: false,
    second: false,
};

/// Two walkers of one fabric, the nodes of their hosts, and its script. Side A is the first. After
/// `NoMemory` it is of no use.
#[derive(Drop)]
pub struct Contest<'a> {
    pub(crate) fabric: Fabric,
    pub(crate) script: &'a Script,
    pub(crate) first_node: u8,
    pub(crate) second_node: u8,
    pub(crate) first: Walker,
    pub(crate) second: Walker,
}

impl<'a> Contest<'a> {
    /// The fabric of a script that passes, and two walkers that have made no turn, of two hosts of
    /// it.
    pub fn new(
        alloc: Global,
        script: &'a Script,
        first: u8,
        second: u8,
    ) -> Result<Contest<'a>, NoMemory>
        requires passes { ScriptPasses script.now.names.items script.now.lines.items }
        requires first { IsHost (devices_of script.now.lines.items)
            (links_of script.now.lines.items) first }
        requires second { IsHost (devices_of script.now.lines.items)
            (links_of script.now.lines.items) second }
        requires differ { first ≢ second }
        ensures both { IfOk result (λ contest. both_of contest
            ≡ new_both script.now.lines.items first second) }
        ensures can { IfOk result (λ contest. CanTurn contest) }
        ensures lasts { IfOk result (λ contest. lasts_of contest ≡ (Going, Going)) }
        ensures goings { IfOk result (λ contest. goings_of contest ≡ (0, 0)) }
    {
        let mut fabric = Fabric::new(alloc, script)?;
        let first_id = id_of(&mut fabric, script, first);
        let second_id = id_of(&mut fabric, script, second);
        Ok(Contest {
            fabric,
            script,
            first_node: first,
            second_node: second,
            first: Walker::new(alloc, first_id),
            second: Walker::new(alloc, second_id),
        })
    }

    /// One turn of one of the hosts.
    pub fn turn(&mut self, alloc: Global, side: Side) -> Result<(), NoMemory>
        requires can { CanTurn self.old }
        ensures both { OnOk result (both_of self.new ≡ turn_of (both_of self.old) side) }
        ensures lasts { OnOk result (lasts_of self.new
            ≡ lasts_after (both_of self.old) (lasts_of self.old) side) }
        ensures goings { OnOk result (goings_of self.new
            ≡ goings_after (both_of self.old) (goings_of self.old) side) }
        ensures can { OnOk result (CanTurn self.new) }
    {
        match side {
            Side::A => self.turn_first(alloc),
            Side::B => self.turn_second(alloc),
        }
    }

    /// One turn of the first host.
    fn turn_first(&mut self, alloc: Global) -> Result<(), NoMemory>
        requires can { CanTurn self.old }
        ensures both { OnOk result (both_of self.new ≡ turn_of (both_of self.old) Side.A) }
        ensures lasts { OnOk result (lasts_of self.new
            ≡ lasts_after (both_of self.old) (lasts_of self.old) Side.A) }
        ensures goings { OnOk result (goings_of self.new
            ≡ goings_after (both_of self.old) (goings_of self.old) Side.A) }
        ensures can { OnOk result (CanTurn self.new) }
    {
        let node = self.first_node;
        turn_over(alloc, &mut self.fabric, self.script, node, &mut self.first)
    }

    /// One turn of the second host.
    fn turn_second(&mut self, alloc: Global) -> Result<(), NoMemory>
        requires can { CanTurn self.old }
        ensures both { OnOk result (both_of self.new ≡ turn_of (both_of self.old) Side.B) }
        ensures lasts { OnOk result (lasts_of self.new
            ≡ lasts_after (both_of self.old) (lasts_of self.old) Side.B) }
        ensures goings { OnOk result (goings_of self.new
            ≡ goings_after (both_of self.old) (goings_of self.old) Side.B) }
        ensures can { OnOk result (CanTurn self.new) }
    {
        let node = self.second_node;
        turn_over(alloc, &mut self.fabric, self.script, node, &mut self.second)
    }

    /// The turns of a list, in order. Answers what came of the last turn of each host, `Going` for
    /// one that had none.
    pub fn turns(&mut self, alloc: Global, sides: &[Side]) -> Result<(Turn, Turn), NoMemory>
        requires can { CanTurn self.old }
        ensures both { OnOk result (both_of self.new ≡ after_turns (both_of self.old) sides.now) }
        ensures lasts { IfOk result (λ lasts. lasts
            ≡ lasts_after_turns (both_of self.old) (lasts_of self.old) sides.now) }
        ensures goings { OnOk result (goings_of self.new
            ≡ goings_after_turns (both_of self.old) (goings_of self.old) sides.now) }
        ensures can { OnOk result (CanTurn self.new) }
    {
        for side in sides {
            self.turn(alloc, *side)?;
        }
        Ok(self.lasts())
    }

    /// What came of the last turn of each host, `Going` for one that had none.
    fn lasts(&self) -> (Turn, Turn)
        ensures { result ≡ lasts_of self.now }
    {
        (self.first.last(), self.second.last())
    }

    /// The turns that a number stands for, 100,000 of them. None is made once each host waits or
    /// has ended, since it would change nothing.
    pub fn turns_by(&mut self, alloc: Global, seed: u32) -> Result<(), NoMemory>
        requires can { CanTurn self.old }
        ensures both { OnOk result (both_of self.new ≡ after_turns (both_of self.old)
            (seeded_turns seed)) }
        ensures can { OnOk result (CanTurn self.new) }
    {
        self.turn(alloc, Side::A)?;
        self.turn(alloc, Side::B)?;
        self.later_turns(alloc, first_number(seed), LATER_TURNS)
    }

    /// So many turns at most, by the numbers of the generator behind this one.
    fn later_turns(&mut self, alloc: Global, first: u32, count: u32) -> Result<(), NoMemory>
        requires small { first < 2147483648 }
        requires can { CanTurn self.old }
        requires begun { HaveBegun (both_of self.old) }
        ensures both { OnOk result (both_of self.new ≡ after_turns (both_of self.old)
            (sides_behind count first)) }
        ensures can { OnOk result (CanTurn self.new) }
    {
        let mut number = first;
        let mut waits = NOBODY;
        for _ in 0..count {
            if self.is_still(waits) {
                return Ok(());
            }
            number = next_number(number);
            waits = self.turn_and_see(alloc, side_by(number), waits)?;
        }
        Ok(())
    }

    /// Whether no turn changes anything any more: each host waits or has ended.
    fn is_still(&self, waits: WhoWaits) -> bool
        ensures { result ≡ ((waits.first || has_stopped self.now.first)
            && (waits.second || has_stopped self.now.second)) }
    {
        (waits.first || has_stopped(&self.first)) && (waits.second || has_stopped(&self.second))
    }

    /// One turn of one of the hosts. A host that waits in it leaves the other waiting; any other
    /// turn may end what a host waits for.
    fn turn_and_see(
        &mut self,
        alloc: Global,
        side: Side,
        waits: WhoWaits,
    ) -> Result<WhoWaits, NoMemory>
        requires can { CanTurn self.old }
        requires waits { WaitsChangeNothing (both_of self.old) waits }
        ensures both { OnOk result (both_of self.new ≡ turn_of (both_of self.old) side) }
        ensures can { OnOk result (CanTurn self.new) }
        ensures waits { IfOk result (λ waits. WaitsChangeNothing (both_of self.new) waits) }
    {
        self.turn(alloc, side)?;
        match side {
            Side::A if has_waited(&self.first) => Ok(WhoWaits {
                first: true,
                ..waits
            }),
            Side::B if has_waited(&self.second) => Ok(WhoWaits {
                second: true,
                ..waits
            }),
            _ => Ok(NOBODY),
        }
    }

    /// The first host.
    pub fn first(&self) -> &Walker
        ensures { result.now ≡ self.now.first }
    {
        &self.first
    }

    /// The second host.
    pub fn second(&self) -> &Walker
        ensures { result.now ≡ self.now.second }
    {
        &self.second
    }
}

/// Whether a host has begun and makes no access any more.
fn has_stopped(walker: &Walker) -> bool
    ensures { result ≡ has_stopped walker.now }
{
    walker.has_begun() && walker.has_ended()
}

/// Whether a host waited in its last turn.
fn has_waited(walker: &Walker) -> bool
    ensures { IsTrue result ↔ (walker.now.last ≡ Waiting) }
{
    walker.last() == Turn::Waiting
}
