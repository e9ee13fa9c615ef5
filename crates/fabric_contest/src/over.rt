//! A turn of a host, whose accesses go over the links of a fabric.
ghost use Rattle.std.specs.Prelude.{◌≡◌, length, [], OnOk};
ghost use Rattle.fabric_map.specs.Plain.{registers_of};
ghost use Rattle.contest_machine.specs.Turns.{walker_turned, came_of};
ghost use Rattle.fabric_maint.specs.Going.{topology_in, registers_in, StandsFor, StandsWhole, MaintIsSame};
ghost use Rattle.host_contest.specs.Reaching.{CanReachOn};
ghost use Rattle.host_contest.specs.Steps.{state_in, CanStep};
ghost use Rattle.host_contest.specs.Walkers.{machine_in, HasEntries, going_after};
ghost use Rattle.fabric_contest.specs.Contests.{view_of};

use fabric_maint::FabricMaint;
use fabric_ports::{Fabric, Quiet};
use fabric_script::Script;
use host_contest::Walker;
use host_enumerate::MaintEnd;
use rio_chars::{NoMemory, PlainSink};
use std::alloc::Global;

/// The ID of a host of a fabric that rests.
pub(crate) fn id_of(fabric: &mut Fabric, script: &Script, host: u8) -> u8
    requires stands { StandsFor script.now.names.items script.now.lines.items host fabric.old }
    ensures id { result ≡ (registers_of fabric.old.devices.items host).base_id }
    ensures same { fabric.new ≡ fabric.old }
{
    let mut noise = Quiet;
    let mut sink = PlainSink::new();
    let maint = FabricMaint::resting(fabric, script, host, &mut noise, &mut sink);
    maint.host_id()
}

/// One turn of the walker of a host, over a fabric that rests.
pub(crate) fn turn_over(
    alloc: Global,
    fabric: &mut Fabric,
    script: &Script,
    host: u8,
    walker: &mut Walker,
) -> Result<(), NoMemory>
    requires stands { StandsFor script.now.names.items script.now.lines.items host fabric.old }
    requires can { CanStep (view_of script.now.lines.items host)
        (registers_of fabric.old.devices.items) walker.old.machine }
    requires reach { CanReachOn (machine_in (view_of script.now.lines.items host) walker.old)
        (registers_of fabric.old.devices.items) }
    ensures stands { OnOk result (StandsFor script.now.names.items script.now.lines.items host
        fabric.new) }
    ensures turned { OnOk result (state_in (view_of script.now.lines.items host)
        (registers_of fabric.new.devices.items) walker.new.machine
        ≡ walker_turned (machine_in (view_of script.now.lines.items host) walker.old)
        (registers_of fabric.old.devices.items)) }
    ensures can { OnOk result (CanStep (view_of script.now.lines.items host)
        (registers_of fabric.new.devices.items) walker.new.machine) }
    ensures last { OnOk result (walker.new.last
        ≡ came_of (machine_in (view_of script.now.lines.items host) walker.old)
        (machine_in (view_of script.now.lines.items host) walker.new)) }
    ensures entries { OnOk result (HasEntries walker.new) }
    ensures going { OnOk result (walker.new.going ≡ going_after walker.old.going walker.new.last) }
{
    let mut noise = Quiet;
    let mut sink = PlainSink::new();
    let mut maint = FabricMaint::resting(fabric, script, host, &mut noise, &mut sink);
    make_turn(alloc, walker, &mut maint)
}

/// One turn of a walker whose accesses are carried. No edit is made and no write fails, so only
/// memory can be wanting.
fn make_turn(
    alloc: Global,
    walker: &mut Walker,
    maint: &mut FabricMaint<Quiet, PlainSink>,
) -> Result<(), NoMemory>
    requires whole { StandsWhole maint.old }
    requires can { CanStep (topology_in maint.old) (registers_in maint.old) walker.old.machine }
    requires reach { CanReachOn (machine_in (topology_in maint.old) walker.old)
        (registers_in maint.old) }
    ensures same { MaintIsSame maint.old maint.new }
    ensures whole { OnOk result (StandsWhole maint.new) }
    ensures turned { OnOk result (state_in (topology_in maint.old) (registers_in maint.new)
        walker.new.machine ≡ walker_turned (machine_in (topology_in maint.old) walker.old)
        (registers_in maint.old)) }
    ensures can { OnOk result (CanStep (topology_in maint.old) (registers_in maint.new)
        walker.new.machine) }
    ensures last { OnOk result (walker.new.last
        ≡ came_of (machine_in (topology_in maint.old) walker.old)
        (machine_in (topology_in maint.old) walker.new)) }
    ensures entries { OnOk result (HasEntries walker.new) }
    ensures going { OnOk result (walker.new.going ≡ going_after walker.old.going walker.new.last) }
{
    match walker.turn(alloc, maint) {
        Ok(_) => Ok(()),
        Err(MaintEnd::NoMemory) => Err(NoMemory),
        Err(MaintEnd::Undetected { .. }) => unreachable!(),
        Err(MaintEnd::WriteFault) => unreachable!(),
    }
}
