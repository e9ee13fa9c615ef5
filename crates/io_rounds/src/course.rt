//! `Course`: a fabric, and what is kept of its endpoints while a script is carried out.
ghost use Rattle.std.specs.Prelude.{◌≡◌, ◌⊎◌, ◌++◌, false, [], List, All, length, map, replicate, IfOk};
ghost use Rattle.maint_registers.specs.Devices.{is_switch};
ghost use Rattle.fabric_script.specs.Lines.{is_event};
ghost use Rattle.fabric_script.specs.Scripts.{ScriptPasses};
ghost use Rattle.fabric_script.specs.declared.lines.Numbered.{Numbered as NumberedLine};
ghost use Rattle.trace_lines.specs.Lines.{TraceLine};
ghost use Rattle.fabric_trace.specs.Runs.{start};
ghost use Rattle.io_rounds.specs.declared.stations.Station.{Station as StationModel};
ghost use Rattle.io_rounds.specs.Stations.{new_station};
ghost use Rattle.io_rounds.specs.Course.{CourseHolds, MayAct, EventActed, kinds_of};

use crate::stations::{Station, new_stations};
use fabric_ports::{Fabric, FabricEnd, Happened};
use fabric_script::{Line, Name, Numbered, Script};
use rio_chars::{NoMemory, Outbox, PlainSink};
use std::alloc::{AllocError, Global};
use trace_lines::{PacketCounts, TraceWriter};

/// A fabric, what is kept of each node, whether it is a switch, and where the text of the fabric's
/// trace goes, which is not kept.
#[derive(Drop)]
pub(crate) struct Course<'a> {
    pub(crate) fabric: Fabric,
    pub(crate) stations: Vec<Station>,
    pub(crate) switches: Vec<bool>,
    trace: Outbox<'a, PlainSink>,
}

impl<'a> Course<'a> {
    /// The fabric of a script, with nothing done yet.
    pub(crate) fn new(
        alloc: Global,
        script: &Script,
        trace: Outbox<'a, PlainSink>,
    ) -> Result<Course<'a>, NoMemory>
        requires passes { ScriptPasses script.now.names.items script.now.lines.items }
        requires sets_up { All (λ line. is_event line.line ≡ false) script.now.lines.items }
        ensures { IfOk result
            (λ course. CourseHolds script.now.names.items script.now.lines.items [] []
            (replicate (length script.now.names.items) new_station) course) }
    {
        let fabric = Fabric::new(alloc, script)?;
        let stations = new_stations(alloc, script.names.len())?;
        let switches = switches_of(alloc, &script.lines)?;
        Ok(Course {
            fabric,
            stations,
            switches,
            trace,
        })
    }

    /// Carries out an event, and answers what it did. Without edits every event of a link that is
    /// acted on was sent, so only memory can be wanting.
    pub(crate) fn act(
        &mut self,
        alloc: Global,
        names: &[Name],
        line: &Line,
    ) -> Result<Happened, NoMemory>
        requires { MayAct names.now self.old line.now }
        ensures { IfOk result (λ what. (script events : List NumberedLine) (trace : List TraceLine)
            (stations : List StationModel)
            → CourseHolds names.now script events trace stations self.old
            → EventActed names.now script events trace stations line.now what self.new) }
    {
        let mut writer = TraceWriter {
            outbox: &mut self.trace,
            names,
            counts: PacketCounts::new(),
        };
        match self.fabric.event(alloc, line, &mut writer) {
            Ok(what) => Ok(what),
            Err(end) => Err(want_of(end)),
        }
    }
}

/// What was wanting to an event that sent all that was acted on. The sink of the trace never fails.
fn want_of(end: FabricEnd) -> NoMemory
    requires { (end ≡ FabricEnd.Failed) ⊎ (end ≡ FabricEnd.NoMemory) }
{
    match end {
        FabricEnd::Failed | FabricEnd::NoMemory => NoMemory,
        FabricEnd::Undetected { .. } => unreachable!(),
    }
}

/// Whether each node is a switch, in the order of the nodes' lines.
fn switches_of(alloc: Global, lines: &[Numbered]) -> Result<Vec<bool>, AllocError>
    ensures { IfOk result (λ switches.
        switches.items ≡ map is_switch (start lines.now).network.registers) }
{
    let mut switches = Vec::new(alloc);
    for numbered in lines {
        push_kind(&mut switches, &numbered.line)?;
    }
    Ok(switches)
}

/// Adds whether a node is a switch, if the line makes one.
fn push_kind(switches: &mut Vec<bool>, line: &Line) -> Result<(), AllocError>
    ensures { IfOk result (λ _. switches.new.items ≡ switches.old.items ++ kinds_of line.now) }
{
    match line {
        Line::Endpoint { .. } => switches.push(false)?,
        Line::Switch { .. } => switches.push(true)?,
        _ => {}
    }
    Ok(())
}
