//! What the links do in a round of an ask.
ghost use Rattle.std.specs.Prelude.{◌≡◌, ◌≤◌, ◌<◌, List, length, Ok, Err};
ghost use Rattle.rio_chars.specs.declared.chars.Char.{Char};
ghost use Rattle.link_wires.specs.Wires.{fits, edit_answered};
ghost use Rattle.fabric_trace.specs.Fold.{seen};
ghost use Rattle.fabric_trace.specs.Known.{Seen};
ghost use Rattle.trace_lines.specs.Lines.{TraceLine};
ghost use Rattle.trace_lines.specs.Writing.{Adds};
ghost use Rattle.fabric_ask.specs.Noise.{edit_lines, is_idle};
ghost use Rattle.fabric_ports.specs.Carrying.{AreLinked, LeftBy, BothTurn, Stirs, Edits, BothStir, LinkCarries, LinksCarry};
ghost use Rattle.fabric_ports.specs.Ends.{PortIsLinked};
ghost use Rattle.fabric_ports.specs.Ran.{FabricRan, end_with};
ghost use Rattle.fabric_ports.specs.Standing.{Stands, StandsForLines};

use crate::answers::FabricEnd;
use crate::fabric::Fabric;
use crate::noise::Noise;
use fabric_script::{Action, Line, PortRef};
use link_wires::Edited;
use rio_chars::{Edit, Sink};
use std::alloc::Global;
use trace_lines::TraceWriter;

impl Fabric {
    /// Every link carries what it can, in the order of the links. One that has nothing to do is
    /// passed by: most are.
    pub(crate) fn carry_all<N: Noise, K: Sink>(
        &mut self,
        alloc: Global,
        noise: &mut N,
        writer: &mut TraceWriter<K>,
    ) -> Result<(), FabricEnd>
        requires stands { StandsForLines self.old }
        requires named { length self.old.devices.items ≤ length writer.old.names.now }
        ensures { FabricRan (LeftBy result (LinksCarry (N.edits noise.old)) (N.edits noise.new))
            self.old writer.old writer.new (end_with self.new result) }
    {
        for place in 0..self.cables.len() {
            if self.is_still(place) {
                continue;
            }
            let cable = &self.cables[place];
            let (a, b) = (cable.a, cable.b);
            self.carry(alloc, (a, b), noise, writer)?;
        }
        Ok(())
    }

    /// Both ports of a link take a turn, each wire that has characters gets the next edit, and the
    /// link settles.
    fn carry<N: Noise, K: Sink>(
        &mut self,
        alloc: Global,
        ends: (PortRef, PortRef),
        noise: &mut N,
        writer: &mut TraceWriter<K>,
    ) -> Result<(), FabricEnd>
        requires linked { AreLinked self.old ends }
        requires named { length self.old.devices.items ≤ length writer.old.names.now }
        ensures { FabricRan
            (LeftBy result (LinkCarries ends (N.edits noise.old)) (N.edits noise.new))
            self.old writer.old writer.new (end_with self.new result) }
    {
        self.turn_both(alloc, ends, writer)?;
        self.stir_both(alloc, ends, noise, writer)?;
        self.settle_link(alloc, ends.0, writer)
    }

    /// Both ports of a link take a turn to send.
    fn turn_both<K: Sink>(
        &mut self,
        alloc: Global,
        ends: (PortRef, PortRef),
        writer: &mut TraceWriter<K>,
    ) -> Result<(), FabricEnd>
        requires linked { AreLinked self.old ends }
        requires named { length self.old.devices.items ≤ length writer.old.names.now }
        ensures { FabricRan (BothTurn ends)
            self.old writer.old writer.new (end_with self.new result) }
    {
        self.act(alloc, ends.0, Action::Pump(1), writer)?;
        self.act(alloc, ends.1, Action::Pump(1), writer)
    }

    /// Both wires of a link get the next edit, that of its first port first.
    fn stir_both<N: Noise, K: Sink>(
        &mut self,
        alloc: Global,
        ends: (PortRef, PortRef),
        noise: &mut N,
        writer: &mut TraceWriter<K>,
    ) -> Result<(), FabricEnd>
        requires linked { AreLinked self.old ends }
        requires named { length self.old.devices.items ≤ length writer.old.names.now }
        ensures { FabricRan (LeftBy result (BothStir ends (N.edits noise.old)) (N.edits noise.new))
            self.old writer.old writer.new (end_with self.new result) }
    {
        self.stir(alloc, ends.0, noise, writer)?;
        self.stir(alloc, ends.1, noise, writer)
    }

    /// The wire of a port gets the next edit, if the wire has characters and an edit is left.
    fn stir<N: Noise, K: Sink>(
        &mut self,
        alloc: Global,
        port: PortRef,
        noise: &mut N,
        writer: &mut TraceWriter<K>,
    ) -> Result<(), FabricEnd>
        requires linked { PortIsLinked self.old port }
        requires named { length self.old.devices.items ≤ length writer.old.names.now }
        ensures { FabricRan (LeftBy result (Stirs port (N.edits noise.old)) (N.edits noise.new))
            self.old writer.old writer.new (end_with self.new result) }
    {
        let length = self.length(port);
        if length == 0 {
            return Ok(());
        }
        match noise.next(length) {
            Some(edit) => self.edit_aloud(alloc, port, &edit, writer),
            None => Ok(()),
        }
    }

    /// The number of characters on the wire of a port.
    fn length(&self, port: PortRef) -> usize
        requires { PortIsLinked self.now port }
        ensures { (from : Seen) (lines : List TraceLine) → Stands from lines self.now
            → result ≡ length ((seen from lines).wires port).chars }
    {
        let place = self.link_of(port);
        self.cables[place.cable].link.length(place.side)
    }

    /// Changes the characters of a port's wire, if it has so many. The line of the edit is written
    /// if the edit does something.
    fn edit_aloud<K: Sink>(
        &mut self,
        alloc: Global,
        port: PortRef,
        edit: &Edit,
        writer: &mut TraceWriter<K>,
    ) -> Result<(), FabricEnd>
        requires linked { PortIsLinked self.old port }
        requires named { length self.old.devices.items ≤ length writer.old.names.now }
        ensures { FabricRan (Edits port edit.now)
            self.old writer.old writer.new (end_with self.new result) }
    {
        let place = self.link_of(port);
        let cable = &mut self.cables[place.cable];
        self.idle.wake_link(place.cable, cable.a.node, cable.b.node);
        match cable.link.edit(alloc, place.side, edit) {
            Ok(edited) => {
                write_edit(writer, port, edit, edited);
                Ok(())
            }
            Err(_) => Err(FabricEnd::NoMemory),
        }
    }
}

/// Writes the line of an edit of a port's wire, if it was done and did something.
fn write_edit<K: Sink>(writer: &mut TraceWriter<K>, port: PortRef, edit: &Edit, edited: Edited)
    requires { port.node < length writer.old.names.now }
    ensures { (chars : List Char) → edited ≡ edit_answered (fits edit.now chars)
        → Adds writer.old writer.new (edit_lines port edit.now chars) }
{
    match edited {
        Edited::Done => {
            if !is_idle(edit) {
                writer.write_begun(&Line::editing(port, edit));
            }
        }
        Edited::Short => {}
    }
}

/// Whether an edit changes nothing: no character is erased.
fn is_idle(edit: &Edit) -> bool
    ensures { result ≡ is_idle edit.now }
{
    match edit {
        Edit::Erase { count, .. } => *count == 0,
        Edit::Alter { .. } | Edit::Insert { .. } => false,
    }
}
