//! What a script changes on the wires.
ghost use Rattle.std.specs.Prelude.{◌≡◌, ℕ, List, Some, OnOk, IfErr};
ghost use Rattle.fabric_model.specs.Network.{Network};
ghost use Rattle.fabric_script.specs.Operations.{line_editing};
ghost use Rattle.fabric_trace.specs.Fold.{edited_by, seen};
ghost use Rattle.fabric_trace.specs.Known.{Seen};
ghost use Rattle.trace_lines.specs.Lines.{TraceLine};
ghost use Rattle.fabric_ports.specs.Acting.{edit_acted};
ghost use Rattle.fabric_ports.specs.Ends.{PortIsLinked};
ghost use Rattle.fabric_ports.specs.Events.{Did};
ghost use Rattle.fabric_ports.specs.Ran.{Blocks};
ghost use Rattle.fabric_ports.specs.Standing.{Stands};
ghost use Rattle.fabric_ports.specs.declared.answers.FabricEnd.TheVariants.{NoMemory};

use crate::actions::{Acted, write_lack};
use crate::answers::FabricEnd;
use crate::fabric::Fabric;
use fabric_script::PortRef;
use link_wires::Edited;
use rio_chars::{Edit, Sink};
use std::alloc::Global;
use trace_lines::TraceWriter;

impl Fabric {
    /// Changes the characters of a port's wire, if it has so many. Nothing is written where memory
    /// is wanting.
    pub(crate) fn edit<K: Sink>(
        &mut self,
        alloc: Global,
        port: PortRef,
        edit: &Edit,
        writer: &mut TraceWriter<K>,
    ) -> Result<(), FabricEnd>
        requires { PortIsLinked self.old port }
        ensures done { OnOk result ((from : Seen) (lines : List TraceLine)
            → Stands from lines self.old
            → Did (Blocks (line_editing port edit.now) (seen from lines)) writer.old writer.new
            (edited_by (seen from lines) (Some (port, edit.now))) self.new) }
        ensures ended { IfErr result (λ end. (end ≡ NoMemory) × (writer.new ≡ writer.old)) }
    {
        let place = self.link_of(port);
        let cable = &mut self.cables[place.cable];
        self.idle.wake_link(place.cable, cable.a.node, cable.b.node);
        match cable.link.edit(alloc, place.side, edit) {
            Ok(edited) => {
                write_lack(writer, as_acted(edited));
                Ok(())
            }
            Err(_) => Err(FabricEnd::NoMemory),
        }
    }
}

/// The answer of an edit, as that of an action.
fn as_acted(edited: Edited) -> Acted
    ensures { result ≡ edit_acted edited }
{
    match edited {
        Edited::Done => Acted::Done,
        Edited::Short => Acted::Short,
    }
}
