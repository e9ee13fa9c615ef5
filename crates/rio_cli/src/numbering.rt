//! `enumerate`: a host numbers the fabric that set-up lines make, over its links.
ghost use Rattle.std.specs.Prelude.{◌≡◌, ◌≢◌, ◌≤◌, ◌++◌, [], codes, true, false, length, IsErrOf};
ghost use Rattle.fabric_script.specs.Scripts.{ScriptPasses};
ghost use Rattle.fabric_trace.specs.Runs.{start};
ghost use Rattle.fabric_ports.specs.Standing.{Stands};
ghost use Rattle.host_enumerate.specs.Devised.{IsHost, devices_of, links_of};
ghost use Rattle.host_enumerate.specs.MapTexts.{map_text, locked_text};
ghost use Rattle.host_enumerate.specs.declared.ends.EnumEnd.TheVariants as Ends;
ghost use Rattle.rio_chars.specs.Faults.{Rose};
ghost use Rattle.rio_cli.specs.Answers.{Answers};
ghost use Rattle.fabric_maint.specs.Going.{names_of, MaintIsSame};
ghost use Rattle.rio_cli.specs.Numbering.{IsNewHost, Maps, SaysOfHost};

use crate::status::Status;
use fabric_maint::FabricMaint;
use fabric_map::Map;
use fabric_ports::{Fabric, Quiet};
use fabric_script::Script;
use host_enumerate::{EnumEnd, enumerate, write_locked, write_map};
use rio_chars::{Outbox, Sink, TextBuffer};
use std::alloc::Global;

/// Lets a host number the fabric of a script, and writes the lines of its asks, then the map and
/// `end`; or the line `locked PATH ID` of the first device that it meets and another host holds.
pub(crate) fn number<K: Sink>(alloc: Global, script: &Script, host: u8, sink: &mut K) -> Status
    requires passes { ScriptPasses script.now.names.items script.now.lines.items }
    requires host { IsHost (devices_of script.now.lines.items) (links_of script.now.lines.items)
        host }
    ensures says { SaysOfHost script.now.names.items script.now.lines.items host result
        (K.written sink.old) (K.faults sink.old) (K.written sink.new) (K.faults sink.new) }
    ensures sink { K.faults sink.old ≤ K.faults sink.new }
    ensures writes { result ≢ Status.WriteFault → K.faults sink.new ≡ K.faults sink.old }
{
    let Ok(mut fabric) = Fabric::new(alloc, script) else {
        return Status::NoMemory;
    };
    let Ok(mut buffer) = TextBuffer::new(alloc) else {
        return Status::NoMemory;
    };
    match ask_devices(alloc, &mut fabric, script, host, sink) {
        Ok(map) => tell_map(&mut buffer, &map, sink),
        Err(EnumEnd::LockedBy { path, id }) => tell_lock(&mut buffer, path.as_slice(), id, sink),
        Err(EnumEnd::Undetected { .. }) => Status::Undetected,
        Err(EnumEnd::WriteFault) => Status::WriteFault,
        Err(EnumEnd::NoMemory) => Status::NoMemory,
    }
}

/// Lets the host of a new fabric number it by asks over its links, and writes their lines.
fn ask_devices<K: Sink>(
    alloc: Global,
    fabric: &mut Fabric,
    script: &Script,
    host: u8,
    sink: &mut K,
) -> Result<Map, EnumEnd>
    requires passes { ScriptPasses script.now.names.items script.now.lines.items }
    requires host { IsHost (devices_of script.now.lines.items) (links_of script.now.lines.items)
        host }
    requires stands { Stands (start script.now.lines.items) [] fabric.old }
    requires named { length fabric.old.devices.items ≡ length script.now.names.items }
    ensures maps { Maps script.now.names.items script.now.lines.items host
        (K.written sink.old) (K.written sink.new) result }
    ensures rose { IsErrOf result Ends.WriteFault → Rose (K.faults sink.old) (K.faults sink.new) }
    ensures counts { ¬ IsErrOf result Ends.WriteFault → K.faults sink.new ≡ K.faults sink.old }
    ensures never_falls { K.faults sink.old ≤ K.faults sink.new }
{
    let mut noise = Quiet;
    let mut maint = FabricMaint::new(fabric, script, host, &mut noise, sink);
    number_by(alloc, &mut maint)
}

/// Numbers the new fabric of a host, which keeps what it was lent.
fn number_by<K: Sink>(alloc: Global, maint: &mut FabricMaint<Quiet, K>) -> Result<Map, EnumEnd>
    requires { IsNewHost K.written K.faults maint.old }
    ensures same { MaintIsSame maint.old maint.new }
    ensures maps { Maps (names_of maint.old) maint.old.script.now.lines.items maint.old.host
        (K.written maint.old.sink.now) (K.written maint.new.sink.now) result }
    ensures rose { IsErrOf result Ends.WriteFault
        → Rose (K.faults maint.old.sink.now) (K.faults maint.new.sink.now) }
    ensures counts { ¬ IsErrOf result Ends.WriteFault
        → K.faults maint.new.sink.now ≡ K.faults maint.old.sink.now }
    ensures never_falls { K.faults maint.old.sink.now ≤ K.faults maint.new.sink.now }
{
    enumerate(alloc, maint)
}

/// Writes the lines of a map, and `end`.
fn tell_map<K: Sink>(buffer: &mut TextBuffer, map: &Map, sink: &mut K) -> Status
    ensures answers { Answers result Status.Done
        (map_text map.now.devices.items map.now.entries.items ++ codes "end\n")
        (K.written sink.old) (K.faults sink.old) (K.written sink.new) (K.faults sink.new) }
    ensures sink { K.faults sink.old ≤ K.faults sink.new }
    ensures writes { result ≢ Status.WriteFault → K.faults sink.new ≡ K.faults sink.old }
{
    let mut outbox = Outbox::new(buffer, sink);
    write_map(&mut outbox, map);
    outbox.write(b"end\n");
    outbox.flush();
    let status = status_of(&outbox, Status::Done);
    outbox.into_sink();
    status
}

/// Writes the line of the device on a path, whose lock is the ID of another host.
fn tell_lock<K: Sink>(buffer: &mut TextBuffer, path: &[u8], id: u16, sink: &mut K) -> Status
    ensures answers { Answers result Status.Locked (locked_text path.now id)
        (K.written sink.old) (K.faults sink.old) (K.written sink.new) (K.faults sink.new) }
    ensures sink { K.faults sink.old ≤ K.faults sink.new }
    ensures writes { result ≢ Status.WriteFault → K.faults sink.new ≡ K.faults sink.old }
{
    let mut outbox = Outbox::new(buffer, sink);
    write_locked(&mut outbox, path, id);
    outbox.flush();
    let status = status_of(&outbox, Status::Locked);
    outbox.into_sink();
    status
}

/// This status, or WriteFault if a write has failed.
fn status_of<K: Sink>(outbox: &Outbox<K>, status: Status) -> Status
    ensures fine { outbox.now.failed ≡ false → result ≡ status }
    ensures failed { outbox.now.failed ≡ true → result ≡ Status.WriteFault }
{
    if outbox.failed() {
        Status::WriteFault
    } else {
        status
    }
}
