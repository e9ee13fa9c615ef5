//! `write_contest`: the lines of a contest.
ghost use Rattle.std.specs.Prelude.{◌≡◌, ◌≢◌, ◌≤◌, ◌<◌, ◌++◌, codes, false, true, length, OnOk, IsErrOf};
ghost use Rattle.std.specs.Io.KnownBytes.{Appends, Keeps};
ghost use Rattle.rio_chars.specs.Faults.{Rose};
ghost use Rattle.rio_chars.specs.Fronts.{AppendsFront};
ghost use Rattle.rio_chars.specs.Written.{Writes};
ghost use Rattle.fabric_script.specs.Scripts.{ScriptPasses};
ghost use Rattle.host_enumerate.specs.Devised.{IsHost, devices_of, links_of};
ghost use Rattle.host_contest.specs.Machines.{has_ended, machine_is_done};
ghost use Rattle.host_contest.specs.Walkers.{HasEntries};
ghost use Rattle.fabric_contest.specs.Contests.{both_of, contest_of, CanTurn};
ghost use Rattle.fabric_contest.specs.ContestTexts.{TextIsTold, word_by, host_line, map_if, contest_text};
ghost use Rattle.fabric_contest.specs.declared.lines.ContestEnd.TheVariants as Ends;

use crate::contest::Contest;
use fabric_script::{Name, Script};
use host_contest::Walker;
use host_enumerate::write_map;
use rio_chars::{NoMemory, Outbox, Sink, TextBuffer};
use std::alloc::Global;

/// Why a contest was not written.
#[derive(Debug, Drop)]
pub enum ContestEnd {
    /// A write failed, behind a front of the lines.
    WriteFault,
    /// Memory was wanted and not given. Nothing was written.
    NoMemory,
}

impl From<NoMemory> for ContestEnd {
    ghost from_gives = { λ _ end. end ≡ Ends.NoMemory };

    fn from(_: NoMemory) -> Self {
        ContestEnd::NoMemory
    }
}

/// Lets two hosts of a script that passes contest its fabric, by the turns of a number, and writes
/// a line `host NODE WORD` for each, the first one's first; then the lines of the map of each that
/// is done; then `end`.
pub fn write_contest<K: Sink>(
    alloc: Global,
    script: &Script,
    first: u8,
    second: u8,
    seed: u32,
    sink: &mut K,
) -> Result<(), ContestEnd>
    requires passes { ScriptPasses script.now.names.items script.now.lines.items }
    requires first { IsHost (devices_of script.now.lines.items) (links_of script.now.lines.items)
        first }
    requires second { IsHost (devices_of script.now.lines.items) (links_of script.now.lines.items)
        second }
    requires differ { first ≢ second }
    ensures written { OnOk result (Appends (K.written sink.old) (K.written sink.new)
        (contest_text script.now.names.items first second
        (contest_of script.now.lines.items first second seed))) }
    ensures fault { IsErrOf result Ends.WriteFault → Rose (K.faults sink.old) (K.faults sink.new)
        × AppendsFront (K.written sink.old) (K.written sink.new)
        (contest_text script.now.names.items first second
        (contest_of script.now.lines.items first second seed)) }
    ensures no_memory { IsErrOf result Ends.NoMemory
        → Keeps (K.written sink.old) (K.written sink.new) }
    ensures counts { ¬ IsErrOf result Ends.WriteFault → K.faults sink.new ≡ K.faults sink.old }
    ensures never_falls { K.faults sink.old ≤ K.faults sink.new }
{
    let mut contest = Contest::new(alloc, script, first, second)?;
    contest.turns_by(alloc, seed)?;
    let mut buffer = TextBuffer::new(alloc)?;
    let names = script.names.as_slice();
    if tell_contest(&mut buffer, names, first, second, &contest, sink) {
        return Err(ContestEnd::WriteFault);
    }
    Ok(())
}

/// Writes the lines of a contest whose hosts have these nodes. Answers whether a write has failed.
fn tell_contest<K: Sink>(
    buffer: &mut TextBuffer,
    names: &[Name],
    first: u8,
    second: u8,
    contest: &Contest,
    sink: &mut K,
) -> bool
    requires can { CanTurn contest.now }
    requires first { first < length names.now }
    requires second { second < length names.now }
    ensures { TextIsTold result (K.written sink.old) (K.faults sink.old) (K.written sink.new)
        (K.faults sink.new) (contest_text names.now first second (both_of contest.now)) }
{
    let mut outbox = Outbox::new(buffer, sink);
    tell_host(&mut outbox, names, first, &contest.first);
    tell_host(&mut outbox, names, second, &contest.second);
    tell_map(&mut outbox, &contest.first);
    tell_map(&mut outbox, &contest.second);
    outbox.write(b"end\n");
    outbox.flush();
    let failed = outbox.failed();
    outbox.into_sink();
    failed
}

/// Tells the line of a host, which is this node.
fn tell_host<K: Sink>(outbox: &mut Outbox<K>, names: &[Name], node: u8, walker: &Walker)
    requires { node < length names.now }
    ensures { Writes outbox.old outbox.new (host_line names.now node
        (machine_is_done walker.now.machine) (has_ended walker.now.machine)) }
{
    outbox.write(b"host ");
    outbox.write(names[usize::from(node)].as_slice());
    outbox.write(b" ");
    tell_word(outbox, walker);
    outbox.write(b"\n");
}

/// Tells what became of a host.
fn tell_word<K: Sink>(outbox: &mut Outbox<K>, walker: &Walker)
    ensures { Writes outbox.old outbox.new
        (word_by (machine_is_done walker.now.machine) (has_ended walker.now.machine)) }
{
    if walker.is_done() {
        outbox.write(b"done");
    } else if walker.has_ended() {
        outbox.write(b"lost");
    } else {
        outbox.write(b"going");
    }
}

/// Tells the lines of the map of a host that is done.
fn tell_map<K: Sink>(outbox: &mut Outbox<K>, walker: &Walker)
    requires { HasEntries walker.now }
    ensures { Writes outbox.old outbox.new
        (map_if (machine_is_done walker.now.machine) walker.now.machine.map.devices.items) }
{
    if let Some(map) = walker.map() {
        write_map(outbox, map);
    }
}
