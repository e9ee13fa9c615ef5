//! `contest`: two hosts number one fabric during the same time, over its links.
ghost use Rattle.std.specs.Prelude.{◌≡◌, ◌≢◌, ◌≤◌, ◌⊎◌, length, IfOk};
ghost use Rattle.std.specs.Io.KnownBytes.{Keeps};
ghost use Rattle.fabric_contest.specs.Contests.{contest_of};
ghost use Rattle.fabric_contest.specs.ContestTexts.{contest_text};
ghost use Rattle.host_enumerate.specs.Devised.{IsHost, devices_of, links_of};
ghost use Rattle.fabric_script.specs.Scripts.{ScriptPasses};
ghost use Rattle.rio_cli.specs.Answers.{Answers, RefusesBytes, SaysOfBytes};
ghost use Rattle.rio_cli.specs.Contesting.{FindsHosts};
ghost use Rattle.rio_cli.specs.Inputs.{most_input};
ghost use Rattle.rio_cli.specs.declared.command.Command.TheVariants.{Contest};

use crate::answer::CommandAnswer;
use crate::command::Command;
use crate::status::Status;
use crate::top::refuse_line;
use fabric_contest::{ContestEnd, write_contest};
use fabric_script::{Name, Script, ScriptEnd, parse_set_up};
use host_enumerate::find_host;
use rio_chars::{NoMemory, Sink};
use script_input::count_lines;
use std::alloc::Global;

/// The reason for which the line after the last is refused if both hosts are one node.
const SAME_HOST: u8 = 16;

/// Lets the nodes of two names contest the fabric of the set-up lines that the bytes spell.
pub(crate) fn contest_bytes<K: Sink>(
    alloc: Global,
    first: Name,
    second: Name,
    seed: u32,
    bytes: &[u8],
    sink: &mut K,
) -> CommandAnswer
    requires { length bytes.now ≤ most_input }
    ensures says { SaysOfBytes (Contest first second seed) result.status bytes.now
        (K.written sink.old) (K.faults sink.old) (K.written sink.new) (K.faults sink.new) }
    ensures refuses { RefusesBytes (Contest first second seed) result bytes.now
        (K.written sink.old) (K.written sink.new) }
    ensures sink { K.faults sink.old ≤ K.faults sink.new }
    ensures writes { result.status ≢ Status.WriteFault → K.faults sink.new ≡ K.faults sink.old }
{
    let script = match parse_set_up(alloc, bytes) {
        Ok(script) => script,
        Err(ScriptEnd::Refused(refusal)) => {
            let command = Command::Contest {
                first,
                second,
                seed,
            };
            return refuse_line(alloc, command, bytes, refusal.line, refusal.reason, sink);
        }
        Err(ScriptEnd::NoMemory) => return CommandAnswer::ended(Status::NoMemory),
    };
    match find_hosts(alloc, &script, first.as_slice(), second.as_slice()) {
        Ok(Ok(hosts)) => CommandAnswer::ended(contest(alloc, &script, hosts, seed, sink)),
        Ok(Err(reason)) => {
            let command = Command::Contest {
                first,
                second,
                seed,
            };
            refuse_line(alloc, command, bytes, count_lines(bytes) + 1, reason, sink)
        }
        Err(NoMemory) => CommandAnswer::ended(Status::NoMemory),
    }
}

/// The nodes of two names, if they can be two hosts of the fabric of a script, or the reason for
/// which they cannot.
fn find_hosts(
    alloc: Global,
    script: &Script,
    first: &[u8],
    second: &[u8],
) -> Result<Result<(u8, u8), u8>, NoMemory>
    requires passes { ScriptPasses script.now.names.items script.now.lines.items }
    ensures { IfOk result (FindsHosts script.now.names.items script.now.lines.items
        first.now second.now) }
{
    let one = match find_host(alloc, script, first)? {
        Ok(host) => host,
        Err(end) => return Ok(Err(end.reason().number())),
    };
    match find_host(alloc, script, second)? {
        Ok(other) if other == one => Ok(Err(SAME_HOST)),
        Ok(other) => Ok(Ok((one, other))),
        Err(end) => Ok(Err(end.reason().number())),
    }
}

/// Lets two hosts contest the fabric of a script, and writes what became of them.
fn contest<K: Sink>(
    alloc: Global,
    script: &Script,
    hosts: (u8, u8),
    seed: u32,
    sink: &mut K,
) -> Status
    requires passes { ScriptPasses script.now.names.items script.now.lines.items }
    requires first { IsHost (devices_of script.now.lines.items) (links_of script.now.lines.items)
        hosts.0 }
    requires second { IsHost (devices_of script.now.lines.items) (links_of script.now.lines.items)
        hosts.1 }
    requires differ { hosts.0 ≢ hosts.1 }
    ensures answers { Answers result Status.Done (contest_text script.now.names.items hosts.0
        hosts.1 (contest_of script.now.lines.items hosts.0 hosts.1 seed))
        (K.written sink.old) (K.faults sink.old) (K.written sink.new) (K.faults sink.new)
        ⊎ ((result ≡ Status.NoMemory) × Keeps (K.written sink.old) (K.written sink.new)) }
    ensures sink { K.faults sink.old ≤ K.faults sink.new }
    ensures writes { result ≢ Status.WriteFault → K.faults sink.new ≡ K.faults sink.old }
{
    match write_contest(alloc, script, hosts.0, hosts.1, seed, sink) {
        Ok(()) => Status::Done,
        Err(ContestEnd::WriteFault) => Status::WriteFault,
        Err(ContestEnd::NoMemory) => Status::NoMemory,
    }
}
