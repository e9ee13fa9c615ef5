//! A script from its bytes.
ghost use Rattle.std.specs.Prelude.{◌≡◌, ◌+◌, ◌≤◌, ◌⊎◌, ℕ, All, Err, List, length, IfOk, IsErrOf, IsOk};
ghost use Rattle.fabric_script.specs.declared.lines.Numbered.{Numbered as NumberedLine};
ghost use Rattle.fabric_script.specs.declared.scripts.ScriptEnd.TheVariants.{NoMemory};
ghost use Rattle.fabric_script.specs.Known.{Known};
ghost use Rattle.fabric_script.specs.Scripts.{ScriptPasses};
ghost use Rattle.fabric_script.specs.SetUps.{NoEvents};
ghost use Rattle.script_input.specs.Inputs.{texts_of};
ghost use Rattle.io_script.specs.declared.lines.NumberedIo.{NumberedIo as ANumberedIo};
ghost use Rattle.io_script.specs.IoLines.{IsNamed};
ghost use Rattle.io_script.specs.IoReading.{nothing_earlier};
ghost use Rattle.io_script.specs.IoScripts.{AreHitFrom, IsIoRefused, IsIoScript, SpellIoFrom};
ghost use Rattle.io_script.specs.IoTaking.{links_among, switches_of, IsFabric};

use crate::lines::{IoScript, NumberedIo};
use crate::reading::{Earlier, read_io_line};
use crate::words::Fabric;
use fabric_script::{Line, Numbered, Refusal, Script, ScriptEnd, is_skipped, parse_set_up};
use script_input::{next_line, split_input, unparted};
use std::alloc::{AllocError, Global};

/// The script that the bytes spell, of at most 16,777,216 bytes: set-up lines, a line `---`, and
/// lines that give memory, ask for reads and writes and let rounds pass. An empty line and one that
/// begins with `#` are skipped and counted. Refused names the first line that any reason hits,
/// counted from the first of all, and the least reason that hits it; it is 15, at the line after
/// the last, if no reason hits a set-up line and there is no line `---`.
pub fn parse_io(alloc: Global, bytes: &[u8]) -> Result<IoScript, ScriptEnd>
    requires { length bytes.now ≤ 16777216 }
    // What is answered is spelled so, and what is refused is refused so.
    ensures script { IfOk result (λ io. IsIoScript bytes.now io.script.names.items
        io.script.lines.items io.lines.items) }
    ensures passes { IfOk result (λ io. ScriptPasses io.script.names.items io.script.lines.items) }
    ensures no_events { IfOk result (λ io. NoEvents io.script.lines.items) }
    ensures named { IfOk result (λ io.
        All (λ line. IsNamed io.script.names.items line.io) io.lines.items) }
    ensures refused { (refusal : _) → IsErrOf result (ScriptEnd.Refused refusal)
        → IsIoRefused bytes.now refusal.line refusal.reason }
    // What is spelled so is answered and what is refused so is refused, unless memory runs out.
    ensures only { (names : List (List ℕ)) (set_up : List NumberedLine) (lines : List ANumberedIo)
        → IsIoScript bytes.now names set_up lines
        → IfOk result (λ io. (io.script.names.items ≡ names)
        × (io.script.lines.items ≡ set_up) × (io.lines.items ≡ lines))
        × (IsErrOf result NoMemory ⊎ IsOk result) }
    ensures refusal_only { (line reason : ℕ) → IsIoRefused bytes.now line reason
        → IsErrOf result (ScriptEnd.Refused record { line = line; reason = reason })
        ⊎ IsErrOf result NoMemory }
{
    let (set_up, behind, count) = split_input(bytes);
    let script = parse_set_up(alloc, set_up)?;
    match behind {
        Some(behind) => {
            let lines = read_io_lines(alloc, &script, behind, count + 2)?;
            Ok(IoScript { script, lines })
        }
        None => Err(ScriptEnd::Refused(unparted(count))),
    }
}

/// The lines behind the set-up lines, of which the first has this number.
fn read_io_lines(
    alloc: Global,
    script: &Script,
    bytes: &[u8],
    first: u32,
) -> Result<Vec<NumberedIo>, ScriptEnd>
    requires known { (known : Known) × IsFabric known script.now.names.items
        (switches_of script.now.lines.items) (links_among script.now.lines.items) }
    requires few { first + length bytes.now ≤ 16777218 }
    ensures lines { IfOk result (λ lines. (known : Known)
        → IsFabric known script.now.names.items (switches_of script.now.lines.items)
        (links_among script.now.lines.items)
        → SpellIoFrom first known nothing_earlier (texts_of bytes.now) lines.items) }
    ensures refused { (refusal : _) → IsErrOf result (ScriptEnd.Refused refusal)
        → (known : Known) → IsFabric known script.now.names.items
        (switches_of script.now.lines.items) (links_among script.now.lines.items)
        → AreHitFrom first known nothing_earlier (texts_of bytes.now) refusal.line refusal.reason }
{
    let switches = switches_of(alloc, script.lines.as_slice())?;
    let fabric = Fabric {
        names: script.names.as_slice(),
        switches: switches.as_slice(),
        links: count_links(script.lines.as_slice()) as u32,
    };
    read_behind(alloc, fabric, bytes, first)
}

/// The lines behind the set-up lines of a fabric, of which the first has this number.
fn read_behind(
    alloc: Global,
    fabric: Fabric<'_>,
    bytes: &[u8],
    first: u32,
) -> Result<Vec<NumberedIo>, ScriptEnd>
    requires known { (known : Known)
        × IsFabric known fabric.names.now fabric.switches.now fabric.links }
    requires few { first + length bytes.now ≤ 16777218 }
    ensures lines { IfOk result (λ lines. (known : Known)
        → IsFabric known fabric.entry.names.now fabric.entry.switches.now fabric.entry.links
        → SpellIoFrom first known nothing_earlier (texts_of bytes.now) lines.items) }
    ensures refused { (refusal : _) → IsErrOf result (ScriptEnd.Refused refusal)
        → (known : Known)
        → IsFabric known fabric.entry.names.now fabric.entry.switches.now fabric.entry.links
        → AreHitFrom first known nothing_earlier (texts_of bytes.now) refusal.line refusal.reason }
{
    let mut lines = Vec::new(alloc);
    let mut earlier = Earlier::new();
    let mut number = first;
    let mut left = bytes;
    while let Some((text, behind)) = next_line(left) {
        if !is_skipped(text) {
            match read_io_line(alloc, fabric, earlier, text)? {
                Ok(io) => {
                    earlier = earlier.with(fabric, io.form());
                    lines.push(NumberedIo { line: number, io })?;
                }
                Err(reason) => return refused_at(number, reason.number()),
            }
        }
        left = behind;
        number += 1;
    }
    Ok(lines)
}

/// A line is refused.
fn refused_at(line: u32, reason: u8) -> Result<Vec<NumberedIo>, ScriptEnd>
    ensures { result ≡ Err (ScriptEnd.Refused (record { line = line; reason = reason })) }
{
    Err(ScriptEnd::Refused(Refusal { line, reason }))
}

/// Whether each node is a switch, in the order of their lines.
fn switches_of(alloc: Global, lines: &[Numbered]) -> Result<Vec<bool>, AllocError>
    ensures { IfOk result (λ switches. switches.items ≡ switches_of lines.now) }
{
    let mut switches = Vec::new(alloc);
    for line in lines {
        match line.line {
            Line::Endpoint { .. } => switches.push(false)?,
            Line::Switch { .. } => switches.push(true)?,
            _ => {}
        }
    }
    Ok(switches)
}

/// How many links there are.
fn count_links(lines: &[Numbered]) -> usize
    ensures { result ≡ links_among lines.now }
{
    let mut links = 0;
    for line in lines {
        if let Line::Link { .. } = line.line {
            links += 1;
        }
    }
    links
}
