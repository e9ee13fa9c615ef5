//! A large script from a number.

ghost use Rattle.std.specs.Prelude.{◌≡◌, ◌<◌, ◌≤◌, ◌+◌, ◌*◌, ◌++◌, ◌∷◌, [], ℕ, List, length, map, IfOk};
ghost use Rattle.fabric_script.specs.Soak.{soak_names as names_of_soak, soak_set_up, soak_lines, next_number as number_behind, numbers_behind, value_of_number, soak_step_lines, round_lines, round_behind, steps_from, times, numbered_from};
ghost use Rattle.fabric_script.specs.Scripts.{ScriptPasses};
ghost use Rattle.fabric_script.specs.declared.lines.Line.{Line as ALine};
ghost use Rattle.fabric_script.specs.declared.lines.Line.TheVariants.{Link as ALink, Route as ARoute, Collect as ACollect};
ghost use Rattle.fabric_script.specs.Ports.{port_at as port_at_node};

use crate::hex::Hex;
use crate::lines::{Line, Numbered, Script};
use crate::names::Name;
use crate::ports::PortRef;
use rio_chars::NoMemory;
use std::alloc::{AllocError, Global};

/// How many packets are sent.
const STEPS: u32 = 2_000;

/// How many rounds stand at the end.
const LAST_ROUNDS: u32 = 16;

/// One more than the greatest number of the generator.
const MODULUS: u32 = 2_147_483_648;

/// The script that a number stands for: four endpoints behind two switches send 2,000 packets, and
/// about every third time the first character of a packet is lost. It passes, as each script that
/// `parse` answers does.
pub fn soak_script(alloc: Global, seed: u32) -> Result<Script, NoMemory>
    ensures names { IfOk result (λ script. script.names.items ≡ names_of_soak) }
    ensures lines { IfOk result (λ script. script.lines.items ≡ soak_lines seed) }
    ensures passes { IfOk result (λ script. ScriptPasses script.names.items script.lines.items) }
{
    let names = soak_names(alloc)?;
    let mut lines = Vec::new(alloc);
    push_set_up(&mut lines)?;
    push_steps(alloc, &mut lines, seed % MODULUS)?;
    for _ in 0..LAST_ROUNDS {
        push_round(&mut lines, 8)?;
    }
    Ok(Script { names, lines })
}

/// The names of the nodes.
fn soak_names(alloc: Global) -> Result<Vec<Name>, AllocError>
    ensures { IfOk result (λ names. names.items ≡ names_of_soak) }
{
    let mut names = Vec::new(alloc);
    names.push(Name::of_word(b"E0"))?;
    names.push(Name::of_word(b"E1"))?;
    names.push(Name::of_word(b"E2"))?;
    names.push(Name::of_word(b"E3"))?;
    names.push(Name::of_word(b"S"))?;
    names.push(Name::of_word(b"T"))?;
    Ok(names)
}

/// Adds a line with the next number.
fn push_line(lines: &mut Vec<Numbered>, line: Line) -> Result<(), AllocError>
    requires { length lines.old.items < 1000000 }
    ensures numbered { IfOk result (λ _. (before : List ALine)
        → lines.old.items ≡ numbered_from 1 before
        → lines.new.items ≡ numbered_from 1 (before ++ line ∷ [])) }
    ensures count { IfOk result (λ _. length lines.new.items ≡ length lines.old.items + 1) }
{
    let number = lines.len() as u32 + 1;
    lines.push(Numbered { number, line })?;
    Ok(())
}

/// A port of a node.
fn port_at(node: u8, port: u8) -> PortRef
    ensures { result ≡ port_at_node node port }
{
    PortRef { node, port }
}

/// Adds the lines that set the fabric up to no lines.
fn push_set_up(lines: &mut Vec<Numbered>) -> Result<(), AllocError>
    requires { lines.old.items ≡ [] }
    ensures numbered { IfOk result (λ _. lines.new.items ≡ numbered_from 1 soak_set_up) }
    ensures count { IfOk result (λ _. length lines.new.items ≡ 19) }
{
    for line in set_up() {
        push_line(lines, line)?;
    }
    Ok(())
}

/// The lines that set the fabric up.
fn set_up() -> [Line; 19]
    ensures { result ≡ soak_set_up }
{
    [
        Line::Endpoint { name: 0, id: 0 },
        Line::Endpoint { name: 1, id: 1 },
        Line::Endpoint { name: 2, id: 2 },
        Line::Endpoint { name: 3, id: 3 },
        Line::Switch { name: 4, ports: 4 },
        Line::Switch { name: 5, ports: 4 },
        link(port_at(0, 0), port_at(4, 0)),
        link(port_at(1, 0), port_at(4, 1)),
        link(port_at(4, 2), port_at(5, 2)),
        link(port_at(2, 0), port_at(5, 0)),
        link(port_at(3, 0), port_at(5, 1)),
        route(4, 0, 0),
        route(4, 1, 1),
        route(4, 2, 2),
        route(4, 3, 2),
        route(5, 2, 0),
        route(5, 3, 1),
        route(5, 0, 2),
        route(5, 1, 2),
    ]
}

/// The line of a link.
fn link(a: PortRef, b: PortRef) -> Line
    ensures { result ≡ ALink a b }
{
    Line::Link { a, b }
}

/// The line of a table's entry.
fn route(node: u8, id: u16, p: u8) -> Line
    ensures { result ≡ ARoute node id p }
{
    Line::Route { node, id, p }
}

/// Adds the steps of the numbers behind this one, and a round behind each tenth.
fn push_steps(alloc: Global, lines: &mut Vec<Numbered>, seed: u32) -> Result<(), AllocError>
    requires few { length lines.old.items < 1000 }
    requires small { seed < 2147483648 }
    ensures numbered { IfOk result (λ _. (before : List ALine)
        → lines.old.items ≡ numbered_from 1 before
        → lines.new.items ≡ numbered_from 1
        (before ++ steps_from 1 (map value_of_number (numbers_behind 2000 seed)))) }
    ensures count { IfOk result (λ _. length lines.new.items ≤ length lines.old.items + 40000) }
{
    let mut number = seed;
    for step in 0..STEPS {
        number = next_number(number);
        push_step(alloc, lines, number / 65_536)?;
        push_round_behind(lines, step + 1)?;
    }
    Ok(())
}

/// The number of the generator behind this one.
fn next_number(number: u32) -> u32
    requires { number < 2147483648 }
    ensures next { result ≡ number_behind number }
    ensures small { result < 2147483648 }
{
    ((1_103_515_245 * u64::from(number) + 12_345) % u64::from(MODULUS)) as u32
}

/// Adds the lines of one step.
fn push_step(alloc: Global, lines: &mut Vec<Numbered>, value: u32) -> Result<(), AllocError>
    requires few { length lines.old.items < 900000 }
    requires small { value < 32768 }
    ensures numbered { IfOk result (λ _. (before : List ALine)
        → lines.old.items ≡ numbered_from 1 before
        → lines.new.items ≡ numbered_from 1 (before ++ soak_step_lines value)) }
    ensures count { IfOk result (λ _. length lines.new.items ≤ length lines.old.items + 3) }
{
    let mut bytes = Vec::new(alloc);
    bytes.push((value / 256) as u8)?;
    bytes.push((value % 256) as u8)?;
    let node = (value % 4) as u8;
    let send = Line::Send {
        node,
        prio: (value / 16 % 4) as u8,
        ftype: 15,
        dest: (value / 4 % 4) as u8,
        hex: Hex::new(bytes),
    };
    push_line(lines, send)?;
    push_line(
        lines,
        Line::Pump {
            port: port_at(node, 0),
            n: 1,
        },
    )?;
    if value / 64 % 3 == 0 {
        let port = port_at(node, 0);
        push_line(
            lines,
            Line::Erase {
                port,
                place: 0,
                n: 1,
            },
        )?;
    }
    Ok(())
}

/// Adds a round if the step of this number is a tenth.
fn push_round_behind(lines: &mut Vec<Numbered>, number: u32) -> Result<(), AllocError>
    requires few { length lines.old.items < 900000 }
    ensures numbered { IfOk result (λ _. (before : List ALine)
        → lines.old.items ≡ numbered_from 1 before
        → lines.new.items ≡ numbered_from 1 (before ++ round_behind number)) }
    ensures count { IfOk result (λ _. length lines.new.items ≤ length lines.old.items + 17) }
{
    if number % 10 == 0 {
        return push_round(lines, 4);
    }
    Ok(())
}

/// Adds a round, in which each endpoint collects so often.
fn push_round(lines: &mut Vec<Numbered>, count: u32) -> Result<(), AllocError>
    requires few { length lines.old.items < 900000 }
    requires small { count ≤ 8 }
    ensures numbered { IfOk result (λ _. (before : List ALine)
        → lines.old.items ≡ numbered_from 1 before
        → lines.new.items ≡ numbered_from 1 (before ++ round_lines count)) }
    ensures count { IfOk result (λ _.
        length lines.new.items ≡ length lines.old.items + 4 * count + 1) }
{
    push_line(lines, Line::Run { n: 1 })?;
    push_collects(lines, 0, count)?;
    push_collects(lines, 1, count)?;
    push_collects(lines, 2, count)?;
    push_collects(lines, 3, count)
}

/// Adds so many lines in which a node collects.
fn push_collects(lines: &mut Vec<Numbered>, node: u8, count: u32) -> Result<(), AllocError>
    requires few { length lines.old.items < 950000 }
    requires small { count ≤ 8 }
    ensures numbered { IfOk result (λ _. (before : List ALine)
        → lines.old.items ≡ numbered_from 1 before
        → lines.new.items ≡ numbered_from 1 (before ++ times count (ACollect node))) }
    ensures count { IfOk result (λ _. length lines.new.items ≡ length lines.old.items + count) }
{
    for _ in 0..count {
        push_line(lines, Line::Collect { node })?;
    }
    Ok(())
}
