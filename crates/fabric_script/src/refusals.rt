//! Why a line is refused whose words all say something.

ghost use Rattle.std.specs.Prelude.{◌≡◌, ◌≤◌, true, false, length, MatchOption};
ghost use Rattle.fabric_script.specs.declared.reasons.Reason.{Reason as AReason};
ghost use Rattle.fabric_script.specs.Reasons.{reason_number};
ghost use Rattle.fabric_script.specs.Refusals.{refuses, is_outside, is_bad_length, entry_is_outside, port_is_taken, id_is_taken, length_is_bad, kind_is_wrong, out_of_place, not_linked, too_much_work, makes_node};

use crate::known::{Known, Mode};
use crate::lines::Line;
use crate::links::MOST_NODES;
use crate::ports::same_port;
use crate::reasons::Reason;
use rio_packets::max_rest;

/// The most that the events of a script may cost.
const MOST_COST: u64 = 100_000;

/// A port of a table, or a device ID, that is none.
const NONE: u8 = 255;

/// A 16-bit device ID that is none.
const LARGE_NONE: u16 = 65_535;

/// The format type of maintenance packets.
const MAINTENANCE: u8 = 8;

/// The least reason that hits a line whose words all say something.
pub(crate) fn refusal(known: &Known, line: &Line) -> Option<Reason>
    requires { length known.now.links ≤ 33554432 }
    ensures { MatchOption result
        ((reason : AReason) → refuses known.now reason line.now ≡ false)
        (λ reason. (refuses known.now reason line.now ≡ true)
        × ((other : AReason) → refuses known.now other line.now ≡ true
        → reason_number reason ≤ reason_number other)) }
{
    if entry_is_outside(known, line) {
        return Some(Reason::PortOutside);
    }
    if port_is_taken(known, line) {
        return Some(Reason::PortTaken);
    }
    if id_is_taken(known, line) {
        return Some(Reason::IdTaken);
    }
    if length_is_bad(line) {
        return Some(Reason::BadLength);
    }
    if kind_is_wrong(known, line) {
        return Some(Reason::WrongKind);
    }
    if out_of_place(known, line) {
        return Some(Reason::OutOfPlace);
    }
    if not_linked(known, line) {
        return Some(Reason::NotLinked);
    }
    if too_much_work(known, line) {
        return Some(Reason::TooMuchWork);
    }
    None
}

/// Whether a line may not stand where it does.
fn out_of_place(known: &Known, line: &Line) -> bool
    ensures { result ≡ out_of_place known.now line.now }
{
    match known.mode() {
        Mode::Script => known.begun() && !line.is_event(),
        Mode::SetUp => line.is_event(),
        Mode::Event => !line.is_event(),
    }
}

/// Whether the port of a table is none of the switch.
fn entry_is_outside(known: &Known, line: &Line) -> bool
    ensures { result ≡ entry_is_outside known.now line.now }
{
    match line {
        Line::Route { node, p, .. } | Line::Default { node, p } => is_outside(known, *node, *p),
        _ => false,
    }
}

/// Whether a port is neither 255 nor one of the node.
fn is_outside(known: &Known, node: u8, p: u8) -> bool
    ensures { result ≡ is_outside known.now node p }
{
    p != NONE && known.ports_of(node) <= p
}

/// Whether a port has a link already, or both are one.
fn port_is_taken(known: &Known, line: &Line) -> bool
    ensures { result ≡ port_is_taken known.now line.now }
{
    match line {
        Line::Link { a, b } => { same_port(*a, *b) || known.is_linked(*a) || known.is_linked(*b) }
        _ => false,
    }
}

/// Whether an endpoint has the device ID already, or another one the 16-bit device ID.
fn id_is_taken(known: &Known, line: &Line) -> bool
    ensures { result ≡ id_is_taken known.now line.now }
{
    match line {
        Line::Endpoint { id, .. } => *id != NONE && known.has_id(*id),
        Line::Large { node, id } => *id != LARGE_NONE && known.has_large_id(*node, *id),
        _ => false,
    }
}

/// Whether data has a length that it may not have.
fn length_is_bad(line: &Line) -> bool
    ensures { result ≡ length_is_bad line.now }
{
    match line {
        Line::Send { ftype, hex, .. } => is_bad_length(false, *ftype, hex.as_slice().len()),
        Line::Send16 { ftype, hex, .. } => is_bad_length(true, *ftype, hex.as_slice().len()),
        _ => false,
    }
}

/// Whether data of a format type may not have so many bytes, with 16-bit device IDs or with 8-bit
/// IDs.
fn is_bad_length(large: bool, ftype: u8, count: usize) -> bool
    ensures { result ≡ is_bad_length large ftype count }
{
    count % 2 != 0
        || count > max_rest(large)
        || ftype == MAINTENANCE && !(6 <= count && count <= 70 && count % 8 == 6)
}

/// Whether the node is not of the kind that the line wants.
fn kind_is_wrong(known: &Known, line: &Line) -> bool
    ensures { result ≡ kind_is_wrong known.now line.now }
{
    match line {
        Line::Route { node, .. } | Line::Default { node, .. } | Line::Move { node } => {
            !known.is_switch(*node)
        }
        Line::Large { node, .. }
        | Line::Send { node, .. }
        | Line::Read { node, .. }
        | Line::Write { node, .. }
        | Line::Send16 { node, .. }
        | Line::Read16 { node, .. }
        | Line::Write16 { node, .. }
        | Line::Collect { node } => known.is_switch(*node),
        _ => false,
    }
}

/// Whether the port has no link where one is wanted.
fn not_linked(known: &Known, line: &Line) -> bool
    ensures { result ≡ not_linked known.now line.now }
{
    match line {
        Line::Pump { port, .. }
        | Line::Deliver { port, .. }
        | Line::Alter { port, .. }
        | Line::Insert { port, .. }
        | Line::Erase { port, .. }
        | Line::Timeout { port }
        | Line::Settle { port } => !known.is_linked(*port),
        _ => false,
    }
}

/// Whether there are too many nodes, or the events cost too much.
fn too_much_work(known: &Known, line: &Line) -> bool
    requires { length known.now.links ≤ 33554432 }
    ensures { result ≡ too_much_work known.now line.now }
{
    known.mode() != Mode::Event
        && (makes_node(line) && known.count() >= MOST_NODES
            || u64::from(known.cost()) + known.cost_of(line) > MOST_COST)
}

/// Whether the line makes a node.
fn makes_node(line: &Line) -> bool
    ensures { result ≡ makes_node line.now }
{
    matches!(line, Line::Endpoint { .. } | Line::Switch { .. })
}
