//! Runs of characters.
ghost use Rattle.std.specs.Prelude.{◌≡◌, ◌≤◌, ◌+◌, ◌*◌, length};
ghost use Rattle.link_port.specs.Steps.{takes};
ghost use Rattle.link_port.specs.Streams.{takes_each};
ghost use Rattle.library_calls.specs.Wires.{wire_char as wire_char_of, wire_chars};
ghost use Rattle.library_calls.specs.Rooms.{laid_at};
ghost use Rattle.library_calls.specs.Chars.{reply_wires, AddsChar, TellsRun};

use crate::told::RunDid;
use crate::wires::{put_wires, wire_char};
use link_port::Port;
use port_lines::{Came, take_char};
use rio_framer::symbol_chars;
use rio_symbols::Symbol;

/// Leads characters through a port, and writes the answers into a room.
pub(crate) fn take_run(
    port: &mut Port,
    numbers: &[u16],
    room: &mut [u16],
    came: &mut Came,
) -> RunDid
    requires few { length numbers.now ≤ 65536 }
    requires room { 4 * length numbers.now ≤ length room.old }
    ensures port { port.new ≡ (takes_each port.old (wire_chars numbers.now)).port }
    ensures did { TellsRun (takes_each port.old (wire_chars numbers.now)) result
        room.old room.new }
{
    let mut did = RunDid {
        held: 0,
        freed: 0,
        sent: 0,
    };
    let mut left = numbers;
    while let [first, rest @ ..] = left {
        add_char(port, *first, room, came, &mut did);
        left = rest;
    }
    did
}

/// Leads a character through a port, writes its answer behind those before it, and counts what it
/// did.
fn add_char(port: &mut Port, number: u16, room: &mut [u16], came: &mut Came, did: &mut RunDid)
    requires held { did.old.held + 1 ≤ 65536 }
    requires freed { did.old.freed + 31 ≤ 2031616 }
    requires sent { did.old.sent + 4 ≤ 262144 }
    requires room { did.old.sent + 4 ≤ length room.old }
    ensures port { port.new ≡ (takes port.old (wire_char_of number)).port }
    ensures adds { AddsChar (takes port.old (wire_char_of number)) did.old did.new
        room.old room.new }
{
    let done = take_char(port, wire_char(number), came);
    if done.held {
        did.held += 1;
    }
    did.freed += came.freed.len() as u32;
    did.sent = put_reply(&done.reply, room, did.sent as usize) as u32;
}

/// Writes the characters of an answer at a place of the room, if there is one, and answers the
/// place behind them.
pub(crate) fn put_reply(reply: &Option<Symbol>, room: &mut [u16], at: usize) -> usize
    requires { at + 4 ≤ length room.old }
    ensures behind { result ≡ at + length (reply_wires reply.now) }
    ensures room { room.new ≡ laid_at at (reply_wires reply.now) room.old }
    ensures short { length (reply_wires reply.now) ≤ 4 }
{
    match reply {
        Some(symbol) => at + put_wires(symbol_chars(symbol).as_slice(), &mut room[at..]),
        None => at,
    }
}
