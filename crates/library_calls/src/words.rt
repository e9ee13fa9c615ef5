//! Symbols and packets by themselves: from their fields to characters and bytes, and back.
ghost use Rattle.std.specs.Prelude.{◌≡◌, MatchOption};
ghost use Rattle.rio_symbols.specs.Fields.{InRange};
ghost use Rattle.library_calls.specs.Headers.{HeaderFits, fields_of_header};
ghost use Rattle.library_calls.specs.Words.{symbol_of_told, SymbolWrites, SymbolReads, PacketWrites, PacketReads, id_or_zero as id_or_zero_of};

use crate::readings::symbol_told;
use crate::rooms::put_bytes;
use crate::status::CallStatus;
use crate::told::{PacketHeader, PacketTold, SymbolTold};
use crate::wires::{put_wires, wire_char};
use rio_framer::{Framer, Told, symbol_chars};
use rio_packets::{Header, build, check};
use rio_symbols::Symbol;

/// The characters of a symbol.
const SYMBOL: usize = 4;

/// The most bytes of a packet.
pub(crate) const PACKET: usize = 276;

/// Writes the four characters of a symbol into a room. If a field is out of range, or there is too
/// little room, nothing is done.
pub fn write_symbol(told: &SymbolTold, room: &mut [u16]) -> CallStatus
    ensures { SymbolWrites told.now room.old room.new result }
{
    if room.len() < SYMBOL {
        return CallStatus::Argument;
    }
    let Some(symbol) = symbol_of(told) else {
        return CallStatus::Argument;
    };
    put_wires(symbol_chars(&symbol).as_slice(), room);
    CallStatus::Done
}

/// Tells the symbol that four characters say, if they say one, and nothing else.
pub fn read_symbol(numbers: &[u16], told: &mut SymbolTold) -> CallStatus
    ensures { SymbolReads numbers.now told.old told.new result }
{
    let [a, b, c, d] = numbers else {
        return CallStatus::Bad;
    };
    let chars = [wire_char(*a), wire_char(*b), wire_char(*c), wire_char(*d)];
    let (count, read) = Framer::new().read_run(&chars);
    let Told::Ctl(symbol) = read else {
        return CallStatus::Bad;
    };
    if count != SYMBOL {
        return CallStatus::Bad;
    }
    *told = symbol_told(&symbol);
    CallStatus::Done
}

/// Writes the bytes of the packet that has these fields, these bytes behind them, and this ackID,
/// into a room of at least 276 bytes, and tells their number. If a field or the length is out of
/// range, or there is too little room, nothing is done.
pub fn write_packet(
    header: &PacketHeader,
    ack: u8,
    rest: &[u8],
    room: &mut [u8],
    count: &mut usize,
) -> CallStatus
    ensures { PacketWrites header.now ack rest.now room.old room.new count.new result }
{
    *count = 0;
    if ack >= 32 || room.len() < PACKET {
        return CallStatus::Argument;
    }
    let Some(header) = header_of(header) else {
        return CallStatus::Argument;
    };
    let Ok(packet) = build(&header, rest) else {
        return CallStatus::Argument;
    };
    *count = put_bytes(packet.with_ack(ack).as_slice(), room);
    CallStatus::Done
}

/// Tells the ackID and the fields of the packet that bytes carry, if they carry one.
pub fn read_packet(bytes: &[u8], told: &mut PacketTold) -> CallStatus
    ensures { PacketReads bytes.now told.old told.new result }
{
    let Ok((ack, packet)) = check(bytes) else {
        return CallStatus::Bad;
    };
    *told = PacketTold {
        ack,
        prio: packet.prio(),
        tt: packet.tt(),
        ftype: packet.ftype(),
        source: id_or_zero(packet.source()),
        dest: id_or_zero(packet.dest()),
    };
    CallStatus::Done
}

/// The symbol of these fields, if each has its width.
fn symbol_of(told: &SymbolTold) -> Option<Symbol>
    ensures { MatchOption result (¬ InRange (symbol_of_told told.now))
        (λ symbol. InRange (symbol_of_told told.now) × (symbol ≡ symbol_of_told told.now)) }
{
    if told.stype0 >= 8 || told.parameter0 >= 32 || told.parameter1 >= 32 {
        return None;
    }
    if told.stype1 >= 8 || told.cmd >= 8 {
        return None;
    }
    Some(Symbol {
        s0: told.stype0,
        p0: told.parameter0,
        p1: told.parameter1,
        s1: told.stype1,
        cmd: told.cmd,
    })
}

/// The fields of a packet, if each has its width.
pub(crate) fn header_of(header: &PacketHeader) -> Option<Header>
    ensures { MatchOption result (¬ HeaderFits header.now)
        (λ made. HeaderFits header.now × (made ≡ fields_of_header header.now)) }
{
    let large = header.large != 0;
    if header.prio >= 4 || header.ftype >= 16 {
        return None;
    }
    if !large && (header.source >= 256 || header.dest >= 256) {
        return None;
    }
    Some(Header {
        prio: header.prio,
        ftype: header.ftype,
        dest: header.dest,
        source: header.source,
        large,
    })
}

/// An ID, or 0 if there is none.
fn id_or_zero(id: Option<u16>) -> u16
    ensures { result ≡ id_or_zero_of id }
{
    match id {
        Some(id) => id,
        None => 0,
    }
}
