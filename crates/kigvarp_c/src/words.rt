//! What characters and bytes say, for C.
ghost use Rattle.library_calls.specs.Readings.{RunReads};
ghost use Rattle.library_calls.specs.Words.{SymbolWrites, SymbolReads, PacketWrites, PacketReads};
ghost use Rattle.kigvarp_c.specs.Calls.{AnswersNumber};

use library_calls::{
    EventTold, PacketHeader, PacketTold, ReadingTold, SymbolTold, call_number, decode, read_packet,
    read_symbol, write_packet, write_symbol,
};

/// Reads at most 4,194,304 characters, and writes the events that they say into the room, as many
/// as it has places for.
#[unsafe(no_mangle)]
pub extern "C" fn kigvarp_decode(
    numbers: &[u16],
    room: &mut [EventTold],
    did: &mut ReadingTold,
) -> u32
    ensures { AnswersNumber (RunReads numbers.now room.old room.new did.new) result }
{
    call_number(decode(numbers, room, did))
}

/// Writes the four characters of a symbol.
#[unsafe(no_mangle)]
pub extern "C" fn kigvarp_symbol_write(symbol: &SymbolTold, room: &mut [u16]) -> u32
    ensures { AnswersNumber (SymbolWrites symbol.now room.old room.new) result }
{
    call_number(write_symbol(symbol, room))
}

/// Tells the symbol that four characters say.
#[unsafe(no_mangle)]
pub extern "C" fn kigvarp_symbol_read(numbers: &[u16], symbol: &mut SymbolTold) -> u32
    ensures { AnswersNumber (SymbolReads numbers.now symbol.old symbol.new) result }
{
    call_number(read_symbol(numbers, symbol))
}

/// Writes the bytes of the packet that has these fields, these bytes behind them, and this ackID.
/// There is to be room for 276.
#[unsafe(no_mangle)]
pub extern "C" fn kigvarp_packet_write(
    header: &PacketHeader,
    ack: u8,
    rest: &[u8],
    room: &mut [u8],
    count: &mut usize,
) -> u32
    ensures { AnswersNumber (PacketWrites header.now ack rest.now room.old room.new count.new)
        result }
{
    call_number(write_packet(header, ack, rest, room, count))
}

/// Tells the ackID and the fields of the packet that bytes carry.
#[unsafe(no_mangle)]
pub extern "C" fn kigvarp_packet_read(bytes: &[u8], packet: &mut PacketTold) -> u32
    ensures { AnswersNumber (PacketReads bytes.now packet.old packet.new) result }
{
    call_number(read_packet(bytes, packet))
}
