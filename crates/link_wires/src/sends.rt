//! What is sent, put behind the events that are kept, and its characters behind others.
ghost use Rattle.std.specs.Prelude.{◌≡◌, ◌<◌, ◌++◌, ◌∷◌, [], Some, length, slice_index, OnOk};
ghost use Rattle.link_model.specs.ReadingSpelt.{data_chars, symbol_chars_of, bytes_with_ack};
ghost use Rattle.link_model.specs.declared.event.Event.TheVariants.{Ctl, Pkt};
ghost use Rattle.link_port.specs.Bursts.{burst_between, sending_burst, IsSending};

use crate::kept::Kept;
use link_port::{Port, Sending};
use rio_chars::{Char, NoMemory};
use rio_framer::symbol_chars;
use rio_packets::Packet;
use rio_symbols::Symbol;

/// What a port sends, of which the port lends the packet.
pub(crate) fn put_sending(
    sending: Sending,
    port: &Port,
    kept: &mut Kept,
    chars: &mut Vec<Char>,
) -> Result<(), NoMemory>
    requires { IsSending sending }
    ensures kept { OnOk result (kept.new
        ≡ kept.old ++ (sending_burst sending port.now.queued).sent) }
    ensures chars { OnOk result (chars.new.items
        ≡ chars.old.items ++ (sending_burst sending port.now.queued).chars) }
{
    match sending {
        Sending::Nothing => Ok(()),
        Sending::Symbol(symbol) => put_symbol(symbol, kept, chars),
        Sending::Packet {
            start,
            ack,
            prio,
            place,
            end,
        } => match port.queued_at(prio, place) {
            Some(packet) => put_between(start, ack, packet, end, kept, chars),
            None => Ok(()),
        },
    }
}

/// A packet with its ackID, between its two symbols.
fn put_between(
    start: Symbol,
    ack: u8,
    packet: &Packet,
    end: Symbol,
    kept: &mut Kept,
    chars: &mut Vec<Char>,
) -> Result<(), NoMemory>
    requires { ack < 32 }
    ensures kept { OnOk result (kept.new
        ≡ kept.old ++ (burst_between start ack (Some packet.now) end).sent) }
    ensures chars { OnOk result (chars.new.items
        ≡ chars.old.items ++ (burst_between start ack (Some packet.now) end).chars) }
{
    put_symbol(start, kept, chars)?;
    put_packet(ack, packet, kept, chars)?;
    put_symbol(end, kept, chars)?;
    Ok(())
}

/// A symbol.
pub(crate) fn put_symbol(
    symbol: Symbol,
    kept: &mut Kept,
    chars: &mut Vec<Char>,
) -> Result<(), NoMemory>
    ensures kept { OnOk result (kept.new ≡ kept.old ++ Ctl symbol ∷ []) }
    ensures chars { OnOk result (chars.new.items ≡ chars.old.items ++ symbol_chars_of symbol) }
{
    kept.put_symbol(symbol)?;
    chars.extend_from_slice(symbol_chars(&symbol).as_slice())?;
    Ok(())
}

/// A packet with its ackID.
fn put_packet(
    ack: u8,
    packet: &Packet,
    kept: &mut Kept,
    chars: &mut Vec<Char>,
) -> Result<(), NoMemory>
    requires { ack < 32 }
    ensures kept { OnOk result (kept.new ≡ kept.old ++ Pkt ack packet.now ∷ []) }
    ensures chars { OnOk result (chars.new.items
        ≡ chars.old.items ++ data_chars (bytes_with_ack ack packet.now)) }
{
    kept.put_packet(ack, packet)?;
    let bytes = packet.bytes();
    let begin = chars.len();
    chars.resize(begin + bytes.len(), Char::Invalid)?;
    write_packet(&mut chars.as_mut_slice()[begin..], ack, bytes);
    Ok(())
}

/// Writes the bytes of a packet with its ackID as data characters.
fn write_packet(room: &mut [Char], ack: u8, bytes: &[u8])
    requires ack { ack < 32 }
    requires some { 0 < length bytes.now }
    requires first { slice_index bytes.now 0 < 8 }
    requires room { length room.old ≡ length bytes.now }
    ensures { room.new ≡ data_chars (bytes_with_ack ack bytes.now) }
{
    write_data(room, bytes);
    room[0] = Char::Data(8 * ack + bytes[0]);
}

/// Writes bytes as data characters, of which many are made at once.
fn write_data(room: &mut [Char], bytes: &[u8])
    requires { length room.old ≡ length bytes.now }
    ensures { room.new ≡ data_chars bytes.now }
{
    for (i, byte) in bytes.iter().enumerate() {
        room[i] = Char::Data(*byte);
    }
}
