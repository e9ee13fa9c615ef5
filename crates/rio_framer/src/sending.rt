//! What is sent.
ghost use Rattle.std.specs.Prelude.{◌≡◌, ◌+◌, ◌<◌, ◌≤◌, ◌++◌, length};
ghost use Rattle.arrayvec.specs.ArrayVec.{array_vec_len};
ghost use Rattle.rio_symbols.specs.declared.stype1.TheConstants.{START_OF_PACKET, END_OF_PACKET};
ghost use Rattle.link_model.specs.ReadingSpelt.{delimiter_char, data_chars, symbol_chars_of, packet_chars_of};

use arrayvec::ArrayVec;
use rio_chars::Char;
use rio_packets::Packet;
use rio_symbols::{Delimiter, Symbol, delimiter, to_bytes};

/// The delimiter and the three bytes of a symbol
/// (RapidIO Interconnect Specification 1.3, Part 6, control symbol delimiting).
pub fn symbol_chars(symbol: &Symbol) -> ArrayVec<Char, 4>
    ensures { result.items ≡ symbol_chars_of symbol.now }
{
    let bytes = to_bytes(symbol);
    let mut chars = ArrayVec::new();
    chars.push(special(delimiter(symbol)));
    chars.push(Char::Data(bytes[0]));
    chars.push(Char::Data(bytes[1]));
    chars.push(Char::Data(bytes[2]));
    chars
}

/// A start-of-packet symbol, the bytes of a packet with its ackID, below 32, and an end-of-packet
/// symbol (RapidIO Interconnect Specification 1.3, Part 6, packet delimiting): 16 to 284
/// characters.
pub fn packet_chars(start: &Symbol, ack: u8, packet: &Packet, end: &Symbol) -> ArrayVec<Char, 284>
    requires ack { ack < 32 }
    requires start { start.now.s1 ≡ START_OF_PACKET }
    requires end { end.now.s1 ≡ END_OF_PACKET }
    ensures { result.items ≡ packet_chars_of start.now ack packet.now end.now }
{
    let mut chars = ArrayVec::new();
    push_chars(&mut chars, symbol_chars(start).as_slice());
    push_data(&mut chars, packet.with_ack(ack).as_slice());
    push_chars(&mut chars, symbol_chars(end).as_slice());
    chars
}

/// Appends characters, for which there is room.
fn push_chars(chars: &mut ArrayVec<Char, 284>, more: &[Char])
    requires { array_vec_len chars.old + length more.now ≤ 284 }
    ensures { chars.new.items ≡ chars.old.items ++ more.now }
{
    if chars.try_extend_from_slice(more).is_err() {
        unreachable!();
    }
}

/// Appends data characters, for which there is room.
fn push_data(chars: &mut ArrayVec<Char, 284>, bytes: &[u8])
    requires { array_vec_len chars.old + length bytes.now ≤ 284 }
    ensures { chars.new.items ≡ chars.old.items ++ data_chars bytes.now }
{
    for byte in bytes {
        chars.push(Char::Data(*byte));
    }
}

/// The special character of a delimiter.
fn special(delimiter: Delimiter) -> Char
    ensures { result ≡ delimiter_char delimiter }
{
    match delimiter {
        Delimiter::Sc => Char::Special(0x1c),
        Delimiter::Pd => Char::Special(0x7c),
    }
}
