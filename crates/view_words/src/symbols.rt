//! Control symbols in words: those of `docs/symbols.md`.

use crate::text::Text;
use rio_packets::Cause;
use rio_symbols::{Symbol, cmd, stype0, stype1};

/// The parameter1 of a port that says nothing of its free buffers.
const UNTOLD: u8 = 31;

/// What a control symbol says.
pub fn put_symbol(out: &mut Text, symbol: &Symbol) {
    if symbol.s1 == stype1::NOP {
        if symbol.s0 == stype0::STATUS {
            out.put(b"status, ");
        }
    } else {
        put_receiver(out, symbol);
        out.put(if symbol.s0 == stype0::STATUS {
            b", "
        } else {
            b", and "
        });
    }
    put_sender(out, symbol);
}

/// The same, in short: what a symbol says only beside its name is left out.
pub fn put_brief_symbol(out: &mut Text, symbol: &Symbol) {
    if symbol.s0 == stype0::STATUS && symbol.s1 != stype1::NOP {
        put_receiver(out, symbol);
    } else {
        put_symbol(out, symbol);
    }
}

/// Whether a symbol only begins or ends a packet.
pub fn is_delimiter(symbol: &Symbol) -> bool {
    symbol.s0 == stype0::STATUS
        && (symbol.s1 == stype1::START_OF_PACKET || symbol.s1 == stype1::END_OF_PACKET)
}

/// What it tells the receiver of packets.
fn put_receiver(out: &mut Text, symbol: &Symbol) {
    out.put(stype1_name(symbol.s1));
    if symbol.s1 == stype1::LINK_REQUEST {
        out.put(b" ");
        put_named(out, command_name(symbol.cmd), symbol.cmd);
    }
}

/// What it tells the sender of packets.
fn put_sender(out: &mut Text, symbol: &Symbol) {
    match symbol.s0 {
        stype0::PACKET_ACCEPTED | stype0::PACKET_RETRY => {
            put_count(out, stype0_name(symbol.s0), symbol.p0);
            put_buffers(out, symbol.p1);
        }
        stype0::STATUS => {
            put_count(out, b"expects", symbol.p0);
            put_buffers(out, symbol.p1);
        }
        stype0::PACKET_NOT_ACCEPTED => put_answer(out, symbol, cause_name(symbol.p1)),
        stype0::LINK_RESPONSE => put_answer(out, symbol, status_name(symbol.p1)),
        _ => put_count(out, b"reserved stype0", symbol.s0),
    }
}

/// The name of a symbol, what its parameter1 says, and the ackID that is expected.
fn put_answer(out: &mut Text, symbol: &Symbol, word: Option<&'static [u8]>) {
    out.put(stype0_name(symbol.s0));
    out.put(b", ");
    put_named(out, word, symbol.p1);
    put_count(out, b", expects", symbol.p0);
}

/// A word and a number.
fn put_count(out: &mut Text, word: &[u8], number: u8) {
    out.put(word);
    out.put(b" ");
    out.put_number(u64::from(number));
}

/// How many buffers are free, if that is said.
fn put_buffers(out: &mut Text, number: u8) {
    if number != UNTOLD {
        put_count(out, b",", number);
        out.put(if number == 30 {
            b" or more free"
        } else {
            b" free"
        });
    }
}

/// A word, or the number of what is reserved.
fn put_named(out: &mut Text, word: Option<&'static [u8]>, number: u8) {
    match word {
        Some(word) => out.put(word),
        None => put_count(out, b"reserved", number),
    }
}

/// The name of a symbol by its stype0.
pub fn stype0_name(s0: u8) -> &'static [u8] {
    match s0 {
        stype0::PACKET_ACCEPTED => b"packet-accepted",
        stype0::PACKET_RETRY => b"packet-retry",
        stype0::PACKET_NOT_ACCEPTED => b"packet-not-accepted",
        stype0::STATUS => b"status",
        stype0::LINK_RESPONSE => b"link-response",
        _ => b"reserved",
    }
}

/// The name of a symbol by its stype1.
pub fn stype1_name(s1: u8) -> &'static [u8] {
    match s1 {
        stype1::START_OF_PACKET => b"start-of-packet",
        stype1::STOMP => b"stomp",
        stype1::END_OF_PACKET => b"end-of-packet",
        stype1::RESTART_FROM_RETRY => b"restart-from-retry",
        stype1::LINK_REQUEST => b"link-request",
        stype1::MULTICAST_EVENT => b"multicast-event",
        stype1::NOP => b"NOP",
        _ => b"reserved",
    }
}

/// What a link-request asks for.
fn command_name(command: u8) -> Option<&'static [u8]> {
    match command {
        cmd::RESET_DEVICE => Some(b"reset-device"),
        cmd::INPUT_STATUS => Some(b"input-status"),
        _ => None,
    }
}

/// The cause of a packet-not-accepted.
pub fn cause_name(cause: u8) -> Option<&'static [u8]> {
    match cause {
        1 => Some(b"unexpected ackID"),
        2 => Some(b"bad symbol"),
        3 => Some(b"not accepting"),
        4 => Some(b"bad packet"),
        5 => Some(b"bad character"),
        31 => Some(b"general error"),
        _ => None,
    }
}

/// The port status of a link-response.
fn status_name(status: u8) -> Option<&'static [u8]> {
    match status {
        2 => Some(b"error"),
        4 => Some(b"retry-stopped"),
        5 => Some(b"error-stopped"),
        16 => Some(b"OK"),
        _ => None,
    }
}

/// What is neither a symbol nor a packet, by its cause.
pub fn bad_words(cause: Cause) -> &'static [u8] {
    match cause {
        Cause::UnexpectedAck => b"a packet with an unexpected ackID",
        Cause::BadSymbol => b"a symbol with a bad CRC",
        Cause::BadPacket => b"a packet with a bad CRC",
        Cause::BadChar => b"a bad character",
        Cause::General => b"a general error",
    }
}
