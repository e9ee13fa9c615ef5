//! What the characters say that a device sends, in the words of a scenario.
ghost use Rattle.std.specs.Prelude.{◌≡◌};
ghost use Rattle.rio_chars.specs.Written.{Writes};
ghost use Rattle.conform_lines.specs.Saying.{asked_word, both_said, request_word, symbol_said, told_word, word_said};

use crate::counting::{MOST_CHARS, read_sent};
use fabric_script::{put_bytes, put_number};
use link_model::Event;
use rio_chars::{NoMemory, Outbox, Sink};
use rio_framer::Framer;
use rio_packets::{Packet, cause_number};
use rio_symbols::Symbol;
use rio_symbols::cmd::{INPUT_STATUS, RESET_DEVICE};
use rio_symbols::stype0::{
    LINK_RESPONSE, PACKET_ACCEPTED, PACKET_NOT_ACCEPTED, PACKET_RETRY, STATUS,
};
use rio_symbols::stype1::{
    END_OF_PACKET, LINK_REQUEST, MULTICAST_EVENT, NOP, RESTART_FROM_RETRY, START_OF_PACKET, STOMP,
};
use std::alloc::Global;

/// Where a long packet has its first CRC.
const FIRST_BYTES: usize = 80;

/// Tells what a line of an answer says, if it sends characters: a line for each symbol and packet,
/// and for what is bad, each behind `before`.
pub fn write_said<K: Sink>(
    alloc: Global,
    reader: &mut Framer,
    line: &[u8],
    before: &[u8],
    outbox: &mut Outbox<K>,
) -> Result<(), NoMemory> {
    let Some(chars) = read_sent(alloc, line)? else {
        return Ok(());
    };
    let chars = chars.as_slice();
    if chars.len() > MOST_CHARS {
        return Err(NoMemory);
    }
    for found in reader.feed_all(alloc, chars)? {
        outbox.write(before);
        write_event(alloc, &found.1, outbox)?;
        outbox.write(b"\n");
    }
    Ok(())
}

/// A symbol, a packet, or what is bad.
fn write_event<K: Sink>(
    alloc: Global,
    event: &Event,
    outbox: &mut Outbox<K>,
) -> Result<(), NoMemory> {
    match event {
        Event::Ctl(symbol) => write_symbol(symbol, outbox),
        Event::Pkt(ack, packet) => write_packet(alloc, *ack, packet, outbox)?,
        Event::Bad(cause) => {
            outbox.write(b"bad");
            put_number(outbox, u32::from(cause_number(*cause)));
        }
    }
    Ok(())
}

/// What a symbol says, with its two parameters.
fn write_symbol<K: Sink>(symbol: &Symbol, outbox: &mut Outbox<K>)
    ensures { Writes outbox.old outbox.new (symbol_said symbol.now) }
{
    if symbol.s1 == NOP {
        return write_word(told_word(symbol.s0), symbol, outbox);
    }
    let asked = asked_word(symbol.s1, symbol.cmd);
    if symbol.s0 == STATUS {
        return write_word(asked, symbol, outbox);
    }
    write_both(told_word(symbol.s0), asked, symbol, outbox);
}

/// A word, the two parameters of a symbol, and what it asks besides.
fn write_both<K: Sink>(told: &[u8], asked: &[u8], symbol: &Symbol, outbox: &mut Outbox<K>)
    ensures { Writes outbox.old outbox.new
        (both_said told.now asked.now symbol.now.p0 symbol.now.p1) }
{
    write_word(told, symbol, outbox);
    outbox.write(b", ");
    outbox.write(asked);
}

/// A word, and the two parameters of a symbol.
fn write_word<K: Sink>(word: &[u8], symbol: &Symbol, outbox: &mut Outbox<K>)
    ensures { Writes outbox.old outbox.new (word_said word.now symbol.now.p0 symbol.now.p1) }
{
    outbox.write(word);
    put_number(outbox, u32::from(symbol.p0));
    put_number(outbox, u32::from(symbol.p1));
}

/// What the first half of a symbol tells.
fn told_word(s0: u8) -> &'static [u8]
    ensures { result.now ≡ told_word s0 }
{
    match s0 {
        PACKET_ACCEPTED => b"accepted",
        PACKET_RETRY => b"retry",
        PACKET_NOT_ACCEPTED => b"not-accepted",
        STATUS => b"status",
        LINK_RESPONSE => b"response",
        _ => b"reserved",
    }
}

/// What the second half asks.
fn asked_word(s1: u8, cmd: u8) -> &'static [u8]
    ensures { result.now ≡ asked_word s1 cmd }
{
    match s1 {
        START_OF_PACKET => b"start",
        STOMP => b"stomp",
        END_OF_PACKET => b"end",
        RESTART_FROM_RETRY => b"restart",
        LINK_REQUEST => request_word(cmd),
        MULTICAST_EVENT => b"multicast",
        NOP => b"nop",
        _ => b"reserved-request",
    }
}

/// What a link-request asks for.
fn request_word(cmd: u8) -> &'static [u8]
    ensures { result.now ≡ request_word cmd }
{
    match cmd {
        RESET_DEVICE => b"reset",
        INPUT_STATUS => b"request",
        _ => b"request-of-another-cmd",
    }
}

/// A packet as a line of a scenario has it, or its bytes if it has no device IDs.
fn write_packet<K: Sink>(
    alloc: Global,
    ack: u8,
    packet: &Packet,
    outbox: &mut Outbox<K>,
) -> Result<(), NoMemory> {
    outbox.write(b"packet");
    put_number(outbox, u32::from(ack));
    let (Some(source), Some(dest)) = (packet.source(), packet.dest()) else {
        put_bytes(outbox, packet.bytes());
        return Ok(());
    };
    outbox.write(if packet.tt() == 1 {
        b" send16"
    } else {
        b" send"
    });
    put_number(outbox, u32::from(packet.prio()));
    put_number(outbox, u32::from(packet.ftype()));
    put_number(outbox, u32::from(source));
    put_number(outbox, u32::from(dest));
    write_data(alloc, packet, outbox)
}

/// The data of a packet, without its CRCs and pad. Zeros at its end are taken for a pad.
fn write_data<K: Sink>(
    alloc: Global,
    packet: &Packet,
    outbox: &mut Outbox<K>,
) -> Result<(), NoMemory> {
    let form = packet.bytes();
    let back = if form.ends_with(&[0, 0]) { 4 } else { 2 };
    let body = form.get(..form.len().saturating_sub(back)).unwrap_or(b"");
    let begin = if packet.tt() == 1 { 6 } else { 4 };
    let first = body.get(begin..body.len().min(FIRST_BYTES)).unwrap_or(b"");
    let second = body.get(FIRST_BYTES + 2..).unwrap_or(b"");
    let mut data = Vec::new(alloc);
    data.extend_from_slice(first)?;
    data.extend_from_slice(second)?;
    put_bytes(outbox, data.as_slice());
    Ok(())
}
