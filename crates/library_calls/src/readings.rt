//! What the characters of a run say.
ghost use Rattle.std.specs.Prelude.{◌≡◌, ◌≤◌, ◌<◌, ◌+◌, List, [], ◌∷◌, ◌++◌, length, None, IsSome};
ghost use Rattle.rio_symbols.specs.Fields.{Fields};
ghost use Rattle.link_model.specs.declared.event.Event.{Event};
ghost use Rattle.link_model.specs.Reading.{placed};
ghost use Rattle.link_model.specs.Places.{run, place_after, at_rest};
ghost use Rattle.rio_framer.specs.Giving.{listed, events_by};
ghost use Rattle.library_calls.specs.declared.told.EventTold.{EventTold};
ghost use Rattle.library_calls.specs.Wires.{wire_chars};
ghost use Rattle.library_calls.specs.Readings.{event_told, events_told, symbol_told as symbol_told_of, cut_number as cut_number_of, StandIn, RunReads};

use crate::rooms::put_bytes;
use crate::status::CallStatus;
use crate::told::{EventTold, ReadingTold, SymbolTold};
use crate::wires::wire_char;
use rio_framer::{Framer, Told};
use rio_packets::{Cause, MAX_BYTES, cause_number};
use rio_symbols::Symbol;

/// The most characters that are read at once.
const MOST: usize = 4_194_304;

/// What is told of no symbol.
const NO_SYMBOL: SymbolTold = SymbolTold {
    stype0: 0,
    parameter0: 0,
    parameter1: 0,
    stype1: 0,
    cmd: 0,
};

/// Reads at most 4,194,304 characters, from a start at which nothing is in progress: tells how many
/// events they say, and writes these into the room, as many as it has places for. If there are more
/// characters, nothing is done.
pub fn decode(numbers: &[u16], room: &mut [EventTold], did: &mut ReadingTold) -> CallStatus
    ensures { RunReads numbers.now room.old room.new did.new result }
{
    *did = ReadingTold { events: 0, cut: 0 };
    if numbers.len() > MOST {
        return CallStatus::Argument;
    }
    let mut framer = Framer::new();
    did.events = read_events(&mut framer, numbers, room);
    did.cut = cut_number(&framer);
    CallStatus::Done
}

/// 1 if a symbol or a packet is in progress, or 0.
fn cut_number(framer: &Framer) -> u32
    ensures { result ≡ cut_number_of (at_rest framer.now.place) }
{
    if framer.at_rest() { 0 } else { 1 }
}

/// Leads characters through a framer, writes their events into a room, as many as it has places
/// for, and answers how many they are.
fn read_events(framer: &mut Framer, numbers: &[u16], room: &mut [EventTold]) -> u32
    requires few { length numbers.now ≤ 4194304 }
    ensures place { framer.new.place ≡ place_after framer.old.place (wire_chars numbers.now) }
    ensures events { StandIn (events_told (run framer.old.place 0 (wire_chars numbers.now)))
        room.old result room.new }
{
    let mut events = 0;
    let mut place = 0;
    let mut left = numbers;
    while let [first, rest @ ..] = left {
        let (_, told) = framer.read_run(&[wire_char(*first)]);
        put_told(framer, told, place, room, &mut events);
        place += 1;
        left = rest;
    }
    events
}

/// Puts the events of a character behind those before them.
fn put_told(framer: &Framer, told: Told, place: u32, room: &mut [EventTold], events: &mut u32)
    requires ended { (symbol : Fields) → told ≡ Told.Ends symbol → IsSome framer.now.ended }
    requires few { events.old + 2 ≤ 4294967295 }
    ensures few { events.new ≤ events.old + 2 }
    ensures puts { (before begun : List EventTold) → StandIn before begun events.old room.old
        → StandIn (before ++ events_told (placed place
        (listed (events_by told framer.now.ended).first (events_by told framer.now.ended).second)))
        begun events.new room.new }
{
    match told {
        Told::Nothing => {}
        Told::Ctl(symbol) => put_event(symbol_event(place, &symbol), room, events),
        Told::Ends(symbol) => {
            put_event(ended_event(place, framer), room, events);
            put_event(symbol_event(place, &symbol), room, events);
        }
        Told::Bad(cause) => put_event(broken_event(place, cause), room, events),
    }
}

/// Puts an event behind those before it, if the room has a place for it, and counts it.
fn put_event(told: EventTold, room: &mut [EventTold], events: &mut u32)
    requires { events.old < 4294967295 }
    ensures count { events.new ≡ events.old + 1 }
    ensures puts { (before begun : List EventTold) → StandIn before begun events.old room.old
        → StandIn (before ++ told ∷ []) begun events.new room.new }
{
    let at = *events as usize;
    if at < room.len() {
        room[at] = told;
    }
    *events += 1;
}

/// What is told of the packet that ended.
fn ended_event(place: u32, framer: &Framer) -> EventTold
    requires { IsSome framer.now.ended }
    ensures { result ∷ [] ≡ events_told (placed place (listed framer.now.ended None)) }
{
    match framer.ended() {
        Ok((ack, bytes)) => packet_event(place, ack, bytes),
        Err(cause) => broken_event(place, cause),
    }
}

/// What is told of a symbol.
fn symbol_event(place: u32, symbol: &Symbol) -> EventTold
    ensures { result ≡ event_told place (Event.Ctl symbol.now) }
{
    EventTold {
        place,
        kind: 1,
        length: 0,
        symbol: symbol_told(symbol),
        ack: 0,
        cause: 0,
        bytes: [0; MAX_BYTES],
    }
}

/// What is told of a packet.
fn packet_event(place: u32, ack: u8, packet: &[u8]) -> EventTold
    requires { length packet.now ≤ 276 }
    ensures { result ≡ event_told place (Event.Pkt ack packet.now) }
{
    let mut bytes = [0; MAX_BYTES];
    let length = put_bytes(packet, &mut bytes) as u32;
    EventTold {
        place,
        kind: 2,
        length,
        symbol: NO_SYMBOL,
        ack,
        cause: 0,
        bytes,
    }
}

/// What is told of what is neither.
fn broken_event(place: u32, cause: Cause) -> EventTold
    ensures { result ≡ event_told place (Event.Bad cause) }
{
    EventTold {
        place,
        kind: 3,
        length: 0,
        symbol: NO_SYMBOL,
        ack: 0,
        cause: cause_number(cause),
        bytes: [0; MAX_BYTES],
    }
}

/// The fields of a symbol.
pub(crate) fn symbol_told(symbol: &Symbol) -> SymbolTold
    ensures { result ≡ symbol_told_of symbol.now }
{
    SymbolTold {
        stype0: symbol.s0,
        parameter0: symbol.p0,
        parameter1: symbol.p1,
        stype1: symbol.s1,
        cmd: symbol.cmd,
    }
}
