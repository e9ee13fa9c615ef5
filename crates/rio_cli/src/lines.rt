//! The lines of events, told to an outbox.
ghost use Rattle.std.specs.Prelude.{◌≡◌, ◌++◌, ℕ, codes, Some, None, IsSome};
ghost use Rattle.std.specs.List.{flat_map};
ghost use Rattle.std.specs.Fmt.{decimal};
ghost use Rattle.rio_chars.specs.HexText.{hex_of};
ghost use Rattle.rio_chars.specs.Written.{Writes};
ghost use Rattle.rio_symbols.specs.Fields.{Fields};
ghost use Rattle.link_model.specs.Reading.{placed};
ghost use Rattle.link_model.specs.declared.event.Event.TheVariants.{Ctl, Pkt};
ghost use Rattle.rio_framer.specs.Giving.{listed, events_by};
ghost use Rattle.rio_cli.specs.Decoding.{event_told_text, bad_text, placed_text, end_text};

use crate::places::{digit_and_number, number_and_digits, write_number, write_place};
use link_model::Event;
use rio_chars::{Outbox, Sink};
use rio_framer::{Framer, Told};
use rio_packets::{Cause, cause_number};
use rio_symbols::Symbol;

/// Tells the lines of what a run of characters told, of which the last has this place.
pub(crate) fn write_told<K: Sink>(outbox: &mut Outbox<K>, place: u32, told: Told, framer: &Framer)
    requires { (symbol : Fields) → told ≡ Told.Ends symbol → IsSome framer.now.ended }
    ensures { Writes outbox.old outbox.new
        (flat_map placed_text (placed place (listed (events_by told framer.now.ended).first
        (events_by told framer.now.ended).second))) }
{
    match told {
        Told::Nothing => {}
        Told::Ctl(symbol) => write_symbol(outbox, place, &symbol),
        Told::Ends(symbol) => {
            write_ended(outbox, place, framer);
            write_symbol(outbox, place, &symbol);
        }
        Told::Bad(cause) => write_bad(outbox, place, cause),
    }
}

/// The line of the packet that ended.
fn write_ended<K: Sink>(outbox: &mut Outbox<K>, place: u32, framer: &Framer)
    requires { IsSome framer.now.ended }
    ensures { Writes outbox.old outbox.new
        (flat_map placed_text (placed place (listed framer.now.ended None))) }
{
    match framer.ended() {
        Ok((ack, packet)) => write_packet(outbox, place, ack, packet),
        Err(cause) => write_bad(outbox, place, cause),
    }
}

/// Tells the line of a symbol.
fn write_symbol<K: Sink>(outbox: &mut Outbox<K>, place: u32, symbol: &Symbol)
    ensures { Writes outbox.old outbox.new
        (decimal place ++ event_told_text (Ctl symbol.now)) }
{
    write_place(outbox, place);
    write_fields(outbox, symbol);
}

/// Tells what stands behind the place: the word and the five fields.
#[inline(always)]
fn write_fields<K: Sink>(outbox: &mut Outbox<K>, symbol: &Symbol)
    ensures { Writes outbox.old outbox.new (event_told_text (Ctl symbol.now)) }
{
    outbox.write_short(b" symbol\n", 7);
    let (front, count) = digit_and_number(symbol.s0, symbol.p0);
    outbox.write_short(&front, count);
    let (back, count) = number_and_digits(symbol.p1, symbol.s1, symbol.cmd);
    outbox.write_short(&back, count);
}

/// Tells the line of a packet.
fn write_packet<K: Sink>(outbox: &mut Outbox<K>, place: u32, ack: u8, packet: &[u8])
    ensures { Writes outbox.old outbox.new
        (decimal place ++ event_told_text (Pkt ack packet.now)) }
{
    write_place(outbox, place);
    write_form(outbox, ack, packet);
}

/// Tells what stands behind the place: the word, the ackID and the bytes.
fn write_form<K: Sink>(outbox: &mut Outbox<K>, ack: u8, packet: &[u8])
    ensures { Writes outbox.old outbox.new (event_told_text (Pkt ack packet.now)) }
{
    outbox.write_short(b" packet\n", 7);
    write_number(outbox, ack);
    outbox.write(b" ");
    outbox.write_hex(packet);
    outbox.write(b"\n");
}

/// Tells the line of what is neither.
fn write_bad<K: Sink>(outbox: &mut Outbox<K>, place: u32, cause: Cause)
    ensures { Writes outbox.old outbox.new
        (decimal place ++ bad_text cause) }
{
    write_place(outbox, place);
    write_cause(outbox, cause);
}

/// Tells what stands behind the place: the word and the number of the cause.
fn write_cause<K: Sink>(outbox: &mut Outbox<K>, cause: Cause)
    ensures { Writes outbox.old outbox.new (bad_text cause) }
{
    outbox.write_short(b" bad\n\n\n\n", 4);
    write_number(outbox, cause_number(cause));
    outbox.write(b"\n");
}

/// Tells the last line, by whether neither a symbol nor a packet is in progress.
pub(crate) fn write_end<K: Sink>(outbox: &mut Outbox<K>, at_rest: bool)
    ensures { Writes outbox.old outbox.new (end_text at_rest) }
{
    if at_rest {
        outbox.write(b"end\n");
    } else {
        outbox.write(b"end cut\n");
    }
}
