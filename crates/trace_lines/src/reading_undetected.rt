//! The last line of a trace that ends early, with the event that was not sent.

ghost use Rattle.std.specs.Prelude.{◌≡◌, ◌≢◌, ◌<◌, ◌∷◌, [], ℕ, List, IfOk, IsErrOf, OnErr};
ghost use Rattle.std.specs.Fmt.{decimal};
ghost use Rattle.rio_chars.specs.HexText.{hex_of};
ghost use Rattle.rio_packets.specs.LinkForm.{Passes};
ghost use Rattle.rio_symbols.specs.Fields.{Fields, InRange};
ghost use Rattle.link_model.specs.declared.event.Event.{Event as AnEvent};
ghost use Rattle.fabric_script.specs.Lines.{words_of};
ghost use Rattle.fabric_script.specs.SetUps.{KnownIsReady};
ghost use Rattle.trace_lines.specs.Keywords.{SpellsBehind, NoneBehind};
ghost use Rattle.trace_lines.specs.Reads.{line_read};
ghost use Rattle.trace_lines.specs.Words.{event_words, symbol_words, EventFits};
ghost use Rattle.trace_lines.specs.declared.fields.TraceLineEnd.TheVariants.{NoForm};
ghost use Rattle.trace_lines.specs.declared.keywords.Keyword.{Keyword as AKeyword};

use crate::boxed::Boxed;
use crate::fields::{TraceLineEnd, any_number, any_port, below, first_word, last_word, read_form};
use crate::lines::TraceLine;
use fabric_script::SetUp;
use link_model::Event;
use rio_packets::Packet;
use rio_symbols::Symbol;
use std::alloc::Global;

/// The line with the script's line, the port and the event.
pub(crate) fn read_undetected(
    alloc: Global,
    set_up: &SetUp,
    text: &[u8],
) -> Result<TraceLine, TraceLineEnd>
    requires { KnownIsReady set_up.now.known }
    ensures line { IfOk result (λ line.
        SpellsBehind set_up.now.known AKeyword.Undetected (words_of text.now) (line_read line)) }
    ensures no_form { IsErrOf result NoForm
        → NoneBehind set_up.now.known AKeyword.Undetected (words_of text.now) }
{
    let (number, text) = first_word(text)?;
    let (port, text) = first_word(text)?;
    let number = any_number(number)?;
    let port = any_port(set_up, port)?;
    let event = read_event(alloc, text)?;
    Ok(TraceLine::Undetected(number, port, Boxed::new(alloc, event)?))
}

/// The event that was not sent.
fn read_event(alloc: Global, text: &[u8]) -> Result<Event, TraceLineEnd>
    ensures event { IfOk result (λ event. EventFits event
        × (words_of text.now ≡ event_words event)) }
    ensures none { IsErrOf result NoForm → (event : AnEvent) → EventFits event
        → words_of text.now ≢ event_words event }
{
    let (kind, text) = first_word(text)?;
    if kind == b"symbol".as_slice() {
        Ok(Event::Ctl(read_symbol(text)?))
    } else if kind == b"packet".as_slice() {
        let (ack, packet) = read_packet(alloc, text)?;
        Ok(Event::Pkt(ack, packet))
    } else {
        Err(TraceLineEnd::NoForm)
    }
}

/// A packet with its ackID.
fn read_packet(alloc: Global, text: &[u8]) -> Result<(u8, Packet), TraceLineEnd>
    ensures found { IfOk result (λ found. (found.0 < 32) × Passes found.1
        × (words_of text.now ≡ decimal found.0 ∷ hex_of found.1 ∷ [])) }
    ensures none { IsErrOf result NoForm → (ack : ℕ) (packet : List ℕ) → ack < 32
        → Passes packet → words_of text.now ≢ decimal ack ∷ hex_of packet ∷ [] }
{
    let (ack, text) = first_word(text)?;
    let ack = below(32, ack)?;
    Ok((ack, read_form(alloc, last_word(text)?)?))
}

/// The fields of a control symbol.
fn read_symbol(text: &[u8]) -> Result<Symbol, TraceLineEnd>
    ensures range { IfOk result InRange }
    ensures words { IfOk result (λ symbol. words_of text.now ≡ symbol_words symbol) }
    ensures none { OnErr result ((symbol : Fields) → InRange symbol
        → words_of text.now ≢ symbol_words symbol) }
{
    let (s0, text) = first_word(text)?;
    let (p0, text) = first_word(text)?;
    let (p1, text) = first_word(text)?;
    let (s1, text) = first_word(text)?;
    let cmd = last_word(text)?;
    Ok(Symbol {
        s0: below(8, s0)?,
        p0: below(32, p0)?,
        p1: below(32, p1)?,
        s1: below(8, s1)?,
        cmd: below(8, cmd)?,
    })
}
