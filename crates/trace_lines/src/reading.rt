//! A line of a trace from its text.

ghost use Rattle.std.specs.Prelude.{◌≡◌, ◌≢◌, ◌∷◌, [], ℕ, List, map, IfOk, IsErrOf};
ghost use Rattle.std.specs.List.{AllByRecursion};
ghost use Rattle.rio_chars.specs.CharText.{char_text_of, HasByte};
ghost use Rattle.rio_chars.specs.HexText.{hex_of};
ghost use Rattle.rio_chars.specs.declared.chars.Char.{Char as AChar};
ghost use Rattle.rio_packets.specs.LinkForm.{Passes};
ghost use Rattle.fabric_script.specs.declared.ports.PortRef.{PortRef as APortRef};
ghost use Rattle.fabric_script.specs.Known.{Known as AKnown};
ghost use Rattle.fabric_script.specs.Lines.{words_of};
ghost use Rattle.fabric_script.specs.Names.{name_of};
ghost use Rattle.fabric_script.specs.SetUps.{KnownIsReady};
ghost use Rattle.fabric_script.specs.Texts.{port_text};
ghost use Rattle.trace_lines.specs.Lines.{Stepped, TraceLine as ALine};
ghost use Rattle.trace_lines.specs.Keywords.{SpellsBehind, NoneBehind};
ghost use Rattle.trace_lines.specs.Reads.{line_read, step_read};
ghost use Rattle.trace_lines.specs.Words.{IsEnd, IsNode, SpellsLine};
ghost use Rattle.trace_lines.specs.declared.fields.TraceLineEnd.TheVariants.{NoForm};
ghost use Rattle.trace_lines.specs.declared.keywords.Keyword.{Keyword as AKeyword};

use crate::boxed::Boxed;
use crate::fields::{
    TraceLineEnd, any_node, any_port, first_word, last_word, linked_port, read_chars, read_form,
};
use crate::keywords::{Keyword, keyword_named};
use crate::lines::{Lack, NetworkStep, TraceLine};
use crate::reading_undetected::read_undetected;
use fabric_script::{EventEnd, PortRef, SetUp, split_word};
use rio_chars::Char;
use rio_packets::Packet;
use std::alloc::Global;

/// The line that a text spells behind set-up lines. NoForm comes exactly if it spells none, unless
/// memory runs out.
pub fn read_trace_line(
    alloc: Global,
    set_up: &SetUp,
    text: &[u8],
) -> Result<TraceLine, TraceLineEnd>
    requires { KnownIsReady set_up.now.known }
    ensures line { IfOk result (λ line. SpellsLine set_up.now.known text.now (line_read line)) }
    ensures no_form { IsErrOf result NoForm
        → (line : ALine) → SpellsLine set_up.now.known text.now line → ⊥ }
{
    let (word, rest) = split_word(text);
    let Some(keyword) = keyword_named(word) else {
        return Err(TraceLineEnd::NoForm);
    };
    match rest {
        Some(text) => read_words(alloc, set_up, keyword, text),
        None => read_alone(keyword),
    }
}

/// A line of more than one word, by its keyword and what stands behind it.
fn read_words(
    alloc: Global,
    set_up: &SetUp,
    keyword: Keyword,
    text: &[u8],
) -> Result<TraceLine, TraceLineEnd>
    requires { KnownIsReady set_up.now.known }
    ensures line { IfOk result (λ line.
        SpellsBehind set_up.now.known keyword (words_of text.now) (line_read line)) }
    ensures no_form { IsErrOf result NoForm
        → NoneBehind set_up.now.known keyword (words_of text.now) }
{
    match keyword {
        Keyword::Begun => read_begun(alloc, set_up, text),
        Keyword::Hold => read_hold(alloc, set_up, text),
        Keyword::Free => read_free(alloc, set_up, text),
        Keyword::Take => read_take(alloc, set_up, text),
        Keyword::Leave => read_leave(alloc, set_up, text),
        Keyword::Move => read_move(alloc, set_up, text),
        Keyword::Drop => read_drop(alloc, set_up, text),
        Keyword::Answer => read_answer(alloc, set_up, text),
        Keyword::Sent => read_sent(alloc, set_up, text),
        Keyword::Got => read_got(alloc, set_up, text),
        Keyword::Fire => read_fire(set_up, text),
        Keyword::Undetected => read_undetected(alloc, set_up, text),
        Keyword::Full => Err(TraceLineEnd::NoForm),
        Keyword::Empty => Err(TraceLineEnd::NoForm),
        Keyword::Short => Err(TraceLineEnd::NoForm),
        Keyword::Early => Err(TraceLineEnd::NoForm),
        Keyword::NoStep => Err(TraceLineEnd::NoForm),
        Keyword::End => Err(TraceLineEnd::NoForm),
    }
}

/// A line of one word.
fn read_alone(keyword: Keyword) -> Result<TraceLine, TraceLineEnd>
    ensures line { IfOk result
        (λ line. (known : AKnown) → SpellsBehind known keyword [] (line_read line)) }
    ensures no_form { IsErrOf result NoForm → (known : AKnown) → NoneBehind known keyword [] }
{
    match keyword {
        Keyword::Full => Ok(TraceLine::Lacked(Lack::Full)),
        Keyword::Empty => Ok(TraceLine::Lacked(Lack::Empty)),
        Keyword::Short => Ok(TraceLine::Lacked(Lack::Short)),
        Keyword::Early => Ok(TraceLine::Lacked(Lack::Early)),
        Keyword::NoStep => Ok(TraceLine::Lacked(Lack::NoStep)),
        Keyword::End => Ok(TraceLine::Ended),
        Keyword::Begun => Err(TraceLineEnd::NoForm),
        Keyword::Hold => Err(TraceLineEnd::NoForm),
        Keyword::Free => Err(TraceLineEnd::NoForm),
        Keyword::Take => Err(TraceLineEnd::NoForm),
        Keyword::Leave => Err(TraceLineEnd::NoForm),
        Keyword::Move => Err(TraceLineEnd::NoForm),
        Keyword::Drop => Err(TraceLineEnd::NoForm),
        Keyword::Answer => Err(TraceLineEnd::NoForm),
        Keyword::Sent => Err(TraceLineEnd::NoForm),
        Keyword::Got => Err(TraceLineEnd::NoForm),
        Keyword::Fire => Err(TraceLineEnd::NoForm),
        Keyword::Undetected => Err(TraceLineEnd::NoForm),
    }
}

/// An event line.
fn read_begun(alloc: Global, set_up: &SetUp, text: &[u8]) -> Result<TraceLine, TraceLineEnd>
    requires { KnownIsReady set_up.now.known }
    ensures line { IfOk result (λ line.
        SpellsBehind set_up.now.known AKeyword.Begun (words_of text.now) (line_read line)) }
    ensures no_form { IsErrOf result NoForm
        → NoneBehind set_up.now.known AKeyword.Begun (words_of text.now) }
{
    match set_up.read_event(alloc, text) {
        Ok(event) => Ok(TraceLine::Begun(event)),
        Err(EventEnd::Refused(_)) => Err(TraceLineEnd::NoForm),
        Err(EventEnd::NoMemory) => Err(TraceLineEnd::NoMemory),
    }
}

/// The line of a step.
fn stepped(alloc: Global, step: NetworkStep) -> Result<TraceLine, TraceLineEnd>
    ensures line { IfOk result (λ line. line_read line ≡ Stepped (step_read step)) }
    ensures no_form { ¬ IsErrOf result NoForm }
{
    Ok(TraceLine::Stepped(Boxed::new(alloc, step)?))
}

/// A port holds a packet.
fn read_hold(alloc: Global, set_up: &SetUp, text: &[u8]) -> Result<TraceLine, TraceLineEnd>
    requires { KnownIsReady set_up.now.known }
    ensures line { IfOk result (λ line.
        SpellsBehind set_up.now.known AKeyword.Hold (words_of text.now) (line_read line)) }
    ensures no_form { IsErrOf result NoForm
        → NoneBehind set_up.now.known AKeyword.Hold (words_of text.now) }
{
    let (port, packet) = link_step(alloc, set_up, text)?;
    stepped(alloc, NetworkStep::Hold(port, packet))
}

/// A port frees a packet.
fn read_free(alloc: Global, set_up: &SetUp, text: &[u8]) -> Result<TraceLine, TraceLineEnd>
    requires { KnownIsReady set_up.now.known }
    ensures line { IfOk result (λ line.
        SpellsBehind set_up.now.known AKeyword.Free (words_of text.now) (line_read line)) }
    ensures no_form { IsErrOf result NoForm
        → NoneBehind set_up.now.known AKeyword.Free (words_of text.now) }
{
    let (port, packet) = link_step(alloc, set_up, text)?;
    stepped(alloc, NetworkStep::Free(port, packet))
}

/// An endpoint takes a packet.
fn read_take(alloc: Global, set_up: &SetUp, text: &[u8]) -> Result<TraceLine, TraceLineEnd>
    requires { KnownIsReady set_up.now.known }
    ensures line { IfOk result (λ line.
        SpellsBehind set_up.now.known AKeyword.Take (words_of text.now) (line_read line)) }
    ensures no_form { IsErrOf result NoForm
        → NoneBehind set_up.now.known AKeyword.Take (words_of text.now) }
{
    let (node, packet) = node_step(alloc, set_up, text)?;
    stepped(alloc, NetworkStep::Take(node, packet))
}

/// A packet leaves at an endpoint.
fn read_leave(alloc: Global, set_up: &SetUp, text: &[u8]) -> Result<TraceLine, TraceLineEnd>
    requires { KnownIsReady set_up.now.known }
    ensures line { IfOk result (λ line.
        SpellsBehind set_up.now.known AKeyword.Leave (words_of text.now) (line_read line)) }
    ensures no_form { IsErrOf result NoForm
        → NoneBehind set_up.now.known AKeyword.Leave (words_of text.now) }
{
    let (node, packet) = node_step(alloc, set_up, text)?;
    stepped(alloc, NetworkStep::Leave(node, packet))
}

/// A switch moves a packet.
fn read_move(alloc: Global, set_up: &SetUp, text: &[u8]) -> Result<TraceLine, TraceLineEnd>
    requires { KnownIsReady set_up.now.known }
    ensures line { IfOk result (λ line.
        SpellsBehind set_up.now.known AKeyword.Move (words_of text.now) (line_read line)) }
    ensures no_form { IsErrOf result NoForm
        → NoneBehind set_up.now.known AKeyword.Move (words_of text.now) }
{
    let (from, text) = first_word(text)?;
    let (to, text) = first_word(text)?;
    let from = any_port(set_up, from)?;
    let to = any_port(set_up, to)?;
    let packet = read_form(alloc, last_word(text)?)?;
    stepped(alloc, NetworkStep::Move(from, to, packet))
}

/// A switch drops a packet.
fn read_drop(alloc: Global, set_up: &SetUp, text: &[u8]) -> Result<TraceLine, TraceLineEnd>
    requires { KnownIsReady set_up.now.known }
    ensures line { IfOk result (λ line.
        SpellsBehind set_up.now.known AKeyword.Drop (words_of text.now) (line_read line)) }
    ensures no_form { IsErrOf result NoForm
        → NoneBehind set_up.now.known AKeyword.Drop (words_of text.now) }
{
    let (port, text) = first_word(text)?;
    let port = any_port(set_up, port)?;
    let packet = read_form(alloc, last_word(text)?)?;
    stepped(alloc, NetworkStep::Drop(port, packet))
}

/// Registers answer a packet with another.
fn read_answer(alloc: Global, set_up: &SetUp, text: &[u8]) -> Result<TraceLine, TraceLineEnd>
    requires { KnownIsReady set_up.now.known }
    ensures line { IfOk result (λ line.
        SpellsBehind set_up.now.known AKeyword.Answer (words_of text.now) (line_read line)) }
    ensures no_form { IsErrOf result NoForm
        → NoneBehind set_up.now.known AKeyword.Answer (words_of text.now) }
{
    let (port, text) = first_word(text)?;
    let (packet, text) = first_word(text)?;
    let port = any_port(set_up, port)?;
    let packet = read_form(alloc, packet)?;
    let response = read_form(alloc, last_word(text)?)?;
    stepped(alloc, NetworkStep::Answer(port, packet, response))
}

/// A port put characters on its wire.
fn read_sent(alloc: Global, set_up: &SetUp, text: &[u8]) -> Result<TraceLine, TraceLineEnd>
    requires { KnownIsReady set_up.now.known }
    ensures line { IfOk result (λ line.
        SpellsBehind set_up.now.known AKeyword.Sent (words_of text.now) (line_read line)) }
    ensures no_form { IsErrOf result NoForm
        → NoneBehind set_up.now.known AKeyword.Sent (words_of text.now) }
{
    let (port, chars) = port_chars(alloc, set_up, text)?;
    Ok(TraceLine::Sent(port, chars))
}

/// A port took characters from its peer's wire.
fn read_got(alloc: Global, set_up: &SetUp, text: &[u8]) -> Result<TraceLine, TraceLineEnd>
    requires { KnownIsReady set_up.now.known }
    ensures line { IfOk result (λ line.
        SpellsBehind set_up.now.known AKeyword.Got (words_of text.now) (line_read line)) }
    ensures no_form { IsErrOf result NoForm
        → NoneBehind set_up.now.known AKeyword.Got (words_of text.now) }
{
    let (port, chars) = port_chars(alloc, set_up, text)?;
    Ok(TraceLine::Got(port, chars))
}

/// The time-out of a port fired.
fn read_fire(set_up: &SetUp, text: &[u8]) -> Result<TraceLine, TraceLineEnd>
    requires { KnownIsReady set_up.now.known }
    ensures line { IfOk result (λ line.
        SpellsBehind set_up.now.known AKeyword.Fire (words_of text.now) (line_read line)) }
    ensures no_form { IsErrOf result NoForm
        → NoneBehind set_up.now.known AKeyword.Fire (words_of text.now) }
{
    let port = linked_port(set_up, last_word(text)?)?;
    Ok(TraceLine::Fired(port))
}

/// A port with a link, and a packet.
fn link_step(alloc: Global, set_up: &SetUp, text: &[u8]) -> Result<(PortRef, Packet), TraceLineEnd>
    requires { KnownIsReady set_up.now.known }
    ensures found { IfOk result (λ found. IsEnd set_up.now.known found.0 × Passes found.1
        × (words_of text.now
        ≡ port_text set_up.now.known.names found.0 ∷ hex_of found.1 ∷ [])) }
    ensures none { IsErrOf result NoForm → (port : APortRef) (packet : List ℕ)
        → IsEnd set_up.now.known port → Passes packet
        → words_of text.now ≢ port_text set_up.now.known.names port ∷ hex_of packet ∷ [] }
{
    let (port, text) = first_word(text)?;
    let port = linked_port(set_up, port)?;
    Ok((port, read_form(alloc, last_word(text)?)?))
}

/// A node, and a packet.
fn node_step(alloc: Global, set_up: &SetUp, text: &[u8]) -> Result<(u8, Packet), TraceLineEnd>
    ensures found { IfOk result (λ found. IsNode set_up.now.known found.0 × Passes found.1
        × (words_of text.now
        ≡ name_of set_up.now.known.names found.0 ∷ hex_of found.1 ∷ [])) }
    ensures none { IsErrOf result NoForm → (node : ℕ) (packet : List ℕ)
        → IsNode set_up.now.known node → Passes packet
        → words_of text.now ≢ name_of set_up.now.known.names node ∷ hex_of packet ∷ [] }
{
    let (node, text) = first_word(text)?;
    let node = any_node(set_up, node)?;
    Ok((node, read_form(alloc, last_word(text)?)?))
}

/// A port with a link, and characters.
fn port_chars(
    alloc: Global,
    set_up: &SetUp,
    text: &[u8],
) -> Result<(PortRef, Vec<Char>), TraceLineEnd>
    requires { KnownIsReady set_up.now.known }
    ensures found { IfOk result (λ found. IsEnd set_up.now.known found.0
        × (found.1.items ≢ []) × AllByRecursion HasByte found.1.items
        × (words_of text.now
        ≡ port_text set_up.now.known.names found.0 ∷ map char_text_of found.1.items)) }
    ensures none { IsErrOf result NoForm → (port : APortRef) (chars : List AChar)
        → IsEnd set_up.now.known port → (chars ≢ []) → AllByRecursion HasByte chars
        → words_of text.now ≢ port_text set_up.now.known.names port ∷ map char_text_of chars }
{
    let (port, text) = first_word(text)?;
    let port = linked_port(set_up, port)?;
    Ok((port, read_chars(alloc, text)?))
}
