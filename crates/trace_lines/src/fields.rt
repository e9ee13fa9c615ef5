//! What single words of a line of a trace say, behind set-up lines.

ghost use Rattle.std.specs.Prelude.{◌≡◌, ◌≢◌, ◌<◌, ◌≤◌, ◌^◌, ◌∷◌, [], ℕ, List, length, map, IfOk, IfErr, OnErr, IsErrOf};
ghost use Rattle.std.specs.List.{AllByRecursion};
ghost use Rattle.std.specs.Fmt.{decimal};
ghost use Rattle.rio_chars.specs.CharText.{char_text_of, HasByte};
ghost use Rattle.rio_chars.specs.HexText.{hex_of};
ghost use Rattle.rio_chars.specs.declared.chars.Char.{Char as AChar};
ghost use Rattle.rio_packets.specs.LinkForm.{Passes};
ghost use Rattle.fabric_script.specs.declared.ports.PortRef.{PortRef as APortRef};
ghost use Rattle.fabric_script.specs.Lines.{words_of};
ghost use Rattle.fabric_script.specs.Names.{name_of};
ghost use Rattle.fabric_script.specs.SetUps.{KnownIsReady};
ghost use Rattle.fabric_script.specs.Texts.{port_text};
ghost use Rattle.trace_lines.specs.Words.{IsScriptPort, IsEnd, IsNode};
ghost use Rattle.trace_lines.specs.declared.fields.TraceLineEnd.TheVariants.{NoForm, NoMemory as OutOfMemory};

use fabric_script::{PortRef, SetUp, read_number, split_word};
use rio_chars::{Char, NoMemory, read_char, read_hex};
use rio_packets::{Packet, check};
use std::alloc::{AllocError, AllocFailed, Global};

/// Why there is no line.
#[derive(Clone, Copy, Debug, PartialEq, Eq)]
pub enum TraceLineEnd {
    /// The text is of no form: it spells no line.
    NoForm,
    /// Memory ran out.
    NoMemory,
}

impl From<NoMemory> for TraceLineEnd {
    ghost from_gives = { λ _ end. end ≡ OutOfMemory };

    fn from(_: NoMemory) -> Self {
        TraceLineEnd::NoMemory
    }
}

impl From<AllocError> for TraceLineEnd {
    ghost from_gives = { λ _ end. end ≡ OutOfMemory };

    fn from(_: AllocError) -> Self {
        TraceLineEnd::NoMemory
    }
}

impl<T: Drop> From<AllocFailed<T>> for TraceLineEnd {
    ghost from_gives = { λ _ end. end ≡ OutOfMemory };

    fn from(_: AllocFailed<T>) -> Self {
        TraceLineEnd::NoMemory
    }
}

/// The first word of a text, and what stands behind it.
pub(crate) fn first_word(text: &[u8]) -> Result<(&[u8], &[u8]), TraceLineEnd>
    ensures more { IfOk result (λ found. words_of text.now ≡ found.0.now ∷ words_of found.1.now) }
    ensures one { OnErr result (length (words_of text.now) ≡ 1) }
{
    match split_word(text) {
        (word, Some(rest)) => Ok((word, rest)),
        (_, None) => Err(TraceLineEnd::NoForm),
    }
}

/// The one word of a text.
pub(crate) fn last_word(text: &[u8]) -> Result<&[u8], TraceLineEnd>
    ensures one { IfOk result (λ word. words_of text.now ≡ word.now ∷ []) }
    ensures more { OnErr result (2 ≤ length (words_of text.now)) }
{
    match split_word(text) {
        (word, None) => Ok(word),
        (_, Some(_)) => Err(TraceLineEnd::NoForm),
    }
}

/// The node that a word names.
pub(crate) fn any_node(set_up: &SetUp, word: &[u8]) -> Result<u8, TraceLineEnd>
    ensures node { IfOk result (λ node. IsNode set_up.now.known node
        × (word.now ≡ name_of set_up.now.known.names node)) }
    ensures none { OnErr result ((node : ℕ) → IsNode set_up.now.known node
        → word.now ≢ name_of set_up.now.known.names node) }
{
    match set_up.read_node(word) {
        Some(node) => Ok(node),
        None => Err(TraceLineEnd::NoForm),
    }
}

/// The port that a word names.
pub(crate) fn any_port(set_up: &SetUp, word: &[u8]) -> Result<PortRef, TraceLineEnd>
    ensures port { IfOk result (λ port. IsScriptPort set_up.now.known port
        × (word.now ≡ port_text set_up.now.known.names port)) }
    ensures none { OnErr result ((port : APortRef) → IsScriptPort set_up.now.known port
        → word.now ≢ port_text set_up.now.known.names port) }
{
    match set_up.read_port(word) {
        Some(port) => Ok(port),
        None => Err(TraceLineEnd::NoForm),
    }
}

/// The port that a word names, if it has a link.
pub(crate) fn linked_port(set_up: &SetUp, word: &[u8]) -> Result<PortRef, TraceLineEnd>
    requires { KnownIsReady set_up.now.known }
    ensures port { IfOk result (λ port. IsEnd set_up.now.known port
        × (word.now ≡ port_text set_up.now.known.names port)) }
    ensures none { OnErr result ((port : APortRef) → IsEnd set_up.now.known port
        → word.now ≢ port_text set_up.now.known.names port) }
{
    let port = any_port(set_up, word)?;
    if set_up.is_linked(port) {
        Ok(port)
    } else {
        Err(TraceLineEnd::NoForm)
    }
}

/// The packet of which a word spells the link form in hexadecimal digits.
pub(crate) fn read_form(alloc: Global, word: &[u8]) -> Result<Packet, TraceLineEnd>
    ensures form { IfOk result (λ packet. Passes packet × (word.now ≡ hex_of packet)) }
    ensures none { IsErrOf result NoForm
        → (packet : List ℕ) → Passes packet → word.now ≢ hex_of packet }
{
    let Some(bytes) = read_hex(alloc, word)? else {
        return Err(TraceLineEnd::NoForm);
    };
    let Ok((_, packet)) = check(bytes.as_slice()) else {
        return Err(TraceLineEnd::NoForm);
    };
    if packet.bytes() == bytes.as_slice() {
        Ok(packet)
    } else {
        Err(TraceLineEnd::NoForm)
    }
}

/// Characters, one a word.
pub(crate) fn read_chars(alloc: Global, text: &[u8]) -> Result<Vec<Char>, TraceLineEnd>
    ensures some { IfOk result (λ chars. chars.items ≢ []) }
    ensures bytes { IfOk result (λ chars. AllByRecursion HasByte chars.items) }
    ensures words { IfOk result (λ chars. words_of text.now ≡ map char_text_of chars.items) }
    ensures none { IsErrOf result NoForm → (chars : List AChar) → AllByRecursion HasByte chars
        → words_of text.now ≢ map char_text_of chars }
{
    let mut chars = Vec::new(alloc);
    let mut left = Some(text);
    while let Some(text) = left {
        let (word, rest) = split_word(text);
        let found = char_of(word)?;
        chars.push(found)?;
        left = rest;
    }
    Ok(chars)
}

/// The character that a word spells.
fn char_of(word: &[u8]) -> Result<Char, TraceLineEnd>
    ensures char { IfOk result (λ c. HasByte c × (word.now ≡ char_text_of c)) }
    ensures none { OnErr result ((c : AChar) → HasByte c → word.now ≢ char_text_of c) }
    ensures no_form { IfErr result (λ end. end ≡ NoForm) }
{
    match read_char(word) {
        Some(c) => Ok(c),
        None => Err(TraceLineEnd::NoForm),
    }
}

/// The number that a word spells.
pub(crate) fn any_number(word: &[u8]) -> Result<u32, TraceLineEnd>
    ensures number { IfOk result (λ n. word.now ≡ decimal n) }
    ensures none { OnErr result ((n : ℕ) → n < 2 ^ 32 → word.now ≢ decimal n) }
{
    match read_number(word) {
        Some(number) => Ok(number),
        None => Err(TraceLineEnd::NoForm),
    }
}

/// The number that a word spells, below a bound.
pub(crate) fn below(bound: u8, word: &[u8]) -> Result<u8, TraceLineEnd>
    ensures number { IfOk result (λ n. (n < bound) × (word.now ≡ decimal n)) }
    ensures none { OnErr result ((n : ℕ) → n < bound → word.now ≢ decimal n) }
{
    let number = any_number(word)?;
    if number < u32::from(bound) {
        Ok(number as u8)
    } else {
        Err(TraceLineEnd::NoForm)
    }
}
