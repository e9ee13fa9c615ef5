//! What a line of a scenario puts on the wire.
ghost use Rattle.std.specs.Prelude.{◌≡◌, ◌≢◌, ◌<◌, ◌++◌, ◌∷◌, codes, IfOk, IfSome, OnOk, MatchOption, List, ℕ, slice_set, slice_index};
ghost use Rattle.std.specs.Fmt.{decimal};
ghost use Rattle.fabric_script.specs.Lines.{words_of};
ghost use Rattle.fabric_script.specs.Words.{words_left};
ghost use Rattle.link_model.specs.ReadingSpelt.{data_chars};
ghost use Rattle.port_lines.specs.Requests.{AsksRequest};
ghost use Rattle.port_lines.specs.declared.requests.PortRequest.TheVariants as Asks;
ghost use Rattle.conform_lines.specs.declared.symbols.SymbolName.{SymbolName as AName};
ghost use Rattle.conform_lines.specs.Names.{symbol_word};
ghost use Rattle.conform_lines.specs.Items.{ReadsItem, SpellsLinkBytes, SpellsParameters, bit_turned, item_chars, packet_between};

use crate::symbols::{SymbolName, symbol_named, symbol_of};
use arrayvec::ArrayVec;
use fabric_script::{read_bytes, read_number, split_word};
use port_lines::{PortRequest, read_request};
use rio_chars::Char;
use rio_framer::symbol_chars;
use rio_packets::{MAX_BYTES, Packet};
use rio_symbols::Symbol;
use std::alloc::{AllocError, Global};

/// What a line puts on the wire.
#[derive(Drop)]
pub(crate) enum LinkItem {
    /// A control symbol.
    Symbol(Symbol),
    /// Data characters with these bytes.
    Data(Vec<u8>),
    /// A packet between its two symbols.
    Packet(ArrayVec<u8, MAX_BYTES>),
    /// The same with a wrong bit.
    Spoiled(ArrayVec<u8, MAX_BYTES>),
    /// Some bytes of a packet.
    Part(Vec<u8>),
}

/// What a line puts on the wire, if it is spelled as one that does.
pub(crate) fn read_item(alloc: Global, line: &[u8]) -> Result<Option<LinkItem>, AllocError>
    ensures { IfOk result (λ read. ReadsItem read (words_of line.now)) }
{
    let (word, rest) = split_word(line);
    if let Some(name) = symbol_named(word) {
        return Ok(read_symbol(name, rest));
    }
    match word {
        b"data" => read_data(alloc, rest),
        b"packet" => read_packet(alloc, rest),
        b"spoiled" => read_spoiled(alloc, rest),
        b"part" => read_part(alloc, rest),
        _ => Ok(None),
    }
}

/// The symbol of a name, with the parameters that the words behind it spell.
fn read_symbol(name: SymbolName, words: Option<&[u8]>) -> Option<LinkItem>
    ensures { ReadsItem result (symbol_word name ∷ words_left words.entry) }
{
    let (p0, p1) = read_parameters(words)?;
    Some(LinkItem::Symbol(symbol_of(name, p0, p1)))
}

/// The two parameters of a symbol: if they are not spelled, the first is 0, and the second 31.
fn read_parameters(words: Option<&[u8]>) -> Option<(u8, u8)>
    ensures spells { MatchOption result
        ((p0 p1 : ℕ) → ¬ SpellsParameters (words_left words.entry) p0 p1)
        (λ both. SpellsParameters (words_left words.entry) both.0 both.1) }
    ensures first { IfSome result (λ both. both.0 < 32) }
    ensures second { IfSome result (λ both. both.1 < 32) }
{
    let Some(text) = words else {
        return Some((0, 31));
    };
    let (first, rest) = split_word(text);
    let p0 = read_five_bits(first)?;
    let Some(behind) = rest else {
        return Some((p0, 31));
    };
    let (second, none) = split_word(behind);
    if none.is_some() {
        return None;
    }
    Some((p0, read_five_bits(second)?))
}

/// A number below 32.
fn read_five_bits(word: &[u8]) -> Option<u8>
    ensures spells { MatchOption result ((n : ℕ) → n < 32 → word.now ≢ decimal n)
        (λ number. word.now ≡ decimal number) }
    ensures small { IfSome result (λ number. number < 32) }
{
    match read_number(word) {
        Some(number) if number < 32 => Some(number as u8),
        _ => None,
    }
}

/// Data characters with the bytes that the word spells.
fn read_data(alloc: Global, words: Option<&[u8]>) -> Result<Option<LinkItem>, AllocError>
    ensures { IfOk result (λ read. ReadsItem read (codes "data" ∷ words_left words.entry)) }
{
    let Some(text) = words else {
        return Ok(None);
    };
    let (word, more) = split_word(text);
    if more.is_some() {
        return Ok(None);
    }
    match read_bytes(alloc, word)? {
        Some(bytes) => Ok(Some(LinkItem::Data(bytes))),
        None => Ok(None),
    }
}

/// A packet as it is sent.
fn read_packet(alloc: Global, words: Option<&[u8]>) -> Result<Option<LinkItem>, AllocError>
    ensures { IfOk result (λ read. ReadsItem read (codes "packet" ∷ words_left words.entry)) }
{
    match read_link_bytes(alloc, words)? {
        Some(bytes) => Ok(Some(LinkItem::Packet(bytes))),
        None => Ok(None),
    }
}

/// A packet whose fifth byte has a wrong bit.
fn read_spoiled(alloc: Global, words: Option<&[u8]>) -> Result<Option<LinkItem>, AllocError>
    ensures { IfOk result (λ read. ReadsItem read (codes "spoiled" ∷ words_left words.entry)) }
{
    let Some(mut bytes) = read_link_bytes(alloc, words)? else {
        return Ok(None);
    };
    if bytes.len() <= 4 {
        return Ok(None);
    }
    let byte = turn(bytes[4]);
    bytes[4] = byte;
    Ok(Some(LinkItem::Spoiled(bytes)))
}

/// A byte whose lowest bit is turned.
fn turn(byte: u8) -> u8
    ensures { result ≡ bit_turned byte }
{
    if byte % 2 == 0 { byte + 1 } else { byte - 1 }
}

/// The bytes of a packet from a place on, up to another.
fn read_part(alloc: Global, words: Option<&[u8]>) -> Result<Option<LinkItem>, AllocError>
    ensures { IfOk result (λ read. ReadsItem read (codes "part" ∷ words_left words.entry)) }
{
    let Some(text) = words else {
        return Ok(None);
    };
    let (first, rest) = split_word(text);
    let Some(behind) = rest else {
        return Ok(None);
    };
    let (second, last) = split_word(behind);
    let Some(from) = read_number(first) else {
        return Ok(None);
    };
    let Some(to) = read_number(second) else {
        return Ok(None);
    };
    let Some(bytes) = read_link_bytes(alloc, last)? else {
        return Ok(None);
    };
    let Some(within) = bytes.as_slice().get(from as usize..to as usize) else {
        return Ok(None);
    };
    let mut part = Vec::new(alloc);
    part.extend_from_slice(within)?;
    Ok(Some(LinkItem::Part(part)))
}

/// The bytes of a packet with an ackID: its number, and the line by which a port is given the
/// packet.
fn read_link_bytes(
    alloc: Global,
    words: Option<&[u8]>,
) -> Result<Option<ArrayVec<u8, MAX_BYTES>>, AllocError>
    ensures { IfOk result (λ read. MatchOption read
        ((bytes : List ℕ) → ¬ SpellsLinkBytes (words_left words.entry) bytes)
        (λ bytes. SpellsLinkBytes (words_left words.entry) bytes.items)) }
{
    let Some(text) = words else {
        return Ok(None);
    };
    let (word, rest) = split_word(text);
    let Some(line) = rest else {
        return Ok(None);
    };
    let Some(ack) = read_five_bits(word) else {
        return Ok(None);
    };
    match read_send(alloc, line)? {
        Some(packet) => Ok(Some(packet.with_ack(ack))),
        None => Ok(None),
    }
}

/// The packet that a port is given by a line.
fn read_send(alloc: Global, line: &[u8]) -> Result<Option<Packet>, AllocError>
    ensures { IfOk result (λ read. MatchOption read
        ((packet : List ℕ) → ¬ AsksRequest (Asks.Send packet) (words_of line.now))
        (λ packet. AsksRequest (Asks.Send packet) (words_of line.now))) }
{
    match read_request(alloc, line)? {
        Ok(request) => Ok(sent(request)),
        Err(_refusal) => Ok(None),
    }
}

/// The packet that is to be sent, if this is asked for.
fn sent(request: PortRequest) -> Option<Packet>
    ensures { MatchOption result ((packet : List ℕ) → request ≢ Asks.Send packet)
        (λ packet. request ≡ Asks.Send packet) }
{
    match request {
        PortRequest::Send(packet) => Some(packet),
        _other => None,
    }
}

/// Adds the characters that are put on the wire.
pub(crate) fn push_item(chars: &mut Vec<Char>, item: &LinkItem) -> Result<(), AllocError>
    ensures { OnOk result (chars.new.items ≡ chars.old.items ++ item_chars item.now) }
{
    match item {
        LinkItem::Symbol(symbol) => chars.extend_from_slice(symbol_chars(symbol).as_slice()),
        LinkItem::Data(bytes) => push_data(chars, bytes.as_slice()),
        LinkItem::Packet(bytes) => push_packet(chars, bytes.as_slice()),
        LinkItem::Spoiled(bytes) => push_packet(chars, bytes.as_slice()),
        LinkItem::Part(bytes) => push_data(chars, bytes.as_slice()),
    }
}

/// Adds the bytes of a packet between its two symbols.
fn push_packet(chars: &mut Vec<Char>, bytes: &[u8]) -> Result<(), AllocError>
    ensures { OnOk result (chars.new.items ≡ chars.old.items ++ packet_between bytes.now) }
{
    let start = symbol_of(SymbolName::Start, 0, 31);
    let end = symbol_of(SymbolName::End, 0, 31);
    chars.extend_from_slice(symbol_chars(&start).as_slice())?;
    push_data(chars, bytes)?;
    chars.extend_from_slice(symbol_chars(&end).as_slice())
}

/// Adds data characters.
fn push_data(chars: &mut Vec<Char>, bytes: &[u8]) -> Result<(), AllocError>
    ensures { OnOk result (chars.new.items ≡ chars.old.items ++ data_chars bytes.now) }
{
    for byte in bytes {
        chars.push(Char::Data(*byte))?;
    }
    Ok(())
}
