//! Lines of devices outside, and of the ports of the fabric beside them.
ghost use Rattle.std.specs.Prelude.{◌≡◌, ◌≤◌, ℕ, length, [], ◌∷◌, Some, IfOk, IfErr, OnErr, IsErrOf, MatchOption, MatchResult};
ghost use Rattle.fabric_script.specs.Lines.{words_of};
ghost use Rattle.outside_lines.specs.Reading.{external_text, sending_text, pump_text, timeout_text, settle_text, is_taken, PortOf, NoPort, NamesFacing, NamesNoFacing, AreChars, AreNoChars, IsTurnCount, NoCount, IsOtherPump, IsPump, IsOtherTimeout, SpellsOutside, IsNoOutsideLine, NoJoin, NoSending, NoTurns, NoOutside};

use crate::facing::{Facing, faces_out, is_joined, port_beside, same_port};
use fabric_script::{EventEnd, PortRef, SetUp, read_number, split_word};
use rio_chars::{Char, read_char};
use std::alloc::{AllocError, Global};

/// The reason of a line that has no form.
const NO_FORM: u8 = 1;

/// The reason of a number that is misspelled or out of range.
const BAD_NUMBER: u8 = 2;

/// The reason of a port that is taken.
const PORT_TAKEN: u8 = 7;

/// The reason of characters that are misspelled.
const BAD_CHARACTER: u8 = 9;

/// The reason of a port that leads nowhere.
const NOT_LINKED: u8 = 13;

/// The most turns of a line.
const MOST_TURNS: u32 = 100_000;

/// A line of a device outside, or of the port of the fabric beside it.
#[derive(Drop)]
pub enum OutsideLine {
    /// The first port is one of a device outside from now on, and the second stands beside it.
    External(Facing),
    /// The device sends characters, which the port beside it takes.
    Sent(Facing, Vec<Char>),
    /// The port takes turns, at most so many.
    Pump(PortRef, u32),
    /// The time-out of the port fires.
    Timeout(PortRef),
}

/// The line of a device outside that a text is, if it is one, after these lines of set-up, while
/// these ports face out.
pub fn read_outside(
    alloc: Global,
    set_up: &SetUp,
    facing: &[Facing],
    line: &[u8],
) -> Result<Option<OutsideLine>, EventEnd>
    ensures read { IfOk result (λ read. MatchOption read
        (IsNoOutsideLine set_up.now.known facing.now line.now)
        (λ outside. SpellsOutside set_up.now.known facing.now line.now outside)) }
    ensures refused { (number : ℕ) → IsErrOf result (EventEnd.Refused number)
        → NoOutside set_up.now.known facing.now line.now number }
{
    if let Some(words) = line.strip_prefix(b"external ") {
        return read_external(alloc, set_up, facing, words);
    }
    if let Some(words) = line.strip_prefix(b"sent ") {
        return read_sent(alloc, set_up, facing, words);
    }
    if let Some(words) = line.strip_prefix(b"pump ") {
        return read_pump(set_up, facing, words);
    }
    if let Some(words) = line.strip_prefix(b"timeout ") {
        return Ok(read_timeout(set_up, facing, words));
    }
    Ok(None)
}

/// A line by whose words a port of the fabric is to stand beside one of a device.
fn read_external(
    alloc: Global,
    set_up: &SetUp,
    facing: &[Facing],
    words: &[u8],
) -> Result<Option<OutsideLine>, EventEnd>
    ensures read { IfOk result (λ read. MatchOption read ⊥
        (λ outside. SpellsOutside set_up.now.known facing.now (external_text words.now) outside)) }
    ensures refused { (number : ℕ) → IsErrOf result (EventEnd.Refused number)
        → NoJoin set_up.now.known facing.now (words_of words.now) number }
{
    let (first, rest) = first_word(words)?;
    let Some(second) = last_word(rest) else {
        return Err(EventEnd::Refused(NO_FORM));
    };
    let device = read_end(alloc, set_up, first)?;
    let port = read_end(alloc, set_up, second)?;
    let at = Facing { device, port };
    if is_taken(set_up, facing, at) {
        return Err(EventEnd::Refused(PORT_TAKEN));
    }
    Ok(Some(OutsideLine::External(at)))
}

/// Whether two ports cannot be joined: they are one, or one has a link or is joined.
fn is_taken(set_up: &SetUp, facing: &[Facing], at: Facing) -> bool
    ensures { result ≡ is_taken set_up.now.known facing.now at }
{
    same_port(at.device, at.port)
        || set_up.is_linked(at.device)
        || set_up.is_linked(at.port)
        || is_joined(facing, at.device)
        || is_joined(facing, at.port)
}

/// A line by whose words a device sends characters.
fn read_sent(
    alloc: Global,
    set_up: &SetUp,
    facing: &[Facing],
    words: &[u8],
) -> Result<Option<OutsideLine>, EventEnd>
    ensures read { IfOk result (λ read. MatchOption read ⊥
        (λ outside. SpellsOutside set_up.now.known facing.now (sending_text words.now) outside)) }
    ensures refused { (number : ℕ) → IsErrOf result (EventEnd.Refused number)
        → NoSending set_up.now.known facing.now (words_of words.now) number }
{
    let (first, rest) = first_word(words)?;
    let device = read_end(alloc, set_up, first)?;
    let Some(chars) = read_chars(alloc, rest)? else {
        return Err(EventEnd::Refused(BAD_CHARACTER));
    };
    match port_beside(facing, device) {
        Some(port) => Ok(Some(OutsideLine::Sent(Facing { device, port }, chars))),
        None => Err(EventEnd::Refused(NOT_LINKED)),
    }
}

/// A line by whose words a port takes turns, if it faces out.
fn read_pump(
    set_up: &SetUp,
    facing: &[Facing],
    words: &[u8],
) -> Result<Option<OutsideLine>, EventEnd>
    ensures read { IfOk result (λ read. MatchOption read
        (IsOtherPump set_up.now.known facing.now (words_of words.now))
        (λ outside. SpellsOutside set_up.now.known facing.now (pump_text words.now) outside)) }
    ensures refused { (number : ℕ) → IsErrOf result (EventEnd.Refused number)
        → NoTurns set_up.now.known facing.now (words_of words.now) number }
{
    let Some(turns) = pump_words(set_up, facing, words) else {
        return Ok(None);
    };
    match read_count(turns.count) {
        Ok(count) => Ok(Some(OutsideLine::Pump(turns.port, count))),
        Err(reason) => Err(EventEnd::Refused(reason)),
    }
}

/// A port that faces out, and the words that say how many turns it takes.
#[derive(Clone, Copy)]
struct Turns<'t> {
    port: PortRef,
    count: &'t [u8],
}

/// The first of these words, if it names a port that faces out, and those that follow it.
fn pump_words<'t>(set_up: &SetUp, facing: &[Facing], words: &'t [u8]) -> Option<Turns<'t>>
    ensures { MatchOption result
        (IsOtherPump set_up.now.known facing.now (words_of words.now))
        (λ turns. IsPump set_up.now.known facing.now (words_of words.now) turns.port
        (words_of turns.count.now)) }
{
    let Ok((first, count)) = first_word(words) else {
        return None;
    };
    let port = facing_port(set_up, facing, first)?;
    Some(Turns { port, count })
}

/// The number of turns that a text is, or the reason why it is none.
fn read_count(text: &[u8]) -> Result<u32, u8>
    ensures { MatchResult result (IsTurnCount (words_of text.now)) (NoCount (words_of text.now)) }
{
    let Some(word) = last_word(text) else {
        return Err(NO_FORM);
    };
    match read_number(word) {
        Some(count) if 1 <= count && count <= MOST_TURNS => Ok(count),
        _ => Err(BAD_NUMBER),
    }
}

/// A line by whose words the time-out of a port fires, if it faces out.
fn read_timeout(set_up: &SetUp, facing: &[Facing], words: &[u8]) -> Option<OutsideLine>
    ensures { MatchOption result
        (IsOtherTimeout set_up.now.known facing.now (words_of words.now))
        (λ outside. SpellsOutside set_up.now.known facing.now (timeout_text words.now) outside) }
{
    let word = last_word(words)?;
    let port = facing_port(set_up, facing, word)?;
    Some(OutsideLine::Timeout(port))
}

/// The port that a word names, if it faces out.
fn facing_port(set_up: &SetUp, facing: &[Facing], word: &[u8]) -> Option<PortRef>
    ensures { MatchOption result (NamesNoFacing set_up.now.known facing.now word.now)
        (λ port. NamesFacing set_up.now.known facing.now word.now port) }
{
    match set_up.read_port(word) {
        Some(port) if faces_out(facing, port) => Some(port),
        _ => None,
    }
}

/// The port that a word names, or the reason why the line `settle` of it is refused.
fn read_end(alloc: Global, set_up: &SetUp, word: &[u8]) -> Result<PortRef, EventEnd>
    ensures port { IfOk result (λ port. PortOf set_up.now.known word.now (Some port)) }
    ensures none { (number : ℕ) → IsErrOf result (EventEnd.Refused number)
        → NoPort set_up.now.known word.now number }
{
    if let Some(port) = set_up.read_port(word) {
        return Ok(port);
    }
    let line = settle_line(alloc, word)?;
    match set_up.read_event(alloc, line.as_slice()) {
        Ok(_) => unreachable!(),
        Err(end) => Err(end),
    }
}

/// The first word of a text, and what follows it. A text of one word has no form.
fn first_word(text: &[u8]) -> Result<(&[u8], &[u8]), EventEnd>
    ensures more { IfOk result (λ found. words_of text.now ≡ found.0.now ∷ words_of found.1.now) }
    ensures one { OnErr result (length (words_of text.now) ≡ 1) }
    ensures no_form { IfErr result (λ end. end ≡ EventEnd.Refused 1) }
{
    match split_word(text) {
        (word, Some(rest)) => Ok((word, rest)),
        (_, None) => Err(EventEnd::Refused(NO_FORM)),
    }
}

/// The one word of a text, if it has no other.
fn last_word(text: &[u8]) -> Option<&[u8]>
    ensures { MatchOption result (2 ≤ length (words_of text.now))
        (λ word. words_of text.now ≡ word.now ∷ []) }
{
    match split_word(text) {
        (word, None) => Some(word),
        (_, Some(_)) => None,
    }
}

/// The line of a script that has the link of the port of a word settle.
fn settle_line(alloc: Global, word: &[u8]) -> Result<Vec<u8>, AllocError>
    ensures { IfOk result (λ line. line.items ≡ settle_text word.now) }
{
    let mut line = Vec::new(alloc);
    line.extend_from_slice(b"settle ")?;
    line.extend_from_slice(word)?;
    Ok(line)
}

/// Characters, one a word, or none if a word is none.
fn read_chars(alloc: Global, text: &[u8]) -> Result<Option<Vec<Char>>, AllocError>
    ensures { IfOk result (λ read. MatchOption read (AreNoChars (words_of text.now))
        (λ chars. AreChars (words_of text.now) chars.items)) }
{
    let mut chars = Vec::new(alloc);
    let mut left = Some(text);
    while let Some(text) = left {
        let (word, rest) = split_word(text);
        let Some(c) = read_char(word) else {
            return Ok(None);
        };
        chars.push(c)?;
        left = rest;
    }
    Ok(Some(chars))
}
