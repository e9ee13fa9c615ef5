//! What counts in the answers of a device that is judged with tolerance.
ghost use Rattle.std.specs.Prelude.{◌≡◌, ◌++◌, ◌∷◌, [], ◌↔◌, IsTrue, MatchOption, IfOk, OnOk, List};
ghost use Rattle.rio_chars.specs.declared.chars.Char.{Char as AChar};
ghost use Rattle.fabric_script.specs.Scripts.{pieces_of};
ghost use Rattle.fabric_script.specs.Words.{words_left};
ghost use Rattle.live_lines.specs.Lines.{with_feed};
ghost use Rattle.port_lines.specs.Requests.{SpellsGot};
ghost use Rattle.conform_lines.specs.Counting.{AnswerCounts, LineComesTo, LinesComeTo, SendsChars, counted_asked, counted_event, counted_told, counts_chars};

use fabric_script::split_word;
use link_model::Event;
use rio_chars::{Char, Chars, NoMemory, read_char};
use rio_framer::Framer;
use rio_packets::Packet;
use std::alloc::{AllocError, Global};

/// The most characters of a line: no line of a port has so many.
pub(crate) const MOST_CHARS: usize = 4_194_304;

/// Something that a device sent, as far as it counts.
#[derive(Debug, Drop)]
pub enum Counted {
    /// The first half of a symbol, which tells the sender of packets something: its stype0 and its
    /// ackID.
    Tells(u8, u8),
    /// The second half, which asks the receiver of packets something: its stype1 and its cmd.
    Asks(u8, u8),
    /// A packet, with its ackID.
    Carries(u8, Packet),
    /// Characters that are no symbol and no packet.
    Damages,
}

/// Whether two are the same.
pub(crate) fn counts_same(one: &Counted, other: &Counted) -> bool
    ensures { IsTrue result ↔ (one.now ≡ other.now) }
{
    match (one, other) {
        (Counted::Tells(s0, p0), Counted::Tells(other_s0, other_p0)) => {
            s0 == other_s0 && p0 == other_p0
        }
        (Counted::Asks(s1, cmd), Counted::Asks(other_s1, other_cmd)) => {
            s1 == other_s1 && cmd == other_cmd
        }
        (Counted::Carries(ack, packet), Counted::Carries(other_ack, other_packet)) => {
            ack == other_ack && packet == other_packet
        }
        (Counted::Damages, Counted::Damages) => true,
        _ => false,
    }
}

/// What an answer comes to.
#[derive(Drop)]
pub(crate) struct Counts {
    /// What was sent, as far as it counts.
    pub(crate) sent: Vec<Counted>,
    /// The other lines.
    pub(crate) other: Vec<u8>,
}

/// What an answer comes to for a reader of what is sent.
pub(crate) fn count_answer(
    alloc: Global,
    reader: &mut Framer,
    text: &[u8],
) -> Result<Counts, NoMemory>
    ensures { IfOk result (λ counts.
        LinesComeTo reader.old.place (pieces_of text.now) record {
          sent = counts.sent.items;
          other = counts.other.items;
          place = reader.new.place;
        }) }
{
    let mut counts = Counts {
        sent: Vec::new(alloc),
        other: Vec::new(alloc),
    };
    for line in text.split(|byte| *byte == b'\n') {
        count_line(alloc, reader, line, &mut counts)?;
    }
    Ok(counts)
}

/// Adds what a line comes to.
fn count_line(
    alloc: Global,
    reader: &mut Framer,
    line: &[u8],
    counts: &mut Counts,
) -> Result<(), NoMemory>
    ensures { OnOk result ((more : AnswerCounts) × LineComesTo reader.old.place line.now more
        × (counts.new.sent.items ≡ counts.old.sent.items ++ more.sent)
        × (counts.new.other.items ≡ counts.old.other.items ++ more.other)
        × (reader.new.place ≡ more.place)) }
{
    match read_sent(alloc, line)? {
        Some(chars) => count_chars(alloc, reader, chars.as_slice(), &mut counts.sent)?,
        None => push_line(&mut counts.other, line)?,
    }
    Ok(())
}

/// The characters that a line sends, if it is one that does.
pub(crate) fn read_sent(alloc: Global, line: &[u8]) -> Result<Option<Chars>, AllocError>
    ensures { IfOk result (λ read. MatchOption read
        ((chars : List AChar) → ¬ SendsChars line.now chars) (SendsChars line.now)) }
{
    match split_word(line) {
        (b"sent", rest) => read_words(alloc, rest),
        _ => Ok(None),
    }
}

/// The characters that words spell, if each spells one.
fn read_words(alloc: Global, words: Option<&[u8]>) -> Result<Option<Chars>, AllocError>
    ensures { IfOk result (λ read. MatchOption read
        ((chars : List AChar) → ¬ SpellsGot (words_left words.entry) chars)
        (SpellsGot (words_left words.entry))) }
{
    let mut chars = Vec::new(alloc);
    let mut left = words;
    while let Some(text) = left {
        let (word, rest) = split_word(text);
        let Some(c) = read_char(word) else {
            return Ok(None);
        };
        chars.push(c)?;
        left = rest;
    }
    Ok(Some(Chars::new(chars)))
}

/// Adds what characters say to a reader. If there are more than 4,194,304 of them, it is as if
/// memory were not given.
fn count_chars(
    alloc: Global,
    reader: &mut Framer,
    chars: &[Char],
    sent: &mut Vec<Counted>,
) -> Result<(), NoMemory>
    ensures sent { OnOk result (sent.new.items
        ≡ sent.old.items ++ (counts_chars reader.old.place chars.now).sent) }
    ensures place { OnOk result
        (reader.new.place ≡ (counts_chars reader.old.place chars.now).place) }
{
    if chars.len() > MOST_CHARS {
        return Err(NoMemory);
    }
    for found in reader.feed_all(alloc, chars)? {
        push_event(sent, found.1)?;
    }
    Ok(())
}

/// Adds what counts of an event.
fn push_event(sent: &mut Vec<Counted>, event: Event) -> Result<(), AllocError>
    ensures { OnOk result (sent.new.items ≡ sent.old.items ++ counted_event event) }
{
    match event {
        Event::Ctl(symbol) => {
            push_told(sent, symbol.s0, symbol.p0)?;
            push_asked(sent, symbol.s1, symbol.cmd)
        }
        Event::Pkt(ack, packet) => push(sent, Counted::Carries(ack, packet)),
        Event::Bad(_) => push(sent, Counted::Damages),
    }
}

/// Adds one.
fn push(sent: &mut Vec<Counted>, counted: Counted) -> Result<(), AllocError>
    ensures { OnOk result (sent.new.items ≡ sent.old.items ++ counted ∷ []) }
{
    sent.push(counted)?;
    Ok(())
}

/// Adds what the first half of a symbol tells, unless it is a status.
fn push_told(sent: &mut Vec<Counted>, s0: u8, p0: u8) -> Result<(), AllocError>
    ensures { OnOk result (sent.new.items ≡ sent.old.items ++ counted_told s0 p0) }
{
    match s0 {
        4 => Ok(()),
        _ => push(sent, Counted::Tells(s0, p0)),
    }
}

/// Adds what the second half of a symbol asks, unless it bounds a packet or says nothing.
fn push_asked(sent: &mut Vec<Counted>, s1: u8, cmd: u8) -> Result<(), AllocError>
    ensures { OnOk result (sent.new.items ≡ sent.old.items ++ counted_asked s1 cmd) }
{
    match s1 {
        0 | 2 | 7 => Ok(()),
        _ => push(sent, Counted::Asks(s1, cmd)),
    }
}

/// Adds a line and its line feed.
fn push_line(other: &mut Vec<u8>, line: &[u8]) -> Result<(), AllocError>
    ensures { OnOk result (other.new.items ≡ other.old.items ++ with_feed line.now) }
{
    other.extend_from_slice(line)?;
    other.extend_from_slice(b"\n")
}
