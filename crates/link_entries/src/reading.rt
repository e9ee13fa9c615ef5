//! The entries of the reading of characters.
ghost use Rattle.std.specs.Prelude.{◌≡◌, ℕ, List, Option};
ghost use Rattle.rio_symbols.specs.declared.characters.Delimiter.{Delimiter};
ghost use Rattle.link_model.specs.Prelude.{Fields, Text, Place, place_start, step};
ghost use Rattle.link_model.specs.Places.{outside, broken, finished};
ghost use Rattle.link_model.specs.declared.reading_kinds.CharKind.TheVariants.{Byte};
ghost use Rattle.link_model.specs.declared.reading_kinds.Pending.TheVariants.{Nothing};
ghost use Rattle.link_model.specs.Reading.{text_after};
ghost use Rattle.link_port.specs.Runs.{completed_events};
ghost use Rattle.link_entries.specs.ReadingEntries.{read_entry, ended_point_of, byte_entry, outside_entry, broken_entry, finished_entry, symbol_entry, no_symbol_entry, no_packet_entry};
ghost use Rattle.link_entries.specs.Readers.{text_kind, IsAt};

use crate::entry::ReadEntry;
use link_model::{CharKind, Pending, char_kind};
use link_port::Completed;
use rio_chars::Char;
use rio_packets::Cause;
use rio_symbols::stype1::{
    END_OF_PACKET, LINK_REQUEST, RESTART_FROM_RETRY, START_OF_PACKET, STOMP,
};

/// What a text is.
#[derive(Clone, Copy, Debug, PartialEq, Eq)]
pub enum TextKind {
    /// It stands between packets.
    Plain,
    /// Its data is skipped.
    Skipped,
    /// It stands within a packet.
    Within,
}

/// Where a reader stands, without the bytes of a packet in progress.
#[derive(Clone, Copy, Debug, PartialEq, Eq)]
pub struct Reader {
    /// The text.
    pub text: TextKind,
    /// What has come of a symbol.
    pub pending: Pending,
}

impl Reader {
    /// Nothing is in progress and nothing is skipped.
    pub fn new() -> Reader
        ensures { IsAt result place_start }
    {
        at(TextKind::Plain)
    }

    /// The entry that a character will meet, if any, by what it completes.
    pub fn entry(self, c: Char, completed: &Completed) -> Option<ReadEntry>
        ensures { (from : Place) (packet : List ℕ) → IsAt self from
            → completed_events completed.now packet ≡ (step from c).gives
            → result ≡ read_entry from c }
    {
        match (self.pending, char_kind(c)) {
            (Pending::Nothing, kind) => outside_entry(self.text, kind, completed),
            (Pending::Two(..), CharKind::Byte(_)) => finished_entry(self.text, completed),
            (_, kind) => broken_entry(kind),
        }
    }

    /// Where the reader stands after the character.
    pub fn after(self, c: Char, completed: &Completed) -> Reader
        ensures { (from : Place) (packet : List ℕ) → IsAt self from
            → completed_events completed.now packet ≡ (step from c).gives
            → IsAt result (step from c).place }
    {
        let text = self.text;
        match (self.pending, char_kind(c)) {
            (Pending::Nothing, kind) => after_outside(text, kind, completed),
            (Pending::Opened(d), CharKind::Byte(x)) => within_symbol(text, Pending::One(d, x)),
            (Pending::One(d, x), CharKind::Byte(y)) => within_symbol(text, Pending::Two(d, x, y)),
            (Pending::Two(..), CharKind::Byte(_)) => after_finished(text, completed),
            (_, kind) => after_broken(kind),
        }
    }
}

/// No symbol is in progress.
fn at(text: TextKind) -> Reader
    ensures { result ≡ record { text = text; pending = Nothing } }
{
    within_symbol(text, Pending::Nothing)
}

/// A symbol is in progress.
fn within_symbol(text: TextKind, pending: Pending) -> Reader
    ensures { result ≡ record { text = text; pending = pending } }
{
    Reader { text, pending }
}

/// The entry of a character while no symbol is in progress.
fn outside_entry(text: TextKind, kind: CharKind, completed: &Completed) -> Option<ReadEntry>
    ensures { (of : Text) (packet : List ℕ) → text ≡ text_kind of
        → result ≡ outside_entry of kind (completed_events completed.now packet) }
{
    match (text, kind) {
        (TextKind::Plain | TextKind::Within, CharKind::Opens(_)) => None,
        (TextKind::Plain, CharKind::Idle) => Some(ReadEntry::IdleOutside),
        (TextKind::Plain, CharKind::Byte(_)) => Some(ReadEntry::DataOutside),
        (TextKind::Plain, CharKind::Stray) => Some(ReadEntry::StrayOutside),
        (TextKind::Skipped, CharKind::Opens(_) | CharKind::Idle) => Some(ReadEntry::SkippingEnds),
        (TextKind::Skipped, CharKind::Byte(_) | CharKind::Stray) => Some(ReadEntry::Skipped),
        (TextKind::Within, CharKind::Idle) => Some(ReadEntry::IdleInPacket),
        (TextKind::Within, CharKind::Byte(_)) => byte_entry(completed),
        (TextKind::Within, CharKind::Stray) => Some(ReadEntry::StrayInPacket),
    }
}

/// The entry of a byte in a packet.
fn byte_entry(completed: &Completed) -> Option<ReadEntry>
    ensures { (packet : List ℕ) → result ≡ byte_entry (completed_events completed.now packet) }
{
    match completed {
        Completed::Nothing => None,
        _ => Some(ReadEntry::TooLong),
    }
}

/// The entry of a character, no data, while a symbol is in progress.
fn broken_entry(kind: CharKind) -> Option<ReadEntry>
    ensures { result ≡ broken_entry kind }
{
    match kind {
        CharKind::Opens(_) => Some(ReadEntry::DelimiterInSymbol),
        CharKind::Idle => Some(ReadEntry::IdleInSymbol),
        CharKind::Stray => Some(ReadEntry::StrayInSymbol),
        CharKind::Byte(_) => None,
    }
}

/// The entry of the third byte of a symbol.
fn finished_entry(text: TextKind, completed: &Completed) -> Option<ReadEntry>
    ensures { (of : Text) (packet : List ℕ) → text ≡ text_kind of
        → result ≡ finished_entry of (completed_events completed.now packet) }
{
    match completed {
        Completed::Symbol(symbol) => symbol_entry(text, symbol.s1),
        Completed::Bad(cause) => no_symbol_entry(*cause),
        Completed::NoPacket(cause, _) => no_packet_entry(*cause),
        Completed::Nothing | Completed::Packet(..) => None,
    }
}

/// The entry of a symbol that ends no packet, by its stype1.
fn symbol_entry(text: TextKind, s1: u8) -> Option<ReadEntry>
    ensures { (of : Text) → text ≡ text_kind of → result ≡ symbol_entry of s1 }
{
    match (text, s1) {
        (TextKind::Plain, END_OF_PACKET) => Some(ReadEntry::EndOutside),
        (TextKind::Plain | TextKind::Skipped, _) => None,
        (TextKind::Within, STOMP) => Some(ReadEntry::StompInPacket),
        (TextKind::Within, RESTART_FROM_RETRY | LINK_REQUEST) => Some(ReadEntry::BrokenOff),
        (TextKind::Within, _) => Some(ReadEntry::SymbolInPacket),
    }
}

/// The entry of characters that are no symbol.
fn no_symbol_entry(cause: Cause) -> Option<ReadEntry>
    ensures { result ≡ no_symbol_entry cause }
{
    match cause {
        Cause::BadSymbol => Some(ReadEntry::NoSymbol),
        Cause::General => Some(ReadEntry::WrongDelimiter),
        Cause::UnexpectedAck | Cause::BadPacket | Cause::BadChar => None,
    }
}

/// The entry of a packet that ends and is none.
fn no_packet_entry(cause: Cause) -> Option<ReadEntry>
    ensures { result ≡ no_packet_entry cause }
{
    match cause {
        Cause::BadPacket => Some(ReadEntry::BadCrc),
        Cause::General => Some(ReadEntry::TooShort),
        Cause::UnexpectedAck | Cause::BadSymbol | Cause::BadChar => None,
    }
}

/// Where a reader stands after a character, if no symbol was in progress.
fn after_outside(text: TextKind, kind: CharKind, completed: &Completed) -> Reader
    ensures { (of : Text) (packet : List ℕ) → text ≡ text_kind of
        → completed_events completed.now packet ≡ (outside of kind).gives
        → IsAt result (outside of kind).place }
{
    match (text, kind) {
        (TextKind::Plain | TextKind::Skipped, CharKind::Opens(d)) => {
            within_symbol(TextKind::Plain, Pending::Opened(d))
        }
        (TextKind::Within, CharKind::Opens(d)) => within_symbol(text, Pending::Opened(d)),
        (_, CharKind::Idle) => at(TextKind::Plain),
        (TextKind::Within, CharKind::Byte(_)) => after_byte(completed),
        (_, CharKind::Byte(_) | CharKind::Stray) => at(TextKind::Skipped),
    }
}

/// Where a reader stands after a byte in a packet.
fn after_byte(completed: &Completed) -> Reader
    ensures { (bytes : List ℕ) (byte : ℕ) (packet : List ℕ)
        → completed_events completed.now packet ≡ (outside (Text.Within bytes) (Byte byte)).gives
        → IsAt result (outside (Text.Within bytes) (Byte byte)).place }
{
    match completed {
        Completed::Nothing => at(TextKind::Within),
        _ => at(TextKind::Skipped),
    }
}

/// Where a reader stands after a character, no data, that breaks a symbol off.
fn after_broken(kind: CharKind) -> Reader
    ensures { IsAt result (broken kind).place }
{
    match kind {
        CharKind::Opens(d) => within_symbol(TextKind::Plain, Pending::Opened(d)),
        CharKind::Idle => at(TextKind::Plain),
        CharKind::Stray | CharKind::Byte(_) => at(TextKind::Skipped),
    }
}

/// Where a reader stands after the third byte of a symbol.
fn after_finished(text: TextKind, completed: &Completed) -> Reader
    ensures { (of : Text) (d : Delimiter) (spells : Option Fields) (packet : List ℕ)
        → text ≡ text_kind of
        → completed_events completed.now packet ≡ (finished of d spells).gives
        → IsAt result (finished of d spells).place }
{
    match completed {
        Completed::Symbol(symbol) | Completed::Packet(_, symbol) | Completed::NoPacket(_, symbol) =>
            at(text_after(text, symbol.s1)),
        Completed::Nothing | Completed::Bad(_) => at(TextKind::Skipped),
    }
}

/// The text after a symbol, by its stype1.
fn text_after(text: TextKind, s1: u8) -> TextKind
    ensures { (of : Text) → text ≡ text_kind of → result ≡ text_kind (text_after of s1) }
{
    match s1 {
        START_OF_PACKET => TextKind::Within,
        STOMP..=LINK_REQUEST => TextKind::Plain,
        _ => text,
    }
}

/// The point that what a character completed met beside its entry, if any: the next start-of-packet
/// ends a packet.
pub fn ended_point(completed: &Completed) -> Option<ReadEntry>
    ensures { (packet : List ℕ)
        → result ≡ ended_point_of (completed_events completed.now packet) }
{
    match completed {
        Completed::Packet(_, symbol) | Completed::NoPacket(_, symbol)
            if symbol.s1 == START_OF_PACKET => { Some(ReadEntry::EndedByNext) }
        _ => None,
    }
}
