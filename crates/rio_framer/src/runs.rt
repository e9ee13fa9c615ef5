//! Runs of characters, whose data and whole symbols are taken at once.
ghost use Rattle.std.specs.Prelude.{IsTrue, ◌≡◌, ◌≤◌, ◌<◌, ℕ, List, [], ◌∷◌, None, IfSome, ◌++◌, length, take, drop};
ghost use Rattle.link_model.specs.ReadingSpelt.{data_chars};
ghost use Rattle.rio_framer.specs.Parts.{StartsWithSymbol, StartsWithData};

use crate::events::{Events, Told};
use crate::framer::{Framer, FramerMode};
use link_model::{CharKind, Pending, char_kind};
use rio_chars::Char;
use rio_packets::MAX_BYTES;
use rio_symbols::Delimiter;

/// The fewest data characters that are taken at once: for fewer, an array of bytes does not pay.
const FEWEST: usize = 8;

/// How many characters are copied at once.
const BLOCK: usize = 16;

impl Framer {
    ghost use Rattle.rio_symbols.specs.Spelling.{spelled};
    ghost use Rattle.link_model.specs.Places.{opened, place as place_of, finished};
    ghost use Rattle.link_model.specs.Fronts.{telling_front};
    ghost use Rattle.rio_framer.specs.Framing.{framing_at, framing_after};
    ghost use Rattle.rio_framer.specs.Giving.{listed, events_given, told_of_events, IsPaired};
    ghost use Rattle.rio_framer.specs.Parts.{IsPart, TakesBytes, with_bytes};

    /// Takes characters up to and with the first that tells an event, or all where none does, and
    /// answers their number and what the last of them tells. A packet that it ended stays where it
    /// is, and is lent by [`Framer::ended`] until the next call that takes characters. To read the
    /// characters of a list run by run is to read it character by character:
    /// `link_model::events_go_by_fronts`.
    pub fn read_run(&mut self, chars: &[Char]) -> (usize, Told)
        ensures count { result.0 ≡ (telling_front self.old.place chars.now).count }
        ensures told { result.1
            ≡ told_of_events (telling_front self.old.place chars.now).step.gives }
        ensures state { self.new ≡ framing_after (telling_front self.old.place chars.now).step }

        ensures within { result.0 ≤ length chars.now }
        ensures some { 0 < length chars.now → 0 < result.0 }
    {
        self.forget();
        let mut rest = chars;
        while !rest.is_empty() {
            let (count, told) = self.read_part(rest);
            rest = rest.split_at(count).1;
            match told {
                Told::Nothing => {}
                told => return (chars.len() - rest.len(), told),
            }
        }
        (chars.len(), Told::Nothing)
    }

    /// Takes characters, 1 to 4,096, up to and with the first that gives an event, or all where
    /// none does, and answers their number and the events: as [`Framer::feed`] of each in order.
    /// [`Framer::read_run`] is the same with no packet by value.
    pub fn feed_run(&mut self, chars: &[Char]) -> (u16, Events)
        requires least { 1 ≤ length chars.now }
        requires most { length chars.now ≤ 4096 }
        ensures count { result.0 ≡ (telling_front self.old.place chars.now).count }
        ensures exact { result.1
            ≡ events_given (telling_front self.old.place chars.now).step.gives }
        ensures state { self.new ≡ framing_after (telling_front self.old.place chars.now).step }

        ensures gives { listed result.1.first result.1.second
            ≡ (telling_front self.old.place chars.now).step.gives }
        ensures paired { IsPaired result.1.first result.1.second }
    {
        let (count, told) = self.read_run(chars);
        (count as u16, self.events(told))
    }

    /// Takes the first of the characters, or the data characters or the whole symbol in front at
    /// once.
    fn read_part(&mut self, chars: &[Char]) -> (usize, Told)
        requires some { 0 < length chars.now }
        requires ended { self.old.ended ≡ None }
        ensures { IsPart self.old.place chars.now result.0 result.1 self.new }
    {
        let room = self.room();
        if room >= FEWEST && starts_with_eight(chars) {
            return (self.add_data(chars, room), Told::Nothing);
        }
        if self.is_between() {
            if let Some((delimiter, x, y, z)) = whole_symbol(chars) {
                let told = self.read_symbol(delimiter, x, y, z);
                return (4, told);
            }
        }
        let told = self.take(char_kind(chars[0]));
        (1, told)
    }

    /// How many data characters the packet in progress takes: none if there is none.
    fn room(&self) -> usize
        ensures most { result ≤ 276 }
        ensures takes { 0 < result → TakesBytes self.now.place.text self.now.place.pending result }
    {
        match (self.mode, self.pending) {
            (FramerMode::InPacket, Pending::Nothing) if !self.ended => {
                MAX_BYTES - usize::from(self.building.len())
            }
            _ => 0,
        }
    }

    /// The data characters of a packet that come first, as many as there is room for. Answers their
    /// number.
    fn add_data(&mut self, chars: &[Char], room: usize) -> usize
        requires ended { self.old.ended ≡ None }
        requires some { 0 < room }
        requires most { room ≤ 276 }
        requires takes { TakesBytes self.old.place.text self.old.place.pending room }
        requires starts { StartsWithData 8 chars.now }
        ensures { IsPart self.old.place chars.now result Told.Nothing self.new }
    {
        let mut bytes = [0; MAX_BYTES];
        let count = copy_data(&mut bytes, chars, room);
        self.add_bytes(&bytes[..count]);
        count
    }

    /// Bytes of a packet.
    fn add_bytes(&mut self, bytes: &[u8])
        requires ended { self.old.ended ≡ None }
        requires takes { TakesBytes self.old.place.text self.old.place.pending (length bytes.now) }
        ensures { self.new
            ≡ framing_at (place_of (with_bytes self.old.place.text bytes.now) Pending.Nothing) }
    {
        self.building.push_all(bytes);
    }

    /// Whether no symbol is in progress.
    fn is_between(&self) -> bool
        ensures { IsTrue result → (self.now.place.pending ≡ Pending.Nothing) }
    {
        match self.pending {
            Pending::Nothing => true,
            _ => false,
        }
    }

    /// The delimiter and the three bytes of a symbol, at once.
    fn read_symbol(&mut self, delimiter: Delimiter, x: u8, y: u8, z: u8) -> Told
        requires { self.old.ended ≡ None }
        ensures state { self.new
            ≡ framing_after (finished (opened self.old.place.text) delimiter (spelled x y z)) }
        ensures told { result
            ≡ told_of_events
            (finished (opened self.old.place.text) delimiter (spelled x y z)).gives }
    {
        self.open(delimiter);
        self.finish(delimiter, [x, y, z])
    }
}

/// Whether eight data characters come first.
fn starts_with_eight(chars: &[Char]) -> bool
    ensures { IsTrue result → StartsWithData 8 chars.now }
{
    match chars {
        [
            Char::Data(a),
            Char::Data(b),
            Char::Data(c),
            Char::Data(d),
            Char::Data(e),
            Char::Data(f),
            Char::Data(g),
            Char::Data(h),
            ..
        ] => true,
        _ => false,
    }
}

/// Copies the bytes of the data characters that come first, as many as there is room for. Answers
/// their number.
fn copy_data(bytes: &mut [u8], chars: &[Char], room: usize) -> usize
    requires { room ≤ length bytes.old }
    ensures most { result ≤ room }
    ensures len { length bytes.new ≡ length bytes.old }
    ensures is { chars.now ≡ data_chars (take result bytes.new) ++ drop result chars.now }
    ensures some { 0 < room → StartsWithData 8 chars.now → 0 < result }
{
    let most = chars.len().min(room);
    for i in copy_blocks(bytes, chars, most)..most {
        let Char::Data(byte) = chars[i] else {
            return i;
        };
        bytes[i] = byte;
    }
    most
}

/// Copies the bytes of the data characters that come first, a block at a time, up to a number of
/// them. Answers how many they are.
fn copy_blocks(bytes: &mut [u8], chars: &[Char], most: usize) -> usize
    requires chars { most ≤ length chars.now }
    requires bytes { most ≤ length bytes.old }
    ensures most { result ≤ most }
    ensures len { length bytes.new ≡ length bytes.old }
    ensures is { data_chars (take result bytes.new) ≡ take result chars.now }
{
    let mut i = 0;
    while most - i >= BLOCK {
        let end = i + BLOCK;
        if !copy_block(&mut bytes[i..end], &chars[i..end]) {
            return i;
        }
        i = end;
    }
    i
}

/// Copies the bytes of characters, and answers whether all of them are data. Only the end of the
/// loop asks for that, so that the compiler can copy many at once.
fn copy_block(bytes: &mut [u8], chars: &[Char]) -> bool
    requires { length bytes.old ≡ length chars.now }
    ensures len { length bytes.new ≡ length bytes.old }
    ensures is { IsTrue result → data_chars bytes.new ≡ chars.now }
{
    let mut are_data = true;
    for i in 0..chars.len() {
        bytes[i] = chars[i].byte();
        are_data = are_data & chars[i].is_data();
    }
    are_data
}

/// The delimiter and the bytes of a symbol, if one comes first and is not broken off.
fn whole_symbol(chars: &[Char]) -> Option<(Delimiter, u8, u8, u8)>
    ensures { IfSome result (λ found. StartsWithSymbol found.0 found.1 found.2 found.3 chars.now) }
{
    match chars {
        [first, Char::Data(x), Char::Data(y), Char::Data(z), ..] => match char_kind(*first) {
            CharKind::Opens(delimiter) => Some((delimiter, *x, *y, *z)),
            _ => None,
        },
        _ => None,
    }
}
