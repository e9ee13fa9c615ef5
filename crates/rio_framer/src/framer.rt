//! The framer: what it keeps, a character at a time, and what it tells.
ghost use Rattle.std.specs.Prelude.{◌≡◌, ℕ, Some, None, IsSome, IfOk, MatchResult};

use crate::events::{Events, Told};
use link_model::{Event, Pending, char_kind};
use rio_chars::Char;
use rio_packets::{Building, Cause, Packet};
use std::marker::Model;

/// What is read, apart from a symbol in progress.
#[derive(Clone, Copy, Debug, PartialEq, Eq)]
pub(crate) enum FramerMode {
    /// Neither a packet nor skipped data.
    Outside,
    /// Data that is skipped, up to an idle or a delimiter.
    Skipping,
    /// A packet, of which the bytes so far are kept.
    InPacket,
}

/// Takes the characters of a link, one after another, and tells what they say (RapidIO Interconnect
/// Specification 1.3, Part 6, control symbols and packet delimiting; what follows an error by this
/// project's profile, `docs/characters.md`).
///
/// ```text
///                     idle, delimiter                        start-of-packet
///          +-------------------------------+      +----------------------------------+
///          |                               v      |                                  v
///     +----------+    data, stray,    +-----------+     end-of-packet, stomp,   +----------+
///     | Skipping | <----------------- |  Outside  | <-------------------------- | InPacket |
///     +----------+    bad symbol      +-----------+   restart-from-retry,       +----------+
///          ^                                          link-request, idle          |   |  ^
///          |                                                                      |   +--+ data,
///          +----------------------------------------------------------------------+        other
///                     stray, bad symbol, more than 276 bytes                               symbols
///
///     a symbol in progress, which Outside and InPacket may have:
///
///     Nothing --delimiter--> Opened --data--> One --data--> Two --data--> a good or a bad symbol
///                               |              |             |
///                               +--------------+-------------+--> no data breaks it off,
///                                                                 and drops the packet:
///                                                                 delimiter: Outside, Opened
///                                                                 idle: Outside
///                                                                 stray: Skipping
/// ```
#[derive(Debug, Drop)]
pub struct Framer {
    pub(crate) mode: FramerMode,
    /// The bytes of the packet in progress, or of the one that the last character ended.
    pub(crate) building: Building,
    /// Whether the last character ended the packet.
    pub(crate) ended: bool,
    pub(crate) pending: Pending,
}

impl Model for Framer {
    ghost use Rattle.rio_framer.specs.Framing.{Framing, framing_of};

    ghost Value = { Framing };

    ghost view = { λ f. framing_of f.mode f.building f.pending f.ended };
}

impl Framer {
    ghost use Rattle.rio_packets.specs.LinkForm.{Passes};
    ghost use Rattle.link_model.specs.Places.{place_start, step, at_rest as rests};
    ghost use Rattle.rio_framer.specs.Framing.{framing_at, framing_after};
    ghost use Rattle.rio_framer.specs.Giving.{listed, events_given, told_of_events, events_by, IsPaired};

    /// Nothing is in progress.
    pub fn new() -> Framer
        ensures { result ≡ framing_at place_start }
    {
        Framer {
            mode: FramerMode::Outside,
            building: Building::new(),
            ended: false,
            pending: Pending::Nothing,
        }
    }

    /// Whether neither a symbol nor a packet is in progress.
    pub fn at_rest(&self) -> bool
        ensures { result ≡ rests self.now.place }
    {
        match (self.mode, self.pending) {
            (FramerMode::Outside | FramerMode::Skipping, Pending::Nothing) => true,
            _ => false,
        }
    }

    /// Takes the next character, and tells the events that it completes.
    pub fn feed(&mut self, c: Char) -> Events
        ensures place { self.new.place ≡ (step self.old.place c).place }
        ensures exact { result ≡ events_given (step self.old.place c).gives }
        ensures state { self.new ≡ framing_after (step self.old.place c) }

        ensures gives { listed result.first result.second ≡ (step self.old.place c).gives }
        ensures paired { IsPaired result.first result.second }
    {
        let told = self.read(c);
        self.events(told)
    }

    /// The packet that the last character ended: its ackID and its bytes with ackID 0, or the cause
    /// why its bytes carry none.
    pub fn ended(&self) -> Result<(u8, &[u8]), Cause>
        requires { IsSome self.now.ended }
        ensures event { MatchResult result
            (λ found. self.now.ended ≡ Some (Event.Pkt found.0 found.1.now))
            (λ cause. self.now.ended ≡ Some (Event.Bad cause)) }
        ensures passes { IfOk result (λ found. Passes found.1.now) }
    {
        match self.building.carried() {
            Ok((ack, form)) => Ok((ack, form)),
            Err(cause) => Err(cause),
        }
    }

    /// The events of an outcome, with the packet that ended by value.
    pub(crate) fn events(&self, told: Told) -> Events
        ensures { result ≡ events_by told self.now.ended }
    {
        let (first, second) = match told {
            Told::Nothing => (None, None),
            Told::Ctl(symbol) => (Some(Event::Ctl(symbol)), None),
            Told::Ends(symbol) => (self.ended_event(), Some(symbol)),
            Told::Bad(cause) => (Some(Event::Bad(cause)), None),
        };
        Events { first, second }
    }

    /// The event of the packet that the last character ended, if it ended one.
    fn ended_event(&self) -> Option<Event>
        ensures { result ≡ self.now.ended }
    {
        if !self.ended {
            return None;
        }
        match self.building.carried() {
            Ok((ack, form)) => Some(Event::Pkt(ack, Packet::from_form(form))),
            Err(cause) => Some(Event::Bad(cause)),
        }
    }

    /// Takes the next character.
    fn read(&mut self, c: Char) -> Told
        ensures state { self.new ≡ framing_after (step self.old.place c) }
        ensures told { result ≡ told_of_events (step self.old.place c).gives }
    {
        self.forget();
        self.take(char_kind(c))
    }

    /// Forgets the packet that the last character ended.
    pub(crate) fn forget(&mut self)
        ensures { self.new ≡ framing_at self.old.place }
    {
        if self.ended {
            self.building.clear();
            self.ended = false;
        }
    }

    /// A framer in the same place.
    pub(crate) fn copy(&self) -> Framer
        ensures { result ≡ self.now }
    {
        Framer {
            mode: self.mode,
            building: self.building.copy(),
            ended: self.ended,
            pending: self.pending,
        }
    }
}
