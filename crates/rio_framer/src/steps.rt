//! The step of a framer: what a character of each kind does.
ghost use Rattle.std.specs.Prelude.{◌≡◌, ℕ, None, true};

use crate::events::Told;
use crate::framer::{Framer, FramerMode};
use link_model::{CharKind, Pending};
use rio_packets::Cause;
use rio_symbols::{Delimiter, Symbol, from_bytes, stype1};

impl Framer {
    ghost use Rattle.rio_symbols.specs.Spelling.{spelled_in};
    ghost use Rattle.link_model.specs.Reading.{Plain, Skipped, told};
    ghost use Rattle.link_model.specs.Places.{place as place_of, symbol_taken, step_by, outside as outside_step, broken as broken_step, finished};
    ghost use Rattle.rio_framer.specs.Framing.{framing_at, framing_after, IsInPacket};
    ghost use Rattle.rio_framer.specs.Giving.{told_of_events};

    /// Takes a character of this kind.
    pub(crate) fn take(&mut self, kind: CharKind) -> Told
        requires { self.old.ended ≡ None }
        ensures state { self.new
            ≡ framing_after (step_by self.old.place.text self.old.place.pending kind) }
        ensures told { result
            ≡ told_of_events (step_by self.old.place.text self.old.place.pending kind).gives }
    {
        match self.pending {
            Pending::Nothing => self.outside(kind),
            Pending::Opened(delimiter) => match kind {
                CharKind::Byte(x) => self.wait(Pending::One(delimiter, x)),
                _ => self.broken(kind),
            },
            Pending::One(delimiter, x) => match kind {
                CharKind::Byte(y) => self.wait(Pending::Two(delimiter, x, y)),
                _ => self.broken(kind),
            },
            Pending::Two(delimiter, x, y) => match kind {
                CharKind::Byte(z) => self.finish(delimiter, [x, y, z]),
                _ => self.broken(kind),
            },
        }
    }

    /// A character while no symbol is in progress.
    fn outside(&mut self, kind: CharKind) -> Told
        requires nothing { self.old.place.pending ≡ Pending.Nothing }
        requires ended { self.old.ended ≡ None }
        ensures state { self.new ≡ framing_after (outside_step self.old.place.text kind) }
        ensures told { result ≡ told_of_events (outside_step self.old.place.text kind).gives }
    {
        match kind {
            CharKind::Opens(delimiter) => self.open(delimiter),
            CharKind::Byte(byte) => self.data(byte),
            CharKind::Idle => self.idle(),
            CharKind::Stray => self.stray(),
        }
    }

    /// A delimiter while no symbol is in progress.
    pub(crate) fn open(&mut self, delimiter: Delimiter) -> Told
        requires { self.old.ended ≡ None }
        ensures state { self.new
            ≡ framing_after (outside_step self.old.place.text (CharKind.Opens delimiter)) }
        ensures told { result ≡ Told.Nothing }
    {
        if let FramerMode::Skipping = self.mode {
            self.mode = FramerMode::Outside;
        }
        self.pending = Pending::Opened(delimiter);
        Told::Nothing
    }

    /// A data character while no symbol is in progress.
    fn data(&mut self, byte: u8) -> Told
        requires nothing { self.old.place.pending ≡ Pending.Nothing }
        requires ended { self.old.ended ≡ None }
        ensures state { self.new
            ≡ framing_after (outside_step self.old.place.text (CharKind.Byte byte)) }
        ensures told { result
            ≡ told_of_events (outside_step self.old.place.text (CharKind.Byte byte)).gives }
    {
        match self.mode {
            FramerMode::Outside => self.skip(Cause::BadChar),
            FramerMode::Skipping => Told::Nothing,
            FramerMode::InPacket => self.add(byte),
        }
    }

    /// A data character of a packet.
    fn add(&mut self, byte: u8) -> Told
        requires nothing { self.old.place.pending ≡ Pending.Nothing }
        requires ended { self.old.ended ≡ None }
        requires within { IsInPacket self.old.place.text }
        ensures state { self.new
            ≡ framing_after (outside_step self.old.place.text (CharKind.Byte byte)) }
        ensures told { result
            ≡ told_of_events (outside_step self.old.place.text (CharKind.Byte byte)).gives }
    {
        if self.building.is_full() {
            return self.skip(Cause::General);
        }
        self.building.push(byte);
        Told::Nothing
    }

    /// An idle character while no symbol is in progress.
    fn idle(&mut self) -> Told
        requires nothing { self.old.place.pending ≡ Pending.Nothing }
        requires ended { self.old.ended ≡ None }
        ensures state { self.new ≡ framing_after (outside_step self.old.place.text CharKind.Idle) }
        ensures told { result
            ≡ told_of_events (outside_step self.old.place.text CharKind.Idle).gives }
    {
        match self.mode {
            FramerMode::InPacket => self.restart(Pending::Nothing),
            FramerMode::Skipping | FramerMode::Outside => {
                self.mode = FramerMode::Outside;
                Told::Nothing
            }
        }
    }

    /// A stray character while no symbol is in progress.
    fn stray(&mut self) -> Told
        requires nothing { self.old.place.pending ≡ Pending.Nothing }
        requires ended { self.old.ended ≡ None }
        ensures state { self.new ≡ framing_after (outside_step self.old.place.text CharKind.Stray) }
        ensures told { result
            ≡ told_of_events (outside_step self.old.place.text CharKind.Stray).gives }
    {
        if let FramerMode::Skipping = self.mode {
            return Told::Nothing;
        }
        self.skip(Cause::BadChar)
    }

    /// A byte of a symbol, which is not whole yet.
    fn wait(&mut self, pending: Pending) -> Told
        requires { self.old.ended ≡ None }
        ensures state { self.new ≡ framing_at (place_of self.old.place.text pending) }
        ensures told { result ≡ Told.Nothing }
    {
        self.pending = pending;
        Told::Nothing
    }

    /// A character, no data, while a symbol is in progress.
    fn broken(&mut self, kind: CharKind) -> Told
        requires { self.old.ended ≡ None }
        ensures state { self.new ≡ framing_after (broken_step kind) }
        ensures told { result ≡ told_of_events (broken_step kind).gives }
    {
        match kind {
            CharKind::Opens(delimiter) => self.restart(Pending::Opened(delimiter)),
            CharKind::Idle => self.restart(Pending::Nothing),
            CharKind::Byte(_) | CharKind::Stray => self.skip(Cause::BadChar),
        }
    }

    /// Drops the symbol and the packet in progress, since a character broke one of them off.
    fn restart(&mut self, pending: Pending) -> Told
        requires { self.old.ended ≡ None }
        ensures state { self.new ≡ framing_at (place_of Plain pending) }
        ensures told { result ≡ Told.Bad Cause.BadChar }
    {
        self.mode = FramerMode::Outside;
        self.pending = pending;
        Told::Bad(Cause::BadChar)
    }

    /// Drops what is in progress, and skips data from now on.
    fn skip(&mut self, cause: Cause) -> Told
        requires { self.old.ended ≡ None }
        ensures state { self.new ≡ framing_at (place_of Skipped Pending.Nothing) }
        ensures told { result ≡ Told.Bad cause }
    {
        self.mode = FramerMode::Skipping;
        self.pending = Pending::Nothing;
        Told::Bad(cause)
    }

    /// The delimiter and the three bytes of a symbol.
    pub(crate) fn finish(&mut self, delimiter: Delimiter, bytes: [u8; 3]) -> Told
        requires { self.old.ended ≡ None }
        ensures state { self.new
            ≡ framing_after (finished self.old.place.text delimiter (spelled_in bytes)) }
        ensures told { result
            ≡ told_of_events (finished self.old.place.text delimiter (spelled_in bytes)).gives }
    {
        match from_bytes(&bytes) {
            Ok(symbol) if symbol.may_follow(delimiter) => self.meet(symbol),
            Ok(_) => self.skip(Cause::General),
            Err(_) => self.skip(Cause::BadSymbol),
        }
    }

    /// A symbol that may follow its delimiter, by its stype1.
    fn meet(&mut self, symbol: Symbol) -> Told
        requires { self.old.ended ≡ None }
        ensures state { self.new ≡ framing_after (symbol_taken self.old.place.text symbol true) }
        ensures told { result ≡ told_of_events (told self.old.place.text symbol) }
    {
        self.pending = Pending::Nothing;
        match (self.mode, symbol.s1) {
            (FramerMode::InPacket, stype1::START_OF_PACKET) => {
                self.ended = true;
                Told::Ends(symbol)
            }
            (FramerMode::InPacket, stype1::END_OF_PACKET) => {
                self.ended = true;
                self.mode = FramerMode::Outside;
                Told::Ends(symbol)
            }
            (_, stype1::START_OF_PACKET) => {
                self.building.clear();
                self.mode = FramerMode::InPacket;
                Told::Ctl(symbol)
            }
            (_, stype1::STOMP..=stype1::LINK_REQUEST) => {
                self.mode = FramerMode::Outside;
                Told::Ctl(symbol)
            }
            _ => Told::Ctl(symbol),
        }
    }
}
