//! The signals of a port in a wave.

use crate::pen::{Pen, declare};
use link_model::{CharKind, char_kind};
use rio_chars::Char;
use rio_symbols::Symbol;
use rio_symbols::stype0::STATUS;
use rio_symbols::stype1::NOP;
use std::alloc::AllocError;
use view_words::{Ear, Halves, Hear, Heard, Text, listen, stype0_name, stype1_name};

/// What is read at one end of a wire.
#[derive(Clone, Copy, PartialEq)]
enum Reads {
    Idle,
    Symbol,
    Packet,
    Bad,
}

/// How many signals a probe has.
const OF_PROBE: u32 = 5;

/// The signals of one end of a wire.
#[derive(Drop)]
struct Probe {
    ear: Ear,
    first: u32,
    /// How many characters of a symbol are to come.
    left: u8,
    c: Option<Char>,
    reads: Reads,
    symbol: Option<Symbol>,
    ack: Option<u8>,
}

impl Default for Probe {
    fn default() -> Self {
        Probe {
            ear: Ear::default(),
            first: 0,
            left: 0,
            c: None,
            reads: Reads::Idle,
            symbol: None,
            ack: None,
        }
    }
}

impl Probe {
    /// Declares the signals, from this number on.
    fn declare(&mut self, first: u32, name: &[u8], out: &mut Text) {
        self.first = first;
        out.put(b"$scope module ");
        out.put(name);
        out.put(b" $end\n");
        declare(out, b"wire 1", first, b"k");
        declare(out, b"wire 8", first.saturating_add(1), b"byte [7:0]");
        declare(out, b"string 1", first.saturating_add(2), b"reads");
        declare(out, b"string 1", first.saturating_add(3), b"symbol");
        declare(out, b"wire 8", first.saturating_add(4), b"ack [7:0]");
        out.put(b"$upscope $end\n");
    }

    /// The values of all signals.
    fn put_all(&self, pen: &mut Pen<'_>) {
        self.put_char(pen, self.c);
        self.put_reads(pen);
        match &self.symbol {
            Some(symbol) => self.put_symbol(pen, symbol),
            None => pen.put_words(self.first.saturating_add(3), b"none", b""),
        }
        pen.put_byte(self.first.saturating_add(4), self.ack);
    }

    /// A character is on the wire, or none.
    fn show(&mut self, c: Option<Char>, pen: &mut Pen<'_>) {
        if c != self.c {
            self.c = c;
            self.put_char(pen, c);
        }
    }

    /// Puts what is on the wire.
    fn put_char(&self, pen: &mut Pen<'_>, c: Option<Char>) {
        let (k, byte) = match c {
            Some(Char::Data(byte)) => (b'0', Some(byte)),
            Some(Char::Special(byte)) => (b'1', Some(byte)),
            Some(Char::Invalid) => (b'x', None),
            None => (b'z', None),
        };
        pen.put_bit(self.first, k);
        pen.put_byte(self.first.saturating_add(1), byte);
    }

    /// This is read.
    fn read(&mut self, reads: Reads, pen: &mut Pen<'_>) {
        if reads != self.reads {
            self.reads = reads;
            self.put_reads(pen);
        }
    }

    /// Puts what is read.
    fn put_reads(&self, pen: &mut Pen<'_>) {
        let word: &[u8] = match self.reads {
            Reads::Idle => b"idle",
            Reads::Symbol => b"symbol",
            Reads::Packet => b"packet",
            Reads::Bad => b"bad",
        };
        pen.put_words(self.first.saturating_add(2), word, b"");
    }

    /// A character comes, and changes the halves of the port that sends or takes it.
    fn take(
        &mut self,
        c: Char,
        way: Way,
        halves: &mut Halves,
        pen: &mut Pen<'_>,
    ) -> Result<(), AllocError> {
        self.show(Some(c), pen);
        let mut completed = Completions::new(way, halves);
        listen(&mut self.ear, &[c], &mut completed)?;
        let reads = self.reads_of(c, completed.is_bad);
        self.read(reads, pen);
        if let Some(symbol) = completed.symbol {
            self.symbol = Some(symbol);
            self.put_symbol(pen, &symbol);
        }
        if let Some(ack) = completed.ack {
            self.ack = Some(ack);
            pen.put_byte(self.first.saturating_add(4), Some(ack));
        }
        Ok(())
    }

    /// What is read at a character.
    fn reads_of(&mut self, c: Char, is_bad: bool) -> Reads {
        if is_bad {
            self.left = 0;
            return Reads::Bad;
        }
        if let CharKind::Opens(_) = char_kind(c) {
            self.left = 3;
            return Reads::Symbol;
        }
        if self.left > 0 {
            self.left -= 1;
            return Reads::Symbol;
        }
        if self.ear.at_rest() {
            Reads::Idle
        } else {
            Reads::Packet
        }
    }

    /// Puts the name of a symbol.
    fn put_symbol(&self, pen: &mut Pen<'_>, symbol: &Symbol) {
        let signal = self.first.saturating_add(3);
        if symbol.s1 == NOP {
            pen.put_words(signal, stype0_name(symbol.s0), b"");
        } else if symbol.s0 == STATUS {
            pen.put_words(signal, stype1_name(symbol.s1), b"");
        } else {
            pen.put_words(signal, stype1_name(symbol.s1), stype0_name(symbol.s0));
        }
    }
}

/// Which way characters go.
#[derive(Clone, Copy)]
enum Way {
    Out,
    In,
}

/// What a character completes.
#[derive(Drop)]
struct Completions<'a> {
    way: Way,
    halves: &'a mut Halves,
    symbol: Option<Symbol>,
    ack: Option<u8>,
    is_bad: bool,
}

impl<'a> Completions<'a> {
    /// Nothing yet.
    fn new(way: Way, halves: &'a mut Halves) -> Completions<'a> {
        Completions {
            way,
            halves,
            symbol: None,
            ack: None,
            is_bad: false,
        }
    }
}

impl Hear for Completions<'_> {
    fn hear(&mut self, _: &[Char], heard: &Heard) -> Result<(), AllocError> {
        match self.way {
            Way::Out => self.halves.send(heard),
            Way::In => self.halves.take(heard),
        }
        match heard {
            Heard::Nothing => {}
            Heard::Symbol(symbol) => {
                self.symbol = Some(*symbol);
                self.ack = Some(symbol.p0);
            }
            Heard::Packet(ack, _, symbol) => {
                self.symbol = Some(*symbol);
                self.ack = Some(*ack);
            }
            Heard::Broken(_, symbol) => {
                self.symbol = Some(*symbol);
                self.is_bad = true;
            }
            Heard::Bad(_) => self.is_bad = true,
        }
        Ok(())
    }
}

/// What a step changes at a port.
#[derive(Clone, Copy)]
pub(crate) enum Change {
    /// A packet is held.
    Hold,
    /// A packet that was held goes on.
    Give,
}

/// The signals of a port.
#[derive(Default, Drop)]
pub(crate) struct PortSignals {
    sending: Probe,
    taking: Probe,
    /// The number of the first signal of the port itself, or 0 if none is shown.
    first: u32,
    halves: Halves,
    held: u64,
    fires: u64,
}

impl PortSignals {
    /// Declares the signals, from this number on, and answers the number behind them.
    pub(crate) fn declare(&mut self, first: u32, out: &mut Text) -> u32 {
        self.sending.declare(first, b"sent", out);
        let second = first.saturating_add(OF_PROBE);
        self.taking.declare(second, b"got", out);
        self.first = second.saturating_add(OF_PROBE);
        declare(out, b"string 1", self.first, b"output");
        declare(out, b"string 1", self.signal(1), b"input");
        declare(out, b"wire 8", self.signal(2), b"outstanding [7:0]");
        declare(out, b"wire 8", self.signal(3), b"held [7:0]");
        declare(out, b"wire 8", self.signal(4), b"time_outs [7:0]");
        self.signal(5)
    }

    /// Whether the signals are shown.
    pub(crate) fn is_shown(&self) -> bool {
        self.first > 0
    }

    /// The number of a signal of the port itself.
    fn signal(&self, place: u32) -> u32 {
        self.first.saturating_add(place)
    }

    /// The values of all signals.
    pub(crate) fn put_all(&self, pen: &mut Pen<'_>) {
        self.sending.put_all(pen);
        self.taking.put_all(pen);
        pen.put_words(self.first, self.halves.output.words(), b"");
        pen.put_words(self.signal(1), self.halves.input.words(), b"");
        pen.put_byte(self.signal(2), Some(self.halves.outstanding));
        pen.put_byte(self.signal(3), Some(self.held.min(255) as u8));
        pen.put_byte(self.signal(4), Some(self.fires.min(255) as u8));
    }

    /// Puts what is other than before of the halves.
    fn put_halves(&self, before: Halves, pen: &mut Pen<'_>) {
        if self.halves.output != before.output {
            pen.put_words(self.first, self.halves.output.words(), b"");
        }
        if self.halves.input != before.input {
            pen.put_words(self.signal(1), self.halves.input.words(), b"");
        }
        if self.halves.outstanding != before.outstanding {
            pen.put_byte(self.signal(2), Some(self.halves.outstanding));
        }
    }

    /// The port sends a character.
    pub(crate) fn send(&mut self, c: Char, pen: &mut Pen<'_>) -> Result<(), AllocError> {
        let before = self.halves;
        self.sending.take(c, Way::Out, &mut self.halves, pen)?;
        self.put_halves(before, pen);
        Ok(())
    }

    /// The port takes a character.
    pub(crate) fn get(&mut self, c: Char, pen: &mut Pen<'_>) -> Result<(), AllocError> {
        let before = self.halves;
        self.taking.take(c, Way::In, &mut self.halves, pen)?;
        self.put_halves(before, pen);
        Ok(())
    }

    /// Nothing is sent any more.
    pub(crate) fn rest_sending(&mut self, pen: &mut Pen<'_>) {
        self.sending.show(None, pen);
    }

    /// Nothing comes any more.
    pub(crate) fn rest_taking(&mut self, pen: &mut Pen<'_>) {
        self.taking.show(None, pen);
    }

    /// A step changes what the port has.
    pub(crate) fn change(&mut self, change: Change, pen: &mut Pen<'_>) {
        self.held = match change {
            Change::Hold => self.held.saturating_add(1),
            Change::Give => self.held.saturating_sub(1),
        };
        pen.put_byte(self.signal(3), Some(self.held.min(255) as u8));
    }

    /// The time-out fires.
    pub(crate) fn fire(&mut self, pen: &mut Pen<'_>) {
        let before = self.halves;
        self.halves.fire();
        self.put_halves(before, pen);
        self.fires = self.fires.saturating_add(1);
        pen.put_byte(self.signal(4), Some(self.fires.min(255) as u8));
    }
}
