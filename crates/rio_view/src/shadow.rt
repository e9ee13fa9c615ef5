//! A port that does what the lines of a trace say of one, and notes which entries of its tables it
//! meets.

use arrayvec::ArrayVec;
use link_entries::{
    ENTRIES, Entry, OutBefore, Reader, TurnEntry, bad_entry, credit_point, ended_point,
    entry_number, heard_entry, heard_point, obeyed_entry, overtaking_point, packet_entry,
    packet_point, status_point, time_out_entry, time_out_point, told_after, turn_entry,
};
use link_port::{Completed, OutKind, Port, PortFace, Sending};
use rio_chars::Char;
use rio_packets::{Cause, Packet};
use rio_symbols::stype1::{LINK_REQUEST, NOP, RESTART_FROM_RETRY};
use rio_symbols::{Symbol, stype0};
use std::alloc::AllocError;
use view_words::{Ear, Hear, Heard, listen};

/// How often each entry was met.
#[derive(Drop)]
pub(crate) struct EntriesMet {
    pub(crate) counts: [u64; ENTRIES],
}

impl EntriesMet {
    /// An entry is met.
    fn meet(&mut self, entry: Entry) {
        self.meet_times(entry, 1);
    }

    /// An entry is met so many times.
    fn meet_times(&mut self, entry: Entry, times: u32) {
        if let Some(count) = self.counts.get_mut(entry_number(entry)) {
            *count = count.saturating_add(u64::from(times));
        }
    }

    /// How many entries were met.
    pub(crate) fn entries(&self) -> u64 {
        self.counts.iter().filter(|count| **count > 0).count() as u64
    }
}

/// What a line of a trace says of a port.
#[derive(Clone, Copy)]
pub(crate) enum Came<'a> {
    /// It sends these characters.
    Sent(&'a [Char]),
    /// It takes these characters.
    Got(&'a [Char]),
    /// Its time-out fires.
    Fired,
    /// This packet, which it held, goes on.
    Given(&'a Packet),
    /// This packet is to be sent.
    Put(&'a Packet),
    /// It takes so many turns.
    Pumped(u32),
    /// What began before has ended.
    Rested,
}

/// What is kept of one run of characters for the next: the last packet, and the packets that were
/// freed.
#[derive(Drop)]
pub(crate) struct Kept {
    packet: Packet,
    freed: ArrayVec<Packet, 31>,
}

impl Kept {
    /// Nothing was read.
    pub(crate) fn new() -> Kept {
        Kept {
            packet: Packet::default(),
            freed: ArrayVec::new(),
        }
    }
}

/// A port that follows a trace.
#[derive(Drop)]
pub(crate) struct Shadow {
    port: Port,
    ear: Ear,
    reader: Reader,
    /// Whether the far port tells its free buffers.
    told: bool,
    /// The turns that an event has it take, and of which no line was seen.
    turns: u32,
}

impl Shadow {
    /// A port that was just made.
    pub(crate) fn new(port: Port) -> Shadow {
        Shadow {
            port,
            ear: Ear::default(),
            reader: Reader::new(),
            told: false,
            turns: 0,
        }
    }

    /// The port does what a line says.
    pub(crate) fn follow(
        &mut self,
        came: &Came<'_>,
        kept: &mut Kept,
        met: &mut EntriesMet,
    ) -> Result<(), AllocError> {
        match *came {
            Came::Sent(chars) => self.send(chars, met)?,
            Came::Got(chars) => self.get(chars, kept, met),
            Came::Fired => self.fire(met),
            Came::Given(packet) => self.give(packet),
            Came::Put(packet) => self.put(packet),
            Came::Pumped(turns) => self.turns = turns,
            Came::Rested => self.rest(met),
        }
        Ok(())
    }

    /// The port takes characters.
    fn get(&mut self, chars: &[Char], kept: &mut Kept, met: &mut EntriesMet) {
        let mut left = chars;
        while !left.is_empty() {
            let (count, completed) = self.port.read(left, &mut kept.packet);
            let (run, rest) = left.split_at(count);
            left = rest;
            self.read(run, &completed, met);
            self.act(completed, kept, met);
        }
    }

    /// Characters are read, of which the last completes this, and the others nothing.
    fn read(&mut self, run: &[Char], completed: &Completed, met: &mut EntriesMet) {
        if let Some((last, before)) = run.split_last() {
            for c in before {
                self.read_char(*c, &Completed::Nothing, met);
            }
            self.read_char(*last, completed, met);
        }
        if let Some(point) = ended_point(completed) {
            met.meet(Entry::Read(point));
        }
    }

    /// A character is read.
    fn read_char(&mut self, c: Char, completed: &Completed, met: &mut EntriesMet) {
        if let Some(entry) = self.reader.entry(c, completed) {
            met.meet(Entry::Read(entry));
        }
        self.reader = self.reader.after(c, completed);
    }

    /// The port acts on what characters completed.
    fn act(&mut self, completed: Completed, kept: &mut Kept, met: &mut EntriesMet) {
        match completed {
            Completed::Nothing => {}
            Completed::Symbol(symbol) => self.hear(symbol, kept, met),
            Completed::Packet(ack, symbol) => {
                self.take(ack, &kept.packet, met);
                self.hear(symbol, kept, met);
            }
            Completed::NoPacket(cause, symbol) => {
                self.refuse(cause, met);
                self.hear(symbol, kept, met);
            }
            Completed::Bad(cause) => self.refuse(cause, met),
        }
    }

    /// A packet comes.
    fn take(&mut self, ack: u8, packet: &Packet, met: &mut EntriesMet) {
        let before = self.port.in_kind();
        self.port.act_packet(ack, packet);
        met.meet(Entry::Arrived(packet_entry(before, &self.port)));
        if let Some(point) = packet_point(before, ack, &self.port) {
            met.meet(Entry::Arrived(point));
        }
    }

    /// What comes is neither a packet nor a symbol.
    fn refuse(&mut self, cause: Cause, met: &mut EntriesMet) {
        met.meet(Entry::Arrived(bad_entry(&self.port)));
        self.port.act_bad(cause);
    }

    /// A symbol comes.
    fn hear(&mut self, symbol: Symbol, kept: &mut Kept, met: &mut EntriesMet) {
        met.meet(Entry::Arrived(obeyed_entry(&self.port, &symbol)));
        let before = OutBefore::of(&self.port);
        kept.freed.clear();
        self.port.act_symbol(symbol, &mut kept.freed);
        let entry = heard_entry(before, &symbol, &self.port);
        met.meet(Entry::Heard(entry));
        if let Some(point) = heard_point(entry, &symbol, &kept.freed) {
            met.meet(Entry::Heard(point));
        }
        self.told = told_after(self.told, &symbol);
    }

    /// The port sends characters.
    fn send(&mut self, chars: &[Char], met: &mut EntriesMet) -> Result<(), AllocError> {
        let mut turns = Turns {
            port: &mut self.port,
            told: self.told,
            turns: &mut self.turns,
            met,
        };
        listen(&mut self.ear, chars, &mut turns)
    }

    /// An event ends in which the port took turns. Those of which no line was seen sent nothing,
    /// and meet an entry if this port would send nothing.
    fn rest(&mut self, met: &mut EntriesMet) {
        let entry = turn_entry(&self.port);
        if is_silent(entry) && status_point(&self.port).is_none() {
            met.meet_times(Entry::Turn(entry), self.turns);
        }
        self.turns = 0;
    }

    /// The time-out fires.
    fn fire(&mut self, met: &mut EntriesMet) {
        met.meet(Entry::TimeOut(time_out_entry(&self.port)));
        if let Some(point) = time_out_point(&self.port) {
            met.meet(Entry::TimeOut(point));
        }
        self.port.time_out();
    }

    /// A packet that was held goes on.
    fn give(&mut self, packet: &Packet) {
        self.port.in_pop(packet.prio());
    }

    /// A packet is to be sent.
    fn put(&mut self, packet: &Packet) {
        if self.port.out_room(packet.prio()) {
            self.port.out_put(packet.copy());
        }
    }
}

/// Whether neither a packet nor what a half owes is sent in a turn that meets this entry.
fn is_silent(entry: TurnEntry) -> bool {
    !matches!(
        entry,
        TurnEntry::PacketSent | TurnEntry::RestartSent | TurnEntry::RequestSent
    )
}

/// Takes a turn of a port for each packet, restart-from-retry and link-request that it sends, and
/// for each status that it sends in place of a packet. Other symbols are answers, which are no
/// turns.
#[derive(Drop)]
struct Turns<'a> {
    port: &'a mut Port,
    told: bool,
    turns: &'a mut u32,
    met: &'a mut EntriesMet,
}

impl Hear for Turns<'_> {
    fn hear(&mut self, _: &[Char], heard: &Heard) -> Result<(), AllocError> {
        match heard {
            Heard::Symbol(symbol) => self.obey(symbol),
            Heard::Packet(_, packet, symbol) => {
                self.start(packet);
                self.obey(symbol);
            }
            Heard::Broken(_, symbol) => self.obey(symbol),
            Heard::Nothing | Heard::Bad(_) => {}
        }
        Ok(())
    }
}

impl Turns<'_> {
    /// A packet is sent. No line said that it is to be sent if none can start.
    fn start(&mut self, packet: &Packet) {
        let is_new = self.port.out_kind() == OutKind::Ok && !self.port.ready();
        if is_new && self.port.out_room(packet.prio()) {
            self.port.out_put(packet.copy());
        }
        self.turn();
    }

    /// A symbol is sent.
    fn obey(&mut self, symbol: &Symbol) {
        if symbol.s1 == RESTART_FROM_RETRY || symbol.s1 == LINK_REQUEST {
            self.turn();
        } else if symbol.s0 == stype0::STATUS && symbol.s1 == NOP {
            self.tell();
        }
    }

    /// The port takes a turn, in which it sends something. Otherwise this port meets no entry.
    fn turn(&mut self) {
        *self.turns = self.turns.saturating_sub(1);
        let entry = turn_entry(self.port);
        if is_silent(entry) {
            return;
        }
        self.met.meet(Entry::Turn(entry));
        if let Some(point) = credit_point(self.port, self.told) {
            self.met.meet(Entry::Turn(point));
        }
        if let Sending::Packet { prio, place, .. } = self.port.start_turn() {
            if let Some(point) = overtaking_point(self.port, prio, place) {
                self.met.meet(Entry::Turn(point));
            }
        }
    }

    /// The port sends its status, which is a turn if it may send it in place of a packet.
    fn tell(&mut self) {
        *self.turns = self.turns.saturating_sub(1);
        if let Some(point) = status_point(self.port) {
            self.met.meet(Entry::Turn(turn_entry(self.port)));
            self.met.meet(Entry::Turn(point));
        }
    }
}
