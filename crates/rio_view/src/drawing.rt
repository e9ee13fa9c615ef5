//! What a ladder shows of the characters that a port sends and takes.

use crate::cells::Cells;
use crate::lanes::Lane;
use crate::picture::{Arrow, ArrowKind, Picture, PictureRow};
use rio_chars::Char;
use rio_packets::{Cause, Packet};
use rio_symbols::Symbol;
use rio_symbols::stype0::{LINK_RESPONSE, PACKET_NOT_ACCEPTED, PACKET_RETRY};
use rio_symbols::stype1::{
    END_OF_PACKET, LINK_REQUEST, RESTART_FROM_RETRY, START_OF_PACKET, STOMP,
};
use std::alloc::{AllocError, Global};
use view_words::{
    AskedRegisters, Hear, Heard, Text, bad_words, is_delimiter, put_brief_symbol, put_sent_packet,
};

/// How many characters a symbol has.
const SYMBOL: usize = 4;

/// Draws what a port sends: an arrow for each packet, with the symbols that begin and end it, and
/// one for each other symbol.
#[derive(Drop)]
pub(crate) struct Draws<'a> {
    pub(crate) picture: &'a mut Picture,
    pub(crate) lane: &'a mut Lane,
    pub(crate) asked: &'a mut AskedRegisters,
    pub(crate) ends: (u32, u32),
    pub(crate) shown: bool,
    pub(crate) alloc: Global,
}

impl Hear for Draws<'_> {
    fn hear(&mut self, chars: &[Char], heard: &Heard) -> Result<(), AllocError> {
        match heard {
            Heard::Nothing => self.lay(chars, self.lane.open),
            Heard::Symbol(symbol) => self.draw_symbol(chars, symbol),
            Heard::Packet(ack, packet, symbol) => {
                self.name_packet(*ack, packet);
                self.draw_symbol(chars, symbol)
            }
            Heard::Broken(cause, symbol) => {
                self.name_bad(*cause);
                self.draw_symbol(chars, symbol)
            }
            Heard::Bad(cause) => self.draw_bad(chars, *cause),
        }
    }
}

impl Draws<'_> {
    /// Characters of an arrow go onto the wire.
    fn lay(&mut self, chars: &[Char], row: Option<usize>) -> Result<(), AllocError> {
        self.lane.wire.put(chars.len(), row)?;
        let Some(arrow) = row.and_then(|row| self.picture.arrow(row)) else {
            return Ok(());
        };
        for c in chars {
            arrow.add_char(*c);
        }
        Ok(())
    }

    /// A row for an arrow, if it is drawn.
    fn add(&mut self, kind: ArrowKind, label: Text) -> Result<Option<usize>, AllocError> {
        if !self.shown || self.ends.0 == self.ends.1 {
            return Ok(None);
        }
        let mut arrow = Arrow::new(self.alloc, kind, self.ends);
        arrow.label = label;
        Ok(Some(self.picture.add(PictureRow::Arrow(arrow))?))
    }

    /// A symbol, behind characters of the packet that it comes in or ends.
    fn draw_symbol(&mut self, chars: &[Char], symbol: &Symbol) -> Result<(), AllocError> {
        let (before, own) = chars.split_at(chars.len().saturating_sub(SYMBOL));
        self.lay(before, self.lane.open)?;
        if is_delimiter(symbol) && symbol.s1 == START_OF_PACKET {
            self.begin_packet(own)
        } else {
            self.draw_own(own, symbol)
        }
    }

    /// The characters of a symbol that does not begin a packet.
    fn draw_own(&mut self, own: &[Char], symbol: &Symbol) -> Result<(), AllocError> {
        if is_delimiter(symbol) && self.lane.open.is_some() {
            self.lay(own, self.lane.open)?;
        } else {
            self.add_symbol(own, symbol)?;
        }
        if ends_packet(symbol) {
            self.lane.open = None;
        }
        Ok(())
    }

    /// A packet begins.
    fn begin_packet(&mut self, own: &[Char]) -> Result<(), AllocError> {
        let mut label = Text::new(self.alloc);
        label.put(b"packet, not whole");
        self.lane.open = self.add(ArrowKind::Packet, label)?;
        self.lay(own, self.lane.open)
    }

    /// An arrow of a symbol.
    fn add_symbol(&mut self, own: &[Char], symbol: &Symbol) -> Result<(), AllocError> {
        if symbol.s1 == LINK_REQUEST {
            self.lane.asks = true;
        }
        let mut label = Text::new(self.alloc);
        put_brief_symbol(&mut label, symbol);
        let row = self.add(ArrowKind::Symbol, label)?;
        self.lay(own, row)
    }

    /// The packet that is being sent is known.
    fn name_packet(&mut self, ack: u8, packet: &Packet) {
        let Some(row) = self.lane.open else {
            return;
        };
        if let Some(arrow) = self.picture.arrow(row) {
            arrow.label.clear();
            put_sent_packet(&mut arrow.label, self.asked, ack, packet);
        }
    }

    /// The packet that is being sent is none.
    fn name_bad(&mut self, cause: Cause) {
        let Some(row) = self.lane.open else {
            return;
        };
        if let Some(arrow) = self.picture.arrow(row) {
            arrow.kind = ArrowKind::Bad;
            arrow.label.clear();
            arrow.label.put(bad_words(cause));
        }
    }

    /// What is neither a packet nor a symbol.
    fn draw_bad(&mut self, chars: &[Char], cause: Cause) -> Result<(), AllocError> {
        if self.lane.open.is_none() {
            let mut label = Text::new(self.alloc);
            label.put(bad_words(cause));
            self.lane.open = self.add(ArrowKind::Bad, label)?;
        }
        self.name_bad(cause);
        self.lay(chars, self.lane.open)?;
        self.lane.open = None;
        Ok(())
    }
}

/// Whether a symbol ends the packet in progress.
fn ends_packet(symbol: &Symbol) -> bool {
    matches!(
        symbol.s1,
        START_OF_PACKET | STOMP | END_OF_PACKET | RESTART_FROM_RETRY | LINK_REQUEST
    )
}

/// Takes what comes to a port, and notes what was changed on its way, what is no packet or symbol,
/// and what a symbol asks of the port; each with whether it tells of a fault.
#[derive(Drop)]
pub(crate) struct Takes<'a> {
    pub(crate) wire: &'a mut Cells,
    pub(crate) asks: &'a mut bool,
    pub(crate) asked: &'a mut AskedRegisters,
    pub(crate) notes: &'a mut Vec<(Text, bool)>,
    pub(crate) alloc: Global,
}

impl Hear for Takes<'_> {
    fn hear(&mut self, chars: &[Char], heard: &Heard) -> Result<(), AllocError> {
        let changed = self.wire.take(chars.len());
        match heard {
            Heard::Nothing => Ok(()),
            Heard::Symbol(symbol) => self.obey(symbol, changed),
            Heard::Packet(ack, packet, symbol) => {
                if changed {
                    self.note_packet(*ack, packet)?;
                }
                self.obey(symbol, false)
            }
            Heard::Broken(cause, symbol) => {
                self.note_bad(*cause)?;
                self.obey(symbol, false)
            }
            Heard::Bad(cause) => self.note_bad(*cause),
        }
    }
}

impl Takes<'_> {
    /// The beginning of a note.
    fn label(&self) -> Text {
        let mut label = Text::new(self.alloc);
        label.put(b"got ");
        label
    }

    /// A packet that was changed on its way.
    fn note_packet(&mut self, ack: u8, packet: &Packet) -> Result<(), AllocError> {
        let mut label = self.label();
        put_sent_packet(&mut label, self.asked, ack, packet);
        self.notes.push((label, true))?;
        Ok(())
    }

    /// What is no packet or symbol.
    fn note_bad(&mut self, cause: Cause) -> Result<(), AllocError> {
        let mut label = self.label();
        label.put(bad_words(cause));
        self.notes.push((label, true))?;
        Ok(())
    }

    /// A symbol, and whether it was changed on its way.
    fn obey(&mut self, symbol: &Symbol, changed: bool) -> Result<(), AllocError> {
        if changed {
            let mut label = self.label();
            put_brief_symbol(&mut label, symbol);
            self.notes.push((label, true))?;
        }
        match symbol.s0 {
            PACKET_RETRY => self.note(b"retry", false),
            PACKET_NOT_ACCEPTED => self.note(b"error", true),
            LINK_RESPONSE if *self.asks => {
                *self.asks = false;
                self.note(b"recovered", false)
            }
            _ => Ok(()),
        }
    }

    /// What a symbol asks of the port.
    fn note(&mut self, words: &[u8], alarm: bool) -> Result<(), AllocError> {
        let mut label = Text::new(self.alloc);
        label.put(words);
        self.notes.push((label, alarm))?;
        Ok(())
    }
}
