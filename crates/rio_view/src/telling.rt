//! What characters say, as a page has it: each packet, symbol and fault with a letter in front.

use rio_chars::Char;
use rio_packets::Cause;
use rio_symbols::Symbol;
use rio_symbols::stype0::{LINK_RESPONSE, PACKET_NOT_ACCEPTED, PACKET_RETRY};
use rio_symbols::stype1::{LINK_REQUEST, RESTART_FROM_RETRY};
use std::alloc::AllocError;
use view_words::{
    AskedRegisters, Halves, Hear, Heard, Text, bad_words, is_delimiter, put_brief_symbol,
    put_sent_packet,
};

/// How much what was told matters, the last the most.
#[derive(Clone, Copy, PartialEq)]
enum Weight {
    Usual,
    Retry,
    Fault,
}

/// Which way characters go.
#[derive(Clone, Copy)]
pub(crate) enum Way {
    Out,
    In,
}

/// The words of one line, parted by bars, and what it changes of the halves of its port.
#[derive(Drop)]
pub(crate) struct Telling<'a> {
    words: &'a mut Text,
    asked: &'a mut AskedRegisters,
    halves: &'a mut Halves,
    way: Way,
    weight: Weight,
}

impl<'a> Telling<'a> {
    /// Nothing was told.
    pub(crate) fn new(
        words: &'a mut Text,
        asked: &'a mut AskedRegisters,
        halves: &'a mut Halves,
        way: Way,
    ) -> Telling<'a> {
        Telling {
            words,
            asked,
            halves,
            way,
            weight: Weight::Usual,
        }
    }
}

impl Telling<'_> {
    /// The line ends, perhaps within a packet or a symbol.
    pub(crate) fn end(&mut self, is_whole: bool) {
        if !is_whole {
            self.begin(b"o", Weight::Usual);
            self.words.put(b"..");
        }
    }

    /// The mark of the line.
    pub(crate) fn mark(&self) -> &'static [u8] {
        match self.weight {
            Weight::Usual => b" ",
            Weight::Retry => b"~",
            Weight::Fault => b"!",
        }
    }

    /// The letter of the next thing that is told.
    fn begin(&mut self, letter: &[u8], weight: Weight) {
        if self.words.len() > 0 {
            self.words.put(b"|");
        }
        self.words.put(letter);
        if self.weight == Weight::Usual || weight == Weight::Fault {
            self.weight = weight;
        }
    }

    /// What characters say.
    fn tell(&mut self, heard: &Heard) {
        match heard {
            Heard::Nothing => {}
            Heard::Symbol(symbol) => self.tell_symbol(symbol),
            Heard::Packet(ack, packet, symbol) => {
                self.begin(b"p", Weight::Usual);
                put_sent_packet(self.words, self.asked, *ack, packet);
                self.tell_symbol(symbol);
            }
            Heard::Broken(cause, symbol) => {
                self.tell_bad(*cause);
                self.tell_symbol(symbol);
            }
            Heard::Bad(cause) => self.tell_bad(*cause),
        }
    }

    /// A symbol, unless it only begins or ends a packet.
    fn tell_symbol(&mut self, symbol: &Symbol) {
        if is_delimiter(symbol) {
            return;
        }
        match (symbol.s0, symbol.s1) {
            (PACKET_NOT_ACCEPTED | LINK_RESPONSE, _) | (_, LINK_REQUEST) => {
                self.begin(b"n", Weight::Fault);
            }
            (PACKET_RETRY, _) | (_, RESTART_FROM_RETRY) => self.begin(b"r", Weight::Retry),
            _ => self.begin(b"s", Weight::Usual),
        }
        put_brief_symbol(self.words, symbol);
    }

    /// What is neither a packet nor a symbol.
    fn tell_bad(&mut self, cause: Cause) {
        self.begin(b"b", Weight::Fault);
        self.words.put(bad_words(cause));
    }
}

impl Hear for Telling<'_> {
    fn hear(&mut self, _: &[Char], heard: &Heard) -> Result<(), AllocError> {
        match self.way {
            Way::Out => self.halves.send(heard),
            Way::In => self.halves.take(heard),
        }
        self.tell(heard);
        Ok(())
    }
}
