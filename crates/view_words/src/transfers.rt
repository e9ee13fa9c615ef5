//! What goes over a wire, one transfer a line.

use crate::fabric::put_port;
use crate::heard::{Hear, Heard};
use crate::packets::{AskedRegisters, put_sent_packet};
use crate::symbols::{bad_words, is_delimiter, put_brief_symbol};
use crate::text::Text;
use crate::view::Seen;
use fabric_script::PortRef;
use rio_chars::Char;
use rio_packets::Cause;
use rio_symbols::Symbol;
use std::alloc::AllocError;

/// How wide the numbers of lines are.
const NUMBER: usize = 6;

/// The number of a line, in front of it.
pub(crate) fn put_line_number(out: &mut Text, number: u32) {
    out.put_number_right(NUMBER, u64::from(number));
    out.put(b" ");
}

/// The beginning of a line of a port.
pub(crate) fn put_at(out: &mut Text, seen: &Seen<'_>, port: PortRef, words: &[u8]) {
    put_line_number(out, seen.number);
    out.put(b"  ");
    put_port(out, seen.set_up, port);
    out.put(words);
}

/// The transfers of a port, one a line. A packet is told without the symbols around it.
#[derive(Drop)]
pub(crate) struct Transfers<'a> {
    pub(crate) out: &'a mut Text,
    pub(crate) asked: &'a mut AskedRegisters,
    pub(crate) seen: &'a Seen<'a>,
    pub(crate) port: PortRef,
    pub(crate) peer: Option<PortRef>,
}

impl Transfers<'_> {
    /// Who sends, and to whom.
    fn put_ends(&mut self) {
        put_at(self.out, self.seen, self.port, b" > ");
        if let Some(peer) = self.peer {
            put_port(self.out, self.seen.set_up, peer);
        }
        self.out.put(b": ");
    }

    /// The line of a symbol, unless it only begins or ends a packet.
    fn put_symbol(&mut self, symbol: &Symbol) {
        if !is_delimiter(symbol) {
            self.put_ends();
            put_brief_symbol(self.out, symbol);
            self.out.put(b"\n");
        }
    }

    /// The line of what is neither a packet nor a symbol.
    fn put_bad(&mut self, cause: Cause) {
        self.put_ends();
        self.out.put(bad_words(cause));
        self.out.put(b"\n");
    }
}

impl Hear for Transfers<'_> {
    fn hear(&mut self, _: &[Char], heard: &Heard) -> Result<(), AllocError> {
        match heard {
            Heard::Nothing => {}
            Heard::Symbol(symbol) => self.put_symbol(symbol),
            Heard::Packet(ack, packet, symbol) => {
                self.put_ends();
                put_sent_packet(self.out, self.asked, *ack, packet);
                self.out.put(b"\n");
                self.put_symbol(symbol);
            }
            Heard::Broken(cause, symbol) => {
                self.put_bad(*cause);
                self.put_symbol(symbol);
            }
            Heard::Bad(cause) => self.put_bad(*cause),
        }
        Ok(())
    }
}

/// What a port takes that is neither a packet nor a symbol, one a line.
#[derive(Drop)]
pub(crate) struct Faults<'a> {
    pub(crate) out: &'a mut Text,
    pub(crate) seen: &'a Seen<'a>,
    pub(crate) port: PortRef,
}

impl Hear for Faults<'_> {
    fn hear(&mut self, _: &[Char], heard: &Heard) -> Result<(), AllocError> {
        if let Heard::Broken(cause, _) | Heard::Bad(cause) = heard {
            put_at(self.out, self.seen, self.port, b": got ");
            self.out.put(bad_words(*cause));
            self.out.put(b"\n");
        }
        Ok(())
    }
}
