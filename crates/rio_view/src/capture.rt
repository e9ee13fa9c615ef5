//! The packets of a trace as a file that Wireshark reads (pcapng).

use fabric_script::{Line, PortRef, SetUp};
use rio_chars::Char;
use rio_packets::Packet;
use rio_symbols::stype0::{PACKET_NOT_ACCEPTED, PACKET_RETRY};
use std::alloc::{AllocError, Global};
use trace_lines::{NetworkStep, TraceLine};
use view_words::{
    Ear, Hear, Heard, Ports, Seen, Setting, Text, View, ViewEnd, listen, port_of, put_node,
    put_port,
};

/// The head of a section: its bytes are in the order of this number, the version is 1.0, and its
/// length is not told.
const SECTION: [u32; 7] = [
    0x0a0d_0d0a,
    28,
    0x1a2b_3c4d,
    1,
    0xffff_ffff,
    0xffff_ffff,
    28,
];

/// The kind of a block that names an interface.
const INTERFACE: u32 = 1;

/// The kind of a block that has a packet.
const PACKET: u32 = 6;

/// The link type for private use, by which the dissector is found: a packet or a symbol, with what
/// happened to it in front.
const USER1: u32 = 148;

/// What a frame has behind the words of what happened: a packet in its link form, or the bytes of
/// the four characters of a control symbol.
const FORM: u8 = 0;

const CHARACTERS: u8 = 1;

/// How many characters a symbol has.
const SYMBOL: usize = 4;

/// The kinds of options: a comment, the name of an interface, and the unit of its time.
const COMMENT: u16 = 1;

const NAME: u16 = 2;

const UNIT: u16 = 9;

/// The packets of a trace.
#[derive(Drop)]
pub(crate) struct Capture {
    places: Ports<Option<u32>>,
    ears: Ports<Ear>,
    count: u32,
    block: Text,
    word: Text,
    alloc: Global,
}

impl Capture {
    /// Nothing was written.
    pub(crate) fn new(alloc: Global) -> Capture {
        Capture {
            places: Ports::new(alloc),
            ears: Ports::new(alloc),
            count: 0,
            block: Text::new(alloc),
            word: Text::new(alloc),
            alloc,
        }
    }
}

impl View for Capture {
    fn begin(&mut self, setting: Setting<'_>, out: &mut Text) -> Result<(), ViewEnd> {
        let set_up = setting.set_up;
        self.places.fill(set_up.names().len())?;
        self.ears.fill(set_up.names().len())?;
        for number in SECTION {
            put_long(out, number);
        }
        for line in set_up.lines() {
            match &line.line {
                Line::Endpoint { name, .. } => self.put_interfaces(set_up, *name, 1, out),
                Line::Switch { name, ports } => self.put_interfaces(set_up, *name, *ports, out),
                _ => {}
            }
        }
        Ok(())
    }

    fn take(&mut self, seen: &Seen<'_>, out: &mut Text) -> Result<(), ViewEnd> {
        match seen.line {
            TraceLine::Stepped(step) if seen.is_shown => self.put_step(seen, step.get(), out),
            TraceLine::Sent(port, chars) => self.put_answers(seen, *port, chars.as_slice(), out)?,
            _ => {}
        }
        Ok(())
    }

    fn end(&mut self, _: Setting<'_>, _: &mut Text) -> Result<(), ViewEnd> {
        Ok(())
    }
}

impl Capture {
    /// The ports of a node as interfaces.
    fn put_interfaces(&mut self, set_up: &SetUp, node: u8, ports: u8, out: &mut Text) {
        for port in 0..ports {
            let port = PortRef { node, port };
            self.number(port);
            self.put_interface(set_up, port, out);
        }
    }

    /// The next interface is that of a port.
    fn number(&mut self, port: PortRef) {
        if let Some(place) = self.places.get_mut(port) {
            *place = Some(self.count);
            self.count = self.count.saturating_add(1);
        }
    }

    /// A port as an interface.
    fn put_interface(&mut self, set_up: &SetUp, port: PortRef, out: &mut Text) {
        self.name(set_up, b"", port);
        self.block.clear();
        put_long(&mut self.block, USER1);
        put_long(&mut self.block, 0);
        put_words(&mut self.block, NAME, &self.word);
        put_option(&mut self.block, UNIT, &[0]);
        put_long(&mut self.block, 0);
        put_block(out, INTERFACE, &self.block);
    }

    /// The packets of a step.
    fn put_step(&mut self, seen: &Seen<'_>, step: &NetworkStep, out: &mut Text) {
        match step {
            NetworkStep::Take(node, packet) => self.put_at_node(seen, b"take ", *node, packet, out),
            NetworkStep::Leave(node, packet) => self.put_at_node(
                seen, b"leave ", *node, packet, out,
            ),
            NetworkStep::Hold(port, packet) => self.put_at(seen, b"hold ", *port, packet, out),
            NetworkStep::Free(port, packet) => self.put_at(seen, b"free ", *port, packet, out),
            NetworkStep::Drop(port, packet) => self.put_at(seen, b"drop ", *port, packet, out),
            NetworkStep::Answer(port, request, response) => {
                self.put_at(seen, b"answer, the request, ", *port, request, out);
                self.put_at(seen, b"answer, the response, ", *port, response, out);
            }
            NetworkStep::Move(from, to, packet) => self.put_move(seen, *from, *to, packet, out),
        }
    }

    /// The symbols by which a port asks for a packet again or refuses one.
    fn put_answers(
        &mut self,
        seen: &Seen<'_>,
        port: PortRef,
        chars: &[Char],
        out: &mut Text,
    ) -> Result<(), AllocError> {
        let Some(ear) = self.ears.get_mut(port) else {
            return Ok(());
        };
        let mut answers = Answers {
            symbols: Vec::new(self.alloc),
        };
        listen(ear, chars, &mut answers)?;
        for (word, bytes) in &answers.symbols {
            if seen.is_shown {
                self.name(seen.set_up, word, port);
                self.put_frame(seen.number, port, CHARACTERS, bytes, out);
            }
        }
        Ok(())
    }

    /// A packet that goes from one port to another.
    fn put_move(
        &mut self,
        seen: &Seen<'_>,
        from: PortRef,
        to: PortRef,
        packet: &Packet,
        out: &mut Text,
    ) {
        self.name(seen.set_up, b"move ", from);
        self.word.put(b" ");
        put_port(&mut self.word, seen.set_up, to);
        self.put_frame(seen.number, from, FORM, packet.bytes(), out);
    }

    /// A packet at an endpoint.
    fn put_at_node(
        &mut self,
        seen: &Seen<'_>,
        word: &[u8],
        node: u8,
        packet: &Packet,
        out: &mut Text,
    ) {
        self.word.clear();
        self.word.put(word);
        put_node(&mut self.word, seen.set_up, node);
        self.put_frame(seen.number, port_of(node), FORM, packet.bytes(), out);
    }

    /// A packet at a port.
    fn put_at(
        &mut self,
        seen: &Seen<'_>,
        word: &[u8],
        port: PortRef,
        packet: &Packet,
        out: &mut Text,
    ) {
        self.name(seen.set_up, word, port);
        self.put_frame(seen.number, port, FORM, packet.bytes(), out);
    }

    /// What happened: a word and a port.
    fn name(&mut self, set_up: &SetUp, word: &[u8], port: PortRef) {
        self.word.clear();
        self.word.put(word);
        put_port(&mut self.word, set_up, port);
    }

    /// A packet or a symbol at the moment of a line, with what happened in front and as a comment.
    fn put_frame(&mut self, number: u32, port: PortRef, kind: u8, bytes: &[u8], out: &mut Text) {
        let Some(Some(place)) = self.places.get(port) else {
            return;
        };
        let count = self.word.len().min(255) as u8;
        let length = bytes.len().min(1_000) as u32 + u32::from(count) + 2;
        self.block.clear();
        for word in [*place, 0, number, length, length] {
            put_long(&mut self.block, word);
        }
        self.block.put(&[kind, count]);
        self.block.put_text(&self.word);
        self.block.put(bytes);
        put_pad(&mut self.block, length);
        put_words(&mut self.block, COMMENT, &self.word);
        put_long(&mut self.block, 0);
        put_block(out, PACKET, &self.block);
    }
}

/// The symbols by which a port asks for a packet again or refuses one, as they come.
#[derive(Drop)]
struct Answers {
    symbols: Vec<(&'static [u8], [u8; SYMBOL])>,
}

impl Hear for Answers {
    fn hear(&mut self, chars: &[Char], heard: &Heard) -> Result<(), AllocError> {
        let symbol = match heard {
            Heard::Symbol(symbol) | Heard::Packet(_, _, symbol) | Heard::Broken(_, symbol) =>
                symbol,
            Heard::Nothing | Heard::Bad(_) => return Ok(()),
        };
        let word: &'static [u8] = match symbol.s0 {
            PACKET_RETRY => b"retry ",
            PACKET_NOT_ACCEPTED => b"refuse ",
            _ => return Ok(()),
        };
        self.symbols.push((word, last_bytes(chars)))?;
        Ok(())
    }
}

/// The bytes of the last four characters.
fn last_bytes(chars: &[Char]) -> [u8; SYMBOL] {
    let mut bytes = [0; SYMBOL];
    let last = chars.split_at(chars.len().saturating_sub(SYMBOL)).1;
    for (byte, c) in bytes.iter_mut().zip(last.iter()) {
        *byte = match c {
            Char::Data(value) | Char::Special(value) => *value,
            Char::Invalid => 0,
        };
    }
    bytes
}

/// A block of this kind.
fn put_block(out: &mut Text, kind: u32, body: &Text) {
    let length = (body.len().min(1_000_000) + 12) as u32;
    put_long(out, kind);
    put_long(out, length);
    out.put_text(body);
    put_long(out, length);
}

/// An option that is words.
fn put_words(out: &mut Text, kind: u16, words: &Text) {
    put_option(out, kind, words.as_slice());
    out.lack(words);
}

/// An option, with zeros up to a multiple of four bytes.
fn put_option(out: &mut Text, kind: u16, value: &[u8]) {
    let count = value.len().min(1_000);
    out.put(&kind.to_le_bytes());
    out.put(&(count as u16).to_le_bytes());
    out.put(value);
    put_pad(out, count as u32);
}

/// Zeros behind so many bytes, up to a multiple of four.
fn put_pad(out: &mut Text, count: u32) {
    for _ in 0..(4 - count % 4) % 4 {
        out.put(&[0]);
    }
}

/// A number of four bytes, the lowest first.
fn put_long(out: &mut Text, number: u32) {
    out.put(&number.to_le_bytes());
}
