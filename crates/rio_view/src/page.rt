//! A trace as one page for a browser: `share/page.html`, with the fabric and the lines of the trace
//! in it. Each line is a record of text, which the script of the page shows.
//!
//! A record begins with a letter of its kind, a mark (`!` of a fault, `~` of a retry), and the
//! number of a port in the list of the fabric. Behind a colon stand the states of the halves of the
//! port and its outstanding packets, if they change. Fields are parted by tabs. `=` stands for the
//! characters of the last line that the peer sent, or for the packet of the step before.

use crate::page_head_1::HEAD_1;
use crate::page_rest_1::REST_1;
use crate::page_rest_2::REST_2;
use crate::page_script_1::SCRIPT_1;
use crate::records::{is_edit, lack_words, put_chars, put_states};
use crate::telling::{Telling, Way};
use fabric_script::{Line, PortRef, SetUp};
use rio_chars::Char;
use rio_packets::Packet;
use std::alloc::{AllocError, Global};
use trace_lines::{NetworkStep, TraceLine};
use view_words::{
    AskedRegisters, Ear, Halves, Ports, Seen, Setting, Text, View, ViewEnd, links_of, listen,
    peer_of, port_of, put_event, put_packet, put_port,
};

/// A port of the page.
#[derive(Drop)]
struct PagePort {
    /// Its number in the list of the fabric.
    number: u32,
    sending: Ear,
    taking: Ear,
    halves: Halves,
    /// What it sent in its last line that is shown, if that is whole packets and symbols.
    last: Vec<Char>,
    is_whole: bool,
}

/// A page in the making.
#[derive(Drop)]
pub(crate) struct PageView {
    ports: Ports<PagePort>,
    links: Vec<(PortRef, PortRef)>,
    asked: AskedRegisters,
    words: Text,
    /// The bytes of the packet of the last step.
    step: Text,
    /// The number of the line that is written next, if none is left out.
    next: u32,
    alloc: Global,
}

impl PageView {
    /// No line was written.
    pub(crate) fn new(alloc: Global) -> Result<PageView, AllocError> {
        Ok(PageView {
            ports: Ports::new(alloc),
            links: Vec::new(alloc),
            asked: AskedRegisters::new(alloc)?,
            words: Text::new(alloc),
            step: Text::new(alloc),
            next: 0,
            alloc,
        })
    }
}

impl View for PageView {
    fn begin(&mut self, setting: Setting<'_>, out: &mut Text) -> Result<(), ViewEnd> {
        for number in 0..16 * setting.set_up.names().len().min(64) as u32 {
            self.ports.push(PagePort {
                number,
                sending: Ear::default(),
                taking: Ear::default(),
                halves: Halves::default(),
                last: Vec::new(self.alloc),
                is_whole: false,
            })?;
        }
        self.links = links_of(self.alloc, setting.set_up)?;
        self.next = setting.first;
        out.put(HEAD_1);
        self.put_fabric(setting, out);
        Ok(())
    }

    fn take(&mut self, seen: &Seen<'_>, out: &mut Text) -> Result<(), ViewEnd> {
        let begin = out.len();
        if seen.number != self.next {
            out.put(b"#");
            out.put_number(u64::from(seen.number));
            out.put(b"\n");
        }
        self.put_line(seen, out)?;
        if seen.is_shown {
            self.next = seen.number.saturating_add(1);
        } else {
            out.truncate(begin);
        }
        Ok(())
    }

    fn end(&mut self, _: Setting<'_>, out: &mut Text) -> Result<(), ViewEnd> {
        out.lack(&self.words);
        out.lack(&self.step);
        out.put(SCRIPT_1);
        out.put(REST_1);
        out.put(REST_2);
        Ok(())
    }
}

impl PageView {
    /// The ports and the links, and the beginning of the records.
    fn put_fabric(&mut self, setting: Setting<'_>, out: &mut Text) {
        out.put(b"{\"first\":");
        out.put_number(u64::from(setting.first));
        out.put(b",\"ports\":[");
        self.number_ports(setting.set_up, out);
        out.put(b"],\"links\":[");
        let mut parting: &[u8] = b"";
        for (a, b) in &self.links {
            if setting.selection.has_link(*a, *b) {
                out.put(parting);
                self.put_link(*a, *b, out);
                parting = b",";
            }
        }
        out.put(b"]}\n</script>\n<script type=\"text/plain\" id=\"trace\">\n");
    }

    /// The two ports of a link, by their numbers.
    fn put_link(&self, a: PortRef, b: PortRef, out: &mut Text) {
        out.put(b"[");
        self.put_number(a, out);
        out.put(b",");
        self.put_number(b, out);
        out.put(b"]");
    }

    /// Gives each port of each node its number, and puts its name.
    fn number_ports(&mut self, set_up: &SetUp, out: &mut Text) {
        let mut count = 0u32;
        for line in set_up.lines() {
            let (node, ports) = match &line.line {
                Line::Endpoint { name, .. } => (*name, 1),
                Line::Switch { name, ports } => (*name, *ports),
                _ => continue,
            };
            for port in 0..ports {
                let port = PortRef { node, port };
                if let Some(place) = self.ports.get_mut(port) {
                    place.number = count;
                    out.put(if count == 0 { b"\"" } else { b",\"" });
                    put_port(out, set_up, port);
                    out.put(b"\"");
                    count = count.saturating_add(1);
                }
            }
        }
    }

    /// The number of a port.
    fn put_number(&self, port: PortRef, out: &mut Text) {
        if let Some(place) = self.ports.get(port) {
            out.put_number(u64::from(place.number));
        }
    }

    /// The record of a line.
    fn put_line(&mut self, seen: &Seen<'_>, out: &mut Text) -> Result<(), AllocError> {
        match seen.line {
            TraceLine::Begun(line) => {
                out.put(if is_edit(line) { b">!" } else { b"> " });
                out.put(seen.text.get(2..).unwrap_or(b""));
            }
            TraceLine::Sent(port, chars) => self.put_sent(seen, *port, chars.as_slice(), out)?,
            TraceLine::Got(port, chars) => self.put_got(*port, chars.as_slice(), out)?,
            TraceLine::Stepped(step) => self.put_step(seen.is_shown, step.get(), out),
            TraceLine::Fired(port) => self.put_fired(*port, out),
            TraceLine::Lacked(lack) => out.put(lack_words(*lack)),
            TraceLine::Ended => out.put(b"e "),
            TraceLine::Undetected(_, port, event) => {
                out.put(b"u!");
                self.put_number(*port, out);
                out.put(b"\t");
                out.put(seen.text);
                out.put(b"\t");
                put_event(out, &mut self.asked, event.get());
            }
        }
        out.put(b"\n");
        Ok(())
    }

    /// Characters that a port sends.
    fn put_sent(
        &mut self,
        seen: &Seen<'_>,
        port: PortRef,
        chars: &[Char],
        out: &mut Text,
    ) -> Result<(), AllocError> {
        let was_at_rest = self.ports.get(port).is_some_and(|it| it.sending.at_rest());
        self.put_head(port, Way::Out, chars, out)?;
        out.put(b"\t");
        put_chars(out, chars);
        out.put(b"\t");
        out.put_text(&self.words);
        if let Some(place) = self.ports.get_mut(port) {
            place.last.clear();
            place.is_whole = seen.is_shown && was_at_rest && place.sending.at_rest();
            if place.is_whole {
                place.last.extend_from_slice(chars)?;
            }
        }
        Ok(())
    }

    /// Characters that a port takes.
    fn put_got(&mut self, port: PortRef, chars: &[Char], out: &mut Text) -> Result<(), AllocError> {
        let is_same = self.is_same(port, chars);
        self.put_head(port, Way::In, chars, out)?;
        out.put(b"\t");
        if is_same {
            out.put(b"=");
        } else {
            put_chars(out, chars);
            out.put(b"\t");
            out.put_text(&self.words);
        }
        Ok(())
    }

    /// Whether a port takes what its peer sent in its last line.
    fn is_same(&self, port: PortRef, chars: &[Char]) -> bool {
        let Some(peer) = peer_of(self.links.as_slice(), port) else {
            return false;
        };
        match (self.ports.get(port), self.ports.get(peer)) {
            (Some(place), Some(peer)) => {
                peer.is_whole && place.taking.at_rest() && peer.last.as_slice() == chars
            }
            _ => false,
        }
    }

    /// The head of the record of characters. Their words come to `words`.
    fn put_head(
        &mut self,
        port: PortRef,
        way: Way,
        chars: &[Char],
        out: &mut Text,
    ) -> Result<(), AllocError> {
        self.words.clear();
        let Some(place) = self.ports.get_mut(port) else {
            return Ok(());
        };
        let before = place.halves;
        match way {
            Way::Out => {
                out.put(b"s");
                let halves = &mut place.halves;
                let telling = Telling::new(&mut self.words, &mut self.asked, halves, way);
                tell(&mut place.sending, chars, telling, out)?;
            }
            Way::In => {
                out.put(b"g");
                let halves = &mut place.halves;
                let telling = Telling::new(&mut self.words, &mut self.asked, halves, way);
                tell(&mut place.taking, chars, telling, out)?;
            }
        }
        out.put_number(u64::from(place.number));
        put_states(out, before, place.halves);
        Ok(())
    }

    /// The time-out of a port.
    fn put_fired(&mut self, port: PortRef, out: &mut Text) {
        if let Some(place) = self.ports.get_mut(port) {
            let before = place.halves;
            place.halves.fire();
            out.put(b"x!");
            out.put_number(u64::from(place.number));
            put_states(out, before, place.halves);
        }
    }

    /// A step of a packet.
    fn put_step(&mut self, is_shown: bool, step: &NetworkStep, out: &mut Text) {
        match step {
            NetworkStep::Take(node, packet) => self.put_at(b"t ", port_of(*node), packet, out),
            NetworkStep::Leave(node, packet) => self.put_at(b"l ", port_of(*node), packet, out),
            NetworkStep::Hold(port, packet) => self.put_at(b"h ", *port, packet, out),
            NetworkStep::Free(port, packet) => self.put_at(b"f ", *port, packet, out),
            NetworkStep::Drop(port, packet) => self.put_at(b"d!", *port, packet, out),
            NetworkStep::Move(from, to, packet) => {
                out.put(b"m ");
                self.put_number(*from, out);
                out.put(b"\t");
                self.put_number(*to, out);
                self.put_form(packet, out);
            }
            NetworkStep::Answer(port, request, response) => {
                out.put(b"a ");
                self.put_number(*port, out);
                self.step.clear();
                self.put_form(request, out);
                self.step.clear();
                self.put_form(response, out);
                self.step.clear();
            }
        }
        if !is_shown {
            self.step.clear();
        }
    }

    /// A step at a port.
    fn put_at(&mut self, kind: &[u8], port: PortRef, packet: &Packet, out: &mut Text) {
        out.put(kind);
        self.put_number(port, out);
        self.put_form(packet, out);
    }

    /// The bytes of a packet and its words, unless it is that of the step before.
    fn put_form(&mut self, packet: &Packet, out: &mut Text) {
        out.put(b"\t");
        if self.step.as_slice() == packet.bytes() {
            out.put(b"=");
            return;
        }
        self.step.clear();
        self.step.put(packet.bytes());
        out.put_hex(packet.bytes());
        out.put(b"\t");
        put_packet(out, &mut self.asked, packet);
    }
}

/// Tells what is heard of these characters, and puts the mark of it.
fn tell(
    ear: &mut Ear,
    chars: &[Char],
    mut telling: Telling,
    out: &mut Text,
) -> Result<(), AllocError> {
    listen(ear, chars, &mut telling)?;
    telling.end(ear.at_rest());
    out.put(telling.mark());
    Ok(())
}
