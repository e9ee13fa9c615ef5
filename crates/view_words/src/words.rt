//! A trace with words behind each line, or one line for each transfer.

use crate::behind::put_chars;
use crate::fabric::{Ports, links_of, peer_of, put_node, put_port};
use crate::heard::{Ear, listen};
use crate::packets::{AskedRegisters, put_packet, put_sent_packet};
use crate::reading::ViewEnd;
use crate::symbols::{bad_words, put_symbol};
use crate::text::Text;
use crate::transfers::{Faults, Transfers, put_at, put_line_number};
use crate::view::{Seen, Setting, View};
use fabric_script::PortRef;
use link_model::Event;
use rio_chars::Char;
use rio_packets::Packet;
use std::alloc::{AllocError, Global};
use trace_lines::{Lack, NetworkStep, TraceLine};

/// A trace in words.
#[derive(Drop)]
pub struct WordsView {
    flow: bool,
    sending: Ports<Ear>,
    taking: Ports<Ear>,
    links: Vec<(PortRef, PortRef)>,
    asked: AskedRegisters,
    alloc: Global,
}

impl WordsView {
    /// Nothing was read. With `flow`, one line is written for each transfer.
    pub fn new(alloc: Global, flow: bool) -> Result<WordsView, AllocError> {
        Ok(WordsView {
            flow,
            sending: Ports::new(alloc),
            taking: Ports::new(alloc),
            links: Vec::new(alloc),
            asked: AskedRegisters::new(alloc)?,
            alloc,
        })
    }
}

impl View for WordsView {
    fn begin(&mut self, setting: Setting<'_>, _: &mut Text) -> Result<(), ViewEnd> {
        let nodes = setting.set_up.names().len();
        self.sending.fill(nodes)?;
        self.taking.fill(nodes)?;
        self.links = links_of(self.alloc, setting.set_up)?;
        Ok(())
    }

    fn take(&mut self, seen: &Seen<'_>, out: &mut Text) -> Result<(), ViewEnd> {
        let begin = out.len();
        if self.flow {
            self.put_flow(seen, out)?;
        } else {
            self.put_whole(seen, out)?;
        }
        if !seen.is_shown {
            out.truncate(begin);
        }
        Ok(())
    }

    fn end(&mut self, _: Setting<'_>, _: &mut Text) -> Result<(), ViewEnd> {
        Ok(())
    }
}

impl WordsView {
    /// The line, and its words behind it if it has any.
    fn put_whole(&mut self, seen: &Seen<'_>, out: &mut Text) -> Result<(), AllocError> {
        put_line_number(out, seen.number);
        out.put(seen.text);
        match seen.line {
            TraceLine::Sent(port, chars) => {
                let ear = self.sending.get_mut(*port);
                put_chars(out, &mut self.asked, ear, chars.as_slice())?;
            }
            TraceLine::Got(port, chars) => {
                let ear = self.taking.get_mut(*port);
                put_chars(out, &mut self.asked, ear, chars.as_slice())?;
            }
            line => self.put_words(out, line),
        }
        out.put(b"\n");
        Ok(())
    }

    /// The words of a line that has no characters of a wire, if it has any.
    fn put_words(&mut self, out: &mut Text, line: &TraceLine) {
        match line {
            TraceLine::Stepped(step) => self.put_step(out, step.get()),
            TraceLine::Undetected(_, _, event) => {
                out.put(b"  # ");
                put_event(out, &mut self.asked, event.get());
            }
            TraceLine::Begun(_)
            | TraceLine::Sent(..)
            | TraceLine::Got(..)
            | TraceLine::Fired(_)
            | TraceLine::Lacked(_)
            | TraceLine::Ended => {}
        }
    }

    /// The words of the packets of a step.
    fn put_step(&mut self, out: &mut Text, step: &NetworkStep) {
        out.put(b"  # ");
        match step {
            NetworkStep::Hold(_, packet)
            | NetworkStep::Free(_, packet)
            | NetworkStep::Take(_, packet)
            | NetworkStep::Leave(_, packet)
            | NetworkStep::Move(_, _, packet)
            | NetworkStep::Drop(_, packet) => put_packet(out, &mut self.asked, packet),
            NetworkStep::Answer(_, request, response) => {
                put_packet(out, &mut self.asked, request);
                out.put(b" -> ");
                put_packet(out, &mut self.asked, response);
            }
        }
    }

    /// The line of an event, and one line for each transfer and each end of a packet.
    fn put_flow(&mut self, seen: &Seen<'_>, out: &mut Text) -> Result<(), AllocError> {
        match seen.line {
            TraceLine::Sent(port, chars) => {
                self.put_transfers(out, seen, *port, chars.as_slice())
            }
            TraceLine::Got(port, chars) => self.put_faults(out, seen, *port, chars.as_slice()),
            _ => {
                self.put_other(out, seen);
                Ok(())
            }
        }
    }

    /// The line of an event, and one line for what happens but on a wire.
    fn put_other(&mut self, out: &mut Text, seen: &Seen<'_>) {
        match seen.line {
            TraceLine::Stepped(step) => self.put_end(out, seen, step.get()),
            TraceLine::Fired(port) => put_at(out, seen, *port, b": time-out\n"),
            TraceLine::Lacked(lack) => {
                put_line_number(out, seen.number);
                put_lack(out, *lack);
            }
            TraceLine::Undetected(_, port, event) => {
                put_at(out, seen, *port, b": undetected: ");
                put_event(out, &mut self.asked, event.get());
                out.put(b"\n");
            }
            TraceLine::Begun(_) | TraceLine::Ended => {
                put_line_number(out, seen.number);
                out.put(seen.text);
                out.put(b"\n");
            }
            TraceLine::Sent(..) | TraceLine::Got(..) => {}
        }
    }

    /// A line for each packet and symbol that a port sends.
    fn put_transfers(
        &mut self,
        out: &mut Text,
        seen: &Seen<'_>,
        port: PortRef,
        chars: &[Char],
    ) -> Result<(), AllocError> {
        let Some(ear) = self.sending.get_mut(port) else {
            return Ok(());
        };
        let mut transfers = Transfers {
            out,
            asked: &mut self.asked,
            seen,
            port,
            peer: peer_of(self.links.as_slice(), port),
        };
        listen(ear, chars, &mut transfers)
    }

    /// A line for each thing that a port takes and that is neither a packet nor a symbol.
    fn put_faults(
        &mut self,
        out: &mut Text,
        seen: &Seen<'_>,
        port: PortRef,
        chars: &[Char],
    ) -> Result<(), AllocError> {
        let Some(ear) = self.taking.get_mut(port) else {
            return Ok(());
        };
        let mut faults = Faults { out, seen, port };
        listen(ear, chars, &mut faults)
    }

    /// A line for a packet that leaves the fabric, or is answered or dropped; any other stays.
    fn put_end(&mut self, out: &mut Text, seen: &Seen<'_>, step: &NetworkStep) {
        match step {
            NetworkStep::Drop(port, packet) => {
                put_step_at(out, seen, b"drop ", *port);
                self.put_last(out, packet);
            }
            NetworkStep::Answer(port, request, response) => {
                put_step_at(out, seen, b"answer ", *port);
                self.asked.note(request);
                self.put_last(out, response);
            }
            NetworkStep::Leave(node, packet) => {
                put_line_number(out, seen.number);
                out.put(b"  leave ");
                put_node(out, seen.set_up, *node);
                self.put_last(out, packet);
            }
            _ => {}
        }
    }

    /// The words of a packet at the end of a line.
    fn put_last(&mut self, out: &mut Text, packet: &Packet) {
        out.put(b": ");
        put_packet(out, &mut self.asked, packet);
        out.put(b"\n");
    }
}

/// The beginning of a line of a step at a port.
fn put_step_at(out: &mut Text, seen: &Seen<'_>, word: &[u8], port: PortRef) {
    put_line_number(out, seen.number);
    out.put(b"  ");
    out.put(word);
    put_port(out, seen.set_up, port);
}

/// Why nothing was done.
fn put_lack(out: &mut Text, lack: Lack) {
    out.put(match lack {
        Lack::Full => b"  full\n",
        Lack::Empty => b"  empty\n",
        Lack::Short => b"  short\n",
        Lack::Early => b"  early\n",
        Lack::NoStep => b"  none\n",
    });
}

/// What an event says.
pub fn put_event(out: &mut Text, asked: &mut AskedRegisters, event: &Event) {
    match event {
        Event::Ctl(symbol) => put_symbol(out, symbol),
        Event::Pkt(ack, packet) => put_sent_packet(out, asked, *ack, packet),
        Event::Bad(cause) => out.put(bad_words(*cause)),
    }
}
