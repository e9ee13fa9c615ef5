//! The last line of a trace in which a port acted on an event that was not sent.
ghost use Rattle.std.specs.Prelude.{◌<◌, ◌∷◌, [], length};
ghost use Rattle.std.specs.Fmt.{decimal};
ghost use Rattle.rio_chars.specs.Written.{Writes};
ghost use Rattle.link_model.specs.declared.event.Event.TheVariants.{Ctl, Pkt};
ghost use Rattle.trace_lines.specs.Lines.{Undetected};
ghost use Rattle.trace_lines.specs.Text.{event_text};

use crate::writer::TraceWriter;
use fabric_script::{PortRef, write_port};
use link_model::Event;
use rio_chars::{Outbox, Sink};
use rio_packets::Packet;
use rio_symbols::Symbol;

impl<'o, 's, 'n, K: Sink> TraceWriter<'o, 's, 'n, K> {
    ghost use Rattle.trace_lines.specs.Writing.{Adds};

    /// Writes that the port acted on this event, which was not sent, in the event of the script's
    /// line of this number. Nothing is told of characters that are neither a symbol nor a packet: a
    /// port never acts on them.
    pub fn write_undetected(&mut self, number: u32, port: PortRef, event: &Event)
        requires { port.node < length self.old.names.now }
        ensures { Adds self.old self.new (Undetected number port event.now ∷ []) }
    {
        if self.outbox.is_unseen() {
            return;
        }
        self.outbox.write(b"undetected ");
        self.outbox.write_decimal(number);
        self.outbox.write(b" ");
        write_port(self.outbox, self.names, port);
        self.outbox.write(b" ");
        write_event(self.outbox, event);
        self.outbox.write(b"\n");
    }
}

/// Writes an event.
fn write_event<K: Sink>(outbox: &mut Outbox<K>, event: &Event)
    ensures { Writes outbox.old outbox.new (event_text event.now) }
{
    match event {
        Event::Ctl(symbol) => write_symbol(outbox, symbol),
        Event::Pkt(ack, packet) => write_packet_with_ack(outbox, *ack, packet),
        Event::Bad(_) => {}
    }
}

/// Writes a symbol.
fn write_symbol<K: Sink>(outbox: &mut Outbox<K>, symbol: &Symbol)
    ensures { Writes outbox.old outbox.new (event_text (Ctl symbol.now)) }
{
    outbox.write(b"symbol ");
    write_number(outbox, symbol.s0);
    outbox.write(b" ");
    write_number(outbox, symbol.p0);
    outbox.write(b" ");
    write_number(outbox, symbol.p1);
    outbox.write(b" ");
    write_number(outbox, symbol.s1);
    outbox.write(b" ");
    write_number(outbox, symbol.cmd);
}

/// Writes a packet, behind the ackID that it came with.
fn write_packet_with_ack<K: Sink>(outbox: &mut Outbox<K>, ack: u8, packet: &Packet)
    ensures { Writes outbox.old outbox.new (event_text (Pkt ack packet.now)) }
{
    outbox.write(b"packet ");
    write_number(outbox, ack);
    outbox.write(b" ");
    outbox.write_hex(packet.bytes());
}

/// Writes a number.
fn write_number<K: Sink>(outbox: &mut Outbox<K>, number: u8)
    ensures { Writes outbox.old outbox.new (decimal number) }
{
    outbox.write_decimal(u32::from(number));
}
