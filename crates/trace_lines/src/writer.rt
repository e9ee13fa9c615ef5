//! `TraceWriter`: a trace on its way to a sink.
ghost use Rattle.std.specs.Prelude.{◌≡◌, ◌<◌, ◌∷◌, ◌++◌, length, codes, []};
ghost use Rattle.rio_chars.specs.HexText.{hex_of};
ghost use Rattle.rio_chars.specs.Written.{Writes};
ghost use Rattle.fabric_model.specs.Steps.{Hold, Free, Linked, Take, Leave, AtNode, Move, Drop, Answer, ByDevice};
ghost use Rattle.fabric_script.specs.LineTexts.{AreNamed};
ghost use Rattle.trace_lines.specs.Lines.{Begun, Sent, Got, Fired, Stepped, Signed, Lacked, Ended};
ghost use Rattle.trace_lines.specs.Reads.{lack_of};
ghost use Rattle.trace_lines.specs.Text.{lack_text};

use crate::counts::{PacketCounts, one_more};
use crate::lines::Lack;
use fabric_script::{Line, Name, PortRef, write_line, write_name, write_port};
use rio_chars::{Char, Outbox, Sink};
use rio_packets::Packet;

/// A trace on its way to a sink. It knows the names of the nodes, and each method writes one line
/// of it: no text is made where nobody can see it. The lines of packets are counted. After a write
/// that fails the outbox drops what it is told: ask `failed` behind the last line.
#[derive(Drop)]
pub struct TraceWriter<'o, 's, 'n, K: Sink> {
    /// Where the lines go.
    pub outbox: &'o mut Outbox<'s, K>,
    /// The names of the nodes.
    pub names: &'n [Name],
    /// How many lines of packets were written.
    pub counts: PacketCounts,
}

impl<'o, 's, 'n, K: Sink> TraceWriter<'o, 's, 'n, K> {
    ghost use Rattle.trace_lines.specs.Writing.{Adds};

    /// Whether a write has failed.
    pub fn failed(&self) -> bool
        ensures { result ≡ self.now.outbox.now.failed }
    {
        self.outbox.failed()
    }

    /// Writes the line with which an event begins. It may be any line of a script whose nodes have
    /// names.
    pub fn write_begun(&mut self, line: &Line)
        requires { AreNamed self.old.names.now line.now }
        ensures { Adds self.old self.new (Begun line.now ∷ []) }
    {
        if self.outbox.is_unseen() {
            return;
        }
        self.outbox.write(b"> ");
        write_line(self.outbox, self.names, line);
        self.outbox.write(b"\n");
    }

    /// Writes that a port holds a packet.
    pub fn write_hold(&mut self, port: PortRef, packet: &Packet)
        requires { port.node < length self.old.names.now }
        ensures { Adds self.old self.new (Stepped (Linked (Hold port packet.now)) ∷ []) }
    {
        if self.outbox.is_unseen() {
            return;
        }
        self.outbox.write(b"hold ");
        write_port(self.outbox, self.names, port);
        write_packet(self.outbox, packet);
    }

    /// Writes that a port frees a packet.
    pub fn write_free(&mut self, port: PortRef, packet: &Packet)
        requires { port.node < length self.old.names.now }
        ensures { Adds self.old self.new (Stepped (Linked (Free port packet.now)) ∷ []) }
    {
        if self.outbox.is_unseen() {
            return;
        }
        self.outbox.write(b"free ");
        write_port(self.outbox, self.names, port);
        write_packet(self.outbox, packet);
    }

    /// Writes that an endpoint takes a packet.
    pub fn write_take(&mut self, node: u8, packet: &Packet)
        requires { node < length self.old.names.now }
        ensures { Adds self.old self.new (Stepped (AtNode (Take node packet.now)) ∷ []) }
    {
        self.counts.taken = one_more(self.counts.taken);
        if self.outbox.is_unseen() {
            return;
        }
        self.outbox.write(b"take ");
        write_name(self.outbox, self.names, node);
        write_packet(self.outbox, packet);
    }

    /// Writes that a packet leaves at an endpoint.
    pub fn write_leave(&mut self, node: u8, packet: &Packet)
        requires { node < length self.old.names.now }
        ensures { Adds self.old self.new (Stepped (AtNode (Leave node packet.now)) ∷ []) }
    {
        self.counts.left = one_more(self.counts.left);
        if self.outbox.is_unseen() {
            return;
        }
        self.outbox.write(b"leave ");
        write_name(self.outbox, self.names, node);
        write_packet(self.outbox, packet);
    }

    /// Writes that a switch moves a packet from a port to a port. The packet is as it came.
    pub fn write_move(&mut self, from: PortRef, to: PortRef, packet: &Packet)
        requires from { from.node < length self.old.names.now }
        requires to { to.node < length self.old.names.now }
        ensures { Adds self.old self.new (Stepped (ByDevice (Move from to packet.now)) ∷ []) }
    {
        if self.outbox.is_unseen() {
            return;
        }
        self.outbox.write(b"move ");
        write_port(self.outbox, self.names, from);
        self.outbox.write(b" ");
        write_port(self.outbox, self.names, to);
        write_packet(self.outbox, packet);
    }

    /// Writes that a switch drops a packet, which a port received.
    pub fn write_drop(&mut self, port: PortRef, packet: &Packet)
        requires { port.node < length self.old.names.now }
        ensures { Adds self.old self.new (Stepped (ByDevice (Drop port packet.now)) ∷ []) }
    {
        self.counts.dropped = one_more(self.counts.dropped);
        if self.outbox.is_unseen() {
            return;
        }
        self.outbox.write(b"drop ");
        write_port(self.outbox, self.names, port);
        write_packet(self.outbox, packet);
    }

    /// Writes that the registers of a node answer a packet, which a port received, with a response.
    pub fn write_answer(&mut self, port: PortRef, packet: &Packet, response: &Packet)
        requires { port.node < length self.old.names.now }
        ensures { Adds self.old self.new
            (Stepped (ByDevice (Answer port packet.now response.now)) ∷ []) }
    {
        if self.outbox.is_unseen() {
            return;
        }
        self.outbox.write(b"answer ");
        write_port(self.outbox, self.names, port);
        self.outbox.write(b" ");
        self.outbox.write_hex(packet.bytes());
        write_packet(self.outbox, response);
    }

    /// Writes that a port put these characters on its wire.
    pub fn write_sent(&mut self, port: PortRef, chars: &[Char])
        requires { port.node < length self.old.names.now }
        ensures { Adds self.old self.new (Signed (Sent port chars.now) ∷ []) }
    {
        if self.outbox.is_unseen() {
            return;
        }
        self.outbox.write(b"sent ");
        write_port(self.outbox, self.names, port);
        self.outbox.write_chars(chars);
        self.outbox.write(b"\n");
    }

    /// Writes that a port took these characters from its peer's wire.
    pub fn write_got(&mut self, port: PortRef, chars: &[Char])
        requires { port.node < length self.old.names.now }
        ensures { Adds self.old self.new (Signed (Got port chars.now) ∷ []) }
    {
        if self.outbox.is_unseen() {
            return;
        }
        self.outbox.write(b"got ");
        write_port(self.outbox, self.names, port);
        self.outbox.write_chars(chars);
        self.outbox.write(b"\n");
    }

    /// Writes that the time-out of a port fired.
    pub fn write_fire(&mut self, port: PortRef)
        requires { port.node < length self.old.names.now }
        ensures { Adds self.old self.new (Signed (Fired port) ∷ []) }
    {
        if self.outbox.is_unseen() {
            return;
        }
        self.outbox.write(b"fire ");
        write_port(self.outbox, self.names, port);
        self.outbox.write(b"\n");
    }

    /// Writes that there was nothing to do, and why.
    pub fn write_lack(&mut self, lack: Lack)
        ensures { Adds self.old self.new (Lacked (lack_of lack) ∷ []) }
    {
        if self.outbox.is_unseen() {
            return;
        }
        self.outbox.write(lack_text(lack));
        self.outbox.write(b"\n");
    }

    /// Writes that the trace ends.
    pub fn write_end(&mut self)
        ensures { Adds self.old self.new (Ended ∷ []) }
    {
        if self.outbox.is_unseen() {
            return;
        }
        self.outbox.write(b"end\n");
    }
}

/// The text of what is lacking.
fn lack_text(lack: Lack) -> &'static [u8]
    ensures { result.now ≡ lack_text (lack_of lack) }
{
    match lack {
        Lack::Full => b"full",
        Lack::Empty => b"empty",
        Lack::Short => b"short",
        Lack::Early => b"early",
        Lack::NoStep => b"none",
    }
}

/// Writes a packet, which ends its line.
fn write_packet<K: Sink>(outbox: &mut Outbox<K>, packet: &Packet)
    ensures { Writes outbox.old outbox.new (codes " " ++ (hex_of packet.now ++ codes "\n")) }
{
    outbox.write(b" ");
    outbox.write_hex(packet.bytes());
    outbox.write(b"\n");
}
