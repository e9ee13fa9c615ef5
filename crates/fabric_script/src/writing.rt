//! A line of a script, written to an outbox.

ghost use Rattle.std.specs.Prelude.{◌≡◌, ◌∷◌, ◌<◌, [], false, length};
ghost use Rattle.std.specs.Fmt.{decimal};
ghost use Rattle.rio_chars.specs.Written.{Writes};
ghost use Rattle.fabric_script.specs.Texts.{digits_text};
ghost use Rattle.fabric_script.specs.GivenPackets.{line_giving};
ghost use Rattle.fabric_script.specs.Operations.{line_for, line_editing};
ghost use Rattle.fabric_script.specs.Lines.{is_event, line_text};
ghost use Rattle.fabric_script.specs.LineTexts.{AreNamed, after_words, value_texts};

use crate::given_packets::{Contents, GivenPacket, RequestHead};
use crate::lines::Line;
use crate::names::Name;
use crate::operations::{Action, Operation};
use crate::ports::PortRef;
use crate::spaced::{
    put_bytes, put_char, put_node, put_node_number, put_number, put_numbers, put_offset, put_port,
    put_port_number, put_value,
};
use rio_chars::{Edit, Outbox, Sink};

/// Writes a line, without its line feed. Its nodes have names.
pub fn write_line<K: Sink>(outbox: &mut Outbox<K>, names: &[Name], line: &Line)
    requires { AreNamed names.now line.now }
    ensures { Writes outbox.old outbox.new (line_text names.now line.now) }
{
    outbox.write(line.form().keyword());
    put_words(outbox, names, line);
}

/// Puts the words behind the keyword.
fn put_words<K: Sink>(outbox: &mut Outbox<K>, names: &[Name], line: &Line)
    requires { AreNamed names.now line.now }
    ensures { Writes outbox.old outbox.new
        (after_words [] (value_texts names.now line.now)) }
{
    match line.operation() {
        Operation::SetUp => put_set_up(outbox, names, line),
        Operation::Give(given) => put_packet(outbox, names, &given),
        Operation::AtLink(port, action) => put_action(outbox, names, port, action),
        Operation::Edit(port, edit) => put_edit(outbox, names, port, edit),
        Operation::Move(node) | Operation::Collect(node) => put_node(outbox, names, node),
        Operation::Run(n) => put_number(outbox, n),
    }
}

/// Puts the words of a line that sets the fabric up.
fn put_set_up<K: Sink>(outbox: &mut Outbox<K>, names: &[Name], line: &Line)
    requires named { AreNamed names.now line.now }
    requires set_up { is_event line.now ≡ false }
    ensures { Writes outbox.old outbox.new
        (after_words [] (value_texts names.now line.now)) }
{
    match line {
        Line::Endpoint { name, id } => put_node_number(outbox, names, *name, u32::from(*id)),
        Line::Switch { name, ports } => put_node_number(outbox, names, *name, u32::from(*ports)),
        Line::Link { a, b } => {
            put_port(outbox, names, *a);
            put_port(outbox, names, *b);
        }
        Line::Buffers { port, n } => put_port_number(outbox, names, *port, u32::from(*n)),
        Line::Route { node, id, p } => {
            put_node(outbox, names, *node);
            put_numbers(outbox, u32::from(*id), u32::from(*p));
        }
        Line::Default { node, p } => put_node_number(outbox, names, *node, u32::from(*p)),
        Line::Lock { node, id } | Line::Large { node, id } => {
            put_node_number(outbox, names, *node, u32::from(*id));
        }
        Line::Credits { port } => put_port(outbox, names, *port),
        _ => {}
    }
}

/// Puts the words of a packet that is given to an endpoint.
fn put_packet<K: Sink>(outbox: &mut Outbox<K>, names: &[Name], given: &GivenPacket)
    requires { given.now.node < length names.now }
    ensures { Writes outbox.old outbox.new
        (after_words [] (value_texts names.now (line_giving given.now))) }
{
    put_node_number(outbox, names, given.node, u32::from(given.prio));
    match given.contents {
        Contents::Data(ftype, hex) => {
            put_numbers(outbox, u32::from(ftype), u32::from(given.dest));
            put_bytes(outbox, hex.as_slice());
        }
        Contents::Read(head) => put_access(outbox, given.dest, head),
        Contents::Write(head, value) => {
            put_access(outbox, given.dest, head);
            put_value(outbox, value);
        }
    }
}

/// Puts where a maintenance request goes, its number, and the register that it asks for.
fn put_access<K: Sink>(outbox: &mut Outbox<K>, dest: u16, head: RequestHead)
    ensures { Writes outbox.old outbox.new (after_words []
        (decimal dest ∷ decimal head.hop ∷ decimal head.tid ∷ digits_text 6 head.offset ∷ [])) }
{
    put_numbers(outbox, u32::from(dest), u32::from(head.hop));
    put_number(outbox, u32::from(head.tid));
    put_offset(outbox, head.offset);
}

/// Puts the words of what the link of a port does.
fn put_action<K: Sink>(outbox: &mut Outbox<K>, names: &[Name], port: PortRef, action: Action)
    requires { port.node < length names.now }
    ensures { Writes outbox.old outbox.new
        (after_words [] (value_texts names.now (line_for port action))) }
{
    match action {
        Action::Pump(n) | Action::Deliver(n) => put_port_number(outbox, names, port, n),
        Action::TimeOut | Action::Settle => put_port(outbox, names, port),
    }
}

/// Puts the words of a change of what a port has sent.
fn put_edit<K: Sink>(outbox: &mut Outbox<K>, names: &[Name], port: PortRef, edit: Edit)
    requires { port.node < length names.now }
    ensures { Writes outbox.old outbox.new
        (after_words [] (value_texts names.now (line_editing port edit))) }
{
    match edit {
        Edit::Alter { place, ch } | Edit::Insert { place, ch } => {
            put_port_number(outbox, names, port, place);
            put_char(outbox, ch);
        }
        Edit::Erase { place, count } => {
            put_port(outbox, names, port);
            put_numbers(outbox, place, count);
        }
    }
}
