//! Words of a line, each put behind a space.

ghost use Rattle.std.specs.Prelude.{◌<◌, ◌∷◌, [], length};
ghost use Rattle.std.specs.Fmt.{decimal};
ghost use Rattle.rio_chars.specs.CharText.{char_text_of};
ghost use Rattle.rio_chars.specs.Written.{Writes};
ghost use Rattle.fabric_script.specs.Names.{name_of};
ghost use Rattle.fabric_script.specs.Texts.{port_text, hex_text, digits_text};
ghost use Rattle.fabric_script.specs.LineTexts.{after_words};

use crate::names::Name;
use crate::ports::PortRef;
use rio_chars::{Char, Outbox, Sink, char_text};

/// Puts a node.
pub fn put_node<K: Sink>(outbox: &mut Outbox<K>, names: &[Name], node: u8)
    requires { node < length names.now }
    ensures { Writes outbox.old outbox.new
        (after_words [] (name_of names.now node ∷ [])) }
{
    outbox.write(b" ");
    write_name(outbox, names, node);
}

/// Puts a port.
pub(crate) fn put_port<K: Sink>(outbox: &mut Outbox<K>, names: &[Name], port: PortRef)
    requires { port.node < length names.now }
    ensures { Writes outbox.old outbox.new
        (after_words [] (port_text names.now port ∷ [])) }
{
    outbox.write(b" ");
    write_port(outbox, names, port);
}

/// Puts a number.
pub fn put_number<K: Sink>(outbox: &mut Outbox<K>, n: u32)
    ensures { Writes outbox.old outbox.new (after_words [] (decimal n ∷ [])) }
{
    outbox.write(b" ");
    outbox.write_decimal(n);
}

/// Puts two numbers.
pub(crate) fn put_numbers<K: Sink>(outbox: &mut Outbox<K>, first: u32, second: u32)
    ensures { Writes outbox.old outbox.new
        (after_words [] (decimal first ∷ decimal second ∷ [])) }
{
    put_number(outbox, first);
    put_number(outbox, second);
}

/// Puts a node and a number.
pub(crate) fn put_node_number<K: Sink>(outbox: &mut Outbox<K>, names: &[Name], node: u8, n: u32)
    requires { node < length names.now }
    ensures { Writes outbox.old outbox.new
        (after_words [] (name_of names.now node ∷ decimal n ∷ [])) }
{
    put_node(outbox, names, node);
    put_number(outbox, n);
}

/// Puts a port and a number.
pub(crate) fn put_port_number<K: Sink>(
    outbox: &mut Outbox<K>,
    names: &[Name],
    port: PortRef,
    n: u32,
)
    requires { port.node < length names.now }
    ensures { Writes outbox.old outbox.new
        (after_words [] (port_text names.now port ∷ decimal n ∷ [])) }
{
    put_port(outbox, names, port);
    put_number(outbox, n);
}

/// Puts a character.
pub(crate) fn put_char<K: Sink>(outbox: &mut Outbox<K>, ch: Char)
    ensures { Writes outbox.old outbox.new
        (after_words [] (char_text_of ch ∷ [])) }
{
    outbox.write(b" ");
    outbox.write(&char_text(ch));
}

/// Puts bytes in hexadecimal, and a hyphen for no bytes.
pub fn put_bytes<K: Sink>(outbox: &mut Outbox<K>, bytes: &[u8])
    ensures { Writes outbox.old outbox.new
        (after_words [] (hex_text bytes.now ∷ [])) }
{
    outbox.write(b" ");
    if bytes.is_empty() {
        outbox.write(b"-");
    } else {
        outbox.write_hex(bytes);
    }
}

/// Puts the offset of a register, in six hexadecimal digits.
pub(crate) fn put_offset<K: Sink>(outbox: &mut Outbox<K>, offset: u32)
    ensures { Writes outbox.old outbox.new
        (after_words [] (digits_text 6 offset ∷ [])) }
{
    outbox.write(b" ");
    outbox.write_hex(&offset.to_be_bytes()[1..]);
}

/// Puts a value of 32 bits, in eight hexadecimal digits.
pub fn put_value<K: Sink>(outbox: &mut Outbox<K>, value: u32)
    ensures { Writes outbox.old outbox.new
        (after_words [] (digits_text 8 value ∷ [])) }
{
    outbox.write(b" ");
    outbox.write_hex(&value.to_be_bytes());
}

/// Writes the name of a node.
pub fn write_name<K: Sink>(outbox: &mut Outbox<K>, names: &[Name], node: u8)
    requires { node < length names.now }
    ensures { Writes outbox.old outbox.new (name_of names.now node) }
{
    outbox.write(names[usize::from(node)].as_slice());
}

/// Writes a port: the name of its node, a point and its number.
pub fn write_port<K: Sink>(outbox: &mut Outbox<K>, names: &[Name], port: PortRef)
    requires { port.node < length names.now }
    ensures { Writes outbox.old outbox.new (port_text names.now port) }
{
    write_name(outbox, names, port.node);
    outbox.write(b".");
    outbox.write_decimal(u32::from(port.port));
}
