//! The texts of lines.
ghost use Rattle.std.specs.Prelude.{◌≡◌, ◌<◌, ◌∷◌, [], length, map};
ghost use Rattle.std.specs.Fmt.{decimal};
ghost use Rattle.rio_chars.specs.Written.{Writes};
ghost use Rattle.fabric_script.specs.LineTexts.{after_words};
ghost use Rattle.fabric_script.specs.Names.{name_of};
ghost use Rattle.fabric_script.specs.declared.values.Value.TheVariants.{Bytes};
ghost use Rattle.fabric_script.specs.Texts.{digits_text, value_text};
ghost use Rattle.io_script.specs.IoLines.{io_line_text, io_place, io_values_of, IsNamed};

use crate::lines::IoLine;
use fabric_script::{Name, put_bytes, put_node, put_number, put_value};
use io_packets::Load;
use rio_chars::{Outbox, Sink};

/// Writes the text of a line, without its line feed. Its node has a name.
pub fn write_io_line<K: Sink>(outbox: &mut Outbox<K>, names: &[Name], line: &IoLine)
    requires { IsNamed names.now line.now }
    ensures { Writes outbox.old outbox.new (io_line_text names.now line.now) }
{
    outbox.write(line.form().keyword());
    write_words(outbox, names, line);
}

/// Writes the words behind the keyword, a space before each.
fn write_words<K: Sink>(outbox: &mut Outbox<K>, names: &[Name], line: &IoLine)
    requires { IsNamed names.now line.now }
    ensures { Writes outbox.old outbox.new
        (after_words [] (map (value_text names.now) (io_values_of line.now))) }
{
    match line {
        IoLine::Memory { node, bytes } => {
            put_node(outbox, names, *node);
            put_number(outbox, *bytes);
        }
        IoLine::NRead {
            node,
            dest,
            addr,
            size,
        } => {
            write_place(outbox, names, *node, *dest, *addr);
            put_number(outbox, u32::from(*size));
        }
        IoLine::NWrite {
            node,
            dest,
            addr,
            load,
        }
        | IoLine::NWriteR {
            node,
            dest,
            addr,
            load,
        }
        | IoLine::SWrite {
            node,
            dest,
            addr,
            load,
        } => write_write(outbox, names, *node, *dest, *addr, load),
        IoLine::Round => {}
    }
}

/// Writes who asks to write, whom, at which address, and the data.
fn write_write<K: Sink>(
    outbox: &mut Outbox<K>,
    names: &[Name],
    node: u8,
    dest: u8,
    addr: u32,
    load: &Load,
)
    requires { node < length names.now }
    ensures { Writes outbox.old outbox.new (after_words []
        (map (value_text names.now) (io_place node dest addr (Bytes load.now)))) }
{
    write_place(outbox, names, node, dest, addr);
    put_bytes(outbox, load.as_slice());
}

/// Writes who asks, whom, and at which address.
fn write_place<K: Sink>(outbox: &mut Outbox<K>, names: &[Name], node: u8, dest: u8, addr: u32)
    requires { node < length names.now }
    ensures { Writes outbox.old outbox.new
        (after_words [] (name_of names.now node ∷ decimal dest ∷ digits_text 8 addr ∷ [])) }
{
    put_node(outbox, names, node);
    put_number(outbox, u32::from(dest));
    put_value(outbox, addr);
}
