//! The lines that say what was asked.
ghost use Rattle.std.specs.Prelude.{◌++◌, ◌<◌, codes, length};
ghost use Rattle.rio_chars.specs.Written.{Writes};
ghost use Rattle.fabric_script.specs.Names.{name_of};
ghost use Rattle.io_memory.specs.MetLines.{met_text};
ghost use Rattle.io_script.specs.IoLines.{io_line_text, IsNamed};
ghost use Rattle.io_rounds.specs.RoundLines.{tid_text, asked_text};

use fabric_script::Name;
use io_memory::{Met, write_met};
use io_script::{IoLine, write_io_line};
use rio_chars::{Outbox, Sink};

/// Writes the line that a line of the script begins with.
pub(crate) fn write_begun_line<K: Sink>(outbox: &mut Outbox<K>, names: &[Name], line: &IoLine)
    requires { IsNamed names.now line.now }
    ensures { Writes outbox.old outbox.new
        (codes "> " ++ (io_line_text names.now line.now ++ codes "\n")) }
{
    outbox.write(b"> ");
    write_io_line(outbox, names, line);
    outbox.write(b"\n");
}

/// Writes that a node has sent a request with this number, or one without a number.
pub(crate) fn write_asked<K: Sink>(
    outbox: &mut Outbox<K>,
    names: &[Name],
    node: u8,
    tid: Option<u8>,
)
    requires { node < length names.now }
    ensures { Writes outbox.old outbox.new
        (asked_text (name_of names.now node) tid ++ codes "\n") }
{
    outbox.write(b"ask ");
    outbox.write(names[usize::from(node)].as_slice());
    outbox.write(b" ");
    write_tid(outbox, tid);
    outbox.write(b"\n");
}

/// Writes a number, or a dash if there is none.
fn write_tid<K: Sink>(outbox: &mut Outbox<K>, tid: Option<u8>)
    ensures { Writes outbox.old outbox.new (tid_text tid) }
{
    match tid {
        Some(tid) => outbox.write_decimal(u32::from(tid)),
        None => outbox.write(b"-"),
    }
}

/// Writes what became of a packet that left at a node.
pub(crate) fn write_left<K: Sink>(outbox: &mut Outbox<K>, names: &[Name], node: u8, met: &Met)
    requires { node < length names.now }
    ensures { Writes outbox.old outbox.new
        (met_text (name_of names.now node) met.now ++ codes "\n") }
{
    write_met(outbox, names[usize::from(node)].as_slice(), met);
}
