//! The lines that say what became of packets.
ghost use Rattle.std.specs.Prelude.{◌++◌, codes};
ghost use Rattle.std.specs.Fmt.{decimal};
ghost use Rattle.rio_chars.specs.HexText.{hex_of};
ghost use Rattle.rio_chars.specs.Written.{Writes};
ghost use Rattle.io_memory.specs.MetLines.{addr_text, data_text, met_text};

use crate::meeting::Met;
use io_packets::Load;
use rio_chars::{Outbox, Sink};

/// Writes the line that says what became of a packet at the endpoint of this name.
pub fn write_met<K: Sink>(outbox: &mut Outbox<K>, name: &[u8], met: &Met)
    ensures { Writes outbox.old outbox.new
        (met_text name.now met.now ++ codes "\n") }
{
    match met {
        Met::Read { addr, load } => write_access(outbox, b"read ", name, *addr, load),
        Met::Written { addr, load } => write_access(outbox, b"write ", name, *addr, load),
        Met::Failed { ftype } => write_type(outbox, b"fail ", name, *ftype),
        Met::Done { tid, status, load } => write_done(outbox, name, *tid, *status, load),
        Met::Other { ftype } => write_type(outbox, b"other ", name, *ftype),
    }
}

/// Writes a line with a word, a name, an address and data.
fn write_access<K: Sink>(outbox: &mut Outbox<K>, word: &[u8], name: &[u8], addr: u32, load: &Load)
    ensures { Writes outbox.old outbox.new
        (word.now ++ name.now ++ codes " " ++ addr_text addr ++ codes " " ++ hex_of load.now
        ++ codes "\n") }
{
    outbox.write(word);
    outbox.write(name);
    outbox.write(b" ");
    outbox.write_hex(&addr.to_be_bytes());
    outbox.write(b" ");
    outbox.write_hex(load.as_slice());
    outbox.write(b"\n");
}

/// Writes a line with a word, a name and a format type.
fn write_type<K: Sink>(outbox: &mut Outbox<K>, word: &[u8], name: &[u8], ftype: u8)
    ensures { Writes outbox.old outbox.new
        (word.now ++ name.now ++ codes " " ++ decimal ftype ++ codes "\n") }
{
    outbox.write(word);
    outbox.write(name);
    outbox.write(b" ");
    outbox.write_decimal(u32::from(ftype));
    outbox.write(b"\n");
}

/// Writes the line of a response.
fn write_done<K: Sink>(
    outbox: &mut Outbox<K>,
    name: &[u8],
    tid: u8,
    status: u8,
    load: &Option<Load>,
)
    ensures { Writes outbox.old outbox.new
        (codes "done " ++ name.now ++ codes " " ++ decimal tid ++ codes " " ++ decimal status
        ++ codes " " ++ data_text load.now ++ codes "\n") }
{
    outbox.write(b"done ");
    outbox.write(name);
    outbox.write(b" ");
    outbox.write_decimal(u32::from(tid));
    outbox.write(b" ");
    outbox.write_decimal(u32::from(status));
    outbox.write(b" ");
    write_data(outbox, load);
    outbox.write(b"\n");
}

/// Writes data, or a dash if there are none.
fn write_data<K: Sink>(outbox: &mut Outbox<K>, load: &Option<Load>)
    ensures { Writes outbox.old outbox.new (data_text load.now) }
{
    match load {
        Some(load) => outbox.write_hex(load.as_slice()),
        None => outbox.write(b"-"),
    }
}
