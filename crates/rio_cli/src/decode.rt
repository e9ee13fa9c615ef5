//! Characters are read and the lines of their reading written.
ghost use Rattle.std.specs.Prelude.{◌≡◌, ◌≤◌, true, false, [], length, IsErrOf, OnOk};
ghost use Rattle.std.specs.Io.KnownBytes.{Appends, Keeps};
ghost use Rattle.rio_chars.specs.Faults.{Rose};
ghost use Rattle.rio_chars.specs.Fronts.{AppendsFront};
ghost use Rattle.link_model.specs.Places.{place_start, run, place_after, at_rest};
ghost use Rattle.rio_cli.specs.Inputs.{most_input};
ghost use Rattle.rio_cli.specs.Decoding.{decode_text};
ghost use Rattle.rio_cli.specs.declared.decode.DecodeEnd.TheVariants.{NoMemory};

use crate::lines::{write_end, write_told};
use rio_chars::{Char, Outbox, Sink, TextBuffer};
use rio_framer::Framer;
use std::alloc::Global;

/// Why the writing ended early.
#[derive(Clone, Copy, Debug, PartialEq, Eq)]
pub(crate) enum DecodeEnd {
    /// The sink failed.
    WriteFault,
    /// Memory ran out.
    NoMemory,
}

impl From<rio_chars::NoMemory> for DecodeEnd {
    ghost from_gives = { λ _ end. end ≡ NoMemory };

    fn from(_: rio_chars::NoMemory) -> Self {
        DecodeEnd::NoMemory
    }
}

/// Writes the lines of the reading of characters, and the last line, in pieces of kilobytes. All
/// memory is taken before anything is written, and after a write that fails nothing more is read.
pub(crate) fn decode_chars<K: Sink>(
    alloc: Global,
    chars: &[Char],
    sink: &mut K,
) -> Result<(), DecodeEnd>
    requires { length chars.now ≤ most_input }
    ensures done { OnOk result (Appends (K.written sink.old) (K.written sink.new)
        (decode_text (run place_start 0 chars.now) (at_rest (place_after place_start chars.now)))) }
    ensures write_fault { IsErrOf result DecodeEnd.WriteFault
        → Rose (K.faults sink.old) (K.faults sink.new)
        × AppendsFront (K.written sink.old) (K.written sink.new)
        (decode_text (run place_start 0 chars.now) (at_rest (place_after place_start chars.now))) }
    ensures no_memory { IsErrOf result DecodeEnd.NoMemory
        → Keeps (K.written sink.old) (K.written sink.new) }
    ensures counts { ¬ IsErrOf result DecodeEnd.WriteFault
        → K.faults sink.new ≡ K.faults sink.old }
    ensures never_falls { K.faults sink.old ≤ K.faults sink.new }
{
    let mut buffer = TextBuffer::new(alloc)?;
    let mut outbox = Outbox::new(&mut buffer, sink);
    write_reading(chars, &mut outbox);
    let failed = outbox.failed();
    outbox.into_sink();
    if failed {
        return Err(DecodeEnd::WriteFault);
    }
    Ok(())
}

/// Writes the lines of the reading, up to the character at which a write failed.
fn write_reading<K: Sink>(chars: &[Char], outbox: &mut Outbox<K>)
    requires length { length chars.now ≤ most_input }
    requires fine { outbox.old.failed ≡ false }
    requires empty { outbox.old.waiting ≡ [] }
    ensures same { outbox.new.sink ≡ outbox.old.sink }
    ensures done { outbox.new.failed ≡ false
        → Appends outbox.old.written outbox.new.written
        (decode_text (run place_start 0 chars.now) (at_rest (place_after place_start chars.now))) }
    ensures write_fault { outbox.new.failed ≡ true
        → Rose outbox.old.faults outbox.new.faults
        × AppendsFront outbox.old.written outbox.new.written
        (decode_text (run place_start 0 chars.now) (at_rest (place_after place_start chars.now))) }
    ensures counts { outbox.new.failed ≡ false → outbox.new.faults ≡ outbox.old.faults }
    ensures never_falls { outbox.old.faults ≤ outbox.new.faults }
{
    let mut framer = Framer::new();
    let mut left = chars;
    let mut place = 0u32;
    while !left.is_empty() {
        let (count, told) = framer.read_run(left);
        left = &left[count..];
        place += count as u32;
        write_told(outbox, place - 1, told, &framer);
        if outbox.failed() {
            return;
        }
    }
    write_end(outbox, framer.at_rest());
    outbox.flush();
}
