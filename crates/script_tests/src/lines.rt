//! Each line that is written here stands in a trace of two endpoints.
ghost use Rattle.std.specs.Prelude.{◌≡◌, ◌<◌, ◌≤◌, ◌++◌, ◌∷◌, [], length, OnOk, OnErr, IfOk, IsErrOf, List};
ghost use Rattle.rio_chars.specs.Faults.{Rose};
ghost use Rattle.rio_chars.specs.Written.{Writes};
ghost use Rattle.link_watch.specs.Stops.{Stopped};
ghost use Rattle.link_watch.specs.declared.note.Note.{Note};
ghost use Rattle.trace_lines.specs.Text.{trace_text};
ghost use Rattle.trace_lines.specs.Notes.{lines_of};

use fabric_script::{Name, PortRef, read_name};
use link_watch::{Note, NoteEnd, Side, Watch};
use rio_chars::{Char, Chars, MemSink, Outbox, Sink, TextBuffer};
use rio_packets::{Packet, check};
use std::alloc::Global;
use std::process::Abort;
use std::test::Fail;
use trace_lines::*;

/// The bytes of a packet of type 15, from one endpoint to the other.
const FORM: [u8; 12] = [0, 15, 2, 1, 0xca, 0xfe, 0, 1, 0xa9, 0xbb, 0, 0];

/// The same with no data.
const SHORT_FORM: [u8; 8] = [0, 15, 2, 1, 0xde, 0xb2, 0, 0];

const SYMBOL: [Char; 4] = [
    Char::Special(0x1c),
    Char::Data(0),
    Char::Data(0xff),
    Char::Data(0x16),
];

pub(crate) const NEAR: PortRef = PortRef { node: 0, port: 0 };

pub(crate) const FAR: PortRef = PortRef { node: 1, port: 0 };

const LINES: &[u8] = b"take A 000f0201cafe0001a9bb0000\nfire A.0\nsent B.0 k1c d00 dff d16\n\
got A.0 k1c d00 dff d16\nhold B.0 000f0201cafe0001a9bb0000\nfree A.0 000f0201cafe0001a9bb0000\n\
leave B 000f0201cafe0001a9bb0000\nmove A.0 B.0 000f0201cafe0001a9bb0000\n\
drop B.0 000f0201cafe0001a9bb0000\nanswer B.0 000f0201cafe0001a9bb0000 000f0201deb20000\n\
full\nempty\nshort\nearly\nnone\nend\n";

const NOTES: &[u8] = b"fire A.0\nsent A.0 k1c d00 dff d16\ngot B.0 k1c d00 dff d16\n\
hold B.0 000f0201cafe0001a9bb0000\nsent B.0 k1c d00 dff d16\ngot A.0 k1c d00 dff d16\n\
free A.0 000f0201cafe0001a9bb0000\n";

/// What an outbox writes to: a sink in memory, and the text before it.
#[derive(Drop)]
pub(crate) struct Page {
    pub(crate) sink: MemSink,
    pub(crate) buffer: TextBuffer,
}

impl Page {
    /// An empty page, with room for the lines of a test. The writes of this list fail.
    pub(crate) fn new(alloc: Global, failing: Vec<u32>) -> Result<Page, Fail> {
        Ok(Page {
            sink: MemSink::new(alloc, 512, 64, failing)?,
            buffer: TextBuffer::new(alloc)?,
        })
    }
}

/// The names of the two endpoints.
pub(crate) fn two_names(rt: &impl Abort, alloc: Global) -> Result<Vec<Name>, Fail>
    ensures two { IfOk result (λ names. length names.items ≡ 2) }
{
    let (Some(first), Some(second)) = (read_name(b"A"), read_name(b"B")) else {
        panic!(rt; "no names");
    };
    Ok(vec![in alloc; first, second]?)
}

/// The packet.
pub(crate) fn a_packet(rt: &impl Abort) -> Packet {
    read_packet(rt, &FORM)
}

/// The packet of these bytes.
fn read_packet(rt: &impl Abort, form: &[u8]) -> Packet {
    let Ok((_, packet)) = check(form) else {
        panic!(rt; "no packet");
    };
    packet
}

/// The characters of the symbol.
fn a_symbol(alloc: Global) -> Result<Chars, Fail> {
    let mut items = Vec::new(alloc);
    items.extend_from_slice(&SYMBOL)?;
    Ok(Chars::new(items))
}

/// The notes of a packet that is sent, held and acknowledged, after a time-out.
fn notes_of_a_packet(rt: &impl Abort, alloc: Global) -> Result<Vec<Note>, Fail> {
    Ok(vec![in alloc;
        Note::Fire(Side::A),
        Note::Sent(Side::A, a_symbol(alloc)?),
        Note::Got(Side::B, a_symbol(alloc)?),
        Note::Hold(Side::B, a_packet(rt)),
        Note::Sent(Side::B, a_symbol(alloc)?),
        Note::Got(Side::A, a_symbol(alloc)?),
        Note::Free(Side::A, a_packet(rt)),
    ]?)
}

/// Lends to a watch what a note has.
fn lend<W: Watch>(watch: &mut W, alloc: Global, note: &Note) -> Result<(), NoteEnd>
    ensures taken { OnOk result (W.grew watch.old (note.now ∷ []) watch.new) }
    ensures stopped { OnErr result (W.cut watch.old note.now watch.new) }
    ensures cause { IsErrOf result NoteEnd.Failed → Rose (W.faults watch.old) (W.faults watch.new) }
    ensures counts { ¬ IsErrOf result NoteEnd.Failed → W.faults watch.new ≡ W.faults watch.old }
    ensures never_falls { W.faults watch.old ≤ W.faults watch.new }
{
    match note {
        Note::Sent(side, chars) => watch.sent(alloc, *side, chars.as_slice()),
        Note::Got(side, chars) => watch.got(alloc, *side, chars.as_slice()),
        Note::Hold(side, packet) => watch.hold(alloc, *side, packet),
        Note::Free(side, packet) => watch.free(alloc, *side, packet),
        Note::Fire(side) => watch.fire(alloc, *side),
    }
}

/// Lends to a watch what notes have, one after another, up to the first that it does not take in.
fn lend_all<W: Watch>(watch: &mut W, alloc: Global, notes: &[Note]) -> Result<(), NoteEnd>
    ensures all { OnOk result (W.grew watch.old notes.now watch.new) }
    ensures stopped { OnErr result (Stopped W.grew W.cut watch.old notes.now watch.new) }
    ensures cause { IsErrOf result NoteEnd.Failed → Rose (W.faults watch.old) (W.faults watch.new) }
    ensures counts { ¬ IsErrOf result NoteEnd.Failed → W.faults watch.new ≡ W.faults watch.old }
    ensures never_falls { W.faults watch.old ≤ W.faults watch.new }
{
    for note in notes {
        if let Err(end) = lend(watch, alloc, note) {
            return Err(end);
        }
    }
    Ok(())
}

/// Writes the lines of notes, as whoever works a link does.
fn write_notes<K: Sink>(
    outbox: &mut Outbox<K>,
    alloc: Global,
    names: &[Name],
    a: PortRef,
    b: PortRef,
    notes: &[Note],
) -> Result<(), NoteEnd>
    requires first_named { a.node < length names.now }
    requires second_named { b.node < length names.now }
    ensures all { OnOk result
        (Writes outbox.old outbox.new (trace_text names.now (lines_of a b notes.now))) }
    ensures front { OnErr result ((front rest : List Note) × (notes.now ≡ front ++ rest)
        × Writes outbox.old outbox.new (trace_text names.now (lines_of a b front))) }
{
    let mut watch = LinkLines {
        outbox,
        names,
        a,
        b,
    };
    lend_all(&mut watch, alloc, notes)
}

#[test]
fn lines_are_those_of_a_trace(rt: HostRuntime) -> Result<(), Fail> {
    let alloc = rt.alloc();
    let names = two_names(&rt, alloc)?;
    let packet = a_packet(&rt);
    let response = read_packet(&rt, &SHORT_FORM);
    let mut page = Page::new(alloc, Vec::new(alloc))?;
    let mut outbox = Outbox::new(&mut page.buffer, &mut page.sink);
    let mut writer = TraceWriter {
        outbox: &mut outbox,
        names: &names,
        counts: PacketCounts::new(),
    };
    writer.write_take(0, &packet);
    writer.write_fire(NEAR);
    writer.write_sent(FAR, &SYMBOL);
    writer.write_got(NEAR, &SYMBOL);
    writer.write_hold(FAR, &packet);
    writer.write_free(NEAR, &packet);
    writer.write_leave(1, &packet);
    writer.write_move(NEAR, FAR, &packet);
    writer.write_drop(FAR, &packet);
    writer.write_answer(FAR, &packet, &response);
    writer.write_lack(Lack::Full);
    writer.write_lack(Lack::Empty);
    writer.write_lack(Lack::Short);
    writer.write_lack(Lack::Early);
    writer.write_lack(Lack::NoStep);
    writer.write_end();
    outbox.flush();
    assert!(rt; !outbox.failed());
    assert_eq!(rt; page.sink.written(), LINES);
    Ok(())
}

#[test]
fn notes_are_written_in_order(rt: HostRuntime) -> Result<(), Fail> {
    let alloc = rt.alloc();
    let names = two_names(&rt, alloc)?;
    let notes = notes_of_a_packet(&rt, alloc)?;
    let mut page = Page::new(alloc, Vec::new(alloc))?;
    let mut outbox = Outbox::new(&mut page.buffer, &mut page.sink);
    assert_eq!(rt;
        write_notes(&mut outbox, alloc, &names, NEAR, FAR, &notes),
        Ok(())
    );
    outbox.flush();
    assert!(rt; !outbox.failed());
    assert_eq!(rt; page.sink.written(), NOTES);
    Ok(())
}

#[test]
fn notes_behind_a_failed_write_are_dropped(rt: HostRuntime) -> Result<(), Fail> {
    let alloc = rt.alloc();
    let names = two_names(&rt, alloc)?;
    let notes = notes_of_a_packet(&rt, alloc)?;
    let mut page = Page::new(alloc, vec![in alloc; 0]?)?;
    let mut outbox = Outbox::new(&mut page.buffer, &mut page.sink);
    let mut writer = TraceWriter {
        outbox: &mut outbox,
        names: &names,
        counts: PacketCounts::new(),
    };
    writer.write_lack(Lack::Full);
    outbox.flush();
    assert!(rt; outbox.failed());
    let told = write_notes(&mut outbox, alloc, &names, NEAR, FAR, &notes);
    assert_eq!(rt; told, Ok(()));
    outbox.flush();
    assert!(rt; outbox.failed());
    assert!(rt; page.sink.written().is_empty());
    Ok(())
}
