//! `LinkLines`: a watch of a link that writes its notes.
ghost use Rattle.std.specs.Prelude.{◌≡◌, ◌<◌, ◌≤◌, ◌∷◌, [], ℕ, length, IsOk, OnOk, OnErr, IsErrOf};
ghost use Rattle.rio_chars.specs.Faults.{Rose};
ghost use Rattle.trace_lines.specs.Notes.{port_at_side};
ghost use Rattle.link_watch.specs.declared.note.Note.TheVariants.{Sent, Got, Hold, Free, Fire};

use crate::counts::PacketCounts;
use crate::writer::TraceWriter;
use fabric_script::{Name, PortRef};
use link_watch::{Note, NoteEnd, Side, Watch};
use rio_chars::{Char, Outbox, Sink};
use rio_packets::Packet;
use std::alloc::Global;

/// A watch of a link that writes a line for each note, in order, straight from what is lent. It
/// takes in every note, and takes no memory. After a write that fails the outbox drops what it is
/// told: ask it, behind the last note, whether it failed.
#[derive(Drop)]
pub struct LinkLines<'o, 's, 'n, K: Sink> {
    /// Where the lines go.
    pub outbox: &'o mut Outbox<'s, K>,
    /// The names of the nodes.
    pub names: &'n [Name],
    /// The port at the first end.
    pub a: PortRef,
    /// The port at the second end.
    pub b: PortRef,
    ghost first_named: { a.node < length names.now },
    ghost second_named: { b.node < length names.now },
}

/// What a note has, as it is lent.
enum Lent<'a> {
    Sent(&'a [Char]),
    Got(&'a [Char]),
    Hold(&'a Packet),
    Free(&'a Packet),
    Fire,
}

impl<'o, 's, 'n, K: Sink> LinkLines<'o, 's, 'n, K> {
    ghost use Rattle.trace_lines.specs.Watching.{note_lent, WritesNotes};

    /// Writes the line of a note.
    fn write(&mut self, side: Side, lent: Lent)
        ensures { WritesNotes self.old (note_lent side lent.entry ∷ []) self.new }
    {
        let port = port_at_side(self.a, self.b, side);
        let mut writer = TraceWriter {
            outbox: self.outbox,
            names: self.names,
            counts: PacketCounts::new(),
        };
        match lent {
            Lent::Sent(chars) => writer.write_sent(port, chars),
            Lent::Got(chars) => writer.write_got(port, chars),
            Lent::Hold(packet) => writer.write_hold(port, packet),
            Lent::Free(packet) => writer.write_free(port, packet),
            Lent::Fire => writer.write_fire(port),
        }
    }
}

impl<'o, 's, 'n, K: Sink> Watch for LinkLines<'o, 's, 'n, K> {
    ghost use Rattle.std.proofs.Common.{refl};
    ghost use Rattle.trace_lines.specs.Watching.{WritesNotes};
    ghost use Rattle.trace_lines.specs.WatchingLaws.{writes_no_notes, writes_more_notes};

    ghost faults = { λ watch. 0 };

    ghost grew = { WritesNotes };

    ghost cut = { λ watch note next. next ≡ watch };

    ghost is_watch = { record {
      none = writes_no_notes;
      on = writes_more_notes;
      cut_none = λ watch note. refl;
    } };

    fn note(&mut self, alloc: Global, note: &Note) -> Result<(), NoteEnd>
        ensures taken { OnOk result
            (WritesNotes self.old (note.now ∷ []) self.new) }
        ensures stopped { OnErr result (self.new ≡ self.old) }
        ensures cause { IsErrOf result NoteEnd.Failed → Rose 0 0 }
        ensures counts { ¬ IsErrOf result NoteEnd.Failed → ◌≡◌ {A = ℕ} 0 0 }
        ensures never_falls { 0 ≤ 0 }
        ensures always { IsOk result }
    {
        match note {
            Note::Sent(side, chars) => self.sent(alloc, *side, chars.as_slice()),
            Note::Got(side, chars) => self.got(alloc, *side, chars.as_slice()),
            Note::Hold(side, packet) => self.hold(alloc, *side, packet),
            Note::Free(side, packet) => self.free(alloc, *side, packet),
            Note::Fire(side) => self.fire(alloc, *side),
        }
    }

    fn sent(&mut self, _alloc: Global, side: Side, chars: &[Char]) -> Result<(), NoteEnd>
        ensures taken { OnOk result
            (WritesNotes self.old (Sent side chars.now ∷ []) self.new) }
        ensures stopped { OnErr result (self.new ≡ self.old) }
        ensures cause { IsErrOf result NoteEnd.Failed → Rose 0 0 }
        ensures counts { ¬ IsErrOf result NoteEnd.Failed → ◌≡◌ {A = ℕ} 0 0 }
        ensures never_falls { 0 ≤ 0 }
        ensures always { IsOk result }
    {
        self.write(side, Lent::Sent(chars));
        Ok(())
    }

    fn got(&mut self, _alloc: Global, side: Side, chars: &[Char]) -> Result<(), NoteEnd>
        ensures taken { OnOk result
            (WritesNotes self.old (Got side chars.now ∷ []) self.new) }
        ensures stopped { OnErr result (self.new ≡ self.old) }
        ensures cause { IsErrOf result NoteEnd.Failed → Rose 0 0 }
        ensures counts { ¬ IsErrOf result NoteEnd.Failed → ◌≡◌ {A = ℕ} 0 0 }
        ensures never_falls { 0 ≤ 0 }
        ensures always { IsOk result }
    {
        self.write(side, Lent::Got(chars));
        Ok(())
    }

    fn hold(&mut self, _alloc: Global, side: Side, packet: &Packet) -> Result<(), NoteEnd>
        ensures taken { OnOk result
            (WritesNotes self.old (Hold side packet.now ∷ []) self.new) }
        ensures stopped { OnErr result (self.new ≡ self.old) }
        ensures cause { IsErrOf result NoteEnd.Failed → Rose 0 0 }
        ensures counts { ¬ IsErrOf result NoteEnd.Failed → ◌≡◌ {A = ℕ} 0 0 }
        ensures never_falls { 0 ≤ 0 }
        ensures always { IsOk result }
    {
        self.write(side, Lent::Hold(packet));
        Ok(())
    }

    fn free(&mut self, _alloc: Global, side: Side, packet: &Packet) -> Result<(), NoteEnd>
        ensures taken { OnOk result
            (WritesNotes self.old (Free side packet.now ∷ []) self.new) }
        ensures stopped { OnErr result (self.new ≡ self.old) }
        ensures cause { IsErrOf result NoteEnd.Failed → Rose 0 0 }
        ensures counts { ¬ IsErrOf result NoteEnd.Failed → ◌≡◌ {A = ℕ} 0 0 }
        ensures never_falls { 0 ≤ 0 }
        ensures always { IsOk result }
    {
        self.write(side, Lent::Free(packet));
        Ok(())
    }

    fn fire(&mut self, _alloc: Global, side: Side) -> Result<(), NoteEnd>
        ensures taken { OnOk result
            (WritesNotes self.old (Fire side ∷ []) self.new) }
        ensures stopped { OnErr result (self.new ≡ self.old) }
        ensures cause { IsErrOf result NoteEnd.Failed → Rose 0 0 }
        ensures counts { ¬ IsErrOf result NoteEnd.Failed → ◌≡◌ {A = ℕ} 0 0 }
        ensures never_falls { 0 ≤ 0 }
        ensures always { IsOk result }
    {
        self.write(side, Lent::Fire);
        Ok(())
    }
}

/// The port at an end of a link.
pub fn port_at_side(a: PortRef, b: PortRef, side: Side) -> PortRef
    ensures { result ≡ port_at_side a b side }
{
    match side {
        Side::A => a,
        Side::B => b,
    }
}
