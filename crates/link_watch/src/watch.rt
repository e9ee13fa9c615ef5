//! `Watch`: whoever is told what happens on a link.
ghost use Rattle.std.specs.Prelude.{◌≡◌, ◌≤◌, ℕ, List, [], ◌∷◌, OnOk, OnErr, IsErrOf};
ghost use Rattle.rio_chars.specs.Faults.{Rose};
ghost use Rattle.link_watch.specs.declared.note.Note.{Note};
ghost use Rattle.link_watch.specs.declared.note.Note.TheVariants.{Sent, Got, Hold, Free, Fire};
ghost use Rattle.link_watch.specs.declared.watch.NoteEnd.TheVariants as Ends;
ghost use Rattle.link_watch.specs.Stops.{IsWatch};

use crate::note::{Note, copied};
use crate::side::Side;
use rio_chars::{Char, NoMemory};
use rio_packets::Packet;
use std::alloc::{AllocError, Global};
use thiserror::Error;

/// Why a note was not taken in.
#[derive(Clone, Copy, Debug, PartialEq, Eq, Error)]
pub enum NoteEnd {
    /// The watch failed, and its count of failed notes rose.
    #[error("Failed")]
    Failed,
    /// Memory was wanted and not given.
    #[error("NoMemory")]
    NoMemory,
}

impl From<AllocError> for NoteEnd {
    ghost from_gives = { λ _ end. end ≡ Ends.NoMemory };

    fn from(_: AllocError) -> Self {
        NoteEnd::NoMemory
    }
}

impl From<NoMemory> for NoteEnd {
    ghost from_gives = { λ _ end. end ≡ Ends.NoMemory };

    fn from(_: NoMemory) -> Self {
        NoteEnd::NoMemory
    }
}

/// Whoever is told what happens on a link.
pub trait Watch {
    /// How many notes have failed. A count stands still at its greatest value, 2^64 - 1.
    ghost faults: { Self → ℕ };

    /// The watch has taken in these notes between an earlier state and a later one.
    ghost grew: { Self → List Note → Self → Type 0 };

    /// The watch stopped within this note between an earlier state and a later one.
    ghost cut: { Self → Note → Self → Type 0 };

    /// Takes in a note. `Failed` comes only if the count of failed notes rose, which rises at no
    /// other answer; memory may be wanted at any note. At each of them the watch is cut within the
    /// note.
    fn note(&mut self, alloc: Global, note: &Note) -> Result<(), NoteEnd>
        ensures taken { OnOk result (grew self.old (note.now ∷ []) self.new) }
        ensures stopped { OnErr result (cut self.old note.now self.new) }
        ensures cause { IsErrOf result NoteEnd.Failed → Rose (faults self.old) (faults self.new) }
        ensures counts { ¬ IsErrOf result NoteEnd.Failed → faults self.new ≡ faults self.old }
        ensures never_falls { faults self.old ≤ faults self.new };

    /// Takes in that a port sent these characters, as `note` does.
    fn sent(&mut self, alloc: Global, side: Side, chars: &[Char]) -> Result<(), NoteEnd>
        ensures taken { OnOk result (grew self.old (Sent side chars.now ∷ []) self.new) }
        ensures stopped { OnErr result (cut self.old (Sent side chars.now) self.new) }
        ensures cause { IsErrOf result NoteEnd.Failed → Rose (faults self.old) (faults self.new) }
        ensures counts { ¬ IsErrOf result NoteEnd.Failed → faults self.new ≡ faults self.old }
        ensures never_falls { faults self.old ≤ faults self.new }
    {
        self.note(alloc, &Note::Sent(side, copied(alloc, chars)?))
    }

    /// Takes in that a port got these characters, as `note` does.
    fn got(&mut self, alloc: Global, side: Side, chars: &[Char]) -> Result<(), NoteEnd>
        ensures taken { OnOk result (grew self.old (Got side chars.now ∷ []) self.new) }
        ensures stopped { OnErr result (cut self.old (Got side chars.now) self.new) }
        ensures cause { IsErrOf result NoteEnd.Failed → Rose (faults self.old) (faults self.new) }
        ensures counts { ¬ IsErrOf result NoteEnd.Failed → faults self.new ≡ faults self.old }
        ensures never_falls { faults self.old ≤ faults self.new }
    {
        self.note(alloc, &Note::Got(side, copied(alloc, chars)?))
    }

    /// Takes in that a port holds this packet, as `note` does.
    fn hold(&mut self, alloc: Global, side: Side, packet: &Packet) -> Result<(), NoteEnd>
        ensures taken { OnOk result (grew self.old (Hold side packet.now ∷ []) self.new) }
        ensures stopped { OnErr result (cut self.old (Hold side packet.now) self.new) }
        ensures cause { IsErrOf result NoteEnd.Failed → Rose (faults self.old) (faults self.new) }
        ensures counts { ¬ IsErrOf result NoteEnd.Failed → faults self.new ≡ faults self.old }
        ensures never_falls { faults self.old ≤ faults self.new }
    {
        self.note(alloc, &Note::Hold(side, packet.copy()))
    }

    /// Takes in that a port gave up this packet, as `note` does.
    fn free(&mut self, alloc: Global, side: Side, packet: &Packet) -> Result<(), NoteEnd>
        ensures taken { OnOk result (grew self.old (Free side packet.now ∷ []) self.new) }
        ensures stopped { OnErr result (cut self.old (Free side packet.now) self.new) }
        ensures cause { IsErrOf result NoteEnd.Failed → Rose (faults self.old) (faults self.new) }
        ensures counts { ¬ IsErrOf result NoteEnd.Failed → faults self.new ≡ faults self.old }
        ensures never_falls { faults self.old ≤ faults self.new }
    {
        self.note(alloc, &Note::Free(side, packet.copy()))
    }

    /// Takes in that a port's time-out fired, as `note` does.
    fn fire(&mut self, alloc: Global, side: Side) -> Result<(), NoteEnd>
        ensures taken { OnOk result (grew self.old (Fire side ∷ []) self.new) }
        ensures stopped { OnErr result (cut self.old (Fire side) self.new) }
        ensures cause { IsErrOf result NoteEnd.Failed → Rose (faults self.old) (faults self.new) }
        ensures counts { ¬ IsErrOf result NoteEnd.Failed → faults self.new ≡ faults self.old }
        ensures never_falls { faults self.old ≤ faults self.new }
    {
        self.note(alloc, &Note::Fire(side))
    }

    /// A watch that takes in nothing is what it was, notes that come later are taken in behind, and
    /// it may stop before anything of a note.
    ghost is_watch: { IsWatch grew cut };
}
