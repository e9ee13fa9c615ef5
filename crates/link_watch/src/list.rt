//! `NoteList`: a watch that keeps its notes.
ghost use Rattle.std.specs.Prelude.{◌≡◌, ◌≤◌, ◌++◌, ℕ, [], ◌∷◌, OnOk, OnErr, IsErrOf};
ghost use Rattle.rio_chars.specs.Faults.{Rose};

use crate::note::Note;
use crate::watch::{NoteEnd, Watch};
use std::alloc::Global;
use std::marker::Model;

/// A watch that keeps its notes in memory, in the order in which they came.
#[derive(Drop)]
pub struct NoteList {
    notes: Vec<Note>,
}

impl Model for NoteList {
    ghost use Rattle.std.specs.Prelude.{List};
    ghost use Rattle.link_watch.specs.declared.note.Note.{Note};

    ghost Value = { List Note };

    ghost view = { λ list. list.notes.items };
}

impl NoteList {
    /// A list of no notes. It takes no memory yet.
    pub fn new(alloc: Global) -> NoteList
        ensures { result ≡ [] }
    {
        NoteList {
            notes: Vec::new(alloc),
        }
    }

    /// The notes, in order.
    pub fn notes(&self) -> &[Note]
        ensures { result.now ≡ self.now }
    {
        self.notes.as_slice()
    }
}

impl Watch for NoteList {
    ghost use Rattle.std.proofs.Common.{sym, append_assoc, append-nil, refl, ◌∙◌, ap};
    ghost use Rattle.std.specs.Prelude.{List};
    ghost use Rattle.link_watch.specs.declared.note.Note.{Note};

    ghost faults = { λ list. 0 };

    ghost grew = { λ list notes next. next ≡ list ++ notes };

    ghost cut = { λ list note next. next ≡ list };

    ghost is_watch = { record {
      none = λ list. sym (append-nil list);
      on = λ list next last first rest h k. k ∙ ap (λ (l : List Note). l ++ rest) h
          ∙ append_assoc list first rest;
      cut_none = λ list note. refl;
    } };

    fn note(&mut self, alloc: Global, note: &Note) -> Result<(), NoteEnd>
        ensures taken { OnOk result (self.new ≡ self.old ++ note.now ∷ []) }
        ensures stopped { OnErr result (self.new ≡ self.old) }
        ensures cause { IsErrOf result NoteEnd.Failed → Rose 0 0 }
        ensures counts { ¬ IsErrOf result NoteEnd.Failed → ◌≡◌ {A = ℕ} 0 0 }
        ensures never_falls { 0 ≤ 0 }
    {
        let copy = note.copy(alloc)?;
        if self.notes.push(copy).is_err() {
            return Err(NoteEnd::NoMemory);
        }
        Ok(())
    }
}
