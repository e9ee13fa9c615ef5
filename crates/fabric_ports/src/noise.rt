//! `Noise`: who changes what is on the wires while a host asks.
ghost use Rattle.std.specs.Prelude.{List, []};
ghost use Rattle.fabric_ask.specs.Noise.{Gives};
ghost use Rattle.rio_chars.specs.declared.edit.Edit.{Edit};

use rio_chars::Edit;

/// Whoever changes what is on the wires while a host asks.
pub trait Noise {
    /// The edits that it will still give.
    ghost edits: { Self → List Edit };

    /// The next edit, for a wire with so many characters. `None` exactly where no edit is left.
    fn next(&mut self, length: usize) -> Option<Edit>
        ensures { Gives (edits self.old) result (edits self.new) };
}

/// No edits.
#[derive(Clone, Copy, Debug)]
pub struct Quiet;

impl Noise for Quiet {
    ghost edits = { λ _. [] };

    fn next(&mut self, _length: usize) -> Option<Edit> {
        None
    }
}
