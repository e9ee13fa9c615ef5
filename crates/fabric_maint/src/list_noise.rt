//! `ListNoise`: the edits of a list.
ghost use Rattle.std.specs.Prelude.{◌≡◌, drop};

use fabric_ports::Noise;
use rio_chars::Edit;

/// Edits that are given in their order, each once, and then none.
#[derive(Drop)]
pub struct ListNoise {
    edits: Vec<Edit>,
    /// How many were given.
    given: usize,
}

impl ListNoise {
    /// These edits, of which none was given yet.
    pub fn new(edits: Vec<Edit>) -> ListNoise
        ensures { ⟦<ListNoise as Noise>⟧.edits result ≡ edits.items }
    {
        ListNoise { edits, given: 0 }
    }
}

impl Noise for ListNoise {
    ghost edits = { λ noise. drop noise.given noise.edits.items };

    fn next(&mut self, _length: usize) -> Option<Edit> {
        let edit = self.edits.get(self.given).copied()?;
        self.given += 1;
        Some(edit)
    }
}
