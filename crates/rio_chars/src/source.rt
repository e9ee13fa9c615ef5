//! Where bytes are read from.
ghost use Rattle.std.specs.Prelude.{◌≡◌, List, ℕ, Option, length, ◌≤◌, IfOk, OnOk, OnErr};
ghost use Rattle.std.specs.Io.KnownBytes.{ReadConsumes};
ghost use Rattle.rio_chars.specs.Faults.{Rose};

use crate::Failed;

/// Where bytes come from.
pub trait Source {
    /// The bytes that reads will give from here on, where they are told.
    ghost left: { Self → Option (List ℕ) };

    /// How many reads have failed. A count stands still at its greatest value, 2^64 - 1.
    ghost faults: { Self → ℕ };

    /// Puts the next bytes at the front of the piece and answers how many. Zero for a piece that is
    /// not empty is the end of input. Failed comes only if the count of faults rose, and takes
    /// nothing from what is left. The count rises in no other call.
    fn read(&mut self, piece: &mut [u8]) -> Result<usize, Failed>
        ensures count { IfOk result (λ n. n ≤ length piece.old) }
        ensures bytes { ReadConsumes (left self.old) (left self.new) result piece.new }
        ensures cause { OnErr result (Rose (faults self.old) (faults self.new)) }
        ensures counts { OnOk result (faults self.new ≡ faults self.old) }
        ensures never_falls { faults self.old ≤ faults self.new };
}
