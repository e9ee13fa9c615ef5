//! Where bytes are written to.
ghost use Rattle.std.specs.Prelude.{◌≡◌, List, ℕ, Option, None, length, IsTrue, ◌≤◌, ◌<◌, IfOk, OnOk, OnErr};
ghost use Rattle.std.specs.Io.KnownBytes.{WriteAppends};
ghost use Rattle.rio_chars.specs.Faults.{Rose};

use crate::Failed;

/// Where bytes go.
pub trait Sink {
    /// The bytes that were written, where they are told.
    ghost written: { Self → Option (List ℕ) };

    /// How many writes have failed. A count stands still at its greatest value, 2^64 - 1.
    ghost faults: { Self → ℕ };

    /// Writes some of the first bytes of the piece and answers how many: at least one of a piece
    /// that is not empty. Failed comes only if the count of faults rose, and then nothing was
    /// written. The count rises in no other call.
    fn write(&mut self, piece: &[u8]) -> Result<usize, Failed>
        ensures count { IfOk result (λ n. n ≤ length piece.now) }
        ensures progress { IfOk result (λ n. 0 < length piece.now → 0 < n) }
        ensures bytes { WriteAppends (written self.old) (written self.new) result piece.now }
        ensures cause { OnErr result (Rose (faults self.old) (faults self.new)) }
        ensures counts { OnOk result (faults self.new ≡ faults self.old) }
        ensures never_falls { faults self.old ≤ faults self.new };

    /// Whether this sink keeps nothing of what is written and tells nothing of it, so that text
    /// need not be made for it.
    fn keeps_nothing(&self) -> bool
        ensures keeps_nothing { IsTrue result → written self.now ≡ None };
}
