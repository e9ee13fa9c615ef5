//! Which delimiter stands before which symbol.
ghost use Rattle.std.specs.Prelude.{◌≡◌, ◌≤◌, ◌<◌, ◌↔◌, IsTrue};
ghost use Rattle.rio_symbols.specs.Delimiters.{allowed, delimiter_of};
ghost use Rattle.rio_symbols.specs.Fields.{Fields, InRange};

use crate::characters::Delimiter;
use crate::stype1;
use crate::symbol::Symbol;

impl Symbol {
    /// Whether a receiver takes the symbol behind this delimiter, within a packet or not: PD with
    /// stype1 0 to 4, SC with 3 to 7. That both may come with 3 and 4 is this project's profile.
    pub fn may_follow(&self, delimiter: Delimiter) -> bool
        ensures value { result ≡ allowed delimiter self.now }
        ensures pd { delimiter ≡ Delimiter.Pd → (IsTrue result ↔ (self.now.s1 ≤ 4)) }
        ensures sc { delimiter ≡ Delimiter.Sc → (IsTrue result ↔ (3 ≤ self.now.s1)) }
    {
        match delimiter {
            Delimiter::Pd => self.s1 <= stype1::LINK_REQUEST,
            Delimiter::Sc => stype1::RESTART_FROM_RETRY <= self.s1 && self.s1 <= stype1::NOP,
        }
    }
}

/// The delimiter that this project's sender puts before a symbol: SC where it may stand, which is
/// with stype1 3 to 7, and else PD.
pub fn delimiter(symbol: &Symbol) -> Delimiter
    ensures value { result ≡ delimiter_of symbol.now }
    ensures pd { (result ≡ Delimiter.Pd) ↔ (symbol.now.s1 ≤ 2) }
    ensures sc { (result ≡ Delimiter.Sc) ↔ (3 ≤ symbol.now.s1) }
    ensures is_allowed { IsTrue (allowed result symbol.now) }
{
    if symbol.may_follow(Delimiter::Sc) {
        Delimiter::Sc
    } else {
        Delimiter::Pd
    }
}

/// Which symbols a receiver takes after each delimiter, whether or not a packet is in progress: PD
/// with stype1 0 to 4, SC with 3 to 7. That both may come with 3 and 4 is this project's profile. A
/// symbol in range may come after its own delimiter. For proofs above; the call does nothing.
pub fn delimiter_laws()
    ensures after_pd { (s : Fields) → IsTrue (allowed Delimiter.Pd s) ↔ (s.s1 ≤ 4) }
    ensures after_sc { (s : Fields) → IsTrue (allowed Delimiter.Sc s) ↔ ((3 ≤ s.s1) × (s.s1 ≤ 7)) }
    ensures own { (s : Fields) → InRange s → IsTrue (allowed (delimiter_of s) s) }
{}
