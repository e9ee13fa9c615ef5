//! A symbol and its three bytes, in both directions.
ghost use Rattle.std.specs.Prelude.{◌≡◌, ◌↔◌, ◌≢◌, ◌⊎◌, IsTrue, ℕ, ◌/◌, ◌%◌, List, [], ◌∷◌, ◌++◌, IsErr, IfErr, IfOk, Ok, Some, None};
ghost use Rattle.std.specs.List.{flat_map};
ghost use Rattle.std.specs.Result.{result_ok};
ghost use Rattle.crc_division.specs.Bits.{bits};
ghost use Rattle.rio_symbols.specs.Crc5.{field_bits};
ghost use Rattle.rio_symbols.specs.Fields.{Fields, InRange};
ghost use Rattle.rio_symbols.specs.Spelling.{SpellsSymbol, symbol_bytes, fields_at, found_crc, computed_crc, spelled, spelled_in, is_spelling};

use crate::crc::crc5;
use crate::symbol::Symbol;

/// Three bytes that spell no symbol: their last five bits are not the CRC of the first nineteen.
#[derive(Clone, Copy, Debug, PartialEq, Eq)]
pub struct BadCrc {
    /// The last five bits.
    pub found: u8,
    /// The CRC of the first nineteen.
    pub computed: u8,
}

/// The three bytes of a symbol, in the order in which they are sent after the delimiter: stype0,
/// parameter0, parameter1, stype1, cmd and CRC, the first bit of each the most significant.
pub fn to_bytes(symbol: &Symbol) -> [u8; 3]
    ensures exact { result ≡ symbol_bytes symbol.now }
    ensures spells { SpellsSymbol symbol.now result }
    ensures reads_back { spelled_in result ≡ Some symbol.now }
{
    [
        symbol.s0 << 5 | symbol.p0,
        symbol.p1 << 3 | symbol.s1,
        symbol.cmd << 5 | crc5(symbol),
    ]
}

/// The symbol that three bytes spell. `BadCrc` comes exactly where their last five bits are not the
/// CRC of the first nineteen, and has both.
pub fn from_bytes(bytes: &[u8; 3]) -> Result<Symbol, BadCrc>
    ensures ok { IfOk result (λ s. SpellsSymbol s bytes.now) }
    ensures all_spelled { (s : Fields) → SpellsSymbol s bytes.now → result ≡ Ok s }
    ensures reads_back { (s : Fields) → InRange s → bytes.now ≡ symbol_bytes s → result ≡ Ok s }

    ensures bad { IsErr result ↔ (found_crc bytes.now ≢ computed_crc bytes.now) }
    ensures found { IfErr result (λ e. e.found ≡ found_crc bytes.now) }
    ensures computed { IfErr result (λ e. e.computed ≡ computed_crc bytes.now) }
    ensures two_values { IfErr result (λ e. e.found ≢ e.computed) }

    // The same answer, decided on any three numbers.
    ensures decided { result_ok result ≡ spelled_in bytes.now }
{
    let symbol = Symbol {
        s0: bytes[0] >> 5,
        p0: bytes[0] & 31,
        p1: bytes[1] >> 3,
        s1: bytes[1] & 7,
        cmd: bytes[2] >> 5,
    };
    let found = bytes[2] & 31;
    let computed = crc5(&symbol);
    if found == computed {
        Ok(symbol)
    } else {
        Err(BadCrc { found, computed })
    }
}

/// What holds of the spelling of any three numbers, bytes or not: `spelled` decides `Spells`, a
/// symbol has one spelling, and bytes spell one symbol at most. For proofs above; the call does
/// nothing.
pub fn spelling_laws()
    ensures some { (x y z : ℕ) (s : Fields) → spelled x y z ≡ Some s
        → SpellsSymbol s (x ∷ y ∷ z ∷ []) }
    ensures back { (x y z : ℕ) (s : Fields) → SpellsSymbol s (x ∷ y ∷ z ∷ [])
        → spelled x y z ≡ Some s }
    ensures none { (x y z : ℕ) (s : Fields) → spelled x y z ≡ None
        → SpellsSymbol s (x ∷ y ∷ z ∷ []) → ⊥ }

    ensures own { (s : Fields) → InRange s → SpellsSymbol s (symbol_bytes s) }
    ensures one_spelling { (s : Fields) (bytes : List ℕ) → SpellsSymbol s bytes
        → bytes ≡ symbol_bytes s }
    ensures one_symbol { (s t : Fields) (bytes : List ℕ) → SpellsSymbol s bytes
        → SpellsSymbol t bytes → s ≡ t }

    // What the error tells: the fields that were read stand in the first nineteen bits, and the
    // number that was found in the last five.
    ensures places { (x y z : ℕ) → flat_map (bits 8) (x ∷ y ∷ z ∷ [])
        ≡ field_bits (fields_at x y z) ++ bits 5 (z % 32) }
{}

/// A symbol is not taken for another one if one of its three bytes has a change within its low five
/// bits or within its high three: the bytes then spell none. For proofs above; the call does
/// nothing.
pub fn one_block_is_seen()
    ensures first { (x y z p : ℕ) → IsTrue (is_spelling x y z) → IsTrue (is_spelling p y z)
        → (x / 32 ≡ p / 32) ⊎ (x % 32 ≡ p % 32) → x ≡ p }
    ensures second { (x y z q : ℕ) → IsTrue (is_spelling x y z) → IsTrue (is_spelling x q z)
        → (y / 32 ≡ q / 32) ⊎ (y % 32 ≡ q % 32) → y ≡ q }
    ensures third { (x y z r : ℕ) → IsTrue (is_spelling x y z) → IsTrue (is_spelling x y r)
        → (z / 32 ≡ r / 32) ⊎ (z % 32 ≡ r % 32) → z ≡ r }
{}
