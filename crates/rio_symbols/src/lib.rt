//! Control symbols of a RapidIO serial link: three bytes each, with a CRC of five bits.
//!
//! Promised: a symbol's bytes are its fields and its CRC, bit by bit; bytes are read as a symbol
//! exactly where they spell one, and otherwise both CRCs are told; what was written is read back; a
//! change within one sub-block of one byte is refused.
//! Left out: characters and their order on a wire, what a port does with a symbol, and that any
//! other change is refused (five bits of CRC cannot promise it).
//!
//! - `Symbol`: the five fields, each within its width.
//! - `stype0`, `stype1`, `cmd`: the names of what these fields say;
//!   `types_and_requests_have_their_numbers` says which numbers they are.
//! - `crc5`: the CRC of the fields, by `CRC5_TABLE`; `crc5_table_has_remainders` says what its
//!   entries are.
//! - `to_bytes`, `from_bytes`, `BadCrc`: the spelling, in both directions.
//! - `Delimiter`, `delimiter`: the special character that is sent before a symbol.
//! - `spelling_laws`, `delimiter_laws`, `one_block_is_seen`: facts about the spelling of any
//!   numbers, for proofs above.
//!
//! No call takes memory.
#![tactic(auto)]

mod characters;
pub mod cmd;
mod crc;
mod delimiters;
mod laws;
mod spelling;
pub mod stype0;
pub mod stype1;
mod symbol;
#[cfg(test)]
mod tests;

pub use characters::Delimiter;
pub use crc::{CRC5_TABLE, crc5, crc5_table_has_remainders};
pub use delimiters::{delimiter, delimiter_laws};
pub use laws::types_and_requests_have_their_numbers;
pub use spelling::{BadCrc, from_bytes, one_block_is_seen, spelling_laws, to_bytes};
pub use symbol::Symbol;
