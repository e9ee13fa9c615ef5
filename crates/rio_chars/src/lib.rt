//! The characters of a serial link, and the edge of the program: where bytes come from and where
//! they go.
//!
//! It promises that input is read whole or its fault told, that text is written whole and in order
//! up to the first write that fails, and that a count of faults rises in the calls that tell a
//! fault and in no others. It leaves out 8b/10b code groups, and it knows of a standard stream's
//! bytes only what std tells of them: nothing.
//!
//! - `Char` and `Chars`: a character after 8b/10b decoding, and a list of them; `char_text`,
//!   `read_char`.
//! - `Edit`: a change of characters.
//! - `read_hex` and `read_hex_byte`: bytes from hexadecimal digits; `write_decimal`: a number's
//!   digits.
//! - `Source` and `Sink`: what reads and writes may do; `Failed` and `NoMemory`, why a call gives
//!   up.
//! - `read_all`, with `ReadEnd`, and `write_all`: a whole input, a whole text; `write_unless`: if
//!   no write has failed.
//! - `Outbox`, over a `TextBuffer`: text on its way to a sink in pieces of kilobytes, with no
//!   branch at each word.
//! - `TextSink`: in memory, growing; `MemSource` and `MemSink`: in memory, failing in listed calls;
//!   `PlainSource` and `PlainSink`: never failing; `StdSource` and `StdSink`: over readers and writers of the standard library.
#![tactic(auto)]

mod chars;
mod digits;
mod edit;
mod failures;
mod last_run;
mod memory;
mod memory_sink;
mod memory_source;
mod outbox;
mod plain;
mod plan;
mod reading;
mod runs;
mod sink;
mod source;
mod standard;
#[cfg(test)]
mod standard_tests;
#[cfg(test)]
mod tests;
mod text_buffer;
mod text_sink;
mod texts;
mod writing;

pub use chars::{Char, Chars};
pub use digits::{read_hex, read_hex_byte, write_decimal};
pub use edit::Edit;
pub use failures::{Failed, NoMemory};
pub use memory_sink::MemSink;
pub use memory_source::MemSource;
pub use outbox::{Outbox, write_unless};
pub use plain::{PlainSink, PlainSource};
pub use reading::{ReadEnd, read_all};
pub use sink::Sink;
pub use source::Source;
pub use standard::{StdSink, StdSource};
pub use text_buffer::TextBuffer;
pub use text_sink::TextSink;
pub use texts::{char_text, read_char};
pub use writing::write_all;
