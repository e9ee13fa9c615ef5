//! The lines of a trace over ports: what they say, their text, their writer and their reader.
//!
//! Promised: each method that writes writes the text of one line, with its line feed, and counts the
//! lines of packets; the watch writes the line of each note, in order. A text is read as the line
//! that it spells, and as no line exactly if it spells none, unless memory runs out; it spells one
//! line at most.
//!
//! Left out: which lines a trace has.
//!
//! - `Lines`, `Text` and `Notes`, in `specs`: what a line says, its text, and the line of what is
//!   noted of a link; `Words`: which text spells a line
//! - [`TraceWriter`]: writes a trace, with a method for each kind of line, and has [`PacketCounts`]
//! - [`LinkLines`]: a watch of a link, which writes its notes
//! - [`read_trace_line`]: a [`TraceLine`] from its text; [`Boxed`]: what keeps a line small
#![tactic(auto)]

mod boxed;
mod counts;
mod fields;
mod keywords;
mod laws;
mod lines;
mod reading;
mod reading_undetected;
mod undetected;
mod watching;
mod writer;

pub use boxed::Boxed;
pub use counts::PacketCounts;
pub use fields::TraceLineEnd;
pub use laws::{one_trace_line, texts_spell_their_lines, words_are_the_text};
pub use lines::{Lack, NetworkStep, TraceLine};
pub use reading::read_trace_line;
pub use watching::{LinkLines, port_at_side};
pub use writer::TraceWriter;
