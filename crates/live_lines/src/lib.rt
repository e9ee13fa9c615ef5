//! What programs share that answer line by line: how they read a line, and how they end.
//!
//! Promised: a line that is read is the bytes up to its line feed, however they come, and nothing
//! behind it is lost. Each end has a number and a message. What a program says that reads lines and
//! writes answers is one record, `ServesLines` in `specs/Serving.antt`.
//!
//! Left out: what a line asks for, and what is answered.
//!
//! - [`LineReader`] and [`LineEnd`]: the lines of a source, and why there is no further one
//! - [`FeedAtEnd`]: a source whose last line has a line feed, whether it came with one or not
//! - [`LiveStatus`], `status_number` and `say`: how a program ended
//! - `start_lines`: the whole of a `main`; `tell_question`: what `--help` and `--version` are told
#![tactic(auto)]

mod feed_at_end;
mod input;
mod starting;
mod status;

pub use feed_at_end::FeedAtEnd;
pub use input::{LineEnd, LineReader, MOST_LINE};
pub use starting::{start_lines, tell_question};
pub use status::{LiveStatus, say, status_number};
