//! What happens on a link, noted for whoever watches it.
//!
//! Promised: a watch that takes in a note grew by exactly that note, one that does not is cut
//! within it, and `Failed` comes only if the watch's count of failed notes rose, which rises at
//! no other answer. What a note has may be lent to the watch, so that no note is made.
//!
//! Left out: which notes a link makes, and when.
//!
//! - [`Side`]: the two ends of a link
//! - [`Note`]: what was sent, got, held, freed or fired
//! - [`Watch`], with [`NoteEnd`]: what takes in notes, whole or lent, and why it may stop
//! - [`NoteList`]: a watch that keeps its notes in memory
#![tactic(auto)]

mod list;
mod note;
mod side;
#[cfg(test)]
mod tests;
mod watch;

pub use list::NoteList;
pub use note::Note;
pub use side::Side;
pub use watch::{NoteEnd, Watch};
