//! `Edit`: a change of a list of characters.

use crate::Char;

/// A change of characters. Places are counted from the front, from 0.
#[derive(Clone, Copy, Debug, PartialEq, Eq)]
pub enum Edit {
    /// The character at a place becomes another.
    Alter { place: u32, ch: Char },
    /// Characters from a place on are lost.
    Erase { place: u32, count: u32 },
    /// A character comes in before the one at a place, or at the end.
    Insert { place: u32, ch: Char },
}
