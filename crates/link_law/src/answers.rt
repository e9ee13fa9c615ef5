//! What the calls of a link answer.
ghost use Rattle.std.specs.Prelude.{◌≡◌};
ghost use Rattle.link_law.specs.Does.{end_of};
ghost use Rattle.link_law.specs.declared.answers.LinkEnd.TheVariants as Ends;

use link_watch::{NoteEnd, Side};
use link_wires::UndetectedEvent;
use rio_chars::NoMemory;

/// Why a delivery ended.
#[derive(Debug, Drop)]
pub enum LinkEnd {
    /// The port at this end acted on an event that was not sent: a corruption that no check has
    /// found.
    Undetected(Side, UndetectedEvent),
    /// The watch failed, and its count of failed notes rose.
    Failed,
    /// Memory was wanted and not given.
    NoMemory,
}

impl From<NoteEnd> for LinkEnd {
    ghost from_gives = { λ given end. end ≡ end_of given };

    fn from(end: NoteEnd) -> Self {
        match end {
            NoteEnd::Failed => LinkEnd::Failed,
            NoteEnd::NoMemory => LinkEnd::NoMemory,
        }
    }
}

impl From<NoMemory> for LinkEnd {
    ghost from_gives = { λ _ end. end ≡ Ends.NoMemory };

    fn from(_: NoMemory) -> Self {
        LinkEnd::NoMemory
    }
}

/// What came of a time-out.
#[derive(Clone, Copy, Debug, PartialEq, Eq)]
pub enum Fired {
    /// It fired.
    Done,
    /// A wire was not empty: nothing was done.
    Early,
}
