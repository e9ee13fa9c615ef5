//! The parts of the records of a page that need nothing else of it.

use fabric_script::Line;
use rio_chars::Char;
use trace_lines::Lack;
use view_words::{HalfState, Halves, Text};

/// The letter of a state.
fn letter(state: HalfState) -> &'static [u8] {
    match state {
        HalfState::Ok => b"O",
        HalfState::RetryStopped => b"R",
        HalfState::ErrorStopped => b"E",
    }
}

/// The states of a port behind a colon, if they change.
pub(crate) fn put_states(out: &mut Text, before: Halves, halves: Halves) {
    if before.output != halves.output
        || before.input != halves.input
        || before.outstanding != halves.outstanding
    {
        out.put(b":");
        out.put(letter(halves.output));
        out.put(letter(halves.input));
        out.put_number(u64::from(halves.outstanding));
    }
}

/// Characters in short: two digits for each, behind a letter if it is no data.
pub(crate) fn put_chars(out: &mut Text, chars: &[Char]) {
    for c in chars {
        match c {
            Char::Data(byte) => out.put_hex(&[*byte]),
            Char::Special(byte) => {
                out.put(b"k");
                out.put_hex(&[*byte]);
            }
            Char::Invalid => out.put(b"i"),
        }
    }
}

/// Whether an event changes a wire, or lets a time-out fire.
pub(crate) fn is_edit(line: &Line) -> bool {
    matches!(
        line,
        Line::Alter { .. } | Line::Insert { .. } | Line::Erase { .. } | Line::Timeout { .. }
    )
}

/// Why nothing was done.
pub(crate) fn lack_words(lack: Lack) -> &'static [u8] {
    match lack {
        Lack::Full => b"k full",
        Lack::Empty => b"k empty",
        Lack::Short => b"k short",
        Lack::Early => b"k early",
        Lack::NoStep => b"k none",
    }
}
