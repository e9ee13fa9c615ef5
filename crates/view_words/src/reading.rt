//! A trace is read line by line, and shown by a view.
ghost use Rattle.std.specs.Prelude.{IfOk};
ghost use Rattle.fabric_script.specs.SetUps.{KnownIsReady};

use crate::lines::{Lines, MOST_LINE};
use crate::refusals::{LineFault, RefusedLine, refused, refused_form, refused_set_up};
use crate::selection::{LineRange, Part, Selection};
use crate::status::ViewStatus;
use crate::text::Text;
use crate::view::{Seen, Setting, View};
use fabric_script::{ScriptEnd, SetUp, read_set_up};
use rio_chars::{Failed, Sink, Source, write_all};
use std::alloc::{AllocError, AllocFailed, Global};
use trace_counts::TooMany;
use trace_lines::{TraceLine, TraceLineEnd, read_trace_line};

/// The line between the set-up lines and the trace.
const BETWEEN: &[u8] = b"---";

/// How many bytes of a view wait before they are written.
const ROOM: usize = 65_536;

/// Why there is no whole view.
#[derive(Drop)]
pub enum ViewEnd {
    /// A line of the input is refused.
    Refused(RefusedLine),
    /// A word names no port that has a link.
    NoPort,
    /// A picture of these lines would be too high. These are as many as it can show.
    TooHigh(LineRange),
    /// For another reason.
    Ended(ViewStatus),
}

impl ViewEnd {
    /// How the program ends.
    pub fn status(&self) -> ViewStatus {
        match self {
            ViewEnd::Refused(_) => ViewStatus::Refused,
            ViewEnd::NoPort | ViewEnd::TooHigh(_) => ViewStatus::Words,
            ViewEnd::Ended(status) => *status,
        }
    }
}

impl From<AllocError> for ViewEnd {
    fn from(_: AllocError) -> Self {
        ViewEnd::Ended(ViewStatus::NoMemory)
    }
}

impl<T: Drop> From<AllocFailed<T>> for ViewEnd {
    fn from(_: AllocFailed<T>) -> Self {
        ViewEnd::Ended(ViewStatus::NoMemory)
    }
}

impl From<Failed> for ViewEnd {
    fn from(_: Failed) -> Self {
        ViewEnd::Ended(ViewStatus::ReadFault)
    }
}

impl From<TooMany> for ViewEnd {
    fn from(_: TooMany) -> Self {
        ViewEnd::Ended(ViewStatus::TooLong)
    }
}

/// Reads set-up lines, a line `---` and a trace, and writes a view of a part of it, in pieces of
/// kilobytes. If a line is refused, what waits to be written is dropped.
pub fn show<S: Source, K: Sink, V: View + Drop>(
    alloc: Global,
    part: Part<'_>,
    view: V,
    source: &mut S,
    sink: &mut K,
) -> Result<(), ViewEnd> {
    let mut lines = Lines::new(alloc)?;
    let (set_up, first, has_trace) = read_front(alloc, &mut lines, source)?;
    if !has_trace {
        return refused(alloc, first, LineFault::NoTrace, b"");
    }
    let selection = Selection::of(alloc, &set_up, part)?;
    let mut showing = Showing {
        alloc,
        set_up,
        selection,
        view,
        out: Text::new(alloc),
    };
    showing.show_trace(first, &mut lines, source, sink)
}

/// A view of a trace of which the set-up lines were read, and what of it waits to be written.
#[derive(Drop)]
struct Showing<V> {
    alloc: Global,
    set_up: SetUp,
    selection: Selection,
    view: V,
    out: Text,
    ghost ready: { KnownIsReady set_up.known },
}

impl<V: View> Showing<V> {
    /// Shows a trace, of which the first line has this number.
    fn show_trace<S: Source, K: Sink>(
        &mut self,
        first: u32,
        lines: &mut Lines,
        source: &mut S,
        sink: &mut K,
    ) -> Result<(), ViewEnd> {
        let setting = Setting {
            set_up: &self.set_up,
            selection: &self.selection,
            first,
        };
        self.view.begin(setting, &mut self.out)?;
        self.show_lines(first, lines, source, sink)?;
        let setting = Setting {
            set_up: &self.set_up,
            selection: &self.selection,
            first,
        };
        self.view.end(setting, &mut self.out)?;
        write_out(&mut self.out, sink)
    }

    /// Shows the lines of a trace, of which the first has this number.
    fn show_lines<S: Source, K: Sink>(
        &mut self,
        first: u32,
        lines: &mut Lines,
        source: &mut S,
        sink: &mut K,
    ) -> Result<(), ViewEnd> {
        let mut is_done = false;
        for number in first..u32::MAX {
            if !lines.read(source)? {
                return end_before(self.alloc, number, is_done);
            }
            if is_done {
                return refused(self.alloc, number, LineFault::Behind, lines.line());
            }
            is_done = self.show_line(number, lines.line())?;
            make_room(&mut self.out, sink)?;
        }
        Err(ViewEnd::Ended(ViewStatus::TooLong))
    }

    /// Shows a line, and tells whether it is the last one.
    fn show_line(&mut self, number: u32, text: &[u8]) -> Result<bool, ViewEnd> {
        let line = match read_trace_line(self.alloc, &self.set_up, text) {
            Ok(line) => line,
            Err(TraceLineEnd::NoForm) => {
                return Err(refused_form(self.alloc, &self.set_up, number, text));
            }
            Err(TraceLineEnd::NoMemory) => return Err(ViewEnd::Ended(ViewStatus::NoMemory)),
        };
        let seen = Seen {
            set_up: &self.set_up,
            selection: &self.selection,
            is_shown: self.selection.has_line(number, &line),
            number,
            text,
            line: &line,
        };
        self.view.take(&seen, &mut self.out)?;
        Ok(matches!(line, TraceLine::Ended | TraceLine::Undetected(..)))
    }
}

/// Reads the set-up lines and the line `---`, and answers the number of the line that follows, and
/// whether the line `---` came.
pub fn read_front<S: Source>(
    alloc: Global,
    lines: &mut Lines,
    source: &mut S,
) -> Result<(SetUp, u32, bool), ViewEnd>
    ensures { IfOk result (λ front. KnownIsReady front.0.known) }
{
    let mut script = Vec::new(alloc);
    let (number, is_between) = read_script(&mut script, lines, source)?;
    let set_up = set_up_of(alloc, script.as_slice())?;
    Ok((set_up, number, is_between))
}

/// Reads the set-up lines, and answers the number of the line that follows, and whether the line
/// `---` came.
fn read_script<S: Source>(
    script: &mut Vec<u8>,
    lines: &mut Lines,
    source: &mut S,
) -> Result<(u32, bool), ViewEnd> {
    for number in 1..u32::MAX {
        if !lines.read(source)? {
            return Ok((number, false));
        }
        if lines.line() == BETWEEN {
            return Ok((number + 1, true));
        }
        add_line(script, lines.line())?;
    }
    Err(ViewEnd::Ended(ViewStatus::TooLong))
}

/// Adds a set-up line, unless those before it are too long.
fn add_line(script: &mut Vec<u8>, text: &[u8]) -> Result<(), ViewEnd> {
    if script.len() > MOST_LINE {
        return Err(ViewEnd::Ended(ViewStatus::TooLong));
    }
    script.extend_from_slice(text)?;
    script.push(b'\n')?;
    Ok(())
}

/// What set-up lines say.
fn set_up_of(alloc: Global, script: &[u8]) -> Result<SetUp, ViewEnd>
    ensures { IfOk result (λ set_up. KnownIsReady set_up.known) }
{
    if script.len() > MOST_LINE {
        return Err(ViewEnd::Ended(ViewStatus::TooLong));
    }
    match read_set_up(alloc, script) {
        Ok(set_up) => Ok(set_up),
        Err(ScriptEnd::Refused(refusal)) => {
            let text = line_of(script, refusal.line);
            Err(refused_set_up(alloc, refusal.line, refusal.reason, text))
        }
        Err(ScriptEnd::NoMemory) => Err(ViewEnd::Ended(ViewStatus::NoMemory)),
    }
}

/// The text of the set-up line of this number.
fn line_of(script: &[u8], number: u32) -> &[u8] {
    let mut left = number;
    for text in script.split(|byte| *byte == b'\n') {
        if left <= 1 {
            return text;
        }
        left -= 1;
    }
    b""
}

/// What it means that the line of this number does not come.
fn end_before(alloc: Global, number: u32, is_done: bool) -> Result<(), ViewEnd> {
    if is_done {
        Ok(())
    } else {
        refused(alloc, number, LineFault::NoEnd, b"")
    }
}

/// Writes what waits, if it is much.
fn make_room<K: Sink>(out: &mut Text, sink: &mut K) -> Result<(), ViewEnd> {
    if out.len() < ROOM {
        return Ok(());
    }
    write_out(out, sink)
}

/// Writes what waits.
pub fn write_out<K: Sink>(out: &mut Text, sink: &mut K) -> Result<(), ViewEnd> {
    if out.failed() {
        return Err(ViewEnd::Ended(ViewStatus::NoMemory));
    }
    if write_all(sink, out.as_slice()).is_err() {
        return Err(ViewEnd::Ended(ViewStatus::WriteFault));
    }
    out.clear();
    Ok(())
}
