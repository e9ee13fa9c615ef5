//! What a view is.

use crate::reading::ViewEnd;
use crate::selection::Selection;
use crate::text::Text;
use fabric_script::SetUp;
use trace_lines::TraceLine;

/// What is known before the first line of a trace.
#[derive(Clone, Copy)]
pub struct Setting<'a> {
    /// The set-up lines.
    pub set_up: &'a SetUp,
    /// What is shown of the trace.
    pub selection: &'a Selection,
    /// The number of the first line of the trace in the input.
    pub first: u32,
}

/// A line of a trace, as it is seen.
#[derive(Drop)]
pub struct Seen<'a> {
    /// The set-up lines before the trace.
    pub set_up: &'a SetUp,
    /// What is shown of the trace.
    pub selection: &'a Selection,
    /// Whether this line is shown.
    pub is_shown: bool,
    /// The number of the line in the input, where the first is 1.
    pub number: u32,
    /// Its text, without the line feed.
    pub text: &'a [u8],
    /// What it says.
    pub line: &'a TraceLine,
}

/// A view of a trace, which takes one line after another in. What it writes it puts to `out`. A
/// line that is not shown comes too, since the next one may go on with its characters.
pub trait View {
    /// The set-up lines are known.
    fn begin(&mut self, setting: Setting<'_>, out: &mut Text) -> Result<(), ViewEnd>;

    /// A line comes.
    fn take(&mut self, seen: &Seen<'_>, out: &mut Text) -> Result<(), ViewEnd>;

    /// No line comes any more.
    fn end(&mut self, setting: Setting<'_>, out: &mut Text) -> Result<(), ViewEnd>;
}
