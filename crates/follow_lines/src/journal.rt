//! What is kept of the lines that were read, for what is said of them.
ghost use Rattle.std.specs.Prelude.{◌≡◌, ◌≤◌, [], None, length, take};

use crate::steps::StepCounts;
use std::alloc::{AllocError, Global};
use std::collections::VecDeque;
use trace_check::Checker;
use trace_reactions::Judge;

/// How many lines of a trace are kept: twenty, the one that is told, and the one behind it.
const MOST_KEPT: usize = 22;

/// How many bytes are kept of each: a byte more than are shown of it.
const MOST_BYTES: usize = 201;

/// What was read: the set-up lines as bytes, how many lines stand before the trace, the last line,
/// notes of the lines of the trace, and the checker or the judge of reactions that took these.
#[derive(Drop)]
pub struct Journal {
    pub script: Vec<u8>,
    pub before: u32,
    pub line: Vec<u8>,
    pub notes: Notes,
    pub checker: Option<Checker>,
    pub judge: Option<Judge>,
}

impl Journal {
    /// Nothing was read. Steps are counted if that is asked.
    pub fn new(alloc: Global, counts: bool) -> Journal
        ensures script { result.script.items ≡ [] }
        ensures checker { result.checker ≡ None }
    {
        Journal {
            script: Vec::new(alloc),
            before: 0,
            line: Vec::new(alloc),
            notes: Notes::new(alloc, counts),
            checker: None,
            judge: None,
        }
    }
}

/// The last lines of a trace, each cut, and how often each step was made, if that is counted.
#[derive(Drop)]
pub struct Notes {
    last: VecDeque<Vec<u8>>,
    lines: u64,
    counts: bool,
    steps: StepCounts,
    ghost few: { length last.items ≤ 22 },
}

impl Notes {
    ghost use Rattle.std.specs.Prelude.{◌+◌, ◌-◌, ◌++◌, ◌∷◌, ℕ, Some, drop, slice_get, IfOk, IfSome};
    ghost use Rattle.follow_lines.specs.Noting.{kept_lines};

    /// No line was read.
    fn new(alloc: Global, counts: bool) -> Notes {
        Notes {
            last: VecDeque::new(alloc),
            lines: 0,
            counts,
            steps: StepCounts::new(alloc),
        }
    }

    /// How many lines of the trace were read.
    pub fn lines(&self) -> u64
        ensures { result ≡ self.now.lines }
    {
        self.lines
    }

    /// The first bytes of the line of the trace with this number, counted from 1, if it is kept.
    pub fn line(&self, number: u64) -> Option<&[u8]>
        ensures { IfSome result (λ line. (place : ℕ)
            × (place + self.now.lines + 1 ≡ number + length (kept_lines self.now))
            × (slice_get (kept_lines self.now) place ≡ Some line.now)) }
    {
        let behind = self.lines.checked_sub(number)?;
        let place = (self.last.len() as u64)
            .checked_sub(behind)?
            .checked_sub(1)?;
        match self.last.get(place as usize) {
            Some(line) => Some(line.as_slice()),
            None => None,
        }
    }

    /// How often each step was made at each place.
    pub fn steps(&self) -> &StepCounts
        ensures { result.now ≡ self.now.steps }
    {
        &self.steps
    }

    /// Notes a line that was read.
    pub(crate) fn note(&mut self, alloc: Global, text: &[u8]) -> Result<(), AllocError>
        ensures lines { IfOk result (λ _. self.new.lines ≡ self.old.lines + 1) }
        ensures last { IfOk result (λ _. kept_lines self.new
            ≡ drop (length (kept_lines self.old) - 21) (kept_lines self.old)
            ++ take 201 text.now ∷ []) }
    {
        let mut line = self.forgotten(alloc);
        line.clear();
        line.extend_from_slice(front_of(text))?;
        self.last.push_back(line)?;
        match self.lines.checked_add(1) {
            Some(lines) => self.lines = lines,
            None => return Err(AllocError),
        }
        Ok(())
    }

    /// The oldest line that is kept, if there is no room for one more, and else an empty one.
    fn forgotten(&mut self, alloc: Global) -> Vec<u8>
        ensures last { self.new.last.items
            ≡ drop (length self.old.last.items - 21) self.old.last.items }
        ensures lines { self.new.lines ≡ self.old.lines }
    {
        if self.last.len() < MOST_KEPT {
            return Vec::new(alloc);
        }
        match self.last.pop_front() {
            Some(line) => line,
            None => Vec::new(alloc),
        }
    }

    /// Counts the step of a line that was taken, if it has one and steps are counted.
    pub(crate) fn count(&mut self, alloc: Global, text: &[u8]) -> Result<(), AllocError> {
        if !self.counts {
            return Ok(());
        }
        self.steps.count(alloc, text)
    }
}

/// The bytes of a line that are kept.
fn front_of(text: &[u8]) -> &[u8]
    ensures { result.now ≡ take 201 text.now }
{
    if text.len() <= MOST_BYTES {
        return text;
    }
    &text[..MOST_BYTES]
}
