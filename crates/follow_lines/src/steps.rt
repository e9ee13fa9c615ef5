//! How often each step was made, by its kind and its place.
ghost use Rattle.std.specs.Prelude.{◌≡◌};

use fabric_script::split_word;
use std::alloc::{AllocError, Global};

/// A step by its words, as `hold B.0`, and how often it was made.
#[derive(Drop)]
pub struct StepCount {
    pub step: Vec<u8>,
    pub times: u64,
}

/// The steps that were made, in the order in which each first was.
#[derive(Drop)]
pub struct StepCounts {
    counts: Vec<StepCount>,
}

impl StepCounts {
    /// None was made.
    pub(crate) fn new(alloc: Global) -> StepCounts {
        StepCounts {
            counts: Vec::new(alloc),
        }
    }

    /// Each step that was made.
    pub fn counts(&self) -> &[StepCount]
        ensures { result.now ≡ self.now.counts.items }
    {
        self.counts.as_slice()
    }

    /// Counts the step of a line, if it has one.
    pub(crate) fn count(&mut self, alloc: Global, text: &[u8]) -> Result<(), AllocError> {
        let Some(step) = step_of(text) else {
            return Ok(());
        };
        for counted in self.counts.iter_mut() {
            if counted.step.as_slice() == step {
                counted.times = counted.times.saturating_add(1);
                return Ok(());
            }
        }
        let mut words = Vec::new(alloc);
        words.extend_from_slice(step)?;
        self.counts.push(StepCount {
            step: words,
            times: 1,
        })?;
        Ok(())
    }
}

/// The kind of a step and its place, which are the first two words of its line.
fn step_of(text: &[u8]) -> Option<&[u8]> {
    let (kind, rest) = split_word(text);
    if !is_step(kind) {
        return None;
    }
    let place = split_word(rest?).0;
    text.get(..kind.len() + 1 + place.len())
}

/// Whether a line of a step begins with this word.
fn is_step(word: &[u8]) -> bool {
    match word {
        b"hold" | b"free" | b"take" | b"leave" | b"move" | b"drop" | b"answer" => true,
        _ => false,
    }
}
