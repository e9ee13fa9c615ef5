//! A sink in memory.
ghost use Rattle.std.specs.Prelude.{◌≡◌, Some, []};

use crate::{Failed, Sink};
use std::alloc::Global;

/// A sink that keeps in memory what is written. A write fails only if memory is not given.
#[derive(Drop)]
pub struct TextSink {
    text: Vec<u8>,
    faults: u64,
}

impl Sink for TextSink {
    ghost written = { λ sink. Some sink.text.items };

    ghost faults = { λ sink. sink.faults };

    fn write(&mut self, piece: &[u8]) -> Result<usize, Failed> {
        match self.text.extend_from_slice(piece) {
            Ok(()) => Ok(piece.len()),
            Err(_) => {
                self.faults = self.faults.saturating_add(1);
                Err(Failed)
            }
        }
    }

    fn keeps_nothing(&self) -> bool {
        false
    }
}

impl TextSink {
    /// Nothing was written.
    pub fn new(alloc: Global) -> TextSink
        ensures { result.text.items ≡ [] }
    {
        TextSink {
            text: Vec::new(alloc),
            faults: 0,
        }
    }

    /// Forgets what was written.
    pub fn clear(&mut self)
        ensures { self.new.text.items ≡ [] }
    {
        self.text.clear();
    }

    /// What was written.
    pub fn as_slice(&self) -> &[u8]
        ensures { result.now ≡ self.now.text.items }
    {
        self.text.as_slice()
    }

    /// Gives out what was written.
    pub fn into_bytes(self) -> Vec<u8>
        ensures { result.items ≡ self.text.items }
    {
        self.text
    }
}
