//! The lines of a source.
ghost use Rattle.std.specs.Prelude.{◌≡◌, ◌≤◌, length};

use crate::reading::ViewEnd;
use crate::status::ViewStatus;
use rio_chars::Source;
use std::alloc::{AllocError, Global};

/// The most bytes of a line, without its line feed.
pub const MOST_LINE: usize = 4_194_304;

/// The most bytes that one read gives.
const PIECE: usize = 65_536;

/// Bytes that were read from a source, up to `end`. The line that was read last is from `begin` up
/// to `stop`, and the next one begins at `behind`. Before `searched` no line feed is left.
#[derive(Drop)]
pub struct Lines {
    bytes: Vec<u8>,
    begin: usize,
    stop: usize,
    behind: usize,
    searched: usize,
    end: usize,
    is_done: bool,
    ghost line: { (begin ≤ stop) × (stop ≤ length bytes.items) },
    ghost left: { (behind ≤ searched) × (searched ≤ end) × (end ≤ length bytes.items) },
}

impl Lines {
    /// No bytes, and room for those of one read.
    pub fn new(alloc: Global) -> Result<Lines, AllocError> {
        Ok(Lines {
            bytes: vec![in alloc; 0u8; PIECE]?,
            begin: 0,
            stop: 0,
            behind: 0,
            searched: 0,
            end: 0,
            is_done: false,
        })
    }

    /// The line that was read last, without its line feed.
    pub fn line(&self) -> &[u8] {
        &self.bytes[self.begin..self.stop]
    }

    /// Reads the next line, and tells whether there is one. The last line may lack its line feed,
    /// unless it is empty.
    pub fn read<S: Source>(&mut self, source: &mut S) -> Result<bool, ViewEnd> {
        // Each turn but the last two reads a byte of the line at least.
        for _ in 0..MOST_LINE + 3 {
            if self.find() {
                return self.whole();
            }
            if self.is_done {
                return Ok(self.take_last());
            }
            self.fill(source)?;
        }
        Err(ViewEnd::Ended(ViewStatus::TooLong))
    }

    /// Takes the next line, and tells whether its line feed was read.
    fn find(&mut self) -> bool {
        let left = &self.bytes[self.searched..self.end];
        let Some(count) = left.iter().position(|byte| *byte == b'\n') else {
            self.searched = self.end;
            return false;
        };
        let stop = self.searched + count;
        self.begin = self.behind;
        self.stop = stop;
        self.behind = stop + 1;
        self.searched = stop + 1;
        true
    }

    /// Tells that there is a line, unless it is too long.
    fn whole(&self) -> Result<bool, ViewEnd> {
        if self.stop - self.begin > MOST_LINE {
            return Err(ViewEnd::Ended(ViewStatus::TooLong));
        }
        Ok(true)
    }

    /// Takes what is behind the last line feed, and tells whether anything is.
    fn take_last(&mut self) -> bool {
        self.begin = self.behind;
        self.stop = self.end;
        self.behind = self.end;
        self.searched = self.end;
        self.begin < self.stop
    }

    /// Reads once, behind the line that is not whole.
    fn fill<S: Source>(&mut self, source: &mut S) -> Result<(), ViewEnd> {
        self.compact();
        if self.end > MOST_LINE {
            return Err(ViewEnd::Ended(ViewStatus::TooLong));
        }
        if self.bytes.len() < self.end + PIECE {
            self.bytes.resize(self.end + PIECE, 0)?;
        }
        let end = self.end;
        let count = source.read(&mut self.bytes[end..end + PIECE])?;
        self.end = end + count;
        self.is_done = count == 0;
        Ok(())
    }

    /// The bytes of lines that were read go.
    fn compact(&mut self) {
        let left = self.end - self.behind;
        self.bytes.copy_within(self.behind..self.end, 0);
        self.begin = 0;
        self.stop = 0;
        self.behind = 0;
        self.searched = left;
        self.end = left;
    }
}
