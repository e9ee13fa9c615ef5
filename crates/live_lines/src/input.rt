//! The lines of a source.
ghost use Rattle.std.specs.Prelude.{◌≡◌, ◌≢◌, ◌<◌, ◌≤◌, ◌++◌, ℕ, true, false, List, [], length, min, take, slice_index, IfOk, OnOk, OnErr, IfErr};
ghost use Rattle.std.specs.Io.KnownBytes.{Consumes, Keeps, IsAtEnd};
ghost use Rattle.rio_chars.specs.Faults.{Rose};
ghost use Rattle.live_lines.specs.Lines.{HasNoFeed, IsLine, LinesStop, with_feed};
ghost use Rattle.live_lines.specs.declared.input.LineEnd.TheVariants.{Fault};

use rio_chars::{Failed, Source};
use std::alloc::{AllocError, Global};
use std::marker::Model;

/// The most bytes of a line, without its line feed.
pub const MOST_LINE: usize = 4_194_304;

/// The most bytes that one read gives.
const PIECE: usize = 65536;

/// Why there is no further line.
#[derive(Clone, Copy, Debug, PartialEq, Eq)]
pub enum LineEnd {
    /// The source has no further line feed.
    End,
    /// A read failed.
    Fault,
    /// The line is longer than `MOST_LINE` bytes.
    TooLong,
    /// Memory was wanted and not given.
    NoMemory,
}

impl From<Failed> for LineEnd {
    ghost from_gives = { λ _ end. end ≡ Fault };

    fn from(_: Failed) -> Self {
        LineEnd::Fault
    }
}

/// Bytes that were read from a source, and that no line has yet.
#[derive(Drop)]
pub struct LineReader {
    bytes: Vec<u8>,
    begin: usize,
    end: usize,
}

impl Model for LineReader {
    ghost use Rattle.std.specs.Prelude.{drop, take, length, List, ℕ, ◌≡◌, ◌≤◌};

    ghost Value = { List ℕ };

    ghost view = { λ input. drop input.begin (take input.end input.bytes.items) };

    ghost invariant = { λ input. (length input.bytes.items ≡ 65536) × (input.begin ≤ input.end)
        × (input.end ≤ 65536) };
}

impl LineReader {
    /// No bytes, and room for those of one read.
    pub fn new(alloc: Global) -> Result<LineReader, AllocError>
        ensures { IfOk result (λ input. input ≡ []) }
    {
        Ok(LineReader {
            bytes: vec![in alloc; 0u8; PIECE]?,
            begin: 0,
            end: 0,
        })
    }

    /// Reads a line, up to its line feed, which is taken and not part of it.
    pub fn read_line<S: Source>(
        &mut self,
        source: &mut S,
        line: &mut Vec<u8>,
    ) -> Result<(), LineEnd>
        ensures line { OnOk result (IsLine line.new.items) }
        ensures read { OnOk result ((taken : List ℕ)
            × Consumes (S.left source.old) (S.left source.new) taken
            × (self.old ++ taken ≡ with_feed line.new.items ++ self.new)) }
        ensures counts { OnOk result (S.faults source.new ≡ S.faults source.old) }
        ensures stops { IfErr result (λ end. (taken : List ℕ)
            × Consumes (S.left source.old) (S.left source.new) taken
            × LinesStop end (S.left source.new) (S.faults source.old) (S.faults source.new)
            (self.old ++ taken)) }
    {
        line.clear();
        while line.len() <= MOST_LINE {
            if !self.has_more(source)? {
                return Err(LineEnd::End);
            }
            let most = MOST_LINE + 1 - line.len();
            let Ok(has_feed) = self.take_piece(most, line) else {
                return Err(LineEnd::NoMemory);
            };
            if has_feed {
                return Ok(());
            }
        }
        Err(LineEnd::TooLong)
    }

    /// Whether bytes are left, after a read if none were.
    fn has_more<S: Source>(&mut self, source: &mut S) -> Result<bool, Failed>
        ensures read { OnOk result ((taken : List ℕ)
            × Consumes (S.left source.old) (S.left source.new) taken
            × (self.old ++ taken ≡ self.new)) }
        ensures more { IfOk result (λ more. more ≡ true → self.new ≢ []) }
        ensures none { IfOk result (λ more. more ≡ false
            → IsAtEnd (S.left source.new) × (self.new ≡ [])) }
        ensures failed { OnErr result (Keeps (S.left source.old) (S.left source.new)
            × Rose (S.faults source.old) (S.faults source.new) × (self.old ≡ [])) }
        ensures counts { OnOk result (S.faults source.new ≡ S.faults source.old) }
    {
        if self.begin == self.end {
            self.fill(source)?;
        }
        Ok(self.begin < self.end)
    }

    /// Moves the bytes before the first line feed behind the line, and takes the feed; or so many
    /// bytes at most, if none of them is a feed. Tells whether there was one.
    fn take_piece(&mut self, most: usize, line: &mut Vec<u8>) -> Result<bool, AllocError>
        ensures feed { IfOk result (λ has_feed. has_feed ≡ true → (front : List ℕ)
            × HasNoFeed front × (length front < most)
            × (line.new.items ≡ line.old.items ++ front)
            × (self.old ≡ with_feed front ++ self.new)) }
        ensures none { IfOk result (λ has_feed. has_feed ≡ false → (front : List ℕ)
            × HasNoFeed front × (length front ≡ min most (length self.old))
            × (line.new.items ≡ line.old.items ++ front)
            × (self.old ≡ front ++ self.new)) }
        ensures failed { OnErr result ((line.new.items ≡ line.old.items)
            × (self.new ≡ self.old)) }
    {
        let end = self.begin + most.min(self.end - self.begin);
        let bytes = &self.bytes[self.begin..end];
        let count = before_feed(bytes);
        let has_feed = count < bytes.len();
        line.extend_from_slice(&bytes[..count])?;
        self.begin += count + usize::from(has_feed);
        Ok(has_feed)
    }

    /// Reads once, where no bytes are left.
    fn fill<S: Source>(&mut self, source: &mut S) -> Result<(), Failed>
        requires { self.old ≡ [] }
        ensures read { OnOk result (Consumes (S.left source.old) (S.left source.new) self.new) }
        ensures end { OnOk result (self.new ≡ [] → IsAtEnd (S.left source.new)) }
        ensures failed { OnErr result (Keeps (S.left source.old) (S.left source.new)
            × Rose (S.faults source.old) (S.faults source.new)) }
        ensures counts { OnOk result (S.faults source.new ≡ S.faults source.old) }
    {
        self.begin = 0;
        self.end = 0;
        self.end = source.read(&mut self.bytes)?;
        Ok(())
    }
}

/// How many bytes come before the first line feed, or all of them if there is none.
fn before_feed(bytes: &[u8]) -> usize
    ensures within { result ≤ length bytes.now }
    ensures no_feed { HasNoFeed (take result bytes.now) }
    ensures feed { result < length bytes.now → slice_index bytes.now result ≡ 10 }
{
    bytes
        .iter()
        .position(|byte| *byte == b'\n')
        .unwrap_or(bytes.len())
}
