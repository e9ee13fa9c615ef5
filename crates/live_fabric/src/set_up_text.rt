//! The text of lines of set-up.
ghost use Rattle.std.specs.Prelude.{◌≡◌, ◌+◌, ◌<◌, ◌≤◌, ◌++◌, [], length, take, OnOk};
ghost use Rattle.fabric_script.specs.Scripts.{pieces_of};
ghost use Rattle.live_lines.specs.Lines.{with_feed};

use rio_chars::NoMemory;
use std::alloc::Global;

/// Lines, each with its line feed, and how many they are.
#[derive(Drop)]
pub(crate) struct SetUpText {
    bytes: Vec<u8>,
    count: u32,
    ghost each_has_a_feed: { count ≤ length bytes.items },
}

impl SetUpText {
    /// No lines.
    pub(crate) fn new(alloc: Global) -> SetUpText
        ensures bytes { result.bytes.items ≡ [] }
        ensures count { result.count ≡ 0 }
    {
        SetUpText {
            bytes: Vec::new(alloc),
            count: 0,
        }
    }

    /// The bytes.
    pub(crate) fn as_slice(&self) -> &[u8]
        ensures { result.now ≡ self.now.bytes.items }
    {
        self.bytes.as_slice()
    }

    /// How many bytes they have.
    pub(crate) fn len(&self) -> usize
        ensures { result ≡ length self.now.bytes.items }
    {
        self.bytes.len()
    }

    /// How many they are.
    pub(crate) fn count(&self) -> u32
        ensures { result ≡ self.now.count }
    {
        self.count
    }

    /// Puts a text with a line feed behind them: as many lines as it has pieces.
    pub(crate) fn add(&mut self, line: &[u8]) -> Result<(), NoMemory>
        requires { length self.old.bytes.items + length line.now < 16777216 }
        ensures bytes { OnOk result (self.new.bytes.items
            ≡ self.old.bytes.items ++ with_feed line.now) }
        ensures count { OnOk result (self.new.count
            ≡ self.old.count + length (pieces_of line.now)) }
        ensures grows { length self.old.bytes.items ≤ length self.new.bytes.items }
    {
        self.bytes.extend_from_slice(line)?;
        let Ok(()) = self.bytes.push(b'\n') else {
            return Err(NoMemory);
        };
        self.count += piece_count(line) as u32;
        Ok(())
    }

    /// Lets go what stands behind so many bytes, which have so many lines.
    pub(crate) fn cut_back(&mut self, len: usize, count: u32)
        requires each_has_a_feed { count ≤ len }
        requires within { len ≤ length self.old.bytes.items }
        ensures bytes { self.new.bytes.items ≡ take len self.old.bytes.items }
        ensures count { self.new.count ≡ count }
    {
        self.count = count;
        self.bytes.truncate(len);
    }
}

/// How many pieces a text has.
fn piece_count(text: &[u8]) -> usize
    ensures { result ≡ length (pieces_of text.now) }
{
    text.split(|byte| *byte == b'\n').count()
}
