//! A buffer of text.
ghost use Rattle.std.specs.Prelude.{◌≡◌, ◌≤◌, ◌+◌, ◌*◌, ◌++◌, [], length, take, IfOk};
ghost use Rattle.rio_chars.specs.CharText.{spaced_chars};
ghost use Rattle.rio_chars.specs.HexText.{hex_of};

use crate::digits::write_hex;
use crate::last_run::LastRun;
use crate::memory::zeros;
use crate::runs::write_words;
use crate::{Char, NoMemory};
use std::alloc::Global;
use std::marker::Model;

/// The most bytes that wait. It is a multiple of the pages that systems hand over, and small enough
/// for a near cache.
pub(crate) const ROOM: usize = 65536;

/// The fewest data characters that are a run: of fewer the texts are made each time.
const FEWEST: usize = 8;

/// The memory of an outbox: text that waits to be written, of at most 65,536 bytes.
#[derive(Drop)]
pub struct TextBuffer {
    bytes: Vec<u8>,
    run: LastRun,
    len: usize,
}

impl Model for TextBuffer {
    ghost use Rattle.std.specs.Prelude.{take, length, List, ℕ, ◌≡◌, ◌≤◌};

    ghost Value = { List ℕ };

    ghost view = { λ buffer. take buffer.len buffer.bytes.items };

    ghost invariant = { λ buffer. (length buffer.bytes.items ≡ 65536) × (buffer.len ≤ 65536) };
}

impl TextBuffer {
    /// An empty buffer. All its memory is taken here.
    pub fn new(alloc: Global) -> Result<TextBuffer, NoMemory>
        ensures { IfOk result (λ buffer. buffer ≡ []) }
    {
        Ok(TextBuffer {
            bytes: zeros(alloc, ROOM)?,
            run: LastRun::new(),
            len: 0,
        })
    }

    /// How many more bytes have room.
    pub(crate) fn room(&self) -> usize
        ensures { length self.now + result ≡ 65536 }
    {
        ROOM - self.len
    }

    /// The text that waits.
    pub(crate) fn as_slice(&self) -> &[u8]
        ensures { result.now ≡ self.now }
    {
        &self.bytes[..self.len]
    }

    /// Drops the text that waits.
    pub(crate) fn clear(&mut self)
        ensures { self.new ≡ [] }
    {
        self.len = 0;
    }

    /// Lets bytes wait that have room.
    pub(crate) fn append(&mut self, bytes: &[u8])
        requires { length self.old + length bytes.now ≤ 65536 }
        ensures { self.new ≡ self.old ++ bytes.now }
    {
        let end = self.len + bytes.len();
        self.bytes[self.len..end].copy_from_slice(bytes);
        self.len = end;
    }

    /// Lets the first bytes of a short text wait, of which the whole has room.
    #[inline(always)]
    pub(crate) fn append_short(&mut self, text: &[u8; 8], count: usize)
        requires room { length self.old + 8 ≤ 65536 }
        requires count { count ≤ 8 }
        ensures { self.new ≡ self.old ++ take count text.now }
    {
        self.bytes[self.len..self.len + 8].copy_from_slice(text);
        self.len += count;
    }

    /// Lets the texts of the data characters at the front wait, at most 512, each behind a space.
    /// Answers how many they are.
    pub(crate) fn append_data(&mut self, chars: &[Char]) -> usize
        requires room { length self.old + 2048 ≤ 65536 }
        ensures within { result ≤ length chars.now }
        ensures text { self.new ≡ self.old ++ spaced_chars (take result chars.now) }
    {
        if !starts_with_run(chars) {
            return self.append_few(chars);
        }
        self.run.hold(chars);
        let count = self.run.len();
        let end = self.len + 4 * count;
        self.bytes[self.len..end].copy_from_slice(self.run.texts());
        self.len = end;
        count
    }

    /// The same of no more than eight characters.
    fn append_few(&mut self, chars: &[Char]) -> usize
        requires room { length self.old + 2048 ≤ 65536 }
        ensures within { result ≤ length chars.now }
        ensures text { self.new ≡ self.old ++ spaced_chars (take result chars.now) }
    {
        let mut words = [[0; 4]; FEWEST];
        let count = write_words(words.as_mut_slice(), chars);
        self.append(words[..count].as_flattened());
        count
    }

    /// Lets the digits of bytes wait that have room.
    pub(crate) fn append_hex(&mut self, bytes: &[u8])
        requires { length self.old + 2 * length bytes.now ≤ 65536 }
        ensures { self.new ≡ self.old ++ hex_of bytes.now }
    {
        let end = self.len + 2 * bytes.len();
        write_hex(&mut self.bytes[self.len..end], bytes);
        self.len = end;
    }
}

/// Whether as many data characters come first as are a run.
fn starts_with_run(chars: &[Char]) -> bool {
    matches!(
        chars,
        [
            Char::Data(_),
            Char::Data(_),
            Char::Data(_),
            Char::Data(_),
            Char::Data(_),
            Char::Data(_),
            Char::Data(_),
            Char::Data(_),
            ..
        ]
    )
}
