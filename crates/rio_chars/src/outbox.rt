//! Output that waits in a buffer until it is written.
ghost use Rattle.std.specs.Prelude.{◌≡◌, ◌≤◌, ◌+◌, ℕ, List, IsTrue, false, [], length, take};
ghost use Rattle.std.specs.Fmt.{decimal};
ghost use Rattle.rio_chars.specs.CharText.{spaced_chars};
ghost use Rattle.rio_chars.specs.HexText.{hex_of};
ghost use Rattle.rio_chars.specs.Unless.{WritesUnless};
ghost use Rattle.rio_chars.specs.Written.{Writes};

use crate::digits::write_decimal;
use crate::runs::{RUN, spaced_char};
use crate::text_buffer::ROOM;
use crate::{Char, Sink, TextBuffer, write_all};
use std::marker::Model;

/// The most bytes whose digits have room in an empty buffer.
const HEX_PART: usize = 32768;

/// Text on its way to a sink, which is handed over in pieces of kilobytes. After a write that fails
/// nothing more is written, and what is told from then on is dropped: so the text of one event can
/// be told to its end without a branch at each word, and `failed` be asked then.
#[derive(Drop)]
pub struct Outbox<'a, K: Sink> {
    sink: &'a mut K,
    buffer: &'a mut TextBuffer,
    failed: bool,
}

impl<'a, K: Sink> Model for Outbox<'a, K> {
    ghost use Rattle.rio_chars.specs.Written.{Outgoing};

    ghost Value = { Outgoing };

    ghost view = { λ outbox.
        record {
          sink = outbox.sink.ghost_name;
          written = K.written outbox.sink.now;
          faults = K.faults outbox.sink.now;
          waiting = outbox.buffer.now;
          failed = outbox.failed;
        } };
}

impl<'a, K: Sink> Outbox<'a, K> {
    /// An outbox to this sink that has been told nothing. What waited in the buffer is dropped.
    pub fn new(buffer: &'a mut TextBuffer, sink: &'a mut K) -> Outbox<'a, K>
        ensures { result
            ≡ record {
              sink = sink.entry.ghost_name;
              written = K.written sink.old;
              faults = K.faults sink.old;
              waiting = [];
              failed = false;
            } }
    {
        buffer.clear();
        Outbox {
            sink,
            buffer,
            failed: false,
        }
    }

    /// Gives the sink back. What waits is dropped.
    pub fn into_sink(self) -> &'a mut K
        ensures same { result.ghost_name ≡ self.entry.sink }
        ensures written { K.written result.now ≡ self.entry.written }
        ensures faults { K.faults result.now ≡ self.entry.faults }
    {
        self.sink
    }

    /// Whether a write has failed.
    pub fn failed(&self) -> bool
        ensures { result ≡ self.now.failed }
    {
        self.failed
    }

    /// Whether nobody can see what is told: nothing waits, and the sink keeps nothing. Then text
    /// need not be made.
    pub fn is_unseen(&self) -> bool
        ensures { IsTrue result → (bytes : List ℕ) → Writes self.now self.now bytes }
    {
        self.sink.keeps_nothing() && self.buffer.as_slice().is_empty()
    }

    /// Tells these bytes.
    pub fn write(&mut self, bytes: &[u8])
        ensures { Writes self.old self.new bytes.now }
    {
        if bytes.len() <= self.buffer.room() {
            self.buffer.append(bytes);
        } else {
            self.write_long(bytes);
        }
    }

    /// Tells the first bytes of a short text: faster than `write`, since a copy of eight bytes is
    /// one step.
    #[inline(always)]
    pub fn write_short(&mut self, text: &[u8; 8], count: usize)
        requires { count ≤ 8 }
        ensures { Writes self.old self.new (take count text.now) }
    {
        if self.buffer.room() >= 8 {
            self.buffer.append_short(text, count);
        } else {
            self.write(&text[..count]);
        }
    }

    /// Tells two lower-case hexadecimal digits for each byte.
    pub fn write_hex(&mut self, bytes: &[u8])
        ensures { Writes self.old self.new (hex_of bytes.now) }
    {
        let mut rest = bytes;
        while rest.len() > HEX_PART {
            let (part, after) = rest.split_at(HEX_PART);
            self.write_hex_part(part);
            rest = after;
        }
        self.write_hex_part(rest);
    }

    /// Tells the text of each character behind a space. Runs of data characters go fastest.
    pub fn write_chars(&mut self, chars: &[Char])
        ensures { Writes self.old self.new (spaced_chars chars.now) }
    {
        let mut left = chars;
        while let [first, rest @ ..] = left {
            let count = self.write_data(left);
            if count > 0 {
                left = &left[count..];
            } else {
                self.write_short(&spaced_char(*first), 4);
                left = rest;
            }
        }
    }

    /// Tells a number in decimal digits, with no zero in front.
    pub fn write_decimal(&mut self, number: u32)
        ensures { Writes self.old self.new (decimal number) }
    {
        let mut digits = [0; 10];
        let begin = write_decimal(number, &mut digits);
        self.write(&digits[begin..]);
    }

    /// Writes what waits.
    pub fn flush(&mut self)
        ensures written { Writes self.old self.new [] }
        ensures empty { self.new.waiting ≡ [] }
    {
        self.failed = write_unless(self.failed, self.sink, self.buffer.as_slice());
        self.buffer.clear();
    }

    /// Tells the digits of bytes that have room in an empty buffer.
    fn write_hex_part(&mut self, bytes: &[u8])
        requires { length bytes.now ≤ 32768 }
        ensures { Writes self.old self.new (hex_of bytes.now) }
    {
        if 2 * bytes.len() > self.buffer.room() {
            self.flush();
        }
        self.buffer.append_hex(bytes);
    }

    /// Tells the texts of the data characters at the front, each behind a space, and answers how
    /// many they are. More come with the next call.
    fn write_data(&mut self, chars: &[Char]) -> usize
        ensures within { result ≤ length chars.now }
        ensures text { Writes self.old self.new
            (spaced_chars (take result chars.now)) }
    {
        self.make_room();
        self.append_data(chars)
    }

    /// Lets the texts of the data characters at the front wait, each behind a space, and answers
    /// how many they are.
    fn append_data(&mut self, chars: &[Char]) -> usize
        requires room { length self.old.waiting + 2048 ≤ 65536 }
        ensures within { result ≤ length chars.now }
        ensures text { Writes self.old self.new
            (spaced_chars (take result chars.now)) }
    {
        self.buffer.append_data(chars)
    }

    /// Makes room for the texts of as many data characters as are told at once.
    fn make_room(&mut self)
        ensures written { Writes self.old self.new [] }
        ensures room { length self.new.waiting + 2048 ≤ 65536 }
    {
        if self.buffer.room() < 4 * RUN {
            self.flush();
        }
    }

    /// Tells bytes that have no room behind those that wait.
    fn write_long(&mut self, bytes: &[u8])
        ensures { Writes self.old self.new bytes.now }
    {
        self.flush();
        if bytes.len() <= ROOM {
            self.buffer.append(bytes);
        } else {
            self.pass(bytes);
        }
    }

    /// Writes bytes where none wait.
    fn pass(&mut self, bytes: &[u8])
        requires { self.old.waiting ≡ [] }
        ensures { Writes self.old self.new bytes.now }
    {
        self.failed = write_unless(self.failed, self.sink, bytes);
    }
}

/// Writes bytes unless a write has failed, and answers whether one has. It takes no memory.
pub fn write_unless<K: Sink>(failed: bool, sink: &mut K, bytes: &[u8]) -> bool
    ensures { WritesUnless failed (K.written sink.old) (K.faults sink.old)
        result (K.written sink.new) (K.faults sink.new) bytes.now }
{
    failed || write_all(sink, bytes).is_err()
}
