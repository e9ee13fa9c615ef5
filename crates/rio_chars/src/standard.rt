//! A source and a sink over std's readers and writers.
ghost use Rattle.std.specs.Prelude.{◌≡◌, ◌≤◌, ◌<◌, ℕ, Option, Some, None, List, [], length, take, MatchOption, OnErr, IfOk, IfSome, OnOk};
ghost use Rattle.std.specs.Io.KnownBytes.{ReadConsumes, WriteAppends, Consumes, Appends, Keeps, IsAtEnd};
ghost use Rattle.rio_chars.specs.Faults.{Rose};
ghost use Rattle.rio_chars.specs.Memory.{counted};

use crate::{Failed, Sink, Source};
use std::io::{ErrorKind, Read, Write};

/// How often a read or a write is tried that signals interrupt, so that an error that stays ends
/// it.
const TRIES: u32 = 1000;

/// A source over a reader of the standard library, as standard input:
/// `StdSource::new(rt.reader())`. It tells of the bytes that are left what the reader tells of
/// itself: those of a slice, and nothing of standard input.
#[derive(Drop)]
pub struct StdSource<R> {
    reader: R,
    faults: u64,
}

impl<R: Read> StdSource<R> {
    /// A source that has not failed yet.
    pub fn new(reader: R) -> StdSource<R>
        ensures reader { result.reader ≡ reader }
        ensures faults { result.faults ≡ 0 }
    {
        StdSource { reader, faults: 0 }
    }
}

impl<R: Read> Source for StdSource<R> {
    ghost left = { λ source. R.remaining source.reader };

    ghost faults = { λ source. source.faults };

    fn read(&mut self, piece: &mut [u8]) -> Result<usize, Failed>
        ensures count { IfOk result (λ n. n ≤ length piece.old) }
        ensures bytes { ReadConsumes (R.remaining self.old.reader) (R.remaining self.new.reader)
            result piece.new }
        ensures cause { OnErr result (Rose self.old.faults self.new.faults) }
        ensures counts { OnOk result (self.new.faults ≡ self.old.faults) }
        ensures counts_failure { OnErr result (self.new.faults ≡ counted self.old.faults) }
        ensures never_falls { self.old.faults ≤ self.new.faults }
    {
        match read_once(&mut self.reader, piece) {
            Some(count) => Ok(count),
            None => {
                self.faults = self.faults.saturating_add(1);
                Err(Failed)
            }
        }
    }
}

/// One read, tried again if a signal interrupts it, at most 1,000 times. Any other error is a
/// failure at once.
fn read_once<R: Read>(reader: &mut R, piece: &mut [u8]) -> Option<usize>
    ensures count { IfSome result (λ n. n ≤ length piece.old) }
    ensures bytes { MatchOption result (Keeps (R.remaining reader.old) (R.remaining reader.new))
        (λ n. Consumes (R.remaining reader.old) (R.remaining reader.new) (take n piece.new)
        × (n ≡ 0 → 0 < length piece.new → IsAtEnd (R.remaining reader.new))) }
{
    for _ in 0..TRIES {
        match reader.read(piece) {
            Ok(count) => return Some(count),
            Err(error) => {
                if error.kind() != ErrorKind::Interrupted {
                    return None;
                }
            }
        }
    }
    None
}

/// A sink over a writer of the standard library, as standard output:
/// `StdSink::new(io::writer(&rt))`. It wants a writer that keeps nothing back, as this one is, and
/// does not flush it: a flush that failed after bytes were taken could not be answered. It tells of
/// the bytes that were written what the writer tells of itself: those in a `Vec`, and nothing of
/// standard output.
#[derive(Drop)]
pub struct StdSink<W> {
    writer: W,
    faults: u64,
}

impl<W: Write> StdSink<W> {
    /// A sink that has not failed yet.
    pub fn new(writer: W) -> StdSink<W>
        ensures writer { result.writer ≡ writer }
        ensures faults { result.faults ≡ 0 }
    {
        StdSink { writer, faults: 0 }
    }
}

impl<W: Write> Sink for StdSink<W> {
    ghost written = { λ sink. W.contents sink.writer };

    ghost faults = { λ sink. sink.faults };

    fn write(&mut self, piece: &[u8]) -> Result<usize, Failed>
        ensures count { IfOk result (λ n. n ≤ length piece.now) }
        ensures progress { IfOk result (λ n. 0 < length piece.now → 0 < n) }
        ensures bytes { WriteAppends (W.contents self.old.writer) (W.contents self.new.writer)
            result piece.now }
        ensures cause { OnErr result (Rose self.old.faults self.new.faults) }
        ensures counts { OnOk result (self.new.faults ≡ self.old.faults) }
        ensures counts_failure { OnErr result (self.new.faults ≡ counted self.old.faults) }
        ensures never_falls { self.old.faults ≤ self.new.faults }
    {
        match write_once(&mut self.writer, piece) {
            Some(count) => Ok(count),
            None => {
                self.faults = self.faults.saturating_add(1);
                Err(Failed)
            }
        }
    }

    fn keeps_nothing(&self) -> bool {
        false
    }
}

/// One write, tried again if a signal interrupts it, at most 1,000 times. Any other error is a
/// failure at once, and a writer that takes nothing of some bytes has failed.
fn write_once<W: Write>(writer: &mut W, piece: &[u8]) -> Option<usize>
    ensures count { IfSome result (λ n. n ≤ length piece.now) }
    ensures progress { IfSome result (λ n. 0 < length piece.now → 0 < n) }
    ensures bytes { MatchOption result (Keeps (W.contents writer.old) (W.contents writer.new))
        (λ n. Appends (W.contents writer.old) (W.contents writer.new) (take n piece.now)) }
{
    for _ in 0..TRIES {
        match writer.write(piece) {
            Ok(count) => {
                if count == 0 && !piece.is_empty() {
                    return None;
                }
                return Some(count);
            }
            Err(error) => {
                if error.kind() != ErrorKind::Interrupted {
                    return None;
                }
            }
        }
    }
    None
}
