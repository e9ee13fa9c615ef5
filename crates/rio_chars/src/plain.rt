//! A source and a sink in memory that never fail.
ghost use Rattle.std.specs.Prelude.{◌≡◌, ◌≤◌, ◌<◌, ℕ, List, Option, Some, None, Ok, IsTrue, length, min, IfOk, OnOk, OnErr};
ghost use Rattle.std.specs.Io.KnownBytes.{ReadConsumes, WriteAppends};
ghost use Rattle.rio_chars.specs.Faults.{Rose};

use crate::memory::copy_front;
use crate::{Failed, Sink, Source};
use std::marker::Model;

/// A source of bytes in memory that never fails.
#[derive(Drop)]
pub struct PlainSource {
    bytes: Vec<u8>,
    begin: usize,
}

impl Model for PlainSource {
    ghost use Rattle.std.specs.Prelude.{List, ℕ, drop, length, ◌≤◌};

    ghost Value = { List ℕ };

    ghost view = { λ source. drop source.begin source.bytes.items };

    ghost invariant = { λ source. source.begin ≤ length source.bytes.items };
}

impl PlainSource {
    /// A source of these bytes.
    pub fn new(bytes: Vec<u8>) -> PlainSource
        ensures { result ≡ bytes.items }
    {
        PlainSource { bytes, begin: 0 }
    }
}

impl Source for PlainSource {
    ghost left = { λ source. Some source };

    ghost faults = { λ _. 0 };

    fn read(&mut self, piece: &mut [u8]) -> Result<usize, Failed>
        ensures count { IfOk result (λ n. n ≤ length piece.old) }
        ensures bytes { ReadConsumes (Some self.old) (Some self.new) result piece.new }
        ensures cause { OnErr result (Rose 0 0) }
        ensures counts { OnOk result (◌≡◌ {A = ℕ} 0 0) }
        ensures never_falls { 0 ≤ 0 }
        ensures amount { result ≡ Ok (min (length piece.old) (length self.old)) }
    {
        let count = piece.len().min(self.bytes.len() - self.begin);
        copy_front(piece, &self.bytes[self.begin..], count);
        self.begin += count;
        Ok(count)
    }
}

/// A sink that never fails, keeps nothing, and tells nothing of what was written.
#[derive(Clone, Copy, Debug, PartialEq, Eq)]
pub struct PlainSink;

impl PlainSink {
    /// The sink.
    pub fn new() -> PlainSink
        ensures { result ≡ record {} }
    {
        PlainSink
    }
}

impl Sink for PlainSink {
    ghost written = { λ _. None };

    ghost faults = { λ _. 0 };

    fn write(&mut self, piece: &[u8]) -> Result<usize, Failed>
        ensures count { IfOk result (λ n. n ≤ length piece.now) }
        ensures progress { IfOk result (λ n. 0 < length piece.now → 0 < n) }
        ensures bytes { WriteAppends None None result piece.now }
        ensures cause { OnErr result (Rose 0 0) }
        ensures counts { OnOk result (◌≡◌ {A = ℕ} 0 0) }
        ensures never_falls { 0 ≤ 0 }
        ensures whole { result ≡ Ok (length piece.now) }
    {
        Ok(piece.len())
    }

    fn keeps_nothing(&self) -> bool
        ensures keeps_nothing { IsTrue result → ◌≡◌ {A = Option (List ℕ)} None None }
        ensures always { IsTrue result }
    {
        true
    }
}
