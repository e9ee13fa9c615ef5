//! A source that reads from memory.
ghost use Rattle.std.specs.Prelude.{◌≡◌, ◌≤◌, ◌<◌, ◌↔◌, ℕ, List, Some, length, min, IfOk, OnOk, OnErr, IsErr, take, drop};
ghost use Rattle.std.specs.List.{Contains};
ghost use Rattle.std.specs.Io.KnownBytes.{ReadConsumes};
ghost use Rattle.rio_chars.specs.Faults.{Rose};
ghost use Rattle.rio_chars.specs.Memory.{counted};

use crate::memory::copy_front;
use crate::plan::Plan;
use crate::{Failed, Source};
use std::marker::Model;

/// A source of bytes in memory, which gives at most `step` of them in a call, and fails in the
/// calls that are listed.
#[derive(Drop)]
pub struct MemSource {
    bytes: Vec<u8>,
    begin: usize,
    step: usize,
    plan: Plan,
}

impl Model for MemSource {
    ghost use Rattle.std.specs.Prelude.{drop, length, ◌≤◌};
    ghost use Rattle.rio_chars.specs.Memory.{Giving};

    ghost Value = { Giving };

    ghost view = { λ source.
        record {
          left = drop source.begin source.bytes.items;
          step = source.step;
          fails = source.plan.fails.items;
          calls = source.plan.calls;
          faults = source.plan.faults;
        } };

    ghost invariant = { λ source. (source.begin ≤ length source.bytes.items) × (1 ≤ source.step) };
}

impl MemSource {
    /// A source of these bytes. `fails` has the numbers of the calls that fail, counted from 0.
    pub fn new(bytes: Vec<u8>, step: usize, fails: Vec<u32>) -> MemSource
        requires { 1 ≤ step }
        ensures { result
            ≡ record {
              left = bytes.items;
              step = step;
              fails = fails.items;
              calls = 0;
              faults = 0;
            } }
    {
        MemSource {
            bytes,
            begin: 0,
            step,
            plan: Plan {
                fails,
                calls: 0,
                faults: 0,
            },
        }
    }
}

impl Source for MemSource {
    ghost left = { λ source. Some source.left };

    ghost faults = { λ source. source.faults };

    fn read(&mut self, piece: &mut [u8]) -> Result<usize, Failed>
        ensures count { IfOk result (λ n. n ≤ length piece.old) }
        ensures bytes { ReadConsumes (Some self.old.left) (Some self.new.left) result piece.new }
        ensures cause { OnErr result (Rose self.old.faults self.new.faults) }
        ensures never_falls { self.old.faults ≤ self.new.faults }
        ensures listed { IsErr result ↔ Contains self.old.fails self.old.calls }
        ensures amount { IfOk result
            (λ n. n ≡ min self.old.step (min (length piece.old) (length self.old.left))) }
        ensures counts { OnOk result (self.new.faults ≡ self.old.faults) }
        ensures counts_failure { OnErr result (self.new.faults ≡ counted self.old.faults) }
        ensures calls { self.new.calls ≡ counted self.old.calls }
        ensures same { (self.new.step ≡ self.old.step) × (self.new.fails ≡ self.old.fails) }
    {
        if self.plan.fails_now() {
            return Err(self.plan.fail());
        }
        let count = least(self.step, piece.len(), self.bytes.len() - self.begin);
        copy_front(piece, &self.bytes[self.begin..], count);
        self.begin += count;
        Ok(count)
    }
}

/// The least of three numbers.
pub(crate) fn least(first: usize, second: usize, third: usize) -> usize
    ensures { result ≡ min first (min second third) }
{
    first.min(second.min(third))
}
