//! A sink that keeps in memory what is written.
ghost use Rattle.std.specs.Prelude.{◌≡◌, ◌≤◌, ◌<◌, ◌-◌, ◌↔◌, ◌⊎◌, ◌++◌, [], Some, length, min, IfOk, OnOk, OnErr, IsErr};
ghost use Rattle.std.specs.List.{Contains};
ghost use Rattle.std.specs.Io.KnownBytes.{WriteAppends};
ghost use Rattle.rio_chars.specs.Faults.{Rose};
ghost use Rattle.rio_chars.specs.Memory.{counted};

use crate::memory::zeros;
use crate::memory_source::least;
use crate::plan::Plan;
use crate::{Failed, NoMemory, Sink};
use std::alloc::Global;
use std::marker::Model;

/// A sink that keeps its bytes in memory, takes at most `step` of them in a call, and fails in the
/// calls that are listed and where no room is left.
#[derive(Drop)]
pub struct MemSink {
    buffer: Vec<u8>,
    len: usize,
    step: usize,
    plan: Plan,
}

impl Model for MemSink {
    ghost use Rattle.std.specs.Prelude.{take, length, ◌≤◌, ◌-◌};
    ghost use Rattle.rio_chars.specs.Memory.{Taking};

    ghost Value = { Taking };

    ghost view = { λ sink.
        record {
          written = take sink.len sink.buffer.items;
          room = length sink.buffer.items - sink.len;
          step = sink.step;
          fails = sink.plan.fails.items;
          calls = sink.plan.calls;
          faults = sink.plan.faults;
        } };

    ghost invariant = { λ sink. (sink.len ≤ length sink.buffer.items) × (1 ≤ sink.step) };
}

impl MemSink {
    /// A sink with room for this many bytes, all of it taken here. `fails` has the numbers of the
    /// calls that fail, counted from 0.
    pub fn new(
        alloc: Global,
        room: usize,
        step: usize,
        fails: Vec<u32>,
    ) -> Result<MemSink, NoMemory>
        requires { 1 ≤ step }
        ensures { IfOk result
            (λ sink. sink
            ≡ record {
              written = [];
              room = room;
              step = step;
              fails = fails.items;
              calls = 0;
              faults = 0;
            }) }
    {
        let Ok(buffer) = zeros(alloc, room) else {
            return Err(NoMemory);
        };
        Ok(MemSink {
            buffer,
            len: 0,
            step,
            plan: Plan {
                fails,
                calls: 0,
                faults: 0,
            },
        })
    }

    /// The bytes that were written.
    pub fn written(&self) -> &[u8]
        ensures { result.now ≡ self.now.written }
    {
        &self.buffer[..self.len]
    }

    /// Takes bytes that have room.
    fn keep(&mut self, bytes: &[u8])
        requires { length bytes.now ≤ self.old.room }
        ensures { self.new
            ≡ record self.old {
              written = self.old.written ++ bytes.now;
              room = self.old.room - length bytes.now;
            } }
    {
        let end = self.len + bytes.len();
        self.buffer[self.len..end].copy_from_slice(bytes);
        self.len = end;
    }
}

impl Sink for MemSink {
    ghost written = { λ sink. Some sink.written };

    ghost faults = { λ sink. sink.faults };

    fn write(&mut self, piece: &[u8]) -> Result<usize, Failed>
        ensures count { IfOk result (λ n. n ≤ length piece.now) }
        ensures progress { IfOk result (λ n. 0 < length piece.now → 0 < n) }
        ensures bytes { WriteAppends (Some self.old.written) (Some self.new.written) result
            piece.now }
        ensures cause { OnErr result (Rose self.old.faults self.new.faults) }
        ensures never_falls { self.old.faults ≤ self.new.faults }
        ensures listed { IsErr result
            ↔ (Contains self.old.fails self.old.calls
            ⊎ ((0 < length piece.now) × (self.old.room ≡ 0))) }
        ensures amount { IfOk result
            (λ n. n ≡ min self.old.step (min (length piece.now) self.old.room)) }
        ensures room { IfOk result (λ n. self.new.room ≡ self.old.room - n) }
        ensures room_kept { OnErr result (self.new.room ≡ self.old.room) }
        ensures counts { OnOk result (self.new.faults ≡ self.old.faults) }
        ensures counts_failure { OnErr result (self.new.faults ≡ counted self.old.faults) }
        ensures calls { self.new.calls ≡ counted self.old.calls }
        ensures same { (self.new.step ≡ self.old.step) × (self.new.fails ≡ self.old.fails) }
    {
        let room = self.buffer.len() - self.len;
        if self.plan.fails_now() || (room == 0 && !piece.is_empty()) {
            return Err(self.plan.fail());
        }
        let count = least(self.step, piece.len(), room);
        self.keep(&piece[..count]);
        Ok(count)
    }

    fn keeps_nothing(&self) -> bool {
        false
    }
}
