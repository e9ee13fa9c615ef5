//! The log of both ends of the link.
ghost use Rattle.std.specs.Prelude.{◌≡◌, false, IfOk};
ghost use Rattle.rio_port.specs.Logs.{AddsLog};

use crate::log_text::{Ends, push_line, push_set_up};
use live_lines::LiveStatus;
use rio_chars::{NoMemory, Sink, TextBuffer, TextSink, write_unless};
use std::alloc::{AllocError, Global};

/// The log, and what it needs.
#[derive(Drop)]
pub struct Log {
    /// Whether one is asked for.
    pub(crate) is_asked: bool,
    /// Whether a write of it has failed.
    pub(crate) failed: bool,
    /// Whether it has come to its end, as it does at a line `reset`.
    ended: bool,
    ends: Ends,
    /// What is made and not written yet.
    pub(crate) text: Vec<u8>,
    /// The answer of the line that is logged.
    pub(crate) kept: TextSink,
    pub(crate) buffer: TextBuffer,
}

/// What words ask of a log: whether there is one, the names of the device and of the port, and the
/// words behind.
#[derive(Clone, Copy)]
pub struct LogWords<'a> {
    pub is_asked: bool,
    pub device: &'a [u8],
    pub port: &'a [u8],
    pub rest: &'a [String],
}

impl Log {
    /// A log of the device and of a port with so many buffers, whose set-up lines are made, or
    /// none.
    pub(crate) fn new(alloc: Global, words: LogWords, buffers: u8) -> Result<Log, NoMemory>
        ensures asked { IfOk result (λ log. log.is_asked ≡ words.entry.is_asked) }
        ensures fine { IfOk result (λ log. log.failed ≡ false) }
    {
        let ends = Ends::new(alloc, words.device, words.port)?;
        let mut text = Vec::new(alloc);
        push_set_up(&mut text, &ends, buffers)?;
        Ok(Log {
            is_asked: words.is_asked,
            failed: false,
            ended: false,
            ends,
            text,
            kept: TextSink::new(alloc),
            buffer: TextBuffer::new(alloc)?,
        })
    }

    /// Makes the lines of a line that was answered.
    pub(crate) fn make(&mut self, line: &[u8]) -> Result<(), AllocError>
        ensures asked { self.new.is_asked ≡ self.old.is_asked }
        ensures failed { self.new.failed ≡ self.old.failed }
        ensures kept { self.new.kept.text.items ≡ self.old.kept.text.items }
    {
        if self.ended {
            return Ok(());
        }
        push_line(&mut self.text, &mut self.ends, line, self.kept.as_slice())?;
        if line == RESET {
            self.ended = true;
            return self.text.extend_from_slice(END);
        }
        Ok(())
    }

    /// Makes the last line at the end of the input, unless there is no memory for it.
    pub(crate) fn end(&mut self, status: LiveStatus)
        ensures asked { self.new.is_asked ≡ self.old.is_asked }
        ensures failed { self.new.failed ≡ self.old.failed }
    {
        if !self.ended && status == LiveStatus::Done {
            let _ = self.text.extend_from_slice(END);
        }
    }

    /// Writes what was made, if a log is asked for and no write of it has failed.
    pub(crate) fn write<M: Sink>(&mut self, messages: &mut M)
        ensures asked { self.new.is_asked ≡ self.old.is_asked }
        ensures logs { AddsLog self.old.is_asked (M.written messages.old)
            (M.faults messages.old) self.old.failed (M.written messages.new)
            (M.faults messages.new) self.new.failed }
    {
        if self.is_asked {
            self.failed = write_unless(self.failed, messages, self.text.as_slice());
            self.text.clear();
        }
    }
}

/// The line behind which a log cannot go on.
const RESET: &[u8] = b"reset";

/// The last line.
const END: &[u8] = b"end\n";
