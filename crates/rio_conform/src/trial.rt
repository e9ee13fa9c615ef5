//! What a scenario needs while it is played.
ghost use Rattle.std.specs.Prelude.{◌≡◌, ◌≤◌, [], false, IfOk};
ghost use Rattle.port_lines.specs.Clocks.{new_clocked, plain_settings};
ghost use Rattle.conform_lines.specs.Tolerances.{judge_start};

use conform_lines::Judge;
use live_lines::LineReader;
use port_lines::{ClockedPort, PortSettings};
use rio_chars::{NoMemory, TextBuffer, TextSink};
use std::alloc::Global;

/// The port that gives the right answers, the judge of those that differ, and room for the answers
/// of both.
#[derive(Drop)]
pub(crate) struct Trial {
    pub(crate) port: ClockedPort,
    pub(crate) judge: Judge,
    pub(crate) input: LineReader,
    pub(crate) expected: TextSink,
    pub(crate) came: Vec<u8>,
    pub(crate) line: Vec<u8>,
    pub(crate) buffer: TextBuffer,
}

impl Trial {
    /// A new port of 4 to 30 buffers that does not tell them, and no bytes of the device.
    pub(crate) fn new(alloc: Global, buffers: u8) -> Result<Trial, NoMemory>
        requires least { 4 ≤ buffers }
        requires most { buffers ≤ 30 }
        ensures port { IfOk result (λ trial. trial.port ≡ new_clocked (plain_settings buffers)) }
        ensures judge { IfOk result (λ trial. trial.judge ≡ judge_start) }
        ensures input { IfOk result (λ trial. trial.input ≡ []) }
    {
        Ok(Trial {
            port: ClockedPort::new(alloc, PortSettings::plain(buffers))?,
            judge: Judge::new(alloc),
            input: LineReader::new(alloc)?,
            expected: TextSink::new(alloc),
            came: Vec::new(alloc),
            line: Vec::new(alloc),
            buffer: TextBuffer::new(alloc)?,
        })
    }
}
