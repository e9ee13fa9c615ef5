//! The lines of a script as values.
ghost use Rattle.std.specs.Prelude.{◌≡◌};
ghost use Rattle.io_script.specs.IoLines.{io_form_of};

use crate::forms::IoForm;
use fabric_script::Script;
use io_packets::Load;

/// One line behind the set-up lines. A node is the number of an endpoint, in the order of the
/// nodes' lines. Addresses are those of bytes and multiples of 8.
#[derive(Debug, Drop)]
pub enum IoLine {
    /// From now on an endpoint has a memory of so many bytes, all 0: 8 to 65,536, a multiple of 8.
    Memory {
        node: u8,
        bytes: u32,
    },
    /// An endpoint asks a device for 8, 16, 32 or 64 bytes from an address on (NREAD).
    NRead {
        node: u8,
        dest: u8,
        addr: u32,
        size: u8,
    },
    /// An endpoint asks a device to write 8, 16, 32 or 64 bytes, without a response (NWRITE).
    NWrite {
        node: u8,
        dest: u8,
        addr: u32,
        load: Load,
    },
    /// An endpoint asks a device to write 8, 16, 32 or 64 bytes, and for a response (NWRITE_R).
    NWriteR {
        node: u8,
        dest: u8,
        addr: u32,
        load: Load,
    },
    /// An endpoint asks a device to write 8 to 64 bytes, in whole double-words (SWRITE).
    SWrite {
        node: u8,
        dest: u8,
        addr: u32,
        load: Load,
    },
    /// Every link and every switch carries what waits, and each endpoint takes what came to it.
    Round,
}

impl IoLine {
    /// The form of the line.
    pub(crate) fn form(&self) -> IoForm
        ensures { result ≡ io_form_of self.now }
    {
        match self {
            IoLine::Memory { .. } => IoForm::Memory,
            IoLine::NRead { .. } => IoForm::NRead,
            IoLine::NWrite { .. } => IoForm::NWrite,
            IoLine::NWriteR { .. } => IoForm::NWriteR,
            IoLine::SWrite { .. } => IoForm::SWrite,
            IoLine::Round => IoForm::Round,
        }
    }
}

/// A line with its number in the whole input, counted from 1.
#[derive(Debug, Drop)]
pub struct NumberedIo {
    pub line: u32,
    pub io: IoLine,
}

/// The set-up lines of a fabric, and the lines behind them.
#[derive(Debug, Drop)]
pub struct IoScript {
    pub script: Script,
    pub lines: Vec<NumberedIo>,
}
