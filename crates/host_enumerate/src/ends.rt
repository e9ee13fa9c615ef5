//! Why a fabric is not numbered.
ghost use Rattle.std.specs.Prelude.{◌≡◌};
ghost use Rattle.host_enumerate.specs.declared.ends.EnumEnd.TheVariants.{NoMemory};

use crate::maint::MaintEnd;
use fabric_map::Path;
use fabric_script::PortRef;
use link_model::Event;
use std::alloc::AllocError;

/// Why a fabric is not numbered.
#[derive(Debug, Drop)]
pub enum EnumEnd {
    /// Another host, with this ID, holds the device on this path, which is the first such device
    /// that was met.
    LockedBy { path: Path, id: u16 },
    /// A port acted on an event that was not sent, and the count of undetected events rose.
    Undetected { port: PortRef, event: Event },
    /// A write failed, and the count of write faults rose.
    WriteFault,
    /// Memory was wanted and not given.
    NoMemory,
}

impl From<MaintEnd> for EnumEnd {
    ghost use Rattle.host_enumerate.specs.Ends.{walk_end_of};

    ghost from_gives = { λ given end. end ≡ walk_end_of given };

    fn from(end: MaintEnd) -> Self {
        match end {
            MaintEnd::Undetected { port, event } => EnumEnd::Undetected { port, event },
            MaintEnd::WriteFault => EnumEnd::WriteFault,
            MaintEnd::NoMemory => EnumEnd::NoMemory,
        }
    }
}

impl From<AllocError> for EnumEnd {
    ghost from_gives = { λ _ end. end ≡ NoMemory };

    fn from(_: AllocError) -> Self {
        EnumEnd::NoMemory
    }
}
