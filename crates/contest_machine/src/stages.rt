//! What a walker is about to do, and what came of a turn.

use fabric_map::Path;
use host_enumerate::Access;

/// What is asked of the device on a path.
#[derive(Debug, Drop)]
pub struct Asked {
    pub path: Path,
    pub access: Access,
}

/// A write that is still to be made to the device on a path. The offset is in bytes.
#[derive(Debug, Drop)]
pub struct PendingWrite {
    pub path: Path,
    pub offset: u32,
    pub value: u32,
}

/// A switch whose ports are tried, the port by which its path enters it, and the one that is tried.
#[derive(Debug, Drop)]
pub struct Tried {
    pub path: Path,
    pub ports: u8,
    pub entry: u8,
    pub port: u8,
}

/// What a walker asks next, once no write is left to be made.
#[derive(Clone, Copy, Debug, PartialEq, Eq)]
pub enum Stage {
    /// The lock of the device on its path.
    Ask,
    /// It writes its ID to that lock, which was free.
    Claim,
    /// That lock, again.
    Check,
    /// The tag of that device, which bears its ID.
    Test,
    /// The features of that device, which it keeps.
    Features,
    /// The ports of that device, which is a switch.
    Information,
    /// The status of the port that is tried.
    Status,
    /// It frees the last device that it keeps.
    Free,
    /// Nothing: it has numbered the fabric.
    Done,
    /// Nothing: it gave up for a host with a greater ID, and keeps nothing.
    Lost,
}

/// What came of a turn.
#[derive(Clone, Copy, Debug, PartialEq, Eq)]
pub enum Turn {
    /// The walker goes on.
    Going,
    /// The lock that it read is that of a host with a lesser ID. It reads that lock again.
    Waiting,
    /// It has numbered the fabric.
    Done,
    /// It gave up for a host with a greater ID, and keeps nothing.
    Lost,
}
