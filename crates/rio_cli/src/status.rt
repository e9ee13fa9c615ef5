//! How a call of the program ended.
ghost use Rattle.std.specs.Prelude.{◌≡◌};
ghost use Rattle.rio_cli.specs.Statuses.{exit_number};

/// How a call of `rio` ended.
#[derive(Clone, Copy, Debug, PartialEq, Eq)]
pub enum Status {
    /// Everything was carried out and written.
    Done,
    /// The words are of no known form.
    Words,
    /// The script or the set-up lines are refused, or a word is no character.
    Script,
    /// The source failed.
    ReadFault,
    /// The sink failed.
    WriteFault,
    /// Memory ran out.
    NoMemory,
    /// A port acted on an event that was not sent: a corruption that no check has found.
    Undetected,
    /// The input is too long.
    TooLong,
    /// A device is locked by another host.
    Locked,
    /// The trace is not lawful.
    Unlawful,
}

/// The exit status of the program.
pub fn status_number(status: Status) -> u8
    ensures { result ≡ exit_number status }
{
    match status {
        Status::Done => 0,
        Status::Words => 2,
        Status::Script => 3,
        Status::ReadFault => 4,
        Status::WriteFault => 5,
        Status::NoMemory => 6,
        Status::Undetected => 7,
        Status::TooLong => 8,
        Status::Locked => 9,
        Status::Unlawful => 10,
    }
}
