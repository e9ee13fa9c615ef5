//! How the program ended.

/// How the program ended. The numbers are those of `rio`.
#[derive(Clone, Copy)]
pub enum ViewStatus {
    /// The whole view was written.
    Done,
    /// The words ask for no view.
    Words,
    /// A line of the input is refused.
    Refused,
    /// The source failed.
    ReadFault,
    /// The sink failed.
    WriteFault,
    /// Memory ran out.
    NoMemory,
    /// The set-up lines or a line of the trace are too long.
    TooLong,
}

/// The exit status of the program.
pub fn status_number(status: ViewStatus) -> u8 {
    match status {
        ViewStatus::Done => 0,
        ViewStatus::Words => 2,
        ViewStatus::Refused => 3,
        ViewStatus::ReadFault => 4,
        ViewStatus::WriteFault => 5,
        ViewStatus::NoMemory => 6,
        ViewStatus::TooLong => 8,
    }
}
