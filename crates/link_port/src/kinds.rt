//! The names of the states of a port.

/// The states of the output half.
#[derive(Clone, Copy, Debug, PartialEq, Eq)]
pub enum OutKind {
    /// Packets may start.
    Ok,
    /// The far port asked for the oldest packet again, and restart-from-retry is to be sent.
    RetryStopped,
    /// The sender has to ask which packet the far port expects.
    ErrorStopped,
    /// The far port told an ackID that it cannot expect: nothing more is sent.
    Failed,
}

/// The states of the input half.
#[derive(Clone, Copy, Debug, PartialEq, Eq)]
pub enum InKind {
    /// Packets are taken.
    Ok,
    /// A packet had no room, and restart-from-retry is awaited.
    RetryStopped,
    /// An error was met, and a link-request is awaited.
    ErrorStopped,
}
