//! The entries of the tables.

/// An entry of the step tables of a port (RapidIO Interconnect Specification 1.3, Part 6), or of
/// the table of the reading of characters, or a point beside one: a case of it that needs a trial
/// of its own.
#[derive(Clone, Copy, Debug, PartialEq, Eq)]
pub enum Entry {
    /// A symbol in the output half.
    Heard(HeardEntry),
    /// A turn.
    Turn(TurnEntry),
    /// A time-out.
    TimeOut(TimeOutEntry),
    /// What comes to the input half.
    Arrived(ArrivedEntry),
    /// A character.
    Read(ReadEntry),
}

/// A symbol in the output half, by its stype0 and the state.
#[derive(Clone, Copy, Debug, PartialEq, Eq)]
pub enum HeardEntry {
    /// OK, packet-accepted of the oldest packet.
    Accepted,
    /// OK, another packet-accepted.
    AcceptedOther,
    /// OK, packet-retry of the oldest packet.
    Retried,
    /// OK, another packet-retry.
    RetriedOther,
    /// OK, packet-not-accepted.
    NotAccepted,
    /// OK, link-response.
    ResponseWhileOk,
    /// OK, another stype0.
    OtherWhileOk,
    /// Retry-stopped, packet-accepted.
    AcceptedWhileRetryStopped,
    /// Retry-stopped, packet-retry.
    RetriedWhileRetryStopped,
    /// Retry-stopped, packet-not-accepted.
    NotAcceptedWhileRetryStopped,
    /// Retry-stopped, link-response.
    ResponseWhileRetryStopped,
    /// Retry-stopped, another stype0.
    OtherWhileRetryStopped,
    /// Error-stopped, packet-accepted.
    AcceptedWhileErrorStopped,
    /// Error-stopped, packet-retry.
    RetriedWhileErrorStopped,
    /// Error-stopped, packet-not-accepted.
    NotAcceptedWhileErrorStopped,
    /// Error-stopped, link-response that was not asked for.
    ResponseUnasked,
    /// Error-stopped, link-response with an ackID that can be expected.
    ResponseExpected,
    /// Error-stopped, link-response with another ackID.
    ResponseUnexpected,
    /// Error-stopped, another stype0.
    OtherWhileErrorStopped,
    /// Failed, any stype0.
    AnyWhileFailed,
    /// Beside `Accepted`: the ackID is 31, so that 0 is the oldest.
    AcceptedLast,
    /// Beside `ResponseExpected`: it accepts packets.
    ResponseFrees,
}

/// A turn, by the state and by what waits.
#[derive(Clone, Copy, Debug, PartialEq, Eq)]
pub enum TurnEntry {
    /// OK, a packet is sent.
    PacketSent,
    /// Retry-stopped, restart-from-retry is sent.
    RestartSent,
    /// Error-stopped, link-request is sent.
    RequestSent,
    /// OK, nothing waits.
    NothingWaits,
    /// OK, a packet waits, and the window is full.
    WindowIsFull,
    /// OK, a packet waits, and there is no credit for it.
    WithoutCredit,
    /// Beside `PacketSent`: the far port tells its free buffers.
    WithinCredit,
    /// Beside `PacketSent`: the next packet that waits has a lower priority.
    Overtakes,
    /// Beside a turn in which no packet is sent while OK: the port tells its free buffers.
    StatusSent,
    /// Error-stopped, the link-request was sent.
    AskedBefore,
    /// Failed.
    TurnWhileFailed,
}

/// A time-out, by the state.
#[derive(Clone, Copy, Debug, PartialEq, Eq)]
pub enum TimeOutEntry {
    /// OK.
    TimeOutWhileOk,
    /// Error-stopped.
    TimeOutWhileErrorStopped,
    /// Retry-stopped.
    TimeOutWhileRetryStopped,
    /// Failed.
    TimeOutWhileFailed,
    /// Beside `TimeOutWhileOk`: nothing is outstanding.
    NothingOutstanding,
}

/// What comes to the input half, by the state.
#[derive(Clone, Copy, Debug, PartialEq, Eq)]
pub enum ArrivedEntry {
    /// OK, the expected packet, with room.
    PacketTaken,
    /// OK, the expected packet, without room.
    PacketWithoutRoom,
    /// OK, a packet with another ackID.
    PacketWithAnotherAck,
    /// OK, bad.
    BadWhileOk,
    /// OK, restart-from-retry.
    RestartWhileOk,
    /// OK, link-request input-status.
    RequestWhileOk,
    /// Retry-stopped, a packet.
    PacketWhileRetryStopped,
    /// Retry-stopped, bad.
    BadWhileRetryStopped,
    /// Retry-stopped, restart-from-retry.
    RestartWhileRetryStopped,
    /// Retry-stopped, link-request input-status.
    RequestWhileRetryStopped,
    /// Error-stopped, a packet.
    PacketWhileErrorStopped,
    /// Error-stopped, bad.
    BadWhileErrorStopped,
    /// Error-stopped, restart-from-retry.
    RestartWhileErrorStopped,
    /// Error-stopped, link-request input-status.
    RequestWhileErrorStopped,
    /// Another stype1, in any state.
    AnotherStype1,
    /// Link-request with another cmd, in any state.
    AnotherCmd,
    /// Beside `PacketTaken`: the ackID is 31, so that 0 is expected.
    LastTaken,
}

/// A character, by the text in which it stands.
#[derive(Clone, Copy, Debug, PartialEq, Eq)]
pub enum ReadEntry {
    /// Three bytes behind a delimiter spell no symbol.
    NoSymbol,
    /// A symbol behind a delimiter that does not allow it.
    WrongDelimiter,
    /// A delimiter within a symbol.
    DelimiterInSymbol,
    /// An idle within a symbol.
    IdleInSymbol,
    /// A stray within a symbol.
    StrayInSymbol,
    /// Data between packets.
    DataOutside,
    /// A stray between packets.
    StrayOutside,
    /// An idle within a packet.
    IdleInPacket,
    /// A stray within a packet.
    StrayInPacket,
    /// The 277th byte of a packet.
    TooLong,
    /// The end of a packet of fewer than 8 bytes.
    TooShort,
    /// The end of a packet of 8 bytes or more, which carries none.
    BadCrc,
    /// Start-of-packet within a packet: it ends it.
    EndedByNext,
    /// Stomp within a packet.
    StompInPacket,
    /// Restart-from-retry or link-request within a packet.
    BrokenOff,
    /// Another symbol within a packet.
    SymbolInPacket,
    /// End-of-packet between packets.
    EndOutside,
    /// An idle between packets.
    IdleOutside,
    /// Data or a stray that is skipped.
    Skipped,
    /// An idle or a delimiter, which ends skipping.
    SkippingEnds,
}
