//! Why what was received is no packet or symbol.
ghost use Rattle.std.specs.Prelude.{◌≡◌};
ghost use Rattle.rio_packets.specs.CauseNumbers.{number_of};

/// The causes that a receiver tells in a packet-not-accepted symbol
/// (RapidIO Interconnect Specification 1.3, Part 6, packet-not-accepted).
#[derive(Clone, Copy, Debug, PartialEq, Eq)]
pub enum Cause {
    /// A packet with another ackID than the expected one.
    UnexpectedAck,
    /// A control symbol with a bad CRC.
    BadSymbol,
    /// A packet with a bad CRC.
    BadPacket,
    /// An invalid or illegal character.
    BadChar,
    /// A general error.
    General,
}

/// The number of a cause as a symbol carries it, of five bits.
pub fn cause_number(cause: Cause) -> u8
    ensures { result ≡ number_of cause }
{
    match cause {
        Cause::UnexpectedAck => 1,
        Cause::BadSymbol => 2,
        Cause::BadPacket => 4,
        Cause::BadChar => 5,
        Cause::General => 31,
    }
}
