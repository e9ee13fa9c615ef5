//! The number and the words of each entry.
ghost use Rattle.std.specs.Prelude.{◌≡◌, ◌<◌, length, slice_get};
ghost use Rattle.link_entries.specs.declared.entry.Entry.{Entry as AnEntry};
ghost use Rattle.link_entries.specs.Numbers.{entry_number, heard_number, turn_number, time_out_number, arrived_number, read_number, all_entries};

use crate::entry::{ArrivedEntry, Entry, HeardEntry, ReadEntry, TimeOutEntry, TurnEntry};

/// How many entries there are.
pub const ENTRIES: usize = 75;

/// The number of an entry, below [`ENTRIES`]: the place of its line.
pub fn entry_number(entry: Entry) -> usize
    ensures value { result ≡ entry_number entry }
    ensures range { result < ENTRIES }
{
    match entry {
        Entry::Heard(entry) => heard_number(entry),
        Entry::Turn(entry) => turn_number(entry),
        Entry::TimeOut(entry) => time_out_number(entry),
        Entry::Arrived(entry) => arrived_number(entry),
        Entry::Read(entry) => read_number(entry),
    }
}

/// The number of a symbol in the output half.
fn heard_number(entry: HeardEntry) -> usize
    ensures value { result ≡ heard_number entry }
    ensures range { result < ENTRIES }
{
    match entry {
        HeardEntry::Accepted => 0,
        HeardEntry::AcceptedOther => 1,
        HeardEntry::Retried => 2,
        HeardEntry::RetriedOther => 3,
        HeardEntry::NotAccepted => 4,
        HeardEntry::ResponseWhileOk => 5,
        HeardEntry::OtherWhileOk => 6,
        HeardEntry::AcceptedWhileRetryStopped => 7,
        HeardEntry::RetriedWhileRetryStopped => 8,
        HeardEntry::NotAcceptedWhileRetryStopped => 9,
        HeardEntry::ResponseWhileRetryStopped => 10,
        HeardEntry::OtherWhileRetryStopped => 11,
        HeardEntry::AcceptedWhileErrorStopped => 12,
        HeardEntry::RetriedWhileErrorStopped => 13,
        HeardEntry::NotAcceptedWhileErrorStopped => 14,
        HeardEntry::ResponseUnasked => 15,
        HeardEntry::ResponseExpected => 16,
        HeardEntry::ResponseUnexpected => 17,
        HeardEntry::OtherWhileErrorStopped => 18,
        HeardEntry::AnyWhileFailed => 19,
        HeardEntry::AcceptedLast => 51,
        HeardEntry::ResponseFrees => 52,
    }
}

/// The number of a turn.
fn turn_number(entry: TurnEntry) -> usize
    ensures value { result ≡ turn_number entry }
    ensures range { result < ENTRIES }
{
    match entry {
        TurnEntry::PacketSent => 20,
        TurnEntry::RestartSent => 21,
        TurnEntry::RequestSent => 22,
        TurnEntry::NothingWaits => 43,
        TurnEntry::WindowIsFull => 44,
        TurnEntry::WithoutCredit => 45,
        TurnEntry::WithinCredit => 46,
        TurnEntry::Overtakes => 47,
        TurnEntry::StatusSent => 48,
        TurnEntry::AskedBefore => 49,
        TurnEntry::TurnWhileFailed => 50,
    }
}

/// The number of a time-out.
fn time_out_number(entry: TimeOutEntry) -> usize
    ensures value { result ≡ time_out_number entry }
    ensures range { result < ENTRIES }
{
    match entry {
        TimeOutEntry::TimeOutWhileOk => 23,
        TimeOutEntry::TimeOutWhileErrorStopped => 24,
        TimeOutEntry::TimeOutWhileRetryStopped => 25,
        TimeOutEntry::TimeOutWhileFailed => 26,
        TimeOutEntry::NothingOutstanding => 53,
    }
}

/// The number of what comes to the input half.
fn arrived_number(entry: ArrivedEntry) -> usize
    ensures value { result ≡ arrived_number entry }
    ensures range { result < ENTRIES }
{
    match entry {
        ArrivedEntry::PacketTaken => 27,
        ArrivedEntry::PacketWithoutRoom => 28,
        ArrivedEntry::PacketWithAnotherAck => 29,
        ArrivedEntry::BadWhileOk => 30,
        ArrivedEntry::RestartWhileOk => 31,
        ArrivedEntry::RequestWhileOk => 32,
        ArrivedEntry::PacketWhileRetryStopped => 33,
        ArrivedEntry::BadWhileRetryStopped => 34,
        ArrivedEntry::RestartWhileRetryStopped => 35,
        ArrivedEntry::RequestWhileRetryStopped => 36,
        ArrivedEntry::PacketWhileErrorStopped => 37,
        ArrivedEntry::BadWhileErrorStopped => 38,
        ArrivedEntry::RestartWhileErrorStopped => 39,
        ArrivedEntry::RequestWhileErrorStopped => 40,
        ArrivedEntry::AnotherStype1 => 41,
        ArrivedEntry::AnotherCmd => 42,
        ArrivedEntry::LastTaken => 54,
    }
}

/// The number of a character.
fn read_number(entry: ReadEntry) -> usize
    ensures value { result ≡ read_number entry }
    ensures range { result < ENTRIES }
{
    match entry {
        ReadEntry::NoSymbol => 55,
        ReadEntry::WrongDelimiter => 56,
        ReadEntry::DelimiterInSymbol => 57,
        ReadEntry::IdleInSymbol => 58,
        ReadEntry::StrayInSymbol => 59,
        ReadEntry::DataOutside => 60,
        ReadEntry::StrayOutside => 61,
        ReadEntry::IdleInPacket => 62,
        ReadEntry::StrayInPacket => 63,
        ReadEntry::TooLong => 64,
        ReadEntry::TooShort => 65,
        ReadEntry::BadCrc => 66,
        ReadEntry::EndedByNext => 67,
        ReadEntry::StompInPacket => 68,
        ReadEntry::BrokenOff => 69,
        ReadEntry::SymbolInPacket => 70,
        ReadEntry::EndOutside => 71,
        ReadEntry::IdleOutside => 72,
        ReadEntry::Skipped => 73,
        ReadEntry::SkippingEnds => 74,
    }
}
