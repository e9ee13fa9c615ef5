//! What a call answers.
ghost use Rattle.std.specs.Prelude.{◌≡◌};
ghost use Rattle.library_calls.specs.Statuses.{call_number as call_number_of};

/// What a call answers.
#[derive(Clone, Copy, Debug, PartialEq, Eq)]
pub enum CallStatus {
    /// It was done.
    Done,
    /// The handle is closed. Nothing was done.
    Closed,
    /// What was passed is out of range, or there is too little room for the answer. Nothing was
    /// done.
    Argument,
    /// The handle is open already. Nothing was done.
    Open,
    /// The priority of the packet has no room. Nothing was done.
    Full,
    /// No packet is held. Nothing was done.
    Empty,
    /// Memory was refused. Nothing was done.
    NoMemory,
    /// A port acted on an event that was not sent, which the answer tells. The fabric is spent.
    Undetected,
    /// Memory was refused while a line was answered: a front of the answer waits. A port went on as
    /// the answer says; a fabric or a checker is spent. A fabric is also if memory was refused to a
    /// node's access to its own registers.
    Cut,
    /// The fabric or the checker answers no further line. Nothing was done.
    Spent,
    /// The characters are no symbol, or the bytes carry no packet. Nothing was done.
    Bad,
    /// A reason hits a line of a trace. The checker is spent.
    Unlawful,
    /// A reason hits a line of a set-up. Nothing was done.
    Refused,
}

/// The number of a status.
pub fn call_number(status: CallStatus) -> u32
    ensures { result ≡ call_number_of status }
{
    match status {
        CallStatus::Done => 0,
        CallStatus::Closed => 1,
        CallStatus::Argument => 2,
        CallStatus::Open => 3,
        CallStatus::Full => 4,
        CallStatus::Empty => 5,
        CallStatus::NoMemory => 6,
        CallStatus::Undetected => 7,
        CallStatus::Cut => 8,
        CallStatus::Spent => 9,
        CallStatus::Bad => 10,
        CallStatus::Unlawful => 11,
        CallStatus::Refused => 12,
    }
}
