//! The reasons of a trace.
ghost use Rattle.std.specs.Prelude.{◌≡◌};
ghost use Rattle.check_words.specs.Reasons.{trace_reason as trace_reason_of};

use refusal_words::set_up_reason;

/// What the reason of this number means, for which set-up lines and a trace are refused or not
/// lawful.
pub fn trace_reason(reason: u8) -> &'static [u8]
    ensures { result.now ≡ trace_reason_of reason }
{
    match reason {
        15 => b"no line --- follows the set-up lines",
        21 => b"this is no line of a trace, or it stands after the last, or the last is missing",
        22 => b"these characters are not at the front of the wire, or the edit is not within it",
        23 => b"no such step can be made here",
        24 =>
            b"this packet did not come with the ackID whose turn it is, after the one held before",
        25 => b"more packets are freed than were acknowledged",
        26 => b"a packet is sent that neither waits at the port nor is lent",
        _ => set_up_reason(reason),
    }
}
