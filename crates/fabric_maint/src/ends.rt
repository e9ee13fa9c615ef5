//! What the end of an ask is for a host.
ghost use Rattle.std.specs.Prelude.{◌≡◌, Some, IsSome};
ghost use Rattle.fabric_maint.specs.AskEnds.{count_after, end_for};

use fabric_ports::AskEnd;
use host_enumerate::MaintEnd;

/// How many undetected events were met, if so many were met before an ask that ended so.
pub(crate) fn count_after(count: u64, end: &AskEnd) -> u64
    ensures { result ≡ count_after count end.now }
{
    match end {
        AskEnd::Undetected { .. } => count.saturating_add(1),
        _ => count,
    }
}

/// Why an access has no answer, if the response of its request comes back.
pub(crate) fn end_for(end: AskEnd) -> MaintEnd
    requires { IsSome (end_for end) }
    ensures { Some result ≡ end_for end }
{
    match end {
        AskEnd::Undetected { port, event } => MaintEnd::Undetected { port, event },
        AskEnd::WriteFault => MaintEnd::WriteFault,
        AskEnd::NoMemory => MaintEnd::NoMemory,
        AskEnd::Unanswered => unreachable!(),
    }
}
