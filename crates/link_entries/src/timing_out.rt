//! The entries of the table of time-outs.
ghost use Rattle.std.specs.Prelude.{◌≡◌};
ghost use Rattle.link_entries.specs.TimingOut.{time_out_entry, time_out_point};

use crate::entry::TimeOutEntry;
use link_port::{OutKind, Port};

/// The entry that a time-out of this port will meet.
pub fn time_out_entry(port: &Port) -> TimeOutEntry
    ensures { result ≡ time_out_entry port.now.output }
{
    match port.out_kind() {
        OutKind::Ok => TimeOutEntry::TimeOutWhileOk,
        OutKind::RetryStopped => TimeOutEntry::TimeOutWhileRetryStopped,
        OutKind::ErrorStopped => TimeOutEntry::TimeOutWhileErrorStopped,
        OutKind::Failed => TimeOutEntry::TimeOutWhileFailed,
    }
}

/// The point that it will meet beside it, if any.
pub fn time_out_point(port: &Port) -> Option<TimeOutEntry>
    ensures { result ≡ time_out_point port.now.output }
{
    if port.out_kind() == OutKind::Ok && port.outstanding() == 0 {
        Some(TimeOutEntry::NothingOutstanding)
    } else {
        None
    }
}
