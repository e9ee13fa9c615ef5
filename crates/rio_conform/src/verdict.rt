//! What came of a scenario.
ghost use Rattle.std.specs.Prelude.{◌≡◌};
ghost use Rattle.rio_conform.specs.Report.{verdict_value, report_word, stopped_by};

use live_lines::{LiveStatus, status_number};

/// What came of a scenario. A number says how many lines were answered right before.
#[derive(Clone, Copy, Debug, PartialEq, Eq)]
pub enum Verdict {
    /// Each answer is the one that the tables give.
    Passes,
    /// The answer of the next line is another.
    Differs(usize),
    /// The device ended before its answer of the next line did.
    Ended(usize),
    /// The next line asks for nothing.
    Misspelled(usize),
    /// Nothing is known of the device: the program ended so.
    Stopped(LiveStatus),
}

/// The exit status.
pub(crate) fn verdict_number(verdict: Verdict) -> u8
    ensures { result ≡ verdict_value verdict }
{
    match verdict {
        Verdict::Passes => 0,
        Verdict::Differs(_) | Verdict::Ended(_) => 1,
        Verdict::Misspelled(_) => 2,
        Verdict::Stopped(status) => status_number(status),
    }
}

/// How the program ended, if nothing is known of the device.
pub(crate) fn status_of(verdict: Verdict) -> Option<LiveStatus>
    ensures { result ≡ stopped_by verdict }
{
    match verdict {
        Verdict::Stopped(status) => Some(status),
        Verdict::Passes | Verdict::Differs(_) | Verdict::Ended(_) | Verdict::Misspelled(_) => None,
    }
}

/// What stands before the name of a scenario in the report.
pub(crate) fn verdict_word(verdict: Verdict) -> &'static [u8]
    ensures { result.now ≡ report_word verdict }
{
    match verdict {
        Verdict::Passes => b"ok - ",
        Verdict::Differs(_) | Verdict::Ended(_) => b"not ok - ",
        Verdict::Misspelled(_) | Verdict::Stopped(_) => b"Bail out! ",
    }
}
