//! Why a line is refused.
ghost use Rattle.std.specs.Prelude.{◌≡◌};
ghost use Rattle.io_script.specs.IoReasons.{io_reason_number};

use fabric_script::Reason;

/// Why a line behind the set-up lines is refused. A line that several reasons hit is refused with
/// the one of the least number.
#[derive(Clone, Copy, Debug, PartialEq, Eq)]
pub(crate) enum IoReason {
    /// One of the reasons of all scripts.
    OfScript(Reason),
    /// An address is no multiple of 8.
    Misaligned,
    /// An endpoint is given memory behind a request or a round.
    LateMemory,
}

impl IoReason {
    /// The number by which a refusal names the reason.
    pub(crate) fn number(self) -> u8
        ensures { result ≡ io_reason_number self }
    {
        match self {
            IoReason::OfScript(reason) => reason.number(),
            IoReason::Misaligned => 17,
            IoReason::LateMemory => 18,
        }
    }
}
