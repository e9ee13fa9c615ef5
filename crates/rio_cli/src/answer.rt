//! What a call of the program answers.
ghost use Rattle.std.specs.Prelude.{◌≡◌, None};

use crate::refusal::Refusal;
use crate::status::Status;

/// How a call ended, and where its input is refused. There is a refusal exactly at the statuses
/// Script and Unlawful.
#[derive(Debug, Drop)]
pub struct CommandAnswer {
    pub status: Status,
    pub refusal: Option<Refusal>,
}

impl CommandAnswer {
    /// The answer of a call that ended so and refused no line.
    pub(crate) fn ended(status: Status) -> CommandAnswer
        ensures { result ≡ record { status = status; refusal = None } }
    {
        CommandAnswer {
            status,
            refusal: None,
        }
    }
}
