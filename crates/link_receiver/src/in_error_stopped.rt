//! `InErrorStopped`: an error was met, and packets are dropped.
ghost use Rattle.std.specs.Prelude.{◌≡◌, ◌<◌};
ghost use Rattle.link_model.specs.Input.{receives, replied, InputOk, InputErrorStopped};
ghost use Rattle.link_model.specs.Input.Arrival.{LinkRequest};

use crate::in_ok::InOk;
use link_model::{PortStatus, link_response};
use rio_symbols::Symbol;
use std::marker::Model;

/// A receiver that met an error and waits for a link-request. Contracts see the next expected
/// ackID.
#[derive(Debug, Drop)]
pub struct InErrorStopped {
    pub(crate) expected: u8,
}

impl Model for InErrorStopped {
    ghost use Rattle.std.specs.Prelude.{ℕ, ◌<◌};

    ghost Value = { ℕ };

    ghost view = { λ s. s.expected };

    ghost invariant = { λ s. s.expected < 32 };
}

impl InErrorStopped {
    /// Returns the next expected ackID.
    pub fn expected(&self) -> u8
        ensures value { result ≡ self.now }
        ensures range { result < 32 }
    {
        self.expected
    }

    /// A link-request input-status.
    pub fn request(self) -> (InOk, Symbol)
        ensures { replied (InputOk result.0) result.1
            ≡ receives LinkRequest (InputErrorStopped self) }
    {
        let InErrorStopped { expected } = self;
        (
            InOk { expected },
            link_response(expected, PortStatus::ErrorStopped),
        )
    }
}
