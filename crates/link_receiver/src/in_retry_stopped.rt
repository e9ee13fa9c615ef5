//! `InRetryStopped`: a packet was asked for again, and packets are dropped.
ghost use Rattle.std.specs.Prelude.{◌≡◌, ◌<◌};
ghost use Rattle.link_model.specs.Prelude.{number_of, receives, Damaged};
ghost use Rattle.link_model.specs.Input.{replied, silent, InputOk, InputRetryStopped, InputErrorStopped};
ghost use Rattle.link_model.specs.Input.Arrival.{RestartFromRetry, LinkRequest};

use crate::in_error_stopped::InErrorStopped;
use crate::in_ok::InOk;
use link_model::{PortStatus, link_response, packet_not_accepted};
use rio_packets::Cause;
use rio_symbols::Symbol;
use std::marker::Model;

/// A receiver that asked for a packet again and waits for restart-from-retry. Contracts see the
/// next expected ackID.
#[derive(Debug, Drop)]
pub struct InRetryStopped {
    pub(crate) expected: u8,
}

impl Model for InRetryStopped {
    ghost use Rattle.std.specs.Prelude.{ℕ, ◌<◌};

    ghost Value = { ℕ };

    ghost view = { λ s. s.expected };

    ghost invariant = { λ s. s.expected < 32 };
}

impl InRetryStopped {
    /// Returns the next expected ackID.
    pub fn expected(&self) -> u8
        ensures value { result ≡ self.now }
        ensures range { result < 32 }
    {
        self.expected
    }

    /// A restart-from-retry: packets are taken again.
    pub fn restart(self) -> InOk
        ensures { silent (InputOk result) ≡ receives RestartFromRetry (InputRetryStopped self) }
    {
        InOk {
            expected: self.expected,
        }
    }

    /// A link-request input-status.
    pub fn request(self) -> (InOk, Symbol)
        ensures { replied (InputOk result.0) result.1
            ≡ receives LinkRequest (InputRetryStopped self) }
    {
        let InRetryStopped { expected } = self;
        (
            InOk { expected },
            link_response(expected, PortStatus::RetryStopped),
        )
    }

    /// What came is no packet or symbol.
    pub fn bad(self, cause: Cause) -> (InErrorStopped, Symbol)
        ensures { replied (InputErrorStopped result.0) result.1
            ≡ receives (Damaged (number_of cause)) (InputRetryStopped self) }
    {
        let InRetryStopped { expected } = self;
        (
            InErrorStopped { expected },
            packet_not_accepted(expected, cause),
        )
    }
}
