//! `OutRetryStopped`: the far port asked for the oldest packet again.
ghost use Rattle.std.specs.Prelude.{◌≡◌, ◌<◌, ℕ, length, Option, false};
ghost use Rattle.link_model.specs.Prelude.{hears, turns, Output, Sends, IsOutstanding};
ghost use Rattle.link_model.specs.Output.{turned};
ghost use Rattle.link_model.specs.Outstanding.{with_report};
ghost use Rattle.link_model.specs.Reports.{report_of};
ghost use Rattle.link_model.specs.Output.Stype0.{PacketAccepted, PacketRetry, PacketNotAccepted};
ghost use Rattle.link_sender.specs.Answers.{error_stopped};

use crate::out_error_stopped::OutErrorStopped;
use crate::out_ok::OutOk;
use crate::outstanding::Outstanding;
use link_model::Report;
use std::marker::Model;

/// A sender that has to send restart-from-retry. Contracts see its outstanding packets.
#[derive(Debug, Drop)]
pub struct OutRetryStopped {
    pub(crate) outstanding: Outstanding,
}

impl Model for OutRetryStopped {
    ghost use Rattle.link_model.specs.Outstanding.{Outstanding};

    ghost Value = { Outstanding };

    ghost view = { λ s. s.outstanding };
}

impl OutRetryStopped {
    /// Keeps what the far port told, as [`OutOk::report`].
    pub fn report(self, base: u8, free: u8) -> OutRetryStopped
        requires base { base < 32 }
        requires free { free < 32 }
        ensures { result ≡ with_report (report_of base free) self }
    {
        let OutRetryStopped { mut outstanding } = self;
        outstanding.keep(Report::new(base, free));
        OutRetryStopped { outstanding }
    }

    /// A turn, which sends restart-from-retry: nothing is outstanding, and the oldest ackID is the
    /// next one.
    pub fn restart(self) -> OutOk
        ensures { (waiting : Option ℕ)
            → turned (Output.Ok result) Sends.Restart
            ≡ turns false (Output.RetryStopped self) waiting }
    {
        let oldest = self.outstanding.oldest();
        OutOk {
            outstanding: self.outstanding.restarted(oldest),
        }
    }

    /// A packet-not-accepted.
    pub fn not_accepted(self) -> OutErrorStopped
        ensures { (ack : ℕ) → error_stopped result
            ≡ (hears PacketNotAccepted (Output.RetryStopped self) ack).state }
    {
        OutErrorStopped {
            outstanding: self.outstanding,
            asked: false,
        }
    }

    /// A packet-accepted or packet-retry, which is unexpected here.
    pub fn unexpected(self) -> OutErrorStopped
        ensures accepted { (ack : ℕ) → error_stopped result
            ≡ (hears PacketAccepted (Output.RetryStopped self) ack).state }
        ensures retry { (ack : ℕ) → error_stopped result
            ≡ (hears PacketRetry (Output.RetryStopped self) ack).state }
    {
        self.not_accepted()
    }

    /// Returns the number of outstanding packets.
    pub fn outstanding(&self) -> u8
        ensures value { result ≡ length self.now.prios }
        ensures bounds { IsOutstanding self.now }
    {
        self.outstanding.len()
    }
}
