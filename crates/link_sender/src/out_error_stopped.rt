//! `OutErrorStopped`: the sender has to ask which packet the far port expects.
ghost use Rattle.std.specs.Prelude.{◌≡◌, ℕ, ◌<◌, [], false, length, take, Option};
ghost use Rattle.link_buffers.specs.Priorities.{packets_of, lists_without, Covers};
ghost use Rattle.link_model.specs.Prelude.{hears, times_out, turns, Output, Sends, IsOutstanding};
ghost use Rattle.link_model.specs.Output.{turned, reported};
ghost use Rattle.link_model.specs.Reports.{report_of};
ghost use Rattle.link_model.specs.Output.Stype0.{LinkResponse};
ghost use Rattle.link_sender.specs.Answers.{after_response, error_stopped};

use crate::answers::{AfterResponse, OutFailed};
use crate::freed::free_all;
use crate::out_ok::OutOk;
use crate::outstanding::Outstanding;
use arrayvec::ArrayVec;
use link_buffers::OutStore;
use link_model::Report;
use rio_packets::Packet;
use std::marker::Model;

/// A sender that met an error. It keeps the outstanding packets until it learns which of them were
/// accepted.
#[derive(Debug, Drop)]
pub struct OutErrorStopped {
    pub(crate) outstanding: Outstanding,
    pub(crate) asked: bool,
}

impl Model for OutErrorStopped {
    ghost use Rattle.link_sender.specs.OutErrorStopped.{StoppedOutput};

    ghost Value = { StoppedOutput };

    ghost view = { λ s. record { asked = s.asked; outstanding = s.outstanding } };
}

impl OutErrorStopped {
    /// Keeps what the far port told, as [`OutOk::report`].
    pub fn report(self, base: u8, free: u8) -> OutErrorStopped
        requires base { base < 32 }
        requires free { free < 32 }
        ensures { error_stopped result ≡ reported (report_of base free) (error_stopped self) }
    {
        let OutErrorStopped {
            mut outstanding,
            asked,
        } = self;
        outstanding.keep(Report::new(base, free));
        OutErrorStopped { outstanding, asked }
    }

    /// A turn of a sender that has not asked, which sends a link-request. One that has asked is
    /// unchanged.
    pub fn request(self) -> OutErrorStopped
        ensures { (waiting : Option ℕ)
            → turned (error_stopped result) Sends.Request
            ≡ turns false (Output.ErrorStopped false self.outstanding) waiting }
    {
        OutErrorStopped {
            outstanding: self.outstanding,
            asked: true,
        }
    }

    /// Returns whether a link-request was sent since the error or the last time-out.
    pub fn asked(&self) -> bool
        ensures value { result ≡ self.now.asked }
        ensures bounds { IsOutstanding self.now.outstanding }
    {
        let _ = self.outstanding.oldest();
        self.asked
    }

    /// Returns the number of outstanding packets.
    pub fn outstanding(&self) -> u8
        ensures value { result ≡ length self.now.outstanding.prios }
        ensures bounds { IsOutstanding self.now.outstanding }
    {
        self.outstanding.len()
    }

    /// A time-out: the link-request has to be sent again.
    pub fn time_out(self) -> OutErrorStopped
        ensures { error_stopped result ≡ times_out (error_stopped self) }
    {
        OutErrorStopped {
            outstanding: self.outstanding,
            asked: false,
        }
    }

    /// A link-response, whose ackID is the next that the far port expects. Where no link-request
    /// was sent it is ignored. Where the outstanding packets before that ackID are no more than all
    /// of them, these leave the store into `freed` in order, nothing is outstanding, and that ackID
    /// is the next one. Else the sender has failed.
    pub fn response(
        self,
        ack: u8,
        store: &mut OutStore,
        freed: &mut ArrayVec<Packet, 31>,
    ) -> AfterResponse
        requires ack { ack < 32 }
        requires covered { Covers self.outstanding.prios store.old }
        requires empty { freed.old.items ≡ [] }
        ensures entry { after_response result
            ≡ (hears LinkResponse (error_stopped self) ack).state }
        ensures store { store.new
            ≡ lists_without
            (take (hears LinkResponse (error_stopped self) ack).freed self.outstanding.prios)
            store.old }
        ensures freed { freed.new.items
            ≡ packets_of
            (take (hears LinkResponse (error_stopped self) ack).freed self.outstanding.prios)
            store.old }
    {
        if !self.asked {
            return AfterResponse::Ignored(self);
        }
        let count = (ack + 32 - self.outstanding.oldest()) % 32;
        if count > self.outstanding.len() {
            return AfterResponse::Failed(OutFailed);
        }
        let (accepted, _) = self.outstanding.prios().split_at(usize::from(count));
        free_all(accepted, store, freed);
        AfterResponse::Ok(OutOk {
            outstanding: self.outstanding.restarted(ack),
        })
    }
}
