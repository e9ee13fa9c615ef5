//! The outstanding packets: their priorities in the order of their ackIDs, the oldest ackID, and
//! the last report of the far port.
ghost use Rattle.std.specs.Prelude.{◌≡◌, ◌<◌, [], length, slice_index, take, IfSome};
ghost use Rattle.link_model.specs.Outstanding.{IsOutstanding, next_ack, distance, is_oldest, without_oldest, with_next, with_report, from_ack};
ghost use Rattle.link_model.specs.Reports.{IsReport, has_credit};
ghost use Rattle.link_model.specs.Window.{window};

use arrayvec::ArrayVec;
use link_model::{Report, has_credit};
use std::marker::Model;

/// What a sender knows of the packets that it sent and that are not acknowledged, and of the free
/// buffers of the far port.
#[derive(Debug, Drop)]
pub(crate) struct Outstanding {
    oldest: u8,
    prios: ArrayVec<u8, 31>,
    report: Option<Report>,
}

impl Model for Outstanding {
    ghost use Rattle.link_model.specs.Outstanding.{Outstanding, IsOutstanding};

    ghost Value = { Outstanding };

    ghost view = { λ s. record { oldest = s.oldest; prios = s.prios.items; report = s.report } };

    ghost invariant = { λ s. IsOutstanding
        (record { oldest = s.oldest; prios = s.prios.items; report = s.report }) };
}

impl Outstanding {
    /// Nothing is outstanding, `ack` is the next ackID, and this is the last report.
    pub(crate) fn from_ack(ack: u8, report: Option<Report>) -> Outstanding
        requires ack { ack < 32 }
        requires report { IfSome report IsReport }
        ensures { result ≡ from_ack ack report }
    {
        Outstanding {
            oldest: ack,
            prios: ArrayVec::new(),
            report,
        }
    }

    /// Nothing is outstanding, and `ack` is the next ackID.
    pub(crate) fn restarted(self, ack: u8) -> Outstanding
        requires { ack < 32 }
        ensures { result ≡ from_ack ack self.report }
    {
        Outstanding::from_ack(ack, self.report)
    }

    /// Keeps this report as the last one.
    pub(crate) fn keep(&mut self, report: Option<Report>)
        requires { IfSome report IsReport }
        ensures { self.new ≡ with_report report self.old }
    {
        self.report = report;
    }

    /// Returns whether the next packet may start, if it has this priority: the far port told of
    /// room for it, or does not tell.
    pub(crate) fn has_credit(&self, prio: u8) -> bool
        requires { prio < 4 }
        ensures { result ≡ has_credit self.now.report (next_ack self.now) prio }
    {
        has_credit(self.report, self.next_ack(), prio)
    }

    /// Returns the ackID of the oldest packet, or the next one where nothing is outstanding.
    pub(crate) fn oldest(&self) -> u8
        ensures value { result ≡ self.now.oldest }
        ensures bounds { IsOutstanding self.now }
    {
        self.oldest
    }

    /// Returns the priorities of the outstanding packets in the order of their ackIDs.
    pub(crate) fn prios(&self) -> &[u8]
        ensures value { result.now ≡ self.now.prios }
        ensures bounds { IsOutstanding self.now }
    {
        self.prios.as_slice()
    }

    /// Returns the number of outstanding packets.
    pub(crate) fn len(&self) -> u8
        ensures value { result ≡ length self.now.prios }
        ensures bounds { IsOutstanding self.now }
    {
        self.prios.len() as u8
    }

    /// Returns the ackID of the next packet.
    pub(crate) fn next_ack(&self) -> u8
        ensures { result ≡ next_ack self.now }
    {
        (self.oldest + self.prios.len() as u8) % 32
    }

    /// Returns whether `ack` is the ackID of the oldest outstanding packet.
    pub(crate) fn is_oldest(&self, ack: u8) -> bool
        ensures { result ≡ is_oldest self.now ack }
    {
        !self.prios.is_empty() && ack == self.oldest
    }

    /// The oldest packet is acknowledged.
    pub(crate) fn acknowledge(&mut self)
        requires { 0 < length self.old.prios }
        ensures { self.new ≡ without_oldest self.old }
    {
        self.prios.remove(0);
        self.oldest = (self.oldest + 1) % 32;
    }

    /// One more packet is outstanding.
    #[tactic(auto, unfolding(link_model::specs::Window::window))]
    pub(crate) fn push(&mut self, prio: u8)
        requires few { length self.old.prios < window }
        requires prio { prio < 4 }
        ensures { self.new ≡ with_next self.old prio }
    {
        self.prios.push(prio);
    }
}
