//! `OutOk`: packets may start.
ghost use Rattle.std.specs.Prelude.{◌≡◌, ℕ, [], Some, None, length, take, IfSome, is_some, ◌<◌, false};
ghost use Rattle.std.specs.Option.{option_map};
ghost use Rattle.link_buffers.specs.Queues.{list_at};
ghost use Rattle.link_buffers.specs.Priorities.{packets_of, lists_without, count_of, highest, Covers};
ghost use Rattle.link_model.specs.Prelude.{hears, times_out, turns, Output, IsOutstanding, from_ack, window};
ghost use Rattle.link_model.specs.Output.{Heard, startable};
ghost use Rattle.link_model.specs.Outstanding.{with_report};
ghost use Rattle.link_model.specs.Reports.{report_of};
ghost use Rattle.link_model.specs.Output.Stype0.{PacketAccepted, PacketRetry, PacketNotAccepted};
ghost use Rattle.link_sender.specs.Answers.{after_accepted, after_retry, sender_after_turn, error_stopped};

use crate::answers::{AfterAccepted, AfterRetry, Started};
use crate::freed::free_all;
use crate::out_error_stopped::OutErrorStopped;
use crate::out_retry_stopped::OutRetryStopped;
use crate::outstanding::Outstanding;
use arrayvec::ArrayVec;
use link_buffers::{OutStore, Waiting};
use link_model::{Report, WINDOW};
use rio_packets::Packet;
use std::marker::Model;

/// A sender that may start packets. Contracts see its outstanding packets.
#[derive(Debug, Drop)]
pub struct OutOk {
    pub(crate) outstanding: Outstanding,
}

impl Model for OutOk {
    ghost use Rattle.link_model.specs.Outstanding.{Outstanding};

    ghost Value = { Outstanding };

    ghost view = { λ s. s.outstanding };
}

impl OutOk {
    /// The state of a new port: nothing is outstanding, the next ackID is 0, and the far port has
    /// told nothing.
    pub fn new() -> OutOk
        ensures { result ≡ from_ack 0 None }
    {
        OutOk {
            outstanding: Outstanding::from_ack(0, None),
        }
    }

    /// Keeps what the far port told: a buffer status, 0 to 31, and the ackID that it expects, 0 to
    /// 31. A buffer status of 31 tells nothing, and the state keeps no report then.
    pub fn report(self, base: u8, free: u8) -> OutOk
        requires base { base < 32 }
        requires free { free < 32 }
        ensures { result ≡ with_report (report_of base free) self }
    {
        let OutOk { mut outstanding } = self;
        outstanding.keep(Report::new(base, free));
        OutOk { outstanding }
    }

    /// Returns whether a turn starts a packet.
    pub fn ready(&self, store: &OutStore) -> bool
        ensures { result
            ≡ is_some (startable self.now (highest (lists_without self.now.prios store.now))) }
    {
        self.next(store).is_some()
    }

    /// The place of the packet that a turn starts.
    fn next(&self, store: &OutStore) -> Option<Waiting>
        ensures prio { option_map (λ first. first.prio) result
            ≡ startable self.now (highest (lists_without self.now.prios store.now)) }
        ensures few { IfSome result (λ first. length self.now.prios < window) }
        ensures waiting { IfSome result (λ first. Some first.prio
            ≡ highest (lists_without self.now.prios store.now)) }
        ensures place { IfSome result (λ first. first.place ≡ count_of self.now.prios first.prio) }
        ensures waits { IfSome result
            (λ first. first.place < length (list_at store.now first.prio)) }
        ensures range { IfSome result (λ first. first.prio < 4) }
    {
        if self.outstanding.len() >= WINDOW {
            return None;
        }
        let next = store.first_behind(self.outstanding.prios())?;
        if !self.outstanding.has_credit(next.prio) {
            return None;
        }
        Some(next)
    }

    /// Starts the first packet of the highest priority that has one which is not outstanding (this
    /// project's profile), if fewer than `WINDOW` are outstanding and the far port has told of room
    /// for it or does not tell. It takes the next ackID.
    pub fn turn(self, store: &OutStore) -> (OutOk, Option<Started>)
        requires { Covers self.prios store.now }
        ensures entry { sender_after_turn result.0 result.1
            ≡ turns false (Output.Ok self) (highest (lists_without self.prios store.now)) }
        ensures place { IfSome result.1 (λ packet. packet.place ≡ count_of self.prios packet.prio) }
        ensures waits { IfSome result.1
            (λ packet. packet.place < length (list_at store.now packet.prio)) }
        ensures range { IfSome result.1 (λ packet. (packet.ack < 32) × (packet.prio < 4)) }
        ensures covered { Covers result.0.prios store.now }
    {
        let Some(next) = self.next(store) else {
            return (self, None);
        };
        let OutOk { mut outstanding } = self;
        let ack = outstanding.next_ack();
        outstanding.push(next.prio);
        let started = Started {
            ack,
            prio: next.prio,
            place: next.place,
        };
        (OutOk { outstanding }, Some(started))
    }

    /// A packet-accepted with this ackID. Where it is that of the oldest outstanding packet, this
    /// packet leaves the store into `freed`. Else it is an error, and both are unchanged.
    pub fn accepted(
        self,
        ack: u8,
        store: &mut OutStore,
        freed: &mut ArrayVec<Packet, 31>,
    ) -> AfterAccepted
        requires covered { Covers self.prios store.old }
        requires empty { freed.old.items ≡ [] }
        ensures entry { after_accepted result ≡ (hears PacketAccepted (Output.Ok self) ack).state }
        ensures store { store.new
            ≡ lists_without (take (hears PacketAccepted (Output.Ok self) ack).freed self.prios)
            store.old }
        ensures freed { freed.new.items
            ≡ packets_of (take (hears PacketAccepted (Output.Ok self) ack).freed self.prios)
            store.old }
    {
        let OutOk { mut outstanding } = self;
        if !outstanding.is_oldest(ack) {
            return AfterAccepted::Stopped(OutErrorStopped {
                outstanding,
                asked: false,
            });
        }
        let (oldest, _) = outstanding.prios().split_at(1);
        free_all(oldest, store, freed);
        outstanding.acknowledge();
        AfterAccepted::Ok(OutOk { outstanding })
    }

    /// A packet-retry with this ackID: it is an error unless it is that of the oldest outstanding
    /// packet.
    pub fn retry(self, ack: u8) -> AfterRetry
        ensures entry { after_retry result ≡ (hears PacketRetry (Output.Ok self) ack).state }
    {
        let OutOk { outstanding } = self;
        if outstanding.is_oldest(ack) {
            AfterRetry::Retry(OutRetryStopped { outstanding })
        } else {
            AfterRetry::Stopped(OutErrorStopped {
                outstanding,
                asked: false,
            })
        }
    }

    /// A packet-not-accepted.
    pub fn not_accepted(self) -> OutErrorStopped
        ensures { (ack : ℕ) → error_stopped result
            ≡ (hears PacketNotAccepted (Output.Ok self) ack).state }
    {
        OutErrorStopped {
            outstanding: self.outstanding,
            asked: false,
        }
    }

    /// A time-out, which is an error also where nothing is outstanding (this project's profile).
    pub fn time_out(self) -> OutErrorStopped
        ensures { error_stopped result ≡ times_out (Output.Ok self) }
    {
        self.not_accepted()
    }

    /// Returns the number of outstanding packets.
    pub fn outstanding(&self) -> u8
        ensures value { result ≡ length self.now.prios }
        ensures bounds { IsOutstanding self.now }
    {
        self.outstanding.len()
    }
}
