//! `Output`: the output half of a port, in any of its states.
ghost use Rattle.std.specs.Prelude.{◌≡◌, ◌<◌, [], Bool, length, take};
ghost use Rattle.link_buffers.specs.Priorities.{packets_of, lists_without, highest, Covers};
ghost use Rattle.link_model.specs.Output.{hears, hears_report, starts, stype0, times_out, turned, turns};
ghost use Rattle.link_model.specs.Output.Stype0.{PacketAccepted, PacketRetry, PacketNotAccepted, LinkResponse};
ghost use Rattle.link_port.specs.States.{prios_of, has_asked, IsOutput};
ghost use Rattle.link_port.specs.Halves.{output_of, out_kind_of};
ghost use Rattle.link_port.specs.Sends.{sends_of, starting, AreWaiting};

use crate::kinds::OutKind;
use arrayvec::ArrayVec;
use link_buffers::OutStore;
use link_model::{has_buffer_status, report_base};
use link_sender::{
    AfterAccepted, AfterResponse, AfterRetry, OutErrorStopped, OutFailed, OutOk, OutRetryStopped,
    Started,
};
use rio_packets::Packet;
use rio_symbols::{Symbol, stype0};

/// The output half. The head of `link_sender` draws how one state leads to another.
#[derive(Drop)]
pub(crate) enum Output {
    Ok(OutOk),
    RetryStopped(OutRetryStopped),
    ErrorStopped(OutErrorStopped),
    Failed(OutFailed),
}

/// What a turn sends.
#[derive(Clone, Copy)]
pub(crate) enum Sends {
    Packet(Started),
    Restart,
    Request,
    Status,
    Nothing,
}

impl Sends {
    /// What is sent where this packet starts, if any, by a port that `tells` its free buffers or
    /// does not.
    fn starting(started: Option<Started>, tells: bool) -> Sends
        ensures { result ≡ starting tells started }
    {
        match started {
            Some(started) => Sends::Packet(started),
            None if tells => Sends::Status,
            None => Sends::Nothing,
        }
    }
}

impl Output {
    /// What the far port told by a symbol with this stype0, this ackID and this buffer status.
    pub(crate) fn hear_report(self, symbol: Symbol) -> Output
        ensures { output_of result ≡ hears_report symbol (output_of self) }
    {
        let Symbol { s0, p0, p1, .. } = symbol;
        if !has_buffer_status(s0) {
            return self;
        }
        let base = report_base(s0, p0);
        match self {
            Output::Ok(state) => Output::Ok(state.report(base, p1)),
            Output::RetryStopped(state) => Output::RetryStopped(state.report(base, p1)),
            Output::ErrorStopped(state) => Output::ErrorStopped(state.report(base, p1)),
            Output::Failed(state) => Output::Failed(state),
        }
    }

    /// Returns whether a turn starts a packet.
    pub(crate) fn ready(&self, queued: &OutStore) -> bool
        ensures { (tells : Bool) → result
            ≡ starts (turns tells (output_of self.now)
            (highest (lists_without (prios_of (output_of self.now)) queued.now))).sends }
    {
        match self {
            Output::Ok(state) => state.ready(queued),
            Output::RetryStopped(_) | Output::ErrorStopped(_) | Output::Failed(_) => false,
        }
    }

    /// A symbol with this stype0 and this ackID. The packets that it acknowledges leave the store
    /// into `freed`.
    pub(crate) fn hear(
        self,
        s0: u8,
        ack: u8,
        queued: &mut OutStore,
        freed: &mut ArrayVec<Packet, 31>,
    ) -> Output
        requires ack { ack < 32 }
        requires covered { Covers (prios_of (output_of self)) queued.old }
        requires empty { freed.old.items ≡ [] }
        ensures state { output_of result ≡ (hears (stype0 s0) (output_of self) ack).state }
        ensures queued { queued.new
            ≡ lists_without
            (take (hears (stype0 s0) (output_of self) ack).freed (prios_of (output_of self)))
            queued.old }
        ensures freed { freed.new.items
            ≡ packets_of
            (take (hears (stype0 s0) (output_of self) ack).freed (prios_of (output_of self)))
            queued.old }
    {
        match s0 {
            stype0::PACKET_ACCEPTED => self.accepted(ack, queued, freed),
            stype0::PACKET_RETRY => self.retry(ack),
            stype0::PACKET_NOT_ACCEPTED => self.not_accepted(),
            stype0::LINK_RESPONSE => self.response(ack, queued, freed),
            _ => self,
        }
    }

    /// A packet-accepted.
    fn accepted(self, ack: u8, queued: &mut OutStore, freed: &mut ArrayVec<Packet, 31>) -> Output
        requires covered { Covers (prios_of (output_of self)) queued.old }
        requires empty { freed.old.items ≡ [] }
        ensures state { output_of result ≡ (hears PacketAccepted (output_of self) ack).state }
        ensures queued { queued.new
            ≡ lists_without
            (take (hears PacketAccepted (output_of self) ack).freed (prios_of (output_of self)))
            queued.old }
        ensures freed { freed.new.items
            ≡ packets_of
            (take (hears PacketAccepted (output_of self) ack).freed (prios_of (output_of self)))
            queued.old }
    {
        match self {
            Output::Ok(state) => match state.accepted(ack, queued, freed) {
                AfterAccepted::Ok(next) => Output::Ok(next),
                AfterAccepted::Stopped(next) => Output::ErrorStopped(next),
            },
            Output::RetryStopped(state) => Output::ErrorStopped(state.unexpected()),
            Output::ErrorStopped(state) => Output::ErrorStopped(state),
            Output::Failed(state) => Output::Failed(state),
        }
    }

    /// A packet-retry.
    fn retry(self, ack: u8) -> Output
        ensures { output_of result ≡ (hears PacketRetry (output_of self) ack).state }
    {
        match self {
            Output::Ok(state) => match state.retry(ack) {
                AfterRetry::Retry(next) => Output::RetryStopped(next),
                AfterRetry::Stopped(next) => Output::ErrorStopped(next),
            },
            Output::RetryStopped(state) => Output::ErrorStopped(state.unexpected()),
            Output::ErrorStopped(state) => Output::ErrorStopped(state),
            Output::Failed(state) => Output::Failed(state),
        }
    }

    /// A packet-not-accepted, whose cause is not looked at (this project's profile).
    fn not_accepted(self) -> Output
        ensures { output_of result ≡ (hears PacketNotAccepted (output_of self) 0).state }
    {
        match self {
            Output::Ok(state) => Output::ErrorStopped(state.not_accepted()),
            Output::RetryStopped(state) => Output::ErrorStopped(state.not_accepted()),
            Output::ErrorStopped(state) => Output::ErrorStopped(state),
            Output::Failed(state) => Output::Failed(state),
        }
    }

    /// A link-response.
    fn response(self, ack: u8, queued: &mut OutStore, freed: &mut ArrayVec<Packet, 31>) -> Output
        requires ack { ack < 32 }
        requires covered { Covers (prios_of (output_of self)) queued.old }
        requires empty { freed.old.items ≡ [] }
        ensures state { output_of result ≡ (hears LinkResponse (output_of self) ack).state }
        ensures queued { queued.new
            ≡ lists_without
            (take (hears LinkResponse (output_of self) ack).freed (prios_of (output_of self)))
            queued.old }
        ensures freed { freed.new.items
            ≡ packets_of
            (take (hears LinkResponse (output_of self) ack).freed (prios_of (output_of self)))
            queued.old }
    {
        match self {
            Output::ErrorStopped(state) => match state.response(ack, queued, freed) {
                AfterResponse::Ok(next) => Output::Ok(next),
                AfterResponse::Failed(next) => Output::Failed(next),
                AfterResponse::Ignored(next) => Output::ErrorStopped(next),
            },
            Output::Ok(state) => Output::Ok(state),
            Output::RetryStopped(state) => Output::RetryStopped(state),
            Output::Failed(state) => Output::Failed(state),
        }
    }

    /// A turn of a port that `tells` its free buffers or does not: what is sent, and the next
    /// state.
    pub(crate) fn turn(self, queued: &OutStore, tells: bool) -> (Output, Sends)
        requires covered { Covers (prios_of (output_of self)) queued.now }
        ensures entry { turned (output_of result.0) (sends_of result.1)
            ≡ turns tells (output_of self)
            (highest (lists_without (prios_of (output_of self)) queued.now)) }
        ensures waiting { AreWaiting result.1 (prios_of (output_of self)) queued.now }
        ensures covered { Covers (prios_of (output_of result.0)) queued.now }
    {
        match self {
            Output::Ok(state) => {
                let (next, started) = state.turn(queued);
                (Output::Ok(next), Sends::starting(started, tells))
            }
            Output::RetryStopped(state) => (Output::Ok(state.restart()), Sends::Restart),
            Output::ErrorStopped(state) => {
                if state.asked() {
                    (Output::ErrorStopped(state), Sends::Nothing)
                } else {
                    (Output::ErrorStopped(state.request()), Sends::Request)
                }
            }
            Output::Failed(state) => (Output::Failed(state), Sends::Nothing),
        }
    }

    /// A time-out.
    pub(crate) fn time_out(self) -> Output
        ensures { output_of result ≡ times_out (output_of self) }
    {
        match self {
            Output::Ok(state) => Output::ErrorStopped(state.time_out()),
            Output::RetryStopped(stopped) => Output::RetryStopped(stopped),
            Output::ErrorStopped(state) => Output::ErrorStopped(state.time_out()),
            Output::Failed(state) => Output::Failed(state),
        }
    }

    /// Returns the name of the state.
    pub(crate) fn kind(&self) -> OutKind
        ensures { result ≡ out_kind_of (output_of self.now) }
    {
        match self {
            Output::Ok(_) => OutKind::Ok,
            Output::RetryStopped(_) => OutKind::RetryStopped,
            Output::ErrorStopped(_) => OutKind::ErrorStopped,
            Output::Failed(_) => OutKind::Failed,
        }
    }

    /// Returns the number of outstanding packets.
    pub(crate) fn outstanding(&self) -> u8
        ensures value { result ≡ length (prios_of (output_of self.now)) }
        ensures bounds { IsOutput (output_of self.now) }
    {
        match self {
            Output::Ok(state) => state.outstanding(),
            Output::RetryStopped(state) => state.outstanding(),
            Output::ErrorStopped(state) => state.outstanding(),
            Output::Failed(_) => 0,
        }
    }

    /// Returns whether a link-request was sent since the error or the last time-out.
    pub(crate) fn asked(&self) -> bool
        ensures { result ≡ has_asked (output_of self.now) }
    {
        match self {
            Output::ErrorStopped(state) => state.asked(),
            Output::Ok(_) | Output::RetryStopped(_) | Output::Failed(_) => false,
        }
    }
}
