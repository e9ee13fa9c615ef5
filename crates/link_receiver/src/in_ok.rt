//! `InOk`: packets are taken.
ghost use Rattle.std.specs.Prelude.{◌≡◌, ◌<◌, ◌==◌};
ghost use Rattle.link_model.specs.Prelude.{number_of, Received, receives, Damaged};
ghost use Rattle.link_buffers.specs.Queues.{stored};
ghost use Rattle.link_model.specs.Input.{replied, InputOk, InputErrorStopped};
ghost use Rattle.link_model.specs.Input.Arrival.{RestartFromRetry, LinkRequest};
ghost use Rattle.link_receiver.specs.Answers.{after_packet};
ghost use Rattle.link_receiver.specs.Status.{comes_to};

use crate::in_error_stopped::InErrorStopped;
use crate::in_retry_stopped::InRetryStopped;
use crate::status::buffer_status;
use link_buffers::InStore;
use link_model::{PortStatus, link_response, packet_accepted, packet_not_accepted, packet_retry};
use rio_packets::{Cause, Packet};
use rio_symbols::Symbol;
use std::marker::Model;

/// A receiver that takes packets. Contracts see the next expected ackID.
#[derive(Debug, Drop)]
pub struct InOk {
    pub(crate) expected: u8,
}

impl Model for InOk {
    ghost use Rattle.std.specs.Prelude.{ℕ, ◌<◌};

    ghost Value = { ℕ };

    ghost view = { λ s. s.expected };

    ghost invariant = { λ s. s.expected < 32 };
}

/// The state after a packet, and the symbol to send.
#[derive(Debug, Drop)]
pub enum AfterPacket {
    /// It was put into the store.
    Accepted(InOk, Symbol),
    /// Its priority has no room.
    Retry(InRetryStopped, Symbol),
    /// It has another ackID than the expected one.
    NotAccepted(InErrorStopped, Symbol),
}

impl InOk {
    /// The state of a new port: ackID 0 is expected.
    pub fn new() -> InOk
        ensures { result ≡ 0 }
    {
        InOk { expected: 0 }
    }

    /// Returns the next expected ackID.
    pub fn expected(&self) -> u8
        ensures value { result ≡ self.now }
        ensures range { result < 32 }
    {
        self.expected
    }

    /// Returns whether this ackID is the expected one.
    pub fn expects(&self, ack: u8) -> bool
        ensures { result ≡ (ack == self.now) }
    {
        ack == self.expected
    }

    /// A good packet with this ackID. With another ackID than the expected one it is an error of
    /// cause 1; where its priority has no room it has to be sent again; else it is put into the
    /// store. In the first two cases the store is unchanged. The symbol tells the number of buffers
    /// that are free then, if the port `tells` it.
    pub fn packet(self, ack: u8, packet: &Packet, store: &mut InStore, tells: bool) -> AfterPacket
        ensures entry { after_packet result
            ≡ receives (comes_to tells store.old self ack packet.now) (InputOk self) }
        ensures store { store.new
            ≡ stored (receives (comes_to tells store.old self ack packet.now) (InputOk self)).held
            store.old packet.now }
    {
        let known = self.expects(ack);
        let InOk { expected } = self;
        if !known {
            let symbol = packet_not_accepted(expected, Cause::UnexpectedAck);
            return AfterPacket::NotAccepted(InErrorStopped { expected }, symbol);
        }
        if !store.has_room(packet.prio()) {
            let symbol = packet_retry(expected, buffer_status(tells, store));
            return AfterPacket::Retry(InRetryStopped { expected }, symbol);
        }
        store.put(packet.copy());
        let next = InOk {
            expected: (expected + 1) % 32,
        };
        AfterPacket::Accepted(next, packet_accepted(expected, buffer_status(tells, store)))
    }

    /// What came is no packet or symbol.
    pub fn bad(self, cause: Cause) -> (InErrorStopped, Symbol)
        ensures { replied (InputErrorStopped result.0) result.1
            ≡ receives (Damaged (number_of cause)) (InputOk self) }
    {
        let InOk { expected } = self;
        (
            InErrorStopped { expected },
            packet_not_accepted(expected, cause),
        )
    }

    /// A restart-from-retry, which is an error here, of cause 31.
    pub fn restart(self) -> (InErrorStopped, Symbol)
        ensures { replied (InputErrorStopped result.0) result.1
            ≡ receives RestartFromRetry (InputOk self) }
    {
        self.bad(Cause::General)
    }

    /// A link-request input-status.
    pub fn request(self) -> (InOk, Symbol)
        ensures { replied (InputOk result.0) result.1 ≡ receives LinkRequest (InputOk self) }
    {
        let symbol = link_response(self.expected, PortStatus::Ok);
        (self, symbol)
    }
}
