//! `Input`: the input half of a port, in any of its states.
ghost use Rattle.std.specs.Prelude.{◌≡◌, ◌<◌, false};
ghost use Rattle.link_model.specs.Prelude.{number_of, symbol_arrival, receives, Damaged};
ghost use Rattle.link_buffers.specs.Queues.{stored};
ghost use Rattle.link_receiver.specs.Status.{comes_to};
ghost use Rattle.link_model.specs.Input.{replied, silent};
ghost use Rattle.link_model.specs.Input as in_half;
ghost use Rattle.link_model.specs.Input.Arrival.{RestartFromRetry, LinkRequest};
ghost use Rattle.link_receiver.specs.Answers.{after_packet};
ghost use Rattle.link_port.specs.States.{expected_of, expects};
ghost use Rattle.link_port.specs.Halves.{input_of, in_kind_of};
ghost use Rattle.link_port.specs.Sends.{received};

use crate::kinds::InKind;
use link_buffers::InStore;
use link_receiver::{AfterPacket, InErrorStopped, InOk, InRetryStopped};
use rio_packets::{Cause, Packet};
use rio_symbols::{Symbol, cmd, stype1};

/// The input half. The head of `link_receiver` draws how one state leads to another.
#[derive(Drop)]
pub(crate) enum Input {
    Ok(InOk),
    RetryStopped(InRetryStopped),
    ErrorStopped(InErrorStopped),
}

/// What a packet does: the next state, the symbol to send, and whether the packet was put into the
/// store.
#[derive(Drop)]
pub(crate) struct Arrived {
    pub(crate) input: Input,
    pub(crate) reply: Option<Symbol>,
    pub(crate) held: bool,
}

impl Input {
    /// A good packet with this ackID, to a port that `tells` its free buffers or does not. It is
    /// dropped unless packets are taken.
    pub(crate) fn packet(
        self,
        ack: u8,
        packet: &Packet,
        store: &mut InStore,
        tells: bool,
    ) -> Arrived
        ensures entry { received (input_of result.input) result.reply result.held
            ≡ receives (comes_to tells store.old (expected_of (input_of self)) ack packet.now)
            (input_of self) }
        ensures store { store.new ≡ stored result.held store.old packet.now }
    {
        match self {
            Input::Ok(state) => taken(state.packet(ack, packet, store, tells)),
            Input::RetryStopped(state) => dropped(Input::RetryStopped(state)),
            Input::ErrorStopped(state) => dropped(Input::ErrorStopped(state)),
        }
    }

    /// What came is no packet or symbol.
    pub(crate) fn bad(self, cause: Cause) -> (Input, Option<Symbol>)
        ensures { received (input_of result.0) result.1 false
            ≡ receives (Damaged (number_of cause)) (input_of self) }
    {
        match self {
            Input::Ok(state) => stopped(state.bad(cause)),
            Input::RetryStopped(state) => stopped(state.bad(cause)),
            Input::ErrorStopped(state) => (Input::ErrorStopped(state), None),
        }
    }

    /// A symbol with this stype1 and cmd. A link-request with another cmd than input-status is
    /// ignored (this project's profile).
    pub(crate) fn obey(self, s1: u8, cmd: u8) -> (Input, Option<Symbol>)
        ensures { received (input_of result.0) result.1 false
            ≡ receives (symbol_arrival s1 cmd) (input_of self) }
    {
        match (s1, cmd) {
            (stype1::RESTART_FROM_RETRY, _) => self.restart(),
            (stype1::LINK_REQUEST, cmd::INPUT_STATUS) => self.request(),
            _ => (self, None),
        }
    }

    /// A restart-from-retry.
    fn restart(self) -> (Input, Option<Symbol>)
        ensures { received (input_of result.0) result.1 false
            ≡ receives RestartFromRetry (input_of self) }
    {
        match self {
            Input::Ok(state) => stopped(state.restart()),
            Input::RetryStopped(state) => (Input::Ok(state.restart()), None),
            Input::ErrorStopped(state) => (Input::ErrorStopped(state), None),
        }
    }

    /// A link-request input-status.
    fn request(self) -> (Input, Option<Symbol>)
        ensures { received (input_of result.0) result.1 false
            ≡ receives LinkRequest (input_of self) }
    {
        let (state, symbol) = match self {
            Input::Ok(state) => state.request(),
            Input::RetryStopped(state) => state.request(),
            Input::ErrorStopped(state) => state.request(),
        };
        (Input::Ok(state), Some(symbol))
    }

    /// Returns the name of the state.
    pub(crate) fn kind(&self) -> InKind
        ensures { result ≡ in_kind_of (input_of self.now) }
    {
        match self {
            Input::Ok(_) => InKind::Ok,
            Input::RetryStopped(_) => InKind::RetryStopped,
            Input::ErrorStopped(_) => InKind::ErrorStopped,
        }
    }

    /// Returns the next expected ackID.
    pub(crate) fn expected(&self) -> u8
        ensures value { result ≡ expected_of (input_of self.now) }
        ensures range { result < 32 }
    {
        match self {
            Input::Ok(state) => state.expected(),
            Input::RetryStopped(state) => state.expected(),
            Input::ErrorStopped(state) => state.expected(),
        }
    }

    /// Returns whether packets are taken, and this ackID is the expected one.
    pub(crate) fn expects(&self, ack: u8) -> bool
        ensures { result ≡ expects (input_of self.now) ack }
    {
        match self {
            Input::Ok(state) => state.expects(ack),
            Input::RetryStopped(_) | Input::ErrorStopped(_) => false,
        }
    }
}

/// What a packet did that met a receiver which takes packets.
fn taken(after: AfterPacket) -> Arrived
    ensures { received (input_of result.input) result.reply result.held ≡ after_packet after }
{
    match after {
        AfterPacket::Accepted(next, symbol) => Arrived {
            input: Input::Ok(next),
            reply: Some(symbol),
            held: true,
        },
        AfterPacket::Retry(next, symbol) => Arrived {
            input: Input::RetryStopped(next),
            reply: Some(symbol),
            held: false,
        },
        AfterPacket::NotAccepted(next, symbol) => Arrived {
            input: Input::ErrorStopped(next),
            reply: Some(symbol),
            held: false,
        },
    }
}

/// A packet that is dropped does nothing.
fn dropped(input: Input) -> Arrived
    ensures { received (input_of result.input) result.reply result.held ≡ silent (input_of input) }
{
    Arrived {
        input,
        reply: None,
        held: false,
    }
}

/// The receiver has stopped, and tells it by a symbol.
fn stopped(after: (InErrorStopped, Symbol)) -> (Input, Option<Symbol>)
    ensures { received (input_of result.0) result.1 false
        ≡ replied (in_half.InputErrorStopped after.0) after.1 }
{
    (Input::ErrorStopped(after.0), Some(after.1))
}
