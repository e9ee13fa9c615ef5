//! `Sending`: what a port sends, in a few bytes.
ghost use Rattle.std.specs.Prelude.{◌≡◌};
ghost use Rattle.link_port.specs.Bursts.{sending_of, HasRange, IsSending, IsStanding};

use crate::output_half::Sends;
use link_model::{end_of_packet, link_request, restart_from_retry, start_of_packet, status};
use link_sender::Started;
use rio_symbols::Symbol;

/// What a port sends, in a few bytes.
#[derive(Clone, Copy, Debug, PartialEq, Eq)]
pub enum Sending {
    /// Nothing.
    Nothing,
    /// A symbol.
    Symbol(Symbol),
    /// A packet between its two symbols. It stays with the packets to be sent, of which
    /// [`Port::queued_at`](crate::Port::queued_at) lends it.
    Packet {
        start: Symbol,
        ack: u8,
        prio: u8,
        place: u8,
        end: Symbol,
    },
}

/// What each symbol of a turn tells of the port that sends it.
#[derive(Clone, Copy)]
pub(crate) struct Standing {
    /// The ackID that it expects.
    pub(crate) expected: u8,
    /// Its buffer status.
    pub(crate) buffers: u8,
}

/// What is sent by a port that stands so.
pub(crate) fn send_from(sends: Sends, at: Standing) -> Sending
    requires standing { IsStanding at }
    requires range { HasRange sends }
    ensures value { result ≡ sending_of sends at }
    ensures range { IsSending result }
{
    let Standing { expected, buffers } = at;
    match sends {
        Sends::Packet(started) => send_packet(started, at),
        Sends::Restart => Sending::Symbol(restart_from_retry(expected, buffers)),
        Sends::Request => Sending::Symbol(link_request(expected, buffers)),
        Sends::Status => Sending::Symbol(status(expected, buffers)),
        Sends::Nothing => Sending::Nothing,
    }
}

/// A packet that starts, from a port that stands so.
fn send_packet(started: Started, at: Standing) -> Sending
    requires standing { IsStanding at }
    requires range { HasRange (Sends.Packet started) }
    ensures value { result ≡ sending_of (Sends.Packet started) at }
    ensures range { IsSending result }
{
    let start = start_of_packet(at.expected, at.buffers);
    let end = end_of_packet(at.expected, at.buffers);
    let Started { ack, prio, place } = started;
    Sending::Packet {
        start,
        ack,
        prio,
        place,
        end,
    }
}
