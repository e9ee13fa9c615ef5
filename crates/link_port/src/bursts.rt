//! `Burst`: what a port sends, as characters and as events.
ghost use Rattle.std.specs.Prelude.{◌≡◌, ◌<◌, Some};
ghost use Rattle.rio_symbols.specs.declared.stype1.TheConstants.{START_OF_PACKET, END_OF_PACKET};
ghost use Rattle.link_port.specs.Bursts.{burst_between, sending_burst, IsSending};
ghost use Rattle.link_port.specs.Turns.{no_burst, symbol_burst};

use crate::port::Port;
use crate::sending::Sending;
use arrayvec::ArrayVec;
use link_model::Event;
use rio_chars::Char;
use rio_framer::{packet_chars, symbol_chars};
use rio_packets::Packet;
use rio_symbols::Symbol;

/// What a port sends in a turn.
#[derive(Drop)]
pub struct Burst {
    /// The characters, of which a packet of 276 bytes between its two symbols has most.
    pub chars: ArrayVec<Char, 284>,
    /// The symbols and the packet that they spell.
    pub sent: ArrayVec<Event, 3>,
}

impl Port {
    /// The characters and events of what is sent.
    pub(crate) fn burst(&self, sending: Sending) -> Burst
        requires range { IsSending sending }
        ensures chars { result.chars.items ≡ (sending_burst sending self.now.queued).chars }
        ensures sent { result.sent.items ≡ (sending_burst sending self.now.queued).sent }
    {
        match sending {
            Sending::Nothing => no_burst(),
            Sending::Symbol(symbol) => symbol_burst(symbol),
            Sending::Packet {
                start,
                ack,
                prio,
                place,
                end,
            } => match self.queued_at(prio, place) {
                Some(packet) => packet_burst(start, ack, packet, end),
                None => no_burst(),
            },
        }
    }
}

/// Nothing.
fn no_burst() -> Burst
    ensures chars { result.chars.items ≡ no_burst.chars }
    ensures sent { result.sent.items ≡ no_burst.sent }
{
    Burst {
        chars: ArrayVec::new(),
        sent: ArrayVec::new(),
    }
}

/// One symbol.
fn symbol_burst(symbol: Symbol) -> Burst
    ensures chars { result.chars.items ≡ (symbol_burst symbol).chars }
    ensures sent { result.sent.items ≡ (symbol_burst symbol).sent }
{
    let mut chars = ArrayVec::new();
    if chars
        .try_extend_from_slice(symbol_chars(&symbol).as_slice())
        .is_err()
    {
        unreachable!();
    }
    let mut sent = ArrayVec::new();
    sent.push(Event::Ctl(symbol));
    Burst { chars, sent }
}

/// A packet between its two symbols.
fn packet_burst(start: Symbol, ack: u8, packet: &Packet, end: Symbol) -> Burst
    requires ack { ack < 32 }
    requires start { start.s1 ≡ START_OF_PACKET }
    requires end { end.s1 ≡ END_OF_PACKET }
    ensures chars { result.chars.items ≡ (burst_between start ack (Some packet.now) end).chars }
    ensures sent { result.sent.items ≡ (burst_between start ack (Some packet.now) end).sent }
{
    let mut sent = ArrayVec::new();
    sent.push(Event::Ctl(start));
    sent.push(Event::Pkt(ack, packet.copy()));
    sent.push(Event::Ctl(end));
    Burst {
        chars: packet_chars(&start, ack, packet, &end),
        sent,
    }
}
