//! `UndetectedEvent`: an event that was acted on and was not sent.
ghost use Rattle.std.specs.Prelude.{◌≡◌, IfOk};
ghost use Rattle.link_model.specs.declared.event.Event.TheVariants.{Ctl, Pkt};

use link_model::Event;
use rio_chars::NoMemory;
use rio_packets::Packet;
use rio_symbols::Symbol;
use std::alloc::Global;
use std::marker::Model;

/// An event that a port acted on and that was not sent. It stands in a box, so that what carries it
/// is small.
#[derive(Debug, Drop)]
pub struct UndetectedEvent {
    event: Box<Event>,
}

impl Model for UndetectedEvent {
    ghost use Rattle.link_model.specs.declared.event.Event.{Event};

    ghost Value = { Event };

    ghost view = { λ boxed. boxed.event.value };
}

impl UndetectedEvent {
    /// Puts an event in a box. `NoMemory` is the only other answer.
    pub fn new(alloc: Global, event: Event) -> Result<UndetectedEvent, NoMemory>
        ensures { IfOk result (λ boxed. boxed ≡ event) }
    {
        match Box::new(alloc, event) {
            Ok(event) => Ok(UndetectedEvent { event }),
            Err(_) => Err(NoMemory),
        }
    }

    /// The event of a packet, in a box.
    pub(crate) fn packet(
        alloc: Global,
        ack: u8,
        packet: &Packet,
    ) -> Result<UndetectedEvent, NoMemory>
        ensures { IfOk result (λ boxed. boxed ≡ Pkt ack packet.now) }
    {
        UndetectedEvent::new(alloc, Event::Pkt(ack, packet.copy()))
    }

    /// The event of a symbol, in a box.
    pub(crate) fn symbol(alloc: Global, symbol: Symbol) -> Result<UndetectedEvent, NoMemory>
        ensures { IfOk result (λ boxed. boxed ≡ Ctl symbol) }
    {
        UndetectedEvent::new(alloc, Event::Ctl(symbol))
    }

    /// The event.
    pub fn event(&self) -> &Event
        ensures { result.now ≡ self.now }
    {
        self.event.as_ref()
    }
}
