//! What the characters of a link say.
ghost use Rattle.std.specs.Prelude.{◌≡◌};

use rio_packets::{Cause, Packet};
use rio_symbols::Symbol;

/// What a receiver reads in the characters of a link (RapidIO Interconnect Specification 1.3, Part
/// 6, control symbols and packet delimiting; what is bad, and its cause, by this project's
/// profile).
#[derive(Debug, Drop)]
pub enum Event {
    /// A control symbol.
    Ctl(Symbol),
    /// A packet, with the ackID, 0 to 31, that it was sent with.
    Pkt(u8, Packet),
    /// Characters that are neither, and the cause that a port answers with.
    Bad(Cause),
}

impl Event {
    /// The same event once more.
    pub fn copy(&self) -> Event
        ensures same { result ≡ self.now }
    {
        match self {
            Event::Ctl(symbol) => Event::Ctl(*symbol),
            Event::Pkt(ack, packet) => Event::Pkt(*ack, packet.copy()),
            Event::Bad(cause) => Event::Bad(*cause),
        }
    }
}

/// Events are equal where their parts are.
impl PartialEq for Event {
    ghost use Rattle.std.specs.Cmp.{partial_equiv_from_equiv};
    ghost use Rattle.link_model.specs.Events.{same_event};
    ghost use Rattle.link_model.specs.EventsEqual.{same_event_equivalence};

    ghost eq = { same_event };

    ghost laws = { partial_equiv_from_equiv same_event_equivalence };

    fn eq(&self, other: &Self) -> bool {
        match (self, other) {
            (Event::Ctl(symbol), Event::Ctl(other)) => symbol == other,
            (Event::Pkt(ack, packet), Event::Pkt(other_ack, other)) => {
                ack == other_ack && packet == other
            }
            (Event::Bad(cause), Event::Bad(other)) => cause == other,
            _ => false,
        }
    }
}

impl Eq for Event {
    ghost use Rattle.link_model.specs.EventsEqual.{same_event_equivalence};

    ghost laws = { same_event_equivalence };
}

impl Default for Event {
    ghost use Rattle.rio_packets.specs.declared.cause.Cause.TheVariants.{General};
    ghost use Rattle.link_model.specs.declared.event.Event.TheVariants.{Bad};

    ghost is_default = { λ event. event ≡ Bad General };

    fn default() -> Event {
        Event::Bad(Cause::General)
    }
}
