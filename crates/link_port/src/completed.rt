//! What a run of characters completed.
ghost use Rattle.std.specs.Prelude.{◌≡◌};
ghost use Rattle.rio_framer.specs.Giving.{listed, events_by};
ghost use Rattle.link_port.specs.Runs.{completed_events, slot_after, HasEnded};

use rio_framer::{Framer, Told};
use rio_packets::{Cause, Packet};
use rio_symbols::Symbol;

/// What a run of characters completed, in a few bytes. A packet is not in it: it stands in the slot
/// that the caller gave.
#[derive(Clone, Copy, Debug, PartialEq, Eq)]
pub enum Completed {
    /// No event.
    Nothing,
    /// A control symbol, which ended no packet.
    Symbol(Symbol),
    /// A packet with this ackID, and the start-of-packet or end-of-packet symbol that ended it.
    Packet(u8, Symbol),
    /// Bytes that are no packet, why, and the symbol that ended them.
    NoPacket(Cause, Symbol),
    /// What is neither a symbol nor a packet, and why.
    Bad(Cause),
}

/// What a framer told, with the packet that ended, if one did, in the slot.
pub(crate) fn complete(framer: &Framer, told: Told, packet: &mut Packet) -> Completed
    requires ended { HasEnded told framer.now.ended }
    ensures events { completed_events result packet.new
        ≡ listed (events_by told framer.now.ended).first (events_by told framer.now.ended).second }
    ensures slot { packet.new ≡ slot_after (completed_events result packet.new) packet.old }
{
    match told {
        Told::Nothing => Completed::Nothing,
        Told::Ctl(symbol) => Completed::Symbol(symbol),
        Told::Bad(cause) => Completed::Bad(cause),
        Told::Ends(symbol) => match framer.ended() {
            Ok((ack, form)) => {
                *packet = Packet::from_form(form);
                Completed::Packet(ack, symbol)
            }
            Err(cause) => Completed::NoPacket(cause, symbol),
        },
    }
}
