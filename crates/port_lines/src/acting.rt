//! What a port does with characters.
ghost use Rattle.std.specs.Prelude.{◌≡◌, [], false, is_some};
ghost use Rattle.link_port.specs.Runs.{completed_events};
ghost use Rattle.link_port.specs.Steps.{acts_all, takes};
ghost use Rattle.port_lines.specs.Taking.{held_if};

use arrayvec::ArrayVec;
use link_port::{Completed, Done, Port};
use rio_chars::Char;
use rio_packets::Packet;
use rio_symbols::Symbol;

/// Where packets are put that come in, or that a symbol frees. One serves for all characters, so
/// that none makes a packet.
#[derive(Drop)]
pub struct Came {
    pub packet: Packet,
    pub freed: ArrayVec<Packet, 31>,
}

impl Came {
    /// Room for what comes.
    pub fn new() -> Came {
        Came {
            packet: Packet::default(),
            freed: ArrayVec::new(),
        }
    }
}

/// Leads a character through a port. The packet that it had held stands in the room of `came`, and
/// those that it freed.
pub fn take_char(port: &mut Port, c: Char, came: &mut Came) -> Done
    ensures port { port.new ≡ (takes port.old c).port }
    ensures reply { result.reply ≡ (takes port.old c).reply }
    ensures held { held_if result.held came.new.packet ≡ (takes port.old c).held }
    ensures accepted { result.held ≡ is_some (takes port.old c).held }
    ensures freed { came.new.freed.items ≡ (takes port.old c).freed }
{
    came.freed.clear();
    let (_, completed) = port.read(&[c], &mut came.packet);
    act_all(port, completed, &came.packet, &mut came.freed)
}

/// Leads what a character completed through a port. A packet that was completed stands in the slot,
/// and packets that are freed are put into `freed`.
fn act_all(
    port: &mut Port,
    completed: Completed,
    packet: &Packet,
    freed: &mut ArrayVec<Packet, 31>,
) -> Done
    requires empty { freed.old.items ≡ [] }
    ensures port { port.new ≡ (acts_all port.old (completed_events completed packet.now)).port }
    ensures reply { result.reply
        ≡ (acts_all port.old (completed_events completed packet.now)).reply }
    ensures held { held_if result.held packet.now
        ≡ (acts_all port.old (completed_events completed packet.now)).held }
    ensures freed { freed.new.items
        ≡ (acts_all port.old (completed_events completed packet.now)).freed }
{
    match completed {
        Completed::Nothing => replying(None),
        Completed::Symbol(symbol) => replying(port.act_symbol(symbol, freed)),
        Completed::Bad(cause) => replying(port.act_bad(cause)),
        Completed::Packet(ack, symbol) => {
            let done = port.act_packet(ack, packet);
            let answer = port.act_symbol(symbol, freed);
            Done {
                reply: done.reply.or(answer),
                held: done.held,
            }
        }
        Completed::NoPacket(cause, symbol) => {
            let reply = port.act_bad(cause);
            let answer = port.act_symbol(symbol, freed);
            replying(reply.or(answer))
        }
    }
}

/// No packet was accepted.
fn replying(reply: Option<Symbol>) -> Done
    ensures { result ≡ record { reply = reply; held = false } }
{
    Done { reply, held: false }
}
