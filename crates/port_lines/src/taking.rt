//! Held packets that are given out.
ghost use Rattle.std.specs.Prelude.{◌≡◌, ◌<◌, length, IfSome, IsTrue, ◌↔◌};
ghost use Rattle.link_buffers.specs.Prelude.{highest, list_at};
ghost use Rattle.port_lines.specs.Taking.{gives_next, gives_next_if};

use link_port::{Port, PortFace};
use rio_packets::Packet;

/// Gives out the first held packet of the highest priority.
pub(crate) fn give_next(port: &mut Port) -> Option<Packet>
    ensures port { port.new ≡ (gives_next port.old).port }
    ensures packet { result ≡ (gives_next port.old).packet }
{
    let prio = highest_held(port)?;
    port.in_pop(prio)
}

/// The same, or nothing.
pub(crate) fn give_next_if(is_next: bool, port: &mut Port) -> Option<Packet>
    ensures port { port.new ≡ (gives_next_if is_next port.old).port }
    ensures packet { result ≡ (gives_next_if is_next port.old).packet }
{
    if is_next { give_next(port) } else { None }
}

/// The highest priority that has a held packet.
pub fn highest_held(port: &Port) -> Option<u8>
    ensures value { result ≡ highest port.now.received.lists }
    ensures below { IfSome result (λ prio. prio < 4) }
    ensures some { IfSome result (λ prio. 0 < length (list_at port.now.received.lists prio)) }
{
    if holds(port, 3) {
        Some(3)
    } else if holds(port, 2) {
        Some(2)
    } else if holds(port, 1) {
        Some(1)
    } else if holds(port, 0) {
        Some(0)
    } else {
        None
    }
}

/// Whether a priority has a held packet.
fn holds(port: &Port, prio: u8) -> bool
    requires { prio < 4 }
    ensures { IsTrue result ↔ (0 < length (list_at port.now.received.lists prio)) }
{
    port.in_head(prio).is_some()
}
