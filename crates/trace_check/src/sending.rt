//! The packets in characters that a port sends.

ghost use Rattle.std.specs.Prelude.{◌≡◌, ◌↔◌, ℕ, ◌<◌, IfSome, IsSome, IsTrue, MatchOption};
ghost use Rattle.std.specs.List.{AllByRecursion};
ghost use Rattle.rio_packets.specs.Fields.{prio_of};
ghost use Rattle.rio_symbols.specs.Fields.{Fields};
ghost use Rattle.fabric_script.specs.declared.ports.PortRef.{PortRef as APortRef};
ghost use Rattle.fabric_model.specs.Network.{first_packet, Network as ANetwork};
ghost use Rattle.fabric_trace.specs.Fold.{says};
ghost use Rattle.trace_lines.specs.Lines.{Sent, Signed};
ghost use Rattle.fabric_trace.specs.Owned.{HasEvent, HasPacket};
ghost use Rattle.trace_check.specs.Checks.{SendMayBe};
ghost use Rattle.trace_check.specs.Expecting.{OneIsLacked};
ghost use Rattle.trace_check.specs.Networks.{IsNetwork};
ghost use Rattle.trace_check.specs.Running.{told_events};
ghost use Rattle.trace_check.specs.Sending.{AreToSend};
ghost use Rattle.trace_check.specs.Tables.{IsIn};

use crate::lanes::{Lanes, has};
use crate::network::Network;
use crate::places::place_of;
use fabric_script::PortRef;
use rio_chars::Char;
use rio_framer::{Framer, Told};
use rio_packets::Packet;
use std::collections::VecDeque;

impl Network {
    /// Whether a port has each packet in characters that it sends.
    pub(crate) fn may_send(&self, port: PortRef, chars: &[Char]) -> bool
        ensures { (nodes : ℕ) (net : ANetwork) → IsNetwork nodes net self.now → IsIn nodes port
            → IsTrue result ↔ SendMayBe net (Signed (Sent port chars.now)) }
    {
        let place = place_of(port);
        place < self.waiting.len()
            && place < self.lent.len()
            && has_all(&self.waiting[place], &self.lent[place], chars)
    }

    /// The priority of a packet in characters that a port does not have, and the first packet of
    /// this priority that waits there.
    pub(crate) fn lacking(&self, port: PortRef, chars: &[Char]) -> Option<(u8, Option<Packet>)>
        ensures { (nodes : ℕ) (net : ANetwork) → IsNetwork nodes net self.now → IsIn nodes port
            → MatchOption result (SendMayBe net (Signed (Sent port chars.now)))
            (λ found. OneIsLacked net port found.0 (says chars.now)
            × (found.1 ≡ first_packet (net.waiting port found.0))) }
    {
        let place = place_of(port);
        if place >= self.waiting.len() || place >= self.lent.len() {
            return None;
        }
        let prio = lacked(&self.waiting[place], &self.lent[place], chars)?;
        Some((prio, self.waiting[place].first(prio)))
    }
}

/// Whether each packet in characters is among those that wait or those that are lent.
fn has_all(waiting: &Lanes, lent: &VecDeque<Packet>, chars: &[Char]) -> bool
    ensures { (net : ANetwork) (port : APortRef) → AreToSend net port waiting.now lent.now.items
        → IsTrue result ↔ AllByRecursion (HasEvent net port) (says chars.now) }
{
    lacked(waiting, lent, chars).is_none()
}

/// The priority of the first packet in characters that is not among them, if there is one.
fn lacked(waiting: &Lanes, lent: &VecDeque<Packet>, chars: &[Char]) -> Option<u8>
    ensures lacked { (net : ANetwork) (port : APortRef)
        → AreToSend net port waiting.now lent.now.items
        → MatchOption result (AllByRecursion (HasEvent net port) (says chars.now))
        (λ prio. OneIsLacked net port prio (says chars.now)) }
    ensures range { IfSome result (λ prio. prio < 4) }
{
    let mut framer = Framer::new();
    let mut left = chars;
    while !left.is_empty() {
        let (count, told) = framer.read_run(left);
        left = left.split_at(count).1;
        let ended = lacked_at_end(waiting, lent, told, &framer);
        if let Some(prio) = ended {
            return Some(prio);
        }
    }
    None
}

/// The priority of the packet that the last character ended, if it ended one and that is not among
/// them.
fn lacked_at_end(
    waiting: &Lanes,
    lent: &VecDeque<Packet>,
    told: Told,
    framer: &Framer,
) -> Option<u8>
    requires { (symbol : Fields) → told ≡ Told.Ends symbol → IsSome framer.now.ended }
    ensures lacked { (net : ANetwork) (port : APortRef)
        → AreToSend net port waiting.now lent.now.items
        → MatchOption result
        (AllByRecursion (HasEvent net port) (told_events told framer.now.ended))
        (λ prio. OneIsLacked net port prio (told_events told framer.now.ended)) }
    ensures range { IfSome result (λ prio. prio < 4) }
{
    match told {
        Told::Ends(_) => match framer.ended() {
            Ok((_, form)) => lacked_packet(waiting, lent, &Packet::from_form(form)),
            Err(_) => None,
        },
        Told::Ctl(_) | Told::Bad(_) | Told::Nothing => None,
    }
}

/// The priority of a packet, if it is not among them.
fn lacked_packet(waiting: &Lanes, lent: &VecDeque<Packet>, packet: &Packet) -> Option<u8>
    ensures lacked { (net : ANetwork) (port : APortRef)
        → AreToSend net port waiting.now lent.now.items
        → MatchOption result (HasPacket net port packet.now)
        (λ prio. (prio ≡ prio_of packet.now) × (HasPacket net port packet.now → ⊥)) }
    ensures range { IfSome result (λ prio. prio < 4) }
{
    if has_packet(waiting, lent, packet) {
        None
    } else {
        Some(packet.prio())
    }
}

/// Whether a packet is among them.
fn has_packet(waiting: &Lanes, lent: &VecDeque<Packet>, packet: &Packet) -> bool
    ensures { (net : ANetwork) (port : APortRef) → AreToSend net port waiting.now lent.now.items
        → IsTrue result ↔ HasPacket net port packet.now }
{
    waiting.contains(packet) || has(lent, packet)
}
