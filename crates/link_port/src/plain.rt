//! `PlainPort`: a port with no protocol.
ghost use Rattle.std.specs.Prelude.{◌≡◌, ◌≤◌, IfOk, IfSome, IfNone};
ghost use Rattle.link_buffers.specs.Queues.{no_packets};
ghost use Rattle.link_port.specs.Plain.{passing, without, with};

use crate::face::PortFace;
use link_buffers::{InStore, OutStore};
use rio_chars::NoMemory;
use rio_packets::Packet;
use std::alloc::Global;
use std::marker::Model;

/// A port with no protocol, whose packets pass to the far port at once and whole. Contracts see its
/// lists and the number of its buffers.
#[derive(Drop)]
pub struct PlainPort {
    queued: OutStore,
    received: InStore,
}

impl Model for PlainPort {
    ghost use Rattle.link_buffers.specs.Queues.{IsInStore, IsOutStore};
    ghost use Rattle.link_port.specs.Plain.{PlainStores};

    ghost Value = { PlainStores };

    ghost view = { λ port. record { queued = port.queued; received = port.received } };

    ghost invariant = { λ port. IsOutStore port.queued × IsInStore port.received };
}

impl PlainPort {
    /// Makes an empty port of 4 to 30 receive buffers. `NoMemory` is the only other answer.
    pub fn new(alloc: Global, buffers: u8) -> Result<PlainPort, NoMemory>
        requires least { 4 ≤ buffers }
        requires most { buffers ≤ 30 }
        ensures empty { IfOk result
            (λ port. port
            ≡ record {
              queued = no_packets;
              received = record { lists = no_packets; buffers = buffers };
            }) }
    {
        Ok(PlainPort {
            queued: OutStore::new(alloc)?,
            received: InStore::new(alloc, buffers)?,
        })
    }
}

impl PortFace for PlainPort {
    ghost use Rattle.std.proofs.Common.{◌∙◌, refl};

    ghost received = { λ port. port.received.lists };

    ghost queued = { λ port. port.queued };

    ghost alike = { λ port next. port.received.buffers ≡ next.received.buffers };

    ghost alike_same = { λ port. refl };

    ghost alike_on = { λ port next last first second. first ∙ second };

    fn in_head(&self, prio: u8) -> Option<&Packet> {
        self.received.head(prio)
    }

    fn in_pop(&mut self, prio: u8) -> Option<Packet> {
        self.received.pop(prio)
    }

    fn out_room(&self, prio: u8) -> bool {
        self.queued.has_room(prio)
    }

    fn out_put(&mut self, packet: Packet) {
        self.queued.put(packet);
    }
}

/// Passes the first packet of the highest priority that has one from a port to be sent to the
/// received list of another, and returns a copy of it. `None` exactly where nothing waits, or where
/// that packet has no room; then nothing changes.
pub fn pass(from: &mut PlainPort, to: &mut PlainPort) -> Option<Packet>
    ensures value { result ≡ passing from.old to.old }
    ensures leaves { IfSome result (λ packet. from.new ≡ without from.old packet) }
    ensures comes { IfSome result (λ packet. to.new ≡ with to.old packet) }
    ensures stays { IfNone result (from.new ≡ from.old) }
    ensures no_coming { IfNone result (to.new ≡ to.old) }
{
    let prio = from.queued.first_behind(&[])?.prio;
    if !to.received.has_room(prio) {
        return None;
    }
    let packet = from.queued.pop(prio)?;
    to.received.put(packet.copy());
    Some(packet)
}
