//! Packets that stand at a port, first in first out for each priority.

ghost use Rattle.std.specs.Prelude.{◌≡◌, ◌↔◌, ◌-◌, ◌<◌, Contains, length, Some, slice_get, IfOk, IsTrue};
ghost use Rattle.rio_packets.specs.Fields.{prio_of};
ghost use Rattle.link_buffers.specs.Queues.{list_at, appended, packet_count, popped, no_packets};

use rio_packets::Packet;
use std::alloc::{AllocError, Global};
use std::collections::VecDeque;
use std::marker::Model;

/// The packets of the four priorities.
#[derive(Drop)]
pub(crate) struct Lanes {
    lanes: [VecDeque<Packet>; 4],
}

impl Model for Lanes {
    ghost use Rattle.std.specs.Prelude.{◌≡◌, ℕ, List, length, map};

    ghost Value = { List (List (List ℕ)) };

    ghost view = { λ l. map (λ lane. lane.items) l.lanes };

    ghost invariant = { λ l. length l.lanes ≡ 4 };
}

impl Lanes {
    /// No packets.
    pub(crate) fn new(alloc: Global) -> Lanes
        ensures { result ≡ no_packets }
    {
        Lanes {
            lanes: [
                VecDeque::new(alloc),
                VecDeque::new(alloc),
                VecDeque::new(alloc),
                VecDeque::new(alloc),
            ],
        }
    }

    /// Takes the first packet of a priority.
    fn pop(&mut self, prio: u8) -> Option<Packet>
        requires { prio < 4 }
        ensures value { result ≡ slice_get (list_at self.old prio) 0 }
        ensures lists { self.new ≡ popped self.old prio }
    {
        self.lanes[usize::from(prio)].pop_front()
    }

    /// The first packet of a priority.
    pub(crate) fn first(&self, prio: u8) -> Option<Packet>
        requires { prio < 4 }
        ensures { result ≡ slice_get (list_at self.now prio) 0 }
    {
        match self.lanes[usize::from(prio)].front() {
            Some(packet) => Some(packet.copy()),
            None => None,
        }
    }

    /// Takes a packet away that is the first of its priority, and tells whether it is.
    pub(crate) fn take_first(&mut self, packet: &Packet) -> bool
        ensures first { IsTrue result
            ↔ (slice_get (list_at self.old (prio_of packet.now)) 0 ≡ Some packet.now) }
        ensures taken { self.new ≡ popped self.old (prio_of packet.now) }
        ensures range { prio_of packet.now < 4 }
    {
        match self.pop(packet.prio()) {
            Some(first) => first == *packet,
            None => false,
        }
    }

    /// How many of so many buffers are free, if each packet takes one.
    pub(crate) fn free_of(&self, buffers: usize) -> usize
        ensures { result ≡ buffers - packet_count self.now }
    {
        buffers
            .saturating_sub(self.lanes[0].len())
            .saturating_sub(self.lanes[1].len())
            .saturating_sub(self.lanes[2].len())
            .saturating_sub(self.lanes[3].len())
    }

    /// Puts a packet at the end of those of its priority.
    pub(crate) fn push(&mut self, packet: Packet) -> Result<(), AllocError>
        ensures lists { IfOk result (λ _. self.new ≡ appended self.old (prio_of packet) packet) }
        ensures range { prio_of packet < 4 }
    {
        let prio = packet.prio();
        self.lanes[usize::from(prio)].push_back(packet)?;
        Ok(())
    }

    /// How many packets of a priority there are.
    pub(crate) fn count(&self, prio: u8) -> usize
        requires { prio < 4 }
        ensures { result ≡ length (list_at self.now prio) }
    {
        self.lanes[usize::from(prio)].len()
    }

    /// Whether a packet is among those of its priority.
    pub(crate) fn contains(&self, packet: &Packet) -> bool
        ensures value { IsTrue result
            ↔ Contains (list_at self.now (prio_of packet.now)) packet.now }
        ensures range { prio_of packet.now < 4 }
    {
        has(&self.lanes[usize::from(packet.prio())], packet)
    }
}

/// Whether a packet is among others.
pub(crate) fn has(packets: &VecDeque<Packet>, packet: &Packet) -> bool
    ensures { IsTrue result ↔ Contains packets.now.items packet.now }
{
    packets.iter().any(|other| other == packet)
}
