//! `InStore`: the packets that came in, in shared receive buffers.
ghost use Rattle.std.specs.Prelude.{◌≡◌, ◌+◌, ◌-◌, ◌<◌, ◌≤◌, ◌↔◌, length, slice_get, option_copied, IsTrue, IfOk, IfNone};
ghost use Rattle.rio_packets.specs.Fields.{prio_of};
ghost use Rattle.link_buffers.specs.Queues.{list_at, appended, popped, packet_count, no_packets, room_for, IsInStore};

use crate::lists::PriorityLists;
use rio_chars::NoMemory;
use rio_packets::Packet;
use std::alloc::Global;
use std::marker::Model;

/// The packets that a port has accepted and the layer above has not taken: four lists, one for each
/// priority, which share 4 to 30 receive buffers. Each packet held takes one buffer.
#[derive(Drop)]
pub struct InStore {
    lists: PriorityLists,
    free: u8,
}

impl Model for InStore {
    ghost use Rattle.link_buffers.specs.Queues.{Buffered, IsCounted};

    ghost Value = { Buffered };

    ghost view = { λ s. record { lists = s.lists.lists; buffers = s.lists.room } };

    ghost invariant = { λ s.
        IsCounted (record { lists = s.lists.lists; buffers = s.lists.room }) s.free };
}

impl InStore {
    /// Makes an empty store of 4 to 30 buffers. `NoMemory` is the only other answer.
    pub fn new(alloc: Global, buffers: u8) -> Result<InStore, NoMemory>
        requires least { 4 ≤ buffers }
        requires most { buffers ≤ 30 }
        ensures empty { IfOk result
            (λ store. store ≡ record { lists = no_packets; buffers = buffers }) }
    {
        let Ok(lists) = PriorityLists::new(alloc, usize::from(buffers)) else {
            return Err(NoMemory);
        };
        Ok(InStore {
            lists,
            free: buffers,
        })
    }

    /// Returns the number of buffers without a packet.
    pub fn free(&self) -> u8
        ensures value { result + packet_count self.now.lists ≡ self.now.buffers }
        ensures store { IsInStore self.now }
    {
        self.free
    }

    /// Returns whether a packet of this priority may be put: more buffers are free than there are
    /// higher priorities, so that each higher priority has a buffer left (this project's profile).
    pub fn has_room(&self, prio: u8) -> bool
        requires { prio < 4 }
        ensures exact { IsTrue result
            ↔ (packet_count self.now.lists + (3 - prio) < self.now.buffers) }
        ensures test { result ≡ room_for self.now prio }
        ensures store { IsInStore self.now }
    {
        self.free > 3 - prio
    }

    /// Appends a packet to the list of its priority, which has room.
    pub fn put(&mut self, packet: Packet)
        requires room { packet_count self.old.lists + (3 - prio_of packet) < self.old.buffers }
        ensures appended { self.new
            ≡ record self.old { lists = appended self.old.lists (prio_of packet) packet } }
        ensures prio { prio_of packet < 4 }
        ensures store { IsInStore self.new }
    {
        self.lists.put(packet);
        self.free -= 1;
    }

    /// Returns the first packet of a priority, `None` exactly where there is none.
    pub fn head(&self, prio: u8) -> Option<&Packet>
        requires { prio < 4 }
        ensures { option_copied result ≡ slice_get (list_at self.now.lists prio) 0 }
    {
        self.lists.at(prio, 0)
    }

    /// Takes the first packet of a priority and frees its buffer. `None` exactly where there is
    /// none.
    pub fn pop(&mut self, prio: u8) -> Option<Packet>
        requires { prio < 4 }
        ensures value { result ≡ slice_get (list_at self.old.lists prio) 0 }
        ensures popped { self.new ≡ record self.old { lists = popped self.old.lists prio } }
        ensures unchanged { IfNone result (self.new ≡ self.old) }
        ensures store { IsInStore self.new }
    {
        let packet = self.lists.pop(prio)?;
        self.free += 1;
        Some(packet)
    }
}
