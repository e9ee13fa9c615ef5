//! Four lists of packets, one for each priority, in the places of one block.
ghost use Rattle.std.specs.Prelude.{◌≡◌, ◌<◌, ◌≤◌, ◌+◌, All, length, slice_get, option_copied, IfOk, MatchOption};
ghost use Rattle.rio_packets.specs.Fields.{prio_of};
ghost use Rattle.rio_packets.specs.LinkForm.{Passes};
ghost use Rattle.link_buffers.specs.Queues.{list_at, appended, popped, packet_count, no_packets};
ghost use Rattle.link_buffers.specs.Rings.{stowed};

use circular_buffer::HeapCircularBuffer;
use rio_packets::Packet;
use std::alloc::{AllocError, Global};
use std::marker::Model;

/// The lists of packets by priority, which hold at most `room` packets together. Each list is a
/// ring of the numbers of its places. A place is written when it is first needed, and again once it
/// is free, so that memory which is never needed is never touched.
#[derive(Drop)]
pub(crate) struct PriorityLists {
    places: HeapCircularBuffer<Packet>,
    free: HeapCircularBuffer<u8>,
    rings: [HeapCircularBuffer<u8>; 4],
    room: usize,
}

impl Model for PriorityLists {
    ghost use Rattle.link_buffers.specs.Rings.{Roomy, AreRings, lists_of};

    ghost Value = { Roomy };

    ghost view = { λ s. record { lists = lists_of s.places.items s.rings; room = s.room } };

    ghost invariant = { λ s. AreRings s.places s.free s.rings s.room };
}

impl PriorityLists {
    /// Takes the memory of four empty lists.
    pub(crate) fn new(alloc: Global, room: usize) -> Result<PriorityLists, AllocError>
        requires { room ≤ 64 }
        ensures { IfOk result (λ store. store ≡ record { lists = no_packets; room = room }) }
    {
        let places = HeapCircularBuffer::with_capacity(alloc, room)?;
        let free = HeapCircularBuffer::with_capacity(alloc, room)?;
        let routine = HeapCircularBuffer::with_capacity(alloc, room)?;
        let raised = HeapCircularBuffer::with_capacity(alloc, room)?;
        let urgent = HeapCircularBuffer::with_capacity(alloc, room)?;
        let highest = HeapCircularBuffer::with_capacity(alloc, room)?;
        Ok(PriorityLists {
            places,
            free,
            rings: [routine, raised, urgent, highest],
            room,
        })
    }

    /// Returns the number of packets of a priority.
    pub(crate) fn len(&self, prio: u8) -> usize
        requires { prio < 4 }
        ensures { result ≡ length (list_at self.now.lists prio) }
    {
        self.rings[usize::from(prio)].len()
    }

    /// Returns the packet at `place` of the list of a priority, counted from 0.
    pub(crate) fn at(&self, prio: u8, place: u8) -> Option<&Packet>
        requires { prio < 4 }
        ensures { option_copied result ≡ slice_get (list_at self.now.lists prio) place }
    {
        let number = self.rings[usize::from(prio)].get(usize::from(place))?;
        self.places.get(usize::from(*number))
    }

    /// Appends a packet to the list of its priority.
    pub(crate) fn put(&mut self, packet: Packet)
        requires { prio_of packet < 4 → packet_count self.old.lists < self.old.room }
        ensures lists { self.new
            ≡ record self.old { lists = appended self.old.lists (prio_of packet) packet } }
        ensures few { prio_of packet < 4 }
        ensures packet { Passes packet }
    {
        let prio = packet.prio();
        let _ = packet.bytes();
        let number = place(&mut self.places, &mut self.free, packet);
        self.rings[usize::from(prio)].push_back(number);
    }

    /// Takes the first packet of a priority.
    pub(crate) fn pop(&mut self, prio: u8) -> Option<Packet>
        requires { prio < 4 }
        ensures value { result ≡ slice_get (list_at self.old.lists prio) 0 }
        ensures lists { self.new ≡ record self.old { lists = popped self.old.lists prio } }
    {
        let number = self.rings[usize::from(prio)].pop_front()?;
        self.free.push_back(number);
        let packet = self.places.get(usize::from(number))?;
        Some(packet.copy())
    }
}

/// Puts a packet in the first free place, or else in one more, and returns the place.
fn place(
    places: &mut HeapCircularBuffer<Packet>,
    free: &mut HeapCircularBuffer<u8>,
    packet: Packet,
) -> u8
    requires free { All (λ place. place < length places.old.items) free.old.items }
    requires room { length places.old.items < length free.old.items + places.old.capacity }
    requires few { places.old.capacity ≤ 64 }
    ensures places { places.new ≡ record places.old {
      items = (stowed places.old.items free.old.items packet).places;
    } }
    ensures free { free.new ≡ record free.old {
      items = (stowed places.old.items free.old.items packet).free;
    } }
    ensures place { result ≡ (stowed places.old.items free.old.items packet).place }
{
    if let Some(number) = free.pop_front() {
        if let Some(place) = places.get_mut(usize::from(number)) {
            *place = packet;
        }
        return number;
    }
    let number = places.len() as u8;
    places.push_back(packet);
    number
}
