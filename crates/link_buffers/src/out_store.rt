//! `OutStore`: the packets to be sent.
ghost use Rattle.std.specs.Prelude.{◌≡◌, ◌<◌, ◌≤◌, ◌↔◌, length, slice_get, option_copied, IsTrue, IfOk, IfSome, IfNone};
ghost use Rattle.std.specs.Option.{option_map};
ghost use Rattle.rio_packets.specs.Fields.{prio_of};
ghost use Rattle.link_buffers.specs.Queues.{list_at, appended, popped, no_packets, IsOutStore};
ghost use Rattle.link_buffers.specs.Priorities.{lists_without, count_of, highest};

use crate::lists::PriorityLists;
use rio_chars::NoMemory;
use rio_packets::Packet;
use std::alloc::Global;
use std::marker::Model;

/// The most packets of one priority that wait to be sent (this project's profile).
const ROOM: usize = 16;

/// Where a packet stands that waits to be sent.
#[derive(Clone, Copy, Debug, PartialEq, Eq)]
pub struct Waiting {
    /// Its priority.
    pub prio: u8,
    /// Its place in the list of its priority, counted from 0.
    pub place: u8,
}

/// The packets to be sent, those sent and not yet accepted among them: four lists, one for each
/// priority, of at most 16 packets each. Contracts see the four lists.
#[derive(Drop)]
pub struct OutStore {
    lists: PriorityLists,
}

impl Model for OutStore {
    ghost use Rattle.std.specs.Prelude.{◌≡◌, ℕ, List};
    ghost use Rattle.link_buffers.specs.Queues.{IsOutStore};

    ghost Value = { List (List (List ℕ)) };

    ghost view = { λ s. s.lists.lists };

    ghost invariant = { λ s. (s.lists.room ≡ 64) × IsOutStore s.lists.lists };
}

impl OutStore {
    /// Makes an empty store. `NoMemory` is the only other answer.
    pub fn new(alloc: Global) -> Result<OutStore, NoMemory>
        ensures empty { IfOk result (λ store. store ≡ no_packets) }
    {
        let Ok(lists) = PriorityLists::new(alloc, 4 * ROOM) else {
            return Err(NoMemory);
        };
        Ok(OutStore { lists })
    }

    /// Returns whether a packet of this priority may be put.
    pub fn has_room(&self, prio: u8) -> bool
        requires { prio < 4 }
        ensures exact { IsTrue result ↔ (length (list_at self.now prio) < 16) }
        ensures store { IsOutStore self.now }
    {
        self.lists.len(prio) < ROOM
    }

    /// Appends a packet to the list of its priority, which has room.
    pub fn put(&mut self, packet: Packet)
        requires room { length (list_at self.old (prio_of packet)) < 16 }
        ensures appended { self.new ≡ appended self.old (prio_of packet) packet }
        ensures prio { prio_of packet < 4 }
        ensures store { IsOutStore self.new }
    {
        self.lists.put(packet);
    }

    /// Returns the packet at `place` of the list of a priority, counted from 0. `None` exactly past
    /// the end.
    pub fn at(&self, prio: u8, place: u8) -> Option<&Packet>
        requires { prio < 4 }
        ensures { option_copied result ≡ slice_get (list_at self.now prio) place }
    {
        self.lists.at(prio, place)
    }

    /// Returns where the first packet stands that waits behind those which these priorities take,
    /// at most 255: it is of the highest priority that has one. `None` exactly where they take all
    /// packets. With the priorities of the outstanding packets, it is the next to be sent; with
    /// none, the first packet of the highest priority that has one.
    pub fn first_behind(&self, prios: &[u8]) -> Option<Waiting>
        requires few { length prios.now ≤ 255 }
        ensures highest { option_map (λ first. first.prio) result
            ≡ highest (lists_without prios.now self.now) }
        ensures place { IfSome result (λ first. first.place ≡ count_of prios.now first.prio) }
        ensures waits { IfSome result
            (λ first. first.place < length (list_at self.now first.prio)) }
        ensures range { IfSome result (λ first. first.prio < 4) }
        ensures store { IsOutStore self.now }
    {
        let _ = self.len(0);
        for prio in (0..4).rev() {
            let place = count(prios, prio);
            if place < self.len(prio) {
                return Some(Waiting { prio, place });
            }
        }
        None
    }

    /// Returns the number of packets of a priority.
    pub fn len(&self, prio: u8) -> u8
        requires { prio < 4 }
        ensures value { result ≡ length (list_at self.now prio) }
        ensures store { IsOutStore self.now }
    {
        self.lists.len(prio) as u8
    }

    /// Takes the first packet of a priority. `None` exactly where there is none.
    pub fn pop(&mut self, prio: u8) -> Option<Packet>
        requires { prio < 4 }
        ensures value { result ≡ slice_get (list_at self.old prio) 0 }
        ensures popped { self.new ≡ popped self.old prio }
        ensures unchanged { IfNone result (self.new ≡ self.old) }
        ensures store { IsOutStore self.new }
    {
        self.lists.pop(prio)
    }
}

/// Returns how often a priority stands among these.
fn count(prios: &[u8], prio: u8) -> u8
    requires few { length prios.now ≤ 255 }
    ensures { result ≡ count_of prios.now prio }
{
    prios.iter().filter(|other| **other == prio).count() as u8
}
