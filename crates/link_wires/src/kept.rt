//! `Kept`: what was sent on a wire and is not acted on yet.
ghost use Rattle.std.specs.Prelude.{◌≡◌, ◌≤◌, ◌++◌, ◌∷◌, [], Some, None, length, ℕ, List, IsTrue, IsFalse, OnOk};
ghost use Rattle.link_model.specs.declared.event.Event.TheVariants.{Ctl, Pkt};
ghost use Rattle.link_model.specs.Events.{same_event};
ghost use Rattle.link_wires.specs.Kept.{behind};
ghost use Rattle.link_wires.specs.Heads.{event_of, head_size};

use crate::queue::Queue;
use rio_chars::NoMemory;
use rio_packets::Packet;
use rio_symbols::Symbol;
use std::alloc::Global;
use std::collections::VecDeque;
use std::marker::Model;

/// A kept event without the bytes of its packet. What is neither is never sent.
#[derive(Clone, Copy, Debug, PartialEq, Eq)]
pub(crate) enum Head {
    /// A symbol.
    Symbol(Symbol),
    /// A packet with this ackID and of so many bytes.
    Packet { ack: u8, size: u16 },
}

/// The events that were sent and that no acted event has met, in order. The bytes of their packets
/// stand behind one another, so that a symbol takes a few bytes and no packet is moved.
#[derive(Drop)]
pub(crate) struct Kept {
    heads: VecDeque<Head>,
    bytes: Queue<u8>,
}

impl Model for Kept {
    ghost use Rattle.std.specs.Prelude.{List, length, ◌≡◌};
    ghost use Rattle.link_model.specs.declared.event.Event.{Event};

    ghost Value = { List Event };

    ghost use Rattle.link_wires.specs.Heads.{events_of, size_of_all};

    ghost view = { λ kept. events_of kept.heads.items kept.bytes };

    ghost invariant = { λ kept. size_of_all kept.heads.items ≡ length kept.bytes };
}

impl Kept {
    /// No event. It takes no memory yet.
    pub(crate) fn new(alloc: Global) -> Kept
        ensures { result ≡ [] }
    {
        Kept {
            heads: VecDeque::new(alloc),
            bytes: Queue::new(alloc),
        }
    }

    /// Forgets all events.
    pub(crate) fn clear(&mut self)
        ensures { self.new ≡ [] }
    {
        self.heads.clear();
        self.bytes.clear();
    }

    /// Puts a symbol at the end.
    pub(crate) fn put_symbol(&mut self, symbol: Symbol) -> Result<(), NoMemory>
        ensures { OnOk result (self.new ≡ self.old ++ Ctl symbol ∷ []) }
    {
        self.put_head(Head::Symbol(symbol), &[])
    }

    /// Puts a packet at the end.
    pub(crate) fn put_packet(&mut self, ack: u8, packet: &Packet) -> Result<(), NoMemory>
        ensures { OnOk result (self.new ≡ self.old ++ Pkt ack packet.now ∷ []) }
    {
        let bytes = packet.bytes();
        let size = bytes.len() as u16;
        self.put_head(Head::Packet { ack, size }, bytes)
    }

    /// Puts an event at the end, as its head and the bytes of its packet.
    fn put_head(&mut self, head: Head, bytes: &[u8]) -> Result<(), NoMemory>
        requires { head_size head ≡ length bytes.now }
        ensures { OnOk result (self.new ≡ self.old ++ event_of head bytes.now ∷ []) }
    {
        self.heads.reserve(1)?;
        self.bytes.put(bytes)?;
        self.heads.push_back_reserved(head);
        Ok(())
    }

    /// Looks for the first event that is a packet with an ackID, and takes it away and all before
    /// it. If there is none, all are taken away.
    pub(crate) fn find_packet(&mut self, ack: u8, packet: &Packet) -> bool
        ensures found { IsTrue result → behind (Pkt ack packet.now) self.old ≡ Some self.new }
        ensures missing { IsFalse result → behind (Pkt ack packet.now) self.old ≡ None }
    {
        while let Some(sent) = self.heads.pop_front() {
            let found = is_packet(&sent, self.bytes.as_slice(), ack, packet);
            self.bytes.skip(size(&sent));
            if found {
                return true;
            }
        }
        false
    }

    /// Looks for the first event that is a symbol, as [`Kept::find_packet`].
    pub(crate) fn find_symbol(&mut self, symbol: Symbol) -> bool
        ensures found { IsTrue result → behind (Ctl symbol) self.old ≡ Some self.new }
        ensures missing { IsFalse result → behind (Ctl symbol) self.old ≡ None }
    {
        while let Some(head) = self.heads.pop_front() {
            self.bytes.skip(size(&head));
            if is_symbol(&head, symbol) {
                return true;
            }
        }
        false
    }
}

/// How many bytes the packet of an event has.
fn size(head: &Head) -> usize
    ensures { result ≡ head_size head.now }
{
    match head {
        Head::Packet { size, .. } => usize::from(*size),
        Head::Symbol(_) => 0,
    }
}

/// Returns whether an event, whose packet has the first of these bytes, is a packet with an ackID.
fn is_packet(head: &Head, bytes: &[u8], ack: u8, packet: &Packet) -> bool
    requires { head_size head.now ≤ length bytes.now }
    ensures { result ≡ same_event (event_of head.now bytes.now) (Pkt ack packet.now) }
{
    match head {
        Head::Packet { ack: sent, size } => {
            *sent == ack && &bytes[..usize::from(*size)] == packet.bytes()
        }
        Head::Symbol(_) => false,
    }
}

/// Returns whether an event is a symbol.
fn is_symbol(head: &Head, symbol: Symbol) -> bool
    ensures { (bytes : List ℕ) → result ≡ same_event (event_of head.now bytes) (Ctl symbol) }
{
    match head {
        Head::Symbol(sent) => *sent == symbol,
        Head::Packet { .. } => false,
    }
}
