//! `Delivery`: what came of characters that a port took.
ghost use Rattle.std.specs.Prelude.{◌≡◌, ◌++◌, ◌∷◌, [], Some, None, map, option_to_list, IfOk, OnOk, if◌then◌else◌};
ghost use Rattle.link_wires.specs.declared.moves.Move.TheVariants.{Held, Freed};

use crate::moves::Move;
use arrayvec::ArrayVec;
use rio_chars::{Char, NoMemory};
use rio_packets::Packet;
use rio_symbols::Symbol;
use std::alloc::Global;

/// What came of characters that a port took, as it happened. A caller has one for all its
/// deliveries, so that a list or a packet is not made for each.
#[derive(Drop)]
pub struct Delivery {
    /// The characters: all that were to be taken, or those up to the one that completed an event
    /// which was not sent.
    pub got: Vec<Char>,
    /// What the port did with packets, in order.
    pub moves: Vec<Move>,
    /// The symbols that answer, in order.
    pub replies: Vec<Symbol>,
    /// Where a packet is put that comes in.
    pub(crate) packet: Packet,
    /// Where packets are put that a symbol frees. The list takes more room than all else of a link,
    /// so it is made when a symbol first comes, and kept.
    freed: Option<Box<ArrayVec<Packet, 31>>>,
}

impl Delivery {
    /// Nothing yet. It takes no memory.
    pub fn new(alloc: Global) -> Delivery
        ensures got { result.got.items ≡ [] }
        ensures moves { result.moves.items ≡ [] }
        ensures replies { result.replies.items ≡ [] }
    {
        Delivery {
            got: Vec::new(alloc),
            moves: Vec::new(alloc),
            replies: Vec::new(alloc),
            packet: Packet::default(),
            freed: None,
        }
    }

    /// The packet that came in, if it was accepted.
    pub(crate) fn hold(&mut self, held: bool) -> Result<(), NoMemory>
        ensures moves { OnOk result (self.new.moves.items ≡ self.old.moves.items
            ++ map (λ packet. Held packet)
            (option_to_list (if held then Some self.old.packet else None))) }
        ensures replies { self.new.replies ≡ self.old.replies }
    {
        if held {
            return push_held(&mut self.moves, &self.packet);
        }
        Ok(())
    }

    /// A list for the packets that a symbol frees, with none in it.
    pub(crate) fn list(&mut self, alloc: Global) -> Result<Box<ArrayVec<Packet, 31>>, NoMemory>
        ensures empty { IfOk result (λ list. list.value.items ≡ []) }
        ensures moves { self.new.moves ≡ self.old.moves }
        ensures replies { self.new.replies ≡ self.old.replies }
    {
        let Some(mut list) = self.freed.take() else {
            return new_list(alloc);
        };
        list.as_mut().clear();
        Ok(list)
    }

    /// The packets that a symbol freed. Their list is kept for the next one.
    pub(crate) fn free(&mut self, list: Box<ArrayVec<Packet, 31>>) -> Result<(), NoMemory>
        ensures moves { OnOk result (self.new.moves.items ≡ self.old.moves.items
            ++ map (λ packet. Freed packet) list.value.items) }
        ensures replies { self.new.replies ≡ self.old.replies }
    {
        push_all_freed(&mut self.moves, list.as_ref().as_slice())?;
        self.freed = Some(list);
        Ok(())
    }

    /// The symbol that answers, if there is one.
    pub(crate) fn reply(&mut self, reply: Option<Symbol>) -> Result<(), NoMemory>
        ensures moves { self.new.moves ≡ self.old.moves }
        ensures replies { OnOk result (self.new.replies.items ≡ self.old.replies.items
            ++ option_to_list reply) }
    {
        if let Some(symbol) = reply {
            self.replies.reserve(1)?;
            self.replies.push_reserved(symbol);
        }
        Ok(())
    }
}

/// A list in a box, with nothing in it.
fn new_list(alloc: Global) -> Result<Box<ArrayVec<Packet, 31>>, NoMemory>
    ensures { IfOk result (λ list. list.value.items ≡ []) }
{
    match Box::new(alloc, ArrayVec::new()) {
        Ok(list) => Ok(list),
        Err(_) => Err(NoMemory),
    }
}

/// Packets that were freed.
fn push_all_freed(moves: &mut Vec<Move>, freed: &[Packet]) -> Result<(), NoMemory>
    ensures { OnOk result (moves.new.items ≡ moves.old.items
        ++ map (λ packet. Freed packet) freed.now) }
{
    for packet in freed {
        push_freed(moves, packet)?;
    }
    Ok(())
}

/// A packet that was freed.
fn push_freed(moves: &mut Vec<Move>, packet: &Packet) -> Result<(), NoMemory>
    ensures { OnOk result (moves.new.items ≡ moves.old.items ++ Freed packet.now ∷ []) }
{
    moves.reserve(1)?;
    moves.push_reserved(Move::Freed(packet.copy()));
    Ok(())
}

/// A packet that was accepted.
fn push_held(moves: &mut Vec<Move>, packet: &Packet) -> Result<(), NoMemory>
    ensures { OnOk result (moves.new.items ≡ moves.old.items ++ Held packet.now ∷ []) }
{
    moves.reserve(1)?;
    moves.push_reserved(Move::Held(packet.copy()));
    Ok(())
}
