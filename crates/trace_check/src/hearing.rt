//! What a port has got, as far as later lines ask for it.

ghost use Rattle.std.specs.Prelude.{◌≡◌, ◌++◌, ◌↔◌, ℕ, List, false, Some, IfOk, IsSome, IsTrue};
ghost use Rattle.rio_symbols.specs.Fields.{Fields};
ghost use Rattle.link_model.specs.declared.event.Event.{Event as AnEvent};
ghost use Rattle.link_model.specs.declared.event.Event.TheVariants.{Ctl as ACtl};
ghost use Rattle.fabric_trace.specs.Allowance.{raised};
ghost use Rattle.trace_check.specs.Running.{behind_packet, Come, first_with, frees_one, holds_one, IsSpare, KeepsRun, MayFree, MayHold, new_run, notes, packet_in, PortRun, run_hears, ServesHolds, told_events};

use rio_chars::Char;
use rio_framer::{Framer, Told};
use rio_packets::Packet;
use rio_symbols::Symbol;
use rio_symbols::stype0::{LINK_RESPONSE, PACKET_ACCEPTED};
use std::alloc::{AllocError, Global};
use std::collections::VecDeque;

/// The reading of what a port got: where it stands; the packets that came behind the last one held,
/// each with its ackID, as far as they can still be held; the ackID of the next to be held; and how
/// many packets the port freed and may free.
#[derive(Drop)]
pub(crate) struct Hearing {
    framer: Framer,
    unheld: VecDeque<(u8, Packet)>,
    next: u8,
    freed: u64,
    allowed: u64,
}

impl Hearing {
    /// Nothing was got.
    pub(crate) fn new(alloc: Global) -> Hearing
        ensures { KeepsRun new_run result }
    {
        Hearing {
            framer: Framer::new(),
            unheld: VecDeque::new(alloc),
            next: 0,
            freed: 0,
            allowed: 0,
        }
    }

    /// The port got characters.
    pub(crate) fn hear(&mut self, chars: &[Char]) -> Result<(), AllocError>
        ensures { IfOk result (λ _. (run : PortRun) → KeepsRun run self.old
            → KeepsRun (run_hears run chars.now) self.new) }
    {
        let mut left = chars;
        while !left.is_empty() {
            let (count, told) = self.framer.read_run(left);
            left = left.split_at(count).1;
            self.note(told)?;
        }
        Ok(())
    }

    /// Notes what the last characters told.
    fn note(&mut self, told: Told) -> Result<(), AllocError>
        requires { (symbol : Fields) → told ≡ Told.Ends symbol
            → IsSome self.old.framer.ended }
        ensures { IfOk result (λ _. (run : PortRun) → KeepsRun run self.old
            → KeepsRun (notes run (told_events told self.old.framer.ended)) self.new) }
    {
        match told {
            Told::Ctl(symbol) => self.allowed = raised_by(self.allowed, &symbol)?,
            Told::Ends(symbol) => {
                keep_packet(&mut self.unheld, self.next, &self.framer)?;
                self.allowed = raised_by(self.allowed, &symbol)?;
            }
            Told::Bad(_) | Told::Nothing => {}
        }
        Ok(())
    }

    /// The port holds a packet, if one came with the ackID whose turn it is.
    pub(crate) fn hold(&mut self, packet: &Packet) -> bool
        ensures may { (run : PortRun) → KeepsRun run self.old
            → IsTrue result ↔ MayHold run packet.now }
        ensures held { (run : PortRun) → KeepsRun run self.old → IsTrue result
            → KeepsRun (holds_one run packet.now) self.new }
    {
        let came = take_packet(&mut self.unheld, self.next, packet);
        if came {
            self.next = self.next.wrapping_add(1) % 32;
        }
        came
    }

    /// The ackID of the next packet to be held.
    pub(crate) fn next(&self) -> u8
        ensures { (run : PortRun) → KeepsRun run self.now → result ≡ run.next }
    {
        self.next
    }

    /// The first packet that came with this ackID behind the last one held.
    pub(crate) fn first(&self) -> Option<Packet>
        ensures { (run : PortRun) → KeepsRun run self.now
            → result ≡ first_with run.next run.unheld }
    {
        first_of(&self.unheld, self.next)
    }

    /// How many packets the port may free in all.
    pub(crate) fn allowed(&self) -> u64
        ensures { (run : PortRun) → KeepsRun run self.now → result ≡ run.allowed }
    {
        self.allowed
    }

    /// The port frees a packet, if it may.
    pub(crate) fn free(&mut self) -> bool
        ensures may { (run : PortRun) → KeepsRun run self.old → IsTrue result ↔ MayFree run }
        ensures freed { (run : PortRun) → KeepsRun run self.old → IsTrue result
            → KeepsRun (frees_one run) self.new }
    {
        if self.freed >= self.allowed {
            return false;
        }
        self.freed += 1;
        true
    }
}

/// The first packet that came with this ackID.
fn first_of(kept: &VecDeque<(u8, Packet)>, turn: u8) -> Option<Packet>
    ensures { result ≡ first_with turn kept.now.items }
{
    match kept.iter().find(|came| came.0 == turn) {
        Some((_, packet)) => Some(packet.copy()),
        None => None,
    }
}

/// Keeps the packet that the last character ended, if it can be held when this ackID has the turn.
fn keep_packet(
    kept: &mut VecDeque<(u8, Packet)>,
    turn: u8,
    framer: &Framer,
) -> Result<(), AllocError>
    requires { IsSome framer.now.ended }
    ensures kept { IfOk result (λ _. (came : List Come) → ServesHolds turn came kept.old.items
        → ServesHolds turn (came ++ packet_in framer.now.ended) kept.new.items) }
    ensures quiet { (event : AnEvent) → framer.now.ended ≡ Some event
        → (n : ℕ) → raised n event ≡ n }
{
    if let Ok((ack, form)) = framer.ended() {
        let packet = Packet::from_form(form);
        if is_needed(kept, turn, ack, &packet) {
            kept.push_back((ack, packet))?;
        }
    }
    Ok(())
}

/// Whether a packet that came behind those that are kept is to be kept too: unless the same one is
/// kept and behind it none with the ackID before, or no such one at all and it has not the turn.
fn is_needed(kept: &VecDeque<(u8, Packet)>, turn: u8, ack: u8, packet: &Packet) -> bool
    ensures { result ≡ false → IsSpare turn ack packet.now kept.now.items }
{
    let mut left = kept.len();
    while left > 0 {
        left -= 1;
        let (came, other) = &kept[left];
        if came.wrapping_add(1) % 32 == ack {
            return true;
        }
        if *came == ack && other == packet {
            return false;
        }
    }
    ack == turn
}

/// Takes away the packets up to the first that is this one with this ackID, and tells whether there
/// is one.
fn take_packet(kept: &mut VecDeque<(u8, Packet)>, turn: u8, packet: &Packet) -> bool
    ensures found { IsTrue result ↔ IsSome (behind_packet turn packet.now kept.old.items) }
    ensures taken { IsTrue result
        → behind_packet turn packet.now kept.old.items ≡ Some kept.new.items }
{
    while let Some((ack, came)) = kept.pop_front() {
        if ack == turn && came == *packet {
            return true;
        }
    }
    false
}

/// How many packets may be freed after a symbol. An acceptance of the packet whose turn it is
/// allows one more. A link-response allows all up to the next number that has its ackID modulo 32.
/// A count of 2^64 would take more characters than memory holds.
fn raised_by(allowed: u64, symbol: &Symbol) -> Result<u64, AllocError>
    ensures { IfOk result (λ count. count ≡ raised allowed (ACtl symbol.now)) }
{
    let next = allowed % 32;
    let more = match symbol.s0 {
        PACKET_ACCEPTED => u64::from(u64::from(symbol.p0) == next),
        LINK_RESPONSE => (u64::from(symbol.p0) + 32 - next) % 32,
        _ => 0,
    };
    match allowed.checked_add(more) {
        Some(raised) => Ok(raised),
        None => Err(AllocError),
    }
}
