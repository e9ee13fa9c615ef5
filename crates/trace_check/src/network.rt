//! The plain network: the queues of all ports, and the registers of all nodes.

ghost use Rattle.std.specs.Prelude.{◌≡◌, ◌↔◌, ◌==◌, ℕ, ◌<◌, count_by, drop, slice_get, false, List, [], ◌∷◌, Some, IfOk, IfSome, IsTrue};
ghost use Rattle.rio_packets.specs.Fields.{prio_of};
ghost use Rattle.rio_packets.specs.LinkForm.{Passes};
ghost use Rattle.fabric_model.specs.Network.{Item, Network as ANetwork, room_in, room_out, switch_at};
ghost use Rattle.fabric_model.specs.Steps.{Answer, AtNode, ByDevice, Drop as ADrop, Free, Hold, IsFirst, IsForRegisters, Leave, Linked, Move, Take, with_waiting, without_first};
ghost use Rattle.fabric_trace.specs.Views.{packets_in};
ghost use Rattle.fabric_model.specs.Serving.{next_at, response_at};
ghost use Rattle.trace_check.specs.Networks.{AreKeptLinks, IsNetwork, IsStepOf, MakesIt, WaitsFirst, with_answered, with_lending, with_received, without_waiting};
ghost use Rattle.trace_lines.specs.Reads.{step_read};
ghost use Rattle.trace_check.specs.Tables.{IsIn};
ghost use Rattle.maint_packets.specs.NextHops.{is_at_end};

use crate::lanes::Lanes;
use crate::links::Links;
use crate::places::place_of;
use fabric_script::PortRef;
use maint_packets::{Next, answer, move_on, next_of, read_request, write_response};
use maint_registers::Registers;
use rio_packets::Packet;
use std::alloc::AllocError;
use std::collections::VecDeque;
use trace_lines::NetworkStep;

/// How many packets of a priority a port may have to be sent, those that are lent among them.
const PLACES: usize = 16;

/// What each port has, at its place: its receive buffers, the packets that it received, those that
/// wait, and those that it lent; and the registers of the nodes.
#[derive(Drop)]
pub(crate) struct Network {
    pub(crate) buffers: Vec<u8>,
    pub(crate) received: Vec<Lanes>,
    pub(crate) waiting: Vec<Lanes>,
    pub(crate) lent: Vec<VecDeque<Packet>>,
    pub(crate) registers: Vec<Registers>,
}

impl Network {
    /// Whether a node is a switch; None if there is no such node.
    pub(crate) fn is_switch(&self, node: u8) -> Option<bool>
        ensures { (nodes : ℕ) (net : ANetwork) → IsNetwork nodes net self.now
            → result ≡ switch_at net node }
    {
        match self.registers.get(usize::from(node)) {
            Some(registers) => Some(registers.is_switch()),
            None => None,
        }
    }

    /// Makes a step, and tells whether it can be made. If it cannot, the network is of no use
    /// any more.
    pub(crate) fn make(&mut self, step: &NetworkStep, links: &Links) -> Result<bool, AllocError>
        ensures { IfOk result (λ made. (nodes : ℕ) (net : ANetwork) → IsNetwork nodes net self.old
            → AreKeptLinks nodes net.links links.now → IsStepOf nodes (step_read step.now)
            → MakesIt nodes net (step_read step.now) self.new made) }
    {
        match step {
            NetworkStep::Hold(port, packet) => self.hold(*port, packet, links),
            NetworkStep::Free(port, packet) => Ok(self.free(*port, packet)),
            NetworkStep::Take(node, packet) => self.take(*node, packet),
            NetworkStep::Leave(node, packet) => Ok(self.leave(*node, packet)),
            NetworkStep::Move(from, to, packet) => self.move_to(*from, *to, packet),
            NetworkStep::Drop(port, packet) => Ok(self.drop_at(*port, packet)),
            NetworkStep::Answer(port, packet, response) => self.answer(*port, packet, response),
        }
    }

    /// A port holds the first packet of its priority that waits at the peer.
    fn hold(&mut self, port: PortRef, packet: &Packet, links: &Links) -> Result<bool, AllocError>
        ensures { IfOk result (λ made. (nodes : ℕ) (net : ANetwork) → IsNetwork nodes net self.old
            → AreKeptLinks nodes net.links links.now → IsIn nodes port
            → MakesIt nodes net (Linked (Hold port packet.now)) self.new made) }
    {
        let Some(peer) = links.peer(port) else {
            return Ok(false);
        };
        if !self.has_room_in(port, packet.prio()) || !self.take_waiting(peer, packet) {
            return Ok(false);
        }
        self.lend(peer, packet)?;
        self.receive(port, packet)?;
        Ok(true)
    }

    /// Whether a packet of this priority may be received: more buffers are free than there are
    /// higher priorities.
    fn has_room_in(&self, port: PortRef, prio: u8) -> bool
        requires { prio < 4 }
        ensures { (nodes : ℕ) (net : ANetwork) → IsNetwork nodes net self.now → IsIn nodes port
            → result ≡ room_in net port prio }
    {
        let place = place_of(port);
        if place >= self.buffers.len() || place >= self.received.len() {
            return false;
        }
        let free = usize::from(self.buffers[place]);
        self.received[place].free_of(free) > usize::from(3 - prio)
    }

    /// Takes a packet away that is the first of its priority that waits at a port.
    fn take_waiting(&mut self, port: PortRef, packet: &Packet) -> bool
        ensures { (nodes : ℕ) (net : ANetwork) → IsNetwork nodes net self.old → IsIn nodes port
            → (IsTrue result ↔ WaitsFirst net port packet.now)
            × (IsTrue result → IsNetwork nodes (without_waiting net port (prio_of packet.now))
            self.new) }
    {
        let place = place_of(port);
        place < self.waiting.len() && self.waiting[place].take_first(packet)
    }

    /// A port has lent a packet.
    fn lend(&mut self, port: PortRef, packet: &Packet) -> Result<(), AllocError>
        ensures { IfOk result (λ _. (nodes : ℕ) (net : ANetwork) (items : List Item)
            → IsNetwork nodes net self.old → IsIn nodes port
            → packets_in items ≡ packet.now ∷ []
            → IsNetwork nodes (with_lending net port items) self.new) }
    {
        let place = place_of(port);
        if place < self.lent.len() {
            self.lent[place].push_back(packet.copy())?;
        }
        Ok(())
    }

    /// A port has received a packet.
    fn receive(&mut self, port: PortRef, packet: &Packet) -> Result<(), AllocError>
        ensures { IfOk result (λ _. (nodes : ℕ) (net : ANetwork) (items : List Item)
            → IsNetwork nodes net self.old → IsIn nodes port
            → packets_in items ≡ packet.now ∷ []
            → IsNetwork nodes (with_received net port (prio_of packet.now) items) self.new) }
    {
        let place = place_of(port);
        if place < self.received.len() {
            self.received[place].push(packet.copy())?;
        }
        Ok(())
    }

    /// A port frees the first packet that the next hop holds.
    fn free(&mut self, port: PortRef, packet: &Packet) -> bool
        ensures { (nodes : ℕ) (net : ANetwork) → IsNetwork nodes net self.old → IsIn nodes port
            → MakesIt nodes net (Linked (Free port packet.now)) self.new result }
    {
        let place = place_of(port);
        place < self.lent.len() && take_lent(&mut self.lent[place], packet)
    }

    /// An endpoint takes a packet, if there is room to send it.
    fn take(&mut self, node: u8, packet: &Packet) -> Result<bool, AllocError>
        ensures { IfOk result (λ made. (nodes : ℕ) (net : ANetwork) → IsNetwork nodes net self.old
            → node < nodes → Passes packet.now
            → MakesIt nodes net (AtNode (Take node packet.now)) self.new made) }
    {
        if self.is_switch(node) != Some(false) {
            return Ok(false);
        }
        self.put_out(PortRef { node, port: 0 }, packet.copy())
    }

    /// A packet is put at the end of those that wait at a port, if there is room to send it.
    fn put_out(&mut self, port: PortRef, packet: Packet) -> Result<bool, AllocError>
        ensures { IfOk result (λ put. (nodes : ℕ) (net : ANetwork) (items : List Item)
            → IsNetwork nodes net self.old → IsIn nodes port → packets_in items ≡ packet ∷ []
            → (put ≡ room_out net port (prio_of packet))
            × (IsTrue put → IsNetwork nodes (with_waiting net port (prio_of packet) items)
            self.new)) }
    {
        let place = place_of(port);
        if place >= self.waiting.len() || !self.has_room_out(port, packet.prio()) {
            return Ok(false);
        }
        self.waiting[place].push(packet)?;
        Ok(true)
    }

    /// Whether one more packet of this priority may stand to be sent.
    pub(crate) fn has_room_out(&self, port: PortRef, prio: u8) -> bool
        requires { prio < 4 }
        ensures { (nodes : ℕ) (net : ANetwork) → IsNetwork nodes net self.now → IsIn nodes port
            → result ≡ room_out net port prio }
    {
        let place = place_of(port);
        if place >= self.waiting.len() || place >= self.lent.len() {
            return false;
        }
        let room = PLACES.saturating_sub(self.waiting[place].count(prio));
        count_of(&self.lent[place], prio) < room
    }

    /// Takes a packet away that is the first of its priority that a port has received.
    fn take_first(&mut self, port: PortRef, packet: &Packet) -> bool
        ensures { (nodes : ℕ) (net : ANetwork) → IsNetwork nodes net self.old → IsIn nodes port
            → (IsTrue result ↔ IsFirst net port packet.now)
            × (IsTrue result → IsNetwork nodes (without_first net port (prio_of packet.now))
            self.new) }
    {
        let place = place_of(port);
        place < self.received.len() && self.received[place].take_first(packet)
    }

    /// A packet leaves at an endpoint. Requests are for its registers.
    fn leave(&mut self, node: u8, packet: &Packet) -> bool
        ensures { (nodes : ℕ) (net : ANetwork) → IsNetwork nodes net self.old → node < nodes
            → MakesIt nodes net (AtNode (Leave node packet.now)) self.new result }
    {
        if self.is_switch(node) != Some(false) {
            return false;
        }
        if read_request(packet).is_some() {
            return false;
        }
        self.take_first(PortRef { node, port: 0 }, packet)
    }

    /// Where a switch sends a packet, if the node is one.
    pub(crate) fn next_at(&self, node: u8, packet: &Packet) -> Option<Next>
        ensures value { (nodes : ℕ) (net : ANetwork) → IsNetwork nodes net self.now
            → result ≡ next_at net node packet.now }
        ensures hops_left { (port : ℕ) → result ≡ Some (Next.Port port)
            → is_at_end packet.now ≡ false }
    {
        match self.registers.get(usize::from(node)) {
            Some(registers) if registers.is_switch() => Some(next_of(registers, packet)),
            _ => None,
        }
    }

    /// A switch moves a packet to the port to which it sends it.
    fn move_to(&mut self, from: PortRef, to: PortRef, packet: &Packet) -> Result<bool, AllocError>
        ensures { IfOk result (λ made. (nodes : ℕ) (net : ANetwork) → IsNetwork nodes net self.old
            → IsIn nodes from → IsIn nodes to
            → MakesIt nodes net (ByDevice (Move from to packet.now)) self.new made) }
    {
        let Some(Next::Port(port)) = self.next_at(from.node, packet) else {
            return Ok(false);
        };
        if from.node != to.node || port != to.port {
            return Ok(false);
        }
        if !self.take_first(from, packet) {
            return Ok(false);
        }
        let mut moved = packet.copy();
        move_on(&mut moved);
        self.put_out(to, moved)
    }

    /// A switch drops a packet that it sends nowhere.
    fn drop_at(&mut self, port: PortRef, packet: &Packet) -> bool
        ensures { (nodes : ℕ) (net : ANetwork) → IsNetwork nodes net self.old → IsIn nodes port
            → MakesIt nodes net (ByDevice (ADrop port packet.now)) self.new result }
    {
        self.next_at(port.node, packet) == Some(Next::Nowhere) && self.take_first(port, packet)
    }

    /// The registers of a node answer a request with a response.
    fn answer(
        &mut self,
        port: PortRef,
        packet: &Packet,
        response: &Packet,
    ) -> Result<bool, AllocError>
        ensures { IfOk result (λ made. (nodes : ℕ) (net : ANetwork) → IsNetwork nodes net self.old
            → IsIn nodes port
            → MakesIt nodes net (ByDevice (Answer port packet.now response.now)) self.new made) }
    {
        if !self.is_for_registers(port, packet) {
            return Ok(false);
        }
        if !self.take_first(port, packet) {
            return Ok(false);
        }
        match self.respond(port, packet) {
            Some(answered) if answered == *response => self.put_out(port, answered),
            _ => Ok(false),
        }
    }

    /// Whether the registers of a packet's node answer it: those of an endpoint, or of a switch
    /// that sends it to them.
    pub(crate) fn is_for_registers(&self, port: PortRef, packet: &Packet) -> bool
        ensures { (nodes : ℕ) (net : ANetwork) → IsNetwork nodes net self.now
            → IsTrue result ↔ IsForRegisters net port packet.now }
    {
        self.is_switch(port.node) == Some(false)
            || self.next_at(port.node, packet) == Some(Next::RegisterUnit)
    }

    /// What the registers of a node answer to a packet, if it is a request.
    fn respond(&mut self, port: PortRef, packet: &Packet) -> Option<Packet>
        ensures value { (nodes : ℕ) (net : ANetwork) → IsNetwork nodes net self.old
            → result ≡ response_at net port packet.now }
        ensures registers { (nodes : ℕ) (net : ANetwork) → IsNetwork nodes net self.old
            → IsNetwork nodes (with_answered net port packet.now) self.new }
        ensures form { IfSome result Passes }
    {
        let request = read_request(packet)?;
        let node = usize::from(port.node);
        if node >= self.registers.len() {
            return None;
        }
        let answered = answer(&mut self.registers[node], &request, port.port);
        Some(write_response(&answered))
    }
}

/// How many of the packets have a priority.
fn count_of(packets: &VecDeque<Packet>, prio: u8) -> usize
    ensures { result ≡ count_by (λ packet. prio_of packet == prio) packets.now.items }
{
    packets
        .iter()
        .filter(|packet| packet.prio() == prio)
        .count()
}

/// Takes a packet away that is the first that was lent, and tells whether it is.
fn take_lent(lent: &mut VecDeque<Packet>, packet: &Packet) -> bool
    ensures first { IsTrue result ↔ (slice_get lent.old.items 0 ≡ Some packet.now) }
    ensures taken { lent.new.items ≡ drop 1 lent.old.items }
{
    match lent.pop_front() {
        Some(first) => first == *packet,
        None => false,
    }
}
