//! What a step needs and the plain network does not have.

ghost use Rattle.std.specs.Prelude.{◌≡◌, ◌<◌, ◌↔◌, ℕ, true, false, Some, IsTrue, MatchOption, slice_get};
ghost use Rattle.rio_packets.specs.Fields.{prio_of};
ghost use Rattle.fabric_model.specs.Network.{first_packet, Network as ANetwork, room_in, room_out};
ghost use Rattle.fabric_model.specs.Steps.{Answer, AtNode, ByDevice, Drop as ADrop, Free, Hold, IsFirst, Leave, Linked, Move, Needs, Take};
ghost use Rattle.rio_packets.specs.LinkForm.{Passes};
ghost use Rattle.trace_lines.specs.Reads.{step_read};
ghost use Rattle.trace_check.specs.Networks.{AreKeptLinks, IsNetwork, IsStepOf};
ghost use Rattle.trace_check.specs.Tables.{IsIn};
ghost use Rattle.trace_check.specs.Unmet.{first_at_peer, IsBehind, IsFew, IsFull, IsUnmetNeed};

use crate::links::Links;
use crate::network::Network;
use crate::places::place_of;
use fabric_script::PortRef;
use maint_packets::{Next, read_request};
use rio_packets::Packet;
use std::collections::VecDeque;
use trace_lines::NetworkStep;

/// The first need of a step that is not met.
#[derive(Debug, Drop)]
pub enum Unmet {
    /// Receive buffers: so many of so many are free, and a packet of this priority needs so many.
    Buffers {
        free: usize,
        all: u8,
        prio: u8,
        needed: u8,
    },
    /// The packet is to be the first of this priority that waits at the peer, which is this one, if
    /// one waits.
    Waiting {
        prio: u8,
        first: Option<Packet>,
    },
    /// The packet is to be the first that the port has lent: that the peer held and the port did
    /// not free. It is this one, if there is one.
    Lent(Option<Packet>),
    /// The packet is to be the first of this priority that the port holds, which is this one, if it
    /// holds one.
    Held {
        prio: u8,
        first: Option<Packet>,
    },
    /// A place to send a packet of this priority from: 16 packets of it are there already.
    Place(u8),
    /// The node is to be an endpoint.
    Endpoint,
    /// The packet is to be no request, since requests are for the registers of the endpoint.
    NoRequest,
    /// The packet is to be a request.
    Request,
    /// The switch is to send the packet so, and sends it this way. A node that is no switch sends
    /// it no way.
    Way(Option<Next>),
    /// The registers are to answer with this response, and answer with another.
    Response,
}

impl Network {
    /// The first need of a step that is not met.
    pub(crate) fn unmet(&self, step: &NetworkStep, links: &Links) -> Option<Unmet>
        ensures { (nodes : ℕ) (net : ANetwork) → IsNetwork nodes net self.now
            → AreKeptLinks nodes net.links links.now → IsStepOf nodes (step_read step.now)
            → MatchOption result (Needs net (step_read step.now))
            (IsUnmetNeed net (step_read step.now)) }
    {
        match step {
            NetworkStep::Hold(port, packet) => self.unmet_hold(*port, packet, links),
            NetworkStep::Free(port, packet) => self.unmet_free(*port, packet),
            NetworkStep::Take(node, packet) => self.unmet_take(*node, packet),
            NetworkStep::Leave(node, packet) => self.unmet_leave(*node, packet),
            NetworkStep::Move(from, to, packet) => self.unmet_move(*from, *to, packet),
            NetworkStep::Drop(port, packet) => self.unmet_drop(*port, packet),
            NetworkStep::Answer(port, packet, response) => {
                self.unmet_answer(*port, packet, response)
            }
        }
    }

    /// The same, where a port holds a packet.
    fn unmet_hold(&self, port: PortRef, packet: &Packet, links: &Links) -> Option<Unmet>
        ensures { (nodes : ℕ) (net : ANetwork) → IsNetwork nodes net self.now
            → AreKeptLinks nodes net.links links.now → IsIn nodes port
            → MatchOption result (Needs net (Linked (Hold port packet.now)))
            (IsUnmetNeed net (Linked (Hold port packet.now))) }
    {
        let prio = packet.prio();
        if let Some(few) = self.unmet_buffers(port, prio) {
            return Some(few);
        }
        let first = self.first_at_peer(port, prio, links);
        if is_first(&first, packet) {
            None
        } else {
            Some(Unmet::Waiting { prio, first })
        }
    }

    /// The receive buffers that a packet of a priority lacks at a port.
    fn unmet_buffers(&self, port: PortRef, prio: u8) -> Option<Unmet>
        requires { prio < 4 }
        ensures { (nodes : ℕ) (net : ANetwork) → IsNetwork nodes net self.now → IsIn nodes port
            → MatchOption result (room_in net port prio ≡ true) (IsFew net port prio) }
    {
        let place = place_of(port);
        if place >= self.buffers.len() || place >= self.received.len() {
            return None;
        }
        let all = self.buffers[place];
        let free = self.received[place].free_of(usize::from(all));
        let needed = 4 - prio;
        if free >= usize::from(needed) {
            return None;
        }
        Some(Unmet::Buffers {
            free,
            all,
            prio,
            needed,
        })
    }

    /// The first packet of a priority that waits at the peer of a port.
    fn first_at_peer(&self, port: PortRef, prio: u8, links: &Links) -> Option<Packet>
        requires { prio < 4 }
        ensures { (nodes : ℕ) (net : ANetwork) → IsNetwork nodes net self.now
            → AreKeptLinks nodes net.links links.now → IsIn nodes port
            → result ≡ first_at_peer net port prio }
    {
        match links.peer(port) {
            Some(peer) => self.first_waiting(peer, prio),
            None => None,
        }
    }

    /// The first packet of a priority that waits at a port.
    fn first_waiting(&self, port: PortRef, prio: u8) -> Option<Packet>
        requires { prio < 4 }
        ensures { (nodes : ℕ) (net : ANetwork) → IsNetwork nodes net self.now → IsIn nodes port
            → result ≡ first_packet (net.waiting port prio) }
    {
        let place = place_of(port);
        if place < self.waiting.len() {
            self.waiting[place].first(prio)
        } else {
            None
        }
    }

    /// The first need that is not met, where a port frees a packet.
    fn unmet_free(&self, port: PortRef, packet: &Packet) -> Option<Unmet>
        ensures { (nodes : ℕ) (net : ANetwork) → IsNetwork nodes net self.now → IsIn nodes port
            → MatchOption result (Needs net (Linked (Free port packet.now)))
            (IsUnmetNeed net (Linked (Free port packet.now))) }
    {
        let first = self.first_lent(port);
        if is_first(&first, packet) {
            None
        } else {
            Some(Unmet::Lent(first))
        }
    }

    /// The first packet that a port has lent.
    fn first_lent(&self, port: PortRef) -> Option<Packet>
        ensures { (nodes : ℕ) (net : ANetwork) → IsNetwork nodes net self.now → IsIn nodes port
            → result ≡ first_packet (net.lent port) }
    {
        let place = place_of(port);
        if place < self.lent.len() {
            first_of(&self.lent[place])
        } else {
            None
        }
    }

    /// The first need that is not met, where an endpoint takes a packet.
    fn unmet_take(&self, node: u8, packet: &Packet) -> Option<Unmet>
        ensures { (nodes : ℕ) (net : ANetwork) → IsNetwork nodes net self.now → node < nodes
            → Passes packet.now
            → MatchOption result (Needs net (AtNode (Take node packet.now)))
            (IsUnmetNeed net (AtNode (Take node packet.now))) }
    {
        if self.is_switch(node) != Some(false) {
            return Some(Unmet::Endpoint);
        }
        let prio = packet.prio();
        if self.has_room_out(PortRef { node, port: 0 }, prio) {
            None
        } else {
            Some(Unmet::Place(prio))
        }
    }

    /// The same, where a packet leaves at an endpoint.
    fn unmet_leave(&self, node: u8, packet: &Packet) -> Option<Unmet>
        ensures { (nodes : ℕ) (net : ANetwork) → IsNetwork nodes net self.now → node < nodes
            → MatchOption result (Needs net (AtNode (Leave node packet.now)))
            (IsUnmetNeed net (AtNode (Leave node packet.now))) }
    {
        if self.is_switch(node) != Some(false) {
            return Some(Unmet::Endpoint);
        }
        if read_request(packet).is_some() {
            return Some(Unmet::NoRequest);
        }
        self.unmet_held(PortRef { node, port: 0 }, packet)
    }

    /// A packet is to be the first of its priority that a port holds.
    fn unmet_held(&self, port: PortRef, packet: &Packet) -> Option<Unmet>
        ensures { (nodes : ℕ) (net : ANetwork) → IsNetwork nodes net self.now → IsIn nodes port
            → MatchOption result (IsFirst net port packet.now) (IsBehind net port packet.now) }
    {
        let prio = packet.prio();
        let first = self.first_held(port, prio);
        if is_first(&first, packet) {
            None
        } else {
            Some(Unmet::Held { prio, first })
        }
    }

    /// The first packet of a priority that a port holds.
    fn first_held(&self, port: PortRef, prio: u8) -> Option<Packet>
        requires { prio < 4 }
        ensures { (nodes : ℕ) (net : ANetwork) → IsNetwork nodes net self.now → IsIn nodes port
            → result ≡ first_packet (net.received port prio) }
    {
        let place = place_of(port);
        if place < self.received.len() {
            self.received[place].first(prio)
        } else {
            None
        }
    }

    /// The first need that is not met, where a switch moves a packet.
    fn unmet_move(&self, from: PortRef, to: PortRef, packet: &Packet) -> Option<Unmet>
        ensures { (nodes : ℕ) (net : ANetwork) → IsNetwork nodes net self.now
            → IsIn nodes from → IsIn nodes to
            → MatchOption result (Needs net (ByDevice (Move from to packet.now)))
            (IsUnmetNeed net (ByDevice (Move from to packet.now))) }
    {
        let way = self.next_at(from.node, packet);
        if from.node != to.node {
            return Some(Unmet::Way(way));
        }
        if way != Some(Next::Port(to.port)) {
            return Some(Unmet::Way(way));
        }
        if let Some(unmet) = self.unmet_held(from, packet) {
            return Some(unmet);
        }
        self.unmet_place(to, packet)
    }

    /// A place to send a packet from, if a port has none for its priority.
    fn unmet_place(&self, port: PortRef, packet: &Packet) -> Option<Unmet>
        ensures { (nodes : ℕ) (net : ANetwork) → IsNetwork nodes net self.now → IsIn nodes port
            → MatchOption result (room_out net port (prio_of packet.now) ≡ true)
            (IsFull net port packet.now) }
    {
        let prio = packet.prio();
        if self.has_room_out(port, prio) {
            None
        } else {
            Some(Unmet::Place(prio))
        }
    }

    /// The first need that is not met, where a switch drops a packet.
    fn unmet_drop(&self, port: PortRef, packet: &Packet) -> Option<Unmet>
        ensures { (nodes : ℕ) (net : ANetwork) → IsNetwork nodes net self.now → IsIn nodes port
            → MatchOption result (Needs net (ByDevice (ADrop port packet.now)))
            (IsUnmetNeed net (ByDevice (ADrop port packet.now))) }
    {
        let way = self.next_at(port.node, packet);
        if way != Some(Next::Nowhere) {
            return Some(Unmet::Way(way));
        }
        self.unmet_held(port, packet)
    }

    /// The same, where registers answer a packet.
    fn unmet_answer(&self, port: PortRef, packet: &Packet, response: &Packet) -> Option<Unmet>
        ensures { (nodes : ℕ) (net : ANetwork) → IsNetwork nodes net self.now → IsIn nodes port
            → MatchOption result
            (Needs net (ByDevice (Answer port packet.now response.now)))
            (IsUnmetNeed net (ByDevice (Answer port packet.now response.now))) }
    {
        if !self.is_for_registers(port, packet) {
            return Some(Unmet::Way(self.next_at(port.node, packet)));
        }
        if let Some(unmet) = self.unmet_held(port, packet) {
            return Some(unmet);
        }
        if read_request(packet).is_none() {
            return Some(Unmet::Request);
        }
        if let Some(unmet) = self.unmet_place(port, response) {
            return Some(unmet);
        }
        Some(Unmet::Response)
    }
}

/// Whether a packet is the first.
fn is_first(first: &Option<Packet>, packet: &Packet) -> bool
    ensures { IsTrue result ↔ (first.now ≡ Some packet.now) }
{
    match first {
        Some(first) => first == packet,
        None => false,
    }
}

/// The first of packets.
fn first_of(packets: &VecDeque<Packet>) -> Option<Packet>
    ensures { result ≡ slice_get packets.now.items 0 }
{
    match packets.front() {
        Some(packet) => Some(packet.copy()),
        None => None,
    }
}
