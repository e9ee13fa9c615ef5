//! What the lines of a trace leave of a fabric, and which of its steps and signs may follow.

ghost use Rattle.std.specs.Prelude.{◌≡◌, ◌↔◌, [], false, unwrap_or, Bool, Some, IfOk, IsSomeAnd, IsTrue, MatchOption};
ghost use Rattle.std.specs.Option.{option_copied};
ghost use Rattle.fabric_model.specs.Network.{first_packet};
ghost use Rattle.fabric_model.specs.Steps.{Needs};
ghost use Rattle.fabric_trace.specs.Fold.{edit_of, says};
ghost use Rattle.trace_lines.specs.Lines.{Begun, Fired as AFired, Got as AGot, Sent as ASent, Signed, Stepped};
ghost use Rattle.trace_check.specs.Checks.{SendMayBe};
ghost use Rattle.trace_check.specs.Expecting.{OneIsLacked, wire_to};
ghost use Rattle.trace_check.specs.Lawful.{fault_number};
ghost use Rattle.trace_check.specs.Networks.{IsStepOf};
ghost use Rattle.trace_lines.specs.Reads.{step_read};
ghost use Rattle.trace_check.specs.Running.{KeepsRun};
ghost use Rattle.trace_check.specs.Starting.{IsBegun, net_of, nodes_of};
ghost use Rattle.trace_check.specs.States.{Checks, fault_of, ChecksFree, ChecksHold, IsEditIn, IsLeast, IsReachedState, ReachedState, SparesAt, unreached};
ghost use Rattle.trace_check.specs.Tables.{IsIn};
ghost use Rattle.trace_check.specs.Unmet.{IsUnmetNeed};

use crate::hearing::Hearing;
use crate::links::Links;
use crate::network::Network;
use crate::places::place_of;
use crate::queue::CharQueue;
use crate::unmet::Unmet;
use fabric_script::{Line, PortRef, SetUp};
use rio_chars::Char;
use rio_packets::Packet;
use std::alloc::{AllocError, Global};
use trace_lines::NetworkStep;

/// Why a line is not lawful, apart from its form.
#[derive(Clone, Copy)]
pub(crate) enum Fault {
    /// What was got does not stand on the wire; an edit is outside the wire; or a time-out fired
    /// and a wire of the link is not empty.
    OffWire,
    /// The step cannot be made.
    NoStep,
    /// A packet is held that has not come with its ackID.
    NotCome,
    /// More packets are freed than were accepted.
    NotAllowed,
    /// A packet is sent that the port does not have.
    NotThere,
}

/// The network, the characters that each port put on its wire, and what each port has got.
#[derive(Drop)]
pub(crate) struct State {
    links: Links,
    network: Network,
    wires: Vec<CharQueue>,
    hearings: Vec<Hearing>,
}

impl State {
    /// Before the first line.
    pub(crate) fn new(alloc: Global, set_up: &SetUp) -> Result<State, AllocError>
        requires { IsBegun set_up.now }
        ensures { IfOk result (λ state.
            IsReachedState (unreached (nodes_of set_up.now) (net_of set_up.now)) state) }
    {
        let links = Links::new(alloc, set_up)?;
        let network = Network::new(alloc, set_up)?;
        let mut wires = Vec::new(alloc);
        let mut hearings = Vec::new(alloc);
        for _ in 0..links.len() {
            wires.push(CharQueue::new(alloc))?;
            hearings.push(Hearing::new(alloc))?;
        }
        Ok(State {
            links,
            network,
            wires,
            hearings,
        })
    }

    /// An event line, which may edit a wire.
    pub(crate) fn edit(&mut self, line: &Line) -> Result<Option<Fault>, AllocError>
        ensures { IfOk result (λ fault. (r : ReachedState) → IsReachedState r self.old
            → IsEditIn r.nodes (edit_of line.now)
            → Checks r (Begun line.now) false self.new fault) }
    {
        let Some((port, edit)) = line.wire_edit() else {
            return Ok(None);
        };
        let place = place_of(port);
        if place >= self.wires.len() || !self.wires[place].edit(&edit)? {
            return Ok(Some(Fault::OffWire));
        }
        Ok(None)
    }

    /// A port puts characters on its wire.
    pub(crate) fn sent(
        &mut self,
        port: PortRef,
        chars: Vec<Char>,
    ) -> Result<Option<Fault>, AllocError>
        ensures { IfOk result (λ fault. (r : ReachedState) (short : Bool)
            → IsReachedState r self.old
            → IsIn r.nodes port
            → Checks r (Signed (ASent port chars.items)) short self.new fault) }
    {
        let place = place_of(port);
        let more = chars.as_slice();
        if place >= self.wires.len() || !self.network.may_send(port, more) {
            return Ok(Some(Fault::NotThere));
        }
        self.wires[place].put(more)?;
        Ok(None)
    }

    /// A port takes characters from the front of its peer's wire.
    pub(crate) fn got(&mut self, port: PortRef, chars: &[Char]) -> Result<Option<Fault>, AllocError>
        ensures { IfOk result (λ fault. (r : ReachedState) (short : Bool)
            → IsReachedState r self.old
            → IsIn r.nodes port → Checks r (Signed (AGot port chars.now)) short self.new fault) }
    {
        let Some(peer) = self.links.peer(port) else {
            return Ok(Some(Fault::OffWire));
        };
        let from = place_of(peer);
        let to = place_of(port);
        if from >= self.wires.len() || to >= self.hearings.len() {
            return Ok(Some(Fault::OffWire));
        }
        if !self.wires[from].take_front(chars) {
            return Ok(Some(Fault::OffWire));
        }
        self.hearings[to].hear(chars)?;
        Ok(None)
    }

    /// The time-out of a port fires: nothing is on its way on its link.
    pub(crate) fn fired(&self, port: PortRef) -> Option<Fault>
        ensures { (r : ReachedState) (short : Bool) → IsReachedState r self.now → IsIn r.nodes port
            → IsLeast (SparesAt r (Signed (AFired port)) short) result }
    {
        match self.links.peer(port) {
            Some(peer) if self.is_empty(port) && self.is_empty(peer) => None,
            _ => Some(Fault::OffWire),
        }
    }

    /// The wire of a port.
    pub(crate) fn wire(&self, port: PortRef) -> Option<&CharQueue>
        ensures { (r : ReachedState) → IsReachedState r self.now → IsIn r.nodes port
            → option_copied result ≡ Some (r.wires port) }
    {
        self.wires.get(place_of(port))
    }

    /// The wire to a port.
    pub(crate) fn wire_to(&self, port: PortRef) -> Option<&CharQueue>
        ensures { (r : ReachedState) → IsReachedState r self.now → IsIn r.nodes port
            → unwrap_or (option_copied result) [] ≡ wire_to r port }
    {
        match self.links.peer(port) {
            Some(peer) => self.wire(peer),
            None => None,
        }
    }

    /// What a port has got.
    pub(crate) fn hearing(&self, port: PortRef) -> Option<&Hearing>
        ensures { (r : ReachedState) → IsReachedState r self.now → IsIn r.nodes port
            → IsSomeAnd (option_copied result) (KeepsRun (r.runs port)) }
    {
        self.hearings.get(place_of(port))
    }

    /// The priority of a packet in characters that a port does not have to send, and the first
    /// packet of this priority that waits there.
    pub(crate) fn lacking(&self, port: PortRef, chars: &[Char]) -> Option<(u8, Option<Packet>)>
        ensures { (r : ReachedState) → IsReachedState r self.now → IsIn r.nodes port
            → MatchOption result (SendMayBe r.net (Signed (ASent port chars.now)))
            (λ found. OneIsLacked r.net port found.0 (says chars.now)
            × (found.1 ≡ first_packet (r.net.waiting port found.0))) }
    {
        self.network.lacking(port, chars)
    }

    /// The first need of a step that is not met.
    pub(crate) fn unmet(&self, step: &NetworkStep) -> Option<Unmet>
        ensures { (r : ReachedState) → IsReachedState r self.now
            → IsStepOf r.nodes (step_read step.now)
            → MatchOption result (Needs r.net (step_read step.now))
            (IsUnmetNeed r.net (step_read step.now)) }
    {
        self.network.unmet(step, &self.links)
    }

    /// Whether no character is on the wire of a port.
    fn is_empty(&self, port: PortRef) -> bool
        ensures { (r : ReachedState) → IsReachedState r self.now → IsIn r.nodes port
            → IsTrue result ↔ (r.wires port ≡ []) }
    {
        let place = place_of(port);
        place < self.wires.len() && self.wires[place].is_empty()
    }

    /// A step is made.
    pub(crate) fn step(&mut self, step: &NetworkStep) -> Result<Option<Fault>, AllocError>
        ensures { IfOk result (λ fault. (r : ReachedState) (short : Bool)
            → IsReachedState r self.old
            → IsStepOf r.nodes (step_read step.now)
            → Checks r (Stepped (step_read step.now)) short self.new fault) }
    {
        if !self.network.make(step, &self.links)? {
            return Ok(Some(Fault::NoStep));
        }
        match step {
            NetworkStep::Hold(port, packet) => {
                let came = self.has_come(*port, packet);
                Ok(if came { None } else { Some(Fault::NotCome) })
            }
            NetworkStep::Free(port, _) => {
                let allowed = self.is_allowed(*port);
                Ok(if allowed {
                    None
                } else {
                    Some(Fault::NotAllowed)
                })
            }
            NetworkStep::Take(..) => Ok(None),
            NetworkStep::Leave(..) => Ok(None),
            NetworkStep::Move(..) => Ok(None),
            NetworkStep::Drop(..) => Ok(None),
            NetworkStep::Answer(..) => Ok(None),
        }
    }

    /// Whether a packet that a port holds has come to it.
    fn has_come(&mut self, port: PortRef, packet: &Packet) -> bool
        ensures { (r : ReachedState) → IsReachedState r self.old → IsIn r.nodes port
            → ChecksHold r port packet.now self.new result }
    {
        let place = place_of(port);
        place < self.hearings.len() && self.hearings[place].hold(packet)
    }

    /// Whether a port may free one more packet.
    fn is_allowed(&mut self, port: PortRef) -> bool
        ensures { (r : ReachedState) → IsReachedState r self.old → IsIn r.nodes port
            → ChecksFree r port self.new result }
    {
        let place = place_of(port);
        place < self.hearings.len() && self.hearings[place].free()
    }
}

impl Fault {
    /// The number of the reason.
    pub(crate) fn number(self) -> u8
        ensures { result ≡ fault_number (fault_of self) }
    {
        match self {
            Fault::OffWire => 22,
            Fault::NoStep => 23,
            Fault::NotCome => 24,
            Fault::NotAllowed => 25,
            Fault::NotThere => 26,
        }
    }
}
