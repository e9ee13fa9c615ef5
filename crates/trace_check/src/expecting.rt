//! What would have been lawful at a line of a trace that is not.

ghost use Rattle.std.specs.Prelude.{◌≡◌, ◌+◌, ◌≤◌, ℕ, Bool, List, length, false, true, IfOk, IfSome, IsSome, IsSomeAnd, MatchOption};
ghost use Rattle.fabric_script.specs.SetUps.{KnownIsReady};
ghost use Rattle.fabric_trace.specs.Fold.{edit_of};
ghost use Rattle.trace_lines.specs.Lines.{Begun, Fired as AFired, Got as AGot, Sent as ASent, Signed, Stepped, TraceLine as ALine};
ghost use Rattle.fabric_model.specs.Steps.{Free, Hold, Linked};
ghost use Rattle.rio_chars.specs.declared.chars.Char.{Char as AChar};
ghost use Rattle.trace_check.specs.Checks.{SendMayBe};
ghost use Rattle.trace_check.specs.Expecting.{HasExpected, IsExplained, IsSo, IsToBeTold, TellsLine};
ghost use Rattle.script_input.specs.Inputs.{texts_of};
ghost use Rattle.trace_check.specs.Lawful.{Fault, fault_number};
ghost use Rattle.trace_check.specs.Outcomes.{HasUnlawful};
ghost use Rattle.trace_lines.specs.Reads.{line_read, step_read};
ghost use Rattle.trace_check.specs.Starting.{IsBegun, net_of, nodes_of};
ghost use Rattle.trace_check.specs.States.{IsEditIn, IsLineIn, IsReachedState, ReachedState, SparesAt};
ghost use Rattle.trace_check.specs.Networks.{IsStepOf};
ghost use Rattle.trace_check.specs.Tables.{IsIn};
ghost use Rattle.trace_check.specs.Verdicts.{ExpectedAt, StopsAt};
ghost use Rattle.trace_lines.specs.Words.{SpellsLine};

use crate::reader::Reader;
use crate::reading::{Verdict, read_lines};
use crate::state::State;
use crate::unmet::Unmet;
use arrayvec::ArrayVec;
use fabric_script::{Line, PortRef, ScriptEnd, SetUp, read_set_up};
use rio_chars::Char;
use rio_packets::Packet;
use script_input::split_input;
use std::alloc::{AllocError, Global};
use trace_lines::{NetworkStep, TraceLine, TraceLineEnd, read_trace_line};

/// What would have been lawful at a line, as far as one sentence can say it.
#[derive(Debug, Drop)]
pub enum Expected {
    /// The next characters of the wire to the port: eight, or all if there are fewer.
    Front(ArrayVec<Char, 8>),
    /// How many characters are on the wire that the edit names.
    OnWire(usize),
    /// How many characters are on the wire of the port whose time-out fired, or, if none is, on the
    /// wire to it.
    OnLink(usize),
    /// The ackID of the next packet that the port holds, and the first packet that came with it
    /// behind the one held before, if one did.
    Came(u8, Option<Packet>),
    /// How many packets the port may free in all.
    Freed(u64),
    /// The priority of a packet that is sent and that the port does not have, and the first packet
    /// of this priority that waits there, if one does.
    Waiting(u8, Option<Packet>),
    /// The first need of the step that is not met.
    Needed(Unmet),
}

/// What would have been lawful at a line of a trace that is not lawful there. The bytes are those
/// that `check_trace` takes, and the line is the one that it tells, counted from 1. There is an
/// answer for each line that it tells with a reason of 22 to 26, and none for a line that is lawful
/// or stands behind one that is not.
pub fn expect(alloc: Global, bytes: &[u8], line: u32) -> Result<Option<Expected>, AllocError>
    requires { length bytes.now ≤ 16777216 }
    // What is told is so.
    ensures told { IfOk result (λ expected. IfSome expected (HasExpected bytes.now line)) }
    // And it is told of each line that is hit.
    ensures some { IfOk result (λ expected. (reason : ℕ) → HasUnlawful bytes.now line reason
        → IsExplained reason → IsSome expected) }
{
    let (script, trace, lines) = split_input(bytes);
    let Some(trace) = trace else {
        return Ok(None);
    };
    match read_set_up(alloc, script) {
        Ok(set_up) => expect_in(alloc, &set_up, trace, lines + 2, line),
        Err(ScriptEnd::Refused(_)) => Ok(None),
        Err(ScriptEnd::NoMemory) => Err(AllocError),
    }
}

/// What would have been lawful at the line with this number, of the lines of a trace of which the
/// first has the other number.
fn expect_in(
    alloc: Global,
    set_up: &SetUp,
    bytes: &[u8],
    first: u32,
    wanted: u32,
) -> Result<Option<Expected>, AllocError>
    requires ready { KnownIsReady set_up.now.known }
    requires begun { IsBegun set_up.now }
    requires few { first + length bytes.now ≤ 16777218 }
    ensures told { IfOk result (λ expected. IfSome expected
        (ExpectedAt set_up.now.known (net_of set_up.now) (texts_of bytes.now) first wanted)) }
    ensures some { IfOk result (λ expected. (reason : ℕ)
        → StopsAt set_up.now.known (net_of set_up.now) (texts_of bytes.now) first wanted reason
        → IsExplained reason → IsSome expected) }
{
    match read_lines(alloc, set_up, bytes, first, Some(wanted))? {
        Verdict::Lawful(_) => Ok(None),
        Verdict::Unlawful(_, expected) => Ok(expected),
    }
}

impl Reader {
    /// What would have been lawful in place of a text, if that is asked.
    pub(crate) fn expected(
        &self,
        alloc: Global,
        set_up: &SetUp,
        text: &[u8],
        asked: bool,
    ) -> Result<Option<Expected>, AllocError>
        requires { KnownIsReady set_up.now.known }
        ensures told { IfOk result (λ expected. IfSome expected
            (λ e. (asked ≡ true) × (self.now.ended ≡ false)
            × ((r : ReachedState) → IsReachedState r self.now.state → r.nodes ≡ nodes_of set_up.now
            → TellsLine set_up.now.known r text.now e))) }
        ensures some { IfOk result (λ expected. asked ≡ true → self.now.ended ≡ false
            → (r : ReachedState) → IsReachedState r self.now.state → r.nodes ≡ nodes_of set_up.now
            → IsToBeTold set_up.now.known r text.now → IsSome expected) }
    {
        if !asked || self.has_ended() {
            return Ok(None);
        }
        match read_trace_line(alloc, set_up, text) {
            Ok(line) => Ok(self.state().expected(&line)),
            Err(TraceLineEnd::NoForm) => Ok(None),
            Err(TraceLineEnd::NoMemory) => Err(AllocError),
        }
    }
}

impl State {
    /// What would have been lawful in place of a line.
    pub(crate) fn expected(&self, line: &TraceLine) -> Option<Expected>
        ensures told { IfSome result (λ e. (r : ReachedState) → IsReachedState r self.now
            → IsLineIn r.nodes (line_read line.now) → IsSo r (line_read line.now) e) }
        ensures some { (r : ReachedState) (short : Bool) (fault : Fault) → IsReachedState r self.now
            → IsLineIn r.nodes (line_read line.now) → IsExplained (fault_number fault)
            → (SparesAt r (line_read line.now) short fault → ⊥) → IsSome result }
    {
        match line {
            TraceLine::Begun(line) => self.on_wire(line),
            TraceLine::Stepped(step) => self.expected_step(step.get()),
            TraceLine::Sent(port, chars) => self.waiting(*port, chars.as_slice()),
            TraceLine::Got(port, _) => Some(self.front_to(*port)),
            TraceLine::Fired(port) => Some(self.on_link(*port)),
            TraceLine::Lacked(_) => None,
            TraceLine::Ended => None,
            TraceLine::Undetected(..) => None,
        }
    }

    /// The same, of a step.
    fn expected_step(&self, step: &NetworkStep) -> Option<Expected>
        ensures told { IfSome result (λ e. (r : ReachedState) → IsReachedState r self.now
            → IsStepOf r.nodes (step_read step.now) → IsSo r (Stepped (step_read step.now)) e) }
        ensures some { (r : ReachedState) (short : Bool) (fault : Fault) → IsReachedState r self.now
            → IsStepOf r.nodes (step_read step.now) → IsExplained (fault_number fault)
            → (SparesAt r (Stepped (step_read step.now)) short fault → ⊥) → IsSome result }
    {
        if let Some(unmet) = self.unmet(step) {
            return Some(Expected::Needed(unmet));
        }
        match step {
            NetworkStep::Hold(port, _) => self.next_to_hold(*port),
            NetworkStep::Free(port, _) => self.freed(*port),
            NetworkStep::Take(..) => None,
            NetworkStep::Leave(..) => None,
            NetworkStep::Move(..) => None,
            NetworkStep::Drop(..) => None,
            NetworkStep::Answer(..) => None,
        }
    }

    /// How many characters are on the wire that an event line edits, if it edits one.
    fn on_wire(&self, line: &Line) -> Option<Expected>
        ensures told { IfSome result (λ e. (r : ReachedState) → IsReachedState r self.now
            → IsEditIn r.nodes (edit_of line.now) → IsSo r (Begun line.now) e) }
        ensures some { IsSome (edit_of line.now) → IsSome result }
    {
        let (port, _) = line.wire_edit()?;
        Some(Expected::OnWire(self.chars_on(port)))
    }

    /// How many characters are on the wire of a port.
    fn chars_on(&self, port: PortRef) -> usize
        ensures { (r : ReachedState) → IsReachedState r self.now → IsIn r.nodes port
            → result ≡ length (r.wires port) }
    {
        match self.wire(port) {
            Some(wire) => wire.len(),
            None => 0,
        }
    }

    /// The next characters of the wire to a port.
    fn front_to(&self, port: PortRef) -> Expected
        ensures { (r : ReachedState) (chars : List AChar) → IsReachedState r self.now
            → IsIn r.nodes port
            → IsSo r (Signed (AGot port chars)) result }
    {
        Expected::Front(match self.wire_to(port) {
            Some(wire) => wire.front(),
            None => ArrayVec::new(),
        })
    }

    /// How many characters are on the wire of a port, or, if none is, on the wire to it.
    fn on_link(&self, port: PortRef) -> Expected
        ensures { (r : ReachedState) → IsReachedState r self.now → IsIn r.nodes port
            → IsSo r (Signed (AFired port)) result }
    {
        let own = self.chars_on(port);
        let left = if own > 0 {
            own
        } else {
            match self.wire_to(port) {
                Some(wire) => wire.len(),
                None => 0,
            }
        };
        Expected::OnLink(left)
    }

    /// The ackID of the next packet that a port holds, and the first that came with it.
    fn next_to_hold(&self, port: PortRef) -> Option<Expected>
        ensures { (r : ReachedState) (packet : List ℕ) → IsReachedState r self.now
            → IsIn r.nodes port
            → IsSomeAnd result (IsSo r (Stepped (Linked (Hold port packet)))) }
    {
        let hearing = self.hearing(port)?;
        Some(Expected::Came(hearing.next(), hearing.first()))
    }

    /// How many packets a port may free in all.
    fn freed(&self, port: PortRef) -> Option<Expected>
        ensures { (r : ReachedState) (packet : List ℕ) → IsReachedState r self.now
            → IsIn r.nodes port
            → IsSomeAnd result (IsSo r (Stepped (Linked (Free port packet)))) }
    {
        let hearing = self.hearing(port)?;
        Some(Expected::Freed(hearing.allowed()))
    }

    /// The priority of a packet that a port does not have, and the first of it that waits there.
    fn waiting(&self, port: PortRef, chars: &[Char]) -> Option<Expected>
        ensures { (r : ReachedState) → IsReachedState r self.now → IsIn r.nodes port
            → MatchOption result (SendMayBe r.net (Signed (ASent port chars.now)))
            (IsSo r (Signed (ASent port chars.now))) }
    {
        let (prio, packet) = self.lacking(port, chars)?;
        Some(Expected::Waiting(prio, packet))
    }
}
