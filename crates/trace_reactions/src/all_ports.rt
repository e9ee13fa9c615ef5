//! The reactions of all ports.

ghost use Rattle.std.specs.Prelude.{◌≡◌, ◌+◌, ℕ, length, Some, IfOk, IsErrOf, IsSome};
ghost use Rattle.std.specs.HashMap.{get, Updates};
ghost use Rattle.fabric_script.specs.declared.ports.PortRef.{PortRef as APortRef};
ghost use Rattle.trace_lines.specs.Reads.{line_read, step_read};
ghost use Rattle.trace_reactions.specs.Judging.{after_line, buffers_by, gone_from, IsWrongLine, KeepsPorts, KeepsReactions, port_key, LineReacts, reactions_before, reactions_with, ReactionsKept, same_key, with_port_kept};
ghost use Rattle.trace_reactions.specs.PortsKept.{AreDue, gives, after_got, IsWrongAnswer, PortKept, after_sending, reactions_sent};
ghost use Rattle.trace_reactions.specs.declared.all_ports.ReactionEnd.TheVariants.{NoMemory as OutOfMemory};

use crate::port::{PortReactions, WrongAnswer};
use fabric_script::{Line, PortRef, SetUp};
use rio_chars::Char;
use std::alloc::{AllocError, Global};
use std::collections::HashMap;
use trace_lines::{NetworkStep, TraceLine};

/// How many receive buffers a port has if no line says how many.
const BUFFERS: u8 = 8;

/// A port sent a reaction that was not due.
#[derive(Clone, Copy, Debug, PartialEq, Eq)]
pub struct WrongReaction {
    pub port: PortRef,
    pub answer: WrongAnswer,
}

/// Why a line was not taken.
#[derive(Clone, Copy, Debug, PartialEq, Eq)]
pub enum ReactionEnd {
    /// One of its reactions was not due.
    Wrong(WrongReaction),
    /// Memory ran out.
    NoMemory,
}

impl From<AllocError> for ReactionEnd {
    ghost from_gives = { λ _ end. end ≡ OutOfMemory };

    fn from(_: AllocError) -> Self {
        ReactionEnd::NoMemory
    }
}

/// What is kept of each port behind lines of a trace, and how many reactions were sent and were
/// due. A port of which nothing is kept is new, with 8 receive buffers.
#[derive(Drop)]
pub struct Reactions {
    ports: HashMap<(u8, u8), PortReactions>,
    answered: u64,
}

impl Reactions {
    /// Behind set-up lines, before the first line of a trace.
    pub fn new(alloc: Global, set_up: &SetUp) -> Result<Reactions, AllocError>
        ensures { IfOk result (KeepsReactions (reactions_before set_up.now.lines)) }
    {
        let mut reactions = Reactions {
            ports: HashMap::new(alloc),
            answered: 0,
        };
        for numbered in set_up.lines() {
            reactions.set(alloc, &numbered.line)?;
        }
        Ok(reactions)
    }

    /// Takes in a set-up line.
    fn set(&mut self, alloc: Global, line: &Line) -> Result<(), AllocError>
        ensures { IfOk result (λ _. (buffers : APortRef → ℕ)
            → KeepsReactions (reactions_with buffers) self.old
            → KeepsReactions (reactions_with (λ p. buffers_by (buffers p) p line.now)) self.new) }
    {
        match line {
            Line::Buffers { port, n } => {
                self.put(*port, PortReactions::new(alloc, *n))?;
                Ok(())
            }
            _ => Ok(()),
        }
    }

    /// How many reactions were sent and were due.
    pub fn answered(&self) -> u64
        ensures { (kept : ReactionsKept) → KeepsReactions kept self.now → result ≡ kept.answered }
    {
        self.answered
    }

    /// How many reactions of a port are due.
    pub fn due(&self, port: PortRef) -> usize
        ensures { (kept : ReactionsKept) → KeepsReactions kept self.now
            → result ≡ length (kept.ports port).input.due }
    {
        match self.ports.get(&(port.node, port.port)) {
            Some(kept) => kept.due(),
            None => 0,
        }
    }

    /// Takes a line in. Wrong comes exactly if the line has a reaction that is not due. After an
    /// error only that it may be dropped is promised.
    pub fn take(&mut self, alloc: Global, line: &TraceLine) -> Result<(), ReactionEnd>
        ensures passes { IfOk result (λ _. (kept : ReactionsKept) → KeepsReactions kept self.old
            → LineReacts kept (line_read line.now)) }
        ensures taken { IfOk result (λ _. (kept : ReactionsKept) → KeepsReactions kept self.old
            → KeepsReactions (after_line kept (line_read line.now)) self.new) }
        ensures wrong { (wrong : _) → IsErrOf result (ReactionEnd.Wrong wrong)
            → (kept : ReactionsKept) → KeepsReactions kept self.old
            → IsWrongLine kept (line_read line.now) wrong }
        ensures not_due { (wrong : _) → IsErrOf result (ReactionEnd.Wrong wrong)
            → (kept : ReactionsKept) → KeepsReactions kept self.old
            → LineReacts kept (line_read line.now) → ⊥ }
    {
        match line {
            TraceLine::Got(port, chars) => {
                self.got(alloc, *port, chars.as_slice())?;
                Ok(())
            }
            TraceLine::Sent(port, chars) => self.sent(alloc, *port, chars.as_slice()),
            TraceLine::Stepped(step) => {
                if let Some(port) = gone_from(step.get()) {
                    self.gone(alloc, port)?;
                }
                Ok(())
            }
            TraceLine::Begun(_) => Ok(()),
            TraceLine::Fired(_) => Ok(()),
            TraceLine::Lacked(_) => Ok(()),
            TraceLine::Ended => Ok(()),
            TraceLine::Undetected(..) => Ok(()),
        }
    }

    /// A port got characters.
    fn got(&mut self, alloc: Global, port: PortRef, chars: &[Char]) -> Result<(), AllocError>
        ensures kept { IfOk result (λ _. (ports : APortRef → PortKept) → KeepsPorts ports self.old
            → KeepsPorts (with_port_kept ports port (λ p. after_got p chars.now)) self.new) }
        ensures answered { self.new.answered ≡ self.old.answered }
    {
        self.know(alloc, port)?;
        match self.ports.get_mut(&(port.node, port.port)) {
            Some(kept) => {
                kept.hear(chars)?;
                Ok(())
            }
            None => Err(AllocError),
        }
    }

    /// A packet has gone from a port.
    fn gone(&mut self, alloc: Global, port: PortRef) -> Result<(), AllocError>
        ensures kept { IfOk result (λ _. (ports : APortRef → PortKept) → KeepsPorts ports self.old
            → KeepsPorts (with_port_kept ports port gives) self.new) }
        ensures answered { self.new.answered ≡ self.old.answered }
    {
        self.know(alloc, port)?;
        match self.ports.get_mut(&(port.node, port.port)) {
            Some(kept) => {
                kept.give();
                Ok(())
            }
            None => Err(AllocError),
        }
    }

    /// A port sent characters. A count of 2^64 would take more characters than memory holds.
    fn sent(&mut self, alloc: Global, port: PortRef, chars: &[Char]) -> Result<(), ReactionEnd>
        ensures passes { IfOk result (λ _. (kept : ReactionsKept) → KeepsReactions kept self.old
            → AreDue (kept.ports port) chars.now) }
        ensures taken { IfOk result (λ _. (kept : ReactionsKept) → KeepsReactions kept self.old
            → KeepsReactions (record {
              ports = with_port_kept kept.ports port (λ p. after_sending p chars.now);
              answered = kept.answered + length (reactions_sent (kept.ports port) chars.now);
            }) self.new) }
        ensures wrong { (wrong : _) → IsErrOf result (ReactionEnd.Wrong wrong)
            → (kept : ReactionsKept) → KeepsReactions kept self.old
            → (wrong.port ≡ port) × IsWrongAnswer (kept.ports port) chars.now wrong.answer }
        ensures not_due { (wrong : _) → IsErrOf result (ReactionEnd.Wrong wrong)
            → (kept : ReactionsKept) → KeepsReactions kept self.old
            → AreDue (kept.ports port) chars.now → ⊥ }
    {
        self.know(alloc, port)?;
        let Some(kept) = self.ports.get_mut(&(port.node, port.port)) else {
            return Err(ReactionEnd::NoMemory);
        };
        let count = match kept.send(chars) {
            Ok(count) => count as u64,
            Err(answer) => return Err(ReactionEnd::Wrong(WrongReaction { port, answer })),
        };
        match self.answered.checked_add(count) {
            Some(answered) => self.answered = answered,
            None => return Err(ReactionEnd::NoMemory),
        }
        Ok(())
    }

    /// Something is kept of a port.
    fn know(&mut self, alloc: Global, port: PortRef) -> Result<(), AllocError>
        ensures kept { IfOk result (λ _. (ports : APortRef → PortKept)
            → KeepsPorts ports self.old → KeepsPorts ports self.new) }
        ensures known { IfOk result (λ _. IsSome (get same_key self.new.ports (port_key port))) }
        ensures answered { self.new.answered ≡ self.old.answered }
    {
        if self.ports.contains_key(&(port.node, port.port)) {
            return Ok(());
        }
        self.put(port, PortReactions::new(alloc, BUFFERS))?;
        Ok(())
    }

    /// This is kept of a port.
    fn put(&mut self, port: PortRef, kept: PortReactions) -> Result<(), AllocError>
        ensures put { IfOk result (λ _. Updates same_key self.old.ports self.new.ports
            (port_key port) (Some kept)) }
        ensures answered { self.new.answered ≡ self.old.answered }
    {
        self.ports.insert((port.node, port.port), kept)?;
        Ok(())
    }
}

/// The port from which a step takes a packet that it holds.
fn gone_from(step: &NetworkStep) -> Option<PortRef>
    ensures { result ≡ gone_from (step_read step.now) }
{
    match step {
        NetworkStep::Hold(..) | NetworkStep::Free(..) | NetworkStep::Take(..) => None,
        NetworkStep::Leave(node, _) => Some(PortRef {
            node: *node,
            port: 0,
        }),
        NetworkStep::Move(port, ..) => Some(*port),
        NetworkStep::Drop(port, _) => Some(*port),
        NetworkStep::Answer(port, ..) => Some(*port),
    }
}
