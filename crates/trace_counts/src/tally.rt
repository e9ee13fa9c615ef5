//! What each port did, counted over the lines of a trace.
ghost use Rattle.std.specs.Prelude.{◌≡◌, ◌*◌, ◌<◌, IfOk, IfSome, IfNone, OnOk, OnErr, [], ◌∷◌, ◌++◌, List, ℕ, length, slice_get, option_copied};
ghost use Rattle.fabric_script.specs.Known.{Known as AKnown};
ghost use Rattle.trace_lines.specs.declared.lines.TraceLine.{TraceLine as ALine};
ghost use Rattle.trace_counts.specs.Sums.{nothing_done, sent, PortCounts};
ghost use Rattle.trace_counts.specs.Room.{SumsHaveRoom, PortsHaveRoom};
ghost use Rattle.trace_counts.specs.Counts.{count_place, at_port, with_line_kind, with_step, line_counted, counts_of_lines, endpoint_port};

use crate::sums::{LineKind, Sums, TooMany};
use fabric_script::PortRef;
use rio_chars::Char;
use rio_framer::Framer;
use std::alloc::{AllocError, Global};
use std::marker::Model;
use trace_lines::{NetworkStep, TraceLine};

/// What a port did, and where the reading of what it sends is.
#[derive(Drop)]
pub struct PortTally {
    framer: Framer,
    sums: Sums,
}

impl Model for PortTally {
    ghost use Rattle.trace_counts.specs.Sums.{PortCounts};

    ghost Value = { PortCounts };

    ghost view = { λ t. record { place = t.framer.place; sums = t.sums } };
}

impl PortTally {
    /// Nothing was done.
    fn new() -> PortTally
        ensures { result ≡ nothing_done }
    {
        PortTally {
            framer: Framer::new(),
            sums: Sums::new(),
        }
    }

    /// The sums.
    pub fn sums(&self) -> &Sums
        ensures { result.now ≡ self.now.sums }
    {
        &self.sums
    }

    /// A line of the port is counted.
    fn raise(&mut self, kind: LineKind) -> Result<(), TooMany>
        ensures sums { OnOk result (self.new ≡ with_line_kind kind self.old) }
        ensures too_many { OnErr result (SumsHaveRoom (with_line_kind kind self.old).sums → ⊥) }
    {
        self.sums.lines.raise(kind)
    }

    /// The port sends characters.
    fn send(&mut self, chars: &[Char]) -> Result<(), TooMany>
        ensures sums { OnOk result (self.new ≡ sent self.old chars.now) }
        ensures too_many { OnErr result (SumsHaveRoom (sent self.old chars.now).sums → ⊥) }
    {
        self.sums.note_characters(chars.len() as u64)?;
        let mut left = chars;
        while !left.is_empty() {
            let (count, told) = self.framer.read_run(left);
            left = left.split_at(count).1;
            self.sums.note(told, &self.framer)?;
        }
        Ok(())
    }
}

/// What each port did.
#[derive(Drop)]
pub struct Tallies {
    items: Vec<PortTally>,
}

impl Model for Tallies {
    ghost use Rattle.std.specs.Prelude.{List};
    ghost use Rattle.trace_counts.specs.Sums.{PortCounts};

    ghost Value = { List PortCounts };

    ghost view = { λ t. t.items.items };
}

impl Tallies {
    /// Nothing was done at the ports of so many nodes.
    pub fn new(alloc: Global, nodes: u8) -> Result<Tallies, AllocError>
        ensures { IfOk result (λ tallies. tallies ≡ counts_of_lines nodes []) }
    {
        let mut items = Vec::new(alloc);
        for _ in 0..16 * usize::from(nodes) {
            items.push(PortTally::new())?;
        }
        Ok(Tallies { items })
    }

    /// What a port did, if it is one of these.
    pub fn get(&self, port: PortRef) -> Option<&PortTally>
        ensures { option_copied result ≡ slice_get self.now (count_place port) }
    {
        self.items.get(place_of(port))
    }

    /// Counts a line of a trace. `TooMany` comes exactly if a sum would be 2^64 or more.
    pub fn count(&mut self, line: &TraceLine) -> Result<(), TooMany>
        ensures line { OnOk result (self.new ≡ line_counted self.old line.now) }
        ensures too_many { OnErr result (PortsHaveRoom (line_counted self.old line.now) → ⊥) }
        ensures sums { (nodes : ℕ) (lines : List ALine) → self.old ≡ counts_of_lines nodes lines
            → OnOk result (self.new ≡ counts_of_lines nodes (lines ++ line.now ∷ [])) }
    {
        self.add(line)?;
        Ok(())
    }

    /// Counts a line of a trace.
    fn add(&mut self, line: &TraceLine) -> Result<(), TooMany>
        ensures line { OnOk result (self.new ≡ line_counted self.old line.now) }
        ensures too_many { OnErr result (PortsHaveRoom (line_counted self.old line.now) → ⊥) }
    {
        match line {
            TraceLine::Sent(port, chars) => self.send(*port, chars.as_slice()),
            TraceLine::Fired(port) => self.raise(*port, LineKind::Fire),
            TraceLine::Stepped(step) => self.count_step(step.get()),
            TraceLine::Begun(_)
            | TraceLine::Got(..)
            | TraceLine::Lacked(_)
            | TraceLine::Ended
            | TraceLine::Undetected(..) => Ok(()),
        }
    }

    /// A step of a packet.
    fn count_step(&mut self, step: &NetworkStep) -> Result<(), TooMany>
        ensures step { OnOk result (self.new ≡ with_step self.old step.now) }
        ensures too_many { OnErr result (PortsHaveRoom (with_step self.old step.now) → ⊥) }
    {
        match step {
            NetworkStep::Hold(port, _) => self.raise(*port, LineKind::Hold),
            NetworkStep::Free(port, _) => self.raise(*port, LineKind::Free),
            NetworkStep::Take(node, _) => self.raise(endpoint_port(*node), LineKind::Take),
            NetworkStep::Leave(node, _) => self.raise(endpoint_port(*node), LineKind::Leave),
            NetworkStep::Drop(port, _) => self.raise(*port, LineKind::Drop),
            NetworkStep::Answer(port, _, _) => self.raise(*port, LineKind::Answer),
            NetworkStep::Move(from, to, _) => {
                self.raise(*from, LineKind::MoveOut)?;
                self.raise(*to, LineKind::MoveIn)
            }
        }
    }

    /// A line of a port.
    fn raise(&mut self, port: PortRef, kind: LineKind) -> Result<(), TooMany>
        ensures sums { OnOk result (self.new ≡ at_port self.old port (with_line_kind kind)) }
        ensures too_many { OnErr result
            (PortsHaveRoom (at_port self.old port (with_line_kind kind)) → ⊥) }
    {
        let place = place_of(port);
        if place < self.items.len() {
            self.items[place].raise(kind)?;
        }
        Ok(())
    }

    /// A port sends characters.
    fn send(&mut self, port: PortRef, chars: &[Char]) -> Result<(), TooMany>
        ensures sums { OnOk result (self.new ≡ at_port self.old port (λ c. sent c chars.now)) }
        ensures too_many { OnErr result
            (PortsHaveRoom (at_port self.old port (λ c. sent c chars.now)) → ⊥) }
    {
        let place = place_of(port);
        if place < self.items.len() {
            self.items[place].send(chars)?;
        }
        Ok(())
    }
}

/// Where the tally of a port is.
fn place_of(port: PortRef) -> usize
    ensures { result ≡ count_place port }
{
    usize::from(port.node) * 16 + usize::from(port.port)
}

/// The port of an endpoint.
pub(crate) fn endpoint_port(node: u8) -> PortRef
    ensures { result ≡ endpoint_port node }
{
    PortRef { node, port: 0 }
}
