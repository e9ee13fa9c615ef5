//! Set-up lines alone, and the lines that may stand behind them.

ghost use Rattle.std.specs.Prelude.{◌≡◌, ◌≢◌, ℕ, ◌+◌, ◌<◌, ◌≤◌, ◌⊎◌, length, MatchOption, IfOk, OnOk, IsOk, IsErrOf};
ghost use Rattle.fabric_script.specs.declared.lines.Line.{Line as ALine};
ghost use Rattle.fabric_script.specs.declared.ports.PortRef.{PortRef as APortRef};
ghost use Rattle.fabric_script.specs.Forms.{Node as ANode, Port as APort};
ghost use Rattle.fabric_script.specs.Hits.{FitsField};
ghost use Rattle.fabric_script.specs.Texts.{NodeValue, PortValue, value_text};
ghost use Rattle.fabric_script.specs.Known.{is_linked, nothing_in, Known as AKnown};
ghost use Rattle.fabric_script.specs.declared.known.Mode.TheVariants.{SetUp as OfSetUp};
ghost use Rattle.fabric_script.specs.Reading.{Spells};
ghost use Rattle.fabric_script.specs.Scripts.{ScriptPasses, RefusedIn, SpellsFrom, KeepsLine, pieces_of};
ghost use Rattle.fabric_script.specs.SetUps.{for_event, for_set_up, KnownIsReady, IsRefused, NoEvents};
ghost use Rattle.fabric_script.specs.declared.set_ups.EventEnd.TheVariants.{NoMemory};

use crate::known::{Known, Mode};
use crate::lines::{Line, Numbered};
use crate::names::Name;
use crate::ports::PortRef;
use crate::scripts::{ScriptEnd, keep_line, read_line, read_lines};
use std::alloc::{AllocError, Global};
use std::marker::Model;

/// Why there is no event, or no line of set-up more.
#[derive(Clone, Copy, Debug, PartialEq, Eq)]
pub enum EventEnd {
    /// The line is refused: the number of the least reason that hits it.
    Refused(u8),
    /// Memory ran out.
    NoMemory,
}

impl From<AllocError> for EventEnd {
    ghost from_gives = { λ _ end. end ≡ NoMemory };

    fn from(_: AllocError) -> Self {
        EventEnd::NoMemory
    }
}

/// Set-up lines alone, and what is known behind them.
#[derive(Drop)]
pub struct SetUp {
    lines: Vec<Numbered>,
    known: Known,
}

impl Model for SetUp {
    ghost use Rattle.fabric_script.specs.SetUps.{KnownIsReady, SetUpLines};

    ghost Value = { SetUpLines };

    ghost view = { λ s. record { lines = s.lines.items; known = s.known } };

    ghost invariant = { λ s. KnownIsReady s.known };
}

/// The set-up lines that the bytes spell, as `parse` reads a script, of at most 16,777,216 bytes.
/// Any event is out of place.
pub fn read_set_up(alloc: Global, bytes: &[u8]) -> Result<SetUp, ScriptEnd>
    requires { length bytes.now ≤ 16777216 }
    ensures spelled { IfOk result (λ set_up. (end : AKnown)
        × SpellsFrom 1 (nothing_in OfSetUp) (pieces_of bytes.now) set_up.lines end
        × (set_up.known ≡ for_event end)) }
    ensures passes { IfOk result (λ set_up. ScriptPasses set_up.known.names set_up.lines) }
    ensures no_events { IfOk result (λ set_up. NoEvents set_up.lines) }
    ensures ready { IfOk result (λ set_up. KnownIsReady set_up.known) }
    ensures refused { (refusal : _) → IsErrOf result (ScriptEnd.Refused refusal)
        → RefusedIn OfSetUp bytes.now refusal.line refusal.reason }
{
    let mut known = Known::new(alloc, Mode::SetUp);
    let lines = read_lines(alloc, bytes, Mode::SetUp, &mut known)?;
    known.expect_event();
    Ok(SetUp { lines, known })
}

impl SetUp {
    /// The lines.
    pub fn lines(&self) -> &[Numbered]
        ensures { result.now ≡ self.now.lines }
    {
        self.lines.as_slice()
    }

    /// Takes a line of set-up more, with this number, behind those that are there. Any event is out
    /// of place, and an empty line and a comment are of no form. A line that is refused changes
    /// nothing. If memory runs out, what is held is of no use.
    pub fn take_line(&mut self, alloc: Global, number: u32, line: &[u8]) -> Result<(), EventEnd>
        requires room { length self.old.known.links < 33554432 }
        // What is taken is spelled so, and what is refused is refused so.
        ensures taken { OnOk result ((end : AKnown)
            × KeepsLine (for_set_up self.old.known) self.old.lines number line.now end
            self.new.lines
            × (self.new.known ≡ for_event end)) }
        ensures refused { (reason : ℕ) → IsErrOf result (EventEnd.Refused reason)
            → IsRefused (for_set_up self.old.known) line.now reason × (self.new ≡ self.old) }
        // What is spelled is taken and what is refused so is refused, unless memory runs out.
        ensures only { (event : ALine) → Spells (for_set_up self.old.known) line.now event
            → IsErrOf result NoMemory ⊎ IsOk result }
        ensures refusal_only { (reason : ℕ)
            → IsRefused (for_set_up self.old.known) line.now reason
            → IsErrOf result (EventEnd.Refused reason) ⊎ IsErrOf result NoMemory }
        ensures links { length self.new.known.links ≤ length self.old.known.links + 1 }
    {
        self.known.expect_set_up();
        let kept = keep_line(alloc, &mut self.known, &mut self.lines, number, line);
        self.known.expect_event();
        if let Err(reason) = kept? {
            return Err(EventEnd::Refused(reason.number()));
        }
        Ok(())
    }

    /// The names of the nodes, in the order of their lines.
    pub fn names(&self) -> &[Name]
        ensures { result.now ≡ self.now.known.names }
    {
        self.known.names()
    }

    /// The number of the node that a word names.
    pub fn read_node(&self, word: &[u8]) -> Option<u8>
        ensures { MatchOption result
            ((n : ℕ) → FitsField self.now.known ANode (NodeValue n)
            → word.now ≢ value_text self.now.known.names (NodeValue n))
            (λ n. FitsField self.now.known ANode (NodeValue n)
            × (word.now ≡ value_text self.now.known.names (NodeValue n))) }
    {
        match self.known.read_node(word) {
            Ok(n) => Some(n),
            Err(_) => None,
        }
    }

    /// The port that a word names.
    pub fn read_port(&self, word: &[u8]) -> Option<PortRef>
        ensures { MatchOption result
            ((p : APortRef) → FitsField self.now.known APort (PortValue p)
            → word.now ≢ value_text self.now.known.names (PortValue p))
            (λ p. FitsField self.now.known APort (PortValue p)
            × (word.now ≡ value_text self.now.known.names (PortValue p))) }
    {
        match self.known.read_port(word) {
            Ok(port) => Some(port),
            Err(_) => None,
        }
    }

    /// Whether a port has a link.
    pub fn is_linked(&self, port: PortRef) -> bool
        ensures { result ≡ is_linked self.now.known.links port }
    {
        self.known.is_linked(port)
    }

    /// The event that a line spells behind the set-up lines. A line of set-up is out of place, no
    /// cost is counted, and an empty line and a comment are of no form.
    pub fn read_event(&self, alloc: Global, line: &[u8]) -> Result<Line, EventEnd>
        // What is answered is spelled so, and what is refused is refused so.
        ensures event { IfOk result (λ event. Spells self.now.known line.now event) }
        ensures refused { (number : ℕ) → IsErrOf result (EventEnd.Refused number)
            → IsRefused self.now.known line.now number }
        // What is spelled is answered and what is refused so is refused, unless memory runs out.
        ensures only { (event : ALine) → Spells self.now.known line.now event
            → IfOk result (λ read. read ≡ event) × (IsErrOf result NoMemory ⊎ IsOk result) }
        ensures refusal_only { (number : ℕ) → IsRefused self.now.known line.now number
            → IsErrOf result (EventEnd.Refused number) ⊎ IsErrOf result NoMemory }
    {
        match read_line(alloc, &self.known, line)? {
            Ok(event) => Ok(event),
            Err(reason) => Err(EventEnd::Refused(reason.number())),
        }
    }
}
