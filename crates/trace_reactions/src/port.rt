//! What is kept of a port.

ghost use Rattle.std.specs.Prelude.{◌≡◌, ◌≢◌, ◌∷◌, ◌++◌, length, slice_get, Some, IfErr, IfOk, OnErr, OnOk};
ghost use Rattle.trace_reactions.specs.Reactions.{reactions_of};
ghost use Rattle.trace_reactions.specs.PortsKept.{AreDue, gives, after_got, IsWrongAnswer, unheard_port, port_kept, reaction_told, after_sending, reactions_sent};

use crate::input_half::InputHalf;
use crate::reactions::{Reaction, reaction_of};
use rio_chars::Char;
use rio_framer::{Framer, Told};
use std::alloc::{AllocError, Global};

/// A reaction that a port sent and that was not due, and the one that was, if any was.
#[derive(Clone, Copy, Debug, PartialEq, Eq)]
pub struct WrongAnswer {
    pub sent: Reaction,
    pub due: Option<Reaction>,
}

/// The reading of what a port gets, and of what it sends; and its input half.
#[derive(Drop)]
pub(crate) struct PortReactions {
    hearing: Framer,
    sending: Framer,
    input: InputHalf,
}

impl PortReactions {
    /// A port with so many receive buffers, before the first line.
    pub(crate) fn new(alloc: Global, buffers: u8) -> PortReactions
        ensures { port_kept result ≡ unheard_port buffers }
    {
        PortReactions {
            hearing: Framer::new(),
            sending: Framer::new(),
            input: InputHalf::new(alloc, buffers),
        }
    }

    /// How many reactions are due.
    pub(crate) fn due(&self) -> usize
        ensures { result ≡ length (port_kept self.now).input.due }
    {
        self.input.due()
    }

    /// The port got characters.
    pub(crate) fn hear(&mut self, chars: &[Char]) -> Result<(), AllocError>
        ensures { IfOk result (λ _. port_kept self.new
            ≡ after_got (port_kept self.old) chars.now) }
    {
        let mut left = chars;
        while !left.is_empty() {
            let (count, told) = self.hearing.read_run(left);
            left = left.split_at(count).1;
            self.input.take(told, &self.hearing)?;
        }
        Ok(())
    }

    /// The port sent characters: how many reactions they have. An error comes exactly if these are
    /// not the first that are due. Then only that the port may be dropped is promised.
    pub(crate) fn send(&mut self, chars: &[Char]) -> Result<usize, WrongAnswer>
        ensures due { OnOk result (AreDue (port_kept self.old) chars.now) }
        ensures count { IfOk result (λ count. count
            ≡ length (reactions_sent (port_kept self.old) chars.now)) }
        ensures sent { OnOk result (port_kept self.new ≡ after_sending (port_kept self.old) chars.now) }
        ensures wrong { IfErr result (IsWrongAnswer (port_kept self.old) chars.now) }
        ensures not_due { OnErr result (AreDue (port_kept self.old) chars.now → ⊥) }
    {
        let before = self.due();
        let mut left = chars;
        while !left.is_empty() {
            let (count, told) = self.sending.read_run(left);
            left = left.split_at(count).1;
            if let Err(wrong) = self.answer_told(told) {
                return Err(wrong);
            }
        }
        Ok(before.saturating_sub(self.due()))
    }

    /// Characters that the port sent told this. If it is a reaction, it is to be the first that is
    /// due.
    fn answer_told(&mut self, told: Told) -> Result<(), WrongAnswer>
        ensures due { OnOk result (self.old.input.due.items
            ≡ reactions_of (reaction_told told) ++ self.new.input.due.items) }
        ensures rest { self.new ≡ record self.old {
          input = record self.old.input { due = self.new.input.due };
        } }
        ensures sent { IfErr result (λ wrong. reaction_told told ≡ Some wrong.sent) }
        ensures first { IfErr result (λ wrong. wrong.due ≡ slice_get self.old.input.due.items 0) }
        ensures other { IfErr result (λ wrong. wrong.due ≢ Some wrong.sent) }
    {
        match reaction_told(told) {
            Some(sent) => self.answer(sent),
            None => Ok(()),
        }
    }

    /// The port sent a reaction, which is to be the first that is due.
    fn answer(&mut self, sent: Reaction) -> Result<(), WrongAnswer>
        ensures due { OnOk result (self.old.input.due.items
            ≡ sent ∷ self.new.input.due.items) }
        ensures rest { self.new ≡ record self.old {
          input = record self.old.input { due = self.new.input.due };
        } }
        ensures sent { IfErr result (λ wrong. wrong.sent ≡ sent) }
        ensures first { IfErr result (λ wrong. wrong.due ≡ slice_get self.old.input.due.items 0) }
        ensures other { IfErr result (λ wrong. wrong.due ≢ Some sent) }
    {
        let due = self.input.pop();
        match due {
            Some(first) if first == sent => Ok(()),
            _ => Err(WrongAnswer { sent, due }),
        }
    }

    /// A packet has gone from the port.
    pub(crate) fn give(&mut self)
        ensures { port_kept self.new ≡ gives (port_kept self.old) }
    {
        self.input.give();
    }
}

/// The reaction that characters told, if they told one.
fn reaction_told(told: Told) -> Option<Reaction>
    ensures { result ≡ reaction_told told }
{
    match told {
        Told::Ctl(symbol) => reaction_of(&symbol),
        Told::Ends(symbol) => reaction_of(&symbol),
        Told::Bad(_) => None,
        Told::Nothing => None,
    }
}
