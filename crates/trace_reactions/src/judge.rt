//! A judge of reactions that takes one line of a trace after another, as they come.

ghost use Rattle.std.specs.Prelude.{◌≡◌, ◌≤◌, ◌∷◌, ◌++◌, [], ℕ, List, length, IfOk, IsErrOf};
ghost use Rattle.fabric_script.specs.Known.{Known as AKnown, nothing_in, of_set_up};
ghost use Rattle.fabric_script.specs.Scripts.{pieces_of, RefusedIn, SpellsFrom};
ghost use Rattle.fabric_script.specs.SetUps.{for_event, KnownIsReady};

use crate::all_ports::{ReactionEnd, Reactions, WrongReaction};
use fabric_script::{PortRef, ScriptEnd, SetUp, read_set_up};
use std::alloc::{AllocError, Global};
use trace_lines::{TraceLineEnd, read_trace_line};

/// Why a text was not taken.
#[derive(Clone, Copy, Debug, PartialEq, Eq)]
pub enum JudgeEnd {
    /// It is no line of a trace.
    NoForm,
    /// It has a reaction that was not due.
    Wrong(WrongReaction),
    /// Memory ran out.
    NoMemory,
}

/// A judge of the reactions of a trace. It keeps what is on its way in each port, and no line.
#[derive(Drop)]
pub struct Judge {
    set_up: SetUp,
    reactions: Reactions,
    ghost ready: { KnownIsReady set_up.known },
}

impl Judge {
    ghost use Rattle.trace_reactions.specs.Judged.{AreAllAnswered, AreStillDue, HasJudged, IsNoLine, IsWrongText};

    /// A judge of a trace of the fabric that these set-up lines make, of at most 16,777,216 bytes,
    /// before its first line. Refused comes exactly if a reason hits the set-up lines, unless
    /// memory runs out.
    pub fn new(alloc: Global, script: &[u8]) -> Result<Judge, ScriptEnd>
        requires { length script.now ≤ 16777216 }
        ensures made { IfOk result (λ judge. (end : AKnown)
            × SpellsFrom 1 (nothing_in of_set_up) (pieces_of script.now) judge.set_up.lines end
            × (judge.set_up.known ≡ for_event end)) }
        ensures taken { IfOk result (HasJudged []) }
        ensures refused { (refusal : _) → IsErrOf result (ScriptEnd.Refused refusal)
            → RefusedIn of_set_up script.now refusal.line refusal.reason }
    {
        let set_up = read_set_up(alloc, script)?;
        let reactions = Reactions::new(alloc, &set_up)?;
        Ok(Judge { set_up, reactions })
    }

    /// The set-up lines.
    pub fn set_up(&self) -> &SetUp
        ensures { result.now ≡ self.now.set_up }
    {
        &self.set_up
    }

    /// How many reactions were sent, of which each was due.
    pub fn answered(&self) -> u64
        ensures { (texts : List (List ℕ)) → HasJudged texts self.now
            → AreAllAnswered self.now.set_up texts result }
    {
        self.reactions.answered()
    }

    /// How many reactions of a port are due.
    pub fn due(&self, port: PortRef) -> usize
        ensures { (texts : List (List ℕ)) → HasJudged texts self.now
            → AreStillDue self.now.set_up texts port result }
    {
        self.reactions.due(port)
    }

    /// Takes the next line, without its line feed. NoForm comes exactly if it is no line of a
    /// trace, and Wrong exactly if it is one and has a reaction that was not due. After an error
    /// only that it may be dropped is promised.
    pub fn take(&mut self, alloc: Global, text: &[u8]) -> Result<(), JudgeEnd>
        ensures set_up { self.new.set_up ≡ self.old.set_up }
        ensures taken { IfOk result (λ _. (texts : List (List ℕ)) → HasJudged texts self.old
            → HasJudged (texts ++ text.now ∷ []) self.new) }
        ensures no_form { IsErrOf result JudgeEnd.NoForm → IsNoLine self.old.set_up text.now }
        ensures wrong { (wrong : _) → IsErrOf result (JudgeEnd.Wrong wrong)
            → (texts : List (List ℕ)) → HasJudged texts self.old
            → IsWrongText self.old.set_up texts text.now wrong }
    {
        match read_trace_line(alloc, &self.set_up, text) {
            Ok(line) => match self.reactions.take(alloc, &line) {
                Ok(()) => Ok(()),
                Err(ReactionEnd::Wrong(wrong)) => Err(JudgeEnd::Wrong(wrong)),
                Err(ReactionEnd::NoMemory) => Err(JudgeEnd::NoMemory),
            },
            Err(TraceLineEnd::NoForm) => Err(JudgeEnd::NoForm),
            Err(TraceLineEnd::NoMemory) => Err(JudgeEnd::NoMemory),
        }
    }
}
