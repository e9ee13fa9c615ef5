//! Which reason hits a line of a trace, behind the lines before it.

ghost use Rattle.std.specs.Prelude.{◌≡◌, ◌+◌, ◌<◌, ◌≤◌, false, [], ◌∷◌, length, IfOk};
ghost use Rattle.trace_lines.specs.Lines.{steps_of};
ghost use Rattle.trace_check.specs.Lawful.{is_last};
ghost use Rattle.trace_lines.specs.Reads.{line_read};
ghost use Rattle.trace_check.specs.Starting.{IsBegun, net_of, nodes_of};
ghost use Rattle.trace_check.specs.States.{Checks, IsLineIn, IsReachedState, ReachedState, unreached};

use crate::state::{Fault, State};
use fabric_script::SetUp;
use std::alloc::{AllocError, Global};
use trace_lines::TraceLine;

/// What is known after lines of a trace.
#[derive(Drop)]
pub(crate) struct Reader {
    state: State,
    steps: u32,
    ended: bool,
}

impl Reader {
    /// Before the first line.
    pub(crate) fn new(alloc: Global, set_up: &SetUp) -> Result<Reader, AllocError>
        requires { IsBegun set_up.now }
        ensures ended { IfOk result (λ reader. reader.ended ≡ false) }
        ensures steps { IfOk result (λ reader. reader.steps ≡ 0) }
        ensures reached { IfOk result (λ reader.
            IsReachedState (unreached (nodes_of set_up.now) (net_of set_up.now)) reader.state) }
    {
        let state = State::new(alloc, set_up)?;
        Ok(Reader {
            state,
            steps: 0,
            ended: false,
        })
    }

    /// Whether the last line has come.
    pub(crate) fn has_ended(&self) -> bool
        ensures { result ≡ self.now.ended }
    {
        self.ended
    }

    /// How many steps there were.
    pub(crate) fn steps(&self) -> u32
        ensures { result ≡ self.now.steps }
    {
        self.steps
    }

    /// What the lines left.
    pub(crate) fn state(&self) -> &State
        ensures { result.now ≡ self.now.state }
    {
        &self.state
    }

    /// Takes a line in, and tells the least reason that hits it, apart from its form. `short` tells
    /// whether the next line says that a wire is too short. After a fault no further line is to be
    /// taken in.
    pub(crate) fn check(
        &mut self,
        line: TraceLine,
        short: bool,
    ) -> Result<Option<Fault>, AllocError>
        requires going { self.old.ended ≡ false }
        requires few { self.old.steps < 4294967295 }
        ensures checked { IfOk result (λ fault. (r : ReachedState) → IsReachedState r self.old.state
            → IsLineIn r.nodes (line_read line)
            → Checks r (line_read line) short self.new.state fault) }
        ensures ended { IfOk result (λ _. self.new.ended ≡ is_last (line_read line)) }
        ensures steps { IfOk result (λ _. self.new.steps
            ≡ self.old.steps + length (steps_of (line_read line ∷ []))) }
        ensures most { self.new.steps ≤ self.old.steps + 1 }
    {
        match line {
            TraceLine::Begun(line) => {
                if short {
                    return Ok(None);
                }
                self.state.edit(&line)
            }
            TraceLine::Stepped(boxed) => {
                self.steps += 1;
                self.state.step(boxed.get())
            }
            TraceLine::Sent(port, chars) => self.state.sent(port, chars),
            TraceLine::Got(port, chars) => self.state.got(port, chars.as_slice()),
            TraceLine::Fired(port) => Ok(self.state.fired(port)),
            TraceLine::Lacked(_) => Ok(None),
            TraceLine::Ended | TraceLine::Undetected(..) => {
                self.ended = true;
                Ok(None)
            }
        }
    }
}
