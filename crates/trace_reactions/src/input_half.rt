//! The input half of a port by its step table, and the reactions that are due.

ghost use Rattle.std.specs.Prelude.{◌≡◌, ◌-◌, ◌∷◌, ◌++◌, ℕ, [], drop, length, slice_get, IfOk, IsSome};
ghost use Rattle.rio_packets.specs.declared.cause.Cause.{Cause};
ghost use Rattle.rio_packets.specs.Fields.{prio_of};
ghost use Rattle.rio_symbols.specs.Fields.{Fields};
ghost use Rattle.link_model.specs.declared.event.Event.TheVariants.{Bad as ABad, Ctl as ACtl, Pkt as APkt};
ghost use Rattle.link_model.specs.Input.{input_accepted, input_error, LinkRequest, receives, RestartFromRetry};
ghost use Rattle.link_model.specs.Reports.{untold};
ghost use Rattle.trace_reactions.specs.declared.input_half.InputState.TheVariants as S;
ghost use Rattle.trace_reactions.specs.InputHalves.{after_entry, events_of_told, has_room_behind, input_kept, new_input, after_one_event, after_events};

use crate::reactions::{Reaction, ReactionKind};
use rio_framer::{Framer, Told};
use rio_symbols::Symbol;
use rio_symbols::cmd::INPUT_STATUS;
use rio_symbols::stype1::{LINK_REQUEST, RESTART_FROM_RETRY};
use std::alloc::{AllocError, Global};
use std::collections::VecDeque;

/// The states of an input half.
#[derive(Clone, Copy, Debug, PartialEq, Eq)]
pub(crate) enum InputState {
    /// Packets are taken.
    Ok,
    /// A packet was asked for again, and restart-from-retry is waited for.
    RetryStopped,
    /// An error was met, and a link-request is waited for.
    ErrorStopped,
}

/// How many receive buffers the port has, its state, the ackID that it expects next, how many
/// packets it holds, and the reactions that are due, the oldest first.
#[derive(Drop)]
pub(crate) struct InputHalf {
    buffers: u8,
    state: InputState,
    expected: u8,
    held: u64,
    due: VecDeque<Reaction>,
}

impl InputHalf {
    /// Nothing has come.
    pub(crate) fn new(alloc: Global, buffers: u8) -> InputHalf
        ensures { input_kept result ≡ new_input buffers }
    {
        InputHalf {
            buffers,
            state: InputState::Ok,
            expected: 0,
            held: 0,
            due: VecDeque::new(alloc),
        }
    }

    /// How many reactions are due.
    pub(crate) fn due(&self) -> usize
        ensures { result ≡ length self.now.due.items }
    {
        self.due.len()
    }

    /// What the last characters told comes.
    pub(crate) fn take(&mut self, told: Told, framer: &Framer) -> Result<(), AllocError>
        requires { (symbol : Fields) → told ≡ Told.Ends symbol → IsSome framer.now.ended }
        ensures { IfOk result (λ _. input_kept self.new
            ≡ after_events (input_kept self.old) (events_of_told told framer.now.ended)) }
    {
        match told {
            Told::Nothing => Ok(()),
            Told::Ctl(symbol) => self.symbol(&symbol),
            Told::Bad(_) => self.bad(),
            Told::Ends(symbol) => {
                match framer.ended() {
                    Ok((ack, form)) => self.packet(ack, form)?,
                    Err(_) => self.bad()?,
                }
                self.symbol(&symbol)
            }
        }
    }

    /// A good packet comes.
    fn packet(&mut self, ack: u8, form: &[u8]) -> Result<(), AllocError>
        ensures { IfOk result (λ _. input_kept self.new
            ≡ after_one_event (input_kept self.old) (APkt ack form.now)) }
    {
        if self.state != InputState::Ok {
            return Ok(());
        }
        if ack != self.expected {
            return self.stop();
        }
        if !self.has_room(prio_of(form)) {
            self.state = InputState::RetryStopped;
            return self.owe(ReactionKind::Retry);
        }
        self.accept()
    }

    /// A packet is taken, in the state `Ok`. A count of 2^64 would take more characters than memory
    /// holds.
    fn accept(&mut self) -> Result<(), AllocError>
        requires { self.old.state ≡ S.Ok }
        ensures { IfOk result (λ _. input_kept self.new
            ≡ after_entry (input_kept self.old) (input_accepted self.old.expected untold)) }
    {
        self.owe(ReactionKind::Accepted)?;
        self.expected = self.expected.wrapping_add(1) % 32;
        match self.held.checked_add(1) {
            Some(held) => self.held = held,
            None => return Err(AllocError),
        }
        Ok(())
    }

    /// Whether a packet of this priority has room.
    fn has_room(&self, prio: u8) -> bool
        ensures { result ≡ has_room_behind self.now.held self.now.buffers prio }
    {
        let buffers = u64::from(self.buffers);
        let higher = 3u8.saturating_sub(prio);
        match self.held.checked_add(u64::from(higher)) {
            Some(count) => count < buffers,
            None => false,
        }
    }

    /// A symbol comes.
    fn symbol(&mut self, symbol: &Symbol) -> Result<(), AllocError>
        ensures { IfOk result (λ _. input_kept self.new
            ≡ after_one_event (input_kept self.old) (ACtl symbol.now)) }
    {
        match symbol.s1 {
            RESTART_FROM_RETRY => self.restart(),
            LINK_REQUEST if symbol.cmd == INPUT_STATUS => self.request(),
            _ => Ok(()),
        }
    }

    /// A restart-from-retry comes.
    fn restart(&mut self) -> Result<(), AllocError>
        ensures { IfOk result (λ _. input_kept self.new ≡ after_entry (input_kept self.old)
            (receives RestartFromRetry (input_kept self.old).input)) }
    {
        match self.state {
            InputState::Ok => self.stop(),
            InputState::RetryStopped => {
                self.state = InputState::Ok;
                Ok(())
            }
            InputState::ErrorStopped => Ok(()),
        }
    }

    /// A link-request comes.
    fn request(&mut self) -> Result<(), AllocError>
        ensures { IfOk result (λ _. input_kept self.new ≡ after_entry (input_kept self.old)
            (receives LinkRequest (input_kept self.old).input)) }
    {
        self.state = InputState::Ok;
        self.owe(ReactionKind::Response)
    }

    /// What comes is neither a symbol nor a packet.
    fn bad(&mut self) -> Result<(), AllocError>
        ensures { IfOk result (λ _. (cause : Cause) → input_kept self.new
            ≡ after_one_event (input_kept self.old) (ABad cause)) }
    {
        match self.state {
            InputState::Ok => self.stop(),
            InputState::RetryStopped => self.stop(),
            InputState::ErrorStopped => Ok(()),
        }
    }

    /// An error is met.
    fn stop(&mut self) -> Result<(), AllocError>
        ensures { IfOk result (λ _. input_kept self.new
            ≡ after_entry (input_kept self.old) (input_error self.old.expected 31)) }
    {
        self.state = InputState::ErrorStopped;
        self.owe(ReactionKind::NotAccepted)
    }

    /// One more reaction is due, with the ackID that is expected.
    fn owe(&mut self, kind: ReactionKind) -> Result<(), AllocError>
        ensures due { IfOk result (λ _. self.new.due.items
            ≡ self.old.due.items ++ record { kind = kind; ack = self.old.expected } ∷ []) }
        ensures rest { self.new ≡ record self.old { due = self.new.due } }
    {
        self.due.push_back(Reaction {
            kind,
            ack: self.expected,
        })?;
        Ok(())
    }

    /// Takes away the first reaction that is due.
    pub(crate) fn pop(&mut self) -> Option<Reaction>
        ensures first { result ≡ slice_get self.old.due.items 0 }
        ensures due { self.new.due.items ≡ drop 1 self.old.due.items }
        ensures rest { self.new ≡ record self.old { due = self.new.due } }
    {
        self.due.pop_front()
    }

    /// A packet has gone.
    pub(crate) fn give(&mut self)
        ensures { input_kept self.new ≡ record (input_kept self.old) {
          held = self.old.held - 1;
        } }
    {
        self.held = self.held.saturating_sub(1);
    }
}

/// The priority of a packet in its link form.
fn prio_of(form: &[u8]) -> u8
    ensures { result ≡ prio_of form.now }
{
    match form {
        [_, second, ..] => *second >> 6,
        _ => 0,
    }
}
