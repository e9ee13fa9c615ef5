//! `Link`: two wires between two ports.
ghost use Rattle.std.specs.Prelude.{◌≡◌, ◌≤◌, ℕ, length, IfOk, OnOk, OnErr, IsErrOf};
ghost use Rattle.rio_chars.specs.Faults.{Rose};
ghost use Rattle.link_port.specs.Ports.{PortState};
ghost use Rattle.link_machine.specs.Prelude.{Stopped, sent_notes, pumped, pump_notes, is_silent, timed_out_at, time_out_notes, IsSoundLink, link};
ghost use Rattle.link_wires.specs.Wires.{fits, edit_answered};
ghost use Rattle.link_law.specs.Answers.{fired};
ghost use Rattle.link_law.specs.Resting.{has_no_work};
ghost use Rattle.link_machine.specs.Calls.{edited_from};
ghost use Rattle.link_machine.specs.States.{empty_wires, wire_at};

use crate::answers::Fired;
use crate::port_states::are_idle;
use crate::wires::WirePair;
use link_port::Port;
use link_watch::{NoteEnd, Side, Watch};
use link_wires::{Delivery, Edited};
use rio_chars::{Char, Edit, NoMemory};
use std::alloc::Global;
use std::marker::Model;

/// Two wires between two ports, which the caller owns. Each wire is named by the port that sends on
/// it. Lists are dear to make, so a link has those that its calls use; what they hold between calls
/// means nothing.
#[derive(Drop)]
pub struct Link {
    pub(crate) wires: WirePair,
    /// Where it is put what a delivery told.
    pub(crate) came: Delivery,
    /// Where the characters are put that a port sent.
    pub(crate) sent: Vec<Char>,
}

impl Model for Link {
    ghost use Rattle.link_machine.specs.States.{Wires};

    ghost Value = { Wires };

    ghost view = { λ link. link.wires };
}

impl Link {
    /// A link with nothing on its wires. It takes no memory yet.
    pub fn new(alloc: Global) -> Link
        ensures { result ≡ empty_wires }
    {
        Link {
            wires: WirePair::new(alloc),
            came: Delivery::new(alloc),
            sent: Vec::new(alloc),
        }
    }

    /// Where its lists take memory from.
    pub(crate) fn alloc(&self) -> Global {
        *self.sent.allocator()
    }

    /// The number of characters on the wire of the port at this end.
    pub fn length(&self, from: Side) -> usize
        ensures { result ≡ length (wire_at from self.now).chars }
    {
        match from {
            Side::A => self.wires.a.length(),
            Side::B => self.wires.b.length(),
        }
    }

    /// Whether the link has nothing to do: its wires are empty, both directions are at rest, no
    /// packet waits, and no port tells its free buffers. Then turns and settling do nothing.
    pub fn has_no_work(&self, a: &Port, b: &Port) -> bool
        ensures { result ≡ has_no_work (link self.now a.now b.now) }
    {
        self.wires.are_silent() && are_idle(a, b)
    }

    /// Has a port take turns, and puts what it sends on its wire.
    pub fn pump<W: Watch>(
        &mut self,
        alloc: Global,
        from: Side,
        turns: u32,
        a: &mut Port,
        b: &mut Port,
        watch: &mut W,
    ) -> Result<(), NoteEnd>
        ensures link { OnOk result (link self.new a.new b.new
            ≡ pumped from turns (link self.old a.old b.old)) }
        ensures sound { OnOk result (IsSoundLink (link self.old a.old b.old)
            → IsSoundLink (link self.new a.new b.new)) }
        ensures noted { OnOk result (W.grew watch.old
            (pump_notes from turns (link self.old a.old b.old)) watch.new) }
        ensures stopped { OnErr result (Stopped W.grew W.cut watch.old
            (pump_notes from turns (link self.old a.old b.old)) watch.new) }
        ensures cause { IsErrOf result NoteEnd.Failed
            → Rose (W.faults watch.old) (W.faults watch.new) }
        ensures counts { ¬ IsErrOf result NoteEnd.Failed
            → W.faults watch.new ≡ W.faults watch.old }
        ensures never_falls { W.faults watch.old ≤ W.faults watch.new }
    {
        self.wires.turn(from, turns, a, b, &mut self.sent)?;
        note_sent(watch, alloc, from, self.sent.as_slice())
    }

    /// Changes the characters of a wire, and leaves what was sent as it is. Short exactly where the
    /// place of an alteration is not below the length, an erasure goes past the end, or the place
    /// of an insertion lies past the end. Then, and where memory is not given, nothing changes.
    pub fn edit(&mut self, _alloc: Global, from: Side, edit: &Edit) -> Result<Edited, NoMemory>
        ensures short { IfOk result (λ answer. answer
            ≡ edit_answered (fits edit.now (wire_at from self.old).chars)) }
        ensures changed { OnOk result ((a b : PortState)
            → link self.new a b ≡ edited_from from edit.now (link self.old a b)) }
        ensures unchanged { OnErr result (self.new ≡ self.old) }
    {
        match from {
            Side::A => self.wires.a.edit(edit),
            Side::B => self.wires.b.edit(edit),
        }
    }

    /// Fires the time-out of a port, and forgets what was sent both ways. Early exactly where a
    /// wire is not empty; then nothing changes.
    pub fn time_out<W: Watch>(
        &mut self,
        alloc: Global,
        side: Side,
        a: &mut Port,
        b: &mut Port,
        watch: &mut W,
    ) -> Result<Fired, NoteEnd>
        ensures early { IfOk result (λ answer. answer
            ≡ fired (is_silent (link self.old a.old b.old))) }
        ensures link { OnOk result (link self.new a.new b.new
            ≡ timed_out_at side (link self.old a.old b.old)) }
        ensures sound { OnOk result (IsSoundLink (link self.old a.old b.old)
            → IsSoundLink (link self.new a.new b.new)) }
        ensures noted { OnOk result (W.grew watch.old
            (time_out_notes side (link self.old a.old b.old)) watch.new) }
        ensures stopped { OnErr result (Stopped W.grew W.cut watch.old
            (time_out_notes side (link self.old a.old b.old)) watch.new) }
        ensures cause { IsErrOf result NoteEnd.Failed
            → Rose (W.faults watch.old) (W.faults watch.new) }
        ensures counts { ¬ IsErrOf result NoteEnd.Failed
            → W.faults watch.new ≡ W.faults watch.old }
        ensures never_falls { W.faults watch.old ≤ W.faults watch.new }
    {
        if !self.wires.time_out(side, a, b) {
            return Ok(Fired::Early);
        }
        watch.fire(alloc, side)?;
        Ok(Fired::Done)
    }
}

/// Notes characters that a port sent, if there are any.
pub(crate) fn note_sent<W: Watch>(
    watch: &mut W,
    alloc: Global,
    from: Side,
    chars: &[Char],
) -> Result<(), NoteEnd>
    ensures noted { OnOk result (W.grew watch.old (sent_notes from chars.now) watch.new) }
    ensures stopped { OnErr result (Stopped W.grew W.cut watch.old (sent_notes from chars.now)
        watch.new) }
    ensures cause { IsErrOf result NoteEnd.Failed → Rose (W.faults watch.old) (W.faults watch.new) }
    ensures counts { ¬ IsErrOf result NoteEnd.Failed → W.faults watch.new ≡ W.faults watch.old }
    ensures never_falls { W.faults watch.old ≤ W.faults watch.new }
{
    if chars.is_empty() {
        return Ok(());
    }
    watch.sent(alloc, from, chars)
}
