//! Deliveries of a link.
ghost use Rattle.std.specs.Prelude.{◌≡◌, ◌≤◌, ◌++◌, ◌∷◌, [], map, OnOk, OnErr, IsErrOf};
ghost use Rattle.rio_chars.specs.Faults.{Rose};
ghost use Rattle.link_machine.specs.Prelude.{Stopped, Got, sent_notes, move_note, delivered_from, delivery_notes, queues_of, Walks, IsSoundLink, link};
ghost use Rattle.link_machine.specs.Queues.{note_steps};
ghost use Rattle.link_law.specs.Answers.{delivery_answer, delivery_end, UnlessGivenUp, OnGivenUp};

use crate::answers::LinkEnd;
use crate::link::{Link, note_sent};
use link_port::Port;
use link_watch::{NoteEnd, Side, Watch};
use link_wires::{Delivery, Edited, Move, UndetectedEvent};
use rio_chars::Char;
use std::alloc::Global;

impl Link {
    /// Has the port at the other end take characters from the front of a wire. Short exactly where
    /// the wire has fewer; then nothing changes. Undetected exactly where the port acts on an event
    /// that equals none of those that were sent and that no acted event has met; it names that port
    /// and the first such event. After it, and after `Failed` and `NoMemory`, the link and its
    /// ports are of no use.
    pub fn deliver<W: Watch>(
        &mut self,
        alloc: Global,
        from: Side,
        count: u32,
        a: &mut Port,
        b: &mut Port,
        watch: &mut W,
    ) -> Result<Edited, LinkEnd>
        requires some { 1 ≤ count }
        ensures answer { UnlessGivenUp result (result
            ≡ delivery_answer from count (link self.old a.old b.old)) }
        ensures link { OnOk result (link self.new a.new b.new
            ≡ delivered_from from count (link self.old a.old b.old)) }
        ensures sound { OnOk result (IsSoundLink (link self.old a.old b.old)
            → IsSoundLink (link self.new a.new b.new)) }
        ensures steps { OnOk result (IsSoundLink (link self.old a.old b.old)
            → Walks (queues_of (link self.old a.old b.old))
            (note_steps (delivery_notes from count (link self.old a.old b.old)))
            (queues_of (link self.new a.new b.new))) }
        ensures noted { UnlessGivenUp result (W.grew watch.old
            (delivery_notes from count (link self.old a.old b.old)) watch.new) }
        ensures stopped { OnGivenUp result (Stopped W.grew W.cut watch.old
            (delivery_notes from count (link self.old a.old b.old)) watch.new) }
        ensures cause { IsErrOf result LinkEnd.Failed
            → Rose (W.faults watch.old) (W.faults watch.new) }
        ensures counts { ¬ IsErrOf result LinkEnd.Failed
            → W.faults watch.new ≡ W.faults watch.old }
        ensures never_falls { W.faults watch.old ≤ W.faults watch.new }
    {
        let count = count as usize;
        if !self.wires.has(from, count) {
            return Ok(Edited::Short);
        }
        let to = from.other();
        let undetected = self
            .wires
            .carry(alloc, from, count, a, b, &mut self.came, &mut self.sent)?;
        note_delivery(watch, alloc, to, &self.came, self.sent.as_slice())?;
        ended(to, undetected)
    }
}

/// The answer, by the event that was not sent.
fn ended(to: Side, undetected: Option<UndetectedEvent>) -> Result<Edited, LinkEnd>
    ensures { result ≡ delivery_end to undetected }
{
    match undetected {
        Some(event) => Err(LinkEnd::Undetected(to, event)),
        None => Ok(Edited::Done),
    }
}

/// Notes what a port got, then what it held and freed as it happened, then its answers.
fn note_delivery<W: Watch>(
    watch: &mut W,
    alloc: Global,
    to: Side,
    came: &Delivery,
    answers: &[Char],
) -> Result<(), NoteEnd>
    ensures noted { OnOk result (W.grew watch.old
        (Got to came.now.got.items ∷ (map (move_note to) came.now.moves.items
        ++ sent_notes to answers.now)) watch.new) }
    ensures stopped { OnErr result (Stopped W.grew W.cut watch.old
        (Got to came.now.got.items ∷ (map (move_note to) came.now.moves.items
        ++ sent_notes to answers.now)) watch.new) }
    ensures cause { IsErrOf result NoteEnd.Failed → Rose (W.faults watch.old) (W.faults watch.new) }
    ensures counts { ¬ IsErrOf result NoteEnd.Failed → W.faults watch.new ≡ W.faults watch.old }
    ensures never_falls { W.faults watch.old ≤ W.faults watch.new }
{
    watch.got(alloc, to, came.got.as_slice())?;
    note_moves(watch, alloc, to, came.moves.as_slice())?;
    note_sent(watch, alloc, to, answers)
}

/// Notes what a port did with packets, as it happened.
fn note_moves<W: Watch>(
    watch: &mut W,
    alloc: Global,
    to: Side,
    moves: &[Move],
) -> Result<(), NoteEnd>
    ensures noted { OnOk result (W.grew watch.old (map (move_note to) moves.now) watch.new) }
    ensures stopped { OnErr result (Stopped W.grew W.cut watch.old (map (move_note to) moves.now)
        watch.new) }
    ensures cause { IsErrOf result NoteEnd.Failed → Rose (W.faults watch.old) (W.faults watch.new) }
    ensures counts { ¬ IsErrOf result NoteEnd.Failed → W.faults watch.new ≡ W.faults watch.old }
    ensures never_falls { W.faults watch.old ≤ W.faults watch.new }
{
    for step in moves {
        note_move(watch, alloc, to, step)?;
    }
    Ok(())
}

/// Notes what a port did with a packet.
fn note_move<W: Watch>(watch: &mut W, alloc: Global, to: Side, step: &Move) -> Result<(), NoteEnd>
    ensures noted { OnOk result (W.grew watch.old (move_note to step.now ∷ []) watch.new) }
    ensures stopped { OnErr result (W.cut watch.old (move_note to step.now) watch.new) }
    ensures cause { IsErrOf result NoteEnd.Failed → Rose (W.faults watch.old) (W.faults watch.new) }
    ensures counts { ¬ IsErrOf result NoteEnd.Failed → W.faults watch.new ≡ W.faults watch.old }
    ensures never_falls { W.faults watch.old ≤ W.faults watch.new }
{
    match step {
        Move::Held(packet) => watch.hold(alloc, to, packet),
        Move::Freed(packet) => watch.free(alloc, to, packet),
    }
}
