//! The law of a link, of its states alone. The calls do nothing: their clauses are the laws.
ghost use Rattle.std.specs.Prelude.{◌≡◌, ◌≢◌, ◌<◌, ℕ, Bool, List, None};
ghost use Rattle.link_sound.specs.InTime.{IsToldInTime};
ghost use Rattle.link_machine.specs.InTime.{ends_of_link, RoomAhead, TellsTruly, NoRetries};
ghost use Rattle.link_wires.specs.Deliveries.{told_of};
ghost use Rattle.link_buffers.specs.Queues.{appended, popped};
ghost use Rattle.link_model.specs.Output as out;
ghost use Rattle.link_port.specs.Ports.{PortState, IsPort, AreAlike, new_port};
ghost use Rattle.link_sound.specs.Histories.{AreBuffers};
ghost use Rattle.link_watch.specs.declared.note.Note.{Note};
ghost use Rattle.link_watch.specs.declared.side.Side.{Side};
ghost use Rattle.link_wires.specs.Deliveries.{undetected};
ghost use Rattle.rio_chars.specs.declared.edit.Edit.{Edit};
ghost use Rattle.link_machine.specs.Calls.{pumped, told_from, delivery_from, delivered_from, delivery_notes, edited_from, timed_out_at};
ghost use Rattle.link_machine.specs.Layer.{IsServed, with_port};
ghost use Rattle.link_machine.specs.OnTheWay.{reached_within};
ghost use Rattle.link_machine.specs.Queues.{Queues, queues_of, Walks, note_steps};
ghost use Rattle.link_machine.specs.Runs.{IsRun};
ghost use Rattle.link_machine.specs.Sound.{IsSoundLink};
ghost use Rattle.link_machine.specs.States.{LinkState, link, empty_wires, from_end};

/// A new link with two new ports is sound.
pub fn links_begin_sound()
    ensures { (tells_a tells_b : Bool) (m n : ℕ) → AreBuffers m → AreBuffers n
        → IsSoundLink (link empty_wires (new_port tells_a m) (new_port tells_b n)) }
{}

/// Each call keeps a link sound, whatever is lost, altered, inserted or late.
pub fn calls_keep_it()
    ensures pump { (from : Side) (turns : ℕ) (s : LinkState) → IsSoundLink s
        → IsSoundLink (pumped from turns s) }
    ensures tell { (from : Side) (s : LinkState) → IsSoundLink s → IsSoundLink (told_from from s) }
    ensures deliver { (from : Side) (count : ℕ) (s : LinkState) → IsSoundLink s
        → IsSoundLink (delivered_from from count s) }
    ensures edit { (from : Side) (edit : Edit) (s : LinkState) → IsSoundLink s
        → IsSoundLink (edited_from from edit s) }
    ensures time_out { (side : Side) (s : LinkState) → IsSoundLink s
        → IsSoundLink (timed_out_at side s) }
{}

/// So does the layer above, which takes received packets from the fronts of a port's lists and puts
/// packets at the ends of those to be sent.
pub fn the_layer_above_keeps_it()
    ensures { (side : Side) (next : PortState) (s : LinkState) → IsPort next
        → IsServed (from_end side s).a next
        → IsSoundLink s → IsSoundLink (with_port side next s) }
{}

/// So does every run of calls and of the layer above, up to the first event that was not sent.
pub fn runs_keep_it()
    ensures { (s end : LinkState) (notes : List Note) → IsRun s notes end → IsSoundLink s
        → IsSoundLink end }
{}

/// What `out_put` and `in_pop` of a port do is of the layer above: a packet at the end of a list to
/// be sent, or one less at the front of a received list.
pub fn puts_and_takes_serve()
    ensures put { (port next : PortState) (prio : ℕ) (packet : List ℕ) → IsPort port → prio < 4
        → AreAlike port next → next.queued ≡ appended port.queued prio packet
        → next.received.lists ≡ port.received.lists → IsServed port next }
    ensures take { (port next : PortState) (prio : ℕ) → AreAlike port next
        → next.received.lists ≡ popped port.received.lists prio → next.queued ≡ port.queued
        → IsServed port next }
{}

/// Every packet that a delivery notes as held is the first of its priority that waits at the far
/// port, and has room; every packet noted as freed is the first that the far port holds; in the
/// order of the notes, and nothing else moves. The same is true of what was noted before an event
/// that was not sent.
pub fn deliveries_hold_and_free_in_order()
    ensures all { (from : Side) (count : ℕ) (s : LinkState)
        → undetected (delivery_from from count s) ≡ None → IsSoundLink s
        → Walks (queues_of s) (note_steps (delivery_notes from count s))
        (queues_of (delivered_from from count s)) }
    ensures some { (from : Side) (count : ℕ) (s : LinkState) → IsSoundLink s
        → (end : Queues) × Walks (queues_of s) (note_steps (delivery_notes from count s)) end }
{}

/// Turns, statuses, edits and time-outs move no packet: what is to be sent again has waited all the
/// time.
pub fn nothing_else_moves()
    ensures pump { (from : Side) (turns : ℕ) (s : LinkState) → IsSoundLink s
        → queues_of (pumped from turns s) ≡ queues_of s }
    ensures tell { (from : Side) (s : LinkState) → queues_of (told_from from s) ≡ queues_of s }
    ensures edit { (from : Side) (edit : Edit) (s : LinkState)
        → queues_of (edited_from from edit s) ≡ queues_of s }
    ensures time_out { (side : Side) (s : LinkState)
        → queues_of (timed_out_at side s) ≡ queues_of s }
{}

/// No sender of a sound link has failed.
pub fn no_sender_fails()
    ensures { (s : LinkState) → IsSoundLink s → (s.a.output ≢ out.Output.Failed)
        × (s.b.output ≢ out.Output.Failed) }
{}

/// Nor does one fail within a delivery to a port of a sound link, after any of its events, also if
/// it ends with an event that was not sent. That event itself is not counted.
pub fn no_sender_fails_within_a_delivery()
    ensures { (from : Side) (count events : ℕ) (s : LinkState) → IsSoundLink s
        → (reached_within from count events s).output ≢ out.Output.Failed }
{}

/// If a port of a sound link tells its free buffers, and a report of it reached its peer before
/// that started a packet, the packets of the peer find room, whatever calls and layers follow, up
/// to the first event that was not sent. Nothing that comes to the port is answered with
/// packet-retry then, also within a delivery that ends with such an event.
pub fn told_in_time_means_no_retry()
    ensures begins { (peer : Side) (s : LinkState) → IsToldInTime (ends_of_link (from_end peer s))
        → RoomAhead (from_end peer s) }
    ensures runs { (peer : Side) (s end : LinkState) (notes : List Note) → IsRun s notes end
        → IsSoundLink s → RoomAhead (from_end peer s) → RoomAhead (from_end peer end) }
    ensures told { (peer : Side) (s end : LinkState) (notes : List Note) → IsRun s notes end
        → IsSoundLink s → TellsTruly (from_end peer s) → TellsTruly (from_end peer end) }
    ensures answers { (peer : Side) (count : ℕ) (s : LinkState) → IsSoundLink s
        → RoomAhead (from_end peer s) → NoRetries (told_of (delivery_from peer count s)).replies }
{}
