//! What ports hold and free, as steps of plain first-in first-out queues: the packets that the far
//! port holds and this one has not freed, and those that still wait.

ghost use Rattle.std.specs.Prelude.{◌≡◌, true, false, List, ◌∷◌};
ghost use Rattle.link_buffers.specs.Prelude.{IsOutStore, Covers};
ghost use Rattle.link_port.specs.Prelude.{Event, PortState, acts, is_acted, turns_to, timed_out, prios_of};
ghost use Rattle.link_sound.specs.Lent.{lent, waiting, Holds, Frees};
ghost use Rattle.link_sound.specs.Sound.{IsSound};

/// A packet that is held is the first of its priority that waits at the far port, and has room; it
/// is lent from then on. Where none is held, nothing moves.
pub fn packets_are_held_in_order()
    ensures acted { (a b : PortState) (kept_a kept_b : List Event) (e : Event)
        → Covers (prios_of b.output) b.queued → IsOutStore b.queued → is_acted a e ≡ true
        → IsSound a b kept_a (e ∷ kept_b) → Holds b a (acts a e).port (acts a e).held }
    ensures other { (a b : PortState) (e : Event) → is_acted a e ≡ false
        → Holds b a (acts a e).port (acts a e).held }
{}

/// The packets that are freed are the first of those lent, which the far port holds.
pub fn packets_are_freed_in_order()
    ensures acted { (a b : PortState) (kept_a kept_b : List Event) (e : Event)
        → Covers (prios_of a.output) a.queued → is_acted a e ≡ true
        → IsSound a b kept_a (e ∷ kept_b) → Frees a (acts a e).port b (acts a e).freed }
    ensures other { (a b : PortState) (e : Event) → is_acted a e ≡ false
        → Frees a (acts a e).port b (acts a e).freed }
{}

/// Turns and time-outs move no packet: what is to be sent again has waited all the time.
pub fn turns_and_time_outs_move_nothing()
    ensures turn { (a b : PortState) (kept_a kept_b : List Event)
        → Covers (prios_of a.output) a.queued → IsSound a b kept_a kept_b
        → (lent (turns_to a) b ≡ lent a b) × (waiting (turns_to a) b ≡ waiting a b)
        × (lent b (turns_to a) ≡ lent b a) × (waiting b (turns_to a) ≡ waiting b a) }
    ensures time_out { (a b : PortState)
        → (lent (timed_out a) b ≡ lent a b) × (waiting (timed_out a) b ≡ waiting a b)
        × (lent b (timed_out a) ≡ lent b a) × (waiting b (timed_out a) ≡ waiting b a) }
{}
