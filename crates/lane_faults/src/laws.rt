//! The laws of wrong bits. The calls do nothing: their clauses are the laws.
ghost use Rattle.std.specs.Prelude.{◌≡◌, ◌<◌, ℕ, Bool, true, false, List, [], ◌∷◌, ◌++◌, length, Option, None};
ghost use Rattle.rio_chars.specs.declared.chars.Char.{Char};
ghost use Rattle.code_groups.specs.declared.disparity.Disparity.{Disparity};
ghost use Rattle.code_groups.specs.Changes.{with_wrong_bit_at};
ghost use Rattle.code_groups.specs.Streams.{groups_from, AreHeardAs};
ghost use Rattle.link_model.specs.Places.{Place, run};
ghost use Rattle.link_model.specs.Said.{said};
ghost use Rattle.link_model.specs.declared.event.Event.{Event};
ghost use Rattle.link_port.specs.Prelude.{PortState};
ghost use Rattle.link_port.specs.Ports.{new_port};
ghost use Rattle.link_sound.specs.Histories.{AreBuffers};
ghost use Rattle.link_machine.specs.States.{link, empty_wires};
ghost use Rattle.link_wires.specs.Deliveries.{delivered, undetected};
ghost use Rattle.lane_faults.specs.Among.{GoodStandIn, AreGood, IsGoodEvent};
ghost use Rattle.lane_faults.specs.LaneRuns.{HeardUpTo, lanes_of, EndsUndetected};
ghost use Rattle.lane_faults.specs.Mistakes.{HeardWithMistakes};
ghost use Rattle.lane_faults.specs.WrongBits.{AreUsed, with_wrong_bits, AreApart};

/// Wrong bits, of which a special character stands between any two, are heard as mistakes: each
/// changes one character, by which none becomes a delimiter and data stays in its sub-block, and
/// an invalid character stands at the next special character at the latest.
pub fn wrong_bits_are_heard_as_mistakes()
    ensures { (before : Disparity) (chars heard : List Char) (wrong : List (Option ℕ))
        → AreUsed chars → AreApart true chars wrong
        → AreHeardAs before (with_wrong_bits wrong (groups_from before chars)) heard
        → HeardWithMistakes false chars heard }
{}

/// Mistakes make no event that was not sent, if what was sent has no bad event: each good event
/// that is read of what was heard stands at its place among those of what was sent.
pub fn no_event_is_made_by_mistakes()
    ensures { (from : Place) (at : ℕ) (sent heard : List Char) → HeardWithMistakes false sent heard
        → AreGood (run from at sent) → GoodStandIn (run from at heard) (run from at sent) }
{}

/// The same of the wrong bits themselves, from any place and any disparity on.
pub fn no_event_is_made_by_wrong_bits()
    ensures { (before : Disparity) (from : Place) (at : ℕ) (chars heard : List Char)
        (wrong : List (Option ℕ)) → AreUsed chars → AreApart true chars wrong
        → AreHeardAs before (with_wrong_bits wrong (groups_from before chars)) heard
        → AreGood (run from at chars) → GoodStandIn (run from at heard) (run from at chars) }
{}

/// The same of one wrong bit, wherever it is.
pub fn one_wrong_bit_makes_no_event()
    ensures { (before : Disparity) (from : Place) (at place bit : ℕ) (chars heard : List Char)
        → AreUsed chars → bit < 10
        → AreHeardAs before (with_wrong_bit_at place bit (groups_from before chars)) heard
        → AreGood (run from at chars) → GoodStandIn (run from at heard) (run from at chars) }
{}

/// A good event stands in no empty list.
pub fn good_events_need_a_place()
    ensures { (at : ℕ) (event : Event) → IsGoodEvent event
        → GoodStandIn ((at, event) ∷ []) [] → ⊥ }
{}

/// A delivery over a lane with such wrong bits, to any port, finds no event that was not sent.
pub fn no_delivery_is_undetected()
    ensures { (before : Disparity) (port : PortState) (chars heard : List Char)
        (wrong : List (Option ℕ)) → AreUsed chars → AreApart true chars wrong
        → AreHeardAs before (with_wrong_bits wrong (groups_from before chars)) heard
        → AreGood (run port.place 0 chars)
        → undetected (delivered port (said port.place chars) heard) ≡ None }
{}

/// What is heard with mistakes may be taken in two pieces, cut anywhere: the second goes on as the
/// first left the receiver, astray or not.
pub fn mistakes_are_heard_in_pieces()
    ensures { (astray : Bool) (front back heard : List Char)
        → HeardWithMistakes astray (front ++ back) heard
        → (first second : List Char) × (after : Bool) × (heard ≡ first ++ second)
        × HeardUpTo astray front first after × HeardWithMistakes after back second }
{}

/// No run of a link over such lanes ends undetected: from a new link on, whatever turns, statuses,
/// time-outs and deliveries come, and whatever the layer above does, each event that a port acts on
/// was sent, if of the characters that it takes it hears what wrong bits that are apart make of
/// them.
pub fn no_run_ends_undetected()
    ensures { (tells_a tells_b : Bool) (m n : ℕ) → AreBuffers m → AreBuffers n
        → EndsUndetected (lanes_of (link empty_wires (new_port tells_a m) (new_port tells_b n)))
        → ⊥ }
{}
