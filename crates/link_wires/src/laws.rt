//! Acted events are sent ones, in order. The calls do nothing: their clauses are the laws.
ghost use Rattle.std.specs.Prelude.{◌≡◌, ◌↔◌, List, [], ◌∷◌, ◌++◌, Some, None, IsSome};
ghost use Rattle.rio_chars.specs.declared.chars.Char.{Char};
ghost use Rattle.link_model.specs.Said.{said};
ghost use Rattle.link_port.specs.Prelude.{Event, PortState};
ghost use Rattle.link_wires.specs.Acting.{acted_all};
ghost use Rattle.link_wires.specs.Deliveries.{Told, Flow, Through, WentUndetected, goes_on, flows, delivered, undetected};
ghost use Rattle.link_wires.specs.Kept.{behind, behind_all, IsSubsequence};

/// With what was sent and what was acted on since the last silence: each acted event is found, by a
/// search from the front for the first event that equals it behind the one found before, exactly
/// where the acted events are a subsequence of the sent ones. What the search leaves is what is
/// kept: one more acted event is looked for in it, and what is sent later goes to its end.
pub fn acted_events_are_sent_ones()
    ensures exact { (acted sent : List Event) → IsSome (behind_all acted sent)
        ↔ IsSubsequence acted sent }
    ensures acted { (acted sent kept : List Event) (e : Event) → behind_all acted sent ≡ Some kept
        → behind_all (acted ++ e ∷ []) sent ≡ behind e kept }
    ensures sent { (acted sent kept more : List Event) → behind_all acted sent ≡ Some kept
        → behind_all acted (sent ++ more) ≡ Some (kept ++ more) }
{}

/// Characters may come in pieces, cut anywhere. What is kept after a delivery is what the search
/// for its acted events leaves of what was kept before; and an event that was not sent is one that
/// the search does not find behind those before it.
pub fn deliveries_go_by_pieces()
    ensures pieces { (xs ys : List Char) (flow : Flow)
        → flows (xs ++ ys) flow ≡ goes_on (flows ys) (flows xs flow) }
    ensures kept { (port : PortState) (kept : List Event) (chars : List Char) (flow : Flow)
        → delivered port kept chars ≡ Through flow
        → behind_all flow.told.acted kept ≡ Some flow.kept }
    ensures undetected { (port : PortState) (kept : List Event) (chars : List Char) (told : Told)
        (e : Event)
        → delivered port kept chars ≡ WentUndetected told e
        → behind_all (told.acted ++ e ∷ []) kept ≡ None }
{}

/// With what was sent and what was acted on since the last silence: a delivery finds no event that
/// was not sent exactly if all that was acted on, and behind it all that the step tables have the
/// port act on of what these characters say, stands in this order among what was sent.
pub fn a_delivery_acts_on_what_was_sent()
    ensures { (port : PortState) (acted sent kept : List Event) (chars : List Char)
        → behind_all acted sent ≡ Some kept
        → (undetected (delivered port kept chars) ≡ None)
        ↔ IsSubsequence (acted ++ acted_all port (said port.place chars)) sent }
{}
