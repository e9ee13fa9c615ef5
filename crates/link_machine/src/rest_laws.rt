//! What holds of settling. The calls do nothing: their clauses are the laws.

ghost use Rattle.std.specs.Prelude.{◌≡◌, ℕ, ◌<◌, ◌≤◌, Bool, true, List, [], length};
ghost use Rattle.rio_chars.specs.declared.chars.Char.{Char};
ghost use Rattle.link_port.specs.Ports.{new_port};
ghost use Rattle.link_port.specs.Prelude.{Pending, PortState, expected_of, is_ready};
ghost use Rattle.link_machine.specs.Layer.{IsServed, with_port};
ghost use Rattle.link_machine.specs.Prelude.{Side, IsSoundLink, LinkState, from_end};
ghost use Rattle.link_machine.specs.States.{link, empty_wires};
ghost use Rattle.link_machine.specs.Acts.{Act, Reached, At, goes, OnState};
ghost use Rattle.link_machine.specs.Calm.{IsCalm, IsStillCalm};
ghost use Rattle.link_machine.specs.Counts.{fires};
ghost use Rattle.link_machine.specs.Led.{port_answers, chars_of};
ghost use Rattle.link_machine.specs.Rest.{IsQuiet, IsSettled, IsRound, HasPassed, KnowsRoom};
ghost use Rattle.link_machine.specs.Settling.{of_end, Drains, TakesTurn, Settles};

/// What a port answers, whatever came to it, has no answer at a port that has no symbol in
/// progress.
pub fn answers_have_no_answer()
    ensures { (p q : PortState) (chars : List Char)
        → expected_of p.input < 32 → p.received.buffers < 32 → q.place.pending ≡ Pending.Nothing
        → port_answers q (chars_of (port_answers p chars)) ≡ [] }
{}

/// A drain of a sound link is at most five deliveries, whatever stood on its wires and however the
/// framers stood. It ends: from every sound link there is one. After it the link is sound, and both
/// wires are empty.
pub fn drains_end()
    ensures five { (s : LinkState) (all : List Act) → IsSoundLink s
        → Drains (At s) all → length all ≤ 5 }
    ensures exists { (s : LinkState) → IsSoundLink s → (all : List Act) × Drains (At s) all }
    ensures empty { (s : LinkState) (all : List Act) → IsSoundLink s → Drains (At s) all
        → OnState (λ m. IsSoundLink m × (m.wire_a.chars ≡ []) × (m.wire_b.chars ≡ []))
        (goes (At s) all) }
{}

/// Settling fires at most one time-out of each side.
pub fn each_side_fires_once()
    ensures { (side : Side) (from : Reached) (all : List Act)
        → Settles from all → fires side all ≤ 1 }
{}

/// If both directions are at rest, a turn that starts a packet, with what comes of it, passes the
/// first packet of the highest priority that has one; or that packet has no room, and the port is
/// to restart. It always passes, if the far port tells its free buffers and this side knows of
/// them.
pub fn rounds_pass_packets()
    ensures round { (near : Side) (s : LinkState) (all : List Act) → IsSoundLink s → IsQuiet s
        → of_end near (λ link. is_ready link.a) (At s) ≡ true → TakesTurn near (At s) all
        → OnState (λ m. IsSoundLink m × IsRound (from_end near s) (from_end near m))
        (goes (At s) all) }
    ensures told { (near : Side) (s : LinkState) (all : List Act) → IsSoundLink s → IsQuiet s
        → KnowsRoom (from_end near s).a (from_end near s).b
        → of_end near (λ link. link.b.tells) (At s) ≡ true
        → of_end near (λ link. is_ready link.a) (At s) ≡ true → TakesTurn near (At s) all
        → OnState (λ m. HasPassed (from_end near s) (from_end near m)) (goes (At s) all) }
{}

/// From every sound link there is a way to settle it.
pub fn settling_ends()
    ensures { (s : LinkState) → IsSoundLink s → (all : List Act) × Settles (At s) all }
{}

/// There is at most one way to settle a link.
pub fn one_way_to_settle()
    ensures { (from : Reached) (one other : List Act) → Settles from one → Settles from other
        → one ≡ other }
{}

/// Settling ends at rest, from every sound state, whatever stood on the wires and however the
/// framers stood, if every event that was acted on was sent.
pub fn settling_ends_at_rest()
    ensures { (s : LinkState) (all : List Act) → IsSoundLink s → Settles (At s) all
        → OnState (λ m. IsSoundLink m × IsSettled m) (goes (At s) all) }
{}

/// Without an edit no event ever goes undetected. A link is calm if what its wires say was sent in
/// this order and is not acted on yet, and nothing is in progress behind it. A new link is calm,
/// and one that is quiet, whatever came before. Whatever turns, deliveries and time-outs come on a
/// sound and calm link, each event that is acted on was sent, and the link is sound and calm again.
/// The layer above keeps it so.
pub fn nothing_undetected_without_an_edit()
    ensures begins { (tells_a tells_b : Bool) (m n : ℕ)
        → IsCalm (link empty_wires (new_port tells_a m) (new_port tells_b n)) }
    ensures quiet { (s : LinkState) → IsQuiet s → IsCalm s }
    ensures layer { (side : Side) (next : PortState) (s : LinkState)
        → IsServed (from_end side s).a next → IsCalm s → IsCalm (with_port side next s) }
    ensures acts { (s : LinkState) (acts : List Act) → IsSoundLink s → IsCalm s
        → IsStillCalm (goes (At s) acts) }
{}
