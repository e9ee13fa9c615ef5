//! Small lists of steps: that the definitions say what they should of a worked run, and that each
//! law can fail.

ghost use Rattle.std.specs.Prelude.{[], ◌∷◌, ◌≡◌, map};
ghost use Rattle.fabric_script.specs.Ports.{port_at};
ghost use Rattle.fabric_model.specs.Steps.{LegalFrom, after_all};
ghost use Rattle.fabric_model.specs.Laws.History.{EndDropped, items_ended, gone};
ghost use Rattle.fabric_model.specs.Laws.Holding.{HoldingExactly};
ghost use Rattle.fabric_model.specs.Laws.Leaving.{Once, Unchanged};
ghost use Rattle.fabric_model.specs.Laws.Freeing.{FreedAfterHeld};
ghost use Rattle.fabric_model.specs.Laws.Flows.{SameCourse, SameFlow, EarlierFirst, InOrder};
ghost use Rattle.fabric_model.specs.Laws.Tables.{ByTables};
ghost use Rattle.fabric_model.specs.Laws.Proper.{AreProper};
ghost use Rattle.fabric_model.specs.Laws.Examples.{pair, pair_steps, first, held_once, kept_too, left_twice, twins, left_both, left_as_other, freed_too_early, fork, overtaking};
ghost use Rattle.fabric_model.specs.Laws.Switches.{around, through, circle, parting, SamePriority, moved_elsewhere, dropped_on_its_way, for_7, later_for_7, changing, with_hop_0, with_hop_5, with_hop_3, hopping, large, of_both_sizes, taken_as};

/// A packet is sent over the one link of two endpoints and collected: the steps are legal, and the
/// one item has left.
pub fn over_a_link()
    ensures legal { LegalFrom pair pair_steps (after_all pair pair_steps) }
    ensures gone { gone pair pair_steps ≡ first ∷ [] }
{}

/// These laws do not hold of everything. Each fails of steps that are not legal, or of a network
/// where they do not end, or that holds a number twice; order fails of legal steps where a port
/// stands in two links. Through switches, a packet moves to another port than
/// the table names, and overtakes there; and one is dropped although a port is named.
pub fn laws_can_fail()
    ensures holding_exactly { HoldingExactly pair held_once kept_too → ⊥ }
    ensures once { Once pair left_twice → ⊥ }
    ensures never_twice { Once twins left_both → ⊥ }
    ensures unchanged { Unchanged pair left_as_other → ⊥ }
    ensures freed_after_held { FreedAfterHeld pair freed_too_early → ⊥ }
    ensures fork_is_legal { LegalFrom fork overtaking (after_all fork overtaking) }
    ensures in_order { InOrder fork overtaking → ⊥ }
    ensures moved { ByTables around moved_elsewhere → ⊥ }
    ensures overtakes { InOrder around moved_elsewhere → ⊥ }
    ensures dropped { ByTables around dropped_on_its_way → ⊥ }
{}

/// A packet goes from an endpoint through two switches to another endpoint. Each port stands in at
/// most one link, the steps are legal, and the one item has left.
pub fn through_switches()
    ensures proper { AreProper around.links }
    ensures legal { LegalFrom around through (after_all around through) }
    ensures gone { gone around through ≡ first ∷ [] }
{}

/// On a route that runs in a circle an older packet can stand behind a later one of its flow: their
/// places say nothing of their order, and how many places each has passed does.
pub fn circles_are_legal()
    ensures legal { LegalFrom around circle (after_all around circle) }
    ensures stand { map (λ item. item.number) ((after_all around circle).waiting (port_at 2 1) 0)
        ≡ 1 ∷ 0 ∷ [] }
{}

/// Two packets of one port and one priority can part at a switch, and the later one leave first: a
/// flow has one destination.
pub fn flows_can_part()
    ensures legal { LegalFrom around parting (after_all around parting) }
    ensures order { EarlierFirst SamePriority around parting → ⊥ }
{}

/// The order of a flow needs that the routes of its destination stand: registers answer a write
/// that changes one, and the later of two packets leaves while the earlier one waits.
pub fn routes_can_change()
    ensures legal { LegalFrom around changing (after_all around changing) }
    ensures left { gone around changing ≡ taken_as 3 later_for_7 later_for_7 ∷ [] }
    ensures waits { (after_all around changing).waiting (port_at 2 1) 0
        ≡ taken_as 0 for_7 for_7 ∷ [] }
{}

/// A flow has one hop count: the earlier of two packets that differ in it is dropped at the end of
/// its hops, and the later one leaves, with its hop count lowered at each switch.
pub fn hop_counts_part_flows()
    ensures legal { LegalFrom around hopping (after_all around hopping) }
    ensures dropped { items_ended around hopping EndDropped ≡ taken_as 0 with_hop_0 with_hop_0
        ∷ [] }
    ensures left { gone around hopping ≡ taken_as 1 with_hop_5 with_hop_3 ∷ [] }
{}

/// A packet with IDs of 16 bits goes the way of one with IDs of 8 bits that are the same numbers: a
/// destination of either size has the entry of its number. Two such packets are of one course, but
/// of two flows.
pub fn sizes_part_flows()
    ensures legal { LegalFrom around of_both_sizes (after_all around of_both_sizes) }
    ensures left { gone around of_both_sizes ≡ first ∷ taken_as 1 large large ∷ [] }
    ensures course { SameCourse first (taken_as 1 large large) }
    ensures flow { SameFlow first (taken_as 1 large large) → ⊥ }
{}
