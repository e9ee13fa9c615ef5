//! The laws of the plain network, each as the contract of a function with an empty body.
//!
//! A law speaks of every script, of every list of steps that is legal from an empty network, or of
//! every block that settles a link: of any number of nodes, ports and priorities, and of any
//! buffers.

ghost use Rattle.std.specs.Prelude.{◌≡◌, ◌↔◌, ℕ, ◌+◌, ◌-◌, ◌<◌, true, false, List, ◌++◌};
ghost use Rattle.std.specs.List.{AllByRecursion};
ghost use Rattle.rio_packets.specs.Fields.{is_request};
ghost use Rattle.maint_registers.specs.Within.{IsWithin};
ghost use Rattle.fabric_script.specs.declared.ports.PortRef.{PortRef};
ghost use Rattle.fabric_model.specs.Network.{Network, held, room_in, room_out, to_send};
ghost use Rattle.fabric_model.specs.Steps.{Step, LegalFrom, after_all};
ghost use Rattle.fabric_model.specs.Laws.History.{IsEmptyNetwork};
ghost use Rattle.fabric_model.specs.Laws.Holding.{HoldingExactly};
ghost use Rattle.fabric_model.specs.Laws.Leaving.{Once, Unchanged, packets_left};
ghost use Rattle.fabric_model.specs.Laws.Freeing.{FreedAfterHeld};
ghost use Rattle.fabric_model.specs.Laws.Tables.{ByTables};
ghost use Rattle.fabric_model.specs.Laws.Flows.{SameCourse, EarlierFirst, InOrder};
ghost use Rattle.fabric_model.specs.Laws.Proper.{AreProper};
ghost use Rattle.fabric_model.specs.Laws.Priorities.{ByPriority};
ghost use Rattle.fabric_model.specs.Laws.Nodes.{JoinsNodes, StandAtNodes, all_ports};
ghost use Rattle.fabric_model.specs.Laws.Room.{HasPlaces};
ghost use Rattle.fabric_model.specs.Laws.Stock.{stock, takes_by, leaves_by, drops_by, steps_in, Balances, StandOnce};
ghost use Rattle.fabric_model.specs.Laws.Forms.{IsFormed, AnswersPass};

/// The network holds exactly the packets taken: each number that was given out stands in exactly
/// one place, in one list of a port and a priority or among those that have left, were dropped or
/// were answered.
pub fn holding_exactly()
    ensures { (start : Network) (steps : List Step) (end : Network) → IsEmptyNetwork start
        → LegalFrom start steps end → HoldingExactly start steps end }
{}

/// No packet leaves twice.
pub fn once()
    ensures { (start : Network) (steps : List Step) (end : Network) → IsEmptyNetwork start
        → LegalFrom start steps end → Once start steps }
{}

/// What leaves is what was taken, after as many moves as it has made: the hop count of a
/// maintenance packet is lowered by one for each, with its CRC made again, and no other packet
/// changes.
pub fn unchanged()
    ensures { (start : Network) (steps : List Step) (end : Network) → IsEmptyNetwork start
        → LegalFrom start steps end → Unchanged start steps }
{}

/// No port frees a packet before the next hop holds it.
pub fn freed_after_held()
    ensures { (start : Network) (steps : List Step) (end : Network) → IsEmptyNetwork start
        → LegalFrom start steps end → FreedAfterHeld start steps }
{}

/// Every packet goes where the registers of its node name at that moment, and nothing but an answer
/// changes registers.
pub fn by_tables()
    ensures { (start : Network) (steps : List Step) (end : Network) → LegalFrom start steps end
        → ByTables start steps }
{}

/// Of two items of one flow the one that was taken first leaves first, or was answered, over any
/// number of switches and also if a route runs in a circle. In between the routes of their
/// destination stand, and each port stands in at most one link.
pub fn in_order()
    ensures { (start : Network) (steps : List Step) (end : Network) → IsEmptyNetwork start
        → AreProper start.links → LegalFrom start steps end → InOrder start steps }
{}

/// The same of any two items of one course, so of flows that are told apart by all but the source
/// and the transport type.
pub fn in_order_of_course()
    ensures { (start : Network) (steps : List Step) (end : Network) → IsEmptyNetwork start
        → AreProper start.links → LegalFrom start steps end
        → EarlierFirst SameCourse start steps }
{}

/// Each list of a network holds packets of its own priority alone.
pub fn by_priority()
    ensures { (start : Network) (steps : List Step) (end : Network) → IsEmptyNetwork start
        → LegalFrom start steps end → ByPriority end }
{}

/// Packets stand at ports of nodes alone, in the lists of the four priorities, if each endpoint has
/// its port and each link joins ports of nodes. Both stay whatever legal steps follow.
pub fn items_stand_at_nodes()
    ensures reached { (start : Network) (steps : List Step) (end : Network)
        → IsEmptyNetwork start → JoinsNodes start → LegalFrom start steps end → StandAtNodes end }
    ensures kept { (start : Network) (steps : List Step) (end : Network) → JoinsNodes start
        → StandAtNodes start → LegalFrom start steps end → JoinsNodes end × StandAtNodes end }
{}

/// What was taken stands at a port, has left or was dropped; an answer ends one packet and gives
/// one. So it is of any list of ports in which each port that the steps name stands once, and of
/// the ports of all nodes.
pub fn taken_stands_or_ends()
    ensures any { (ports : List PortRef) (start : Network) (steps : List Step) (end : Network)
        → LegalFrom start steps end → StandOnce ports start steps
        → Balances ports start steps end }
    ensures all { (start : Network) (steps : List Step) (end : Network) → IsEmptyNetwork start
        → JoinsNodes start → LegalFrom start steps end
        → steps_in takes_by steps ≡ steps_in leaves_by steps + steps_in drops_by steps
        + stock end (all_ports end.registers) }
{}

/// A port has room to hold a packet of a priority exactly if more buffers are free than 3 less the
/// priority, and room to send one exactly if it has fewer than 16 of the priority to be sent.
pub fn room_of_a_port()
    ensures to_hold { (net : Network) (p : PortRef) (r free : ℕ) → held net p + free ≡ net.buffers p
        → (room_in net p r ≡ true) ↔ (3 - r < free) }
    ensures to_send { (net : Network) (p : PortRef) (r : ℕ)
        → (room_out net p r ≡ true) ↔ (to_send net p r < 16) }
{}

/// No packet that leaves is a request for registers.
pub fn no_request_leaves()
    ensures { (start : Network) (steps : List Step) (end : Network) → LegalFrom start steps end
        → AllByRecursion (λ packet. is_request packet ≡ false) (packets_left steps) }
{}

/// A port never has more than 16 packets of a priority to be sent, those that are lent among them.
pub fn places_suffice()
    ensures { (start : Network) (steps : List Step) (end : Network)
        → IsEmptyNetwork start → LegalFrom start steps end → HasPlaces end }
{}

/// If each number of the registers fits at first, it goes on to fit, and every packet in the
/// network is in its link form. Both stay whatever legal steps follow.
pub fn forms_are_kept()
    ensures reached { (start : Network) (steps : List Step) (end : Network)
        → IsEmptyNetwork start → AllByRecursion IsWithin start.registers
        → LegalFrom start steps end → IsFormed end }
    ensures kept { (start : Network) (steps : List Step) (end : Network) → IsFormed start
        → LegalFrom start steps end → IsFormed end }
{}

/// In such a network all that registers answer is in its link form.
pub fn answers_pass()
    ensures { (net : Network) → IsFormed net → AnswersPass net }
{}

/// Legal steps from one network end in one network.
pub fn one_end()
    ensures { (start : Network) (steps : List Step) (a b : Network) → LegalFrom start steps a
        → LegalFrom start steps b → a ≡ b }
{}

/// The parts of a legal list of steps are legal,
/// each front among them, and two legal lists are legal together.
pub fn joined()
    ensures parts { (start : Network) (a b : List Step) (end : Network)
        → LegalFrom start (a ++ b) end
        → LegalFrom start a (after_all start a) × LegalFrom (after_all start a) b end }
    ensures whole { (start : Network) (a b : List Step) (mid end : Network) → LegalFrom start a mid
        → LegalFrom mid b end → LegalFrom start (a ++ b) end }
{}
