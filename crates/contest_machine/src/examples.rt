//! The turns of two hosts that are linked to each other.
ghost use Rattle.std.specs.Prelude.{◌≡◌, ◌∷◌, []};
ghost use Rattle.link_watch.specs.declared.side.Side.TheVariants.{A, B};
ghost use Rattle.fabric_script.specs.Ports.{port_at};
ghost use Rattle.contest_machine.specs.declared.stages.Turn.TheVariants.{Going, Waiting, Lost};
ghost use Rattle.contest_machine.specs.declared.stages.Stage.TheVariants as stages;
ghost use Rattle.contest_machine.specs.Turns.{after_turns};
ghost use Rattle.contest_machine.specs.Locks.{side_answer, locks_in_turn, walker_of};
ghost use Rattle.contest_machine.specs.Going.{going_over, turns_of, AreBegun, IsUnlocked, IsLeftAlone, HasNumbered};
ghost use Rattle.contest_machine.specs.Asking.{WantsAlong, IsCarried};
ghost use Rattle.contest_machine.specs.AloneWalks.{accesses_on, BeginsAlone, MeetsLock};
ghost use Rattle.contest_machine.specs.Examples.{two_hosts, till_waiting, five_each, till_done, map_of_seven, host_waiting, waiting_host, lock_asked, host_five_alone, map_of_five};

/// A host of ID 5 that is free reads its lock twice and goes on. Behind the lock of a host of ID 3
/// it waits, and behind that of a host of ID 9 it is lost. The other host reads nothing meanwhile.
pub fn a_first_turn_reads_its_own_lock()
    ensures free { side_answer (two_hosts 0xffff) A ≡ Going }
    ensures twice { locks_in_turn (two_hosts 0xffff) A A ≡ 0xffff ∷ 5 ∷ [] }
    ensures lesser { side_answer (two_hosts 3) A ≡ Waiting }
    ensures once { locks_in_turn (two_hosts 3) A A ≡ 3 ∷ [] }
    ensures greater { side_answer (two_hosts 9) A ≡ Lost }
    ensures also { locks_in_turn (two_hosts 9) A A ≡ 9 ∷ [] }
    ensures other { locks_in_turn (two_hosts 9) B A ≡ [] }
{}

/// Of three turns, of which the host makes two, both are counted if it is free, and none if it
/// waits.
pub fn turns_that_go_on_are_counted()
    ensures two { going_over (two_hosts 0xffff) A (A ∷ B ∷ A ∷ []) ≡ 2 }
    ensures none { going_over (two_hosts 3) A (A ∷ B ∷ A ∷ []) ≡ 0 }
{}

/// The host 5 meets the host 7, frees itself and is lost. The host 7 waits for it, and then numbers
/// both.
pub fn the_greater_of_a_pair_is_done()
    ensures waits { side_answer (after_turns (two_hosts 0xffff) till_waiting) B ≡ Waiting }
    ensures lost { (walker_of (after_turns (two_hosts 0xffff) five_each) A).stage ≡ stages.Lost }
    ensures done { HasNumbered (walker_of (after_turns (two_hosts 0xffff) till_done) B) }
{}

/// They begin, and the first has two of three turns. The host 7 is left alone once the host 5 is
/// lost, and not before; nor is one, if a lock was set at first.
pub fn one_of_a_pair_is_left_alone()
    ensures begun { AreBegun (two_hosts 0xffff) }
    ensures turns { turns_of A (A ∷ B ∷ A ∷ []) ≡ 2 }
    ensures alone { IsLeftAlone (two_hosts 0xffff) five_each B }
    ensures not_yet { ¬ IsLeftAlone (two_hosts 0xffff) till_waiting B }
    ensures locked { ¬ IsUnlocked (two_hosts 3).registers }
{}

/// The host 7 keeps itself and the host 5, once that is lost.
pub fn a_pair_is_numbered()
    ensures done { HasNumbered (walker_of (after_turns (two_hosts 0xffff) till_done) B) }
    ensures map { (walker_of (after_turns (two_hosts 0xffff) till_done) B).devices ≡ map_of_seven }
{}

/// The host 7 reads the lock of its neighbour. The request ends at the neighbour's port, not at its
/// own, and the response comes back.
pub fn a_lock_is_read()
    ensures wanted { WantsAlong waiting_host host_waiting.registers lock_asked (port_at 0 0) }
    ensures carried { IsCarried waiting_host host_waiting.registers lock_asked (port_at 0 0) }
    ensures not_itself { ¬ IsCarried waiting_host host_waiting.registers lock_asked (port_at 1 0) }
{}

/// The host 5 alone begins as the laws ask, and has numbered itself and the host 7 after eleven
/// accesses. If the host 9 has its lock, its first access reads that.
pub fn one_of_a_pair_walks_alone()
    ensures begins { BeginsAlone (host_five_alone 0xffff) }
    ensures done { HasNumbered (accesses_on (host_five_alone 0xffff) 11).walker }
    ensures not_before { ¬ HasNumbered (accesses_on (host_five_alone 0xffff) 10).walker }
    ensures map { (accesses_on (host_five_alone 0xffff) 11).walker.devices ≡ map_of_five }
    ensures meets { MeetsLock (host_five_alone 9) 9 }
    ensures free { ¬ MeetsLock (host_five_alone 0xffff) 0xffff }
{}
