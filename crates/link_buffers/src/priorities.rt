//! The laws of what a list of priorities takes out of a store, for all lists of packets. Each
//! function has an empty body: its clauses are the laws. With the priorities of the outstanding
//! packets in the order of their ackIDs, `left` is the outstanding packets, and `leave` is what has
//! still to be sent.
ghost use Rattle.std.specs.Prelude.{◌≡◌, ℕ, ◌+◌, ◌<◌, ◌↔◌, IsSome, List, [], ◌∷◌, ◌++◌, length, map, take, drop, slice_get};
ghost use Rattle.rio_packets.specs.Fields.{prio_of};
ghost use Rattle.link_buffers.specs.Queues.{list_at, appended, popped, of_prio, packet_count, Sorted, IsOutStore};
ghost use Rattle.link_buffers.specs.Priorities.{packets_of, lists_without, count_of, highest, Covers};

/// Priorities one after another take what the first ones take, and then what the others take of
/// what stays.
pub fn taken_in_turn()
    ensures taken { (prios more : List ℕ) (lists : List (List (List ℕ)))
        → packets_of (prios ++ more) lists
        ≡ packets_of prios lists ++ packets_of more (lists_without prios lists) }
    ensures stays { (prios more : List ℕ) (lists : List (List (List ℕ)))
        → lists_without (prios ++ more) lists ≡ lists_without more (lists_without prios lists) }
{}

/// The first priority takes the first packet of its list, and the others are covered by what stays.
pub fn oldest_leaves_first()
    ensures some { (prio : ℕ) (prios : List ℕ) (lists : List (List (List ℕ)))
        → Covers (prio ∷ prios) lists → 0 < length (list_at lists prio) }
    ensures taken { (prio : ℕ) (prios : List ℕ) (lists : List (List (List ℕ))) (packet : List ℕ)
        → slice_get (list_at lists prio) 0 ≡ Some packet
        → packets_of (prio ∷ prios) lists ≡ packet ∷ packets_of prios (popped lists prio) }
    ensures stays { (prio : ℕ) (prios : List ℕ) (lists : List (List (List ℕ)))
        → lists_without (prio ∷ prios) lists ≡ lists_without prios (popped lists prio) }
    ensures covered { (prio : ℕ) (prios : List ℕ) (lists : List (List (List ℕ)))
        → Covers (prio ∷ prios) lists → Covers prios (popped lists prio) }
{}

/// A packet put at the end changes nothing of what covered priorities take, and stands at the end
/// of what stays.
pub fn put_comes_last()
    ensures taken { (prios : List ℕ) (lists : List (List (List ℕ))) (prio : ℕ) (packet : List ℕ)
        → Covers prios lists → prio < length lists
        → packets_of prios (appended lists prio packet) ≡ packets_of prios lists }
    ensures stays { (prios : List ℕ) (lists : List (List (List ℕ))) (prio : ℕ) (packet : List ℕ)
        → Covers prios lists → prio < length lists
        → lists_without prios (appended lists prio packet)
        ≡ appended (lists_without prios lists) prio packet }
    ensures covered { (prios : List ℕ) (lists : List (List (List ℕ))) (prio : ℕ) (packet : List ℕ)
        → Covers prios lists → prio < length lists → Covers prios (appended lists prio packet) }
{}

/// The first packet of a priority that is not taken stands at the place that counts the priority.
/// If there is one, the priority may be added, and takes it.
pub fn next_is_the_first_that_stays()
    ensures place { (prios : List ℕ) (lists : List (List (List ℕ))) (prio : ℕ)
        → slice_get (list_at (lists_without prios lists) prio) 0
        ≡ slice_get (list_at lists prio) (count_of prios prio) }
    ensures taken { (prios : List ℕ) (prio : ℕ) (lists : List (List (List ℕ))) (packet : List ℕ)
        → slice_get (list_at lists prio) (count_of prios prio) ≡ Some packet
        → packets_of (prios ++ prio ∷ []) lists ≡ packets_of prios lists ++ packet ∷ [] }
    ensures covered { (prios : List ℕ) (prio : ℕ) (lists : List (List (List ℕ)))
        → Covers prios lists → count_of prios prio < length (list_at lists prio)
        → Covers (prios ++ prio ∷ []) lists }
{}

/// The highest priority that has a packet which stays is one of the four, has a packet at the place
/// that counts it, and may be added. There is one exactly where any packet stays.
pub fn highest_may_be_next()
    ensures some { (lists : List (List (List ℕ)))
        → length lists ≡ 4 → (0 < packet_count lists) ↔ IsSome (highest lists) }
    ensures range { (lists : List (List (List ℕ))) (prio : ℕ)
        → highest lists ≡ Some prio → (prio < 4) × (0 < length (list_at lists prio)) }
    ensures waits { (prios : List ℕ) (prio : ℕ) (lists : List (List (List ℕ)))
        → highest (lists_without prios lists) ≡ Some prio
        → count_of prios prio < length (list_at lists prio) }
    ensures covered { (prios : List ℕ) (prio : ℕ) (lists : List (List (List ℕ)))
        → Covers prios lists → highest (lists_without prios lists) ≡ Some prio
        → Covers (prios ++ prio ∷ []) lists }
{}

/// The first priorities take the first packets, and the others the rest.
pub fn first_take_the_first()
    ensures first { (count : ℕ) (prios : List ℕ) (lists : List (List (List ℕ)))
        → Covers prios lists → take count (packets_of prios lists)
        ≡ packets_of (take count prios) lists }
    ensures rest { (count : ℕ) (prios : List ℕ) (lists : List (List (List ℕ)))
        → Covers prios lists → drop count (packets_of prios lists)
        ≡ packets_of (drop count prios) (lists_without (take count prios) lists) }
    ensures covered_first { (count : ℕ) (prios : List ℕ) (lists : List (List (List ℕ)))
        → Covers prios lists → Covers (take count prios) lists }
    ensures covered_rest { (count : ℕ) (prios : List ℕ) (lists : List (List (List ℕ)))
        → Covers prios lists → Covers (drop count prios) (lists_without (take count prios) lists) }
{}

/// Covered priorities take a packet each, of their own priority where the lists are sorted, and no
/// packet is lost.
pub fn each_takes_its_own()
    ensures count { (prios : List ℕ) (lists : List (List (List ℕ)))
        → Covers prios lists → length (packets_of prios lists) ≡ length prios }
    ensures all { (prios : List ℕ) (lists : List (List (List ℕ)))
        → Covers prios lists → packet_count (lists_without prios lists) + length prios
        ≡ packet_count lists }
    ensures priorities { (prios : List ℕ) (lists : List (List (List ℕ)))
        → length lists ≡ 4 → Covers prios lists → Sorted lists
        → map prio_of (packets_of prios lists) ≡ prios }
    ensures store { (prios : List ℕ) (lists : List (List (List ℕ)))
        → Covers prios lists → IsOutStore lists → IsOutStore (lists_without prios lists) }
{}

/// The list of a priority is its packets among those taken, and then those that stay: with the
/// priorities of the outstanding packets, the packets that are outstanding and then those that
/// wait.
pub fn outstanding_come_first()
    ensures { (prio : ℕ) (prios : List ℕ) (lists : List (List (List ℕ)))
        → length lists ≡ 4 → Sorted lists → Covers prios lists
        → list_at lists prio
        ≡ of_prio prio (packets_of prios lists) ++ list_at (lists_without prios lists) prio }
{}
