//! Small fabrics: that the definitions say what they should of known maps, and refuse wrong ones.
ghost use Rattle.std.specs.Prelude.{◌≡◌, ◌≢◌, ◌<◌, ℕ, List, Some};
ghost use Rattle.maint_registers.specs.Routes.{entry_of, next_port};
ghost use Rattle.fabric_map.specs.Routes.{AllRegisters, PacketComes};
ghost use Rattle.fabric_map.specs.declared.map.Entry.{Entry};
ghost use Rattle.fabric_map.specs.Walked.{Walked, after_all_paths};
ghost use Rattle.fabric_map.specs.Numbered.{IsMap};
ghost use Rattle.fabric_map.specs.Examples.{IsRing, ring, ring_devices, ring_entries, skipped, twice_linked, numbered_twice, from_highest, left_out};

/// The map of a ring of three switches is the one that a hand calculation gives.
pub fn the_ring_has_its_map()
    ensures { IsMap ring 5 ring_devices ring_entries }
{}

/// A list of devices is no map if a switch is numbered twice, if ports are taken from the highest
/// down, if a device is left out, or if an ID is skipped.
pub fn wrong_maps_are_none()
    ensures numbered_twice { Walked twice_linked numbered_twice after_all_paths → ⊥ }
    ensures from_highest { Walked twice_linked from_highest after_all_paths → ⊥ }
    ensures left_out { Walked twice_linked left_out after_all_paths → ⊥ }
    ensures skipped { (entries : List Entry) → IsMap ring 5 skipped entries → ⊥ }
{}

/// The registers of a numbered ring are those that a hand calculation gives: the tag and the lock
/// of a switch, the ID of an endpoint, and the port of an entry. Its links stay, and so does each
/// entry from that of 63 on but that of 255. Packets for ID 0 come to its endpoint from a switch
/// that is not its own, and would not if the entry there led to another endpoint. What the ring
/// does not reach keeps all its registers.
pub fn the_ring_has_its_registers()
    ensures tag { (before after : AllRegisters) → IsRing before after → (after 4).tag ≡ 2 }
    ensures lock { (before after : AllRegisters) → IsRing before after → (after 4).lock ≡ 5 }
    ensures id { (before after : AllRegisters) → IsRing before after → (after 3).base_id ≡ 0 }
    ensures table { (before after : AllRegisters) → IsRing before after
        → next_port (after 4) 0 ≡ Some 1 }
    ensures entries { (before after : AllRegisters) → IsRing before after → (id : ℕ) → 62 < id
        → id ≢ 255 → entry_of (after 4) id ≡ entry_of (before 4) id }
    ensures links { (before after : AllRegisters) → IsRing before after
        → (after 4).linked ≡ (before 4).linked }
    ensures routed { (before after : AllRegisters) → IsRing before after
        → PacketComes ring after 0 5 3 }
    ensures elsewhere { (registers : AllRegisters) → next_port (registers 5) 0 ≡ Some 2
        → PacketComes ring registers 0 5 3 → ⊥ }
    ensures outside { (before after : AllRegisters) → IsRing before after
        → after 7 ≡ before 7 }
{}
