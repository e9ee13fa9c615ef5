//! Laws of registers, for whoever states something of devices.
ghost use Rattle.std.specs.Prelude.{◌≡◌, true, Some, None};
ghost use Rattle.maint_registers.specs.Devices.{new_endpoint, new_switch};
ghost use Rattle.maint_registers.specs.Access.{read_from, write_into};
ghost use Rattle.maint_registers.specs.Changes.{held_by, standard_shown};
ghost use Rattle.maint_registers.specs.Laws.{ShowsWritten, ShowsBoth, LargeStays, LockStays, TagStays};
ghost use Rattle.maint_registers.specs.Laws.{IsTakenIfFree, StaysForOthers};
ghost use Rattle.maint_registers.specs.Laws.{ShowsLink, OthersStay, StandardAdds};
ghost use Rattle.maint_registers.specs.Within.{NewEndpointIsWithin, NewSwitchIsWithin, ReadsWord};
ghost use Rattle.maint_registers.specs.Within.{WrittenStaysWithin, LargeStaysWithin};
ghost use Rattle.maint_registers.specs.Within.{LockStaysWithin, RouteStaysWithin};
ghost use Rattle.maint_registers.specs.Within.{DefaultStaysWithin, LinksStayWithin};
ghost use Rattle.maint_registers.specs.Within.{StandardStaysWithin};

/// An endpoint gives the value that it shows, and takes a write or refuses it.
pub fn an_endpoint_is_accessed()
    ensures read { read_from (new_endpoint 5 true) 0x60 0
        ≡ record { value = Some 0x5ffff; device = new_endpoint 5 true } }
    ensures taken { write_into (new_endpoint 5 true) 0x68 7
        ≡ record { value = Some 0; device = held_by 7 (new_endpoint 5 true) } }
    ensures refused { write_into (new_endpoint 5 true) 0x10 7
        ≡ record { value = None; device = new_endpoint 5 true } }
{}

/// A write changes some bits of a register, and leaves the others.
pub fn write_changes_its_bits()
    ensures written { ShowsWritten }
    ensures both { ShowsBoth }
{}

/// No write changes the ID of 16 bits.
pub fn writes_leave_large_id()
    ensures { LargeStays }
{}

/// A host takes a lock exactly if it was free, and nobody but its holder frees it.
pub fn lock_is_taken_if_free()
    ensures taken { IsTakenIfFree }
    ensures stays { StaysForOthers }
{}

/// A write leaves the lock unless it is to the host lock, and the tag unless it is to the component
/// tag.
pub fn other_writes_leave_lock_and_tag()
    ensures lock { LockStays }
    ensures tag { TagStays }
{}

/// A link that is set shows at its port, and at no other.
#[tactic(auto, using(crate::proofs::LinkLaws::link_shown, crate::proofs::LinkLaws::link_others))]
pub fn link_shows_at_its_port()
    ensures set { ShowsLink }
    ensures others { OthersStay }
{}

/// A standard host finds the block of LP-Serial registers at a device that shows it, and at no other
/// (RapidIO Interconnect Specification 1.3, Part 6, register block headers).
#[tactic(auto, unfolding(crate::specs::Table::status_port))]
pub fn a_standard_host_finds_the_block()
    ensures endpoint { read_from (standard_shown (new_endpoint 5 true)) 0x100 0
        ≡ record { value = Some 1; device = standard_shown (new_endpoint 5 true) } }
    ensures switch { read_from (standard_shown (new_switch 4 5)) 0x100 3
        ≡ record { value = Some 3; device = standard_shown (new_switch 4 5) } }
    ensures operations { read_from (standard_shown (new_endpoint 5 true)) 0x1c 0
        ≡ record { value = Some 0xf000; device = standard_shown (new_endpoint 5 true) } }
    ensures no_other { read_from (new_endpoint 5 true) 0x100 0
        ≡ record { value = None; device = new_endpoint 5 true } }
    ensures taken { write_into (standard_shown (new_endpoint 5 true)) 0x100 7
        ≡ record { value = None; device = standard_shown (new_endpoint 5 true) } }
{}

/// A device that shows the registers that standard hosts look for shows all others as before.
#[tactic(auto, using(crate::proofs::AccessLaws::standard_adds))]
pub fn standard_registers_add()
    ensures { StandardAdds }
{}

/// Each number of a new device fits its register.
pub fn new_devices_are_within()
    ensures endpoint { NewEndpointIsWithin }
    ensures switch { NewSwitchIsWithin }
{}

/// Each number of a device goes on to fit its register, whatever is written or set.
pub fn devices_stay_within()
    ensures written { WrittenStaysWithin }
    ensures large { LargeStaysWithin }
    ensures lock { LockStaysWithin }
    ensures route { RouteStaysWithin }
    ensures default_port { DefaultStaysWithin }
    ensures links { LinksStayWithin }
    ensures standard { StandardStaysWithin }
{}

/// What is read fits a word.
pub fn reads_are_words()
    ensures { ReadsWord }
{}
