//! Laws of the entries. The calls do nothing.
ghost use Rattle.std.specs.Prelude.{◌≡◌, ◌<◌, ◌≤◌, ℕ, true, length, slice_get, Some};
ghost use Rattle.link_entries.specs.declared.entry.Entry.{Entry as AnEntry};
ghost use Rattle.link_entries.specs.Numbers.{entry_number, all_entries};
ghost use Rattle.link_entries.specs.Deeds.{meets};
ghost use Rattle.link_entries.specs.Trials.{trial_of};

use crate::numbers::ENTRIES;

/// The number of an entry is its place in the list of all of them, so that no two have one number.
pub fn numbers_are_different()
    ensures place { (entry : AnEntry) → slice_get all_entries (entry_number entry) ≡ Some entry }
    ensures count { length all_entries ≡ ENTRIES }
    ensures different { (entry other : AnEntry) → entry_number entry ≡ entry_number other
        → entry ≡ other }
{}

/// Each entry is met, by what `trial_of` has a port do from its start, which holds no packet then
/// and has 4 to 30 buffers.
pub fn every_entry_is_met()
    ensures met { (entry : AnEntry) → meets (trial_of entry) entry ≡ true }
    ensures buffers { (entry : AnEntry)
        → (4 ≤ (trial_of entry).buffers) × ((trial_of entry).buffers ≤ 30) }
{}
