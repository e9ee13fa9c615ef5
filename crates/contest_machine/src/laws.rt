//! What two hosts keep, what their turns answer, what they number, and what packets carry for them.
ghost use Rattle.contest_machine.specs.Keeping.{TurnsKeepApart, AccessesChangeTheirOwn, WalkersStay, GreaterHoldsOn, StaysWithin, KeepsFew};
ghost use Rattle.contest_machine.specs.Going.{GoingIsBounded, AloneIsNoWait, AloneIsDone};
ghost use Rattle.contest_machine.specs.Waiting.{LostHostsMetAGreater, LostIsForAGreater, WaitingIsForALesser};
ghost use Rattle.contest_machine.specs.Numbering.{DoneKeepsItsMap, OneIsDone, TurnsLeaveOthers};
ghost use Rattle.contest_machine.specs.Asking.{OpenPathsCarry, PathsAreOpened, AccessesAreCarried};
ghost use Rattle.contest_machine.specs.AloneWalks.{AloneNumbers, AloneMeetsLocks, AloneEnds, AloneIsCarried};

/// After each turn no device is kept by both walkers. A device that is kept has its host's ID as
/// lock. The lock of every other is free, or as it was at first, or was just written by a host.
pub fn each_turn_keeps_apart()
    ensures { TurnsKeepApart }
{}

/// Whatever turns were made, the next access of a walker changes the lock only of a device whose
/// lock is FFFF, to its ID, or of one that it keeps, back to FFFF, and then nothing else there.
/// Other registers it changes only of a device that it keeps. A turn is one access, but in its
/// first turn a walker makes all that lock its host.
pub fn accesses_change_their_own()
    ensures { AccessesChangeTheirOwn }
{}

/// No turn changes how a walker sees the fabric, or its ID.
pub fn walkers_stay_the_same()
    ensures { WalkersStay }
{}

/// The walker with the greater ID neither frees devices nor is lost, if nothing was locked at
/// first.
pub fn the_greater_is_never_lost()
    ensures { GreaterHoldsOn }
{}

/// Whatever the registers are, no access makes a path longer than the list of devices, or gives
/// more IDs. No more devices are kept than there are.
pub fn a_walker_stays_within_bounds()
    ensures within { StaysWithin }
    ensures few { KeepsFew }
{}

// ---- what turns answer

/// A turn answers `Lost` exactly where a lock that the walker has read, in this turn or before, is
/// that of a host with a greater ID, and it keeps nothing after this turn.
pub fn lost_is_for_a_greater()
    ensures { LostIsForAGreater }
{}

/// After any turns a host is lost exactly if a lock that it has read is that of a host with a
/// greater ID, and it keeps nothing.
pub fn lost_hosts_met_a_greater()
    ensures { LostHostsMetAGreater }
{}

/// A turn answers `Waiting` exactly where a lock that it reads is that of a host with a lesser ID.
pub fn waiting_is_for_a_lesser()
    ensures { WaitingIsForALesser }
{}

/// Over every list of turns no more than 40,000 turns of a host answer `Going`.
pub fn few_turns_go_on()
    ensures { GoingIsBounded }
{}

/// If nothing was locked at first and the other host is lost, a host waits no more, and it has
/// numbered the fabric after at most 40,000 turns of its own.
pub fn who_is_left_alone_is_done()
    ensures no_wait { AloneIsNoWait }
    ensures done { AloneIsDone }
{}

// ---- what is numbered

/// A host that is done keeps every device that it reaches, and its map is that of a numbered
/// fabric, whatever the other does. Of two hosts that reach one device, at most one is done.
pub fn who_is_done_keeps_its_map()
    ensures map { DoneKeepsItsMap }
    ensures one { OneIsDone }
{}

/// Whatever turns two hosts make, a device that neither reaches is not changed at all. Of the
/// others only lock, tag, ID, select, default port, and the entries 0 to 62, of either host's ID
/// and of 255 change.
pub fn turns_leave_other_devices()
    ensures { TurnsLeaveOthers }
{}

// ---- what packets carry

/// Whatever turns two hosts have made: if a host that does not give up wants an access along a path
/// that is open to it, the request ends at the device on the path. The response comes back to the
/// host by the tables as the access leaves them.
pub fn open_paths_carry()
    ensures { OpenPathsCarry }
{}

/// Whatever turns two hosts have made, the path of the next access of either is open to it. So each
/// access that is not on the host itself is carried, also while a host gives up what it keeps.
pub fn accesses_are_carried()
    ensures opened { PathsAreOpened }
    ensures carried { AccessesAreCarried }
{}

// ---- a host that walks alone

/// A host in whose fabric nobody else makes an access: once it is done, its list is the map of the
/// fabric, numbered from the first registers on, and no device that it reaches had the lock of
/// another host. The first access that would read such a lock finds the registers that a walk leaves
/// that ends there. One of the two comes within 40,001 accesses, and each is carried.
pub fn who_walks_alone_has_numbered()
    ensures numbers { AloneNumbers }
    ensures meets { AloneMeetsLocks }
    ensures ends { AloneEnds }
    ensures carried { AloneIsCarried }
{}
