//! Laws, each the contract of a function with an empty body.
ghost use Rattle.fabric_contest.specs.HostLaws.{HostsBegin, DoneIsContested, HostsWait, TurnsAreLost, HostsAreLost, HostsAreLeftAlone, EndsAreTold, HostsGoOnFewTimes, CountsAreFew};
ghost use Rattle.fabric_contest.specs.Laws.{ContestsKeepApart, FirstHoldsOn, SecondHoldsOn, FirstStaysOpen, SecondStaysOpen};

/// After the turns of a number no device is kept by both hosts. A device that is kept has its
/// host's ID as lock. The lock of every other is free, or that of its set-up line, or was just
/// written by a host.
pub fn contests_keep_apart()
    ensures { ContestsKeepApart }
{}

/// If no set-up line locks a device, the host with the greater ID is not lost, and frees nothing.
pub fn the_greater_host_holds_on()
    ensures first { FirstHoldsOn }
    ensures second { SecondHoldsOn }
{}

/// Whatever turns two walkers have made, over any devices and links: a way that is open to one of
/// them, and passes no switch but those that it keeps, is still open after the next turn of the
/// other. So that turn leads no request along such a way astray, nor its response.
pub fn kept_ways_stay_open()
    ensures first { FirstStaysOpen }
    ensures second { SecondStaysOpen }
{}

// ---- the laws of two hosts, of those of a script

/// Two hosts of a script begin as the laws of two hosts ask: with different IDs, over registers
/// that show its devices and links, and no device that bears the ID of one has a tag.
pub fn hosts_begin()
    ensures { HostsBegin }
{}

/// Whatever turns two hosts of a script have made, one that is done has numbered its fabric: map,
/// locks, tags, IDs and tables are so, with the ID of its line. Both have changed only what they
/// may. It is told to be done exactly if it has numbered, and to be lost exactly if it is.
pub fn done_hosts_have_numbered()
    ensures numbered { DoneIsContested }
    ensures told { EndsAreTold }
{}

/// Whatever turns two hosts of a script have made, the next waits exactly if it reads a lesser
/// lock. It is lost exactly if the host has read a greater lock and keeps nothing after it, and so
/// is the host. If no line locks a device and the other is lost, it is left alone.
pub fn hosts_wait_and_are_lost()
    ensures waiting { HostsWait }
    ensures turns { TurnsAreLost }
    ensures lost { HostsAreLost }
    ensures alone { HostsAreLeftAlone }
{}

/// No more than 40,000 turns of a host of a script answer `Going`, and no walker of a contest has
/// counted more.
pub fn hosts_go_on_few_times()
    ensures turns { HostsGoOnFewTimes }
    ensures counts { CountsAreFew }
{}
