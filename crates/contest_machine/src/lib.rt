//! Two hosts that contest a fabric, one access a turn, as a machine (RapidIO Interconnect
//! Specification 1.3, Part 3, host device lock, and enumeration; which host waits and which
//! retreats, and the order of the walk, are this project's profile).
//!
//! Promised: what a walker asks next and what it does with each answer is defined, apart from any
//! code. After every list of turns of two walkers no device is kept by both, and the walker with
//! the greater ID is never lost if nothing was locked at first. A turn answers `Lost` exactly for
//! a greater lock, and `Waiting` exactly for a lesser one, and no more than 40,000 turns of a host
//! go on. A host that is done keeps every device that it reaches, and its list is the map of a
//! numbered fabric. The path of each access is open to the host that asks.
//!
//! Left out: links and packets (`fabric_ask`), and code that runs, which `host_contest` has.
//!
//! - [`Stage`] is what a walker asks next, [`Asked`] the access, [`PendingWrite`] a write that it
//!   has still to make, [`Tried`] a switch whose ports it tries, and [`Turn`] what came of a turn.
//! - `specs/Machine.antt` is the machine, `specs/Turns.antt` a turn of it, `specs/Contest.antt`
//!   what stands between two turns, and `specs/Within.antt` how long paths and lists are.
//! - `specs/Keeping.antt` says what two walkers keep, `specs/Locks.antt` which locks a turn reads,
//!   `specs/Waiting.antt` when a turn waits or is lost, `specs/Going.antt` how many go on,
//!   `specs/Numbering.antt` what is numbered, `specs/Asking.antt` what packets carry, and
//!   `specs/AloneWalks.antt` what a host does that walks alone.
//! - The laws are functions with an empty body, from [`each_turn_keeps_apart`] on.
//! - `specs/Examples.antt` is the least fabric of two hosts, and
//!   [`a_first_turn_reads_its_own_lock`] the first of the examples.
#![tactic(auto)]

mod examples;
mod laws;
mod stages;

pub use examples::{
    a_first_turn_reads_its_own_lock, a_lock_is_read, a_pair_is_numbered,
    one_of_a_pair_is_left_alone, one_of_a_pair_walks_alone, the_greater_of_a_pair_is_done,
    turns_that_go_on_are_counted,
};
pub use laws::{
    a_walker_stays_within_bounds, accesses_are_carried, accesses_change_their_own,
    each_turn_keeps_apart, few_turns_go_on, lost_hosts_met_a_greater, lost_is_for_a_greater,
    open_paths_carry, the_greater_is_never_lost, turns_leave_other_devices,
    waiting_is_for_a_lesser, walkers_stay_the_same, who_is_done_keeps_its_map,
    who_is_left_alone_is_done, who_walks_alone_has_numbered,
};
pub use stages::{Asked, PendingWrite, Stage, Tried, Turn};
