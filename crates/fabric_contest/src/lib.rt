//! Two hosts contest the fabric of a script, in the order of turns that a number stands for.
//!
//! Promised: what is written is the word of each host and the map of each that is done, as they
//! stand after 100,000 turns of the machines of `contest_machine`, over the registers that the
//! set-up lines make. Each access of a host to another device is a request and its response, which
//! go over the links of the fabric. Want of memory comes before anything is written.
//!
//! Left out: which nodes may be hosts, which `host_enumerate` says; and what the packets are, which
//! `fabric_maint` says.
//!
//! - [`write_contest`] makes the turns of a number and writes what became of both hosts, or tells
//!   the [`ContestEnd`].
//! - [`Contest`] has the fabric and both walkers, and makes single turns, those of a list, and
//!   those of a number. `over` makes a turn over the links.
//! - [`contests_keep_apart`], [`the_greater_host_holds_on`] and [`kept_ways_stay_open`] are laws,
//!   and [`hosts_begin`] and those behind it carry the laws of `contest_machine` to hosts of a
//!   script.
#![tactic(auto)]

mod contest;
mod laws;
mod lines;
mod orders;
mod over;

pub use contest::Contest;
pub use laws::{
    contests_keep_apart, done_hosts_have_numbered, hosts_begin, hosts_go_on_few_times,
    hosts_wait_and_are_lost, kept_ways_stay_open, the_greater_host_holds_on,
};
pub use lines::{ContestEnd, write_contest};
