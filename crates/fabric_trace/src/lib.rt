//! What a trace over ports is, for any number of endpoints, switches and links, and the laws of
//! what a run shows.
//!
//! The crate has no running code. `specs` has the definitions:
//!
//! - `Lines`, `Text`: the lines of a trace, the steps that they say, and their text;
//! - `Views`, `Known`: a port as the step tables see it, with its packets where the plain network
//!   has them; wires; and what is known after lines;
//! - `Fold`: the one fold that reads a trace, by its lines alone;
//! - `Served`, `Blocks`: which lines each event makes, from what is known before it, those of
//!   devices first; `Rounds`: what the rounds of a run are;
//! - `Settings`: what the lines of set-up make of a network; `SetUps`: which networks they may
//!   give; `Events`: which events may happen in a network; `Runs`: what a trace of a script is;
//!   `Ready`: from which states a trace may go on;
//! - `Parts`: what may stand in a trace, whatever script it is of;
//! - `Links`, `Wires`, `Owned`, `Holds`, `Faithful`, `Ends`: what is true of each link, of the
//!   characters that a port got, of those that it sent, of the packets that it holds, of the events
//!   that it acted on, and of the last line;
//! - `Frees`, `Noted`, `Allowance`: that what a port frees was acknowledged, in the delivery where
//!   it is freed, and that it frees no more than it may;
//! - `Working`, `OnTheWay`: senders that never fail, nor within a delivery;
//! - `Settled`, `AtRest`, `Firsts`: that an event is over when the next begins, that links are at
//!   rest when they have settled, and that what is found not to be sent is the first;
//! - `Shown`: all laws of a trace together;
//! - `Examples`: small runs, and lines that the laws do not allow.
//!
//! The functions state the laws, as contracts of empty bodies. They speak of every script, of each
//! that passes, or of all lines that are made of parts, from a network without a packet on.
#![tactic(auto)]

mod examples;
mod laws;
mod scripts;

pub use examples::{
    laws_can_fail, laws_of_frees_can_fail, laws_of_links_can_fail, small_run,
    small_run_with_a_packet, small_run_with_a_status, small_run_with_a_switch, two_ports_in_order,
};
pub use laws::{
    a_trace_ends, acted_events_were_sent, every_script_has_one_trace, first_blocks_are_a_front,
    frees_stand_in_deliveries, links_stay_sound, no_sender_fails_within_a_delivery, one_block,
    one_trace, packets_stand_or_end, rounds_exist, rounds_leave_links_at_rest, runs_are_made,
    set_up, settling_leaves_a_link_at_rest, states_stay_ready, steps_are_legal,
    traces_leave_links_at_rest, what_a_port_frees_was_acknowledged, what_a_port_frees_was_allowed,
    what_a_port_got_was_on_the_wire, what_a_port_holds_came_to_it, what_a_port_sends_is_its_own,
    what_a_trace_shows,
};
pub use scripts::{events_may_happen, ports_are_there, scripts_join_nodes, scripts_may_set_up};
