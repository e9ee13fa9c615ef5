//! What a fabric is, apart from any link protocol.
//!
//! The crate has, in `specs/`, the definitions that the contracts above cite:
//!
//! - `Network`: plain first-in first-out queues, one for each port and priority on either side of a
//!   link, and the registers of each node;
//! - `Serving`: where a switch sends a packet, and what registers answer;
//! - `Steps`: what a packet's taking, holding, freeing, moving, dropping, answering and leaving
//!   need and do, and which lists of steps are legal;
//! - `Laws`: what holds of every legal list of steps.
//!
//! The module `laws` has each law as the contract of a function with an empty body, for every list
//! of steps: in the plain network, over any number of switches, packets are held exactly, at ports
//! of nodes, go where the tables name, leave once, unchanged but for the hop count, and in order
//! per flow while the tables stand, and are freed after the next hop holds them; and as many as
//! were taken stand there, have left or were dropped.
//!
//! It leaves out how packets cross a link: no ackID, symbol, window or retry stands here; and what
//! a script and a trace are.
#![tactic(auto)]

mod examples;
mod laws;

pub use examples::{
    circles_are_legal, flows_can_part, hop_counts_part_flows, laws_can_fail, over_a_link,
    routes_can_change, sizes_part_flows, through_switches,
};
pub use laws::{
    answers_pass, by_priority, by_tables, forms_are_kept, freed_after_held, holding_exactly,
    in_order, in_order_of_course, items_stand_at_nodes, joined, no_request_leaves, once, one_end,
    places_suffice, room_of_a_port, taken_stands_or_ends, unchanged,
};
