//! What happens on a link, as a pure machine over the states of its two wires and its two ports,
//! its law, and how the link comes to rest.
//!
//! The crate has no running code. `specs` has the definitions of the machine:
//!
//! - `States`: a link and its ports;
//! - `Calls`: what turns, a status, a delivery, an edit and a time-out make of it, and what they
//!   are noted as; `OnTheWay`: a port between the events of a delivery;
//! - `Sound`: what stays true;
//! - `Queues`: packets as plain first-in first-out queues;
//! - `Layer`: what the layer above does to a port;
//! - `Runs`: all of these, one after another;
//!
//! and those of settling:
//!
//! - `Schedules`: how a schedule is put together from parts: one after another, where a test holds,
//!   again and again;
//! - `Acts`: what is done on a link, a list of pumps, statuses, deliveries and time-outs; how far a
//!   link comes by it, to a state or to an event that was not sent; and its notes;
//! - `Settling`: the schedule of settling; `Counts`: time-outs among what is done;
//! - `Rest`: a link at rest, what a port knows of the room of the other, and a packet that passes;
//! - `Calm`: a link whose wires stand as they were sent;
//! - `Led`: what a port becomes of characters by the tables alone, and what it answers.
//!
//! The functions state, as contracts of empty bodies: a new link is sound, and stays so, whatever
//! is lost, altered, inserted or late on the wires, up to the first event that is acted on and was
//! not sent. Then every packet noted as held is the first of its priority that waits at the far
//! port, and has room; every packet noted as freed is the first that the far port holds; and no
//! sender has failed, within a delivery neither.
//!
//! They state that what a port answers has no answer, that a drain is at most five deliveries, that
//! each side fires at most one time-out, that each round of the last step is a packet held and
//! freed or the last, and that settling ends at rest from every sound state, and in one way. If an
//! event that was not sent is acted on, the schedule ends with it, and nothing is said of the link;
//! without an edit there is none.
//!
//! Left out: that a corruption is detected, that a packet arrives at some time, the code that
//! settles a link, and want of memory.
#![tactic(auto)]

mod laws;
mod rest_laws;

pub use laws::{
    calls_keep_it, deliveries_hold_and_free_in_order, links_begin_sound, no_sender_fails,
    no_sender_fails_within_a_delivery, nothing_else_moves, puts_and_takes_serve, runs_keep_it,
    the_layer_above_keeps_it, told_in_time_means_no_retry,
};
pub use rest_laws::{
    answers_have_no_answer, drains_end, each_side_fires_once, nothing_undetected_without_an_edit,
    one_way_to_settle, rounds_pass_packets, settling_ends, settling_ends_at_rest,
};
