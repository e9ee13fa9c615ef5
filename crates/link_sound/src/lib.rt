//! Two ports at the ends of a link, and the events that each has sent and the other has not acted
//! on: what holds of them whatever is lost between them.
//!
//! The crate has no running code. `specs` has the definitions:
//!
//! - `Marks` and `Meanings`: what events and the states of a port mean for one direction of a link;
//! - `Kept` and `Direction`: what is said of a sender, a receiver and what is on its way between
//!   them;
//! - `Between`: the direction from one port's output half to the other's input half;
//! - `Sound`: `IsSound`, which is both directions;
//! - `Told`: what a port has told of its free buffers;
//! - `Credits` and `InTime`: that it has told of none that is not there, and that the packets of a
//!   sender that was told in time find room;
//! - `Lent`: which of the packets to be sent the far port holds, and what becomes of them where one
//!   is held or freed;
//! - `Histories`: what may happen at either port, one thing after another, and what became of the
//!   packets; `Worked` has what became of those of three histories.
//!
//! The functions state, as contracts of empty bodies, that each step of a port by the tables keeps
//! `IsSound`, that each packet held and freed is a step of plain first-in first-out queues, what
//! every history does to the packets, and that no sender fails. An event that is acted on is one
//! that the far port has sent; what it sent before may be lost. An event that no port sent is
//! spoken of only where it is not acted on.
//!
//! Left out: wires and the characters on them, which events are lost, and when a time-out fires.
#![tactic(auto)]

mod credits;
mod histories;
mod laws;
mod queues;

pub use credits::{
    each_step_keeps_what_was_told, told_in_time_means_no_retry, what_was_told_stays_true,
};
pub use histories::{every_history_carries_packets, worked_history, worked_recovery, worked_retry};
pub use laws::{
    events_may_be_lost, links_begin_sound, no_sender_fails, only_telling_ports_tell, steps_keep_it,
    the_layer_above_keeps_it, what_is_not_sound,
};
pub use queues::{
    packets_are_freed_in_order, packets_are_held_in_order, turns_and_time_outs_move_nothing,
};
