//! The stores of a port: `InStore` keeps the packets that came in until the layer above takes them,
//! and `OutStore` the packets to be sent until the far port has accepted them. A store is four
//! lists of packets, one for each priority, and each list keeps its order.
//!
//! Promised: a put adds one packet at the end of the list of its priority, a pop takes the first
//! one of a list, and nothing else changes. What has room is exact. All memory is taken when a
//! store is made.
//!
//! Left out: which packet is sent next, and acknowledgement.
//!
//! - `in_store`: `InStore`, whose lists share a number of receive buffers
//! - `out_store`: `OutStore`, whose lists have room for 16 packets each
//! - `priorities`: the laws of what a list of priorities takes out of a store, as the
//!   acknowledgements of a link do
//! - `lists`: the four rings under both
#![tactic(auto)]

mod in_store;
mod lists;
mod out_store;
mod priorities;
#[cfg(test)]
mod tests;

pub use in_store::InStore;
pub use out_store::{OutStore, Waiting};
pub use priorities::{
    each_takes_its_own, first_take_the_first, highest_may_be_next, next_is_the_first_that_stays,
    oldest_leaves_first, outstanding_come_first, put_comes_last, taken_in_turn,
};
