//! What wrong bits on a lane make of what its receiver reads: no event that was not sent.
//!
//! The crate has no running code. `specs` has the definitions: `WrongBits`, wrong bits of which a
//! special character stands between any two; `Mistakes`, what is heard then; `Among`, which events
//! stand in a list of others. The functions state the laws, as contracts of empty bodies.
//!
//! Left out: more wrong bits than that, and bits that are lost or put in.
#![tactic(auto)]

mod laws;

pub use laws::{
    good_events_need_a_place, mistakes_are_heard_in_pieces, no_delivery_is_undetected,
    no_event_is_made_by_mistakes, no_event_is_made_by_wrong_bits, no_run_ends_undetected,
    one_wrong_bit_makes_no_event, wrong_bits_are_heard_as_mistakes,
};
