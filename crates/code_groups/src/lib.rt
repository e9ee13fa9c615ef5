//! The 8b/10b code of a RapidIO serial lane (RapidIO Interconnect Specification 1.3, Part 6):
//! groups of ten bits for characters, in both directions, by the running disparity.
//!
//! Promised: a character's group is that of the published table at either disparity; a group is
//! heard as the character whose group it is, and is otherwise invalid; what is sent is heard; a
//! single wrong bit is found at the next special character at the latest, and changes no more than
//! two characters; no two groups make a comma anywhere but at the first bit of a group. Left out:
//! bits on a lane and where groups begin in them, the idle sequence, lanes.
//!
//! - [`Disparity`], [`Sent`] and [`Heard`]; `encode` and `decode`, of one character, and
//!   `encode_all` and `decode_all`
//! - the functions of `laws` have empty bodies: their contracts are what holds of the code
#![tactic(auto)]

mod codec;
mod disparity;
mod laws;
mod tables;

pub use codec::{Heard, Sent, decode, decode_all, encode, encode_all};
pub use disparity::Disparity;
pub use laws::{
    a_wrong_bit_is_found, a_wrong_bit_stays_in_its_block, commas_are_seen_at_one_place,
    commas_begin_groups, delimiters_are_safe, groups_are_balanced, one_character_is_heard,
    special_characters_tell_the_disparity, the_published_table, what_is_sent_is_heard,
};
pub use tables::{DECODED, ENCODED};
