//! Bits of a lane that are not parted into groups: where groups begin in them, and what is heard.
//!
//! Promised: each comma begins a group, at whichever bit it stands, and from there each tenth bit
//! does; a comma at another place than the groups is told as a slip, and puts the lane out of sync.
//! Of what is sent, after any bits that make no comma before it, is heard what was sent. Left out:
//! the code, and the texts of bits.
//!
//! - [`Aligner`]: [`Aligner::Seeking`] before the first comma, and then [`AlignedBits`]; each bit
//!   makes an [`AlignStep`], and some end a [`BitPiece`]
//! - `read_pieces`, of digits, and `hear_pieces`, of what they end
#![tactic(auto)]

mod align;
mod laws;
mod pieces;

pub use align::{AlignStep, AlignedBits, Aligner, BitPiece};
pub use laws::{a_comma_at_a_new_place_begins_groups, bits_of_what_is_sent_are_heard};
pub use pieces::{hear_pieces, read_pieces};
