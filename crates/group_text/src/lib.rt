//! The texts of code groups: words of ten binary digits, bits a to j in the order in which they are
//! sent.
//!
//! Promised: each group has one text, which is read back as it, and no other word is read. Left
//! out: what a group is heard as, and packed bits.
//!
//! - `group_text`, `read_group` and `write_groups`
#![tactic(auto)]

mod texts;

pub use texts::{group_text, read_group, write_groups};
