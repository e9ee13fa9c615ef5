//! How a host asks the devices of a fabric, and numbers them (RapidIO Interconnect Specification
//! 1.3, Part 3, enumeration; the order of devices and IDs is this project's profile).
//!
//! Promised: whoever carries accesses as [`Maint`] answers each as the registers do at which it
//! ends, and changes no others; an access has no answer only for want of memory, or if a count
//! rose. Plain registers and links do so. Over any such [`Maint`] a host numbers the fabric, or
//! names the first device that another host holds.
//!
//! Left out: packets and the links that carry them.
//!
//! - [`enumerate`] answers the map of a fabric, or tells the [`EnumEnd`].
//! - [`Maint`] carries an [`Access`] to a device and brings back the [`Answer`], or tells the
//!   [`MaintEnd`].
//! - [`PlainMaint`] does so for registers and links that it holds itself, those of a script;
//!   [`devise`] makes these alone, [`peer_in`] follows a link, and [`respond`] lets one device
//!   answer. `offsets` has the offsets of registers. [`judge_host`] says which node of it can be
//!   the host, and [`find_host`] which does so by its name, or they tell the [`NoHost`].
//! - [`write_map`] and [`write_locked`] write the lines of a map, and of a device that another host
//!   holds.
//! - [`a_pair_can_be_asked`] says so of the least fabric, and [`scripts_make_new_fabrics`] of what
//!   set-up lines make.
//! - `walk` goes from port to port, `taking` takes a device in, `setting` writes its registers, and
//!   `asking` makes single accesses.
#![tactic(auto)]

mod asking;
mod devising;
mod ends;
mod examples;
mod hosts;
mod laws;
mod maint;
mod map_lines;
pub mod offsets;
mod plain;
mod setting;
mod taking;
mod walk;

pub use devising::{NoHost, devise, judge_host};
pub use ends::EnumEnd;
pub use examples::a_pair_can_be_asked;
pub use hosts::find_host;
pub use laws::scripts_make_new_fabrics;
pub use maint::{Access, Answer, Maint, MaintEnd};
pub use map_lines::{write_locked, write_map};
pub use plain::{PlainMaint, peer_in, respond};
pub use walk::enumerate;
