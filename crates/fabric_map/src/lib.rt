//! The map of a numbered fabric: which devices a host reaches, with which tags, IDs and paths, and
//! where the route tables send packets (RapidIO Interconnect Specification 1.3, Part 3,
//! enumeration; the order of the devices is this project's profile).
//!
//! Promised: what a numbered fabric is, over its devices and links alone, with no order of asking.
//! Every map of one fabric is the same, and the first locked device is one.
//!
//! Left out: the code that numbers a fabric.
//!
//! - [`Map`] has the [`Device`]s, each with its [`Kind`] and its [`Path`], and each [`Entry`] of
//!   the route tables.
//! - [`entries_of`] makes the entries of a map from its devices; [`toward`] is the port by which a
//!   path goes on.
//! - `specs/Topology.antt` says where a path leads, `specs/Walked.antt` in which order devices are
//!   met, `specs/Routes.antt` where packets go, `specs/Numbered.antt` what a map says,
//!   `specs/Locked.antt` which locked device is met first, and `specs/Ways.antt` how a host asks a
//!   device.
#![tactic(auto)]

mod entries;
mod examples;
mod laws;
mod map;
#[cfg(test)]
mod tests;

pub use entries::{entries_of, toward};
pub use examples::{the_ring_has_its_map, the_ring_has_its_registers, wrong_maps_are_none};
pub use laws::{
    a_fabric_has_one_map, a_host_asks_along_a_path, a_map_is_whole, a_walk_goes_on,
    an_id_has_one_endpoint, the_first_locked_is_one,
};
pub use map::{Device, Entry, Kind, Map, Path};
