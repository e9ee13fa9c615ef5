//! The registers of an endpoint or a switch, as maintenance requests read and write them (RapidIO
//! Interconnect Specification 1.3, Part 1, Part 3 and Part 6, registers), and the route table of a
//! switch, which is written through them.
//!
//! Promised: which register stands at which offset, what is read there, and which bits a write
//! changes, exactly; the rule of the host lock; and the port to which a switch sends packets for a
//! destination. Contracts see the registers as plain values: kind, ports, IDs, and a list of route
//! entries.
//!
//! Left out: the packets that carry requests, and registers that this project does not have
//! (`docs/registers.md` has the table). No call takes memory.
//!
//! - [`Registers`] are those of one device, made by [`Registers::endpoint`] or
//!   [`Registers::switch`].
//! - `table` has the offsets, and reads and writes by them.
//! - [`Registers::write`] goes by them
#![tactic(auto)]

mod laws;
mod registers;
mod table;
#[cfg(test)]
mod tests;

pub use laws::{
    a_standard_host_finds_the_block, an_endpoint_is_accessed, devices_stay_within,
    link_shows_at_its_port, lock_is_taken_if_free, new_devices_are_within,
    other_writes_leave_lock_and_tag, reads_are_words, standard_registers_add,
    write_changes_its_bits, writes_leave_large_id,
};
pub use registers::Registers;
