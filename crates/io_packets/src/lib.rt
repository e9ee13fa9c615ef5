//! Reads and writes of memory by packets (RapidIO Interconnect Specification 1.3, Part 1:
//! Input/Output Logical): NREAD, NWRITE, NWRITE_R and SWRITE, the responses to them, and what an
//! endpoint with memory does with each.
//!
//! Promised: each packet carries exactly one of these, a request that is bad, or nothing that is
//! known here; what is written is read back; and a request is served by one rule, which says what
//! becomes of the memory and what is answered.
//!
//! Left out: atomic operations, sizes that `docs/packets.md` does not name, addresses of more than
//! 32 bits, and IDs of 16 bits: a packet with such IDs is read as [`Io::Other`]. No call takes
//! memory.
//!
//! - [`Io`] is what a packet carries, and a [`Load`] the data of it: [`read_io`], [`write_io`].
//! - [`is_size`] and [`is_stream_size`] say how many bytes a packet may read or write.
//! - [`serve`] does at a memory what was asked, and makes the answer.
//! - [`what_is_written_is_read`] and [`memory_keeps_what_is_written`] are laws: each states what
//!   holds of all packets or memories, and does nothing.
#![tactic(auto)]

mod classes;
mod io;
mod laws;
mod reading;
mod serving;
#[cfg(test)]
mod tests;
mod writing;

pub use io::{Io, Load, MAX_LOAD};
pub use laws::{memory_keeps_what_is_written, what_is_written_is_read};
pub use reading::{is_size, is_stream_size, read_io};
pub use serving::serve;
pub use writing::{MAX_BEHIND_IDS, write_io};
