//! A port, a whole fabric and a check of traces for programs in C.
//!
//! Promised: a call does what its contract says, whatever C passes that its types allow. A handle
//! that was zeroed, or that came from a call of this library, is closed or open, and each call of
//! a closed one says so.
//!
//! Left out: what C owes, which nothing checks: that a handle is used by one call at a time and is
//! not copied, that a pointer and a length are those of memory that nothing else uses meanwhile,
//! and the three functions of the C library that give memory.
//!
//! - `kigvarp_port_..`: one end of a link; `kigvarp_fabric_..`: a fabric that answers lines
//! - `kigvarp_checker_..`: a check of a trace, line by line
//! - `kigvarp_decode`, `kigvarp_symbol_..`, `kigvarp_packet_..`: what characters and bytes say
#![tactic(auto)]

mod checker;
mod checker_handle;
mod fabric;
mod fabric_handle;
mod parts;
mod port;
mod port_calls;
mod port_handle;
mod words;
