//! The entries of the step tables of a port and of the reading of characters: which of them a
//! symbol, a turn, a time-out, an arrival or a character meets.
//!
//! Promised: each function answers the entry, or the point beside one, that the definitions over
//! the tables of `link_model` name; no two entries have one number; and each entry is met by a run
//! of a port from its start.
//!
//! Left out: how often an entry was met, and who lets a port do what.
//!
//! - [`Entry`]: the entries; [`entry_number`] and [`entry_words`] tell them
//! - [`OutBefore`], [`heard_entry`] and [`heard_point`]: a symbol in the output half
//! - [`obeyed_entry`], [`packet_entry`], [`packet_point`] and [`bad_entry`]: what comes to the
//!   input half
//! - [`turn_entry`], [`credit_point`], [`overtaking_point`] and [`status_point`]: a turn;
//!   [`told_after`]: whether the far port tells its free buffers
//! - [`time_out_entry`] and [`time_out_point`]: a time-out
//! - [`Reader`] and [`ended_point`]: a character
//! - [`every_entry_is_met`] and [`numbers_are_different`]: laws; the calls do nothing
#![tactic(auto)]

mod arriving;
mod entry;
mod hearing;
mod laws;
mod numbers;
mod reading;
mod timing_out;
mod turning;
mod words;

pub use arriving::{bad_entry, obeyed_entry, packet_entry, packet_point};
pub use entry::{ArrivedEntry, Entry, HeardEntry, ReadEntry, TimeOutEntry, TurnEntry};
pub use hearing::{OutBefore, heard_entry, heard_point};
pub use laws::{every_entry_is_met, numbers_are_different};
pub use numbers::{ENTRIES, entry_number};
pub use reading::{Reader, TextKind, ended_point};
pub use timing_out::{time_out_entry, time_out_point};
pub use turning::{credit_point, overtaking_point, status_point, told_after, turn_entry};
pub use words::entry_words;
