//! The lines that a port is asked by, and its answers. A port may be asked by clocks.
//!
//! Promised: a line asks for what `docs/live.md` says, or is refused. It is answered as the tables
//! of a port give it, from the state where the port stands.
//!
//! Left out: where lines come from, and where answers go.
//!
//! - [`PortRequest`], `read_request`: what a line asks for
//! - [`RequestRefusal`] and [`RequestFault`]: why a line is refused, and what is said of it
//! - `answer`: does what a line asks for, and tells the answer
//! - [`ClockedPort`]: a port by clocks, of which each takes a character and gives one, told by
//!   [`Clocked`]; [`PortSettings`]: how it is made, and what it does by itself;
//!   `number_of_buffers`: what a word says of it
//! - `clocks_give_whole_bursts`, `only_unanswered_ports_time_out`: laws of clocks
//! - `take_char`: leads a character through a port, with room for packets that is used again,
//!   [`Came`]
//! - `highest_held`: the priority of the packet that is taken next; `out_number`: the number of a
//!   state of the output half
#![tactic(auto)]

mod acting;
mod answers;
mod clocked;
mod clocks;
mod faults;
mod kinds;
mod laws;
mod patience;
mod requests;
mod settings;
mod taking;
mod texts;
mod words;

pub use acting::{Came, take_char};
pub use answers::answer;
pub use clocked::{Clocked, ClockedPort};
pub use faults::{RequestFault, RequestRefusal};
pub use laws::{clocks_give_whole_bursts, only_unanswered_ports_time_out};
pub use patience::out_number;
pub use requests::{PortRequest, read_request};
pub use settings::{PortSettings, number_of_buffers};
pub use taking::highest_held;
