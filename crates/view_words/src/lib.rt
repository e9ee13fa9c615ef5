//! What a view of a trace stands on: its lines are read and shown one after another, and what they
//! say is told in words and in tables.
//!
//! Promised: each line of a trace is read by the reader of `trace_lines`. Left out: whether a trace
//! is lawful, which `trace_check` tells.
//!
//! - [`show`]: reads set-up lines and a trace, and writes what a [`View`] makes of them, or ends
//!   with a [`ViewEnd`], of which a [`RefusedLine`] says which line is to blame and why
//! - [`Part`], [`Selection`]: which lines and ports of a trace are shown
//! - [`Text`]: what is written, with the mark of memory that was not given
//! - [`Ports`]: what a view keeps for each port; [`Ear`], [`Hear`], [`Heard`]: what characters say;
//!   [`Halves`]: the states of the halves of a port, as its wires tell them
//! - [`WordsView`], [`CountsView`]: a trace in words, and its counts
#![tactic(auto)]

mod behind;
mod blame;
mod counts;
mod fabric;
mod halves;
mod heard;
mod lines;
mod packets;
mod reading;
mod refusals;
mod registers;
mod selection;
mod status;
mod symbols;
mod text;
mod transfers;
mod view;
mod words;

pub use counts::CountsView;
pub use fabric::{Ports, links_of, peer_of, port_of, put_node, put_port};
pub use halves::{HalfState, Halves};
pub use heard::{Ear, Hear, Heard, listen};
pub use lines::Lines;
pub use packets::{AskedRegisters, put_packet, put_sent_packet};
pub use reading::{ViewEnd, read_front, show, write_out};
pub use refusals::{LineFault, RefusedLine, refused};
pub use selection::{ChosenPorts, LineRange, Part, Selection};
pub use status::{ViewStatus, status_number};
pub use symbols::{
    bad_words, is_delimiter, put_brief_symbol, put_symbol, stype0_name, stype1_name,
};
pub use text::Text;
pub use view::{Seen, Setting, View};
pub use words::{WordsView, put_event};
