//! The script language: what a script may say, and which line of other text is refused, and why.
//!
//! `parse` answers the script that bytes spell, or the first line that any of fourteen reasons hits
//! and the least such reason. `write_line` goes the other way, to an outbox, and `print` and
//! `line_text` answer what it writes. The language stands in `specs/`, once for both directions:
//!
//! - `Forms`: the keyword and the kinds of words of each kind of line;
//! - `Names`, `Texts`, `Lines`: the text of each word, and the words of a line;
//! - `Values`, `LineWords`: what the words of a line say, and the line that a form makes of it;
//! - `Hits`: which words each kind may be, and which reason hits the others;
//! - `Refusals`: the reasons that look at a whole line, after what `Known` says of earlier ones;
//! - `LargeIds`: which 16-bit device IDs the lines give nodes;
//! - `Reading`, `Scripts`: which lines and which bytes are spelled, and which are refused;
//! - `SetUps`: what is known behind set-up lines, of one event or of a line of set-up more;
//! - `GivenPackets`, `Operations`: the line that gives an endpoint a packet, and the line that asks
//!   for any other operation of a fabric.
//!
//! `parse_set_up` reads set-up lines alone. `read_set_up` does so too, and keeps in `SetUp` what is
//! known behind them, so that `SetUp::read_event` reads one event after another, and
//! `SetUp::take_line` takes a line of set-up more.
//!
//! The types are `Script`, its `Numbered` lines, `Line` and their parts `Name`, `Hex` and
//! `PortRef`; `Form`, `Field` and `Value` are what a line is about, what each of its words is to be
//! and what a word says; `Operation` is what a line asks of a fabric, and its `GivenPacket` what it
//! says of a packet that it gives to an endpoint; `Reason`, `Refusal` and `ScriptEnd` say why there
//! is no script. The module `laws` has each law as the contract of a function with an empty body: a text
//! is one line at most, and no reason hits it then; bytes spell one script at most, or are refused
//! once; a script that passes is spelled by its text; its 16-bit device IDs differ.
//!
//! `advise` says what in the text of a refused line is to blame.
//!
//! It leaves out what a line does. In reading only the lines, the names and the bytes of a script
//! take memory, and no word does. `write_line` takes none.
#![tactic(auto)]

mod advice;
mod fields;
mod forms;
mod given_packets;
mod hex;
mod known;
mod laws;
mod line_texts;
mod line_words;
mod lines;
mod links;
mod names;
mod numbers;
mod operations;
mod ports;
mod reasons;
mod refusals;
mod scripts;
mod set_ups;
mod soak;
mod spaced;
mod values;
mod words;
mod writing;

pub use advice::{Advice, WordKind, advise};
pub use fields::Field;
pub use forms::Form;
pub use given_packets::{Contents, GivenPacket, RequestHead};
pub use hex::{Hex, read_bytes, read_digits};
pub use laws::{
    large_ids_are_apart, line_or_reason, one_line, one_reason, one_refusal, one_script,
    printed_scripts_are_read, script_or_refusal, taken_large_ids,
};
pub use line_texts::{line_text, print};
pub use lines::{Line, Numbered, Script};
pub use names::{Name, find_name, read_name};
pub use numbers::read_number;
pub use operations::{Action, Operation};
pub use ports::PortRef;
pub use reasons::Reason;
pub use scripts::{Refusal, ScriptEnd, is_skipped, parse, parse_set_up};
pub use set_ups::{EventEnd, SetUp, read_set_up};
pub use soak::soak_script;
pub use spaced::{put_bytes, put_node, put_number, put_value, write_name, write_port};
pub use values::Value;
pub use words::split_word;
pub use writing::write_line;
