//! What reads and writes come to over a whole run of a script, as laws of the rules of
//! `io_rounds`.
//!
//! Promised: in every run, the bytes of a read that is told are those that stand in the memory that
//! the lines told before it leave: the zeros of the last `memory` line of its node, with the writes
//! since then put in. Each packet gives at most one line when it comes. A node replies to what it
//! serves, in order and once, each `done` line is of one such reply, and of what one node asks one
//! device the first comes first.
//!
//! Left out: code that runs, which `io_rounds` has, and that a request is ever served.
//!
//! - `specs/Telling.antt` says what a run tells and what that leaves in a memory,
//!   `specs/Items.antt` of which packets its lines are, `specs/Asks.antt` of which lines of the
//!   script, `specs/Replies.antt` what each node serves and replies, and `specs/Laws.antt` the
//!   laws.
//! - [`reads_are_of_lines_told`], [`memories_are_as_told`], [`output_is_what_was_told`],
//!   [`packets_have_one_line`], [`packets_come_as_taken`], [`responses_were_replied`],
//!   [`requests_were_asked`], [`packets_come_in_turn`], [`replies_answer_what_was_served`],
//!   [`done_lines_answer_requests`] and [`asks_are_of_their_lines`] are the laws.
#![tactic(auto)]

mod laws;

pub use laws::{
    asks_are_of_their_lines, done_lines_answer_requests, memories_are_as_told,
    output_is_what_was_told, packets_come_as_taken, packets_come_in_turn, packets_have_one_line,
    reads_are_of_lines_told, replies_answer_what_was_served, requests_were_asked,
    responses_were_replied,
};
