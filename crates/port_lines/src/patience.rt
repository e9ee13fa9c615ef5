//! When a port by clocks has waited too long for an answer.
ghost use Rattle.std.specs.Prelude.{◌≡◌, ◌==◌, ◌&&◌, length};
ghost use Rattle.link_port.specs.Halves.{out_kind_of};
ghost use Rattle.link_port.specs.States.{prios_of};
ghost use Rattle.port_lines.specs.Patience.{awaits_answer as awaits_answer_of, out_number as out_number_of, is_quiet, timed_out_if, patience_after, is_too_long};

use link_port::{OutKind, Port};
use rio_chars::Char;
use std::collections::VecDeque;

/// What is told of an output half.
#[derive(Clone, Copy)]
pub(crate) struct OutTold {
    /// The number of its state.
    state: u8,
    /// How many packets are outstanding.
    outstanding: u8,
}

/// What is told of the output half of a port.
pub(crate) fn out_told(port: &Port) -> OutTold
    ensures state { result.state ≡ out_number_of (out_kind_of port.now.output) }
    ensures outstanding { result.outstanding ≡ length (prios_of port.now.output) }
{
    OutTold {
        state: out_number(port.out_kind()),
        outstanding: port.outstanding(),
    }
}

/// Whether the same is told.
pub(crate) fn is_told_alike(one: OutTold, other: OutTold) -> bool
    ensures { result
        ≡ ((one.state == other.state) && (one.outstanding == other.outstanding)) }
{
    one.state == other.state && one.outstanding == other.outstanding
}

/// The number of a state of the output half.
pub fn out_number(kind: OutKind) -> u8
    ensures { result ≡ out_number_of kind }
{
    match kind {
        OutKind::Ok => 0,
        OutKind::RetryStopped => 1,
        OutKind::ErrorStopped => 2,
        OutKind::Failed => 3,
    }
}

/// Whether the output half of a port waits for an answer.
pub(crate) fn awaits_answer(port: &Port) -> bool
    ensures { result ≡ awaits_answer_of port.now.output }
{
    match port.out_kind() {
        OutKind::Ok => port.outstanding() > 0,
        OutKind::ErrorStopped => port.asked(),
        OutKind::RetryStopped | OutKind::Failed => false,
    }
}

/// Whether a clock goes by without an answer, whose character left what is told of the output half
/// as it was, or did not.
pub(crate) fn goes_unanswered(is_same: bool, port: &Port, waiting: &VecDeque<Char>) -> bool
    ensures { result ≡ ((is_same && awaits_answer_of port.now.output)
        && is_quiet port.now waiting.now.items) }
{
    is_same && awaits_answer(port) && waiting.is_empty() && port.at_rest()
}

/// Has the time-out of a port fire, or does nothing.
pub(crate) fn time_out_if(is_late: bool, port: &mut Port)
    ensures { port.new ≡ timed_out_if is_late port.old }
{
    if is_late {
        port.time_out();
    }
}

/// Counts a clock, and answers whether the port has waited too long.
pub(crate) fn lose_patience(left: &mut u32, patience: u32, unanswered: bool) -> bool
    ensures left { left.new ≡ patience_after patience left.old unanswered }
    ensures late { result ≡ is_too_long left.old unanswered }
{
    let is_late = unanswered && *left == 1;
    *left = if unanswered && *left > 1 {
        *left - 1
    } else {
        patience
    };
    is_late
}
