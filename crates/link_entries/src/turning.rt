//! The entries of the table of turns.
ghost use Rattle.std.specs.Prelude.{◌≡◌, ◌<◌, ℕ, Bool, false};
ghost use Rattle.link_buffers.specs.Prelude.{highest};
ghost use Rattle.link_buffers.specs.Priorities.{count_of};
ghost use Rattle.link_model.specs.Prelude.{Output, Outstanding, times_out};
ghost use Rattle.link_model.specs.Output as out;
ghost use Rattle.link_port.specs.Ports.{PortState, new_port};
ghost use Rattle.link_port.specs.States.{prios_of};
ghost use Rattle.link_port.specs.Steps.{symbol_heard};
ghost use Rattle.link_port.specs.Turns.{port_turn, turns_to, waiting_in};
ghost use Rattle.link_entries.specs.Turning.{turn_entry, unstarted_entry, credit_point, overtaking_point, status_point, IsReported};

use crate::entry::TurnEntry;
use link_model::{UNTOLD, WINDOW, has_buffer_status};
use link_port::{OutKind, Port};
use rio_symbols::Symbol;

/// The entry that a turn of this port will meet.
pub fn turn_entry(port: &Port) -> TurnEntry
    ensures { result ≡ turn_entry port.now }
{
    match port.out_kind() {
        OutKind::Ok if port.ready() => TurnEntry::PacketSent,
        OutKind::Ok => unstarted_entry(port),
        OutKind::RetryStopped => TurnEntry::RestartSent,
        OutKind::ErrorStopped if port.asked() => TurnEntry::AskedBefore,
        OutKind::ErrorStopped => TurnEntry::RequestSent,
        OutKind::Failed => TurnEntry::TurnWhileFailed,
    }
}

/// The entry of a turn while OK in which no packet starts.
fn unstarted_entry(port: &Port) -> TurnEntry
    ensures { (w : Outstanding) → port.now.output ≡ out.Output.Ok w
        → result ≡ unstarted_entry w (highest (waiting_in port.now)) }
{
    if !port.waiting() {
        TurnEntry::NothingWaits
    } else if port.outstanding() < WINDOW {
        TurnEntry::WithoutCredit
    } else {
        TurnEntry::WindowIsFull
    }
}

/// The point that a turn of this port will meet beside its entry, if a packet is sent in it and
/// `told`: the far port tells its free buffers.
pub fn credit_point(port: &Port, told: bool) -> Option<TurnEntry>
    ensures { IsReported told port.now.output → result ≡ credit_point port.now }
{
    if port.ready() && told {
        Some(TurnEntry::WithinCredit)
    } else {
        None
    }
}

/// Whether the far port tells its free buffers, after a symbol from it: by the last one that has a
/// buffer status. A port begins with `false`, and turns and time-outs leave it as it is.
pub fn told_after(told: bool, symbol: &Symbol) -> bool
    ensures heard { (port : PortState) → IsReported told port.output
        → IsReported result (symbol_heard port symbol.now).state }
    ensures new { (tells : Bool) (buffers : ℕ) → IsReported false (new_port tells buffers).output }
    ensures turned { (port : PortState) → IsReported told port.output
        → IsReported told (turns_to port).output }
    ensures timed_out { (output : Output) → IsReported told output
        → IsReported told (times_out output) }
{
    if has_buffer_status(symbol.s0) {
        symbol.p1 < UNTOLD
    } else {
        told
    }
}

/// The point that a turn met beside its entry, in which a packet of this priority was sent that
/// stands at this place of its list, by the port `after` it: the next that waits has a lower
/// priority.
pub fn overtaking_point(after: &Port, prio: u8, place: u8) -> Option<TurnEntry>
    requires { prio < 4 }
    ensures { (port : PortState) (ack : ℕ) → after.now ≡ turns_to port
        → (port_turn port).sends ≡ out.Sends.Packet ack prio
        → place ≡ count_of (prios_of port.output) prio → result ≡ overtaking_point port }
{
    if !after.waiting() {
        return None;
    }
    match after.queued_at(prio, place.saturating_add(1)) {
        Some(_) => None,
        None => Some(TurnEntry::Overtakes),
    }
}

/// The point that a turn of this port will meet beside its entry, if it sends its status in place
/// of a packet.
pub fn status_point(port: &Port) -> Option<TurnEntry>
    ensures { result ≡ status_point port.now }
{
    if port.out_kind() == OutKind::Ok && !port.ready() && port.tells() {
        Some(TurnEntry::StatusSent)
    } else {
        None
    }
}
