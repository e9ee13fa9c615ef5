//! The entries of the table of the output half.
ghost use Rattle.std.specs.Prelude.{◌≡◌, ℕ};
ghost use Rattle.link_model.specs.Prelude.{Output, Outstanding, hears};
ghost use Rattle.link_model.specs.Output as out;
ghost use Rattle.link_model.specs.Output.{stype0};
ghost use Rattle.link_port.specs.Ports.{PortState};
ghost use Rattle.link_port.specs.Halves.{out_kind_of};
ghost use Rattle.link_port.specs.States.{has_asked};
ghost use Rattle.link_port.specs.Steps.{acts_symbol};
ghost use Rattle.link_entries.specs.Hearing.{heard_entry, symbol_heard_entry, symbol_heard_point, any_freed, point_beside};
ghost use Rattle.link_entries.specs.Standing.{out_before_of};

use crate::entry::HeardEntry;
use arrayvec::ArrayVec;
use link_port::{OutKind, Port};
use rio_packets::Packet;
use rio_symbols::Symbol;
use rio_symbols::stype0::{LINK_RESPONSE, PACKET_ACCEPTED, PACKET_NOT_ACCEPTED, PACKET_RETRY};

/// What is known of the output half of a port before a symbol comes.
#[derive(Clone, Copy, Debug, PartialEq, Eq)]
pub struct OutBefore {
    /// Its state.
    pub kind: OutKind,
    /// Whether a link-request was sent since the error or the last time-out.
    pub asked: bool,
}

impl OutBefore {
    /// What is known of this port.
    pub fn of(port: &Port) -> OutBefore
        ensures { result ≡ out_before_of port.now }
    {
        OutBefore {
            kind: port.out_kind(),
            asked: port.asked(),
        }
    }
}

/// The entry that a symbol met in the output half of a port, by what is known `before` and by the
/// port `after` it.
pub fn heard_entry(before: OutBefore, symbol: &Symbol, after: &Port) -> HeardEntry
    ensures { (port : PortState) → before ≡ out_before_of port
        → after.now ≡ (acts_symbol port symbol.now).port
        → result ≡ symbol_heard_entry port symbol.now }
{
    entry_between(before, symbol.s0, after.out_kind())
}

/// The entry of a symbol with this stype0, by what is known before it and by the state behind it.
fn entry_between(before: OutBefore, s0: u8, behind: OutKind) -> HeardEntry
    ensures { (output : Output) (ack : ℕ) → before.kind ≡ out_kind_of output
        → before.asked ≡ has_asked output
        → behind ≡ out_kind_of (hears (stype0 s0) output ack).state
        → result ≡ heard_entry (stype0 s0) output ack }
{
    match before.kind {
        OutKind::Ok => ok_entry(s0, behind),
        OutKind::RetryStopped => retry_stopped_entry(s0),
        OutKind::ErrorStopped => error_stopped_entry(before.asked, s0, behind),
        OutKind::Failed => HeardEntry::AnyWhileFailed,
    }
}

/// The entry of a symbol while OK, by the state that it leads to.
fn ok_entry(s0: u8, behind: OutKind) -> HeardEntry
    ensures { (w : Outstanding) (ack : ℕ)
        → behind ≡ out_kind_of (hears (stype0 s0) (out.Output.Ok w) ack).state
        → result ≡ heard_entry (stype0 s0) (out.Output.Ok w) ack }
{
    match (s0, behind) {
        (PACKET_ACCEPTED, OutKind::Ok) => HeardEntry::Accepted,
        (PACKET_ACCEPTED, _) => HeardEntry::AcceptedOther,
        (PACKET_RETRY, OutKind::RetryStopped) => HeardEntry::Retried,
        (PACKET_RETRY, _) => HeardEntry::RetriedOther,
        (PACKET_NOT_ACCEPTED, _) => HeardEntry::NotAccepted,
        (LINK_RESPONSE, _) => HeardEntry::ResponseWhileOk,
        _ => HeardEntry::OtherWhileOk,
    }
}

/// The entry of a symbol while retry-stopped.
fn retry_stopped_entry(s0: u8) -> HeardEntry
    ensures { (w : Outstanding) (ack : ℕ)
        → result ≡ heard_entry (stype0 s0) (out.Output.RetryStopped w) ack }
{
    match s0 {
        PACKET_ACCEPTED => HeardEntry::AcceptedWhileRetryStopped,
        PACKET_RETRY => HeardEntry::RetriedWhileRetryStopped,
        PACKET_NOT_ACCEPTED => HeardEntry::NotAcceptedWhileRetryStopped,
        LINK_RESPONSE => HeardEntry::ResponseWhileRetryStopped,
        _ => HeardEntry::OtherWhileRetryStopped,
    }
}

/// The entry of a symbol while error-stopped, by the state that it leads to.
fn error_stopped_entry(asked: bool, s0: u8, behind: OutKind) -> HeardEntry
    ensures { (w : Outstanding) (ack : ℕ)
        → behind ≡ out_kind_of (hears (stype0 s0) (out.Output.ErrorStopped asked w) ack).state
        → result ≡ heard_entry (stype0 s0) (out.Output.ErrorStopped asked w) ack }
{
    match (s0, behind) {
        (LINK_RESPONSE, _) if !asked => HeardEntry::ResponseUnasked,
        (LINK_RESPONSE, OutKind::Ok) => HeardEntry::ResponseExpected,
        (LINK_RESPONSE, _) => HeardEntry::ResponseUnexpected,
        (PACKET_ACCEPTED, _) => HeardEntry::AcceptedWhileErrorStopped,
        (PACKET_RETRY, _) => HeardEntry::RetriedWhileErrorStopped,
        (PACKET_NOT_ACCEPTED, _) => HeardEntry::NotAcceptedWhileErrorStopped,
        _ => HeardEntry::OtherWhileErrorStopped,
    }
}

/// The point that the symbol met beside this entry, if any, by the packets that it freed.
pub fn heard_point(
    entry: HeardEntry,
    symbol: &Symbol,
    freed: &ArrayVec<Packet, 31>,
) -> Option<HeardEntry>
    ensures value { result ≡ point_beside entry symbol.now.p0 (any_freed freed.now.items) }
    ensures of_port { (port : PortState) → entry ≡ symbol_heard_entry port symbol.now
        → freed.now.items ≡ (acts_symbol port symbol.now).freed
        → result ≡ symbol_heard_point port symbol.now }
{
    match entry {
        HeardEntry::Accepted if symbol.p0 == 31 => Some(HeardEntry::AcceptedLast),
        HeardEntry::ResponseExpected if !freed.is_empty() => Some(HeardEntry::ResponseFrees),
        _ => None,
    }
}
