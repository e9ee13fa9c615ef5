//! The entries of the table of the input half.
ghost use Rattle.std.specs.Prelude.{◌≡◌, ℕ, List};
ghost use Rattle.link_model.specs.Prelude.{Input, Damaged};
ghost use Rattle.link_model.specs.Input.Arrival.{RestartFromRetry, LinkRequest};
ghost use Rattle.link_port.specs.Ports.{PortState};
ghost use Rattle.link_port.specs.Halves.{in_kind_of};
ghost use Rattle.link_port.specs.Steps.{acts_packet};
ghost use Rattle.link_entries.specs.Arriving.{arrived_entry, obeyed_entry, packet_entry, packet_point};

use crate::entry::ArrivedEntry;
use link_port::{InKind, Port};
use rio_symbols::stype1::{LINK_REQUEST, RESTART_FROM_RETRY};
use rio_symbols::{Symbol, cmd};

/// The entry that a symbol will meet in the input half of this port.
pub fn obeyed_entry(port: &Port, symbol: &Symbol) -> ArrivedEntry
    ensures { result ≡ obeyed_entry symbol.now.s1 symbol.now.cmd port.now.input }
{
    match (symbol.s1, symbol.cmd) {
        (RESTART_FROM_RETRY, _) => restart_entry(port.in_kind()),
        (LINK_REQUEST, cmd::INPUT_STATUS) => request_entry(port.in_kind()),
        (LINK_REQUEST, _) => ArrivedEntry::AnotherCmd,
        _ => ArrivedEntry::AnotherStype1,
    }
}

/// The entry of a restart-from-retry.
fn restart_entry(before: InKind) -> ArrivedEntry
    ensures { (input : Input) → before ≡ in_kind_of input
        → result ≡ arrived_entry RestartFromRetry input }
{
    match before {
        InKind::Ok => ArrivedEntry::RestartWhileOk,
        InKind::RetryStopped => ArrivedEntry::RestartWhileRetryStopped,
        InKind::ErrorStopped => ArrivedEntry::RestartWhileErrorStopped,
    }
}

/// The entry of a link-request input-status.
fn request_entry(before: InKind) -> ArrivedEntry
    ensures { (input : Input) → before ≡ in_kind_of input
        → result ≡ arrived_entry LinkRequest input }
{
    match before {
        InKind::Ok => ArrivedEntry::RequestWhileOk,
        InKind::RetryStopped => ArrivedEntry::RequestWhileRetryStopped,
        InKind::ErrorStopped => ArrivedEntry::RequestWhileErrorStopped,
    }
}

/// The entry that a good packet met in the input half of a port, by the state `before` and the port
/// `after` it.
pub fn packet_entry(before: InKind, after: &Port) -> ArrivedEntry
    ensures { (port : PortState) (ack : ℕ) (packet : List ℕ) → before ≡ in_kind_of port.input
        → after.now ≡ (acts_packet port ack packet).port
        → result ≡ packet_entry port ack packet }
{
    match (before, after.in_kind()) {
        (InKind::Ok, InKind::Ok) => ArrivedEntry::PacketTaken,
        (InKind::Ok, InKind::RetryStopped) => ArrivedEntry::PacketWithoutRoom,
        (InKind::Ok, InKind::ErrorStopped) => ArrivedEntry::PacketWithAnotherAck,
        (InKind::RetryStopped, _) => ArrivedEntry::PacketWhileRetryStopped,
        (InKind::ErrorStopped, _) => ArrivedEntry::PacketWhileErrorStopped,
    }
}

/// The point that a packet with this ackID met beside it, if any.
pub fn packet_point(before: InKind, ack: u8, after: &Port) -> Option<ArrivedEntry>
    ensures { (port : PortState) (packet : List ℕ) → before ≡ in_kind_of port.input
        → after.now ≡ (acts_packet port ack packet).port
        → result ≡ packet_point port ack packet }
{
    if packet_entry(before, after) == ArrivedEntry::PacketTaken && ack == 31 {
        Some(ArrivedEntry::LastTaken)
    } else {
        None
    }
}

/// The entry that what is neither a packet nor a symbol will meet in the input half of this port.
pub fn bad_entry(port: &Port) -> ArrivedEntry
    ensures { (cause : ℕ) → result ≡ arrived_entry (Damaged cause) port.now.input }
{
    match port.in_kind() {
        InKind::Ok => ArrivedEntry::BadWhileOk,
        InKind::RetryStopped => ArrivedEntry::BadWhileRetryStopped,
        InKind::ErrorStopped => ArrivedEntry::BadWhileErrorStopped,
    }
}
