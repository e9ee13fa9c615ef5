//! The control symbols that a port sends (RapidIO Interconnect Specification 1.3, Part 6, control
//! symbols).
ghost use Rattle.std.specs.Prelude.{◌≡◌, ◌<◌};
ghost use Rattle.rio_packets.specs.CauseNumbers.{number_of};
ghost use Rattle.link_model.specs.Symbols as symbols;
ghost use Rattle.link_model.specs.PortStatuses.{port_status_number};

use rio_packets::{Cause, cause_number};
use rio_symbols::{Symbol, cmd, stype0, stype1};

/// The buffer status of a port that does not tell its free buffers: receiver-controlled flow
/// control. The buffer status of one that does is their number, 0 to 30.
pub const UNTOLD: u8 = 31;

/// What a link-response tells of the input half of a port.
#[derive(Clone, Copy, Debug, PartialEq, Eq)]
pub enum PortStatus {
    /// It waits for restart-from-retry.
    RetryStopped,
    /// It met an error.
    ErrorStopped,
    /// It takes packets.
    Ok,
}

/// The packet with this ackID was accepted. The buffer status is the number of buffers that are
/// free then, 0 to 30, or [`UNTOLD`].
pub fn packet_accepted(ack: u8, buffers: u8) -> Symbol
    requires ack { ack < 32 }
    requires buffers { buffers < 32 }
    ensures { result ≡ symbols.packet_accepted ack buffers }
{
    answer(stype0::PACKET_ACCEPTED, ack, buffers)
}

/// The packet with this ackID has to be sent again.
pub fn packet_retry(ack: u8, buffers: u8) -> Symbol
    requires ack { ack < 32 }
    requires buffers { buffers < 32 }
    ensures { result ≡ symbols.packet_retry ack buffers }
{
    answer(stype0::PACKET_RETRY, ack, buffers)
}

/// An error, where the next packet that is expected has this ackID.
pub fn packet_not_accepted(expected: u8, cause: Cause) -> Symbol
    requires { expected < 32 }
    ensures { result ≡ symbols.packet_not_accepted expected (number_of cause) }
{
    answer(stype0::PACKET_NOT_ACCEPTED, expected, cause_number(cause))
}

/// The answer to a link-request: the ackID that is expected next, and the state of the input before
/// it.
pub fn link_response(expected: u8, status: PortStatus) -> Symbol
    requires { expected < 32 }
    ensures { result ≡ symbols.link_response expected (port_status_number status) }
{
    let port_status = match status {
        PortStatus::RetryStopped => 4,
        PortStatus::ErrorStopped => 5,
        PortStatus::Ok => 16,
    };
    answer(stype0::LINK_RESPONSE, expected, port_status)
}

/// Status with NOP, from a port that expects this ackID and has this buffer status.
pub fn status(expected: u8, buffers: u8) -> Symbol
    requires expected { expected < 32 }
    requires buffers { buffers < 32 }
    ensures { result ≡ symbols.status expected buffers }
{
    status_with(expected, buffers, stype1::NOP, 0)
}

/// Status with start-of-packet.
pub fn start_of_packet(expected: u8, buffers: u8) -> Symbol
    requires expected { expected < 32 }
    requires buffers { buffers < 32 }
    ensures { result ≡ symbols.start_of_packet expected buffers }
{
    status_with(expected, buffers, stype1::START_OF_PACKET, 0)
}

/// Status with end-of-packet.
pub fn end_of_packet(expected: u8, buffers: u8) -> Symbol
    requires expected { expected < 32 }
    requires buffers { buffers < 32 }
    ensures { result ≡ symbols.end_of_packet expected buffers }
{
    status_with(expected, buffers, stype1::END_OF_PACKET, 0)
}

/// Status with restart-from-retry.
pub fn restart_from_retry(expected: u8, buffers: u8) -> Symbol
    requires expected { expected < 32 }
    requires buffers { buffers < 32 }
    ensures { result ≡ symbols.restart_from_retry expected buffers }
{
    status_with(expected, buffers, stype1::RESTART_FROM_RETRY, 0)
}

/// Status with link-request input-status.
pub fn link_request(expected: u8, buffers: u8) -> Symbol
    requires expected { expected < 32 }
    requires buffers { buffers < 32 }
    ensures { result ≡ symbols.link_request expected buffers }
{
    status_with(expected, buffers, stype1::LINK_REQUEST, cmd::INPUT_STATUS)
}

/// A symbol with this stype0 and its parameters, and NOP.
fn answer(s0: u8, p0: u8, p1: u8) -> Symbol
    requires s0 { s0 < 8 }
    requires p0 { p0 < 32 }
    requires p1 { p1 < 32 }
    ensures { result ≡ symbols.answer s0 p0 p1 }
{
    Symbol {
        s0,
        p0,
        p1,
        s1: stype1::NOP,
        cmd: 0,
    }
}

/// Status with this buffer status, stype1 and cmd.
fn status_with(expected: u8, buffers: u8, s1: u8, cmd: u8) -> Symbol
    requires expected { expected < 32 }
    requires buffers { buffers < 32 }
    requires s1 { s1 < 8 }
    requires cmd { cmd < 8 }
    ensures { result ≡ symbols.status_with expected buffers s1 cmd }
{
    Symbol {
        s0: stype0::STATUS,
        p0: expected,
        p1: buffers,
        s1,
        cmd,
    }
}
