//! Packets of an open port, and its state.
ghost use Rattle.std.specs.Prelude.{◌≡◌};
ghost use Rattle.library_calls.specs.Packets.{PacketSends, PacketCollects};
ghost use Rattle.library_calls.specs.States.{TellsState, in_number as in_number_of};

use crate::open_port::OpenPort;
use crate::rooms::put_bytes;
use crate::status::CallStatus;
use crate::told::{PacketHeader, StateTold};
use crate::words::{PACKET, header_of};
use link_port::{InKind, PortFace};
use port_lines::{highest_held, out_number};
use rio_packets::build;

impl OpenPort {
    /// Puts the packet of these fields, and these bytes behind them, to those to be sent. Nothing
    /// is done if a field is out of range or the length is, or if there is no room.
    pub fn send(&mut self, header: &PacketHeader, rest: &[u8]) -> CallStatus
        ensures { PacketSends header.now rest.now self.old result self.new }
    {
        let Some(header) = header_of(header) else {
            return CallStatus::Argument;
        };
        let Ok(packet) = build(&header, rest) else {
            return CallStatus::Argument;
        };
        if !self.clocked.port.out_room(packet.prio()) {
            return CallStatus::Full;
        }
        self.clocked.port.out_put(packet);
        CallStatus::Done
    }

    /// Takes the first held packet of the highest priority, writes it into a room of at least 276
    /// bytes, and tells its length. If there is too little room nothing is done.
    pub fn collect(&mut self, room: &mut [u8], count: &mut usize) -> CallStatus
        ensures { PacketCollects room.old room.new count.new self.old result self.new }
    {
        *count = 0;
        if room.len() < PACKET {
            return CallStatus::Argument;
        }
        let Some(prio) = highest_held(&self.clocked.port) else {
            return CallStatus::Empty;
        };
        let Some(packet) = self.clocked.port.in_pop(prio) else {
            unreachable!();
        };
        *count = put_bytes(packet.bytes(), room);
        CallStatus::Done
    }

    /// Tells the state.
    pub fn state(&self, told: &mut StateTold)
        ensures { TellsState self.now.port told.new }
    {
        told.output = u32::from(out_number(self.clocked.port.out_kind()));
        told.input = in_number(self.clocked.port.in_kind());
        told.outstanding = u32::from(self.clocked.port.outstanding());
        told.waiting = u32::from(self.clocked.port.waiting());
    }
}

/// The number of a state of the input half.
fn in_number(kind: InKind) -> u32
    ensures { result ≡ in_number_of kind }
{
    match kind {
        InKind::Ok => 0,
        InKind::RetryStopped => 1,
        InKind::ErrorStopped => 2,
    }
}
