//! Characters of an open port.
ghost use Rattle.std.specs.Prelude.{◌≡◌, ◌≤◌, length};
ghost use Rattle.link_port.specs.Bursts.{sending_burst, IsSending};
ghost use Rattle.library_calls.specs.Wires.{char_wires};
ghost use Rattle.library_calls.specs.Rooms.{laid_over};
ghost use Rattle.port_lines.specs.Taking.{held_if};
ghost use Rattle.library_calls.specs.Chars.{CharTakes, RunTakes, TurnTakes, PortTimesOut, held_length as length_of_held};

use crate::open_port::OpenPort;
use crate::runs::{put_reply, take_run};
use crate::status::CallStatus;
use crate::told::{CharDid, RunDid};
use crate::wires::{put_wires, wire_char};
use link_port::{Port, Sending};
use port_lines::take_char;
use rio_framer::{packet_chars, symbol_chars};
use rio_packets::Packet;

/// The most characters of a run.
const RUN: usize = 65_536;

/// The most characters of an answer.
const ANSWER: usize = 4;

/// The most characters of a turn.
const TURN: usize = 284;

impl OpenPort {
    /// Takes a character, and tells what it did.
    pub fn take(&mut self, number: u16, did: &mut CharDid)
        ensures { CharTakes number did.new self.old self.new }
    {
        let done = take_char(&mut self.clocked.port, wire_char(number), &mut self.came);
        did.held = held_length(done.held, &self.came.packet);
        did.freed = self.came.freed.len() as u32;
        did.chars = [0; ANSWER];
        did.sent = put_reply(&done.reply, &mut did.chars, 0) as u32;
    }

    /// Takes a run of at most 65,536 characters, and writes the answers into a room that has four
    /// places for each. If there are more, or there is too little room, nothing is done.
    pub fn got(&mut self, numbers: &[u16], room: &mut [u16], did: &mut RunDid) -> CallStatus
        ensures { RunTakes numbers.now room.old room.new did.new self.old result self.new }
    {
        *did = RunDid {
            held: 0,
            freed: 0,
            sent: 0,
        };
        if numbers.len() > RUN || room.len() < ANSWER * numbers.len() {
            return CallStatus::Argument;
        }
        *did = take_run(&mut self.clocked.port, numbers, room, &mut self.came);
        CallStatus::Done
    }

    /// Takes a turn, writes what is sent into a room of at least 284 places, and tells how many
    /// characters it is. If there is too little room nothing is done.
    pub fn turn(&mut self, room: &mut [u16], count: &mut usize) -> CallStatus
        ensures { TurnTakes room.old room.new count.new self.old result self.new }
    {
        *count = 0;
        if room.len() < TURN {
            return CallStatus::Argument;
        }
        let sending = self.clocked.port.start_turn();
        *count = put_sending(&self.clocked.port, sending, room);
        CallStatus::Done
    }

    /// The time-out comes.
    pub fn time_out(&mut self)
        ensures { PortTimesOut self.old self.new }
    {
        self.clocked.port.time_out();
    }
}

/// The length of a packet that was accepted, or 0.
fn held_length(held: bool, packet: &Packet) -> u32
    ensures { result ≡ length_of_held (held_if held packet.now) }
{
    if held { packet.bytes().len() as u32 } else { 0 }
}

/// Writes the characters of what a port sends into a room, and answers how many they are.
fn put_sending(port: &Port, sending: Sending, room: &mut [u16]) -> usize
    requires range { IsSending sending }
    requires room { 284 ≤ length room.old }
    ensures count { result ≡ length (sending_burst sending port.now.queued).chars }
    ensures room { room.new
        ≡ laid_over (char_wires (sending_burst sending port.now.queued).chars) room.old }
{
    match sending {
        Sending::Nothing => 0,
        Sending::Symbol(symbol) => put_wires(symbol_chars(&symbol).as_slice(), room),
        Sending::Packet {
            start,
            ack,
            prio,
            place,
            end,
        } => match port.queued_at(prio, place) {
            Some(packet) => { put_wires(packet_chars(&start, ack, packet, &end).as_slice(), room) }
            None => 0,
        },
    }
}
