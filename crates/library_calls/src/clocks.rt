//! Clocks of an open port.
ghost use Rattle.std.specs.Prelude.{◌≡◌, ◌≤◌, ◌<◌, ◌+◌, IsTrue, IsFalse, length};
ghost use Rattle.port_lines.specs.Clocks.{clocks_to};
ghost use Rattle.library_calls.specs.Wires.{wire_char as wire_char_of};
ghost use Rattle.library_calls.specs.ClocksSeen.{AddsClock, ClocksDo, ClocksTaken, PatienceSet, no_clocks_told};

use crate::open_port::OpenPort;
use crate::status::CallStatus;
use crate::told::ClocksTold;
use crate::wires::{put_wires, wire_char};
use port_lines::{Came, ClockedPort};

/// The most characters of a run.
const RUN: usize = 65_536;

impl OpenPort {
    /// A clock for each of at most 65,536 characters. What is given in them is written into a room
    /// that has a place for each. If there are more, or there is too little room, nothing is done.
    /// If memory is not given, the clocks before are done, and it is told how many they are.
    pub fn clock(&mut self, numbers: &[u16], room: &mut [u16], told: &mut ClocksTold) -> CallStatus
        ensures { ClocksDo numbers.now room.old room.new told.new self.old result self.new }
    {
        *told = ClocksTold {
            clocks: 0,
            held: 0,
            freed: 0,
            fired: 0,
        };
        if numbers.len() > RUN || room.len() < numbers.len() {
            return CallStatus::Argument;
        }
        if !take_clocks(&mut self.clocked, numbers, room, &mut self.came, told) {
            return CallStatus::NoMemory;
        }
        CallStatus::Done
    }

    /// So many clocks without an answer are too long from here on, or none if it is 0.
    pub fn set_patience(&mut self, clocks: u32)
        ensures { PatienceSet clocks self.old self.new }
    {
        self.clocked.set_patience(clocks);
    }
}

/// A clock for each character, and answers whether memory was given for all.
fn take_clocks(
    clocked: &mut ClockedPort,
    numbers: &[u16],
    room: &mut [u16],
    came: &mut Came,
    told: &mut ClocksTold,
) -> bool
    requires few { length numbers.now ≤ 65536 }
    requires room { length numbers.now ≤ length room.old }
    requires none { told.old ≡ no_clocks_told }
    ensures taken { ClocksTaken numbers.now room.old room.new told.new clocked.old clocked.new }
    ensures all { IsTrue result → told.new.clocks ≡ length numbers.now }
    ensures less { IsFalse result → told.new.clocks < length numbers.now }
{
    let mut left = numbers;
    while let [first, rest @ ..] = left {
        if !take_clock(clocked, *first, room, came, told) {
            return false;
        }
        left = rest;
    }
    true
}

/// A clock, whose character is written behind those before it, and answers whether memory was
/// given: if it was not, nothing is done.
fn take_clock(
    clocked: &mut ClockedPort,
    number: u16,
    room: &mut [u16],
    came: &mut Came,
    told: &mut ClocksTold,
) -> bool
    requires place { told.old.clocks + 1 ≤ length room.old }
    requires clocks { told.old.clocks + 1 ≤ 65536 }
    requires held { told.old.held + 1 ≤ 65536 }
    requires freed { told.old.freed + 31 ≤ 2031616 }
    requires fired { told.old.fired + 1 ≤ 65536 }
    ensures adds { IsTrue result → AddsClock clocked.old (wire_char_of number) told.old told.new
        room.old room.new }
    ensures stands { IsTrue result
        → clocked.new ≡ clocks_to clocked.old (wire_char_of number) }
    ensures same { IsFalse result → clocked.new ≡ clocked.old }
    ensures untold { IsFalse result → told.new ≡ told.old }
    ensures unwritten { IsFalse result → room.new ≡ room.old }
{
    let Ok(did) = clocked.clock(wire_char(number), came) else {
        return false;
    };
    put_wires(&[did.given], &mut room[told.clocks as usize..]);
    told.clocks += 1;
    told.held += u32::from(did.held);
    told.freed += came.freed.len() as u32;
    told.fired += u32::from(did.fired);
    true
}
