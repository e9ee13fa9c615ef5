//! What C has a port do.
ghost use Rattle.std.specs.Prelude.{◌≡◌};
ghost use Rattle.library_calls.specs.PortsSeen.{PortTextTaken};
ghost use Rattle.library_calls.specs.PortLines.{PortLineDid};
ghost use Rattle.library_calls.specs.Chars.{CharTakes, RunTakes, TurnTakes, PortTimesOut};
ghost use Rattle.library_calls.specs.ClocksSeen.{ClocksDo, PatienceSet};
ghost use Rattle.library_calls.specs.Packets.{PacketSends, PacketCollects};
ghost use Rattle.library_calls.specs.States.{StateTells};
ghost use Rattle.kigvarp_c.specs.Handles.{IsPortHandle};
ghost use Rattle.kigvarp_c.specs.Calls.{Calls, Always};

use crate::port::{KigvarpPort, put_port, take_port};
use library_calls::{
    CallStatus, CharDid, ClocksTold, PacketHeader, RunDid, StateTold, call_number,
};
use std::alloc::Global;

/// Answers a line of `rio_port`.
#[unsafe(no_mangle)]
pub extern "C" fn kigvarp_port_line(alloc: Global, port: &mut KigvarpPort, line: &[u8]) -> u32
    requires { IsPortHandle port.old }
    ensures handle { IsPortHandle port.new }
    ensures does { Calls (Unit {0}) (PortLineDid line.now)
        port.old.handle.ports result port.new.handle.ports }
{
    let Some(mut opened) = take_port(alloc, port) else {
        return call_number(CallStatus::Closed);
    };
    let status = opened.line(alloc, line);
    put_port(port, opened);
    call_number(status)
}

/// Takes what was told and is not taken yet, as much of it as has room: `count` is how many bytes.
#[unsafe(no_mangle)]
pub extern "C" fn kigvarp_port_text(
    alloc: Global,
    port: &mut KigvarpPort,
    room: &mut [u8],
    count: &mut usize,
) -> u32
    requires { IsPortHandle port.old }
    ensures handle { IsPortHandle port.new }
    ensures does { Calls ((room.new ≡ room.old) × (count.new ≡ 0))
        (Always (PortTextTaken room.old room.new count.new))
        port.old.handle.ports result port.new.handle.ports }
{
    *count = 0;
    let Some(mut opened) = take_port(alloc, port) else {
        return call_number(CallStatus::Closed);
    };
    *count = opened.text(room);
    put_port(port, opened);
    call_number(CallStatus::Done)
}

/// Takes a character, and tells what it did.
#[unsafe(no_mangle)]
pub extern "C" fn kigvarp_port_take(
    alloc: Global,
    port: &mut KigvarpPort,
    number: u16,
    did: &mut CharDid,
) -> u32
    requires { IsPortHandle port.old }
    ensures handle { IsPortHandle port.new }
    ensures does { Calls (did.new ≡ did.old)
        (Always (CharTakes number did.new))
        port.old.handle.ports result port.new.handle.ports }
{
    let Some(mut opened) = take_port(alloc, port) else {
        return call_number(CallStatus::Closed);
    };
    opened.take(number, did);
    put_port(port, opened);
    call_number(CallStatus::Done)
}

/// Takes a run of characters. There is to be room for four characters of an answer to each.
#[unsafe(no_mangle)]
pub extern "C" fn kigvarp_port_got(
    alloc: Global,
    port: &mut KigvarpPort,
    numbers: &[u16],
    room: &mut [u16],
    did: &mut RunDid,
) -> u32
    requires { IsPortHandle port.old }
    ensures handle { IsPortHandle port.new }
    ensures does { Calls ((room.new ≡ room.old) × (did.new ≡ did.old))
        (RunTakes numbers.now room.old room.new did.new)
        port.old.handle.ports result port.new.handle.ports }
{
    let Some(mut opened) = take_port(alloc, port) else {
        return call_number(CallStatus::Closed);
    };
    let status = opened.got(numbers, room, did);
    put_port(port, opened);
    call_number(status)
}

/// A clock for each of a run of characters. There is to be room for as many, which are given.
#[unsafe(no_mangle)]
pub extern "C" fn kigvarp_port_clock(
    alloc: Global,
    port: &mut KigvarpPort,
    numbers: &[u16],
    room: &mut [u16],
    told: &mut ClocksTold,
) -> u32
    requires { IsPortHandle port.old }
    ensures handle { IsPortHandle port.new }
    ensures does { Calls ((room.new ≡ room.old) × (told.new ≡ told.old))
        (ClocksDo numbers.now room.old room.new told.new)
        port.old.handle.ports result port.new.handle.ports }
{
    let Some(mut opened) = take_port(alloc, port) else {
        return call_number(CallStatus::Closed);
    };
    let status = opened.clock(numbers, room, told);
    put_port(port, opened);
    call_number(status)
}

/// Says how many clocks without an answer are too long from here on, or none if it is 0.
#[unsafe(no_mangle)]
pub extern "C" fn kigvarp_port_patience(alloc: Global, port: &mut KigvarpPort, clocks: u32) -> u32
    requires { IsPortHandle port.old }
    ensures handle { IsPortHandle port.new }
    ensures does { Calls (Unit {0})
        (Always (PatienceSet clocks))
        port.old.handle.ports result port.new.handle.ports }
{
    let Some(mut opened) = take_port(alloc, port) else {
        return call_number(CallStatus::Closed);
    };
    opened.set_patience(clocks);
    put_port(port, opened);
    call_number(CallStatus::Done)
}

/// Takes a turn: `count` is how many characters are to be sent. There is to be room for 284.
#[unsafe(no_mangle)]
pub extern "C" fn kigvarp_port_turn(
    alloc: Global,
    port: &mut KigvarpPort,
    room: &mut [u16],
    count: &mut usize,
) -> u32
    requires { IsPortHandle port.old }
    ensures handle { IsPortHandle port.new }
    ensures does { Calls ((room.new ≡ room.old) × (count.new ≡ 0))
        (TurnTakes room.old room.new count.new)
        port.old.handle.ports result port.new.handle.ports }
{
    *count = 0;
    let Some(mut opened) = take_port(alloc, port) else {
        return call_number(CallStatus::Closed);
    };
    let status = opened.turn(room, count);
    put_port(port, opened);
    call_number(status)
}

/// The time-out comes.
#[unsafe(no_mangle)]
pub extern "C" fn kigvarp_port_time_out(alloc: Global, port: &mut KigvarpPort) -> u32
    requires { IsPortHandle port.old }
    ensures handle { IsPortHandle port.new }
    ensures does { Calls (Unit {0})
        (Always PortTimesOut)
        port.old.handle.ports result port.new.handle.ports }
{
    let Some(mut opened) = take_port(alloc, port) else {
        return call_number(CallStatus::Closed);
    };
    opened.time_out();
    put_port(port, opened);
    call_number(CallStatus::Done)
}

/// Puts a packet to those to be sent: its fields, and the bytes behind them.
#[unsafe(no_mangle)]
pub extern "C" fn kigvarp_port_send(
    alloc: Global,
    port: &mut KigvarpPort,
    header: &PacketHeader,
    rest: &[u8],
) -> u32
    requires { IsPortHandle port.old }
    ensures handle { IsPortHandle port.new }
    ensures does { Calls (Unit {0}) (PacketSends header.now rest.now)
        port.old.handle.ports result port.new.handle.ports }
{
    let Some(mut opened) = take_port(alloc, port) else {
        return call_number(CallStatus::Closed);
    };
    let status = opened.send(header, rest);
    put_port(port, opened);
    call_number(status)
}

/// Takes the next held packet: `count` is how many bytes it has. There is to be room for 276.
#[unsafe(no_mangle)]
pub extern "C" fn kigvarp_port_collect(
    alloc: Global,
    port: &mut KigvarpPort,
    room: &mut [u8],
    count: &mut usize,
) -> u32
    requires { IsPortHandle port.old }
    ensures handle { IsPortHandle port.new }
    ensures does { Calls ((room.new ≡ room.old) × (count.new ≡ 0))
        (PacketCollects room.old room.new count.new)
        port.old.handle.ports result port.new.handle.ports }
{
    *count = 0;
    let Some(mut opened) = take_port(alloc, port) else {
        return call_number(CallStatus::Closed);
    };
    let status = opened.collect(room, count);
    put_port(port, opened);
    call_number(status)
}

/// Tells the state of a port.
#[unsafe(no_mangle)]
pub extern "C" fn kigvarp_port_state(
    alloc: Global,
    port: &mut KigvarpPort,
    told: &mut StateTold,
) -> u32
    requires { IsPortHandle port.old }
    ensures handle { IsPortHandle port.new }
    ensures does { Calls (told.new ≡ told.old)
        (Always (StateTells told.new))
        port.old.handle.ports result port.new.handle.ports }
{
    let Some(opened) = take_port(alloc, port) else {
        return call_number(CallStatus::Closed);
    };
    opened.state(told);
    put_port(port, opened);
    call_number(CallStatus::Done)
}
