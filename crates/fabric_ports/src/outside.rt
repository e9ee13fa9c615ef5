//! What a port without a link does with a device outside the fabric.
ghost use Rattle.std.specs.Prelude.{◌≡◌, ◌≤◌, ◌<◌, ◌++◌, ◌+◌, ◌*◌, [], List, length, map, option_to_list, IsTrue, IsFalse, IfOk, OnOk, OnErr};
ghost use Rattle.std.specs.Vec.{vec_len, vec_capacity};
ghost use Rattle.link_port.specs.Ports.{IsPort};
ghost use Rattle.link_port.specs.Steps.{takes};
ghost use Rattle.link_port.specs.Streams.{takes_each};
ghost use Rattle.link_port.specs.Turns.{turns_to, turn_sends};
ghost use Rattle.link_wires.specs.Deliveries.{moves_of};
ghost use Rattle.link_wires.specs.Wires.{answers};
ghost use Rattle.link_wires.specs.declared.moves.Move.TheVariants.{Held, Freed};
ghost use Rattle.trace_lines.specs.Lines.{TraceLine};
ghost use Rattle.trace_lines.specs.Writing.{Adds};
ghost use Rattle.fabric_trace.specs.Known.{Seen};
ghost use Rattle.fabric_ports.specs.Outside.{PortIsFree, OutsideTook, OutsideTurned, OutsideTimedOut, OutsideJoined, move_told, got_told, sent_told, moves_made, turns_told};
ghost use Rattle.fabric_ports.specs.Standing.{Stands};

use crate::fabric::Fabric;
use crate::plans::tell_link;
use arrayvec::ArrayVec;
use fabric_script::PortRef;
use link_port::Port;
use rio_chars::{Char, NoMemory, Sink};
use rio_framer::symbol_chars;
use rio_packets::Packet;
use rio_symbols::Symbol;
use std::alloc::Global;
use trace_lines::TraceWriter;

impl Fabric {
    /// A port without a link takes characters that come from outside, and answers them. What it
    /// got is written, then what it held and freed, in order, and then all that it answers, as one
    /// line. If memory is not given, nothing is done.
    pub fn outside_takes<K: Sink>(
        &mut self,
        alloc: Global,
        port: PortRef,
        chars: &[Char],
        writer: &mut TraceWriter<K>,
    ) -> Result<(), NoMemory>
        requires free { PortIsFree self.old port }
        requires named { length self.old.devices.items ≤ length writer.old.names.now }
        ensures took { OnOk result ((from : Seen) (lines : List TraceLine)
            → Stands from lines self.old
            → OutsideTook port chars.now from lines self.new writer.old writer.new) }
        ensures same { OnErr result (self.new ≡ self.old) }
        ensures untold { OnErr result (writer.new ≡ writer.old) }
    {
        let mut replies = room_for_replies(alloc, chars.len())?;
        let place = self.place(port);
        self.idle.wake_switch(port.node);
        let end = &mut self.ports[place];
        write_got(writer, port, chars);
        take_chars(end, port, chars, &mut replies, writer);
        show_port(end);
        write_sent(writer, port, replies.as_slice());
        Ok(())
    }

    /// A port without a link takes turns, so many at most. What each sends is written. One that
    /// sends nothing is the last.
    pub fn outside_turns<K: Sink>(&mut self, port: PortRef, count: u32, writer: &mut TraceWriter<K>)
        requires free { PortIsFree self.old port }
        requires named { length self.old.devices.items ≤ length writer.old.names.now }
        ensures { (from : Seen) (lines : List TraceLine) → Stands from lines self.old
            → OutsideTurned port count from lines self.new writer.old writer.new }
    {
        let place = self.place(port);
        self.idle.wake_switch(port.node);
        let end = &mut self.ports[place];
        take_turns(end, port, count, writer);
        show_port(end);
    }

    /// The time-out of a port without a link fires.
    pub fn outside_times_out<K: Sink>(&mut self, port: PortRef, writer: &mut TraceWriter<K>)
        requires free { PortIsFree self.old port }
        requires named { length self.old.devices.items ≤ length writer.old.names.now }
        ensures { (from : Seen) (lines : List TraceLine) → Stands from lines self.old
            → OutsideTimedOut port from lines self.new writer.old writer.new }
    {
        let place = self.place(port);
        self.idle.wake_switch(port.node);
        self.ports[place].time_out();
        writer.write_fire(port);
    }

    /// The device of a port without a link shows from now on that the port has one: it leads to a
    /// device outside.
    pub fn outside_joins(&mut self, port: PortRef)
        requires free { PortIsFree self.old port }
        ensures { (from : Seen) (lines : List TraceLine) → Stands from lines self.old
            → OutsideJoined port from lines self.new }
    {
        tell_link(&mut self.devices[usize::from(port.node)], port.port);
    }
}

/// Room for what so many characters are answered: each has at most one symbol of four.
fn room_for_replies(alloc: Global, count: usize) -> Result<Vec<Char>, NoMemory>
    ensures empty { IfOk result (λ replies. replies.items ≡ []) }
    ensures none { IfOk result (λ replies. vec_len replies ≡ 0) }
    ensures room { IfOk result (λ replies. 4 * count ≤ vec_capacity replies) }
{
    let Some(room) = count.checked_mul(4) else {
        return Err(NoMemory);
    };
    Ok(Vec::with_capacity(alloc, room)?)
}

/// Takes characters, one after another, writes what the port held and freed, and adds the
/// characters of its answers to the replies, which have room for them.
fn take_chars<K: Sink>(
    end: &mut Port,
    port: PortRef,
    chars: &[Char],
    replies: &mut Vec<Char>,
    writer: &mut TraceWriter<K>,
)
    requires named { port.node < length writer.old.names.now }
    requires room { vec_len replies.old + 4 * length chars.now ≤ vec_capacity replies.old }
    ensures state { end.new ≡ (takes_each end.old chars.now).port }
    ensures replies { replies.new.items
        ≡ replies.old.items ++ (answers (takes_each end.old chars.now).replies).chars }
    ensures told { Adds writer.old writer.new
        (map (move_told port) (moves_made end.old chars.now)) }
{
    let mut freed = ArrayVec::new();
    let mut left = chars;
    while let [first, rest @ ..] = left {
        let reply = take_char(end, port, *first, &mut freed, writer);
        put_reply(replies, reply);
        left = rest;
    }
}

/// Takes a character, writes what the port held and freed, and returns what it answers.
fn take_char<K: Sink>(
    end: &mut Port,
    port: PortRef,
    c: Char,
    freed: &mut ArrayVec<Packet, 31>,
    writer: &mut TraceWriter<K>,
) -> Option<Symbol>
    requires named { port.node < length writer.old.names.now }
    ensures state { end.new ≡ (takes end.old c).port }
    ensures reply { result ≡ (takes end.old c).reply }
    ensures told { Adds writer.old writer.new (map (move_told port) (moves_of (takes end.old c))) }
{
    freed.clear();
    let taken = end.take(c, freed);
    write_held(writer, port, &taken.held);
    write_freed(writer, port, freed.as_slice());
    taken.reply
}

/// Writes what a port held, if it held a packet.
fn write_held<K: Sink>(writer: &mut TraceWriter<K>, port: PortRef, held: &Option<Packet>)
    requires named { port.node < length writer.old.names.now }
    ensures { Adds writer.old writer.new
        (map (move_told port) (map (λ packet. Held packet) (option_to_list held.now))) }
{
    if let Some(packet) = held {
        writer.write_hold(port, packet);
    }
}

/// Writes what a port freed.
fn write_freed<K: Sink>(writer: &mut TraceWriter<K>, port: PortRef, freed: &[Packet])
    requires named { port.node < length writer.old.names.now }
    ensures { Adds writer.old writer.new
        (map (move_told port) (map (λ packet. Freed packet) freed.now)) }
{
    for packet in freed {
        writer.write_free(port, packet);
    }
}

/// Adds the characters of an answer, for which there is room.
fn put_reply(replies: &mut Vec<Char>, reply: Option<Symbol>)
    requires { vec_len replies.old + 4 ≤ vec_capacity replies.old }
    ensures items { replies.new.items
        ≡ replies.old.items ++ (answers (option_to_list reply)).chars }
    ensures few { vec_len replies.new ≤ vec_len replies.old + 4 }
    ensures capacity { vec_capacity replies.new ≡ vec_capacity replies.old }
{
    if let Some(symbol) = reply {
        put_chars(replies, symbol_chars(&symbol).as_slice());
    }
}

/// Adds characters, for which there is room.
fn put_chars(replies: &mut Vec<Char>, chars: &[Char])
    requires { vec_len replies.old + length chars.now ≤ vec_capacity replies.old }
    ensures items { replies.new.items ≡ replies.old.items ++ chars.now }
    ensures len { vec_len replies.new ≡ vec_len replies.old + length chars.now }
    ensures capacity { vec_capacity replies.new ≡ vec_capacity replies.old }
{
    for c in chars {
        replies.push_reserved(*c);
    }
}

/// Takes turns, one after another, up to one that sends nothing.
fn take_turns<K: Sink>(end: &mut Port, port: PortRef, count: u32, writer: &mut TraceWriter<K>)
    requires named { port.node < length writer.old.names.now }
    ensures state { end.new ≡ (turns_told port end.old count).port }
    ensures told { Adds writer.old writer.new (turns_told port end.old count).lines }
{
    let mut left = count;
    while left > 0 {
        if !take_turn(end, port, writer) {
            return;
        }
        left -= 1;
    }
}

/// Takes a turn, writes what is sent, if anything is, and returns whether something is.
fn take_turn<K: Sink>(end: &mut Port, port: PortRef, writer: &mut TraceWriter<K>) -> bool
    requires named { port.node < length writer.old.names.now }
    ensures state { end.new ≡ turns_to end.old }
    ensures told { Adds writer.old writer.new (sent_told port (turn_sends end.old).chars) }
    ensures some { IsTrue result → 0 < length (turn_sends end.old).chars }
    ensures none { IsFalse result → length (turn_sends end.old).chars ≤ 0 }
{
    let burst = end.turn();
    write_sent(writer, port, burst.chars.as_slice());
    !burst.chars.is_empty()
}

/// Writes what a port got, if there is anything.
fn write_got<K: Sink>(writer: &mut TraceWriter<K>, port: PortRef, chars: &[Char])
    requires named { port.node < length writer.old.names.now }
    ensures { Adds writer.old writer.new (got_told port chars.now) }
{
    if !chars.is_empty() {
        writer.write_got(port, chars);
    }
}

/// Writes what a port sent, if there is anything.
fn write_sent<K: Sink>(writer: &mut TraceWriter<K>, port: PortRef, chars: &[Char])
    requires named { port.node < length writer.old.names.now }
    ensures { Adds writer.old writer.new (sent_told port chars.now) }
{
    if !chars.is_empty() {
        writer.write_sent(port, chars);
    }
}

/// Says of a port what is true of every one.
fn show_port(port: &Port)
    ensures { IsPort port.now }
{
    let _ = port.tells();
}
