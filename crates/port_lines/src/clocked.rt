//! A port by clocks.
ghost use Rattle.std.specs.Prelude.{◌≡◌, ◌≤◌, ◌<◌, ◌+◌, ◌++◌, length, drop, is_some, IfOk, OnOk, OnErr};
ghost use Rattle.std.specs.VecDeque.{deque_len, deque_capacity};
ghost use Rattle.link_port.specs.Steps.{takes};
ghost use Rattle.port_lines.specs.Taking.{held_if, gives_at_once};
ghost use Rattle.port_lines.specs.Clocks.{clocked_at, clocks_to, clock_gives, clock_fires, new_clocked, reply_chars, turned_if_none, first_or_idle, with_patience};

use crate::acting::{Came, take_char};
use crate::patience::{goes_unanswered, is_told_alike, lose_patience, out_told, time_out_if};
use crate::settings::PortSettings;
use crate::taking::give_next_if;
use link_port::Port;
use rio_chars::{Char, NoMemory};
use rio_framer::symbol_chars;
use rio_packets::Packet;
use rio_symbols::Symbol;
use std::alloc::Global;
use std::collections::VecDeque;
use std::marker::Model;

/// The idle that is given if nothing is sent: K28.5.
const IDLE: Char = Char::Special(0xbc);

/// The most characters that begin to wait in a clock: an answer of 4, and a burst of 284.
const MOST_BEGUN: usize = 288;

/// A port that takes a character and gives one in each clock.
#[derive(Drop)]
pub struct ClockedPort {
    pub port: Port,
    pub(crate) settings: PortSettings,
    pub(crate) clocking: Clocking,
}

/// What clocks leave to those that come.
#[derive(Drop)]
pub(crate) struct Clocking {
    /// The characters of what the port sends that are not given yet.
    pub(crate) waiting: VecDeque<Char>,
    /// How many clocks without an answer are left until the port has waited too long.
    pub(crate) patience_left: u32,
}

impl Model for ClockedPort {
    ghost use Rattle.std.specs.Prelude.{◌≤◌};
    ghost use Rattle.port_lines.specs.Clocks.{ClockedState, clocked_at};

    ghost Value = { ClockedState };

    ghost view = { λ clocked. clocked_at clocked.settings clocked.port
        clocked.clocking.waiting.items clocked.clocking.patience_left };

    ghost invariant = { λ clocked.
        (4 ≤ clocked.settings.buffers) × (clocked.settings.buffers ≤ 30) };
}

/// What a clock did.
#[derive(Debug, Drop)]
pub struct Clocked {
    /// Whether a packet was accepted.
    pub held: bool,
    /// The packet that was given out at once.
    pub taken: Option<Packet>,
    /// The character that is given.
    pub given: Char,
    /// Whether the time-out fired.
    pub fired: bool,
}

impl ClockedPort {
    /// A new port, which has 4 to 30 receive buffers.
    pub fn new(alloc: Global, settings: PortSettings) -> Result<ClockedPort, NoMemory>
        requires least { 4 ≤ settings.buffers }
        requires most { settings.buffers ≤ 30 }
        ensures { IfOk result (λ clocked. clocked ≡ new_clocked settings) }
    {
        Ok(ClockedPort {
            port: new_port(alloc, settings)?,
            settings,
            clocking: Clocking {
                waiting: VecDeque::new(alloc),
                patience_left: settings.patience,
            },
        })
    }

    /// Makes the port new, as it was made, and forgets what waits. If memory is not given, nothing
    /// is done.
    pub fn reset(&mut self, alloc: Global) -> Result<(), NoMemory>
        ensures new { OnOk result (self.new ≡ new_clocked self.old.settings) }
        ensures same { OnErr result (self.new ≡ self.old) }
    {
        self.port = new_port(alloc, self.settings)?;
        self.clocking.waiting.clear();
        self.clocking.patience_left = self.settings.patience;
        Ok(())
    }

    /// Says how many clocks without an answer are too long from here on, or none if it is 0.
    pub fn set_patience(&mut self, clocks: u32)
        ensures { self.new ≡ with_patience self.old clocks }
    {
        self.settings.patience = clocks;
        self.clocking.patience_left = clocks;
    }

    /// A clock: takes a character that came, and gives one. What the port sends is given one
    /// character a clock. It takes a turn if nothing waits to be given, and gives an idle if it has
    /// nothing to send. What the character did to packets stands in `came`. A packet that it had
    /// held is given out, and a time-out fires, as the settings say. If memory is not given,
    /// nothing is done.
    pub fn clock(&mut self, c: Char, came: &mut Came) -> Result<Clocked, NoMemory>
        ensures stands { OnOk result (self.new ≡ clocks_to self.old c) }
        ensures given { IfOk result (λ clocked. clocked.given ≡ clock_gives self.old c) }
        ensures held { IfOk result
            (λ clocked. held_if clocked.held came.new.packet ≡ (takes self.old.port c).held) }
        ensures accepted { IfOk result
            (λ clocked. clocked.held ≡ is_some (takes self.old.port c).held) }
        ensures taken { IfOk result (λ clocked. clocked.taken
            ≡ (gives_at_once self.old.settings.takes_at_once (takes self.old.port c)).packet) }
        ensures freed { OnOk result (came.new.freed.items ≡ (takes self.old.port c).freed) }
        ensures fired { IfOk result (λ clocked. clocked.fired ≡ clock_fires self.old c) }
        ensures same { OnErr result (self.new ≡ self.old) }
    {
        self.clocking.waiting.reserve(MOST_BEGUN)?;
        Ok(clock(&mut self.port, &mut self.clocking, self.settings, c, came))
    }
}

/// A new port of these settings.
fn new_port(alloc: Global, settings: PortSettings) -> Result<Port, NoMemory>
    requires least { 4 ≤ settings.buffers }
    requires most { settings.buffers ≤ 30 }
    ensures { IfOk result (λ port. port ≡ (new_clocked settings).port) }
{
    if settings.tells {
        Port::telling(alloc, settings.buffers)
    } else {
        Port::new(alloc, settings.buffers)
    }
}

/// A clock, for whose characters there is room.
pub(crate) fn clock(
    port: &mut Port,
    clocking: &mut Clocking,
    settings: PortSettings,
    c: Char,
    came: &mut Came,
) -> Clocked
    requires room { deque_len clocking.old.waiting + 288 ≤ deque_capacity clocking.old.waiting }
    ensures stands { clocked_at settings port.new clocking.new.waiting.items
        clocking.new.patience_left
        ≡ clocks_to (clocked_at settings port.old clocking.old.waiting.items
        clocking.old.patience_left) c }
    ensures given { result.given ≡ clock_gives (clocked_at settings port.old
        clocking.old.waiting.items clocking.old.patience_left) c }
    ensures held { held_if result.held came.new.packet ≡ (takes port.old c).held }
    ensures accepted { result.held ≡ is_some (takes port.old c).held }
    ensures taken { result.taken
        ≡ (gives_at_once settings.takes_at_once (takes port.old c)).packet }
    ensures freed { came.new.freed.items ≡ (takes port.old c).freed }
    ensures fired { result.fired ≡ clock_fires (clocked_at settings port.old
        clocking.old.waiting.items clocking.old.patience_left) c }
    ensures few { 284 < deque_len clocking.new.waiting
        → deque_len clocking.new.waiting ≤ deque_len clocking.old.waiting + 4 }
    ensures capacity { deque_capacity clocking.new.waiting
        ≡ deque_capacity clocking.old.waiting }
{
    let before = out_told(port);
    let done = take_char(port, c, came);
    let is_same = is_told_alike(before, out_told(port));
    let taken = give_next_if(settings.takes_at_once && done.held, port);
    let given = give(port, &mut clocking.waiting, &done.reply);
    let unanswered = goes_unanswered(is_same, port, &clocking.waiting);
    let fired = lose_patience(&mut clocking.patience_left, settings.patience, unanswered);
    time_out_if(fired, port);
    Clocked {
        held: done.held,
        taken,
        given,
        fired,
    }
}

/// Gives a character: the reply waits behind what waits, and a turn is taken if nothing does.
fn give(port: &mut Port, waiting: &mut VecDeque<Char>, reply: &Option<Symbol>) -> Char
    requires room { deque_len waiting.old + 288 ≤ deque_capacity waiting.old }
    ensures port { port.new
        ≡ (turned_if_none port.old (waiting.old.items ++ reply_chars reply.now)).port }
    ensures waiting { waiting.new.items ≡ drop 1
        (turned_if_none port.old (waiting.old.items ++ reply_chars reply.now)).waiting }
    ensures given { result ≡ first_or_idle
        (turned_if_none port.old (waiting.old.items ++ reply_chars reply.now)).waiting }
    ensures few { 284 < deque_len waiting.new → deque_len waiting.new ≤ deque_len waiting.old + 4 }
    ensures capacity { deque_capacity waiting.new ≡ deque_capacity waiting.old }
{
    put_reply(waiting, reply);
    turn_if_none(port, waiting);
    first_of(waiting)
}

/// Puts an answer behind what waits, if there is one.
fn put_reply(waiting: &mut VecDeque<Char>, reply: &Option<Symbol>)
    requires { deque_len waiting.old + 4 ≤ deque_capacity waiting.old }
    ensures items { waiting.new.items ≡ waiting.old.items ++ reply_chars reply.now }
    ensures few { deque_len waiting.new ≤ deque_len waiting.old + 4 }
    ensures capacity { deque_capacity waiting.new ≡ deque_capacity waiting.old }
{
    if let Some(symbol) = reply {
        put_chars(waiting, symbol_chars(symbol).as_slice());
    }
}

/// Takes a turn if nothing waits.
fn turn_if_none(port: &mut Port, waiting: &mut VecDeque<Char>)
    requires { deque_len waiting.old + 284 ≤ deque_capacity waiting.old }
    ensures port { port.new ≡ (turned_if_none port.old waiting.old.items).port }
    ensures waiting { waiting.new.items ≡ (turned_if_none port.old waiting.old.items).waiting }
    ensures few { 284 < deque_len waiting.new → deque_len waiting.new ≤ deque_len waiting.old }
    ensures capacity { deque_capacity waiting.new ≡ deque_capacity waiting.old }
{
    if waiting.is_empty() {
        let burst = port.turn();
        put_chars(waiting, burst.chars.as_slice());
    }
}

/// Puts characters behind those that wait.
fn put_chars(waiting: &mut VecDeque<Char>, chars: &[Char])
    requires { deque_len waiting.old + length chars.now ≤ deque_capacity waiting.old }
    ensures items { waiting.new.items ≡ waiting.old.items ++ chars.now }
    ensures len { deque_len waiting.new ≡ deque_len waiting.old + length chars.now }
    ensures capacity { deque_capacity waiting.new ≡ deque_capacity waiting.old }
{
    for c in chars {
        waiting.push_back_reserved(*c);
    }
}

/// Takes the first character that waits, or an idle.
fn first_of(waiting: &mut VecDeque<Char>) -> Char
    ensures value { result ≡ first_or_idle waiting.old.items }
    ensures items { waiting.new.items ≡ drop 1 waiting.old.items }
    ensures few { deque_len waiting.new ≤ deque_len waiting.old }
    ensures capacity { deque_capacity waiting.new ≡ deque_capacity waiting.old }
{
    match waiting.pop_front() {
        Some(c) => c,
        None => IDLE,
    }
}
