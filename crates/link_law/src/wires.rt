//! `WirePair`: the two wires of a link.
ghost use Rattle.std.specs.Prelude.{◌≡◌, ◌≤◌, ◌&&◌, None, true, length, take, IfOk, OnOk};
ghost use Rattle.link_port.specs.Ports.{PortState};
ghost use Rattle.link_port.specs.Turns.{tell_sends};
ghost use Rattle.link_machine.specs.Prelude.{other_side, has_none, has_chars, pumped, told_from, first_takes, delivery_from, is_silent, timed_out_at, link, at_end, from_end};
ghost use Rattle.link_machine.specs.States.{empty_wires};
ghost use Rattle.link_wires.specs.Wires.{with_sent, bursts, answers as answered_by};
ghost use Rattle.link_wires.specs.Deliveries.{delivered, told_of, IsLeft};
ghost use Rattle.link_law.specs.Carried.{AreOfDelivery};

use crate::port_states::{has_no_turn, near};
use link_port::Port;
use link_watch::Side;
use link_wires::{Delivery, UndetectedEvent, Wire};
use rio_chars::{Char, NoMemory};
use std::alloc::Global;
use std::marker::Model;

/// The two wires of a link, each named by the port that sends on it.
#[derive(Drop)]
pub(crate) struct WirePair {
    pub(crate) a: Wire,
    pub(crate) b: Wire,
}

impl Model for WirePair {
    ghost use Rattle.link_machine.specs.States.{Wires};

    ghost Value = { Wires };

    ghost view = { λ wires. record { a = wires.a; b = wires.b } };
}

impl WirePair {
    /// Wires with nothing on them. They take no memory yet.
    pub(crate) fn new(alloc: Global) -> WirePair
        ensures { result ≡ empty_wires }
    {
        WirePair {
            a: Wire::new(alloc),
            b: Wire::new(alloc),
        }
    }

    /// Whether nothing stands on either wire.
    pub(crate) fn are_silent(&self) -> bool
        ensures { result ≡ (has_none self.now.a.chars && has_none self.now.b.chars) }
    {
        self.a.length() == 0 && self.b.length() == 0
    }

    /// Has a port take turns. What it sends goes on its wire, and into `sent`.
    pub(crate) fn turn(
        &mut self,
        from: Side,
        turns: u32,
        a: &mut Port,
        b: &mut Port,
        sent: &mut Vec<Char>,
    ) -> Result<(), NoMemory>
        ensures link { OnOk result (link self.new a.new b.new
            ≡ pumped from turns (link self.old a.old b.old)) }
        ensures sent { OnOk result (sent.new.items
            ≡ (bursts turns (from_end from (link self.old a.old b.old)).a).chars) }
    {
        // Most ports have nothing to send: they take no turn.
        if has_no_turn(near(from, a, b)) {
            sent.clear();
            return Ok(());
        }
        match from {
            Side::A => self.a.pump(turns, a, sent),
            Side::B => self.b.pump(turns, b, sent),
        }
    }

    /// Puts the status of a port that tells its free buffers on its wire, and into `sent`: no
    /// characters for another port.
    pub(crate) fn tell(
        &mut self,
        from: Side,
        a: &Port,
        b: &Port,
        sent: &mut Vec<Char>,
    ) -> Result<(), NoMemory>
        ensures link { OnOk result (link self.new a.now b.now
            ≡ told_from from (link self.old a.now b.now)) }
        ensures sent { OnOk result (sent.new.items
            ≡ (tell_sends (from_end from (link self.old a.now b.now)).a).chars) }
    {
        match from {
            Side::A => self.a.tell(a, sent),
            Side::B => self.b.tell(b, sent),
        }
    }

    /// Returns whether so many characters stand on a wire.
    pub(crate) fn has(&self, from: Side, count: usize) -> bool
        ensures { (a b : PortState) → result ≡ has_chars from count (link self.now a b) }
    {
        match from {
            Side::A => count <= self.a.length(),
            Side::B => count <= self.b.length(),
        }
    }

    /// The port at the other end takes the characters. Its answers go on its wire, and into
    /// `answers`.
    pub(crate) fn carry(
        &mut self,
        alloc: Global,
        from: Side,
        count: usize,
        a: &mut Port,
        b: &mut Port,
        came: &mut Delivery,
        answers: &mut Vec<Char>,
    ) -> Result<Option<UndetectedEvent>, NoMemory>
        requires { has_chars from count (link self.old a.old b.old) ≡ true }
        ensures told { IfOk result (λ undetected. AreOfDelivery
            (delivery_from from count (link self.old a.old b.old))
            (take count (from_end from (link self.old a.old b.old)).wire_a.chars)
            came.new.got.items came.new.moves.items answers.new.items undetected) }
        ensures link { IfOk result (λ undetected. undetected ≡ None
            → link self.new a.new b.new ≡ at_end (other_side from) (first_takes count)
            (link self.old a.old b.old)) }
    {
        match from {
            Side::A => carry(alloc, count, &mut self.a, &mut self.b, b, came, answers),
            Side::B => carry(alloc, count, &mut self.b, &mut self.a, a, came, answers),
        }
    }

    /// Fires the time-out of a port, and forgets what was sent both ways, unless a wire is not
    /// empty. Returns whether it did.
    pub(crate) fn time_out(&mut self, side: Side, a: &mut Port, b: &mut Port) -> bool
        ensures early { result ≡ is_silent (link self.old a.old b.old) }
        ensures link { link self.new a.new b.new ≡ timed_out_at side (link self.old a.old b.old) }
    {
        if !self.are_silent() {
            return false;
        }
        self.a.silence();
        self.b.silence();
        match side {
            Side::A => a.time_out(),
            Side::B => b.time_out(),
        }
        true
    }
}

/// A port takes characters of the far port's wire, and its answers go on its own.
fn carry(
    alloc: Global,
    count: usize,
    wire: &mut Wire,
    back: &mut Wire,
    port: &mut Port,
    came: &mut Delivery,
    answers: &mut Vec<Char>,
) -> Result<Option<UndetectedEvent>, NoMemory>
    requires { count ≤ length wire.old.chars }
    ensures told { IfOk result (λ undetected. AreOfDelivery
        (delivered port.old wire.old.kept (take count wire.old.chars)) (take count wire.old.chars)
        came.new.got.items came.new.moves.items answers.new.items undetected) }
    ensures left { OnOk result (IsLeft (delivered port.old wire.old.kept
        (take count wire.old.chars)) count wire.old port.new wire.new) }
    ensures back { OnOk result (back.new ≡ with_sent back.old
        (answered_by (told_of (delivered port.old wire.old.kept
        (take count wire.old.chars))).replies)) }
{
    let undetected = wire.deliver(alloc, count, port, came)?;
    back.reply(came.replies.as_slice(), answers)?;
    Ok(undetected)
}
