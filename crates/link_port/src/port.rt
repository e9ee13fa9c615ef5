//! `Port`: the end of a link.
ghost use Rattle.std.specs.Prelude.{◌≡◌, ◌<◌, ◌≤◌, ◌↔◌, [], true, false, length, slice_get, IsTrue, IfOk};
ghost use Rattle.link_model.specs.Prelude.{prio_of, at_rest as rests, window};
ghost use Rattle.link_buffers.specs.Queues.{list_at, appended, popped, packet_count};
ghost use Rattle.link_port.specs.States.{prios_of, has_asked};
ghost use Rattle.link_port.specs.Halves.{out_kind_of, in_kind_of};
ghost use Rattle.link_port.specs.Ports.{AreAlike, IsPort, new_port};
ghost use Rattle.link_port.specs.Steps.{read, takes, first_acted};
ghost use Rattle.link_port.specs.Runs.{front_of, after_front, takes_run, completed_events, slot_after};
ghost use Rattle.link_port.specs.Turns.{is_ready, timed_out, waiting_in};
ghost use Rattle.rio_framer.specs.Giving.{listed, IsPaired};

use crate::completed::{Completed, complete};
use crate::face::PortFace;
use crate::input_half::Input;
use crate::kinds::{InKind, OutKind};
use crate::output_half::Output;
use crate::taken::Taken;
use arrayvec::ArrayVec;
use link_buffers::{InStore, OutStore};
use link_receiver::InOk;
use link_sender::{OutFailed, OutOk};
use rio_chars::{Char, NoMemory};
use rio_framer::{Events, Framer};
use rio_packets::Packet;
use std::alloc::Global;
use std::marker::Model;
use std::mem;

/// The end of a link: a framer, the output and the input half, the packets to be sent, and those
/// received.
#[derive(Drop)]
pub struct Port {
    pub(crate) framer: Framer,
    pub(crate) output: Output,
    pub(crate) input: Input,
    pub(crate) queued: OutStore,
    pub(crate) received: InStore,
    pub(crate) tells: bool,
}

impl Model for Port {
    ghost use Rattle.link_buffers.specs.Priorities.{Covers};
    ghost use Rattle.link_model.specs.Places.{IsBounded};
    ghost use Rattle.link_port.specs.States.{prios_of};
    ghost use Rattle.link_port.specs.Halves.{output_of, input_of};
    ghost use Rattle.link_port.specs.Ports.{PortState};

    ghost Value = { PortState };

    ghost view = { λ port. record {
      place = port.framer.place;
      output = output_of port.output;
      input = input_of port.input;
      queued = port.queued;
      received = port.received;
      tells = port.tells;
    } };

    ghost invariant = { λ port. Covers (prios_of (output_of port.output)) port.queued
        × IsBounded port.framer.place.text };
}

impl Port {
    /// Makes a port of 4 to 30 receive buffers, with no packet, which begins with ackID 0 both
    /// ways. It does not tell its free buffers. `NoMemory` is the only other answer; no other call
    /// of a port takes memory, but [`Port::telling`].
    pub fn new(alloc: Global, buffers: u8) -> Result<Port, NoMemory>
        requires least { 4 ≤ buffers }
        requires most { buffers ≤ 30 }
        ensures empty { IfOk result (λ port. port ≡ new_port false buffers) }
        ensures port { IfOk result (λ port. IsPort port) }
    {
        Port::make(alloc, buffers, false)
    }

    /// Makes a port as [`Port::new`], which tells its free buffers (transmitter-controlled flow
    /// control, RapidIO Interconnect Specification 1.3, Part 6).
    pub fn telling(alloc: Global, buffers: u8) -> Result<Port, NoMemory>
        requires least { 4 ≤ buffers }
        requires most { buffers ≤ 30 }
        ensures empty { IfOk result (λ port. port ≡ new_port true buffers) }
        ensures port { IfOk result (λ port. IsPort port) }
    {
        Port::make(alloc, buffers, true)
    }

    /// Makes a port that `tells` its free buffers or does not.
    fn make(alloc: Global, buffers: u8, tells: bool) -> Result<Port, NoMemory>
        requires least { 4 ≤ buffers }
        requires most { buffers ≤ 30 }
        ensures empty { IfOk result (λ port. port ≡ new_port tells buffers) }
        ensures port { IfOk result (λ port. IsPort port) }
    {
        let port = Port {
            framer: Framer::new(),
            output: Output::Ok(OutOk::new()),
            input: Input::Ok(InOk::new()),
            queued: OutStore::new(alloc)?,
            received: InStore::new(alloc, buffers)?,
            tells,
        };
        port.bounds();
        Ok(port)
    }

    /// Takes a character that came, and leads what it completes through the step tables of
    /// `link_model`: a symbol through the output half first and then the input half, a packet and
    /// what is neither through the input half alone. Packets that a symbol acknowledges are put
    /// into `freed`.
    pub fn take(&mut self, c: Char, freed: &mut ArrayVec<Packet, 31>) -> Taken
        requires empty { freed.old.items ≡ [] }
        ensures state { self.new ≡ (takes self.old c).port }
        ensures events { listed result.first result.second ≡ read self.old c }
        ensures paired { IsPaired result.first result.second }
        ensures first_acted { result.first_acted ≡ first_acted self.old (read self.old c) }
        ensures held { result.held ≡ (takes self.old c).held }
        ensures reply { result.reply ≡ (takes self.old c).reply }
        ensures freed { freed.new.items ≡ (takes self.old c).freed }
        ensures port { IsPort self.new }
    {
        let Events { first, second } = self.framer.feed(c);
        let taken = self.act_on(first, second, freed);
        self.bounds();
        taken
    }

    /// Takes characters, 1 to 4,096, up to and with the first that completes an event, or all where
    /// none does, and answers their number and what they did: as [`Port::take`] of each in order.
    pub fn take_run(&mut self, chars: &[Char], freed: &mut ArrayVec<Packet, 31>) -> (u16, Taken)
        requires least { 1 ≤ length chars.now }
        requires most { length chars.now ≤ 4096 }
        requires empty { freed.old.items ≡ [] }
        ensures count { result.0 ≡ (front_of self.old chars.now).count }
        ensures state { self.new ≡ (takes_run self.old chars.now).port }
        ensures events { listed result.1.first result.1.second
            ≡ (front_of self.old chars.now).step.gives }
        ensures paired { IsPaired result.1.first result.1.second }
        ensures first_acted { result.1.first_acted
            ≡ first_acted self.old (front_of self.old chars.now).step.gives }
        ensures held { result.1.held ≡ (takes_run self.old chars.now).held }
        ensures reply { result.1.reply ≡ (takes_run self.old chars.now).reply }
        ensures freed { freed.new.items ≡ (takes_run self.old chars.now).freed }
        ensures port { IsPort self.new }
    {
        let (count, Events { first, second }) = self.framer.feed_run(chars);
        let taken = self.act_on(first, second, freed);
        self.bounds();
        (count, taken)
    }

    /// Reads characters up to and with the first that completes an event, or all where none does,
    /// and answers their number and what they complete, of which nothing is done yet: [`Port::act`]
    /// and the like do it. A packet that was completed is put into the slot. Otherwise the slot
    /// stays as it was.
    pub fn read(&mut self, chars: &[Char], packet: &mut Packet) -> (usize, Completed)
        ensures count { result.0 ≡ (front_of self.old chars.now).count }
        ensures state { self.new ≡ after_front self.old chars.now }
        ensures events { completed_events result.1 packet.new
            ≡ (front_of self.old chars.now).step.gives }
        ensures slot { packet.new
            ≡ slot_after (front_of self.old chars.now).step.gives packet.old }
        ensures within { result.0 ≤ length chars.now }
        ensures some { 0 < length chars.now → 0 < result.0 }
        ensures port { IsPort self.new }
    {
        let (count, told) = self.framer.read_run(chars);
        let completed = complete(&self.framer, told, packet);
        self.bounds();
        (count, completed)
    }

    /// Returns whether the port tells its free buffers.
    pub fn tells(&self) -> bool
        ensures value { result ≡ self.now.tells }
        ensures port { IsPort self.now }
    {
        self.bounds();
        self.tells
    }

    /// Returns whether a turn would start a packet.
    pub fn ready(&self) -> bool
        ensures value { result ≡ is_ready self.now }
        ensures port { IsPort self.now }
    {
        self.bounds();
        self.output.ready(&self.queued)
    }

    /// A time-out: a sender that may start packets has to ask which packet the far port expects,
    /// also where nothing is outstanding, and one that has asked asks again. Any other state is
    /// unchanged.
    pub fn time_out(&mut self)
        ensures state { self.new ≡ timed_out self.old }
        ensures port { IsPort self.new }
    {
        // The half is moved out and led on; the placeholder is never read.
        let output = mem::replace(&mut self.output, Output::Failed(OutFailed));
        self.output = output.time_out();
        self.bounds();
    }

    /// Returns the state of the output half.
    pub fn out_kind(&self) -> OutKind
        ensures value { result ≡ out_kind_of self.now.output }
        ensures port { IsPort self.now }
    {
        self.bounds();
        self.output.kind()
    }

    /// Returns the state of the input half.
    pub fn in_kind(&self) -> InKind
        ensures value { result ≡ in_kind_of self.now.input }
        ensures port { IsPort self.now }
    {
        self.bounds();
        self.input.kind()
    }

    /// Returns whether neither a symbol nor a packet is coming in.
    pub fn at_rest(&self) -> bool
        ensures value { result ≡ rests self.now.place }
        ensures port { IsPort self.now }
    {
        self.bounds();
        self.framer.at_rest()
    }

    /// Returns whether a packet is to be sent that is not outstanding.
    pub fn waiting(&self) -> bool
        ensures exact { IsTrue result ↔ (0 < packet_count (waiting_in self.now)) }
        ensures port { IsPort self.now }
    {
        self.bounds();
        let queued = &self.queued;
        queued.len(0) + queued.len(1) + queued.len(2) + queued.len(3) > self.output.outstanding()
    }

    /// Returns the number of outstanding packets, at most `WINDOW`.
    pub fn outstanding(&self) -> u8
        ensures value { result ≡ length (prios_of self.now.output) }
        ensures most { result ≤ window }
        ensures port { IsPort self.now }
    {
        self.bounds();
        self.output.outstanding()
    }

    /// Returns whether a link-request was sent since the error or the last time-out.
    pub fn asked(&self) -> bool
        ensures value { result ≡ has_asked self.now.output }
        ensures port { IsPort self.now }
    {
        self.bounds();
        self.output.asked()
    }

    /// What is true of every port, so after any characters: it is in one of its states, at most
    /// `WINDOW` packets are outstanding, its framer holds at most 276 bytes, and it holds no more
    /// packets than it has buffers. The call does nothing.
    pub(crate) fn bounds(&self)
        ensures { IsPort self.now }
    {
        let _ = self.output.outstanding();
        let _ = self.input.expected();
        let _ = self.queued.len(0);
        let _ = self.received.free();
    }
}

impl PortFace for Port {
    ghost use Rattle.std.proofs.Common.{◌∙◌, refl};

    ghost received = { λ port. port.received.lists };

    ghost queued = { λ port. port.queued };

    ghost alike = { AreAlike };

    ghost alike_same = { λ port. (refl, refl, refl, refl, refl) };

    ghost alike_on = { λ port next last h k.
        (h.0 ∙ k.0, h.1 ∙ k.1, h.2 ∙ k.2, h.3 ∙ k.3, h.4 ∙ k.4) };

    fn in_head(&self, prio: u8) -> Option<&Packet> {
        self.bounds();
        self.received.head(prio)
    }

    fn in_pop(&mut self, prio: u8) -> Option<Packet>
        requires { prio < 4 }
        ensures value { result ≡ slice_get (list_at self.old.received.lists prio) 0 }
        ensures received { self.new.received.lists ≡ popped self.old.received.lists prio }
        ensures queued { self.new.queued ≡ self.old.queued }
        ensures alike { AreAlike self.old self.new }
        ensures port { IsPort self.new }
    {
        let packet = self.received.pop(prio);
        self.bounds();
        packet
    }

    fn out_room(&self, prio: u8) -> bool {
        self.queued.has_room(prio)
    }

    fn out_put(&mut self, packet: Packet)
        requires room { length (list_at self.old.queued (prio_of packet)) < 16 }
        ensures queued { self.new.queued ≡ appended self.old.queued (prio_of packet) packet }
        ensures received { self.new.received.lists ≡ self.old.received.lists }
        ensures alike { AreAlike self.old self.new }
        ensures port { IsPort self.new }
    {
        self.queued.put(packet);
        self.bounds();
    }
}
