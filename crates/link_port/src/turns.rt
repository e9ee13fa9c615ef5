//! The turns of a port.
ghost use Rattle.std.specs.Prelude.{◌≡◌, ◌<◌, slice_get, option_copied};
ghost use Rattle.link_model.specs.Prelude.{place_start, place_after, said};
ghost use Rattle.link_buffers.specs.Queues.{list_at};
ghost use Rattle.link_port.specs.Bursts.{sending_burst, IsSending, IsStanding};
ghost use Rattle.link_port.specs.Ports.{IsPort};
ghost use Rattle.link_port.specs.Turns.{turns_to, turn_sends, tell_sends, standing};

use crate::bursts::Burst;
use crate::output_half::{Output, Sends};
use crate::port::Port;
use crate::sending::{Sending, Standing, send_from};
use link_receiver::buffer_status;
use link_sender::OutFailed;
use rio_packets::Packet;
use std::mem;

impl Port {
    /// Sends at most one packet or one symbol, as [`Port::turn`], and makes no character of it. A
    /// packet that is sent stays among those to be sent, and [`Port::queued_at`] lends it.
    pub fn start_turn(&mut self) -> Sending
        ensures state { self.new ≡ turns_to self.old }
        ensures sends { sending_burst result self.new.queued ≡ turn_sends self.old }
        ensures range { IsSending result }
        ensures port { IsPort self.new }
    {
        self.bounds();
        // The half is moved out and led on; the placeholder is never read.
        let output = mem::replace(&mut self.output, Output::Failed(OutFailed));
        let (output, sends) = output.turn(&self.queued, self.tells);
        self.output = output;
        self.bounds();
        send_from(sends, self.standing())
    }

    /// Sends at most one packet or one symbol: a packet where the sender may start one,
    /// restart-from-retry after a retry, and a link-request after an error, once until a response
    /// or a time-out. A port that tells its free buffers sends status, where the sender may start
    /// packets and starts none. Read by themselves the characters say what is sent, and leave
    /// nothing in progress.
    pub fn turn(&mut self) -> Burst
        ensures state { self.new ≡ turns_to self.old }
        ensures chars { result.chars.items ≡ (turn_sends self.old).chars }
        ensures sent { result.sent.items ≡ (turn_sends self.old).sent }
        ensures read { said place_start result.chars.items ≡ result.sent.items }
        ensures rests { place_after place_start result.chars.items ≡ place_start }
        ensures port { IsPort self.new }
    {
        self.bounds();
        let sending = self.start_turn();
        self.burst(sending)
    }

    /// Sends status with NOP, as [`Port::tell`], and makes no character of it.
    pub fn told(&self) -> Sending
        ensures sends { sending_burst result self.now.queued ≡ tell_sends self.now }
        ensures range { IsSending result }
        ensures port { IsPort self.now }
    {
        self.bounds();
        if !self.tells {
            return Sending::Nothing;
        }
        send_from(Sends::Status, self.standing())
    }

    /// Sends status with NOP, from a port that tells its free buffers, in every state. Any other
    /// port sends nothing. No state changes.
    pub fn tell(&self) -> Burst
        ensures chars { result.chars.items ≡ (tell_sends self.now).chars }
        ensures sent { result.sent.items ≡ (tell_sends self.now).sent }
        ensures read { said place_start result.chars.items ≡ result.sent.items }
        ensures rests { place_after place_start result.chars.items ≡ place_start }
        ensures port { IsPort self.now }
    {
        self.bounds();
        self.burst(self.told())
    }

    /// Lends the packet at a place of the packets to be sent of a priority, counted from 0. `None`
    /// exactly if there is none.
    pub fn queued_at(&self, prio: u8, place: u8) -> Option<&Packet>
        requires { prio < 4 }
        ensures { option_copied result ≡ slice_get (list_at self.now.queued prio) place }
    {
        self.queued.at(prio, place)
    }

    /// What each symbol of a turn tells of the port.
    fn standing(&self) -> Standing
        ensures value { result ≡ standing self.now }
        ensures range { IsStanding result }
    {
        Standing {
            expected: self.input.expected(),
            buffers: buffer_status(self.tells, &self.received),
        }
    }
}
