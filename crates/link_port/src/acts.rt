//! Events in a port.
ghost use Rattle.std.specs.Prelude.{◌≡◌, ◌++◌, [], false, IfSome, is_some};
ghost use Rattle.rio_framer.specs.Giving.{listed, IsPaired};
ghost use Rattle.link_port.specs.Steps.{acts, acts_all, acts_symbol, acts_packet, acts_bad, is_acted, first_acted, after_hearing, acknowledged, obeyed};
ghost use Rattle.link_port.specs.Acts.{acts_first, acts_second, held_of, held_by_event, is_first_acted};
ghost use Rattle.link_port.specs.Ports.{IsPort};
ghost use Rattle.link_port.specs.States.{expects};
ghost use Rattle.link_model.specs.declared.event.Event.TheVariants.{Pkt};
ghost use Rattle.link_buffers.specs.Priorities.{packets_of};

use crate::input_half::{Arrived, Input};
use crate::output_half::Output;
use crate::port::Port;
use crate::taken::Taken;
use arrayvec::ArrayVec;
use link_model::Event;
use link_receiver::InOk;
use link_sender::OutFailed;
use rio_packets::{Cause, Packet};
use rio_symbols::Symbol;
use std::mem;

/// What an event did.
#[derive(Clone, Copy, Debug, PartialEq, Eq)]
pub struct Done {
    /// The symbol to send.
    pub reply: Option<Symbol>,
    /// Whether the packet of the event was accepted.
    pub held: bool,
}

impl Done {
    /// No packet was accepted.
    fn replying(reply: Option<Symbol>) -> Done
        ensures reply { result.reply ≡ reply }
        ensures held { result.held ≡ false }
    {
        Done { reply, held: false }
    }
}

impl Port {
    /// Leads an event through the step tables: a symbol through the output half first and then the
    /// input half, a packet and what is neither through the input half alone. Packets that a symbol
    /// acknowledges are put into `freed`.
    pub fn act(&mut self, event: &Event, freed: &mut ArrayVec<Packet, 31>) -> Done
        requires empty { freed.old.items ≡ [] }
        ensures state { self.new ≡ (acts self.old event.now).port }
        ensures held { held_of event.now result.held ≡ (acts self.old event.now).held }
        ensures accepted { result.held ≡ is_some (acts self.old event.now).held }
        ensures reply { result.reply ≡ (acts self.old event.now).reply }
        ensures freed { freed.new.items ≡ (acts self.old event.now).freed }
        ensures port { IsPort self.new }
    {
        let done = match event {
            Event::Ctl(symbol) => Done::replying(self.act_symbol(*symbol, freed)),
            Event::Pkt(ack, packet) => self.act_packet(*ack, packet),
            Event::Bad(cause) => Done::replying(self.act_bad(*cause)),
        };
        self.bounds();
        done
    }

    /// Returns whether an event is a symbol, or a packet that is taken or has no room.
    pub fn is_acted(&self, event: &Event) -> bool
        ensures value { result ≡ is_acted self.now event.now }
        ensures port { IsPort self.now }
    {
        self.bounds();
        match event {
            Event::Ctl(_) => true,
            Event::Pkt(ack, _) => self.input.expects(*ack),
            Event::Bad(_) => false,
        }
    }

    /// Returns whether a packet with this ackID is taken or has no room.
    pub fn expects(&self, ack: u8) -> bool
        ensures value { result ≡ expects self.now.input ack }
        ensures port { IsPort self.now }
    {
        self.bounds();
        self.input.expects(ack)
    }

    /// The events of one character.
    pub(crate) fn act_on(
        &mut self,
        first: Option<Event>,
        second: Option<Symbol>,
        freed: &mut ArrayVec<Packet, 31>,
    ) -> Taken
        requires empty { freed.old.items ≡ [] }
        requires paired { IsPaired first second }
        ensures state { self.new ≡ (acts_all self.old (listed first second)).port }
        ensures first { result.first ≡ first }
        ensures second { result.second ≡ second }
        ensures first_acted { result.first_acted ≡ first_acted self.old (listed first second) }
        ensures held { result.held ≡ (acts_all self.old (listed first second)).held }
        ensures reply { result.reply ≡ (acts_all self.old (listed first second)).reply }
        ensures freed { freed.new.items ≡ (acts_all self.old (listed first second)).freed }
    {
        let first_acted = self.is_first_acted(&first);
        let Done { reply, held } = self.act_first(&first, freed);
        let answer = self.act_second(&second, freed);
        let held = held_packet(&first, held);
        Taken {
            first,
            first_acted,
            second,
            held,
            reply: reply.or(answer),
        }
    }

    /// Returns whether the first event is a symbol, or a packet that is taken or has no room.
    fn is_first_acted(&self, first: &Option<Event>) -> bool
        ensures { result ≡ is_first_acted self.now first.now }
    {
        match first {
            Some(event) => self.is_acted(event),
            None => false,
        }
    }

    /// The first event of a character.
    fn act_first(&mut self, first: &Option<Event>, freed: &mut ArrayVec<Packet, 31>) -> Done
        requires empty { freed.old.items ≡ [] }
        ensures state { self.new ≡ (acts_first self.old first.now).port }
        ensures held { held_by_event first.now result.held ≡ (acts_first self.old first.now).held }
        ensures reply { result.reply ≡ (acts_first self.old first.now).reply }
        ensures freed { freed.new.items ≡ (acts_first self.old first.now).freed }
    {
        match first {
            Some(event) => self.act(event, freed),
            None => Done::replying(None),
        }
    }

    /// The symbol that ended the packet of the first event.
    fn act_second(
        &mut self,
        second: &Option<Symbol>,
        freed: &mut ArrayVec<Packet, 31>,
    ) -> Option<Symbol>
        requires empty { IfSome second.now (λ _. freed.old.items ≡ []) }
        ensures state { self.new ≡ (acts_second self.old second.now).port }
        ensures reply { result ≡ (acts_second self.old second.now).reply }
        ensures freed { freed.new.items
            ≡ freed.old.items ++ (acts_second self.old second.now).freed }
    {
        match second {
            Some(symbol) => self.act_symbol(*symbol, freed),
            None => None,
        }
    }

    /// A symbol: the output half before the input half.
    pub fn act_symbol(&mut self, symbol: Symbol, freed: &mut ArrayVec<Packet, 31>) -> Option<Symbol>
        requires empty { freed.old.items ≡ [] }
        ensures state { self.new ≡ (acts_symbol self.old symbol).port }
        ensures reply { result ≡ (acts_symbol self.old symbol).reply }
        ensures freed { freed.new.items ≡ (acts_symbol self.old symbol).freed }
    {
        self.hear(symbol, freed);
        self.obey(symbol)
    }

    /// A symbol in the output half.
    fn hear(&mut self, symbol: Symbol, freed: &mut ArrayVec<Packet, 31>)
        requires empty { freed.old.items ≡ [] }
        ensures state { self.new ≡ after_hearing self.old symbol }
        ensures freed { freed.new.items
            ≡ packets_of (acknowledged self.old symbol) self.old.queued }
    {
        // The half is moved out and led on; the placeholder is never read.
        let output = mem::replace(&mut self.output, Output::Failed(OutFailed));
        let told = output.hear_report(symbol);
        self.output = told.hear(symbol.s0, symbol.p0, &mut self.queued, freed);
    }

    /// A symbol in the input half.
    fn obey(&mut self, symbol: Symbol) -> Option<Symbol>
        ensures state { self.new ≡ record self.old { input = (obeyed self.old symbol).state } }
        ensures reply { result ≡ (obeyed self.old symbol).reply }
    {
        // The half is moved out and led on; the placeholder is never read.
        let input = mem::replace(&mut self.input, Input::Ok(InOk::new()));
        let (next, reply) = input.obey(symbol.s1, symbol.cmd);
        self.input = next;
        reply
    }

    /// A good packet with this ackID.
    pub fn act_packet(&mut self, ack: u8, packet: &Packet) -> Done
        ensures state { self.new ≡ (acts_packet self.old ack packet.now).port }
        ensures held { held_of (Pkt ack packet.now) result.held
            ≡ (acts_packet self.old ack packet.now).held }
        ensures accepted { result.held ≡ is_some (acts_packet self.old ack packet.now).held }
        ensures reply { result.reply ≡ (acts_packet self.old ack packet.now).reply }
    {
        // The half is moved out and led on; the placeholder is never read.
        let input = mem::replace(&mut self.input, Input::Ok(InOk::new()));
        let Arrived { input, reply, held } = input.packet(
            ack,
            packet,
            &mut self.received,
            self.tells,
        );
        self.input = input;
        Done { reply, held }
    }

    /// What came is no packet or symbol.
    pub fn act_bad(&mut self, cause: Cause) -> Option<Symbol>
        ensures state { self.new ≡ (acts_bad self.old cause).port }
        ensures reply { result ≡ (acts_bad self.old cause).reply }
    {
        // The half is moved out and led on; the placeholder is never read.
        let input = mem::replace(&mut self.input, Input::Ok(InOk::new()));
        let (next, reply) = input.bad(cause);
        self.input = next;
        reply
    }
}

/// A copy of the packet of the first event, where it was accepted.
fn held_packet(first: &Option<Event>, held: bool) -> Option<Packet>
    ensures { result ≡ held_by_event first.now held }
{
    match first {
        Some(Event::Pkt(_, packet)) if held => Some(packet.copy()),
        _ => None,
    }
}
