//! A fabric that its host tells how to answer.
ghost use Rattle.std.specs.Prelude.{◌≡◌, Some, IfOk, OnOk, OnErr};
ghost use Rattle.live_fabric.specs.Asking.{ask_of};
ghost use Rattle.live_fabric.specs.Holding.{MayBeCarried};
ghost use Rattle.live_fabric.specs.Outside.{MayCarryOutside};
ghost use Rattle.live_fabric.specs.Sessions.{SessionHeld, nothing_held, SessionHolds, SessionAnswered, SessionBreaks, SessionTold, ServeTold, StandardTold, OutsideTold, OwnReadCame, OwnWriteCame, AreServed, AskTold, AskAnswered, AskFalls, RequestCarried, RequestBroke, held_after, IsScriptLine};

use crate::answers::{AfterLine, BrokenOff, read_line, refuse};
use crate::asking::{AskOutcome, after_ask, carry_ask, tell_reply};
use crate::asks::{Ask, others_than, read_ask};
use crate::carrying::{Telling, carry_line};
use crate::device_names::{collect_line, read_device, read_endpoint};
use crate::live::Live;
use crate::outside::outside_text;
use crate::own_lines::{OwnLine, are_all, ask_words, own_line, serve_words, standard_words};
use crate::quiet::quiet_lines;
use crate::served::Served;
use fabric_script::{EventEnd, Line};
use outside_lines::{OutsideLine, read_outside};
use refusal_words::{script_reason, write_refusal};
use rio_chars::{NoMemory, Outbox, Sink};
use std::alloc::Global;

/// A fabric, how its answers are told, and which endpoints are served.
#[derive(Drop)]
pub struct Session {
    live: Live,
    quiet: bool,
    served: Served,
}

impl Session {
    /// Before the first line: all is told, and no endpoint is served.
    pub fn new(alloc: Global) -> Result<Session, NoMemory>
        ensures { IfOk result (λ session. SessionHolds session nothing_held) }
    {
        Ok(Session {
            live: Live::new(alloc)?,
            quiet: false,
            served: Served::new(alloc),
        })
    }

    /// Reads the line of this number, does what it asks for, and writes its answer, whose last line
    /// is `ok`. If the answer breaks off, a front of it was written.
    pub fn answer<K: Sink>(
        &mut self,
        alloc: Global,
        number: u32,
        line: &[u8],
        outbox: &mut Outbox<K>,
    ) -> Result<AfterLine, BrokenOff>
        requires { (held : SessionHeld) × SessionHolds self.old held }
        ensures answered { IfOk result (λ going. (held : SessionHeld) → SessionHolds self.old held
            → SessionAnswered held number line.now outbox.old outbox.new self.new going) }
        ensures breaks { OnErr result ((held : SessionHeld) → SessionHolds self.old held
            → SessionBreaks held number line.now outbox.old outbox.new) }
    {
        let going = self.tell(alloc, number, line, outbox)?;
        outbox.write(b"ok\n");
        Ok(going)
    }

    /// Carries out the request of a register that these words are, writes the answer of the line
    /// `ask` with them, and tells what came of it. If the answer breaks off, a front of it was
    /// written.
    pub fn ask<K: Sink>(
        &mut self,
        alloc: Global,
        number: u32,
        words: &[u8],
        outbox: &mut Outbox<K>,
    ) -> Result<AskOutcome, BrokenOff>
        requires { (held : SessionHeld) × SessionHolds self.old held }
        ensures answered { IfOk result (λ outcome. (held : SessionHeld) → SessionHolds self.old held
            → AskAnswered held number words.now outbox.old outbox.new self.new outcome) }
        ensures breaks { OnErr result ((held : SessionHeld) → SessionHolds self.old held
            → AskFalls held number words.now outbox.old outbox.new) }
    {
        let outcome = self.tell_ask(alloc, number, words, outbox)?;
        outbox.write(b"ok\n");
        Ok(outcome)
    }

    /// Reads a register of the endpoint of this name without a packet, and tells what came of it.
    /// The trace begins anew there.
    pub fn own_read(
        &mut self,
        alloc: Global,
        name: &[u8],
        offset: u32,
    ) -> Result<AskOutcome, NoMemory>
        requires { (held : SessionHeld) × SessionHolds self.old held }
        ensures { IfOk result (λ outcome. (held : SessionHeld) → SessionHolds self.old held
            → OwnReadCame held name.now offset self.new outcome) }
    {
        match read_endpoint(alloc, self.live.set_up(), name) {
            Ok(node) => {
                let said = self.live.own_read(alloc, node, offset)?;
                Ok(AskOutcome::Said(said))
            }
            Err(EventEnd::Refused(reason)) => Ok(AskOutcome::Refused(reason)),
            Err(EventEnd::NoMemory) => Err(NoMemory),
        }
    }

    /// Writes one.
    pub fn own_write(
        &mut self,
        alloc: Global,
        name: &[u8],
        offset: u32,
        value: u32,
    ) -> Result<AskOutcome, NoMemory>
        requires { (held : SessionHeld) × SessionHolds self.old held }
        ensures { IfOk result (λ outcome. (held : SessionHeld) → SessionHolds self.old held
            → OwnWriteCame held name.now offset value self.new outcome) }
    {
        match read_endpoint(alloc, self.live.set_up(), name) {
            Ok(node) => {
                let said = self.live.own_write(alloc, node, offset, value)?;
                Ok(AskOutcome::Said(said))
            }
            Err(EventEnd::Refused(reason)) => Ok(AskOutcome::Refused(reason)),
            Err(EventEnd::NoMemory) => Err(NoMemory),
        }
    }

    /// The answer of a line without the last one of it.
    fn tell<K: Sink>(
        &mut self,
        alloc: Global,
        number: u32,
        line: &[u8],
        outbox: &mut Outbox<K>,
    ) -> Result<AfterLine, BrokenOff>
        requires { (held : SessionHeld) × SessionHolds self.old held }
        ensures told { IfOk result (λ going. (held : SessionHeld) → SessionHolds self.old held
            → SessionTold held number line.now outbox.old outbox.new self.new going) }
        ensures breaks { OnErr result ((held : SessionHeld) → SessionHolds self.old held
            → SessionBreaks held number line.now outbox.old outbox.new) }
    {
        if let Some(own) = own_line(line) {
            self.obey(own);
            return Ok(AfterLine::On);
        }
        if let Some(words) = serve_words(line) {
            self.serve(alloc, words, outbox)?;
            return Ok(AfterLine::On);
        }
        if let Some(words) = ask_words(line) {
            let outcome = self.tell_ask(alloc, number, words, outbox)?;
            return Ok(after_ask(outcome));
        }
        if let Some(words) = standard_words(line) {
            self.standard(alloc, words, outbox)?;
            return Ok(AfterLine::On);
        }
        match read_outside(alloc, self.live.set_up(), self.live.facing(), line) {
            Ok(None) => self.tell_script(alloc, number, line, outbox),
            Ok(Some(outside)) => {
                self.tell_outside(alloc, &outside, outbox)?;
                Ok(AfterLine::On)
            }
            Err(EventEnd::Refused(reason)) => {
                write_refusal(outbox, reason, script_reason(reason));
                Ok(AfterLine::On)
            }
            Err(EventEnd::NoMemory) => Err(BrokenOff),
        }
    }

    /// Does what a line of its own says.
    fn obey(&mut self, own: OwnLine)
        ensures { (held : SessionHeld) → SessionHolds self.old held
            → SessionHolds self.new (held_after own held) }
    {
        match own {
            OwnLine::Quiet => self.quiet = true,
            OwnLine::Loud => self.quiet = false,
            OwnLine::ServeAll => self.served.all = true,
        }
    }

    /// Serves the node that these words name, or tells why they name none.
    fn serve<K: Sink>(
        &mut self,
        alloc: Global,
        words: &[u8],
        outbox: &mut Outbox<K>,
    ) -> Result<(), NoMemory>
        ensures told { OnOk result ((held : SessionHeld) → SessionHolds self.old held
            → ServeTold held words.now outbox.old outbox.new self.new) }
        ensures same { OnErr result (outbox.new ≡ outbox.old) }
    {
        let line = collect_line(alloc, words)?;
        match self.live.set_up().read_event(alloc, line.as_slice()) {
            Ok(event) => self.served.add(&event),
            Err(EventEnd::Refused(reason)) => refuse(alloc, line.as_slice(), reason, outbox),
            Err(EventEnd::NoMemory) => Err(NoMemory),
        }
    }

    /// Carries out the request of a register that these words are, and tells what came of it, or
    /// why they are none.
    fn tell_ask<K: Sink>(
        &mut self,
        alloc: Global,
        number: u32,
        words: &[u8],
        outbox: &mut Outbox<K>,
    ) -> Result<AskOutcome, BrokenOff>
        requires { (held : SessionHeld) × SessionHolds self.old held }
        ensures told { IfOk result (λ outcome. (held : SessionHeld) → SessionHolds self.old held
            → AskTold held number words.now outbox.old outbox.new self.new outcome) }
        ensures breaks { OnErr result ((held : SessionHeld) → SessionHolds self.old held
            → AskFalls held number words.now outbox.old outbox.new) }
    {
        match read_ask(alloc, self.live.set_up(), words) {
            Ok((event, ask)) => self.carry_request(alloc, number, &event, ask, outbox),
            Err(EventEnd::Refused(reason)) => {
                refuse(alloc, words, reason, outbox)?;
                Ok(AskOutcome::Refused(reason))
            }
            Err(EventEnd::NoMemory) => Err(BrokenOff),
        }
    }

    /// Carries out a request of a register, and tells what came of it.
    fn carry_request<K: Sink>(
        &mut self,
        alloc: Global,
        number: u32,
        event: &Line,
        ask: Ask,
        outbox: &mut Outbox<K>,
    ) -> Result<AskOutcome, BrokenOff>
        requires { (held : SessionHeld) × SessionHolds self.old held
            × MayBeCarried held.taken event.now × (ask_of event.now ≡ Some ask) }
        ensures told { IfOk result (λ outcome. (held : SessionHeld) → SessionHolds self.old held
            → MayBeCarried held.taken event.now → ask_of event.now ≡ Some ask
            → RequestCarried held number event.now ask outbox.old outbox.new self.new outcome) }
        ensures breaks { OnErr result ((held : SessionHeld) → SessionHolds self.old held
            → MayBeCarried held.taken event.now → ask_of event.now ≡ Some ask
            → RequestBroke held number event.now ask outbox.old outbox.new) }
    {
        let nodes = self.nodes_served(alloc)?;
        let others = others_than(alloc, ask.host, nodes.as_slice())?;
        let telling = Telling {
            quiet: self.quiet,
            number,
        };
        let nodes = others.as_slice();
        let reply = carry_ask(alloc, &mut self.live, telling, event, ask, nodes, outbox)?;
        Ok(tell_reply(outbox, ask.offset, reply))
    }

    /// The endpoints that are served, in the order of their lines.
    fn nodes_served(&self, alloc: Global) -> Result<Vec<u8>, NoMemory>
        ensures { IfOk result (λ nodes. (held : SessionHeld) → SessionHolds self.now held
            → AreServed held nodes.items) }
    {
        self.served.among(alloc, self.live.set_up().lines())
    }

    /// Has the devices that these words name show what standard hosts look for, or tells why they
    /// name none.
    fn standard<K: Sink>(
        &mut self,
        alloc: Global,
        words: &[u8],
        outbox: &mut Outbox<K>,
    ) -> Result<(), NoMemory>
        requires { (held : SessionHeld) × SessionHolds self.old held }
        ensures told { OnOk result ((held : SessionHeld) → SessionHolds self.old held
            → StandardTold held words.now outbox.old outbox.new self.new) }
        ensures same { OnErr result (outbox.new ≡ outbox.old) }
    {
        if are_all(words) {
            return self.live.show_all_standard(alloc);
        }
        match read_device(alloc, self.live.set_up(), words) {
            Ok(node) => self.live.show_standard(alloc, node),
            Err(EventEnd::Refused(reason)) => {
                let line = collect_line(alloc, words)?;
                refuse(alloc, line.as_slice(), reason, outbox)
            }
            Err(EventEnd::NoMemory) => Err(NoMemory),
        }
    }

    /// Does what a line of a device outside says, and tells it.
    fn tell_outside<K: Sink>(
        &mut self,
        alloc: Global,
        line: &OutsideLine,
        outbox: &mut Outbox<K>,
    ) -> Result<(), BrokenOff>
        requires { (held : SessionHeld) × SessionHolds self.old held
            × MayCarryOutside held.taken line.now }
        ensures told { OnOk result ((held : SessionHeld) → SessionHolds self.old held
            → MayCarryOutside held.taken line.now
            → OutsideTold held line.now outbox.old outbox.new self.new) }
        ensures same { OnErr result (outbox.new ≡ outbox.old) }
    {
        let text = outside_text(alloc, &mut self.live, line)?;
        if self.quiet {
            let quiet = quiet_lines(alloc, text.as_slice())?;
            outbox.write(quiet.as_slice());
        } else {
            outbox.write(text.as_slice());
        }
        Ok(())
    }

    /// Tells a line that is none of its own.
    fn tell_script<K: Sink>(
        &mut self,
        alloc: Global,
        number: u32,
        line: &[u8],
        outbox: &mut Outbox<K>,
    ) -> Result<AfterLine, BrokenOff>
        requires holds { (held : SessionHeld) × SessionHolds self.old held }
        requires other { (held : SessionHeld) → SessionHolds self.old held
            → IsScriptLine held line.now }
        ensures told { IfOk result (λ going. (held : SessionHeld) → SessionHolds self.old held
            → SessionTold held number line.now outbox.old outbox.new self.new going) }
        ensures breaks { OnErr result ((held : SessionHeld) → SessionHolds self.old held
            → SessionBreaks held number line.now outbox.old outbox.new) }
    {
        let Some(event) = read_line(alloc, &mut self.live, line, outbox)? else {
            return Ok(AfterLine::On);
        };
        let nodes = self.nodes_served(alloc)?;
        let telling = Telling {
            quiet: self.quiet,
            number,
        };
        carry_line(
            alloc,
            &mut self.live,
            telling,
            nodes.as_slice(),
            &event,
            outbox,
        )
    }
}
