//! Asks of a register by numbers, of an open fabric.
ghost use Rattle.std.specs.Prelude.{◌≡◌, ◌==◌, [], false, MatchOption, MatchResult};
ghost use Rattle.live_fabric.specs.Sessions.{SessionHeld, SessionHolds};
ghost use Rattle.library_calls.specs.FabricsSeen.{FabricHolds};
ghost use Rattle.library_calls.specs.FabricAsks.{AskFieldsFit, AskFits, line_of_ask, words_of_ask, AskHasNoWords, said_numbers, outcome_numbers, outcome_status, spends_fabric, FabricAsksBy, FabricAskDid, TellsFabricAsk};

use crate::open_fabric::OpenFabric;
use crate::status::CallStatus;
use crate::told::{RegisterAsk, RegisterReply};
use fabric_script::{Line, line_text, read_name};
use live_fabric::{AskOutcome, BrokenOff, RegisterSaid, Session};
use rio_chars::{Outbox, Sink, TextBuffer};
use std::alloc::Global;

/// Nothing came of it.
pub(crate) const NO_REPLY: RegisterReply = RegisterReply { kind: 0, value: 0 };

impl OpenFabric {
    /// Does what a line `ask` of this host does, and tells what came of it. If the host has no name
    /// or a field is out of range, nothing is done.
    pub fn ask(
        &mut self,
        alloc: Global,
        host: &[u8],
        ask: &RegisterAsk,
        told: &mut RegisterReply,
    ) -> CallStatus
        requires { FabricHolds self.old }
        ensures holds { FabricHolds self.new }
        ensures did { FabricAskDid host.now ask.now told.new self.old result self.new }
    {
        *told = NO_REPLY;
        let words = match ask_words(alloc, host, ask) {
            Ok(words) => words,
            Err(status) => return status,
        };
        match self.ask_by(alloc, words.as_slice()) {
            Ok(outcome) => {
                *told = outcome_numbers(outcome);
                outcome_status(outcome)
            }
            Err(status) => status,
        }
    }

    /// Does what the line `ask` with these words does, and answers what came of it.
    fn ask_by(&mut self, alloc: Global, words: &[u8]) -> Result<AskOutcome, CallStatus>
        requires { FabricHolds self.old }
        ensures holds { FabricHolds self.new }
        ensures did { FabricAsksBy words.now self.old result self.new }
    {
        if self.spent || self.number == u32::MAX {
            return Err(CallStatus::Spent);
        }
        self.number += 1;
        self.sink.clear();
        self.taken = 0;
        self.spent = true;
        let asked = tell_ask(
            alloc,
            &mut self.session,
            self.number,
            words,
            &mut self.buffer,
            &mut self.sink,
        );
        match asked {
            Ok(outcome) => {
                self.spent = spends_fabric(outcome);
                Ok(outcome)
            }
            Err(BrokenOff) => Err(CallStatus::Cut),
        }
    }
}

/// Answers the line `ask` with these words, and tells the answer.
fn tell_ask<K: Sink>(
    alloc: Global,
    session: &mut Session,
    number: u32,
    words: &[u8],
    buffer: &mut TextBuffer,
    sink: &mut K,
) -> Result<AskOutcome, BrokenOff>
    requires { (held : SessionHeld) × SessionHolds session.old held }
    ensures { (held : SessionHeld) → SessionHolds session.old held
        → TellsFabricAsk held number words.now result session.new (K.written sink.old)
        (K.written sink.new) }
{
    let mut outbox = Outbox::new(buffer, sink);
    let told = ask_whole(alloc, session, number, words, &mut outbox);
    outbox.into_sink();
    told
}

/// The same through an outbox.
fn ask_whole<K: Sink>(
    alloc: Global,
    session: &mut Session,
    number: u32,
    words: &[u8],
    outbox: &mut Outbox<K>,
) -> Result<AskOutcome, BrokenOff>
    requires holds { (held : SessionHeld) × SessionHolds session.old held }
    requires empty { outbox.old.waiting ≡ [] }
    ensures told { (held : SessionHeld) → SessionHolds session.old held
        → TellsFabricAsk held number words.now result session.new outbox.old.written
        outbox.new.written }
    ensures same { outbox.new.sink ≡ outbox.old.sink }
{
    let asked = session.ask(alloc, number, words, outbox);
    outbox.flush();
    if outbox.failed() {
        return Err(BrokenOff);
    }
    asked
}

/// The words of the line `ask` that asks this.
fn ask_words(alloc: Global, host: &[u8], ask: &RegisterAsk) -> Result<Vec<u8>, CallStatus>
    ensures { MatchResult result
        (λ words. AskFits host.now ask.now × (words.items ≡ words_of_ask host.now ask.now))
        (AskHasNoWords host.now ask.now) }
{
    let Some(line) = line_of(ask) else {
        return Err(CallStatus::Argument);
    };
    let Some(name) = read_name(host) else {
        return Err(CallStatus::Argument);
    };
    let names = [name];
    match line_text(alloc, names.as_slice(), &line) {
        Ok(words) => Ok(words),
        Err(_) => Err(CallStatus::NoMemory),
    }
}

/// The event that is asked for, where the host is the first node, if each field has its width.
fn line_of(ask: &RegisterAsk) -> Option<Line>
    ensures { MatchOption result (¬ AskFieldsFit ask.now)
        (λ line. AskFieldsFit ask.now × (line ≡ line_of_ask ask.now)) }
{
    let large = ask.large != 0;
    if ask.prio >= 4 || ask.offset >= 0x0100_0000 || (!large && ask.dest >= 256) {
        return None;
    }
    Some(if large {
        wide_line(ask)
    } else {
        narrow_line(ask, ask.dest as u8)
    })
}

/// The event with an ID of 8 bits.
fn narrow_line(ask: &RegisterAsk, dest: u8) -> Line
    requires small { ask.now.large ≡ 0 }
    requires is { dest ≡ ask.now.dest }
    ensures { result ≡ line_of_ask ask.now }
{
    if ask.write == 0 {
        return Line::Read {
            node: 0,
            prio: ask.prio,
            dest,
            hop: ask.hop,
            tid: ask.tid,
            offset: ask.offset,
        };
    }
    Line::Write {
        node: 0,
        prio: ask.prio,
        dest,
        hop: ask.hop,
        tid: ask.tid,
        offset: ask.offset,
        value: ask.value,
    }
}

/// The event with an ID of 16 bits.
fn wide_line(ask: &RegisterAsk) -> Line
    requires { (ask.now.large == 0) ≡ false }
    ensures { result ≡ line_of_ask ask.now }
{
    if ask.write == 0 {
        return Line::Read16 {
            node: 0,
            prio: ask.prio,
            dest: ask.dest,
            hop: ask.hop,
            tid: ask.tid,
            offset: ask.offset,
        };
    }
    Line::Write16 {
        node: 0,
        prio: ask.prio,
        dest: ask.dest,
        hop: ask.hop,
        tid: ask.tid,
        offset: ask.offset,
        value: ask.value,
    }
}

/// What came of an ask, in numbers.
pub(crate) fn outcome_numbers(outcome: AskOutcome) -> RegisterReply
    ensures { result ≡ outcome_numbers outcome }
{
    match outcome {
        AskOutcome::Said(said) => said_numbers(said),
        AskOutcome::Refused(reason) => RegisterReply {
            kind: 5,
            value: u32::from(reason),
        },
        AskOutcome::Undetected => NO_REPLY,
    }
}

/// What is said of a register, in numbers.
fn said_numbers(said: RegisterSaid) -> RegisterReply
    ensures { result ≡ said_numbers said }
{
    let (kind, value) = match said {
        RegisterSaid::Value(value) => (1, value),
        RegisterSaid::Written => (2, 0),
        RegisterSaid::Failed(status) => (3, u32::from(status)),
        RegisterSaid::Unanswered => (4, 0),
    };
    RegisterReply { kind, value }
}

/// Whether the fabric is spent by an ask.
fn spends_fabric(outcome: AskOutcome) -> bool
    ensures { result ≡ spends_fabric outcome }
{
    match outcome {
        AskOutcome::Undetected => true,
        AskOutcome::Said(_) | AskOutcome::Refused(_) => false,
    }
}

/// The status of an ask.
fn outcome_status(outcome: AskOutcome) -> CallStatus
    ensures { result ≡ outcome_status outcome }
{
    match outcome {
        AskOutcome::Undetected => CallStatus::Undetected,
        AskOutcome::Said(_) | AskOutcome::Refused(_) => CallStatus::Done,
    }
}
