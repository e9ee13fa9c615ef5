//! A request and the rounds that bring its response.
ghost use Rattle.std.specs.Prelude.{◌≡◌, ◌∷◌, [], Some, None, IfOk, OnErr};
ghost use Rattle.rio_chars.specs.Written.{Writes};
ghost use Rattle.fabric_script.specs.declared.lines.Line.TheVariants.{Collect};
ghost use Rattle.live_fabric.specs.Lines.{Taken};
ghost use Rattle.live_fabric.specs.Holding.{LiveHolds, MayBeCarried};
ghost use Rattle.live_fabric.specs.Course.{EventsBreak};
ghost use Rattle.live_fabric.specs.Asking.{ask_of, ask_round, reply_of, most_ask_rounds, after_ask};
ghost use Rattle.live_fabric.specs.AskCourse.{MayCollectWith, as_reply, reply_said, reply_outcome, RoundDone, RoundsDone, RoundsBreak, AskDone, AskBreaks};

use crate::answers::{AfterLine, BrokenOff, Told};
use crate::asks::{Ask, RegisterSaid, put_said, register_said, reply_by};
use crate::carrying::{Telling, carry_out, carry_round};
use crate::live::Live;
use fabric_ports::Happened;
use fabric_script::Line;
use maint_packets::Response;
use rio_chars::{Outbox, Sink};
use std::alloc::Global;

/// The most rounds of an ask.
const MOST_ROUNDS: u32 = 128;

/// What came of an ask.
pub(crate) enum Reply {
    /// This response left at the host.
    Came(Response),
    /// No response has.
    Missing,
    /// A port acted on an event that was not sent.
    Undetected,
}

/// What came of an ask.
#[derive(Clone, Copy, Debug, PartialEq, Eq)]
pub enum AskOutcome {
    /// It was carried out, and this was said of the register.
    Said(RegisterSaid),
    /// It was carried out up to an event that a port acted on and that was not sent.
    Undetected,
    /// The words are no request of a register, for the reason of this number.
    Refused(u8),
}

/// Whether there may be a further line after an ask of which this came.
pub(crate) fn after_ask(outcome: AskOutcome) -> AfterLine
    ensures { result ≡ after_ask outcome }
{
    match outcome {
        AskOutcome::Undetected => AfterLine::Undetected,
        AskOutcome::Said(_) | AskOutcome::Refused(_) => AfterLine::On,
    }
}

/// Carries out a request, and rounds until its response leaves at the host. In a round these nodes
/// collect before the host does.
pub(crate) fn carry_ask<K: Sink>(
    alloc: Global,
    live: &mut Live,
    telling: Telling,
    event: &Line,
    ask: Ask,
    nodes: &[u8],
    outbox: &mut Outbox<K>,
) -> Result<Reply, BrokenOff>
    requires asks { ask_of event.now ≡ Some ask }
    requires holds { (taken : Taken) × LiveHolds live.old taken × MayBeCarried taken event.now
        × MayCollectWith taken nodes.now ask.host }
    ensures done { IfOk result (λ reply. (taken : Taken) → LiveHolds live.old taken
        → MayBeCarried taken event.now → MayCollectWith taken nodes.now ask.host
        → AskDone telling.quiet taken telling.number nodes.now event.now ask
        outbox.old outbox.new live.new reply) }
    ensures breaks { OnErr result ((taken : Taken) → LiveHolds live.old taken
        → MayBeCarried taken event.now → MayCollectWith taken nodes.now ask.host
        → AskBreaks telling.quiet taken telling.number nodes.now event.now ask
        outbox.old outbox.new) }
{
    match carry_out(alloc, live, telling, event, outbox)? {
        Told::Did(happened) => match happened {
            Happened::Full => Ok(Reply::Missing),
            _ => ask_rounds(alloc, live, telling, ask, nodes, outbox),
        },
        Told::Undetected => Ok(Reply::Undetected),
    }
}

/// Carries out rounds until the response leaves at the host, or so many as there may be.
fn ask_rounds<K: Sink>(
    alloc: Global,
    live: &mut Live,
    telling: Telling,
    ask: Ask,
    nodes: &[u8],
    outbox: &mut Outbox<K>,
) -> Result<Reply, BrokenOff>
    requires { (taken : Taken) × LiveHolds live.old taken × MayCollectWith taken nodes.now ask.host
        × (reply_of ask.tid taken ≡ None) }
    ensures done { IfOk result (λ reply. (taken : Taken) → LiveHolds live.old taken
        → MayCollectWith taken nodes.now ask.host → reply_of ask.tid taken ≡ None
        → RoundsDone telling.quiet taken telling.number ask.tid (ask_round nodes.now ask.host)
        most_ask_rounds outbox.old outbox.new live.new reply) }
    ensures breaks { OnErr result ((taken : Taken) → LiveHolds live.old taken
        → MayCollectWith taken nodes.now ask.host → reply_of ask.tid taken ≡ None
        → RoundsBreak telling.quiet taken telling.number ask.tid (ask_round nodes.now ask.host)
        most_ask_rounds outbox.old outbox.new) }
{
    for _ in 0..MOST_ROUNDS {
        match ask_round(alloc, live, telling, ask, nodes, outbox)? {
            Reply::Missing => {}
            reply => return Ok(reply),
        }
    }
    Ok(Reply::Missing)
}

/// Carries out a round: links and switches carry what they can, each of these nodes collects, and
/// then the host does.
fn ask_round<K: Sink>(
    alloc: Global,
    live: &mut Live,
    telling: Telling,
    ask: Ask,
    nodes: &[u8],
    outbox: &mut Outbox<K>,
) -> Result<Reply, BrokenOff>
    requires { (taken : Taken) × LiveHolds live.old taken
        × MayCollectWith taken nodes.now ask.host }
    ensures done { IfOk result (λ reply. (taken : Taken) → LiveHolds live.old taken
        → MayCollectWith taken nodes.now ask.host
        → RoundDone telling.quiet taken telling.number ask.tid (ask_round nodes.now ask.host)
        outbox.old outbox.new live.new reply) }
    ensures breaks { OnErr result ((taken : Taken) → LiveHolds live.old taken
        → MayCollectWith taken nodes.now ask.host
        → EventsBreak telling.quiet taken telling.number (ask_round nodes.now ask.host)
        outbox.old outbox.new) }
{
    match carry_round(alloc, live, telling, nodes, outbox)? {
        AfterLine::On => collect_reply(alloc, live, telling, ask, outbox),
        AfterLine::Undetected => Ok(Reply::Undetected),
    }
}

/// Has the host collect, and looks whether that is the response.
fn collect_reply<K: Sink>(
    alloc: Global,
    live: &mut Live,
    telling: Telling,
    ask: Ask,
    outbox: &mut Outbox<K>,
) -> Result<Reply, BrokenOff>
    requires { (taken : Taken) × LiveHolds live.old taken × MayBeCarried taken (Collect ask.host) }
    ensures done { IfOk result (λ reply. (taken : Taken) → LiveHolds live.old taken
        → MayBeCarried taken (Collect ask.host)
        → RoundDone telling.quiet taken telling.number ask.tid (Collect ask.host ∷ [])
        outbox.old outbox.new live.new reply) }
    ensures breaks { OnErr result ((taken : Taken) → LiveHolds live.old taken
        → MayBeCarried taken (Collect ask.host)
        → EventsBreak telling.quiet taken telling.number (Collect ask.host ∷ [])
        outbox.old outbox.new) }
{
    match carry_out(
        alloc,
        live,
        telling,
        &Line::Collect { node: ask.host },
        outbox,
    )? {
        Told::Did(happened) => Ok(as_reply(reply_by(ask.tid, &happened))),
        Told::Undetected => Ok(Reply::Undetected),
    }
}

/// What came of a round with this response, or with none.
fn as_reply(reply: Option<Response>) -> Reply
    ensures { result ≡ as_reply reply }
{
    match reply {
        Some(response) => Reply::Came(response),
        None => Reply::Missing,
    }
}

/// Says what came of an ask of the register at an offset, and answers it: after an event that was
/// not sent nothing more is said.
pub(crate) fn tell_reply<K: Sink>(outbox: &mut Outbox<K>, offset: u32, reply: Reply) -> AskOutcome
    ensures said { Writes outbox.old outbox.new (reply_said offset reply) }
    ensures outcome { result ≡ reply_outcome offset reply }
{
    let response = match reply {
        Reply::Came(response) => Some(response),
        Reply::Missing => None,
        Reply::Undetected => return AskOutcome::Undetected,
    };
    let said = register_said(offset, response);
    put_said(outbox, said);
    AskOutcome::Said(said)
}
