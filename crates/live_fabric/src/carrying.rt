//! The events of a line, one after another.
ghost use Rattle.std.specs.Prelude.{◌∷◌, [], map, IfOk, OnErr};
ghost use Rattle.fabric_script.specs.declared.lines.Line.TheVariants.{Collect};
ghost use Rattle.live_fabric.specs.Lines.{Taken};
ghost use Rattle.live_fabric.specs.Holding.{LiveHolds, MayBeCarried, MayCollect};
ghost use Rattle.live_fabric.specs.Answers.{Happens, HappensFront};
ghost use Rattle.live_fabric.specs.Course.{EventsDone, EventsBreak, DoneWhile, BreaksWhile};
ghost use Rattle.live_fabric.specs.Served.{round_events, rounds, events_carried};

use crate::answers::{AfterLine, BrokenOff, Told, after_told, happen};
use crate::live::Live;
use crate::quiet::happen_quietly;
use fabric_script::Line;
use rio_chars::{Outbox, Sink};
use std::alloc::Global;

/// How the events of a line are told.
#[derive(Clone, Copy)]
pub(crate) struct Telling {
    /// The lines with characters are left out.
    pub(crate) quiet: bool,
    /// The number of the line.
    pub(crate) number: u32,
}

/// Carries out an event while these nodes are served: `run` as its rounds, and any other as it is.
pub(crate) fn carry_line<K: Sink>(
    alloc: Global,
    live: &mut Live,
    telling: Telling,
    nodes: &[u8],
    event: &Line,
    outbox: &mut Outbox<K>,
) -> Result<AfterLine, BrokenOff>
    requires { (taken : Taken) × LiveHolds live.old taken × MayBeCarried taken event.now
        × MayCollect taken nodes.now }
    ensures done { IfOk result (λ after. (taken : Taken) → LiveHolds live.old taken
        → MayBeCarried taken event.now → MayCollect taken nodes.now
        → EventsDone telling.quiet taken telling.number (events_carried nodes.now event.now)
        outbox.old outbox.new live.new after) }
    ensures breaks { OnErr result ((taken : Taken) → LiveHolds live.old taken
        → MayBeCarried taken event.now → MayCollect taken nodes.now
        → EventsBreak telling.quiet taken telling.number (events_carried nodes.now event.now)
        outbox.old outbox.new) }
{
    if nodes.is_empty() {
        return carry_one(alloc, live, telling, event, outbox);
    }
    match event {
        Line::Run { n } => carry_rounds(alloc, live, telling, *n, nodes, outbox),
        _ => carry_one(alloc, live, telling, event, outbox),
    }
}

/// Carries out one event.
fn carry_one<K: Sink>(
    alloc: Global,
    live: &mut Live,
    telling: Telling,
    event: &Line,
    outbox: &mut Outbox<K>,
) -> Result<AfterLine, BrokenOff>
    requires { (taken : Taken) × LiveHolds live.old taken × MayBeCarried taken event.now }
    ensures done { IfOk result (λ after. (taken : Taken) → LiveHolds live.old taken
        → MayBeCarried taken event.now
        → EventsDone telling.quiet taken telling.number (event.now ∷ [])
        outbox.old outbox.new live.new after) }
    ensures breaks { OnErr result ((taken : Taken) → LiveHolds live.old taken
        → MayBeCarried taken event.now
        → EventsBreak telling.quiet taken telling.number (event.now ∷ [])
        outbox.old outbox.new) }
{
    let told = carry_out(alloc, live, telling, event, outbox)?;
    Ok(after_told(&told))
}

/// Carries out so many rounds.
fn carry_rounds<K: Sink>(
    alloc: Global,
    live: &mut Live,
    telling: Telling,
    count: u32,
    nodes: &[u8],
    outbox: &mut Outbox<K>,
) -> Result<AfterLine, BrokenOff>
    requires { (taken : Taken) × LiveHolds live.old taken × MayCollect taken nodes.now }
    ensures done { IfOk result (λ after. DoneWhile nodes.now telling.quiet telling.number
        (rounds count (round_events nodes.now)) live.old outbox.old outbox.new live.new after) }
    ensures breaks { OnErr result (BreaksWhile nodes.now telling.quiet telling.number
        (rounds count (round_events nodes.now)) live.old outbox.old outbox.new) }
{
    for _ in 0..count {
        match carry_round(alloc, live, telling, nodes, outbox)? {
            AfterLine::On => {}
            AfterLine::Undetected => return Ok(AfterLine::Undetected),
        }
    }
    Ok(AfterLine::On)
}

/// Carries out a round: links and switches carry what they can, and then each of these nodes
/// collects.
pub(crate) fn carry_round<K: Sink>(
    alloc: Global,
    live: &mut Live,
    telling: Telling,
    nodes: &[u8],
    outbox: &mut Outbox<K>,
) -> Result<AfterLine, BrokenOff>
    requires { (taken : Taken) × LiveHolds live.old taken × MayCollect taken nodes.now }
    ensures done { IfOk result (λ after. DoneWhile nodes.now telling.quiet telling.number
        (round_events nodes.now) live.old outbox.old outbox.new live.new after) }
    ensures breaks { OnErr result (BreaksWhile nodes.now telling.quiet telling.number
        (round_events nodes.now) live.old outbox.old outbox.new) }
{
    match carry_out(alloc, live, telling, &Line::Run { n: 1 }, outbox)? {
        Told::Did(_) => collect_all(alloc, live, telling, nodes, outbox),
        Told::Undetected => Ok(AfterLine::Undetected),
    }
}

/// Has each of these nodes collect.
fn collect_all<K: Sink>(
    alloc: Global,
    live: &mut Live,
    telling: Telling,
    nodes: &[u8],
    outbox: &mut Outbox<K>,
) -> Result<AfterLine, BrokenOff>
    requires { (taken : Taken) × LiveHolds live.old taken × MayCollect taken nodes.now }
    ensures done { IfOk result (λ after. DoneWhile nodes.now telling.quiet telling.number
        (map Collect nodes.now) live.old outbox.old outbox.new live.new after) }
    ensures breaks { OnErr result (BreaksWhile nodes.now telling.quiet telling.number
        (map Collect nodes.now) live.old outbox.old outbox.new) }
{
    for node in nodes {
        match carry_out(alloc, live, telling, &Line::Collect { node: *node }, outbox)? {
            Told::Did(_) => {}
            Told::Undetected => return Ok(AfterLine::Undetected),
        }
    }
    Ok(AfterLine::On)
}

/// Carries out an event, and writes what is told of its block.
pub(crate) fn carry_out<K: Sink>(
    alloc: Global,
    live: &mut Live,
    telling: Telling,
    event: &Line,
    outbox: &mut Outbox<K>,
) -> Result<Told, BrokenOff>
    requires { (taken : Taken) × LiveHolds live.old taken × MayBeCarried taken event.now }
    ensures happens { IfOk result (λ told. (taken : Taken) → LiveHolds live.old taken
        → MayBeCarried taken event.now
        → Happens telling.quiet taken telling.number event.now outbox.old outbox.new live.new
        told) }
    ensures short { OnErr result ((taken : Taken) → LiveHolds live.old taken
        → MayBeCarried taken event.now
        → HappensFront telling.quiet taken telling.number event.now outbox.old outbox.new) }
{
    if telling.quiet {
        happen_quietly(alloc, live, telling.number, event, outbox)
    } else {
        happen(alloc, live, telling.number, event, outbox)
    }
}
