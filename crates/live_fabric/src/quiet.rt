//! The answer of an event without the lines with characters.
ghost use Rattle.std.specs.Prelude.{◌≡◌, Some, true, [], IfOk, OnErr};
ghost use Rattle.live_fabric.specs.Lines.{Taken};
ghost use Rattle.live_fabric.specs.Holding.{LiveHolds, MayBeCarried};
ghost use Rattle.live_fabric.specs.Answers.{Happens, HappensWhole};
ghost use Rattle.live_fabric.specs.Pieces.{is_untold, quiet_text};

use crate::answers::{BrokenOff, Told, happen};
use crate::live::Live;
use fabric_script::Line;
use rio_chars::{NoMemory, Outbox, Sink, TextBuffer, TextSink};
use std::alloc::Global;

/// Carries out an event, and writes its block without the lines with characters. The whole block is
/// kept until it is at hand: if memory runs out, nothing is written.
pub(crate) fn happen_quietly<K: Sink>(
    alloc: Global,
    live: &mut Live,
    number: u32,
    event: &Line,
    outbox: &mut Outbox<K>,
) -> Result<Told, BrokenOff>
    requires { (taken : Taken) × LiveHolds live.old taken × MayBeCarried taken event.now }
    ensures happens { IfOk result (λ told. (taken : Taken) → LiveHolds live.old taken
        → MayBeCarried taken event.now
        → Happens true taken number event.now outbox.old outbox.new live.new told) }
    ensures same { OnErr result (outbox.new ≡ outbox.old) }
{
    let mut sink = TextSink::new(alloc);
    let told = happen_into(alloc, live, number, event, &mut sink)?;
    let text = quiet_lines(alloc, sink.as_slice())?;
    outbox.write(text.as_slice());
    Ok(told)
}

/// Carries out an event, and writes its whole block to a sink.
fn happen_into<K: Sink>(
    alloc: Global,
    live: &mut Live,
    number: u32,
    event: &Line,
    sink: &mut K,
) -> Result<Told, BrokenOff>
    requires { (taken : Taken) × LiveHolds live.old taken × MayBeCarried taken event.now }
    ensures happens { IfOk result (λ told. (taken : Taken) → LiveHolds live.old taken
        → MayBeCarried taken event.now
        → HappensWhole taken number event.now (K.written sink.old) (K.written sink.new)
        live.new told) }
{
    let mut buffer = TextBuffer::new(alloc)?;
    let mut outbox = Outbox::new(&mut buffer, sink);
    let told = happen_whole(alloc, live, number, event, &mut outbox);
    outbox.into_sink();
    told
}

/// The same through an outbox.
fn happen_whole<K: Sink>(
    alloc: Global,
    live: &mut Live,
    number: u32,
    event: &Line,
    outbox: &mut Outbox<K>,
) -> Result<Told, BrokenOff>
    requires holds { (taken : Taken) × LiveHolds live.old taken × MayBeCarried taken event.now }
    requires empty { outbox.old.waiting ≡ [] }
    ensures happens { IfOk result (λ told. (taken : Taken) → LiveHolds live.old taken
        → MayBeCarried taken event.now
        → HappensWhole taken number event.now outbox.old.written outbox.new.written
        live.new told) }
    ensures same { outbox.new.sink ≡ outbox.old.sink }
{
    let told = happen(alloc, live, number, event, outbox);
    outbox.flush();
    if outbox.failed() {
        return Err(BrokenOff);
    }
    told
}

/// The lines of a text but for those with characters.
pub(crate) fn quiet_lines(alloc: Global, text: &[u8]) -> Result<Vec<u8>, NoMemory>
    ensures { IfOk result (λ told. told.items ≡ quiet_text text.now) }
{
    let mut told = Vec::new(alloc);
    for piece in text.split(|byte| *byte == b'\n') {
        if is_untold(piece) {
            continue;
        }
        told.extend_from_slice(piece)?;
        told.extend_from_slice(b"\n")?;
    }
    Ok(told)
}

/// Whether a line is left out: it is empty, or it is `sent` or `got`.
fn is_untold(piece: &[u8]) -> bool
    ensures { result ≡ is_untold piece.now }
{
    matches!(piece, [] | [b'g', ..] | [b's', b'e', ..])
}
