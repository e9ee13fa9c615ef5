//! What a host's request of a register asks, and what is said of its response.
ghost use Rattle.std.specs.Prelude.{◌≡◌, ℕ, IfOk, IsErrOf};
ghost use Rattle.rio_chars.specs.Written.{Writes};
ghost use Rattle.live_fabric.specs.declared.asks.RegisterSaid.TheVariants.{Value};
ghost use Rattle.live_fabric.specs.Asking.{SpellsAsk, IsNoAsk, ask_of, others_than, reply_by, word_at_offset, done_said, register_said, said_text};

use fabric_ports::Happened;
use fabric_script::{EventEnd, Line, SetUp, put_value};
use maint_packets::{Response, read_response};
use rio_chars::{NoMemory, Outbox, Sink};
use std::alloc::Global;

/// The reason of a line that has no form.
const NO_FORM: u8 = 1;

/// The reason of a line that may not stand where it does.
const OUT_OF_PLACE: u8 = 12;

/// What a request of a register asks.
#[derive(Clone, Copy)]
pub(crate) struct Ask {
    /// The node that asks.
    pub(crate) host: u8,
    /// The transaction number.
    pub(crate) tid: u8,
    /// The offset of the register.
    pub(crate) offset: u32,
}

/// What a response says of a register.
#[derive(Clone, Copy, Debug, PartialEq, Eq)]
pub enum RegisterSaid {
    /// This value was read.
    Value(u32),
    /// It was written.
    Written,
    /// What was asked is not done: this is the status of the response.
    Failed(u8),
    /// No response has come.
    Unanswered,
}

/// What an event asks, if it is a request of a register.
pub(crate) fn ask_of(event: &Line) -> Option<Ask>
    ensures { result ≡ ask_of event.now }
{
    match event {
        Line::Read {
            node,
            tid,
            offset,
            ..
        }
        | Line::Write {
            node,
            tid,
            offset,
            ..
        }
        | Line::Read16 {
            node,
            tid,
            offset,
            ..
        }
        | Line::Write16 {
            node,
            tid,
            offset,
            ..
        } => Some(Ask {
            host: *node,
            tid: *tid,
            offset: *offset,
        }),
        _ => None,
    }
}

/// The event that a line spells behind these lines of set-up, and what it asks. A line of set-up
/// and any other event are of no form.
pub(crate) fn read_ask(alloc: Global, set_up: &SetUp, line: &[u8]) -> Result<(Line, Ask), EventEnd>
    ensures asks { IfOk result (λ read. SpellsAsk set_up.now.known line.now read.0 read.1) }
    ensures refused { (number : ℕ) → IsErrOf result (EventEnd.Refused number)
        → IsNoAsk set_up.now.known line.now number }
{
    match set_up.read_event(alloc, line) {
        Ok(event) => match ask_of(&event) {
            Some(ask) => Ok((event, ask)),
            None => Err(EventEnd::Refused(NO_FORM)),
        },
        Err(EventEnd::Refused(OUT_OF_PLACE)) => Err(EventEnd::Refused(NO_FORM)),
        Err(end) => Err(end),
    }
}

/// The nodes but for the host.
pub(crate) fn others_than(alloc: Global, host: u8, nodes: &[u8]) -> Result<Vec<u8>, NoMemory>
    ensures { IfOk result (λ others. others.items ≡ others_than host nodes.now) }
{
    let others = nodes
        .iter()
        .copied()
        .filter(|node| *node != host)
        .collect(alloc)?;
    Ok(others)
}

/// The response with this transaction number that left, if one did.
pub(crate) fn reply_by(tid: u8, happened: &Happened) -> Option<Response>
    ensures { result ≡ reply_by tid happened.now }
{
    let Happened::Left(packet) = happened else {
        return None;
    };
    let response = read_response(packet)?;
    if response.tid == tid {
        Some(response)
    } else {
        None
    }
}

/// What a response says of the register at an offset, or that none came.
pub(crate) fn register_said(offset: u32, reply: Option<Response>) -> RegisterSaid
    ensures { result ≡ register_said offset reply }
{
    match reply {
        Some(response) if response.status == 0 => done_said(offset, response.words),
        Some(response) => RegisterSaid::Failed(response.status),
        None => RegisterSaid::Unanswered,
    }
}

/// The value that was read, or that a register was written.
fn done_said(offset: u32, words: Option<(u32, u32)>) -> RegisterSaid
    ensures { result ≡ done_said offset words }
{
    match words {
        Some(words) => RegisterSaid::Value(word_at_offset(offset, words)),
        None => RegisterSaid::Written,
    }
}

/// Writes what is said of a register.
pub(crate) fn put_said<K: Sink>(outbox: &mut Outbox<K>, said: RegisterSaid)
    ensures { Writes outbox.old outbox.new (said_text said) }
{
    match said {
        RegisterSaid::Value(value) => put_said_value(outbox, value),
        RegisterSaid::Written => outbox.write(b"written\n"),
        RegisterSaid::Failed(status) => {
            outbox.write(b"error ");
            outbox.write_decimal(u32::from(status));
            outbox.write(b"\n");
        }
        RegisterSaid::Unanswered => outbox.write(b"unanswered\n"),
    }
}

/// Writes the value that was read.
fn put_said_value<K: Sink>(outbox: &mut Outbox<K>, value: u32)
    ensures { Writes outbox.old outbox.new (said_text (Value value)) }
{
    outbox.write(b"value");
    put_value(outbox, value);
    outbox.write(b"\n");
}

/// Of two words, the one that the offset names.
fn word_at_offset(offset: u32, words: (u32, u32)) -> u32
    ensures { result ≡ word_at_offset offset words }
{
    if offset / 4 % 2 == 1 {
        words.1
    } else {
        words.0
    }
}
