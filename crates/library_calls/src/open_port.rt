//! An open port, and its lines.
ghost use Rattle.std.specs.Prelude.{◌≡◌, ◌≤◌, [], IfOk, OnErr, OnOk, drop};
ghost use Rattle.port_lines.specs.Lines.{asked_answer};
ghost use Rattle.library_calls.specs.PortsSeen.{new_seen, PortTextTaken};
ghost use Rattle.library_calls.specs.PortLines.{PortLineDid, WritesBut};

use crate::status::CallStatus;
use crate::texts::take_text;
use port_lines::{
    Came, ClockedPort, PortRequest, PortSettings, RequestRefusal, answer, read_request,
};
use rio_chars::{NoMemory, Outbox, Sink, TextBuffer, TextSink};
use std::alloc::Global;
use std::marker::Model;

/// A port, the text that it told and that is not taken yet, and the room that its calls need.
#[derive(Drop)]
pub struct OpenPort {
    pub(crate) clocked: ClockedPort,
    pub(crate) came: Came,
    sink: TextSink,
    /// How many bytes of it were taken.
    taken: usize,
    buffer: TextBuffer,
}

impl Model for OpenPort {
    ghost use Rattle.std.specs.Prelude.{drop};
    ghost use Rattle.library_calls.specs.PortsSeen.{PortSeen};

    ghost Value = { PortSeen };

    ghost view = { λ opened. record {
      port = opened.clocked.port;
      settings = opened.clocked.settings;
      waiting = opened.clocked.waiting;
      patience_left = opened.clocked.patience_left;
      text = drop opened.taken opened.sink.text.items;
    } };
}

impl OpenPort {
    /// A new port of 4 to 30 receive buffers, which tells its free buffers or does not.
    pub fn new(alloc: Global, buffers: u8, tells: bool) -> Result<OpenPort, NoMemory>
        requires least { 4 ≤ buffers }
        requires most { buffers ≤ 30 }
        ensures { IfOk result (λ opened. opened ≡ new_seen tells buffers) }
    {
        let settings = PortSettings {
            tells,
            ..PortSettings::plain(buffers)
        };
        Ok(OpenPort {
            clocked: ClockedPort::new(alloc, settings)?,
            came: Came::new(),
            sink: TextSink::new(alloc),
            taken: 0,
            buffer: TextBuffer::new(alloc)?,
        })
    }

    /// Answers a line of `rio_port`. The text of the line before is forgotten.
    pub fn line(&mut self, alloc: Global, line: &[u8]) -> CallStatus
        ensures { PortLineDid line.now self.old result self.new }
    {
        self.sink.clear();
        self.taken = 0;
        let Ok(asked) = read_request(alloc, line) else {
            return CallStatus::NoMemory;
        };
        let Ok(cut) = tell(
            alloc,
            &mut self.clocked,
            asked,
            &mut self.buffer,
            &mut self.sink,
        ) else {
            self.sink.clear();
            return CallStatus::NoMemory;
        };
        if cut {
            CallStatus::Cut
        } else {
            CallStatus::Done
        }
    }

    /// Takes what was told and is not taken yet, as much of it as has room, and answers how much.
    pub fn text(&mut self, room: &mut [u8]) -> usize
        ensures { PortTextTaken room.old room.new result self.old self.new }
    {
        take_text(self.sink.as_slice(), &mut self.taken, room)
    }
}

/// Does what is asked for and tells the answer, and answers whether a write failed. If memory is
/// not given, nothing is done.
fn tell<K: Sink>(
    alloc: Global,
    clocked: &mut ClockedPort,
    asked: Result<PortRequest, RequestRefusal>,
    buffer: &mut TextBuffer,
    sink: &mut K,
) -> Result<bool, NoMemory>
    ensures port { OnOk result (clocked.new ≡ (asked_answer clocked.old asked).stands) }
    ensures text { IfOk result (λ failed. WritesBut failed (K.written sink.old)
        (K.written sink.new) (asked_answer clocked.old asked).text) }
    ensures same { OnErr result (clocked.new ≡ clocked.old) }
{
    let mut outbox = Outbox::new(buffer, sink);
    let failed = tell_whole(alloc, clocked, asked, &mut outbox);
    outbox.into_sink();
    failed
}

/// The same through an outbox.
fn tell_whole<K: Sink>(
    alloc: Global,
    clocked: &mut ClockedPort,
    asked: Result<PortRequest, RequestRefusal>,
    outbox: &mut Outbox<K>,
) -> Result<bool, NoMemory>
    requires { outbox.old.waiting ≡ [] }
    ensures port { OnOk result (clocked.new ≡ (asked_answer clocked.old asked).stands) }
    ensures text { IfOk result (λ failed. WritesBut failed outbox.old.written
        outbox.new.written (asked_answer clocked.old asked).text) }
    ensures clocked { OnErr result (clocked.new ≡ clocked.old) }
    ensures same { outbox.new.sink ≡ outbox.old.sink }
{
    answer(alloc, clocked, asked, outbox)?;
    outbox.flush();
    Ok(outbox.failed())
}
