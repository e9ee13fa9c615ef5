//! An open fabric, and its lines.
ghost use Rattle.std.specs.Prelude.{◌≡◌, [], IfOk, drop};
ghost use Rattle.live_fabric.specs.Sessions.{SessionHeld, SessionHolds};
ghost use Rattle.library_calls.specs.FabricsSeen.{FabricHolds, IsOpenedFabric, FabricTextTaken};
ghost use Rattle.library_calls.specs.FabricLines.{FabricLineDid, TellsFabricLine};

use crate::status::CallStatus;
use crate::texts::take_text;
use live_fabric::{AfterLine, BrokenOff, Session};
use rio_chars::{NoMemory, Outbox, Sink, TextBuffer, TextSink};
use std::alloc::Global;
use std::marker::Model;

/// A fabric, how many lines it was given, the text that it told and that is not taken yet, and the
/// room that its calls need.
#[derive(Drop)]
pub struct OpenFabric {
    pub(crate) session: Session,
    pub(crate) number: u32,
    pub(crate) spent: bool,
    pub(crate) sink: TextSink,
    /// How many bytes of it were taken.
    pub(crate) taken: usize,
    pub(crate) buffer: TextBuffer,
}

impl Model for OpenFabric {
    ghost use Rattle.std.specs.Prelude.{drop};
    ghost use Rattle.library_calls.specs.FabricsSeen.{FabricSeen};

    ghost Value = { FabricSeen };

    ghost view = { λ opened. record {
      session = opened.session;
      number = opened.number;
      spent = opened.spent;
      text = drop opened.taken opened.sink.text.items;
    } };
}

impl OpenFabric {
    /// A fabric that was given no line.
    pub fn new(alloc: Global) -> Result<OpenFabric, NoMemory>
        ensures { IfOk result (λ opened. IsOpenedFabric opened) }
    {
        Ok(OpenFabric {
            session: Session::new(alloc)?,
            number: 0,
            spent: false,
            sink: TextSink::new(alloc),
            taken: 0,
            buffer: TextBuffer::new(alloc)?,
        })
    }

    /// Answers a line of `rio_live`. The text of the line before is forgotten.
    pub fn line(&mut self, alloc: Global, line: &[u8]) -> CallStatus
        requires { FabricHolds self.old }
        ensures holds { FabricHolds self.new }
        ensures did { FabricLineDid line.now self.old result self.new }
    {
        if self.spent || self.number == u32::MAX {
            return CallStatus::Spent;
        }
        self.number += 1;
        self.sink.clear();
        self.taken = 0;
        self.spent = true;
        let told = tell(
            alloc,
            &mut self.session,
            self.number,
            line,
            &mut self.buffer,
            &mut self.sink,
        );
        match told {
            Ok(AfterLine::On) => {
                self.spent = false;
                CallStatus::Done
            }
            Ok(AfterLine::Undetected) => CallStatus::Undetected,
            Err(BrokenOff) => CallStatus::Cut,
        }
    }

    /// Takes what was told and is not taken yet, as much of it as has room, and answers how much.
    pub fn text(&mut self, room: &mut [u8]) -> usize
        ensures { FabricTextTaken room.old room.new result self.old self.new }
    {
        take_text(self.sink.as_slice(), &mut self.taken, room)
    }
}

/// Answers the line of a number, and tells the answer.
fn tell<K: Sink>(
    alloc: Global,
    session: &mut Session,
    number: u32,
    line: &[u8],
    buffer: &mut TextBuffer,
    sink: &mut K,
) -> Result<AfterLine, BrokenOff>
    requires { (held : SessionHeld) × SessionHolds session.old held }
    ensures { (held : SessionHeld) → SessionHolds session.old held
        → TellsFabricLine held number line.now result session.new (K.written sink.old)
        (K.written sink.new) }
{
    let mut outbox = Outbox::new(buffer, sink);
    let told = tell_whole(alloc, session, number, line, &mut outbox);
    outbox.into_sink();
    told
}

/// The same through an outbox.
fn tell_whole<K: Sink>(
    alloc: Global,
    session: &mut Session,
    number: u32,
    line: &[u8],
    outbox: &mut Outbox<K>,
) -> Result<AfterLine, BrokenOff>
    requires holds { (held : SessionHeld) × SessionHolds session.old held }
    requires empty { outbox.old.waiting ≡ [] }
    ensures told { (held : SessionHeld) → SessionHolds session.old held
        → TellsFabricLine held number line.now result session.new outbox.old.written
        outbox.new.written }
    ensures same { outbox.new.sink ≡ outbox.old.sink }
{
    let answered = session.answer(alloc, number, line, outbox);
    outbox.flush();
    if outbox.failed() {
        return Err(BrokenOff);
    }
    answered
}
