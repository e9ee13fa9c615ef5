//! A script of reads and writes is carried out.
ghost use Rattle.std.specs.Prelude.{◌≡◌, ◌≤◌, ◌<◌, true, false, [], ◌∷◌, List, length, OnOk, OnErr, IsErrOf};
ghost use Rattle.rio_chars.specs.Faults.{Rose};
ghost use Rattle.fabric_script.specs.declared.lines.Numbered.{Numbered as NumberedLine};
ghost use Rattle.io_rounds.specs.Tasks.{Carry, Ask};
ghost use Rattle.io_rounds.specs.Course.{CourseHolds, IoArrived, IoStopped, IoDoes, IoStops};
ghost use Rattle.io_rounds.specs.Drives.{IsIoFit, DrivenWhole, DrivenFront, first_state};
ghost use Rattle.io_rounds.specs.Turns.{MayBegin, MaySend};

use crate::course::Course;
use crate::requests::{Asking, request_of};
use crate::stations::{Memory, count_on, put_memory};
use crate::texts::{write_asked, write_begun_line};
use fabric_ports::Happened;
use fabric_script::Name;
use io_script::{IoLine, IoScript};
use rio_chars::{NoMemory, Outbox, PlainSink, Sink, TextBuffer};
use std::alloc::Global;

/// Why a script was not carried out to its end.
#[derive(Clone, Copy, Debug, PartialEq, Eq)]
pub enum IoEnd {
    /// The sink failed.
    WriteFault,
    /// Memory ran out.
    NoMemory,
}

impl From<NoMemory> for IoEnd {
    ghost use Rattle.std.specs.Prelude.{◌≡◌};
    ghost use Rattle.io_rounds.specs.declared.carrying.IoEnd.TheVariants as Ends;

    ghost from_gives = { λ _ end. end ≡ Ends.NoMemory };

    fn from(_: NoMemory) -> Self {
        IoEnd::NoMemory
    }
}

/// Carries out a script of reads and writes, and writes what was asked and what became of the
/// packets, in pieces of kilobytes.
pub fn carry_out<K: Sink>(alloc: Global, script: &IoScript, sink: &mut K) -> Result<(), IoEnd>
    requires { IsIoFit script.now.script.names.items script.now.script.lines.items
        script.now.lines.items }
    ensures done { OnOk result (DrivenWhole script.now.script.names.items
        script.now.script.lines.items script.now.lines.items
        (K.written sink.old) (K.written sink.new)) }
    ensures write_fault { IsErrOf result IoEnd.WriteFault
        → Rose (K.faults sink.old) (K.faults sink.new)
        × DrivenFront script.now.script.names.items script.now.script.lines.items
        script.now.lines.items (K.written sink.old) (K.written sink.new) }
    ensures no_memory { IsErrOf result IoEnd.NoMemory
        → DrivenFront script.now.script.names.items script.now.script.lines.items
        script.now.lines.items (K.written sink.old) (K.written sink.new) }
    ensures counts { ¬ IsErrOf result IoEnd.WriteFault
        → K.faults sink.new ≡ K.faults sink.old }
    ensures never_falls { K.faults sink.old ≤ K.faults sink.new }
{
    let mut traced = TextBuffer::new(alloc)?;
    let mut plain = PlainSink::new();
    let trace = Outbox::new(&mut traced, &mut plain);
    let mut course = Course::new(alloc, &script.script, trace)?;
    let mut buffer = TextBuffer::new(alloc)?;
    let mut outbox = Outbox::new(&mut buffer, sink);
    let end = write_output(alloc, script, &mut course, &mut outbox);
    outbox.into_sink();
    end
}

/// Carries out the lines and hands what they write to the sink.
fn write_output<K: Sink>(
    alloc: Global,
    script: &IoScript,
    course: &mut Course,
    output: &mut Outbox<K>,
) -> Result<(), IoEnd>
    requires fit { IsIoFit script.now.script.names.items script.now.script.lines.items
        script.now.lines.items }
    requires begins { CourseHolds script.now.script.names.items script.now.script.lines.items [] []
        (first_state script.now.script.names.items script.now.lines.items).stations course.old }
    requires fine { output.old.failed ≡ false }
    requires empty { output.old.waiting ≡ [] }
    ensures same { output.new.sink ≡ output.old.sink }
    ensures done { OnOk result (DrivenWhole script.now.script.names.items
        script.now.script.lines.items script.now.lines.items
        output.old.written output.new.written) }
    ensures write_fault { IsErrOf result IoEnd.WriteFault
        → Rose output.old.faults output.new.faults
        × DrivenFront script.now.script.names.items script.now.script.lines.items
        script.now.lines.items output.old.written output.new.written }
    ensures no_memory { IsErrOf result IoEnd.NoMemory
        → DrivenFront script.now.script.names.items script.now.script.lines.items
        script.now.lines.items output.old.written output.new.written }
    ensures counts { ¬ IsErrOf result IoEnd.WriteFault
        → output.new.faults ≡ output.old.faults }
    ensures never_falls { output.old.faults ≤ output.new.faults }
{
    let end = tell_output(alloc, script, course, output);
    output.flush();
    if output.failed() {
        return Err(IoEnd::WriteFault);
    }
    end
}

/// Carries out the lines and tells what they write, up to the line in which a write failed.
fn tell_output<K: Sink>(
    alloc: Global,
    script: &IoScript,
    course: &mut Course,
    output: &mut Outbox<K>,
) -> Result<(), IoEnd>
    requires fit { IsIoFit script.now.script.names.items script.now.script.lines.items
        script.now.lines.items }
    requires begins { CourseHolds script.now.script.names.items script.now.script.lines.items [] []
        (first_state script.now.script.names.items script.now.lines.items).stations course.old }
    requires fine { output.old.failed ≡ false }
    ensures done { OnOk result (IoArrived output.old output.new
        script.now.script.names.items script.now.script.lines.items
        (first_state script.now.script.names.items script.now.lines.items) [] course.new) }
    ensures front { IoStopped output.old output.new
        script.now.script.names.items script.now.script.lines.items
        (first_state script.now.script.names.items script.now.lines.items) }
    ensures failed { IsErrOf result IoEnd.WriteFault → output.new.failed ≡ true }
{
    for numbered in &script.lines {
        course.carry(alloc, &script.script.names, &numbered.io, output)?;
        if output.failed() {
            return Err(IoEnd::WriteFault);
        }
    }
    output.write(b"end\n");
    Ok(())
}

impl Course<'_> {
    /// Carries out a line. Its text is written first.
    fn carry<K: Sink>(
        &mut self,
        alloc: Global,
        names: &[Name],
        line: &IoLine,
        output: &mut Outbox<K>,
    ) -> Result<(), NoMemory>
        requires { MayBegin names.now self.old line.now }
        ensures done { OnOk result ((script : List NumberedLine) → IoDoes names.now script
            output.old self.old (Carry line.now ∷ []) output.new self.new) }
        ensures ended { OnErr result ((script : List NumberedLine) → IoStops names.now script
            output.old self.old (Carry line.now ∷ []) output.new) }
    {
        match line {
            IoLine::Memory { node, bytes } => {
                let memory = Memory::new(alloc, *bytes)?;
                write_begun_line(output, names, line);
                put_memory(&mut self.stations, *node, memory);
                Ok(())
            }
            IoLine::Round => {
                write_begun_line(output, names, line);
                self.round(alloc, names, output)
            }
            _ => {
                let asked = request_of(alloc, &self.stations, line)?;
                write_begun_line(output, names, line);
                self.ask(alloc, names, &asked, output)
            }
        }
    }

    /// Sends a request, and writes that it was sent or had no room.
    fn ask<K: Sink>(
        &mut self,
        alloc: Global,
        names: &[Name],
        asked: &Asking,
        output: &mut Outbox<K>,
    ) -> Result<(), NoMemory>
        requires may { MaySend names.now self.old asked.now.line }
        requires named { asked.now.node < length names.now }
        ensures done { OnOk result ((script : List NumberedLine) → IoDoes names.now script
            output.old self.old (Ask asked.now.node asked.now.tid asked.now.line ∷ []) output.new
            self.new) }
        ensures ended { OnErr result ((script : List NumberedLine) → IoStops names.now script
            output.old self.old (Ask asked.now.node asked.now.tid asked.now.line ∷ []) output.new) }
    {
        match self.act(alloc, names, &asked.line)? {
            Happened::Took => {
                count_on(&mut self.stations, asked.node, asked.tid);
                write_asked(output, names, asked.node, asked.tid);
            }
            _ => output.write(b"full\n"),
        }
        Ok(())
    }
}
