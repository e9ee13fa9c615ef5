//! Lines that are served, one after another.
ghost use Rattle.std.specs.Prelude.{◌≡◌, [], false, OnOk, OnErr};
ghost use Rattle.rio_chars.specs.Written.{Writes};
ghost use Rattle.rio_lane.specs.LaneAnswers.{LaneAnswer};
ghost use Rattle.rio_lane.specs.LaneLines.{AnswersLane, CodesText};
ghost use Rattle.rio_lane.specs.LaneProgram.{LaneServes};
ghost use Rattle.rio_lane.specs.Tasks.{new_ends};

use crate::coding::send_text;
use crate::ends::{LaneEnds, LaneTask, LaneWay};
use crate::four::{hear_lanes, send_lanes};
use crate::hearing::{hear_bits, hear_text};
use crate::telling::LinePlace;
use code_groups::Disparity;
use lane_bits::Aligner;
use lane_rows::{FourReceivers, FourSenders};
use lane_sync::LaneState;
use live_lines::{LineReader, LiveStatus};
use rio_chars::{Outbox, Sink, Source, TextBuffer};
use std::alloc::{AllocError, Global};

/// Reads lines, and answers each before the next is asked for, on a lane that wants so many commas.
pub fn serve<S: Source, K: Sink, M: Sink>(
    alloc: Global,
    task: LaneTask,
    commas: u8,
    source: &mut S,
    sink: &mut K,
    messages: &mut M,
) -> LiveStatus
    ensures { LaneServes task commas (new_ends commas) result (S.left source.old)
        (S.left source.new)
        (S.faults source.old) (S.faults source.new) (K.written sink.old) (K.written sink.new)
        (K.faults sink.old) (K.faults sink.new) }
{
    let Ok(mut input) = LineReader::new(alloc) else {
        return LiveStatus::NoMemory;
    };
    let Ok(mut buffer) = TextBuffer::new(alloc) else {
        return LiveStatus::NoMemory;
    };
    let Ok(mut words) = TextBuffer::new(alloc) else {
        return LiveStatus::NoMemory;
    };
    let mut ends = LaneEnds {
        sender: Disparity::Negative,
        receiver: LaneState::new(commas),
        aligner: Aligner::new(),
        senders: FourSenders::new(),
        receivers: FourReceivers::new(commas),
    };
    let mut outbox = Outbox::new(&mut buffer, sink);
    let mut told = Outbox::new(&mut words, messages);
    let status = serve_lines(
        alloc,
        task,
        commas,
        &mut ends,
        &mut input,
        source,
        &mut outbox,
        &mut told,
    );
    outbox.into_sink();
    told.into_sink();
    status
}

/// Reads lines, and answers each before the next is asked for.
fn serve_lines<S: Source, K: Sink, M: Sink>(
    alloc: Global,
    task: LaneTask,
    commas: u8,
    ends: &mut LaneEnds,
    input: &mut LineReader,
    source: &mut S,
    outbox: &mut Outbox<K>,
    messages: &mut Outbox<M>,
) -> LiveStatus
    requires input { input.old ≡ [] }
    requires fine { outbox.old.failed ≡ false }
    requires empty { outbox.old.waiting ≡ [] }
    ensures same { outbox.new.sink ≡ outbox.old.sink }
    ensures serves { LaneServes task commas ends.old result (S.left source.old)
        (S.left source.new)
        (S.faults source.old) (S.faults source.new)
        outbox.old.written outbox.new.written outbox.old.faults outbox.new.faults }
{
    let mut line = Vec::new(alloc);
    let mut count = 0u32;
    while count < u32::MAX {
        if let Err(end) = input.read_line(source, &mut line) {
            return LiveStatus::from(end);
        }
        let place = LinePlace {
            line: count + 1,
            commas,
        };
        let Ok(()) = tell_line(alloc, task, place, ends, line.as_slice(), outbox, messages) else {
            return LiveStatus::NoMemory;
        };
        outbox.flush();
        messages.flush();
        if outbox.failed() {
            return LiveStatus::WriteFault;
        }
        count += 1;
    }
    LiveStatus::Done
}

/// Tells the answer of a line. If memory is not given, nothing is told.
fn tell_line<K: Sink, M: Sink>(
    alloc: Global,
    task: LaneTask,
    place: LinePlace,
    ends: &mut LaneEnds,
    line: &[u8],
    outbox: &mut Outbox<K>,
    messages: &mut Outbox<M>,
) -> Result<(), AllocError>
    ensures answer { OnOk result ((answer : LaneAnswer)
        × AnswersLane task place.commas ends.old line.now answer × (ends.new ≡ answer.ends)
        × Writes outbox.old outbox.new answer.text) }
    ensures ends { OnErr result (ends.new ≡ ends.old) }
    ensures outbox { OnErr result (outbox.new ≡ outbox.old) }
{
    let head = task.head();
    let Some(text) = line.strip_prefix(head) else {
        outbox.write(line);
        outbox.write(b"\n");
        return Ok(());
    };
    code_text(alloc, task.way(), place, head, ends, text, outbox, messages)?;
    Ok(())
}

/// Tells what a text is coded as that stands after this head.
fn code_text<K: Sink, M: Sink>(
    alloc: Global,
    way: LaneWay,
    place: LinePlace,
    head: &[u8],
    ends: &mut LaneEnds,
    text: &[u8],
    outbox: &mut Outbox<K>,
    messages: &mut Outbox<M>,
) -> Result<(), AllocError>
    ensures answer { OnOk result ((answer : LaneAnswer)
        × CodesText way place.commas head.now ends.old text.now answer
        × (ends.new ≡ answer.ends) × Writes outbox.old outbox.new answer.text) }
    ensures ends { OnErr result (ends.new ≡ ends.old) }
    ensures outbox { OnErr result (outbox.new ≡ outbox.old) }
{
    match way {
        LaneWay::Sends => send_text(alloc, head, ends, text, outbox),
        LaneWay::Hears => hear_text(alloc, place, head, ends, text, outbox, messages),
        LaneWay::Aligns => hear_bits(alloc, place, ends, text, outbox, messages),
        LaneWay::SendsRows => send_lanes(alloc, ends, text, outbox),
        LaneWay::HearsRows => hear_lanes(alloc, place, ends, text, outbox, messages),
    }
}
