//! Lines of four lanes: characters as rows of groups, and back.
ghost use Rattle.std.specs.Prelude.{◌≡◌, OnOk, OnErr};
ghost use Rattle.rio_chars.specs.Written.{Writes};
ghost use Rattle.rio_lane.specs.FourAnswers.{SendsLanes, HearsLanes};
ghost use Rattle.rio_lane.specs.LaneAnswers.{LaneAnswer};

use crate::coding::write_groups_line;
use crate::ends::LaneEnds;
use crate::hearing::write_line;
use crate::telling::{LinePlace, tell_rows};
use crate::words::{read_groups, read_sent, words_in};
use lane_rows::{burst_of_rows, hear_rows, send_rows};
use rio_chars::{Outbox, Sink};
use std::alloc::{AllocError, Global};

/// Answers the characters of a text as rows. If memory is not given, nothing is done.
pub(crate) fn send_lanes<K: Sink>(
    alloc: Global,
    ends: &mut LaneEnds,
    text: &[u8],
    outbox: &mut Outbox<K>,
) -> Result<(), AllocError>
    ensures answer { OnOk result ((answer : LaneAnswer)
        × SendsLanes ends.old text.now answer × (ends.new ≡ answer.ends)
        × Writes outbox.old outbox.new answer.text) }
    ensures ends { OnErr result (ends.new ≡ ends.old) }
    ensures outbox { OnErr result (outbox.new ≡ outbox.old) }
{
    let Some(chars) = read_sent(alloc, words_in(text))? else {
        outbox.write(b"refused character\n");
        return Ok(());
    };
    let burst = burst_of_rows(alloc, chars.as_slice())?;
    let (senders, groups) = send_rows(alloc, ends.senders, burst.as_slice())?;
    write_groups_line(outbox, b"", groups.as_slice());
    ends.senders = senders;
    Ok(())
}

/// Answers the rows of a text, on lanes that want so many commas, and tells the faults among them.
/// If memory is not given, nothing is answered.
pub(crate) fn hear_lanes<K: Sink, M: Sink>(
    alloc: Global,
    place: LinePlace,
    ends: &mut LaneEnds,
    text: &[u8],
    outbox: &mut Outbox<K>,
    messages: &mut Outbox<M>,
) -> Result<(), AllocError>
    ensures answer { OnOk result ((answer : LaneAnswer)
        × HearsLanes place.commas ends.old text.now answer × (ends.new ≡ answer.ends)
        × Writes outbox.old outbox.new answer.text) }
    ensures ends { OnErr result (ends.new ≡ ends.old) }
    ensures outbox { OnErr result (outbox.new ≡ outbox.old) }
{
    let Some(groups) = read_groups(alloc, words_in(text))? else {
        outbox.write(b"refused group\n");
        return Ok(());
    };
    let (lanes, chars) = hear_rows(alloc, place.commas, ends.receivers, groups.as_slice())?;
    write_line(outbox, b"", chars.as_slice());
    tell_rows(messages, place, ends.receivers, groups.as_slice());
    ends.receivers = lanes;
    Ok(())
}
