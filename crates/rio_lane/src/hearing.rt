//! Groups, as the characters that a lane hears.
ghost use Rattle.std.specs.Prelude.{◌≡◌, ◌++◌, OnOk, OnErr, codes};
ghost use Rattle.rio_chars.specs.Written.{Writes};
ghost use Rattle.rio_lane.specs.LaneAnswers.{LaneAnswer, HearsText, HearsBits, joined_chars};

use crate::ends::LaneEnds;
use crate::telling::{LinePlace, tell_bits, tell_faults};
use crate::words::{read_groups, words_in};
use lane_bits::{hear_pieces, read_pieces};
use lane_sync::hear_all;
use rio_chars::{Char, Outbox, Sink, char_text};
use std::alloc::{AllocError, Global};

/// Answers the groups of a text, on a lane that wants so many commas, and tells the faults among
/// them. If memory is not given, nothing is answered.
pub(crate) fn hear_text<K: Sink, M: Sink>(
    alloc: Global,
    place: LinePlace,
    head: &[u8],
    ends: &mut LaneEnds,
    text: &[u8],
    outbox: &mut Outbox<K>,
    messages: &mut Outbox<M>,
) -> Result<(), AllocError>
    ensures answer { OnOk result ((answer : LaneAnswer)
        × HearsText place.commas head.now ends.old text.now answer × (ends.new ≡ answer.ends)
        × Writes outbox.old outbox.new answer.text) }
    ensures ends { OnErr result (ends.new ≡ ends.old) }
    ensures outbox { OnErr result (outbox.new ≡ outbox.old) }
{
    let Some(groups) = read_groups(alloc, words_in(text))? else {
        outbox.write(b"refused group\n");
        return Ok(());
    };
    let (state, chars) = hear_all(alloc, place.commas, ends.receiver, groups.as_slice())?;
    write_line(outbox, head, chars.as_slice());
    tell_faults(messages, place, ends.receiver, groups.as_slice());
    ends.receiver = state;
    Ok(())
}

/// Answers the bits of a text, on a lane that wants so many commas, and tells slips and faults. If
/// memory is not given, nothing is answered.
pub(crate) fn hear_bits<K: Sink, M: Sink>(
    alloc: Global,
    place: LinePlace,
    ends: &mut LaneEnds,
    text: &[u8],
    outbox: &mut Outbox<K>,
    messages: &mut Outbox<M>,
) -> Result<(), AllocError>
    ensures answer { OnOk result ((answer : LaneAnswer)
        × HearsBits place.commas ends.old text.now answer × (ends.new ≡ answer.ends)
        × Writes outbox.old outbox.new answer.text) }
    ensures ends { OnErr result (ends.new ≡ ends.old) }
    ensures outbox { OnErr result (outbox.new ≡ outbox.old) }
{
    let Some((aligner, pieces)) = read_pieces(alloc, ends.aligner, text)? else {
        outbox.write(b"refused bit\n");
        return Ok(());
    };
    let (state, chars) = hear_pieces(alloc, place.commas, ends.receiver, pieces.as_slice())?;
    write_line(outbox, b"", chars.as_slice());
    tell_bits(messages, place, *ends, text);
    ends.receiver = state;
    ends.aligner = aligner;
    Ok(())
}

/// Tells a line of characters after its head.
pub(crate) fn write_line<K: Sink>(outbox: &mut Outbox<K>, head: &[u8], chars: &[Char])
    ensures { Writes outbox.old outbox.new (head.now ++ joined_chars chars.now ++ codes "\n") }
{
    outbox.write(head);
    write_joined(outbox, chars);
    outbox.write(b"\n");
}

/// Tells the texts of characters, with a space between any two.
fn write_joined<K: Sink>(outbox: &mut Outbox<K>, chars: &[Char])
    ensures { Writes outbox.old outbox.new (joined_chars chars.now) }
{
    let [first, rest @ ..] = chars else {
        return;
    };
    outbox.write(&char_text(*first));
    outbox.write_chars(rest);
}
