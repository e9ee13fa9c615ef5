//! What is said of groups that a lane cannot hear.
ghost use Rattle.code_groups.specs.Streams.{HaveTenBits};
ghost use Rattle.std.specs.Prelude.{◌<◌};

use crate::ends::LaneEnds;
use group_text::group_text;
use lane_bits::BitPiece;
use lane_rows::FourReceivers;
use lane_sync::{LaneState, LaneStep};
use rio_chars::{Char, Outbox, Sink};

/// Where a line stands, counted from 1, and how many commas its lane wants.
#[derive(Clone, Copy, Debug, PartialEq, Eq)]
pub(crate) struct LinePlace {
    pub line: u32,
    pub commas: u8,
}

/// Tells each group that is invalid on a lane in sync, and each that brings or loses sync.
pub(crate) fn tell_faults<M: Sink>(
    messages: &mut Outbox<M>,
    place: LinePlace,
    begin: LaneState,
    groups: &[u16],
)
    requires { HaveTenBits groups.now }
{
    let mut number = 0u32;
    let mut state = begin;
    let mut left = groups;
    while let [group, rest @ ..] = left {
        let step = state.hear(place.commas, *group);
        number = number.saturating_add(1);
        let words = words_for(state, step);
        if !words.is_empty() {
            tell(messages, place.line, b", group ", number, *group, words);
        }
        state = step.state;
        left = rest;
    }
}

/// Tells each slip in bits, each group that is invalid on a lane in sync, and each that brings or
/// loses sync, by the number of their last bit. What is no digit is passed over.
pub(crate) fn tell_bits<M: Sink>(
    messages: &mut Outbox<M>,
    place: LinePlace,
    begin: LaneEnds,
    digits: &[u8],
) {
    let mut number = 0u32;
    let mut ends = begin;
    let mut left = digits;
    while let [digit, rest @ ..] = left {
        number = number.saturating_add(1);
        let step = ends.aligner.read(u16::from(*digit % 2));
        ends.aligner = step.state;
        if let Some(piece) = step.piece {
            ends.receiver = tell_piece(messages, place, number, ends.receiver, piece);
        }
        left = rest;
    }
}

/// Tells what there is to tell of a piece that ends with a bit, and answers the lane after it.
fn tell_piece<M: Sink>(
    messages: &mut Outbox<M>,
    place: LinePlace,
    number: u32,
    before: LaneState,
    piece: BitPiece,
) -> LaneState {
    let BitPiece::Group(group) = piece else {
        tell_place(messages, place.line, b", bit ", number);
        messages.write(b"a slip, groups begin with this comma\n");
        return LaneState::new(place.commas);
    };
    let step = before.hear(place.commas, group % 1024);
    let words = words_for(before, step);
    if !words.is_empty() {
        tell(messages, place.line, b", bit ", number, group % 1024, words);
    }
    step.state
}

/// The same of groups in rows, each on its own lane.
pub(crate) fn tell_rows<M: Sink>(
    messages: &mut Outbox<M>,
    place: LinePlace,
    begin: FourReceivers,
    groups: &[u16],
)
    requires { HaveTenBits groups.now }
{
    let mut number = 0u32;
    let mut lanes = begin;
    let mut left = groups;
    while let [group, rest @ ..] = left {
        let step = lanes.a.hear(place.commas, *group);
        number = number.saturating_add(1);
        let words = words_for(lanes.a, step);
        if !words.is_empty() {
            tell(messages, place.line, b", group ", number, *group, words);
        }
        lanes = turned(lanes, step.state);
        left = rest;
    }
}

/// The lanes after a group on the first one, which is last then.
fn turned(lanes: FourReceivers, after: LaneState) -> FourReceivers {
    FourReceivers {
        a: lanes.b,
        b: lanes.c,
        c: lanes.d,
        d: after,
    }
}

/// What is said of a group, if anything is.
fn words_for(before: LaneState, step: LaneStep) -> &'static [u8] {
    match (before, step.state) {
        (LaneState::Out(_), LaneState::Out(_)) => b"",
        (LaneState::Out(_), LaneState::In(_)) => b"brings sync\n",
        (LaneState::In(_), LaneState::Out(_)) => b"is invalid and loses sync\n",
        (LaneState::In(_), LaneState::In(_)) => words_in_sync(step.character),
    }
}

fn words_in_sync(heard: Char) -> &'static [u8] {
    match heard {
        Char::Data(_) | Char::Special(_) => b"",
        Char::Invalid => b"is invalid\n",
    }
}

/// Tells one group: its line, its number or that of its last bit, its bits and what is said of it.
fn tell<M: Sink>(
    messages: &mut Outbox<M>,
    line: u32,
    what: &[u8],
    number: u32,
    group: u16,
    words: &[u8],
)
    requires { group < 1024 }
{
    tell_place(messages, line, what, number);
    messages.write(&group_text(group));
    messages.write(b" ");
    messages.write(words);
}

/// Tells a place: the number of a line, and of what in it.
fn tell_place<M: Sink>(messages: &mut Outbox<M>, line: u32, what: &[u8], number: u32) {
    messages.write(b"rio_lane: line ");
    messages.write_decimal(line);
    messages.write(what);
    messages.write_decimal(number);
    messages.write(b": ");
}
