//! A lane that hears groups.
ghost use Rattle.std.specs.Prelude.{◌≡◌, ◌<◌, ◌/◌, ◌==◌, [], IfOk, IsTrue};
ghost use Rattle.rio_chars.specs.declared.chars.Char.{Char};
ghost use Rattle.code_groups.specs.declared.disparity.Disparity.TheVariants.{Negative};
ghost use Rattle.code_groups.specs.Commas.{is_comma};
ghost use Rattle.code_groups.specs.Streams.{HaveTenBits};
ghost use Rattle.lane_sync.specs.declared.lane.LaneState.TheVariants.{Out, In};
ghost use Rattle.lane_sync.specs.Syncing.{lane_out, lane_in, comma_disparity, read_at, is_invalid, out_goes, in_goes, told_char, LaneHears, LaneHearsAll};

use code_groups::{Disparity, decode};
use rio_chars::{Char, Chars};
use std::alloc::{AllocError, Global};

/// How many invalid groups lose sync.
const SPARE: u8 = 3;

/// How many valid groups in a row make up for an invalid one.
const MORE: u8 = 255;

/// A lane out of sync: how many commas are missing, and the disparity.
#[derive(Clone, Copy, Debug, PartialEq, Eq)]
pub struct LaneOut {
    missing: u8,
    disparity: Disparity,
}

/// A lane in sync: how many invalid groups lose it, how many valid ones are missing until one is
/// made up for, and the disparity.
#[derive(Clone, Copy, Debug, PartialEq, Eq)]
pub struct LaneIn {
    spare: u8,
    more: u8,
    disparity: Disparity,
}

/// A lane.
#[derive(Clone, Copy, Debug, PartialEq, Eq)]
pub enum LaneState {
    /// It is out of sync.
    Out(LaneOut),
    /// It is in sync.
    In(LaneIn),
}

/// What a group does.
#[derive(Clone, Copy, Debug, PartialEq, Eq)]
pub struct LaneStep {
    /// The lane after it.
    pub state: LaneState,
    /// The character that is heard, `Invalid` as long as the lane is out of sync.
    pub character: Char,
}

impl LaneState {
    /// A lane out of sync that wants so many commas.
    pub fn new(commas: u8) -> LaneState
        ensures { result ≡ lane_out commas Negative }
    {
        LaneState::Out(LaneOut {
            missing: commas,
            disparity: Disparity::Negative,
        })
    }

    /// A group on a lane that wants so many commas.
    pub fn hear(self, commas: u8, group: u16) -> LaneStep
        requires { group < 1024 }
        ensures { LaneHears commas self group result.state result.character }
    {
        match self {
            LaneState::Out(lane) => lane.hear(commas, group),
            LaneState::In(lane) => lane.hear(commas, group),
        }
    }
}

impl LaneOut {
    /// A group on a lane that wants so many commas.
    pub fn hear(self, commas: u8, group: u16) -> LaneStep
        requires { group < 1024 }
        ensures { LaneHears commas (Out self) group result.state result.character }
    {
        let before = self.reads_at(commas, group);
        let heard = decode(before, group);
        let invalid = has_none(heard.character);
        let state = after_out(
            commas,
            self.missing,
            heard.disparity,
            invalid,
            has_comma(group),
        );
        LaneStep {
            state,
            character: told(state, heard.character),
        }
    }

    /// The disparity at which a group is read.
    fn reads_at(self, commas: u8, group: u16) -> Disparity
        ensures { result ≡ read_at commas (Out self) group }
    {
        if self.missing == commas {
            disparity_of_comma(group)
        } else {
            self.disparity
        }
    }
}

impl LaneIn {
    /// A group on a lane that wants so many commas once it is out of sync.
    pub fn hear(self, commas: u8, group: u16) -> LaneStep
        requires { group < 1024 }
        ensures { LaneHears commas (In self) group result.state result.character }
    {
        let heard = decode(self.disparity, group);
        let invalid = has_none(heard.character);
        let state = after_in(commas, self.spare, self.more, heard.disparity, invalid);
        LaneStep {
            state,
            character: told(state, heard.character),
        }
    }
}

/// What is heard of groups, one after another, and the lane after them.
pub fn hear_all(
    alloc: Global,
    commas: u8,
    begin: LaneState,
    groups: &[u16],
) -> Result<(LaneState, Chars), AllocError>
    requires { HaveTenBits groups.now }
    ensures { IfOk result (λ heard. LaneHearsAll commas begin groups.now heard.0 heard.1) }
{
    let mut chars = Vec::with_capacity(alloc, groups.len())?;
    let mut state = begin;
    let mut left = groups;
    while let [group, rest @ ..] = left {
        let step = state.hear(commas, *group);
        chars.push(step.character)?;
        state = step.state;
        left = rest;
    }
    Ok((state, Chars::new(chars)))
}

fn after_out(commas: u8, missing: u8, after: Disparity, invalid: bool, comma: bool) -> LaneState
    ensures { result ≡ out_goes commas missing after invalid comma }
{
    if invalid {
        out(commas, after)
    } else if !comma {
        out(missing, after)
    } else if missing <= 1 {
        in_sync(SPARE, MORE, after)
    } else {
        out(missing - 1, after)
    }
}

fn after_in(commas: u8, spare: u8, more: u8, after: Disparity, invalid: bool) -> LaneState
    ensures { result ≡ in_goes commas spare more after invalid }
{
    if invalid {
        if spare <= 1 {
            out(commas, after)
        } else {
            in_sync(spare - 1, MORE, after)
        }
    } else if spare >= SPARE {
        in_sync(spare, more, after)
    } else if more <= 1 {
        in_sync(spare + 1, MORE, after)
    } else {
        in_sync(spare, more - 1, after)
    }
}

fn out(missing: u8, disparity: Disparity) -> LaneState
    ensures { result ≡ lane_out missing disparity }
{
    LaneState::Out(LaneOut { missing, disparity })
}

fn in_sync(spare: u8, more: u8, disparity: Disparity) -> LaneState
    ensures { result ≡ lane_in spare more disparity }
{
    LaneState::In(LaneIn {
        spare,
        more,
        disparity,
    })
}

/// What is told of a group that was read so.
fn told(state: LaneState, read: Char) -> Char
    ensures { result ≡ told_char state read }
{
    match state {
        LaneState::Out(_) => Char::Invalid,
        LaneState::In(_) => read,
    }
}

fn has_none(c: Char) -> bool
    ensures { result ≡ is_invalid c }
{
    match c {
        Char::Data(_) | Char::Special(_) => false,
        Char::Invalid => true,
    }
}

fn has_comma(group: u16) -> bool
    ensures { result ≡ is_comma group }
{
    group / 8 == 0b0011111 || group / 8 == 0b1100000
}

fn disparity_of_comma(group: u16) -> Disparity
    ensures { result ≡ comma_disparity group }
{
    if group / 8 == 0b0011111 {
        Disparity::Negative
    } else {
        Disparity::Positive
    }
}
