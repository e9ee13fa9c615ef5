//! The groups of four lanes, as characters.
ghost use Rattle.std.specs.Prelude.{◌≡◌, ◌++◌, ◌∷◌, ℕ, List, IfOk};
ghost use Rattle.code_groups.specs.Streams.{HaveTenBits};
ghost use Rattle.lane_sync.specs.Syncing.{LaneHearsAll};
ghost use Rattle.lane_rows.specs.Rows.{every_fourth};
ghost use Rattle.lane_rows.specs.RowHearing.{HearsRows, new_receivers};

use crate::joining::{from_align, join_columns};
use lane_sync::{LaneState, hear_all};
use rio_chars::Chars;
use std::alloc::{AllocError, Global};

/// Four lanes that hear groups.
#[derive(Clone, Copy, Debug, PartialEq, Eq)]
pub struct FourReceivers {
    /// Lane 0.
    pub a: LaneState,
    /// Lane 1.
    pub b: LaneState,
    /// Lane 2.
    pub c: LaneState,
    /// Lane 3.
    pub d: LaneState,
}

impl FourReceivers {
    /// Four lanes out of sync, each of which wants so many commas.
    pub fn new(commas: u8) -> FourReceivers
        ensures { result ≡ new_receivers commas }
    {
        FourReceivers {
            a: LaneState::new(commas),
            b: LaneState::new(commas),
            c: LaneState::new(commas),
            d: LaneState::new(commas),
        }
    }
}

/// What four lanes hear of groups in rows, each from its first align character on, and the lanes
/// after them.
pub fn hear_rows(
    alloc: Global,
    commas: u8,
    begin: FourReceivers,
    groups: &[u16],
) -> Result<(FourReceivers, Chars), AllocError>
    requires { HaveTenBits groups.now }
    ensures { IfOk result (λ heard. HearsRows commas begin groups.now heard.0 heard.1) }
{
    let (a, chars_a) = hear_lane(alloc, commas, begin.a, groups, 0)?;
    let (b, chars_b) = hear_lane(alloc, commas, begin.b, groups, 1)?;
    let (c, chars_c) = hear_lane(alloc, commas, begin.c, groups, 2)?;
    let (d, chars_d) = hear_lane(alloc, commas, begin.d, groups, 3)?;
    let chars = join_columns(
        alloc,
        from_align(chars_a.as_slice()),
        from_align(chars_b.as_slice()),
        from_align(chars_c.as_slice()),
        from_align(chars_d.as_slice()),
    )?;
    Ok((FourReceivers { a, b, c, d }, Chars::new(chars)))
}

/// What one lane hears of groups in rows, and the lane after them.
fn hear_lane(
    alloc: Global,
    commas: u8,
    begin: LaneState,
    groups: &[u16],
    lane: u8,
) -> Result<(LaneState, Chars), AllocError>
    requires { HaveTenBits groups.now }
    ensures { IfOk result (λ heard.
        LaneHearsAll commas begin (every_fourth lane groups.now) heard.0 heard.1) }
{
    let own = groups_of_lane(alloc, groups, lane)?;
    hear_all(alloc, commas, begin, own.as_slice())
}

/// The groups of one lane, after so many of the others.
fn groups_of_lane(alloc: Global, groups: &[u16], lane: u8) -> Result<Vec<u16>, AllocError>
    ensures { IfOk result (λ own. own.items ≡ every_fourth lane groups.now) }
{
    let mut own = Vec::with_capacity(alloc, groups.len() / 4)?;
    let mut wait = lane;
    let mut left = groups;
    while let [group, rest @ ..] = left {
        wait = take_turn(&mut own, wait, *group)?;
        left = rest;
    }
    Ok(own)
}

/// Keeps a group if it is the lane's turn, and answers how many of others come before the next one.
fn take_turn(own: &mut Vec<u16>, wait: u8, group: u16) -> Result<u8, AllocError>
    ensures { IfOk result (λ next. (rest : List ℕ) → own.new.items ++ every_fourth next rest
        ≡ own.old.items ++ every_fourth wait (group ∷ rest)) }
{
    if wait == 0 {
        own.push(group)?;
        return Ok(3);
    }
    Ok(wait - 1)
}
