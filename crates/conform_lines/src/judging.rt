//! Whether an answer may differ from the right one.
ghost use Rattle.std.specs.Prelude.{◌≡◌, ◌↔◌, ◌+◌, ◌++◌, IsTrue, IsFalse, IfOk, IfSome, OnOk, All, map, List};
ghost use Rattle.conform_lines.specs.declared.counting.Counted.{Counted as ACounted};
ghost use Rattle.conform_lines.specs.declared.judging.Owed.{Owed as AnOwed};
ghost use Rattle.conform_lines.specs.Tolerances.{IsAllowedAnswer, IsInTime, JudgeState, Pays, SaysAlike, judge_start, leeway_of, owed_since};

use crate::counting::{Counted, Counts, count_answer, counts_same};
use port_lines::PortRequest;
use rio_chars::NoMemory;
use rio_framer::Framer;
use std::alloc::{AllocError, Global};
use std::collections::VecDeque;
use std::marker::Model;

/// How many turns late something may be sent.
const MOST_LATE: u64 = 8;

/// Something that the right answers have sent, and a device has not.
#[derive(Drop)]
pub struct Owed {
    /// How many turns were asked for by then.
    turns: u64,
    counted: Counted,
}

/// What a line asks for, as far as it bears on what is allowed.
#[derive(Clone, Copy, Debug, PartialEq, Eq)]
pub struct Leeway {
    /// The turns that it asks for.
    turns: u32,
    /// It asks for a state, which is the device's own.
    is_state: bool,
}

/// What a request bears on what is allowed.
pub fn leeway_of(request: &PortRequest) -> Leeway
    ensures { result ≡ leeway_of request.now }
{
    match request {
        PortRequest::Turn(count) => Leeway {
            turns: *count,
            is_state: false,
        },
        PortRequest::State => Leeway {
            turns: 0,
            is_state: true,
        },
        _ => Leeway {
            turns: 0,
            is_state: false,
        },
    }
}

/// A judge of the answers of a device, which may differ from the right ones as far as is allowed.
#[derive(Drop)]
pub struct Judge {
    /// The reader of what the right answers send.
    right: Framer,
    /// The reader of what the device sends.
    came: Framer,
    turns: u64,
    owed: VecDeque<Owed>,
}

impl Model for Judge {
    ghost use Rattle.conform_lines.specs.Tolerances.{JudgeState};

    ghost Value = { JudgeState };

    ghost view = { λ judge. record {
      right = judge.right.place;
      came = judge.came.place;
      turns = judge.turns;
      owed = judge.owed.items;
    } };
}

impl Judge {
    /// Before the first line.
    pub fn new(alloc: Global) -> Judge
        ensures { result ≡ judge_start }
    {
        Judge {
            right: Framer::new(),
            came: Framer::new(),
            turns: 0,
            owed: VecDeque::new(alloc),
        }
    }

    /// Whether an answer is allowed for the right one, to a line that bears so much. If it is not,
    /// or memory is not given, the judge is of no use any more.
    pub fn allows(
        &mut self,
        alloc: Global,
        leeway: Leeway,
        right: &[u8],
        came: &[u8],
    ) -> Result<bool, NoMemory>
        ensures allowed { IfOk result (λ allowed. IsTrue allowed
            → IsAllowedAnswer leeway right.now came.now self.old self.new) }
        ensures other { IfOk result (λ allowed. IsFalse allowed
            → (next : JudgeState) → ¬ IsAllowedAnswer leeway right.now came.now self.old next) }
    {
        let right = count_answer(alloc, &mut self.right, right)?;
        let came = count_answer(alloc, &mut self.came, came)?;
        let Some(turns) = self.turns.checked_add(u64::from(leeway.turns)) else {
            return Err(NoMemory);
        };
        self.turns = turns;
        owe(&mut self.owed, turns, right.sent)?;
        if !says_alike(leeway, right.other.as_slice(), came.other.as_slice()) {
            return Ok(false);
        }
        Ok(pay_in_time(&mut self.owed, came.sent.as_slice(), turns))
    }
}

/// Whether the other lines of an answer are the same, unless they are those of a state.
fn says_alike(leeway: Leeway, right: &[u8], came: &[u8]) -> bool
    ensures { IsTrue result ↔ SaysAlike leeway right.now came.now }
{
    leeway.is_state || came == right
}

/// Takes what a device sends away from the front of what it owes, and tells whether it sends
/// nothing else, and owes nothing that is too late.
fn pay_in_time(owed: &mut VecDeque<Owed>, sent: &[Counted], turns: u64) -> bool
    ensures pays { IsTrue result
        → Pays owed.old.items sent.now owed.new.items × IsInTime turns owed.new.items }
    ensures other { IsFalse result → (left : List AnOwed)
        → Pays owed.old.items sent.now left → ¬ IsInTime turns left }
{
    pay(owed, sent) && are_in_time(owed, turns)
}

/// Adds what the right answer sends to what is owed.
fn owe(owed: &mut VecDeque<Owed>, turns: u64, sent: Vec<Counted>) -> Result<(), AllocError>
    ensures { OnOk result
        (owed.new.items ≡ owed.old.items ++ map (owed_since turns) sent.items) }
{
    for counted in sent {
        owed.push_back(Owed { turns, counted })?;
    }
    Ok(())
}

/// Takes what a device sends away from the front of what it owes. If it sends anything else, this
/// is told.
fn pay(owed: &mut VecDeque<Owed>, sent: &[Counted]) -> bool
    ensures pays { IsTrue result → Pays owed.old.items sent.now owed.new.items }
    ensures other { IsFalse result
        → (left : List AnOwed) → ¬ Pays owed.old.items sent.now left }
{
    let mut left = sent;
    while let [counted, rest @ ..] = left {
        match owed.pop_front() {
            Some(first) if counts_same(&first.counted, counted) => {}
            _ => return false,
        }
        left = rest;
    }
    true
}

/// Whether nothing is owed that is too late.
fn are_in_time(owed: &VecDeque<Owed>, turns: u64) -> bool
    ensures { IsTrue result ↔ IsInTime turns owed.now.items }
{
    owed.iter()
        .all(|its| turns <= its.turns.saturating_add(MOST_LATE))
}
