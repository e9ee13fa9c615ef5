//! An open checker of a trace, and its lines.
ghost use Rattle.std.specs.Prelude.{◌≡◌, ◌<◌, false, IfOk, IfErr};
ghost use Rattle.library_calls.specs.Checks.{no_hit, hit_told as hit_told_of, IsOpenedChecker, CheckerRefused, CheckerTakes, CheckerEndsBy, TellsEnd, is_checker_spent};

use crate::status::CallStatus;
use crate::told::HitTold;
use std::alloc::Global;
use trace_check::{CheckEnd, Checker};

/// The most bytes of set-up lines.
const MOST: usize = 16_777_216;

/// No line is hit.
const NO_HIT: HitTold = HitTold { line: 0, reason: 0 };

/// A checker, and whether it takes no further line.
#[derive(Drop)]
pub struct OpenChecker {
    pub(crate) checker: Checker,
    pub(crate) spent: bool,
}

impl OpenChecker {
    /// A checker of a trace of the fabric that these set-up lines make, of at most 16,777,216 bytes
    /// in all. If a reason hits one of them, it tells which.
    pub fn new(alloc: Global, script: &[u8], hit: &mut HitTold) -> Result<OpenChecker, CallStatus>
        ensures made { IfOk result (λ opened. IsOpenedChecker script.now opened) }
        ensures none { IfOk result (λ _. hit.new ≡ no_hit) }
        ensures refused { IfErr result (λ status. CheckerRefused script.now hit.new status) }
    {
        *hit = NO_HIT;
        if script.len() > MOST {
            return Err(CallStatus::Argument);
        }
        match Checker::new(alloc, script) {
            Ok(checker) => Ok(OpenChecker {
                checker,
                spent: false,
            }),
            Err(CheckEnd::Refused(refusal)) => {
                *hit = hit_told(refusal.line, refusal.reason);
                Err(CallStatus::Refused)
            }
            Err(CheckEnd::Unlawful(_)) => unreachable!(),
            Err(CheckEnd::NoMemory) => Err(CallStatus::NoMemory),
        }
    }

    /// Takes the next line of a trace. If a reason hits it, or the edit before it, it tells which
    /// line, counted from 1, and the checker is spent.
    pub fn take(&mut self, alloc: Global, line: &[u8], hit: &mut HitTold) -> CallStatus
        ensures { CheckerTakes line.now hit.new self.old result self.new }
    {
        *hit = NO_HIT;
        if self.is_spent() {
            return CallStatus::Spent;
        }
        match self.checker.take(alloc, line) {
            Ok(()) => CallStatus::Done,
            Err(end) => {
                self.spent = true;
                ended(end, hit)
            }
        }
    }

    /// No line follows: tells how many steps the trace has. The checker is spent.
    pub fn end(&mut self, hit: &mut HitTold, steps: &mut u32) -> CallStatus
        ensures { CheckerEndsBy hit.new steps.new self.old result self.new }
    {
        *hit = NO_HIT;
        *steps = 0;
        if self.is_spent() {
            return CallStatus::Spent;
        }
        self.spent = true;
        match self.checker.end() {
            Ok(count) => {
                *steps = count;
                CallStatus::Done
            }
            Err(end) => ended(end, hit),
        }
    }

    /// Whether no further line is answered.
    fn is_spent(&self) -> bool
        ensures value { result ≡ is_checker_spent self.now }
        ensures few { result ≡ false → self.now.checker.lines < 4294967295 }
    {
        self.spent || self.checker.lines() == u32::MAX
    }
}

/// Tells why a checker has ended.
fn ended(end: CheckEnd, hit: &mut HitTold) -> CallStatus
    requires lawful { (refusal : _) → end ≡ CheckEnd.Refused refusal → ⊥ }
    requires none { hit.old ≡ no_hit }
    ensures { TellsEnd end hit.new result }
{
    match end {
        CheckEnd::Unlawful(found) => {
            *hit = hit_told(found.line, found.reason);
            CallStatus::Unlawful
        }
        CheckEnd::NoMemory => CallStatus::Cut,
        CheckEnd::Refused(_) => unreachable!(),
    }
}

/// What is told of a line that a reason hits.
fn hit_told(line: u32, reason: u8) -> HitTold
    ensures { result ≡ hit_told_of line reason }
{
    HitTold {
        line,
        reason: u32::from(reason),
    }
}
