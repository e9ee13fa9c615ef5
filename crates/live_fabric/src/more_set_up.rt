//! Lines of set-up behind those that are there.
ghost use Rattle.std.specs.Prelude.{◌≡◌, ◌+◌, ◌<◌, ◌≤◌, ◌++◌, ◌^◌, List, ℕ, false, length, IfOk, IfSome, OnErr, MatchOption};
ghost use Rattle.fabric_script.specs.Known.{Known as AKnown};
ghost use Rattle.fabric_script.specs.Scripts.{KeepsLine, is_skipped, pieces_of};
ghost use Rattle.fabric_script.specs.SetUps.{for_event, for_set_up, IsRefused};
ghost use Rattle.live_lines.specs.Lines.{with_feed};
ghost use Rattle.live_fabric.specs.Holding.{HasWholeLines};
ghost use Rattle.live_fabric.specs.Answers.{AreSetUp, AreNoSetUp};

use crate::set_up_text::SetUpText;
use fabric_script::{EventEnd, ScriptEnd, SetUp, read_set_up};
use rio_chars::NoMemory;
use std::alloc::Global;

/// Reads a line that was put behind so many others, or tells the reason why it is none of set-up.
/// Line feeds within it make more lines of it, and then the whole text is read anew.
pub(crate) fn read_added(
    alloc: Global,
    set_up: &mut SetUp,
    text: &SetUpText,
    count: u32,
    line: &[u8],
) -> Result<Option<u8>, NoMemory>
    requires few { length text.now.bytes.items ≤ 16777216 }
    requires room { length set_up.old.known.links ≤ length text.now.bytes.items }
    requires fits { count + 1 < 2 ^ 32 }
    requires says { is_skipped line.now ≡ false }
    ensures read { IfOk result (λ reason. (before : List ℕ) → AreSetUp before set_up.old
        → HasWholeLines count before → text.now.bytes.items ≡ before ++ with_feed line.now
        → text.now.count ≡ count + length (pieces_of line.now)
        → MatchOption reason (AreSetUp text.now.bytes.items set_up.new)
        (AreNoSetUp text.now.bytes.items)) }
    ensures refused { IfOk result (λ reason. IfSome reason (λ _. set_up.new ≡ set_up.old)) }
    ensures links { length set_up.new.known.links ≤ length text.now.bytes.items + 1 }
{
    if text.count() == count + 1 {
        read_more(alloc, set_up, count + 1, line)
    } else {
        read_anew(alloc, set_up, text.as_slice())
    }
}

/// Reads a line of set-up more, with this number, or tells the reason of its refusal.
fn read_more(
    alloc: Global,
    set_up: &mut SetUp,
    number: u32,
    line: &[u8],
) -> Result<Option<u8>, NoMemory>
    requires room { length set_up.old.known.links < 33554432 }
    ensures read { IfOk result (λ reason. MatchOption reason
        ((end : AKnown) × KeepsLine (for_set_up set_up.old.known) set_up.old.lines number line.now
        end set_up.new.lines × (set_up.new.known ≡ for_event end))
        (λ reason. IsRefused (for_set_up set_up.old.known) line.now reason
        × (set_up.new ≡ set_up.old))) }
    ensures links { length set_up.new.known.links ≤ length set_up.old.known.links + 1 }
{
    match set_up.take_line(alloc, number, line) {
        Ok(()) => Ok(None),
        Err(EventEnd::Refused(reason)) => Ok(Some(reason)),
        Err(EventEnd::NoMemory) => Err(NoMemory),
    }
}

/// Reads a text as set-up lines in place of those that are there, or tells the reason why one of
/// its lines is refused.
fn read_anew(alloc: Global, set_up: &mut SetUp, text: &[u8]) -> Result<Option<u8>, NoMemory>
    requires { length text.now ≤ 16777216 }
    ensures read { IfOk result (λ reason. MatchOption reason (AreSetUp text.now set_up.new)
        (λ number. AreNoSetUp text.now number × (set_up.new ≡ set_up.old))) }
    ensures failed { OnErr result (set_up.new ≡ set_up.old) }
{
    match read_set_up(alloc, text) {
        Ok(read) => {
            *set_up = read;
            Ok(None)
        }
        Err(ScriptEnd::Refused(refusal)) => Ok(Some(refusal.reason)),
        Err(ScriptEnd::NoMemory) => Err(NoMemory),
    }
}
