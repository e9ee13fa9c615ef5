//! What holds of every device. The calls do nothing.
ghost use Rattle.std.specs.Prelude.{◌<◌, ◌^◌, [], All, Bool, List, Option, Some, length, ℕ};
ghost use Rattle.port_lines.specs.Clocks.{ClockedState};
ghost use Rattle.conform_lines.specs.Tolerances.{judge_start};
ghost use Rattle.rio_conform.specs.Plays.{Plays};
ghost use Rattle.rio_conform.specs.Reference.{AsksSomething, ReferenceGives};
ghost use Rattle.rio_conform.specs.RightDevices.{GivesRightAnswers, PassesOrStops};
ghost use Rattle.rio_conform.specs.declared.verdict.Verdict.{Verdict as AVerdict};

/// A device passes that gives the answers of the tables to lines that ask for something: strictly
/// and with tolerance the only other verdict is how the program itself ended.
pub fn right_devices_pass()
    ensures { (strict : Bool) (port : ClockedState) (lines : List (List ℕ)) (given : List ℕ)
        (verdict : AVerdict) (left_after written written_after : Option (List ℕ))
        → GivesRightAnswers port lines given
        → Plays strict port judge_start lines verdict (Some given) left_after written written_after
        → PassesOrStops verdict }
{}

/// `rio_port` passes by its own contract: if a device reads what it is asked in a scenario, and
/// gives what that contract promises of a run that is done, the scenario passes, strictly and with
/// tolerance, or the program itself ended.
pub fn the_reference_passes()
    ensures { (strict : Bool) (port : ClockedState) (lines : List (List ℕ)) (verdict : AVerdict)
        (asked given : List ℕ) (left_after : Option (List ℕ)) → length lines < 2 ^ 64
        → All (λ line. AsksSomething line) lines → ReferenceGives port asked given
        → Plays strict port judge_start lines verdict (Some given) left_after (Some [])
        (Some asked)
        → PassesOrStops verdict }
{}
