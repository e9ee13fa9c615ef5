//! What lawful traces are: each law is the contract of a function with an empty body.

ghost use Rattle.std.specs.Prelude.{◌↔◌, ◌+◌, ℕ, List, length};
ghost use Rattle.fabric_script.specs.declared.lines.Numbered.{Numbered};
ghost use Rattle.fabric_script.specs.Known.{Known, IsOrderly};
ghost use Rattle.fabric_script.specs.SetUps.{SetUpLines};
ghost use Rattle.fabric_model.specs.Laws.Lawful.{Lawful};
ghost use Rattle.fabric_model.specs.Network.{Network};
ghost use Rattle.script_input.specs.Inputs.{set_up_texts, texts_of};
ghost use Rattle.trace_lines.specs.Lines.{TraceLine as ALine, steps_of};
ghost use Rattle.fabric_trace.specs.Runs.{bare, set_up_all, Runs};
ghost use Rattle.fabric_trace.specs.SetUps.{IsSetUp, MaySetUpAll};
ghost use Rattle.trace_check.specs.Checks.{PassAll, net_after};
ghost use Rattle.trace_check.specs.Lawful.{IsLawful, IsUnlawful};
ghost use Rattle.trace_check.specs.declared.checker.Checker.{Checker as AChecker};
ghost use Rattle.trace_check.specs.declared.checking.Unlawful.{Unlawful as AHit};
ghost use Rattle.trace_check.specs.Outcomes.{HasLawful, HasUnlawful};
ghost use Rattle.trace_check.specs.SoFar.{IsLawfulSoFar};
ghost use Rattle.trace_check.specs.Starting.{net_of};
ghost use Rattle.trace_check.specs.Taken.{ArePartsOf, HasTakenLines, IsHitAt};

/// No reason of wires, steps, holds, frees and packets sent hits a line of a trace of a script.
pub fn every_trace_is_lawful()
    ensures { (script : List Numbered) (lines : List ALine) → MaySetUpAll bare script
        → Runs script lines → PassAll (set_up_all bare script) lines }
{}

/// The steps of lines that none of these reasons hits are legal, and all laws of legal steps hold
/// of them.
pub fn lawful_traces_are_legal()
    ensures { (net : Network) (lines : List ALine) → IsSetUp net → PassAll net lines
        → Lawful net (steps_of lines) (net_after net lines) }
{}

/// Texts that are a lawful trace have no line that a reason hits.
pub fn lawful_or_unlawful()
    ensures { (known : Known) (net : Network) (texts : List (List ℕ)) (steps line reason : ℕ)
        → IsOrderly known → IsLawful known net texts steps
        → IsUnlawful known net texts line reason → ⊥ }
{}

/// The steps of an input that is lawful are legal in the network that its set-up lines make, and
/// all laws of legal steps hold of them.
pub fn lawful_inputs_are_legal()
    ensures { (bytes : List ℕ) (steps : ℕ) (is : HasLawful bytes steps)
        → Lawful (set_up_all bare is.set_up) (steps_of is.lawful.lines)
        (net_after (set_up_all bare is.set_up) is.lawful.lines) }
{}

/// Lines that a checker has taken are lawful so far: they spell lines that no reason hits, if the
/// next line says that a wire is too short.
pub fn taken_lines_are_lawful_so_far()
    ensures { (checker : AChecker) (texts : List (List ℕ)) → IsOrderly checker.set_up.known
        → HasTakenLines texts checker
        → IsLawfulSoFar checker.set_up.known (net_of checker.set_up) texts }
{}

/// A checker that takes the lines behind the set-up of an input says what a check of the whole
/// input says: so many steps, or the same line, counted over all lines, and the same reason.
pub fn a_checker_agrees()
    ensures lawful { (bytes : List ℕ) (set_up : SetUpLines) (texts : List (List ℕ)) (steps : ℕ)
        → ArePartsOf bytes set_up texts
        → IsLawful set_up.known (net_of set_up) texts steps ↔ HasLawful bytes steps }
    ensures unlawful { (bytes : List ℕ) (set_up : SetUpLines) (texts : List (List ℕ)) (hit : AHit)
        → ArePartsOf bytes set_up texts
        → IsHitAt set_up texts hit
        ↔ HasUnlawful bytes (length (set_up_texts (texts_of bytes)) + 1 + hit.line) hit.reason }
{}
