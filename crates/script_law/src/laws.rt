//! Laws of every text, each the contract of a function with an empty body.

ghost use Rattle.std.specs.Prelude.{ℕ, ◌⊎◌, List};
ghost use Rattle.fabric_script.specs.declared.lines.Line.{Line};
ghost use Rattle.fabric_script.specs.declared.lines.Numbered.{Numbered};
ghost use Rattle.fabric_script.specs.declared.reasons.Reason.{Reason};
ghost use Rattle.fabric_script.specs.Known.{Known, IsOrderly};
ghost use Rattle.fabric_script.specs.Reading.{Spells, LeastHit};
ghost use Rattle.fabric_script.specs.Scripts.{IsScript, IsScriptIn, RefusedAt, RefusedIn};
ghost use Rattle.fabric_script.specs.SetUps.{KnownIsReady, IsRefused};
ghost use Rattle.script_input.specs.Inputs.{IsInput, IsRefusedInput};

/// Bytes spell a script, or are refused at a line for a reason. So they do in each mode: also among
/// set-up lines alone.
pub fn every_text_is_a_script_or_refused()
    ensures script { (bytes : List ℕ)
        → ((names : List (List ℕ)) × (lines : List Numbered) × IsScript bytes names lines)
        ⊎ ((line : ℕ) × (reason : ℕ) × RefusedAt bytes line reason) }
    ensures in_mode { (mode : _) (bytes : List ℕ)
        → ((names : List (List ℕ)) × (lines : List Numbered) × IsScriptIn mode bytes names lines)
        ⊎ ((line : ℕ) × (reason : ℕ) × RefusedIn mode bytes line reason) }
{}

/// A text is a line, whatever the earlier lines said, or a reason is the least that hits it. So it
/// is behind set-up lines, where one event alone may stand.
pub fn every_line_is_spelled_or_refused()
    ensures line { (known : Known) (text : List ℕ) → IsOrderly known
        → ((line : Line) × Spells known text line)
        ⊎ ((reason : Reason) × LeastHit known text reason) }
    ensures event { (known : Known) (text : List ℕ) → KnownIsReady known
        → ((line : Line) × Spells known text line)
        ⊎ ((number : ℕ) × IsRefused known text number) }
{}

/// An input, of however many bytes, is set-up lines that no reason hits, a line `---` and the lines
/// behind it; or it is refused at a line for a reason.
pub fn every_input_is_parted_or_refused()
    ensures { (bytes : List ℕ)
        → ((lines : List Numbered) × (known : Known) × (texts : List (List ℕ))
        × IsInput bytes lines known texts)
        ⊎ ((line : ℕ) × (reason : ℕ) × IsRefusedInput bytes line reason) }
{}
