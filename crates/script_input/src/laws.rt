//! Laws of inputs, for whoever states something of one.
ghost use Rattle.std.specs.Prelude.{◌≡◌, ℕ, List};
ghost use Rattle.fabric_script.specs.declared.lines.Numbered.{Numbered};
ghost use Rattle.fabric_script.specs.Known.{Known};
ghost use Rattle.script_input.specs.Inputs.{IsInput, IsRefusedInput};

/// An input has one reading at most.
pub fn one_input()
    ensures { (bytes : List ℕ) (lines other_lines : List Numbered) (known other_known : Known)
        (texts other_texts : List (List ℕ)) → IsInput bytes lines known texts
        → IsInput bytes other_lines other_known other_texts
        → (lines ≡ other_lines) × (known ≡ other_known) × (texts ≡ other_texts) }
{}

/// An input is refused at one line, for one reason.
pub fn one_input_refusal()
    ensures { (bytes : List ℕ) (line reason other_line other_reason : ℕ)
        → IsRefusedInput bytes line reason → IsRefusedInput bytes other_line other_reason
        → (line ≡ other_line) × (reason ≡ other_reason) }
{}

/// An input that has a reading is not refused.
pub fn input_or_refusal()
    ensures { (bytes : List ℕ) (line reason : ℕ) (lines : List Numbered) (known : Known)
        (texts : List (List ℕ)) → IsRefusedInput bytes line reason
        → IsInput bytes lines known texts → ⊥ }
{}
