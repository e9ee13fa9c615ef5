//! What holds of every text and of all bytes: each law is the contract of a function with an empty
//! body.

ghost use Rattle.std.specs.Prelude.{◌≡◌, ◌≢◌, ◌↔◌, ℕ, true, List};
ghost use Rattle.fabric_script.specs.declared.lines.Line.{Line as ALine};
ghost use Rattle.fabric_script.specs.declared.lines.Numbered.{Numbered as NumberedLine};
ghost use Rattle.fabric_script.specs.declared.reasons.Reason.{Reason as AReason};
ghost use Rattle.fabric_script.specs.declared.lines.Line.TheVariants.{Large as ALarge};
ghost use Rattle.fabric_script.specs.Known.{Known as AKnown, IsOrderly, nothing};
ghost use Rattle.fabric_script.specs.LargeIds.{IsTaken, known_behind, large_id_of};
ghost use Rattle.fabric_script.specs.Reading.{HitsText, Spells, LeastHit};
ghost use Rattle.fabric_script.specs.Reasons.{reason_number};
ghost use Rattle.fabric_script.specs.Refusals.{id_is_taken};
ghost use Rattle.fabric_script.specs.LineTexts.{script_text};
ghost use Rattle.fabric_script.specs.Scripts.{IsScript, ScriptPasses, RefusedAt, renumbered};

/// A text is one line at most, whatever the earlier lines said.
pub fn one_line()
    ensures { (known : AKnown) (text : List ℕ) (a b : ALine) → IsOrderly known
        → Spells known text a → Spells known text b → a ≡ b }
{}

/// No reason hits a text that is a line.
pub fn line_or_reason()
    ensures { (known : AKnown) (text : List ℕ) (line : ALine) (reason : AReason) → IsOrderly known
        → Spells known text line → HitsText known text reason → ⊥ }
{}

/// One reason is the least that hits a text.
pub fn one_reason()
    ensures { (known : AKnown) (text : List ℕ) (a b : AReason)
        → LeastHit known text a → LeastHit known text b → reason_number a ≡ reason_number b }
{}

/// Bytes spell one script at most.
pub fn one_script()
    ensures { (bytes : List ℕ) (names other_names : List (List ℕ))
        (lines other_lines : List NumberedLine)
        → IsScript bytes names lines → IsScript bytes other_names other_lines
        → (names ≡ other_names) × (lines ≡ other_lines) }
{}

/// Bytes that are refused are refused at one line, for one reason.
pub fn one_refusal()
    ensures { (bytes : List ℕ) (line other_line reason other_reason : ℕ)
        → RefusedAt bytes line reason → RefusedAt bytes other_line other_reason
        → (line ≡ other_line) × (reason ≡ other_reason) }
{}

/// Bytes that spell a script are not refused.
pub fn script_or_refusal()
    ensures { (bytes : List ℕ) (names : List (List ℕ)) (lines : List NumberedLine) (line reason : ℕ)
        → IsScript bytes names lines → RefusedAt bytes line reason → ⊥ }
{}

/// A script that passes is spelled by its text, with its lines numbered anew.
pub fn printed_scripts_are_read()
    ensures { (names : List (List ℕ)) (lines : List NumberedLine) → ScriptPasses names lines
        → IsScript (script_text names lines) names (renumbered 1 lines) }
{}

/// A 16-bit device ID is taken behind lines exactly if another node has it by then; one that was
/// replaced is free again.
pub fn taken_large_ids()
    ensures { (names : List (List ℕ)) (lines : List NumberedLine) (node id : ℕ)
        → (id_is_taken (known_behind nothing names lines) (ALarge node id) ≡ true)
        ↔ IsTaken lines node id }
{}

/// No two nodes of a script that passes have one 16-bit device ID, other than 65535.
pub fn large_ids_are_apart()
    ensures { (names : List (List ℕ)) (lines : List NumberedLine) → ScriptPasses names lines
        → (m n : ℕ) → large_id_of lines m ≡ large_id_of lines n
        → large_id_of lines m ≢ 65535 → m ≡ n }
{}
