//! What texts spell lines: each law is the contract of a function with an empty body.

ghost use Rattle.std.specs.Prelude.{◌≡◌, ℕ, List};
ghost use Rattle.fabric_script.specs.Known.{Known, IsOrderly};
ghost use Rattle.fabric_script.specs.Lines.{words_of};
ghost use Rattle.trace_lines.specs.Lines.{TraceLine as ALine};
ghost use Rattle.trace_lines.specs.Text.{trace_line_text};
ghost use Rattle.trace_lines.specs.Words.{trace_words, LineFits, SpellsLine};

/// A text that has the words of a line is its text.
pub fn words_are_the_text()
    ensures { (names : List (List ℕ)) (text : List ℕ) (line : ALine)
        → words_of text ≡ trace_words names line → text ≡ trace_line_text names line }
{}

/// A text spells one line of a trace at most.
pub fn one_trace_line()
    ensures { (known : Known) (text : List ℕ) (a b : ALine) → IsOrderly known
        → SpellsLine known text a → SpellsLine known text b → a ≡ b }
{}

/// The text of a line that fits spells it.
pub fn texts_spell_their_lines()
    ensures { (known : Known) (line : ALine) → IsOrderly known → LineFits known line
        → SpellsLine known (trace_line_text known.names line) line }
{}
