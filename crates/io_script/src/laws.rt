//! Laws of scripts of reads and writes, for whoever states something of one.
ghost use Rattle.std.specs.Prelude.{◌≡◌, ◌⊎◌, ℕ, List};
ghost use Rattle.fabric_script.specs.declared.lines.Numbered.{Numbered};
ghost use Rattle.fabric_script.specs.Known.{Known};
ghost use Rattle.io_script.specs.declared.lines.IoLine.{IoLine};
ghost use Rattle.io_script.specs.declared.lines.NumberedIo.{NumberedIo};
ghost use Rattle.io_script.specs.IoLines.{io_line_text};
ghost use Rattle.io_script.specs.IoReading.{Earlier, SpellsIo};
ghost use Rattle.io_script.specs.IoScripts.{IsIoRefused, IsIoScript};

/// Bytes spell one script at most.
pub fn one_io_script()
    ensures { (bytes : List ℕ) (names other_names : List (List ℕ))
        (set_up other_set_up : List Numbered) (lines other_lines : List NumberedIo)
        → IsIoScript bytes names set_up lines
        → IsIoScript bytes other_names other_set_up other_lines
        → (names ≡ other_names) × (set_up ≡ other_set_up) × (lines ≡ other_lines) }
{}

/// Bytes that are refused are refused at one line, for one reason.
pub fn one_io_refusal()
    ensures { (bytes : List ℕ) (line reason other_line other_reason : ℕ)
        → IsIoRefused bytes line reason → IsIoRefused bytes other_line other_reason
        → (line ≡ other_line) × (reason ≡ other_reason) }
{}

/// Bytes that spell a script are not refused.
pub fn io_script_or_refusal()
    ensures { (bytes : List ℕ) (names : List (List ℕ)) (set_up : List Numbered)
        (lines : List NumberedIo) (line reason : ℕ) → IsIoScript bytes names set_up lines
        → IsIoRefused bytes line reason → ⊥ }
{}

/// A text that is a line is the text of the line.
pub fn io_lines_are_their_texts()
    ensures { (known : Known) (earlier : Earlier) (text : List ℕ) (line : IoLine)
        → SpellsIo known earlier text line → text ≡ io_line_text known.names line }
{}

/// Bytes, however many, spell a script of reads and writes, or are refused at a line for a reason.
pub fn every_io_text_is_a_script_or_refused()
    ensures { (bytes : List ℕ)
        → ((names : List (List ℕ)) × (set_up : List Numbered) × (lines : List NumberedIo)
        × IsIoScript bytes names set_up lines)
        ⊎ ((line : ℕ) × (reason : ℕ) × IsIoRefused bytes line reason) }
{}
