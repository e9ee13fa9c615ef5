//! What holds of every input. The call does nothing.
ghost use Rattle.std.specs.Prelude.{◌≡◌, ◌⊎◌, ℕ, List};
ghost use Rattle.rio_chars.specs.declared.chars.Char.{Char};
ghost use Rattle.rio_cli.specs.Decoding.{SpellsChars, BadWordAt};
ghost use Rattle.rio_cli.specs.Outputs.{InputIsAccepted, InputIsRefused};
ghost use Rattle.rio_cli.specs.declared.command.Command.{Command as Asked};

use io_script::every_io_text_is_a_script_or_refused;

/// An input that is refused has one line and one reason, and is not accepted; characters are
/// spelled by words that spell no others.
pub fn inputs_are_judged_once()
    ensures once { (command : Asked) (bytes : List ℕ) (line reason line2 reason2 : ℕ)
        → InputIsRefused command bytes line reason → InputIsRefused command bytes line2 reason2
        → (line ≡ line2) × (reason ≡ reason2) }
    ensures apart { (command : Asked) (bytes : List ℕ) (line reason : ℕ)
        → InputIsRefused command bytes line reason → ¬ InputIsAccepted command bytes }
    ensures one_spelling { (bytes : List ℕ) (chars others : List Char)
        → SpellsChars bytes chars → SpellsChars bytes others → others ≡ chars }
{}

/// Of each input of `decode` the words are characters, or one line is the first that has a word
/// which is none.
pub fn every_text_is_characters_or_refused()
    ensures { (bytes : List ℕ) → ((chars : List Char) × SpellsChars bytes chars)
        ⊎ ((line : ℕ) × BadWordAt bytes line) }
{}

/// Each input of each command, however long, is accepted, or is refused at a line for a reason.
pub fn every_input_is_accepted_or_refused()
    ensures { (command : Asked) (bytes : List ℕ) → InputIsAccepted command bytes
        ⊎ ((line : ℕ) × (reason : ℕ) × InputIsRefused command bytes line reason) }
{
    every_io_text_is_a_script_or_refused();
}
