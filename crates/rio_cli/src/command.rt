//! What the words after the program's name ask for.
ghost use Rattle.std.specs.Prelude.{◌≡◌, ◌↔◌, ◌∷◌, [], ℕ, List, IsTrue, MatchOption, map};
ghost use Rattle.std.specs.String.{string_bytes};
ghost use Rattle.rio_cli.specs.Words.{AreUnknown, AsksCommand, AskNoContest, AskNoHost, AsksInput, AsksSoak};
ghost use Rattle.rio_cli.specs.declared.command.Command.{Command as ACommand};
ghost use Rattle.rio_cli.specs.declared.command.Command.TheVariants as Commands;

use fabric_script::{Name, read_name, read_number};

/// What is done with the input.
#[derive(Debug, Drop)]
pub enum Command {
    /// A script is carried out.
    Replay,
    /// Characters are read.
    Decode,
    /// A trace is checked.
    Check,
    /// Reads and writes of memory are carried out.
    Io,
    /// The node of this name numbers the fabric of a script.
    Enumerate(Name),
    /// The nodes of these names contest the fabric of a script, by the turns that the number stands
    /// for.
    Contest {
        first: Name,
        second: Name,
        seed: u32,
    },
}

/// What the program is asked for.
#[derive(Debug, Drop)]
pub(crate) enum Asked {
    /// The input is read, and this is done with it.
    Input(Command),
    /// The script that this number stands for is carried out. Nothing is read.
    Soak(u32),
}

/// What the words ask for, if the program knows them.
pub(crate) fn asked_by(words: &[String]) -> Option<Asked>
    ensures { MatchOption result (AreUnknown (map string_bytes words.now))
        (λ asked. AsksInput asked (map string_bytes words.now)) }
{
    if let Some(command) = command_of(words) {
        return Some(Asked::Input(command));
    }
    let seed = seed_of(words)?;
    Some(Asked::Soak(seed))
}

/// What the words ask to be done with the input, if they ask for that.
fn command_of(words: &[String]) -> Option<Command>
    ensures { MatchOption result
        ((command : ACommand) → ¬ AsksCommand command (map string_bytes words.now))
        (λ command. AsksCommand command (map string_bytes words.now)) }
{
    if is_one(words, "replay") {
        Some(Command::Replay)
    } else if is_one(words, "decode") {
        Some(Command::Decode)
    } else if is_one(words, "check") {
        Some(Command::Check)
    } else if is_one(words, "io") {
        Some(Command::Io)
    } else {
        command_at(words)
    }
}

/// What the words ask nodes that they name to do, if they ask for that.
fn command_at(words: &[String]) -> Option<Command>
    ensures { MatchOption result (AskNoHost (map string_bytes words.now))
        (λ command. AsksCommand command (map string_bytes words.now)) }
{
    if let Some(node) = host_of(words) {
        return Some(Command::Enumerate(node));
    }
    contest_of(words)
}

/// The name of the host that the words ask to number a fabric, if they ask for that.
fn host_of(words: &[String]) -> Option<Name>
    ensures { MatchOption result
        ((node : List ℕ) → ¬ AsksCommand (Commands.Enumerate node) (map string_bytes words.now))
        (λ node. AsksCommand (Commands.Enumerate node) (map string_bytes words.now)) }
{
    match words {
        [word, node] => host_in(word.as_str(), node.as_str()),
        _ => None,
    }
}

/// The contest that the words ask for, if they ask for one.
fn contest_of(words: &[String]) -> Option<Command>
    ensures { MatchOption result (AskNoContest (map string_bytes words.now))
        (λ command. AsksCommand command (map string_bytes words.now)) }
{
    match words {
        [word, first, second, number] => contest_in(
            word.as_str(),
            first.as_str(),
            second.as_str(),
            number.as_str(),
        ),
        _ => None,
    }
}

/// The contest, if these are its four words.
fn contest_in(word: &str, first: &str, second: &str, number: &str) -> Option<Command>
    ensures { MatchOption result
        (AskNoContest (word.now ∷ first.now ∷ second.now ∷ number.now ∷ []))
        (λ command. AsksCommand command (word.now ∷ first.now ∷ second.now ∷ number.now ∷ [])) }
{
    if word != "contest" {
        return None;
    }
    let first = read_name(first.as_bytes())?;
    let second = read_name(second.as_bytes())?;
    let seed = read_number(number.as_bytes())?;
    Some(Command::Contest {
        first,
        second,
        seed,
    })
}

/// The name of the host, if these are the two words of an enumeration.
fn host_in(word: &str, node: &str) -> Option<Name>
    ensures { MatchOption result
        ((name : List ℕ) → ¬ AsksCommand (Commands.Enumerate name) (word.now ∷ node.now ∷ []))
        (λ name. AsksCommand (Commands.Enumerate name) (word.now ∷ node.now ∷ [])) }
{
    if word == "enumerate" {
        read_name(node.as_bytes())
    } else {
        None
    }
}

/// The number of which the words ask for the soak, if they ask for that.
fn seed_of(words: &[String]) -> Option<u32>
    ensures { MatchOption result ((seed : ℕ) → ¬ AsksSoak seed (map string_bytes words.now))
        (λ seed. AsksSoak seed (map string_bytes words.now)) }
{
    match words {
        [word, number] => seed_in(word.as_str(), number.as_str()),
        _ => None,
    }
}

/// The number of a soak, if these are its two words.
fn seed_in(word: &str, number: &str) -> Option<u32>
    ensures { MatchOption result ((seed : ℕ) → ¬ AsksSoak seed (word.now ∷ number.now ∷ []))
        (λ seed. AsksSoak seed (word.now ∷ number.now ∷ [])) }
{
    if word == "soak" {
        read_number(number.as_bytes())
    } else {
        None
    }
}

/// Whether the words are this one.
fn is_one(words: &[String], wanted: &str) -> bool
    ensures { IsTrue result ↔ (map string_bytes words.now ≡ wanted.now ∷ []) }
{
    match words {
        [word] => word.as_str() == wanted,
        _ => false,
    }
}
