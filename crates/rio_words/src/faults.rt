//! What is wrong with words that ask for no command.
ghost use Rattle.std.specs.Prelude.{◌≡◌, false, map};
ghost use Rattle.std.specs.String.{string_bytes};
ghost use Rattle.rio_chars.specs.Unless.{WritesUnless};
ghost use Rattle.rio_words.specs.Faults.{IsFaultOf, IsFaultOfFirst, first_of as first_of_words, fault_text, fault_begin as fault_begin_of, fault_end as fault_end_of};

use rio_chars::{Sink, write_unless};

/// What is wrong with the words after the program's name, if they ask for no command: by the first.
#[derive(Clone, Copy, Debug, PartialEq, Eq)]
pub enum WordsFault {
    /// There is none.
    NoWord,
    /// No command is called so.
    NoCommand,
    /// It is that of a command that reads input and takes no further word.
    Further,
    /// That of an enumeration, which takes the name of a node.
    Node,
    /// That of a contest, which takes the names of two nodes and a number.
    Nodes,
    /// That of a soak, which takes a number.
    Number,
}

/// Says what is wrong with words that ask for no command. The answer is whether a write failed.
pub(crate) fn write_fault<M: Sink>(messages: &mut M, word: &[u8], fault: WordsFault) -> bool
    ensures { WritesUnless false (M.written messages.old) (M.faults messages.old)
        result (M.written messages.new) (M.faults messages.new) (fault_text word.now fault) }
{
    let failed = write_unless(false, messages, fault_begin(fault));
    let failed = write_unless(failed, messages, word);
    write_unless(failed, messages, fault_end(fault))
}

/// The first of some words.
pub(crate) fn first_of(words: &[String]) -> &[u8]
    ensures { result.now ≡ first_of_words (map string_bytes words.now) }
{
    match words {
        [word, ..] => word.as_str().as_bytes(),
        [] => b"",
    }
}

/// What is wrong with words if they ask for no command.
pub(crate) fn fault_of(words: &[String]) -> WordsFault
    ensures { IsFaultOf result (map string_bytes words.now) }
{
    match words {
        [word, ..] => fault_behind(word.as_str().as_bytes()),
        [] => WordsFault::NoWord,
    }
}

/// What is wrong if this is the first word.
fn fault_behind(word: &[u8]) -> WordsFault
    ensures { IsFaultOfFirst result word.now }
{
    match word {
        b"replay" | b"decode" | b"check" | b"io" => WordsFault::Further,
        b"enumerate" => WordsFault::Node,
        b"contest" => WordsFault::Nodes,
        b"soak" => WordsFault::Number,
        _ => WordsFault::NoCommand,
    }
}

/// What is said before the first word.
fn fault_begin(fault: WordsFault) -> &'static [u8]
    ensures { result.now ≡ fault_begin_of fault }
{
    match fault {
        WordsFault::NoWord => b"rio: no command is given",
        WordsFault::NoCommand => b"rio: no command is called ",
        _ => b"rio: ",
    }
}

/// What is said after it.
fn fault_end(fault: WordsFault) -> &'static [u8]
    ensures { result.now ≡ fault_end_of fault }
{
    match fault {
        WordsFault::NoWord | WordsFault::NoCommand => b"; rio --help has them\n",
        WordsFault::Further =>
            b" takes no further word: it reads standard input, as < FILE gives it\n",
        WordsFault::Node => { b" takes the name of an endpoint, as in rio enumerate A < SCRIPT\n" }
        WordsFault::Nodes => {
            b" takes the names of two endpoints and a number, as in rio contest A B 1 < SCRIPT\n"
        }
        WordsFault::Number => b" takes a number from 0 to 4294967295, as in rio soak 1\n",
    }
}
