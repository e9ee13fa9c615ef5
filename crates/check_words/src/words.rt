//! What of a word is to blame that names no node and no port, and is no character and no number.
ghost use Rattle.std.specs.Prelude.{◌≡◌, ◌≢◌, ◌==◌, ◌++◌, ◌∷◌, ℕ, false, All, IfSome, MatchOption};
ghost use Rattle.fabric_script.specs.declared.ports.PortRef.{PortRef as APortRef};
ghost use Rattle.fabric_script.specs.Texts.{port_text};
ghost use Rattle.trace_lines.specs.Words.{IsScriptPort};
ghost use Rattle.check_words.specs.Misfits.{IsBadPort, IsBadWord};
ghost use Rattle.check_words.specs.declared.kinds.Part.TheVariants as P;

use crate::misfits::WordFault;
use fabric_script::{SetUp, read_number};
use rio_chars::read_char;

/// What of a word is to blame that is to be a node.
pub(crate) fn node_fault(set_up: &SetUp, word: &[u8]) -> Option<WordFault>
    ensures { IfSome result (IsBadWord set_up.now.known P.Node word.now) }
{
    match set_up.read_node(word) {
        Some(_) => None,
        None => Some(WordFault::NoNode),
    }
}

/// What of a word is to blame that is to be a port.
pub(crate) fn port_fault(set_up: &SetUp, word: &[u8]) -> Option<WordFault>
    ensures { IfSome result (IsBadWord set_up.now.known P.Port word.now) }
{
    match set_up.read_port(word) {
        Some(_) => None,
        None => Some(no_port(set_up, word)),
    }
}

/// What of a word is to blame that is to be a port with a link.
pub(crate) fn linked_fault(set_up: &SetUp, word: &[u8]) -> Option<WordFault>
    ensures { IfSome result (IsBadWord set_up.now.known P.Linked word.now) }
{
    let Some(port) = set_up.read_port(word) else {
        return Some(no_port(set_up, word));
    };
    if set_up.is_linked(port) {
        None
    } else {
        Some(WordFault::Unlinked)
    }
}

/// What of a word is to blame that names no port.
fn no_port(set_up: &SetUp, word: &[u8]) -> WordFault
    requires { (p : APortRef) → IsScriptPort set_up.now.known p
        → word.now ≢ port_text set_up.now.known.names p }
    ensures { IsBadPort set_up.now.known word.now result }
{
    let Some((name, _)) = split_point(word) else {
        return WordFault::NoPoint;
    };
    match set_up.read_node(name) {
        Some(_) => WordFault::NoPort,
        None => WordFault::NoPortNode,
    }
}

/// What stands before the first point of a word, and what behind it.
fn split_point(word: &[u8]) -> Option<(&[u8], &[u8])>
    ensures { MatchOption result
        (All (λ byte. (byte == 46) ≡ false) word.now)
        (λ parts. word.now ≡ parts.0.now ++ 46 ∷ parts.1.now) }
{
    for (i, byte) in word.iter().enumerate() {
        if *byte == b'.' {
            return Some((&word[..i], &word[i + 1..]));
        }
    }
    None
}

/// What of a word is to blame that is to be a character.
pub(crate) fn character_fault(word: &[u8]) -> Option<WordFault>
    ensures { (known : _) → IfSome result (IsBadWord known P.Character word.now) }
{
    match read_char(word) {
        Some(_) => None,
        None => Some(WordFault::NoCharacter),
    }
}

/// What of a word is to blame that is to be a number of 32 bits.
pub(crate) fn number_fault(word: &[u8]) -> Option<WordFault>
    ensures { (known : _) → IfSome result (IsBadWord known P.Number word.now) }
{
    match read_number(word) {
        Some(_) => None,
        None => Some(WordFault::NoNumber),
    }
}

/// What of a word is to blame that is to say what an event is.
pub(crate) fn event_kind_fault(word: &[u8]) -> Option<WordFault>
    ensures { (known : _) → IfSome result (IsBadWord known P.EventKind word.now) }
{
    if word == b"symbol".as_slice() || word == b"packet".as_slice() {
        None
    } else {
        Some(WordFault::NoEventKind)
    }
}
