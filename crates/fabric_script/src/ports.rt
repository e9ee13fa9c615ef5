//! The ports that a script names.

ghost use Rattle.std.specs.Prelude.{◌≡◌, ◌≢◌, ℕ, ◌<◌, ◌==◌, true, false, List, ◌∷◌, ◌++◌, All, MatchOption};
ghost use Rattle.fabric_script.specs.Names.{is_name};
ghost use Rattle.fabric_script.specs.Hits.{point_text};
ghost use Rattle.fabric_script.specs.Known.{same_port};

use crate::names::is_name;
use crate::numbers::read_number;

/// A port: the number of its node, in the order of the nodes' lines, and its number at that node.
#[derive(Clone, Copy, Debug, PartialEq, Eq)]
pub struct PortRef {
    pub node: u8,
    pub port: u8,
}

/// Whether two ports are one.
pub(crate) fn same_port(p: PortRef, q: PortRef) -> bool
    ensures { result ≡ same_port p q }
{
    p.node == q.node && p.port == q.port
}

/// The name and the number of a word that is a name, a point and a number of a port, 0 to 15.
pub(crate) fn split_port(word: &[u8]) -> Option<(&[u8], u8)>
    ensures { MatchOption result
        ((name : List ℕ) (port : ℕ) → is_name name ≡ true → port < 16
        → word.now ≢ point_text name port)
        (λ read. (is_name read.0.now ≡ true) × (read.1 < 16)
        × (word.now ≡ point_text read.0.now read.1)) }
{
    let (name, number) = split_point(word)?;
    if !is_name(name) {
        return None;
    }
    let Some(port) = read_number(number) else {
        return None;
    };
    if port > 15 {
        return None;
    }
    Some((name, port as u8))
}

/// What stands before the first point of a word, and what behind it.
fn split_point(word: &[u8]) -> Option<(&[u8], &[u8])>
    ensures { MatchOption result
        (All (λ byte. (byte == 46) ≡ false) word.now)
        (λ parts. All (λ byte. (byte == 46) ≡ false) parts.0.now
        × (word.now ≡ parts.0.now ++ 46 ∷ parts.1.now)) }
{
    for (i, byte) in word.iter().enumerate() {
        if *byte == b'.' {
            return Some((&word[..i], &word[i + 1..]));
        }
    }
    None
}
