//! Groups as words of ten digits.
ghost use Rattle.std.specs.Prelude.{◌≡◌, ◌≢◌, ◌<◌, ◌≤◌, ◌+◌, ◌%◌, ◌++◌, ◌∷◌, ℕ, [], IfSome, IfNone, Some, MatchOption};
ghost use Rattle.rio_chars.specs.Written.{Writes};
ghost use Rattle.code_groups.specs.Streams.{HaveTenBits};
ghost use Rattle.group_text.specs.GroupTexts.{group_text_of, spaced_groups};

use rio_chars::{Outbox, Sink};

/// How many digits a group has.
const DIGITS: usize = 10;

/// The ten digits of a group, bit a first.
pub fn group_text(group: u16) -> [u8; 10]
    requires { group < 1024 }
    ensures { result ≡ group_text_of group }
{
    [
        digit(group / 512),
        digit(group / 256),
        digit(group / 128),
        digit(group / 64),
        digit(group / 32),
        digit(group / 16),
        digit(group / 8),
        digit(group / 4),
        digit(group / 2),
        digit(group),
    ]
}

/// The group of a text, or None if the word is the text of no group.
pub fn read_group(word: &[u8]) -> Option<u16>
    ensures small { IfSome result (λ group. group < 1024) }
    ensures text { IfSome result (λ group. word.now ≡ group_text_of group) }
    ensures none { IfNone result ((group : ℕ) → word.now ≢ group_text_of group) }
    ensures reads_back { (group : ℕ) → group < 1024 → word.now ≡ group_text_of group
        → result ≡ Some group }
{
    if word.len() != DIGITS {
        return None;
    }
    let mut group = 0u16;
    let mut left = word;
    while let [byte, rest @ ..] = left {
        let Some(bit) = bit_of(*byte) else {
            return None;
        };
        group = 2 * group + bit;
        left = rest;
    }
    Some(group)
}

/// Tells the text of each group after a space.
pub fn write_groups<K: Sink>(outbox: &mut Outbox<K>, groups: &[u16])
    requires { HaveTenBits groups.now }
    ensures { Writes outbox.old outbox.new (spaced_groups groups.now) }
{
    let mut left = groups;
    while let [group, rest @ ..] = left {
        write_group(outbox, *group);
        left = rest;
    }
}

/// Tells the text of one group after a space.
fn write_group<K: Sink>(outbox: &mut Outbox<K>, group: u16)
    requires { group < 1024 }
    ensures { Writes outbox.old outbox.new (32 ∷ group_text_of group) }
{
    outbox.write(b" ");
    outbox.write(&group_text(group));
}

/// The last binary digit of a number.
fn digit(number: u16) -> u8
    ensures { result ≡ 48 + number % 2 }
{
    b'0' + (number % 2) as u8
}

/// The bit of a digit.
fn bit_of(byte: u8) -> Option<u16>
    ensures { MatchOption result ((byte ≢ 48) × (byte ≢ 49))
        (λ bit. (bit < 2) × (byte ≡ 48 + bit)) }
{
    match byte {
        b'0' => Some(0),
        b'1' => Some(1),
        _ => None,
    }
}
