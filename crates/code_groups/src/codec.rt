//! Characters to code groups and back, by tables.
ghost use Rattle.std.specs.Prelude.{◌≡◌, ◌<◌, ◌≤◌, ◌+◌, ◌*◌, ◌↔◌, IsTrue, IsSome, IfSome, IfOk};
ghost use Rattle.code_groups.specs.Disparities.{after_group, level};
ghost use Rattle.code_groups.specs.Groups.{has_group, group_of, disparity_after, IsHeardAs};
ghost use Rattle.code_groups.specs.Streams.{HaveGroups, groups_from, AreHeardAs, HaveTenBits};
ghost use Rattle.code_groups.specs.Numbers.{char_at, sent_entry};

use crate::disparity::Disparity;
use crate::tables::{DECODED, ENCODED};
use rio_chars::Char;
use std::alloc::{AllocError, Global};

/// What is sent for a character.
#[derive(Clone, Copy, Debug, PartialEq, Eq)]
pub struct Sent {
    /// Ten bits, the first one the most significant.
    pub group: u16,
    /// The disparity after them.
    pub disparity: Disparity,
}

/// What a group is taken for.
#[derive(Clone, Copy, Debug, PartialEq, Eq)]
pub struct Heard {
    /// The character, or `Invalid` if the group is that of none at the disparity.
    pub character: Char,
    /// The disparity after the group.
    pub disparity: Disparity,
}

/// The group of a character at a disparity. None comes exactly if it has no group.
pub fn encode(before: Disparity, c: Char) -> Option<Sent>
    ensures some { IsSome result ↔ IsTrue (has_group c) }
    ensures group { IfSome result (λ sent. sent.group ≡ group_of before c) }
    ensures disparity { IfSome result (λ sent. sent.disparity ≡ disparity_after before c) }
{
    let entry = entry_of(before, c);
    if entry == 0 {
        None
    } else {
        Some(Sent {
            group: entry % 1024,
            disparity: disparity_of(entry / 1024),
        })
    }
}

/// What a group is taken for at a disparity.
pub fn decode(before: Disparity, group: u16) -> Heard
    requires { group < 1024 }
    ensures character { IsHeardAs before group result.character }
    ensures disparity { result.disparity ≡ after_group before group }
{
    let entry = DECODED[1024 * row(before) + usize::from(group)];
    Heard {
        character: char_of(entry % 1024),
        disparity: disparity_of(entry / 1024),
    }
}

/// The groups of characters that have some, sent from a disparity on.
pub fn encode_all(alloc: Global, before: Disparity, chars: &[Char]) -> Result<Vec<u16>, AllocError>
    requires { HaveGroups chars.now }
    ensures { IfOk result (λ groups. groups.items ≡ groups_from before chars.now) }
{
    let mut groups = Vec::with_capacity(alloc, chars.len())?;
    let mut disparity = before;
    let mut left = chars;
    while let [c, rest @ ..] = left {
        if let Some(sent) = encode(disparity, *c) {
            groups.push(sent.group)?;
            disparity = sent.disparity;
        }
        left = rest;
    }
    Ok(groups)
}

/// What groups are taken for, from a disparity on.
pub fn decode_all(alloc: Global, before: Disparity, groups: &[u16]) -> Result<Vec<Char>, AllocError>
    requires { HaveTenBits groups.now }
    ensures { IfOk result (λ heard. AreHeardAs before groups.now heard.items) }
{
    let mut heard = Vec::with_capacity(alloc, groups.len())?;
    let mut disparity = before;
    let mut left = groups;
    while let [group, rest @ ..] = left {
        let next = decode(disparity, *group);
        heard.push(next.character)?;
        disparity = next.disparity;
        left = rest;
    }
    Ok(heard)
}

/// What the table has for a character, and 0 where it has no group.
fn entry_of(before: Disparity, c: Char) -> u16
    ensures { result ≡ sent_entry before c }
{
    match c {
        Char::Data(byte) => ENCODED[512 * row(before) + usize::from(byte)],
        Char::Special(byte) => ENCODED[512 * row(before) + 256 + usize::from(byte)],
        Char::Invalid => 0,
    }
}

/// Which half of a table is for a disparity.
fn row(before: Disparity) -> usize
    ensures value { result ≡ level before }
    ensures small { result < 2 }
{
    match before {
        Disparity::Negative => 0,
        Disparity::Positive => 1,
    }
}

/// The disparity of a row.
fn disparity_of(row: u16) -> Disparity
    requires { row < 2 }
    ensures { level result ≡ row }
{
    if row == 0 {
        Disparity::Negative
    } else {
        Disparity::Positive
    }
}

/// The character of a number: a byte of data, 256 more for a special one, and then none.
fn char_of(number: u16) -> Char
    ensures { result ≡ char_at number }
{
    if number < 256 {
        Char::Data(number as u8)
    } else if number < 512 {
        Char::Special((number - 256) as u8)
    } else {
        Char::Invalid
    }
}
