//! Bursts of characters, as groups.
ghost use Rattle.std.specs.Prelude.{◌≡◌, ◌++◌, ◌∷◌, [], OnOk, OnErr, codes, IfOk};
ghost use Rattle.rio_chars.specs.declared.chars.Char.TheVariants.{Special};
ghost use Rattle.rio_chars.specs.Written.{Writes};
ghost use Rattle.code_groups.specs.Streams.{HaveGroups, HaveTenBits, groups_from, after_chars};
ghost use Rattle.rio_lane.specs.LaneAnswers.{LaneAnswer, SendsText, joined_groups, burst_chars};

use crate::ends::LaneEnds;
use crate::words::{read_sent, words_in};
use code_groups::{Disparity, encode, encode_all};
use group_text::{group_text, write_groups};
use rio_chars::{Char, Outbox, Sink};
use std::alloc::{AllocError, Global};

/// The idle that stands before and after each burst: K28.5, whose groups have a comma.
const IDLE: Char = Char::Special(0xbc);

/// Answers the characters of a text. If memory is not given, nothing is done.
pub(crate) fn send_text<K: Sink>(
    alloc: Global,
    head: &[u8],
    ends: &mut LaneEnds,
    text: &[u8],
    outbox: &mut Outbox<K>,
) -> Result<(), AllocError>
    ensures answer { OnOk result ((answer : LaneAnswer)
        × SendsText head.now ends.old text.now answer × (ends.new ≡ answer.ends)
        × Writes outbox.old outbox.new answer.text) }
    ensures ends { OnErr result (ends.new ≡ ends.old) }
    ensures outbox { OnErr result (outbox.new ≡ outbox.old) }
{
    let Some(chars) = read_sent(alloc, words_in(text))? else {
        outbox.write(b"refused character\n");
        return Ok(());
    };
    let burst = burst_of(alloc, chars.as_slice())?;
    let groups = encode_all(alloc, ends.sender, burst.as_slice())?;
    write_groups_line(outbox, head, groups.as_slice());
    ends.sender = after_all(ends.sender, burst.as_slice());
    Ok(())
}

/// A burst with an idle before and after it.
fn burst_of(alloc: Global, chars: &[Char]) -> Result<Vec<Char>, AllocError>
    ensures { IfOk result (λ burst. burst.items ≡ burst_chars chars.now) }
{
    let mut burst = Vec::with_capacity(alloc, 2)?;
    burst.push(IDLE)?;
    burst.extend_from_slice(chars)?;
    burst.push(IDLE)?;
    Ok(burst)
}

/// The disparity after characters that have groups.
fn after_all(before: Disparity, chars: &[Char]) -> Disparity
    requires { HaveGroups chars.now }
    ensures { result ≡ after_chars before chars.now }
{
    let mut disparity = before;
    let mut left = chars;
    while let [c, rest @ ..] = left {
        if let Some(sent) = encode(disparity, *c) {
            disparity = sent.disparity;
        }
        left = rest;
    }
    disparity
}

/// Tells a line of groups after its head.
pub(crate) fn write_groups_line<K: Sink>(outbox: &mut Outbox<K>, head: &[u8], groups: &[u16])
    requires { HaveTenBits groups.now }
    ensures { Writes outbox.old outbox.new (head.now ++ joined_groups groups.now ++ codes "\n") }
{
    outbox.write(head);
    write_joined(outbox, groups);
    outbox.write(b"\n");
}

/// Tells the texts of groups, with a space between any two.
fn write_joined<K: Sink>(outbox: &mut Outbox<K>, groups: &[u16])
    requires { HaveTenBits groups.now }
    ensures { Writes outbox.old outbox.new (joined_groups groups.now) }
{
    let [first, rest @ ..] = groups else {
        return;
    };
    outbox.write(&group_text(*first));
    write_groups(outbox, rest);
}
