//! Characters, as the groups of four lanes.
ghost use Rattle.std.specs.Prelude.{◌≡◌, ◌++◌, IfOk, OnOk, replicate};
ghost use Rattle.rio_chars.specs.declared.chars.Char.TheVariants.{Special};
ghost use Rattle.code_groups.specs.Streams.{HaveGroups};
ghost use Rattle.lane_rows.specs.Rows.{burst_rows};
ghost use Rattle.lane_rows.specs.RowSending.{new_senders, turned_senders, rows_from, after_rows};

use code_groups::{Disparity, encode};
use rio_chars::Char;
use std::alloc::{AllocError, Global};

/// The idle K28.5, whose groups have a comma.
const IDLE: Char = Char::Special(0xbc);

/// The align character K27.7.
const ALIGN: Char = Char::Special(0xfb);

/// The disparities of the next groups on four lanes.
#[derive(Clone, Copy, Debug, PartialEq, Eq)]
pub struct FourSenders {
    /// That of lane 0.
    pub a: Disparity,
    /// That of lane 1.
    pub b: Disparity,
    /// That of lane 2.
    pub c: Disparity,
    /// That of lane 3.
    pub d: Disparity,
}

impl FourSenders {
    /// Four lanes on which nothing was sent.
    pub fn new() -> FourSenders
        ensures { result ≡ new_senders }
    {
        FourSenders {
            a: Disparity::Negative,
            b: Disparity::Negative,
            c: Disparity::Negative,
            d: Disparity::Negative,
        }
    }

    /// The lanes after a group on the first one, which is last then.
    fn turned(self, after: Disparity) -> FourSenders
        ensures { result ≡ turned_senders self after }
    {
        FourSenders {
            a: self.b,
            b: self.c,
            c: self.d,
            d: after,
        }
    }
}

/// The groups of characters that have some, sent on one lane after another, and the lanes after
/// them.
pub fn send_rows(
    alloc: Global,
    before: FourSenders,
    chars: &[Char],
) -> Result<(FourSenders, Vec<u16>), AllocError>
    requires { HaveGroups chars.now }
    ensures { IfOk result (λ sent. (sent.0 ≡ after_rows before chars.now)
        × (sent.1.items ≡ rows_from before chars.now)) }
{
    let mut groups = Vec::with_capacity(alloc, chars.len())?;
    let mut lanes = before;
    let mut left = chars;
    while let [c, rest @ ..] = left {
        if let Some(sent) = encode(lanes.a, *c) {
            groups.push(sent.group)?;
            lanes = lanes.turned(sent.disparity);
        }
        left = rest;
    }
    Ok((lanes, groups))
}

/// What is sent for a burst: a row of idles, a row of align characters, the burst, idles up to a
/// whole row, and a row of idles.
pub fn burst_of_rows(alloc: Global, chars: &[Char]) -> Result<Vec<Char>, AllocError>
    ensures { IfOk result (λ burst. burst.items ≡ burst_rows chars.now) }
{
    let mut burst = Vec::with_capacity(alloc, 8)?;
    burst.extend_from_slice(&[IDLE; 4])?;
    burst.extend_from_slice(&[ALIGN; 4])?;
    burst.extend_from_slice(chars)?;
    push_idles(&mut burst, 7 - (chars.len() % 4 + 3) % 4)?;
    Ok(burst)
}

/// Puts so many idles after characters.
fn push_idles(chars: &mut Vec<Char>, count: usize) -> Result<(), AllocError>
    ensures { OnOk result (chars.new.items ≡ chars.old.items ++ replicate count (Special 0xbc)) }
{
    let mut left = count;
    while left > 0 {
        chars.push(IDLE)?;
        left -= 1;
    }
    Ok(())
}
