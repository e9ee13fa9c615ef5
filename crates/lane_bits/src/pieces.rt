//! Bits one after another, and what a lane hears of them.
ghost use Rattle.std.specs.Prelude.{◌≡◌, ◌≢◌, ◌<◌, ◌+◌, ◌++◌, ◌∷◌, [], ℕ, List, IfOk, OnOk, MatchOption};
ghost use Rattle.rio_chars.specs.declared.chars.Char.{Char};
ghost use Rattle.lane_bits.specs.Aligning.{after_bits, bit_pieces, with_piece, SpellBits};
ghost use Rattle.lane_bits.specs.BitHearing.{HearsPieces, HoldTens};

use crate::align::{Aligner, BitPiece};
use lane_sync::LaneState;
use rio_chars::{Char, Chars};
use std::alloc::{AllocError, Global};

/// What digits end that are bits in the order in which they are sent, and what is known after them.
/// None comes exactly if a byte is no digit 0 or 1.
pub fn read_pieces(
    alloc: Global,
    begin: Aligner,
    digits: &[u8],
) -> Result<Option<(Aligner, Vec<BitPiece>)>, AllocError>
    ensures { IfOk result (λ read. MatchOption read
        ((bits : List ℕ) → ¬ SpellBits digits.now bits)
        (λ read. (bits : List ℕ) × SpellBits digits.now bits
        × (read.0 ≡ after_bits begin bits) × (read.1.items ≡ bit_pieces begin bits)
        × HoldTens read.1.items)) }
{
    let mut pieces = Vec::with_capacity(alloc, digits.len() / 10)?;
    let mut state = begin;
    let mut left = digits;
    while let [digit, rest @ ..] = left {
        let Some(bit) = bit_of(*digit) else {
            return Ok(None);
        };
        let step = state.read(bit);
        push_piece(&mut pieces, step.piece)?;
        state = step.state;
        left = rest;
    }
    Ok(Some((state, pieces)))
}

/// What a lane hears of pieces, one after another, and the lane after them.
pub fn hear_pieces(
    alloc: Global,
    commas: u8,
    begin: LaneState,
    pieces: &[BitPiece],
) -> Result<(LaneState, Chars), AllocError>
    requires { HoldTens pieces.now }
    ensures { IfOk result (λ heard. HearsPieces commas begin pieces.now heard.0 heard.1) }
{
    let mut chars = Vec::with_capacity(alloc, pieces.len())?;
    let mut state = begin;
    let mut left = pieces;
    while let [piece, rest @ ..] = left {
        state = hear_piece(commas, state, *piece, &mut chars)?;
        left = rest;
    }
    Ok((state, Chars::new(chars)))
}

/// Puts a piece after those before it, if there is one.
fn push_piece(pieces: &mut Vec<BitPiece>, piece: Option<BitPiece>) -> Result<(), AllocError>
    ensures { OnOk result (pieces.new.items ≡ pieces.old.items ++ with_piece piece []) }
{
    if let Some(piece) = piece {
        pieces.push(piece)?;
    }
    Ok(())
}

/// Puts what a lane hears of one piece after what it heard before, and answers the lane after it.
fn hear_piece(
    commas: u8,
    before: LaneState,
    piece: BitPiece,
    chars: &mut Vec<Char>,
) -> Result<LaneState, AllocError>
    requires { HoldTens (piece ∷ []) }
    ensures { IfOk result (λ next. (heard : List Char)
        × HearsPieces commas before (piece ∷ []) next heard
        × (chars.new.items ≡ chars.old.items ++ heard)) }
{
    match piece {
        BitPiece::Slip => Ok(LaneState::new(commas)),
        BitPiece::Group(group) => {
            let step = before.hear(commas, group);
            chars.push(step.character)?;
            Ok(step.state)
        }
    }
}

/// The bit of a digit.
fn bit_of(digit: u8) -> Option<u16>
    ensures { MatchOption result ((digit ≢ 48) × (digit ≢ 49))
        (λ bit. (bit < 2) × (digit ≡ 48 + bit)) }
{
    match digit {
        b'0' => Some(0),
        b'1' => Some(1),
        _ => None,
    }
}
