//! What four lanes heard, as columns.
ghost use Rattle.std.specs.Prelude.{◌≡◌, ◌≤◌, ◌++◌, [], IfOk, IfSome, IfNone, length, drop};
ghost use Rattle.lane_columns.specs.Columns.{chars_of_columns, columns_of};
ghost use Rattle.lane_columns.specs.Skews.{is_align, lane_from_align};

use rio_chars::Char;
use std::alloc::{AllocError, Global};

/// What a lane heard, from its first align character on.
pub(crate) fn from_align(chars: &[Char]) -> &[Char]
    ensures { result.now ≡ lane_from_align chars.now }
{
    let mut left = chars;
    while let [c, rest @ ..] = left {
        if aligns(*c) {
            return left;
        }
        left = rest;
    }
    left
}

/// Whether a character is the align character.
fn aligns(c: Char) -> bool
    ensures { result ≡ is_align c }
{
    match c {
        Char::Special(byte) => byte == 0xfb,
        Char::Data(_) | Char::Invalid => false,
    }
}

/// The characters of columns, as far as the shortest of four lanes goes.
pub(crate) fn join_columns(
    alloc: Global,
    a: &[Char],
    b: &[Char],
    c: &[Char],
    d: &[Char],
) -> Result<Vec<Char>, AllocError>
    ensures { IfOk result (λ chars. chars.items
        ≡ chars_of_columns (columns_of a.now b.now c.now d.now)) }
{
    let mut chars = Vec::with_capacity(alloc, a.len())?;
    let (mut left_a, mut left_b, mut left_c, mut left_d) = (a, b, c, d);
    while let Some(column) = first_column(left_a, left_b, left_c, left_d) {
        chars.extend_from_slice(&column)?;
        left_a = without_first(left_a);
        left_b = without_first(left_b);
        left_c = without_first(left_c);
        left_d = without_first(left_d);
    }
    Ok(chars)
}

/// The first column of four lanes, unless one of them has no character.
fn first_column(a: &[Char], b: &[Char], c: &[Char], d: &[Char]) -> Option<[Char; 4]>
    ensures some { IfSome result (λ column.
        chars_of_columns (columns_of a.now b.now c.now d.now) ≡ column
        ++ chars_of_columns (columns_of (drop 1 a.now) (drop 1 b.now) (drop 1 c.now)
        (drop 1 d.now))) }
    ensures any { IfSome result (λ _. 1 ≤ length a.now) }
    ensures none { IfNone result (columns_of a.now b.now c.now d.now ≡ []) }
{
    let [first_a, ..] = a else {
        return None;
    };
    let [first_b, ..] = b else {
        return None;
    };
    let [first_c, ..] = c else {
        return None;
    };
    let [first_d, ..] = d else {
        return None;
    };
    Some([*first_a, *first_b, *first_c, *first_d])
}

/// What stands after the first character.
fn without_first(chars: &[Char]) -> &[Char]
    ensures { result.now ≡ drop 1 chars.now }
{
    match chars {
        [_, rest @ ..] => rest,
        [] => chars,
    }
}
