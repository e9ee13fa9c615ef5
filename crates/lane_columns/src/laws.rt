//! The laws of four lanes. The calls do nothing: their clauses are the laws.
ghost use Rattle.std.specs.Prelude.{◌≡◌, ◌≤◌, ◌*◌, ℕ, List, length, drop};
ghost use Rattle.rio_chars.specs.declared.chars.Char.{Char};
ghost use Rattle.lane_columns.specs.Columns.{Column, chars_of_columns, striped, lane_a, lane_b, lane_c, lane_d, columns_of};
ghost use Rattle.lane_columns.specs.Skews.{AlignWhole, NoneAligns, columns_from_align, lane_from_align};

/// What is striped over four lanes is joined again, and the other way round for whole columns.
pub fn striping_is_undone()
    ensures columns { (columns : List Column) → striped (chars_of_columns columns) ≡ columns }
    ensures chars { (n : ℕ) (chars : List Char) → length chars ≡ 4 * n
        → chars_of_columns (striped chars) ≡ chars }
    ensures lanes { (columns : List Column)
        → columns_of (lane_a columns) (lane_b columns) (lane_c columns) (lane_d columns)
        ≡ columns }
{}

/// Lanes may be heard from different columns on, as long as no column of align characters is among
/// those that only some are heard of: each from its first align character on, they are the columns
/// from the first whole align column on.
pub fn skew_is_undone()
    ensures { (columns : List Column) (most a b c d : ℕ) → AlignWhole columns
        → NoneAligns most columns → a ≤ most → b ≤ most → c ≤ most → d ≤ most
        → columns_of (lane_from_align (drop a (lane_a columns)))
        (lane_from_align (drop b (lane_b columns)))
        (lane_from_align (drop c (lane_c columns)))
        (lane_from_align (drop d (lane_d columns)))
        ≡ columns_from_align columns }
{}
