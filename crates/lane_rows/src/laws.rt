//! What holds of four lanes. The calls do nothing: their clauses are the laws.
ghost use Rattle.std.specs.Prelude.{◌≡◌, ◌++◌, ℕ, List};
ghost use Rattle.rio_chars.specs.declared.chars.Char.{Char};
ghost use Rattle.code_groups.specs.declared.disparity.Disparity.{Disparity};
ghost use Rattle.code_groups.specs.Streams.{HaveGroups, groups_from};
ghost use Rattle.lane_sync.specs.Syncing.{lane_out};
ghost use Rattle.lane_rows.specs.declared.sending.FourSenders.{FourSenders};
ghost use Rattle.lane_rows.specs.declared.hearing.FourReceivers.{FourReceivers};
ghost use Rattle.lane_rows.specs.Rows.{every_fourth, align_row, burst_rows, idles_behind};
ghost use Rattle.lane_rows.specs.RowSending.{rows_from};
ghost use Rattle.lane_rows.specs.RowHearing.{HearsRows, ComeLate, new_receivers};

/// On each lane the groups are those of its own characters, at its own disparity.
pub fn lanes_are_sent_side_by_side()
    ensures a { (lanes : FourSenders) (chars : List Char)
        → every_fourth 0 (rows_from lanes chars) ≡ groups_from lanes.a (every_fourth 0 chars) }
    ensures b { (lanes : FourSenders) (chars : List Char)
        → every_fourth 1 (rows_from lanes chars) ≡ groups_from lanes.b (every_fourth 1 chars) }
    ensures c { (lanes : FourSenders) (chars : List Char)
        → every_fourth 2 (rows_from lanes chars) ≡ groups_from lanes.c (every_fourth 2 chars) }
    ensures d { (lanes : FourSenders) (chars : List Char)
        → every_fourth 3 (rows_from lanes chars) ≡ groups_from lanes.d (every_fourth 3 chars) }
{}

/// A burst that is sent over four lanes is heard as it was, with the align characters before it and
/// the idles behind it, however many rows each lane is late.
pub fn late_lanes_are_joined()
    ensures { (senders : FourSenders) (chars heard : List Char) (groups : List ℕ)
        (late_a late_b late_c late_d : ℕ) (to : FourReceivers) → HaveGroups chars
        → ComeLate senders chars groups late_a late_b late_c late_d
        → HearsRows 1 (new_receivers 1) groups to heard
        → heard ≡ align_row ++ chars ++ idles_behind chars }
{}
