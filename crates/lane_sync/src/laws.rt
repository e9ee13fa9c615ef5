//! What a lane hears of what is sent. The calls do nothing: their clauses are the laws.
ghost use Rattle.std.specs.Prelude.{◌≡◌, ℕ, List, ◌∷◌};
ghost use Rattle.rio_chars.specs.declared.chars.Char.{Char};
ghost use Rattle.rio_chars.specs.declared.chars.Char.TheVariants.{Special};
ghost use Rattle.code_groups.specs.declared.disparity.Disparity.{Disparity};
ghost use Rattle.code_groups.specs.Streams.{HaveGroups, groups_from, after_chars};
ghost use Rattle.lane_sync.specs.declared.lane.LaneState.{LaneState};
ghost use Rattle.lane_sync.specs.Syncing.{lane_out, lane_in, LaneHearsAll};

/// A lane in sync that lacks nothing, and has the sender's disparity, hears exactly what is sent,
/// and is so after it.
pub fn in_sync_what_is_sent_is_heard()
    ensures { (commas more : ℕ) (before : Disparity) (chars heard : List Char) (to : LaneState)
        → HaveGroups chars
        → LaneHearsAll commas (lane_in 3 more before) (groups_from before chars) to heard
        → (heard ≡ chars) × (to ≡ lane_in 3 more (after_chars before chars)) }
{}

/// A lane that wants one comma, whatever disparity it has, hears exactly what is sent from an idle
/// K28.5 on, at whichever disparity that is sent, and is in sync after it.
pub fn the_first_comma_brings_sync()
    ensures { (before own : Disparity) (chars heard : List Char) (to : LaneState)
        → HaveGroups chars
        → LaneHearsAll 1 (lane_out 1 own) (groups_from before (Special 0xbc ∷ chars)) to heard
        → (heard ≡ Special 0xbc ∷ chars)
        × (to ≡ lane_in 3 255 (after_chars before (Special 0xbc ∷ chars))) }
{}
