//! What is heard of bits. The calls do nothing: their clauses are the laws.
ghost use Rattle.std.specs.Prelude.{◌≡◌, ℕ, List, [], ◌∷◌, ◌++◌, map};
ghost use Rattle.rio_chars.specs.declared.chars.Char.{Char};
ghost use Rattle.rio_chars.specs.declared.chars.Char.TheVariants.{Special};
ghost use Rattle.code_groups.specs.declared.disparity.Disparity.{Disparity};
ghost use Rattle.code_groups.specs.Groups.{group_of};
ghost use Rattle.code_groups.specs.Commas.{NoneOfK28_7};
ghost use Rattle.code_groups.specs.Streams.{HaveGroups, groups_from};
ghost use Rattle.lane_sync.specs.declared.lane.LaneState.{LaneState};
ghost use Rattle.lane_sync.specs.Syncing.{lane_out};
ghost use Rattle.lane_bits.specs.declared.align.Aligner.{Aligner};
ghost use Rattle.lane_bits.specs.declared.align.Aligner.TheVariants.{Seeking};
ghost use Rattle.lane_bits.specs.declared.align.BitPiece.TheVariants.{Group};
ghost use Rattle.lane_bits.specs.Aligning.{new_aligner, after_bits, bit_pieces, bits_of_groups, AreBits};
ghost use Rattle.lane_bits.specs.BitHearing.{HearsPieces, IsNewPlace, place_told, six_bits};

/// Whatever bits were read, from a new aligner on, an idle K28.5 at a place where no group begins
/// makes groups begin there: from it on the groups that are read are those that are sent, as long
/// as K28.7 is not sent. A slip is told before them unless no comma was read yet.
pub fn a_comma_at_a_new_place_begins_groups()
    ensures { (front : List ℕ) (before : Disparity) (chars : List Char)
        → AreBits front → HaveGroups chars → NoneOfK28_7 chars
        → IsNewPlace (after_bits new_aligner (front ++ six_bits (group_of before (Special 0xbc))))
        → bit_pieces new_aligner
        (front ++ bits_of_groups (groups_from before (Special 0xbc ∷ chars)))
        ≡ bit_pieces new_aligner (front ++ six_bits (group_of before (Special 0xbc)))
        ++ place_told (after_bits new_aligner (front ++ six_bits (group_of before (Special 0xbc))))
        ++ map Group (groups_from before (Special 0xbc ∷ chars)) }
{}

/// After any bits that end no comma, up to the one of an idle K28.5, exactly what is sent from this
/// idle on is heard, at whichever bit it begins, as long as K28.7 is not sent.
pub fn bits_of_what_is_sent_are_heard()
    ensures { (front : List ℕ) (recent : ℕ) (before own : Disparity) (chars heard : List Char)
        (to : LaneState) → AreBits front → HaveGroups chars → NoneOfK28_7 chars
        → after_bits new_aligner (front ++ six_bits (group_of before (Special 0xbc)))
        ≡ Seeking recent
        → HearsPieces 1 (lane_out 1 own) (bit_pieces new_aligner
        (front ++ bits_of_groups (groups_from before (Special 0xbc ∷ chars)))) to heard
        → heard ≡ Special 0xbc ∷ chars }
{}
