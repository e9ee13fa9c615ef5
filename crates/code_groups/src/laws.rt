//! What holds of the code. The calls do nothing: their clauses are the laws.
ghost use Rattle.std.specs.Prelude.{◌≡◌, ◌≢◌, ◌<◌, ◌≤◌, ◌+◌, ◌*◌, ◌⊎◌, ◌↔◌, ℕ, IsTrue, true, false, List, [], ◌∷◌, ◌++◌, length, slice_index};
ghost use Rattle.rio_chars.specs.declared.chars.Char.{Char};
ghost use Rattle.rio_chars.specs.declared.chars.Char.TheVariants.{Data, Special, Invalid};
ghost use Rattle.code_groups.specs.declared.disparity.Disparity.{Disparity};
ghost use Rattle.code_groups.specs.declared.disparity.Disparity.TheVariants.{Negative, Positive};
ghost use Rattle.code_groups.specs.Published.{published_data, special_bytes, published_special};
ghost use Rattle.code_groups.specs.Disparities.{after_group, level, other_disparity};
ghost use Rattle.code_groups.specs.Groups.{has_group, group_of, disparity_after, IsHeardAs};
ghost use Rattle.code_groups.specs.Streams.{HaveGroups, groups_from, after_chars, AreHeardAs, ones_of};
ghost use Rattle.code_groups.specs.Changes.{with_wrong_bit, with_wrong_bit_at, IsFoundIn, is_delimiter, is_used, DifferInOneBlock};
ghost use Rattle.code_groups.specs.Commas.{is_comma, ten_bits_at, ten_bits_from, NoComma, NoneOfK28_7};

/// The groups are those of the published table: of data, and of twelve special characters.
pub fn the_published_table()
    ensures bytes { (byte : ℕ) → byte < 256
        → (group_of Negative (Data byte) ≡ slice_index published_data (2 * byte))
        × (group_of Positive (Data byte) ≡ slice_index published_data (2 * byte + 1)) }
    ensures special { (row : ℕ) → row < 12
        → IsTrue (has_group (Special (slice_index special_bytes row)))
        × (group_of Negative (Special (slice_index special_bytes row))
        ≡ slice_index published_special (2 * row))
        × (group_of Positive (Special (slice_index special_bytes row))
        ≡ slice_index published_special (2 * row + 1)) }
    ensures no_other { (byte : ℕ) → IsTrue (has_group (Special byte))
        → (row : ℕ) × (row < 12) × (slice_index special_bytes row ≡ byte) }
{}

/// Each group is taken for exactly one character at a disparity, or is invalid there.
pub fn one_character_is_heard()
    ensures exists { (before : Disparity) (group : ℕ) → (c : Char) × IsHeardAs before group c }
    ensures one { (before : Disparity) (group : ℕ) (c d : Char) → IsHeardAs before group c
        → IsHeardAs before group d → c ≡ d }
{}

/// What is sent is heard, and nothing else, at either disparity that sender and receiver share.
pub fn what_is_sent_is_heard()
    ensures heard { (before : Disparity) (chars : List Char) → HaveGroups chars
        → AreHeardAs before (groups_from before chars) chars }
    ensures only { (before : Disparity) (chars heard : List Char) → HaveGroups chars
        → AreHeardAs before (groups_from before chars) heard → heard ≡ chars }
{}

/// After any characters as many ones as zeros were sent, or one pair more or fewer: the disparity
/// that the rules keep is the true one.
pub fn groups_are_balanced()
    ensures { (before : Disparity) (chars : List Char) → HaveGroups chars
        → ones_of (groups_from before chars) + level before
        ≡ 5 * length chars + level (after_chars before chars) }
{}

/// One wrong bit among groups changes one character, and is found: that one is invalid, or another
/// is at the next special character at the latest. All others are heard as they were sent. So no
/// more than two characters of a stream are other than they were.
pub fn a_wrong_bit_is_found()
    ensures { (before : Disparity) (front : List Char) (c : Char) (rest : List Char) (bit : ℕ)
        (heard : List Char) → bit < 10 → HaveGroups (front ++ c ∷ rest)
        → AreHeardAs before
        (with_wrong_bit_at (length front) bit (groups_from before (front ++ c ∷ rest))) heard
        → (h : Char) × (after : List Char) × (heard ≡ front ++ h ∷ after) × (h ≢ c)
        × (((h ≡ Invalid) × (after ≡ rest)) ⊎ IsFoundIn rest after) }
{}

/// A single wrong bit that makes other data of data changes its low five bits alone, or its high
/// three alone: those of one sub-block.
pub fn a_wrong_bit_stays_in_its_block()
    ensures { (before : Disparity) (byte found bit : ℕ) → byte < 256 → bit < 10
        → IsHeardAs before (with_wrong_bit bit (group_of before (Data byte))) (Data found)
        → DifferInOneBlock byte found }
{}

/// A single wrong bit makes no delimiter of data or an idle, and no data or idle of a delimiter.
pub fn delimiters_are_safe()
    ensures made { (before : Disparity) (c h : Char) (bit : ℕ) → bit < 10 → IsTrue (is_used c)
        → IsHeardAs before (with_wrong_bit bit (group_of before c)) h → is_delimiter h ≡ false }
    ensures lost { (before : Disparity) (c h : Char) (bit : ℕ) → bit < 10
        → IsTrue (is_delimiter c)
        → IsHeardAs before (with_wrong_bit bit (group_of before c)) h → is_used h ≡ false }
{}

/// A comma begins K28.1, K28.5 and K28.7. In any character but K28.7, and from there into the next
/// group, no comma begins anywhere but where a group begins.
pub fn commas_begin_groups()
    ensures begins { (before : Disparity) (c : Char) → IsTrue (has_group c)
        → IsTrue (is_comma (group_of before c))
        ↔ ((c ≡ Special 0x3c) ⊎ ((c ≡ Special 0xbc) ⊎ (c ≡ Special 0xfc))) }
    ensures nowhere_else { (before : Disparity) (c d : Char) (place : ℕ)
        → IsTrue (has_group c) → IsTrue (has_group d) → c ≢ Special 0xfc → 1 ≤ place → place < 10
        → is_comma (ten_bits_at place (group_of before c) (group_of (disparity_after before c) d))
        ≡ false }
{}

/// A receiver whose words of ten bits begin at any other place than the groups sees no comma, as
/// long as K28.7 is not sent. So the first comma that it meets, at whichever place, shows where
/// groups begin.
pub fn commas_are_seen_at_one_place()
    ensures { (before : Disparity) (chars : List Char) (place : ℕ) → HaveGroups chars
        → NoneOfK28_7 chars → 1 ≤ place → place < 10
        → NoComma (ten_bits_from place (groups_from before chars)) }
{}

/// A special character tells the disparity: its group at the one is none at the other.
pub fn special_characters_tell_the_disparity()
    ensures { (before : Disparity) (byte : ℕ) (h : Char) → IsTrue (has_group (Special byte))
        → IsHeardAs (other_disparity before) (group_of before (Special byte)) h → h ≡ Invalid }
{}
