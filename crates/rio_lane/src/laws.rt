//! What the program writes it reads back. The call does nothing: its clause is the law.
ghost use Rattle.std.specs.Prelude.{◌≡◌, ℕ, List};
ghost use Rattle.rio_chars.specs.declared.chars.Char.{Char};
ghost use Rattle.rio_lane.specs.declared.ends.LaneTask.TheVariants.{Groups, Chars};
ghost use Rattle.rio_lane.specs.LaneAnswers.{LaneAnswer};
ghost use Rattle.rio_lane.specs.LaneLines.{AnswersLanes};
ghost use Rattle.rio_lane.specs.Tasks.{new_ends};
ghost use Rattle.rio_lane.specs.ReadingBack.{AllHaveGroups, HaveNoFeeds, fed_lines, burst_lines, idle_lines};

/// What `groups` writes of lines of characters is lines, and `chars` writes of these the same
/// characters, with an idle before and after each burst. So each line is read back as it was.
pub fn what_is_written_is_read_back()
    ensures { (commas : ℕ) (bursts : List (List Char)) (sent : LaneAnswer) → AllHaveGroups bursts
        → AnswersLanes Groups commas (new_ends commas) (burst_lines bursts) sent
        → (written : List (List ℕ)) × HaveNoFeeds written × (sent.text ≡ fed_lines written)
        × ((heard : LaneAnswer) → AnswersLanes Chars 1 (new_ends 1) written heard
        → heard.text ≡ fed_lines (idle_lines bursts)) }
{}
