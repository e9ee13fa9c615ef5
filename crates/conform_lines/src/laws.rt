//! What holds of all lines, and of all answers that are allowed. The calls do nothing.
ghost use Rattle.std.specs.Prelude.{◌≡◌, ◌++◌, [], List, ℕ, Result, Ok, Err, map};
ghost use Rattle.fabric_script.specs.Scripts.{pieces_of};
ghost use Rattle.live_lines.specs.Lines.{HasNoFeed};
ghost use Rattle.port_lines.specs.Lines.{ReadsLine};
ghost use Rattle.port_lines.specs.declared.faults.RequestRefusal.{RequestRefusal};
ghost use Rattle.port_lines.specs.declared.requests.PortRequest.{PortRequest};
ghost use Rattle.conform_lines.specs.declared.judging.Leeway.{Leeway};
ghost use Rattle.conform_lines.specs.Counting.{AnswerCounts, LinesComeTo};
ghost use Rattle.conform_lines.specs.Stimuli.{ReadsStimulus, stimulus_line};
ghost use Rattle.conform_lines.specs.Tolerances.{IsAllowedAnswer, JudgeState, counted_of, judged_by};

/// A line of a scenario is read in one way: as one request, or it is refused.
pub fn stimuli_are_read_once()
    ensures same { (line : List ℕ) (one other : PortRequest) → ReadsStimulus line (Ok one)
        → ReadsStimulus line (Ok other) → one ≡ other }
    ensures none { (line : List ℕ) (request : PortRequest) (refusal : RequestRefusal)
        → ReadsStimulus line (Ok request) → ¬ ReadsStimulus line (Err refusal) }
{}

/// What a device is asked for a line of a scenario is one line, which a port reads as that very
/// request.
pub fn a_stimulus_is_read_as_its_request()
    ensures reads { (line : List ℕ) (request : PortRequest) → ReadsStimulus line (Ok request)
        → ReadsLine (stimulus_line line request) (Ok request) }
    ensures once { (line : List ℕ) (request : PortRequest)
        (asked : Result PortRequest RequestRefusal) → ReadsStimulus line (Ok request)
        → ReadsLine (stimulus_line line request) asked → asked ≡ Ok request }
    ensures no_feed { (line : List ℕ) (request : PortRequest) → ReadsStimulus line (Ok request)
        → HasNoFeed (stimulus_line line request) }
{}

/// If nothing is owed, the right answer is allowed for itself, and nothing is owed then.
pub fn right_answers_are_allowed()
    ensures { (its : Leeway) (text : List ℕ) (at : JudgeState) (counts : AnswerCounts)
        → at.came ≡ at.right → at.owed ≡ [] → LinesComeTo at.right (pieces_of text) counts
        → IsAllowedAnswer its text text at (judged_by its at counts) }
{}

/// What a device owes and what the right answer sends is what the device sends, in this order, and
/// what it owes then. So no acknowledgment, no request and no packet is exchanged for another, left
/// out or added.
pub fn allowed_answers_send_the_same()
    ensures { (its : Leeway) (right came : List ℕ) (at next : JudgeState)
        → (allowed : IsAllowedAnswer its right came at next)
        → counted_of at.owed ++ allowed.right_counts.sent
        ≡ allowed.came_counts.sent ++ counted_of next.owed }
{}
