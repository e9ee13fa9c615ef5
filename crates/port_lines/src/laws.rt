//! What holds of every port by clocks. The call does nothing: its clauses are the laws.
ghost use Rattle.std.specs.Prelude.{◌≡◌, ◌++◌, List, [], IsTrue, length};
ghost use Rattle.std.specs.List.{flat_map};
ghost use Rattle.rio_chars.specs.declared.chars.Char.{Char};
ghost use Rattle.link_port.specs.Steps.{takes};
ghost use Rattle.link_model.specs.Prelude.{at_rest};
ghost use Rattle.link_port.specs.Turns.{timed_out};
ghost use Rattle.port_lines.specs.Patience.{awaits_answer, same_out_state};
ghost use Rattle.port_lines.specs.Clocks.{ClockedState, clocks, clocks_begin, clock_fires, clock_giving, clock_leaves, clocks_to};

/// Each clock gives one character. All that is given, and then what waits still, is what waited
/// before, and then, one after another and each whole, the answers of the characters that came, and
/// at each clock at which nothing waited what a turn sends, or one idle if that is nothing.
pub fn clocks_give_whole_bursts()
    ensures many { (at : ClockedState) (chars : List Char)
        → length (clocks at chars).given ≡ length chars }
    ensures whole { (at : ClockedState) (chars : List Char)
        → (clocks at chars).given ++ (clocks at chars).stands.waiting
        ≡ at.waiting ++ flat_map (λ (burst : List Char). burst) (clocks_begin at chars) }
{}

/// A time-out that fires by itself is one of a port that waits for an answer. Nothing is on the
/// way: all that the port sends is given, and neither a symbol nor a packet is coming in. The
/// character of the clock was no answer: it left the state of the output half, and the number of
/// outstanding packets, as they were. It was the last clock that the port has patience for. The
/// port has its time-out then, and its patience begins again. A port that is made without patience
/// never has one.
pub fn only_unanswered_ports_time_out()
    ensures awaits { (at : ClockedState) (c : Char) → IsTrue (clock_fires at c)
        → IsTrue (awaits_answer (clock_giving at c).port.output) }
    ensures given { (at : ClockedState) (c : Char) → IsTrue (clock_fires at c)
        → clock_leaves at c ≡ [] }
    ensures rests { (at : ClockedState) (c : Char) → IsTrue (clock_fires at c)
        → IsTrue (at_rest (clock_giving at c).port.place) }
    ensures unanswered { (at : ClockedState) (c : Char) → IsTrue (clock_fires at c)
        → IsTrue (same_out_state at.port.output (takes at.port c).port.output) }
    ensures last { (at : ClockedState) (c : Char) → IsTrue (clock_fires at c)
        → at.patience_left ≡ 1 }
    ensures fires { (at : ClockedState) (c : Char) → IsTrue (clock_fires at c)
        → (clocks_to at c).port ≡ timed_out (clock_giving at c).port }
    ensures anew { (at : ClockedState) (c : Char) → IsTrue (clock_fires at c)
        → (clocks_to at c).patience_left ≡ at.settings.patience }
    ensures never { (at : ClockedState) (c : Char) → at.settings.patience ≡ 0
        → at.patience_left ≡ 0
        → (IsTrue (clock_fires at c) → ⊥) × ((clocks_to at c).patience_left ≡ 0) }
{}
