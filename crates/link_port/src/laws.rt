//! What holds of every port. The calls do nothing: their clauses are the laws.
ghost use Rattle.std.specs.Prelude.{◌≡◌, ◌≤◌, ◌⊎◌, ℕ, ◌+◌, Some, None, List, length, [], ◌∷◌, ◌++◌};
ghost use Rattle.link_model.specs.Prelude.{Char, Fields, place, place_after, run, Text, placed, symbol_chars_of, said};
ghost use Rattle.link_model.specs.declared.event.Event.{Event};
ghost use Rattle.link_model.specs.declared.reading_kinds.Pending.{Pending};
ghost use Rattle.link_model.specs.Places.{broken_off, begins_in};
ghost use Rattle.link_port.specs.Answers.{IsReply};
ghost use Rattle.link_port.specs.Ports.{PortState, IsPort};
ghost use Rattle.link_port.specs.Steps.{read, after_reading, acts, acts_symbol};
ghost use Rattle.link_port.specs.Acts.{replies};
ghost use Rattle.link_port.specs.Streams.{takes_each, acts_each};

/// One character is answered by at most one symbol, also where it completes a packet and the symbol
/// that ended it: this is start-of-packet or end-of-packet, by its stype1, and these have no
/// answer.
pub fn one_character_has_one_reply()
    ensures one { (port : PortState) (c : Char)
        → length (replies (after_reading port c) (read port c)) ≤ 1 }
    ensures start_or_end { (port : PortState) (symbol : Fields) → (symbol.s1 ≡ 0) ⊎ (symbol.s1 ≡ 2)
        → (acts_symbol port symbol).reply ≡ None }
{}

/// Whatever event comes, a port answers it with a symbol whose fields have their widths and whose
/// stype1 is NOP, or with none. So the four characters of an answer are read as exactly it, from
/// any place, also within a packet, which goes on behind it. A symbol in progress breaks off, with
/// an event of its own, and a packet with it.
pub fn answers_are_read_from_any_place()
    ensures answers { (port : PortState) (event : Event) → IsPort port
        → IsReply (acts port event).reply }
    ensures read { (port : PortState) (event : Event) (answer : Fields) (text : Text)
        (pending : Pending) (at : ℕ)
        → IsPort port → (acts port event).reply ≡ Some answer
        → run (place text pending) at (symbol_chars_of answer)
        ≡ placed at (broken_off pending) ++ (at + 3, Event.Ctl answer) ∷ [] }
    ensures after { (port : PortState) (event : Event) (answer : Fields) (text : Text)
        (pending : Pending)
        → IsPort port → (acts port event).reply ≡ Some answer
        → place_after (place text pending) (symbol_chars_of answer)
        ≡ place (begins_in text pending) Pending.Nothing }
{}

/// Characters that a port takes one after another do what their reading does: the events that all
/// of them say, led through the tables one after another. The port after them, all answers, all
/// packets that were put into the store, and all that were acknowledged are the same, in order.
pub fn characters_do_what_they_say()
    ensures { (port : PortState) (chars : List Char) → takes_each port chars
        ≡ acts_each (record port { place = place_after port.place chars }) (said port.place chars) }
{}
