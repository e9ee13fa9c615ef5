//! What holds of every reading of characters. The calls do nothing: their clauses are the laws.
ghost use Rattle.std.specs.Prelude.{◌≡◌, ℕ, suc, take, drop, ◌+◌, ◌<◌, ◌↔◌, nat_lt, true, false, List, [], ◌∷◌, ◌++◌, length, filter, map, ◌≤◌};
ghost use Rattle.rio_chars.specs.declared.chars.Char.{Char};
ghost use Rattle.rio_symbols.specs.declared.stype1.TheConstants.{START_OF_PACKET, END_OF_PACKET};
ghost use Rattle.rio_symbols.specs.Fields.{Fields, InRange};
ghost use Rattle.rio_packets.specs.LinkForm.{Passes};
ghost use Rattle.rio_packets.specs.Carries.{Carries, checked};
ghost use Rattle.link_model.specs.declared.event.Event.{Event};
ghost use Rattle.link_model.specs.declared.reading_kinds.Pending.{Pending};
ghost use Rattle.rio_packets.specs.declared.cause.Cause.TheVariants.{BadPacket, General};
ghost use Rattle.link_model.specs.Events.{same_event, packet_event, checked_event};
ghost use Rattle.link_model.specs.Reading.{Text, IsOpen, text_after, told, placed, IsReading, IsCut};
ghost use Rattle.link_model.specs.Places.{Place, place, place_start, broken_off, begins_in, step, run, place_after, at_rest, AreGiven, IsBounded};
ghost use Rattle.link_model.specs.Fronts.{telling_front};
ghost use Rattle.link_model.specs.ReadingSpelt.{symbol_chars_of, bytes_with_ack, packet_chars_of};

/// Every list of characters has exactly one reading, and it is what the steps of one character
/// tell. The list is cut exactly where the steps leave a symbol or a packet in progress.
pub fn one_reading()
    ensures exists { (chars : List Char) → IsReading chars (run place_start 0 chars) }
    ensures one { (chars : List Char) (events : List (ℕ × Event)) → IsReading chars events
        → events ≡ run place_start 0 chars }
    ensures cut { (chars : List Char) → IsCut chars
        ↔ (at_rest (place_after place_start chars) ≡ false) }
{}

/// Characters may be read in pieces: the events of two pieces are those of the first and, from
/// where it leaves the reader, those of the second. To count from a later place moves each event by
/// as much, so that the second piece may be read from place 0 on and the length of the first be
/// added. The reading of a front is the events whose places lie in it.
pub fn reading_in_pieces()
    ensures events { (from : Place) (at n : ℕ) (xs ys : List Char) → n ≡ at + length xs
        → run from at (xs ++ ys) ≡ run from at xs ++ run (place_after from xs) n ys }
    ensures moved { (from : Place) (at n : ℕ) (chars : List Char)
        → run from (at + n) chars ≡ map (λ event. (event.0 + n, event.1)) (run from at chars) }
    ensures place { (from : Place) (xs ys : List Char)
        → place_after from (xs ++ ys) ≡ place_after (place_after from xs) ys }
    ensures front { (xs ys : List Char) (events : List (ℕ × Event)) → IsReading (xs ++ ys) events
        → IsReading xs (filter (λ event. nat_lt event.0 (length xs)) events) }
{}

/// One character tells at most two events. One by itself is no packet; the first of two is a
/// packet's, and the second the symbol that ended it.
pub fn one_character_tells_at_most_two()
    ensures { (from : Place) (c : Char) → AreGiven (step from c).gives }
{}

/// A packet in progress never has more than 276 bytes.
pub fn packet_in_progress_is_bounded()
    ensures step { (from : Place) (c : Char) → IsBounded from.text
        → IsBounded (step from c).place.text }
    ensures all { (chars : List Char) → IsBounded (place_after place_start chars).text }
{}

/// Where a symbol may begin, what is sent for a symbol is read as it, and what is sent for a packet
/// as its start symbol, the packet with its ackID, and its end symbol.
pub fn spelling_is_read()
    ensures symbol { (text : Text) (at : ℕ) (s : Fields) → IsOpen text → InRange s
        → run (place text Pending.Nothing) at (symbol_chars_of s) ≡ placed (at + 3) (told text s) }
    ensures after_symbol { (text : Text) (s : Fields) → IsOpen text → InRange s
        → place_after (place text Pending.Nothing) (symbol_chars_of s)
        ≡ place (text_after text s.s1) Pending.Nothing }

    ensures packet { (text : Text) (at n : ℕ) (first : Fields) (ack : ℕ) (packet : List ℕ)
        (last : Fields) → IsOpen text
        → InRange first → first.s1 ≡ START_OF_PACKET → ack < 32 → Passes packet → InRange last
        → last.s1 ≡ END_OF_PACKET → n ≡ at + 7 + length packet
        → run (place text Pending.Nothing) at (packet_chars_of first ack packet last)
        ≡ placed (at + 3) (told text first) ++ (n, Event.Pkt ack packet) ∷ (n, Event.Ctl last)
        ∷ [] }
    ensures after_packet { (text : Text) (first : Fields) (ack : ℕ) (packet : List ℕ)
        (last : Fields) → IsOpen text
        → InRange first → first.s1 ≡ START_OF_PACKET → ack < 32 → Passes packet → InRange last
        → last.s1 ≡ 2
        → place_after (place text Pending.Nothing) (packet_chars_of first ack packet last)
        ≡ place_start }
{}

/// From any place, also where a symbol or a packet is in progress or data is skipped, what is sent
/// for a symbol is read as it, and what is sent for a packet as its start symbol, the packet and
/// its end symbol. What was in progress breaks off: a symbol with an event of its own, and a packet
/// with that symbol, or else by what the new symbol does to it.
pub fn spelling_is_read_from_any_place()
    ensures symbol { (text : Text) (pending : Pending) (at : ℕ) (s : Fields) → InRange s
        → run (place text pending) at (symbol_chars_of s)
        ≡ placed at (broken_off pending) ++ placed (at + 3) (told (begins_in text pending) s) }
    ensures after_symbol { (text : Text) (pending : Pending) (s : Fields) → InRange s
        → place_after (place text pending) (symbol_chars_of s)
        ≡ place (text_after (begins_in text pending) s.s1) Pending.Nothing }

    ensures packet { (text : Text) (pending : Pending) (at n : ℕ) (first : Fields) (ack : ℕ)
        (packet : List ℕ) (last : Fields) → InRange first → first.s1 ≡ START_OF_PACKET → ack < 32
        → Passes packet → InRange last → last.s1 ≡ END_OF_PACKET → n ≡ at + 7 + length packet
        → run (place text pending) at (packet_chars_of first ack packet last)
        ≡ placed at (broken_off pending) ++ (placed (at + 3) (told (begins_in text pending) first)
        ++ (n, Event.Pkt ack packet) ∷ (n, Event.Ctl last) ∷ []) }
    ensures after_packet { (text : Text) (pending : Pending) (first : Fields) (ack : ℕ)
        (packet : List ℕ) (last : Fields) → InRange first → first.s1 ≡ START_OF_PACKET → ack < 32
        → Passes packet → InRange last → last.s1 ≡ END_OF_PACKET
        → place_after (place text pending) (packet_chars_of first ack packet last) ≡ place_start }
{}

/// Two events are the same exactly where the test of events says so; and the event of a packet's
/// bytes is the packet that they carry, or else tells that they are too short or carry none: what
/// `rio_packets::check` answers of them.
pub fn event_laws()
    ensures same { (e x : Event) → same_event e x ≡ true → e ≡ x }
    ensures back { (e x : Event) → e ≡ x → same_event e x ≡ true }

    ensures carried { (bytes : List ℕ) (ack : ℕ) (packet : List ℕ) → Carries bytes ack packet
        → packet_event bytes ≡ Event.Pkt ack packet }
    ensures too_short { (bytes : List ℕ) → length bytes < 8
        → packet_event bytes ≡ Event.Bad General }
    ensures no_packet { (bytes : List ℕ) → 8 ≤ length bytes
        → ((ack : ℕ) (packet : List ℕ) → Carries bytes ack packet → ⊥)
        → packet_event bytes ≡ Event.Bad BadPacket }
    ensures checked { (bytes : List ℕ) → length bytes ≤ 276
        → packet_event bytes ≡ checked_event (checked bytes) }
{}

/// The front of characters up to and with the first that tells: it is as long as there are
/// characters where none tells, and all events of the characters are its own, at its last
/// character, and those of the characters behind it.
pub fn events_go_by_fronts()
    ensures count { (from : Place) (chars : List Char)
        → (telling_front from chars).count ≤ length chars }
    ensures some { (from : Place) (chars : List Char) → 0 < length chars
        → 0 < (telling_front from chars).count }
    ensures all { (from : Place) (chars : List Char) → (telling_front from chars).step.gives ≡ []
        → (telling_front from chars).count ≡ length chars }
    ensures place { (from : Place) (chars : List Char) → (telling_front from chars).step.place
        ≡ place_after from (take (telling_front from chars).count chars) }
    ensures events { (from : Place) (at n : ℕ) (chars : List Char)
        → at + (telling_front from chars).count ≡ suc n
        → run from at chars ≡ placed n (telling_front from chars).step.gives
        ++ run (telling_front from chars).step.place (suc n)
        (drop (telling_front from chars).count chars) }
    ensures two { (from : Place) (chars : List Char)
        → AreGiven (telling_front from chars).step.gives }
{}
