//! Lines that the reasons hit.

ghost use Rattle.std.specs.Prelude.{[], take};
ghost use Rattle.trace_check.specs.Checks.{PassAll};
ghost use Rattle.trace_check.specs.Lawful.{OffWire, NoSuchStep, NotCome, NotAllowed, NotThere, Spares, IsLawful, IsUnlawful};
ghost use Rattle.trace_check.specs.Examples.{packet_network, once_sent, half_got, once_got, once_held, once_accepted, once_freed, sent_line, got_line, fire_line, hold_line, other_hold_line, free_line, leave_line, alters_behind, alters_last, says_short, packet_known, packet_texts, freed_early};
ghost use Rattle.fabric_trace.specs.Examples.{packet_trace};

/// The trace of one packet passes. Reasons hit these lines in its place: the packet is got, or
/// sent, at the start; a time-out fires while it stands on the wire; a character behind its last
/// one is altered, unless the next line is `short`; it leaves before it is held; it is held when
/// only a front of it came, or a second time, or another in its place; it is freed before its
/// acceptance came, or a second time.
pub fn reasons_can_hit()
    ensures passes { PassAll packet_network packet_trace }
    ensures got { Spares packet_network [] got_line [] OffWire → ⊥ }
    ensures fired { Spares packet_network once_sent fire_line [] OffWire → ⊥ }
    ensures altered { Spares packet_network once_sent alters_behind [] OffWire → ⊥ }
    ensures altered_last { Spares packet_network once_sent alters_last [] OffWire }
    ensures short { Spares packet_network once_sent alters_behind says_short OffWire }
    ensures left { Spares packet_network once_got leave_line [] NoSuchStep → ⊥ }
    ensures early { Spares packet_network half_got hold_line [] NotCome → ⊥ }
    ensures another { Spares packet_network once_got other_hold_line [] NotCome → ⊥ }
    ensures twice { Spares packet_network once_held hold_line [] NotCome → ⊥ }
    ensures freed { Spares packet_network once_accepted free_line [] NotAllowed → ⊥ }
    ensures freed_again { Spares packet_network once_freed free_line [] NotAllowed → ⊥ }
    ensures sent { Spares packet_network [] sent_line [] NotThere → ⊥ }
{}

/// The texts of a trace of one packet, without event lines, are lawful, and have four steps.
pub fn a_packet_can_be_lawful()
    ensures { IsLawful packet_known packet_network packet_texts 4 }
{}

/// Without their last line they are not: reason 21 hits the line that is missing. If the packet is
/// freed before its acceptance came, reason 25 hits that line.
pub fn a_packet_can_be_unlawful()
    ensures no_end { IsUnlawful packet_known packet_network (take 8 packet_texts) 8 21 }
    ensures freed_early { IsUnlawful packet_known packet_network freed_early 5 25 }
{}
