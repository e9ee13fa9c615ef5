//! Small runs, and lines of which the laws do not hold.

ghost use Rattle.std.specs.Prelude.{◌≡◌, ◌≢◌, ℕ, false, List, [], ◌∷◌, ◌++◌, Some, None};
ghost use Rattle.rio_chars.specs.declared.chars.Char.{Char};
ghost use Rattle.link_model.specs.Symbols.{packet_accepted};
ghost use Rattle.link_model.specs.declared.event.Event.TheVariants.{Ctl, Pkt};
ghost use Rattle.link_machine.specs.Rest.{IsSettled};
ghost use Rattle.maint_packets.specs.declared.next_hop.Next.TheVariants.{Port};
ghost use Rattle.fabric_script.specs.declared.lines.Line.TheVariants.{Settle, Run};
ghost use Rattle.fabric_model.specs.Network.{Network};
ghost use Rattle.fabric_model.specs.Serving.{next_at};
ghost use Rattle.fabric_model.specs.Steps.{LegalFrom};
ghost use Rattle.fabric_trace.specs.Allowance.{FreesAllowed};
ghost use Rattle.fabric_trace.specs.AtRest.{IsBlockAtRest};
ghost use Rattle.fabric_trace.specs.Examples.{near, far, pair_network, idle_script, idle_trace, packet_script, packet_trace, telling_script, telling_trace, accepted_chars, switch_script, switch_trace, two_held, dropped_at, moved_to, joined_with_itself, held_from_nowhere, held_in_wrong_order, frees_once, freed_twice, freed_later, accepted_in_pieces, accepted_before, got_from_nowhere, got_another, got_behind_a_find, sent_from_nowhere, fires_once, still_under_way, moving, acted_from_nowhere, named_though_sent, not_settled, not_settled_yet, goes_on_with, named_at, found_before, fails_in_a_delivery, fails_in_a_run};
ghost use Rattle.fabric_trace.specs.Faithful.{Faithful};
ghost use Rattle.fabric_trace.specs.Firsts.{FindsFirst};
ghost use Rattle.fabric_trace.specs.Fold.{says, seen};
ghost use Rattle.fabric_trace.specs.Frees.{Gotten, nothing_got, completed, FreesSaid};
ghost use Rattle.fabric_trace.specs.Holds.{HoldsCame};
ghost use Rattle.fabric_trace.specs.Known.{Seen, link_at};
ghost use Rattle.trace_lines.specs.Lines.{TraceLine, steps_of};
ghost use Rattle.fabric_trace.specs.Noted.{FreesNoted};
ghost use Rattle.fabric_trace.specs.OnTheWay.{NeverFailWithin};
ghost use Rattle.fabric_trace.specs.Owned.{AreOwned};
ghost use Rattle.fabric_trace.specs.Rounds.{SettlesTo};
ghost use Rattle.fabric_trace.specs.Runs.{bare, begins, Runs};
ghost use Rattle.fabric_trace.specs.Served.{IsMove};
ghost use Rattle.fabric_trace.specs.SetUps.{MaySetUpAll};
ghost use Rattle.fabric_trace.specs.Settled.{Settled};
ghost use Rattle.fabric_trace.specs.Wires.{WireFold};
ghost use Rattle.fabric_trace.specs.Working.{NeverFail};

/// The small run is a trace of its script.
pub fn small_run()
    ensures { Runs idle_script idle_trace }
{}

/// So is the run of one packet, which is taken, sent, held, acknowledged, freed and collected.
pub fn small_run_with_a_packet()
    ensures { Runs packet_script packet_trace }
{}

/// So is that of a status, which a port that tells its free buffers sends in a turn, and another
/// does not.
pub fn small_run_with_a_status()
    ensures { Runs telling_script telling_trace }
{}

/// So is that of a switch that has nothing to move.
pub fn small_run_with_a_switch()
    ensures { Runs switch_script switch_trace }
{}

/// Of two packets, a switch first serves the one of the higher priority, and of the same priority
/// the one of the lower port.
pub fn two_ports_in_order()
    ensures priority { IsMove (two_held 1) 0 (dropped_at 1 1) }
    ensures port { IsMove (two_held 0) 0 (dropped_at 0 0) }
{}

/// The laws do not hold of these lines: a switch moves a packet to another port than its table
/// names; a port is linked with itself; a packet is held that nobody sent, or two are in the wrong
/// order; a port gets a character that was not on the wire, or another one than was; it sends a
/// packet that it does not have; a time-out fires where a character is on its way.
pub fn laws_can_fail()
    ensures elsewhere { (net end : Network) (node from named to : ℕ) (packet : List ℕ)
        → next_at net node packet ≡ Some (Port named) → named ≢ to
        → LegalFrom net (steps_of (moved_to node from to packet)) end → ⊥ }
    ensures joined { MaySetUpAll bare joined_with_itself → ⊥ }
    ensures held { (end : Network) → LegalFrom pair_network (steps_of held_from_nowhere) end → ⊥ }
    ensures came { HoldsCame far held_from_nowhere → ⊥ }
    ensures order { (chars : List Char) (first second : List ℕ) → first ≢ second
        → says chars ≡ Pkt 0 first ∷ Pkt 1 second ∷ []
        → HoldsCame far (held_in_wrong_order chars first second) → ⊥ }
    ensures got { WireFold pair_network.links (λ p. []) got_from_nowhere → ⊥ }
    ensures another { (sent other : Char) → sent ≢ other
        → WireFold pair_network.links (λ p. []) (got_another sent other) → ⊥ }
    ensures sent { AreOwned (begins pair_network) sent_from_nowhere → ⊥ }
    ensures fired { AreOwned moving fires_once → ⊥ }
{}

/// The laws of frees do not hold of these: a packet is freed before it was accepted, or after a
/// delivery that came later than its acceptance, or two are by one acceptance; one is freed in
/// another event than that of the delivery. An acceptance may come in two deliveries: the second
/// completes it.
pub fn laws_of_frees_can_fail()
    ensures freed { FreesSaid near nothing_got 0 frees_once → ⊥ }
    ensures twice { (known : Gotten) → completed known ≡ Ctl (packet_accepted 0 31) ∷ []
        → FreesSaid near known 0 freed_twice → ⊥ }
    ensures earlier { FreesSaid near accepted_before 0 frees_once → ⊥ }
    ensures pieces { FreesSaid near accepted_in_pieces 0 frees_once }
    ensures noted { FreesNoted near false frees_once → ⊥ }
    ensures later { FreesNoted near false freed_later → ⊥ }
    ensures allowed { FreesAllowed near [] 0 frees_once → ⊥ }
    ensures once { FreesAllowed near accepted_chars 0 frees_once }
    ensures too_many { FreesAllowed near accepted_chars 0 freed_twice → ⊥ }
{}

/// Nor do those of what is acted on, of rest and of senders: an event was acted on that nobody
/// sent, or is named though it was sent; a character is still on its way; a link is not at rest
/// behind its `settle`, where the trace ends or the next event begins; an event begins, or a port
/// gets characters, behind an event that was found not to be sent; another event is named than was
/// found, or one where none was; a sender has failed where an event begins, or fails in a delivery.
pub fn laws_of_links_can_fail()
    ensures acted { Faithful (begins pair_network) acted_from_nowhere → ⊥ }
    ensures undetected { Faithful (begins pair_network) named_though_sent → ⊥ }
    ensures moving { IsSettled (link_at moving near far) → ⊥ }
    ensures round { SettlesTo (λ s a b lines. lines ≡ []) moving near far [] → ⊥ }
    ensures settle { (s : Seen) (block : List TraceLine) → s.network ≡ pair_network
        → IsBlockAtRest s (Settle near) block → (seen s block).undetected ≡ None
        → IsSettled (link_at (seen s block) near far) }
    ensures rounds { (s : Seen) (block : List TraceLine) → s.network ≡ pair_network
        → IsBlockAtRest s (Run 1) block → (first : List TraceLine) × (rest : List TraceLine)
        × (block ≡ first ++ rest) × ((seen s first).undetected ≡ None
        → IsSettled (link_at (seen s first) near far)) }
    ensures resting { Settled (begins pair_network) None not_settled → ⊥ }
    ensures resting_before { Settled (begins pair_network) None not_settled_yet → ⊥ }
    ensures found_before { Settled found_before None goes_on_with → ⊥ }
    ensures named { Settled (begins pair_network) None (named_at far) → ⊥ }
    ensures named_other { Settled found_before None (named_at near) → ⊥ }
    ensures second { FindsFirst (begins pair_network) got_behind_a_find → ⊥ }
    ensures failed { NeverFail (begins pair_network) fails_in_a_run → ⊥ }
    ensures failed_within { NeverFailWithin (begins pair_network) fails_in_a_delivery → ⊥ }
{}
