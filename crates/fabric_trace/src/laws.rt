//! What holds of every trace. The calls do nothing: their clauses are the laws.

ghost use Rattle.std.specs.Prelude.{◌≡◌, ◌≢◌, ◌↔◌, ℕ, ◌+◌, ◌++◌, false, true, List, [], Some, None};
ghost use Rattle.rio_chars.specs.declared.chars.Char.{Char};
ghost use Rattle.link_model.specs.Output as out;
ghost use Rattle.link_machine.specs.Rest.{IsSettled};
ghost use Rattle.link_wires.specs.Deliveries.{undetected};
ghost use Rattle.fabric_script.specs.Lines.{is_event};
ghost use Rattle.fabric_script.specs.Scripts.{ScriptPasses};
ghost use Rattle.fabric_script.specs.declared.lines.Line.{Line};
ghost use Rattle.fabric_script.specs.declared.lines.Numbered.{Numbered};
ghost use Rattle.fabric_script.specs.declared.ports.PortRef.{PortRef};
ghost use Rattle.fabric_model.specs.Network.{Network};
ghost use Rattle.fabric_model.specs.Steps.{LegalFrom};
ghost use Rattle.fabric_model.specs.Laws.Freeing.{IsFront};
ghost use Rattle.fabric_model.specs.Laws.Lawful.{Lawful};
ghost use Rattle.fabric_model.specs.Laws.Nodes.{StandAtNodes, all_ports};
ghost use Rattle.fabric_model.specs.Laws.Stock.{stock, takes_by, leaves_by, drops_by, steps_in};
ghost use Rattle.fabric_trace.specs.Allowance.{FreesAllowed};
ghost use Rattle.fabric_trace.specs.AtRest.{IsBlockAtRest};
ghost use Rattle.fabric_trace.specs.Blocks.{IsSettle, IsBlock};
ghost use Rattle.fabric_trace.specs.Ends.{EndsAs};
ghost use Rattle.fabric_trace.specs.Events.{FitsPacket, IsThere};
ghost use Rattle.fabric_trace.specs.Faithful.{ActsOnSent};
ghost use Rattle.fabric_trace.specs.Frees.{nothing_got, FreesSaid};
ghost use Rattle.fabric_trace.specs.Holds.{HoldsCame};
ghost use Rattle.fabric_trace.specs.Fold.{taken_from, seen};
ghost use Rattle.fabric_trace.specs.Known.{Seen, peer_of, port_seen, link_at};
ghost use Rattle.trace_lines.specs.Lines.{TraceLine, steps_of};
ghost use Rattle.fabric_trace.specs.Links.{AreLinks};
ghost use Rattle.fabric_trace.specs.Noted.{FreesNoted};
ghost use Rattle.fabric_trace.specs.OnTheWay.{NeverFailWithin};
ghost use Rattle.fabric_trace.specs.Owned.{AreOwned};
ghost use Rattle.fabric_trace.specs.Parts.{Made};
ghost use Rattle.fabric_trace.specs.Ready.{IsReady};
ghost use Rattle.fabric_trace.specs.Rounds.{Rounds, SettlesTo};
ghost use Rattle.fabric_trace.specs.Runs.{Runs, RunsBy, Begins, BeginsBy, bare, set_up_all, begins, start};
ghost use Rattle.fabric_trace.specs.SetUps.{IsSetUp, MaySetUpAll};
ghost use Rattle.fabric_trace.specs.Shown.{Shown};
ghost use Rattle.fabric_trace.specs.Wires.{WireFold};

/// A script has at most one trace.
#[tactic(auto, using(crate::proofs::Traces::Unique::runs_one))]
pub fn one_trace()
    ensures { (script : List Numbered) (a b : List TraceLine) → Runs script a → Runs script b
        → a ≡ b }
{}

/// Each script that passes has exactly one trace.
pub fn every_script_has_one_trace()
    ensures { (names : List (List ℕ)) (script : List Numbered) → ScriptPasses names script
        → (lines : List TraceLine) × Runs script lines
        × ((other : List TraceLine) → Runs script other → other ≡ lines) }
{}

/// An event has at most one block, and from each state that a trace may go on from it has one: if
/// what it says fits the bytes of a packet, what it names is there, and every event that was acted
/// on was sent.
pub fn one_block()
    ensures one { (line : Line) (s : Seen) (one other : List TraceLine) → IsBlock s line one
        → IsBlock s line other → one ≡ other }
    ensures some { (line : Line) (s : Seen) → IsReady s → s.undetected ≡ None
        → is_event line ≡ true → FitsPacket line → IsThere s.network line
        → (block : List TraceLine) × IsBlock s line block }
{}

/// The blocks of a script's first events are a front of any trace of it.
pub fn first_blocks_are_a_front()
    ensures { (script : List Numbered) (lines all : List TraceLine)
        → Begins script lines → Runs script all → IsFront lines all }
{}

/// The lines of set-up give a network with no packet in it, in which each port stands in at most
/// one link and has 4 to 30 receive buffers, and each number of a device fits its register, if each
/// line may stand behind those before it.
pub fn set_up()
    ensures { (script : List Numbered) → MaySetUpAll bare script
        → IsSetUp (set_up_all bare script) }
{}

/// A network that is set up is a state that a trace may go on from, and so is each that lines made
/// of parts lead to from such a state.
pub fn states_stay_ready()
    ensures begun { (net : Network) → IsSetUp net → IsReady (begins net) }
    ensures kept { (s : Seen) (lines : List TraceLine) → IsReady s → Made s lines
        → IsReady (seen s lines) }
{}

/// Every trace of a script is made of parts: event lines, steps at nodes, turns, statuses,
/// deliveries and time-outs, each in the state that is reached.
pub fn runs_are_made()
    ensures { (script : List Numbered) (lines : List TraceLine)
        → MaySetUpAll bare script → Runs script lines → Made (start script) lines }
{}

/// The steps that lines made of parts say are legal in the plain network, and lead to the network
/// that is known after them; so are the steps of each front of the lines. All laws of legal steps
/// hold of them, and of the steps of every trace of a script.
pub fn steps_are_legal()
    ensures all { (net : Network) (lines : List TraceLine) → IsSetUp net → Made (begins net) lines
        → LegalFrom net (steps_of lines) (seen (begins net) lines).network }
    ensures front { (net : Network) (front rest : List TraceLine) → IsSetUp net
        → Made (begins net) (front ++ rest)
        → LegalFrom net (steps_of front) (seen (begins net) front).network }
    ensures lawful { (net : Network) (lines : List TraceLine) → IsSetUp net
        → Made (begins net) lines
        → Lawful net (steps_of lines) (seen (begins net) lines).network }
    ensures of_script { (script : List Numbered) (lines : List TraceLine) → MaySetUpAll bare script
        → Runs script lines
        → Lawful (set_up_all bare script) (steps_of lines) (seen (start script) lines).network }
{}

/// In each trace of a script that passes, packets stand at ports of nodes alone; and as many as
/// were taken stand there, have left or were dropped.
pub fn packets_stand_or_end()
    ensures stand { (names : List (List ℕ)) (script : List Numbered) (lines : List TraceLine)
        → ScriptPasses names script → Runs script lines
        → StandAtNodes (seen (start script) lines).network }
    ensures balance { (names : List (List ℕ)) (script : List Numbered) (lines : List TraceLine)
        → ScriptPasses names script → Runs script lines
        → steps_in takes_by (steps_of lines)
        ≡ steps_in leaves_by (steps_of lines) + steps_in drops_by (steps_of lines)
        + stock (seen (start script) lines).network
        (all_ports (seen (start script) lines).network.registers) }
{}

/// The two ports of each link, as the network shows them, are sound with the wires between them, as
/// long as every event that was acted on was sent. Then no sender has failed.
pub fn links_stay_sound()
    ensures sound { (net : Network) (lines : List TraceLine) → IsSetUp net → Made (begins net) lines
        → (seen (begins net) lines).undetected ≡ None → AreLinks (seen (begins net) lines) }
    ensures working { (net : Network) (lines : List TraceLine) (p q : PortRef) → IsSetUp net
        → Made (begins net) lines
        → (seen (begins net) lines).undetected ≡ None → peer_of (seen (begins net) lines) p ≡ Some q
        → (port_seen (seen (begins net) lines) p).output ≢ out.Output.Failed }
{}

/// Settling leaves a link at rest: both wires are empty, nothing is outstanding or lent, and at
/// each end nothing waits that has room at the other; if every event that was acted on was sent.
pub fn settling_leaves_a_link_at_rest()
    ensures { (net : Network) (before block : List TraceLine) (a b : PortRef) → IsSetUp net
        → Made (begins net) before
        → peer_of (seen (begins net) before) a ≡ Some b
        → (seen (begins net) before).undetected ≡ None
        → IsSettle (seen (begins net) before) a b block
        → (seen (begins net) (before ++ block)).undetected ≡ None
        → IsSettled (link_at (seen (begins net) (before ++ block)) a b) }
{}

/// Within a `run`, each link is at rest when it has settled, if every event that was acted on was
/// sent.
pub fn rounds_leave_links_at_rest()
    ensures { (net : Network) (n : ℕ) (before block : List TraceLine) → IsSetUp net
        → Made (begins net) before
        → (seen (begins net) before).undetected ≡ None
        → Rounds IsSettle n (seen (begins net) before) block
        → Rounds (SettlesTo IsSettle) n (seen (begins net) before) block }
{}

/// In each trace of a script every link is at rest when it has settled, in a `settle` and in each
/// round of a `run`, if every event that was acted on was sent.
pub fn traces_leave_links_at_rest()
    ensures whole { (script : List Numbered) (lines : List TraceLine) → MaySetUpAll bare script
        → Runs script lines → RunsBy IsBlockAtRest (start script) script lines }
    ensures front { (script : List Numbered) (lines : List TraceLine) → MaySetUpAll bare script
        → Begins script lines → BeginsBy IsBlockAtRest script lines }
{}

/// From each state that a network comes to, a `run` has a block, if every event that was acted on
/// was sent: each link has a way to settle, and the steps of each switch end.
pub fn rounds_exist()
    ensures { (net : Network) (n : ℕ) (lines : List TraceLine) → IsSetUp net
        → Made (begins net) lines
        → (seen (begins net) lines).undetected ≡ None
        → (block : List TraceLine) × Rounds IsSettle n (seen (begins net) lines) block }
{}

/// The characters that a port got stood at the front of its peer's wire, as it was sent and as the
/// script edited it.
pub fn what_a_port_got_was_on_the_wire()
    ensures { (net : Network) (lines : List TraceLine) → IsSetUp net → Made (begins net) lines
        → WireFold net.links (λ p. []) lines }
{}

/// The i-th packet that a port holds came to it with ackID i modulo 32, in the order of the holds:
/// in the reading of everything that it got.
pub fn what_a_port_holds_came_to_it()
    ensures { (net : Network) (lines : List TraceLine) (q : PortRef) → IsSetUp net
        → Made (begins net) lines
        → HoldsCame q lines }
{}

/// The j-th packet that a port frees, counted from 0, stands behind a delivery to it whose
/// characters complete an acceptance with ackID j modulo 32, or a link-response: in the reading of
/// everything that it got.
pub fn what_a_port_frees_was_acknowledged()
    ensures { (net : Network) (lines : List TraceLine) (p : PortRef) → IsSetUp net
        → Made (begins net) lines
        → FreesSaid p nothing_got 0 lines }
{}

/// Each packet that a port frees stands in the notes of a delivery to it: behind what it got, with
/// nothing but holds and frees between.
pub fn frees_stand_in_deliveries()
    ensures { (net : Network) (lines : List TraceLine) (p : PortRef)
        → Made (begins net) lines → FreesNoted p false lines }
{}

/// A port never frees more packets than it was allowed by what it got before: by one for each
/// acceptance of the packet whose turn it is, and up to the next packet that has its ackID for a
/// link-response.
pub fn what_a_port_frees_was_allowed()
    ensures { (net : Network) (lines : List TraceLine) (p : PortRef) → IsSetUp net
        → Made (begins net) lines → FreesAllowed p [] 0 lines }
{}

/// Each packet that a port sends waits there to be sent, or is lent there; and where a time-out
/// fires both wires of the link are empty.
pub fn what_a_port_sends_is_its_own()
    ensures { (s : Seen) (lines : List TraceLine) → IsReady s → Made s lines → AreOwned s lines }
{}

/// No sender fails within a delivery, after any of its events, also if it ends with an event that
/// was not sent.
pub fn no_sender_fails_within_a_delivery()
    ensures { (s : Seen) (lines : List TraceLine) → IsReady s → Made s lines
        → NeverFailWithin s lines }
{}

/// A trace ends with the line that says so, where every event that was acted on was sent; or with
/// the line that names the event that was not.
pub fn a_trace_ends()
    ensures { (script : List Numbered) (lines : List TraceLine) → Runs script lines
        → EndsAs (start script) lines }
{}

/// After any lines, a delivery finds no event that was not sent exactly if all that was acted on
/// since the last silence of the link, and behind it all that the step tables have the port act on
/// of what these characters say, stands in this order among what was sent since then.
pub fn acted_events_were_sent()
    ensures { (net : Network) (lines : List TraceLine) (p q : PortRef) (chars : List Char)
        → (undetected (taken_from (seen (begins net) lines) p q chars) ≡ None)
        ↔ ActsOnSent (seen (begins net) lines) p q chars }
{}

/// All laws of a trace of a script that may be set up, and of each front of its lines; and of each
/// front of the blocks of its first events, whether or not they have a rest.
pub fn what_a_trace_shows()
    ensures all { (script : List Numbered) (lines : List TraceLine) → MaySetUpAll bare script
        → Runs script lines → Shown script lines }
    ensures front { (script : List Numbered) (front rest : List TraceLine) → MaySetUpAll bare script
        → Runs script (front ++ rest) → Shown script front }
    ensures blocks { (script : List Numbered) (front rest : List TraceLine)
        → MaySetUpAll bare script → Begins script (front ++ rest) → Shown script front }
{}
