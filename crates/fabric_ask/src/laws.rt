//! Laws of asks, each the contract of a function with an empty body.
ghost use Rattle.std.specs.Prelude.{◌≡◌, ◌++◌, [], ◌∷◌, ℕ, ◌<◌, false, List, None, Some};
ghost use Rattle.rio_packets.specs.LinkForm.{LinkForm, Passes};
ghost use Rattle.maint_registers.specs.Devices.{Registers, is_switch};
ghost use Rattle.maint_registers.specs.Within.{IsWithin};
ghost use Rattle.maint_packets.specs.Requests.{request_of, request_body};
ghost use Rattle.maint_packets.specs.declared.request.Request.{Request};
ghost use Rattle.rio_chars.specs.declared.edit.Edit.{Edit};
ghost use Rattle.fabric_script.specs.declared.ports.PortRef.{PortRef};
ghost use Rattle.fabric_model.specs.Network.{IsEndpoint, Item};
ghost use Rattle.fabric_model.specs.Steps.{AtNode, Leave};
ghost use Rattle.fabric_trace.specs.Fold.{seen};
ghost use Rattle.fabric_trace.specs.Known.{Seen};
ghost use Rattle.trace_lines.specs.Lines.{TraceLine, Stepped};
ghost use Rattle.fabric_trace.specs.Parts.{Made};
ghost use Rattle.fabric_trace.specs.Ready.{IsReady};
ghost use Rattle.fabric_ask.specs.Answered.{IsRoundTrip, IsReplied};
ghost use Rattle.fabric_ask.specs.Asks.{AskRound, IsAsk};
ghost use Rattle.fabric_ask.specs.Course.{IsLaid, Rounded};
ghost use Rattle.fabric_ask.specs.Only.{Waits, IsOnly, IsClear};
ghost use Rattle.fabric_ask.specs.Own.{with_own, NeverAnswers, CollectsNothing};
ghost use Rattle.fabric_ask.specs.Quiet.{AreQuiet};

/// An ask is replied to if its request goes to a device and the response back, by the tables. A
/// packet leaves at the host in the end only then.
pub fn asks_are_answered()
    ensures replied { (host : ℕ) (request : Request) (noise : List Edit) (s : Seen)
        (lines : List TraceLine) (at : PortRef) → IsReady s → s.undetected ≡ None
        → IsClear s.network → IsLaid s.network.registers s.network.links host
        → request.hop < 256
        → ((packet : List ℕ) → LinkForm (request_body request) packet
        → request_of packet ≡ Some request)
        → IsAsk host request noise s lines → (seen s lines).undetected ≡ None
        → IsRoundTrip s.network.registers s.network.links host request at
        → IsReplied host s lines at request }
    ensures only_then { (host : ℕ) (request : Request) (noise : List Edit) (s : Seen)
        (lines front : List TraceLine) (packet : List ℕ) → IsReady s → s.undetected ≡ None
        → IsClear s.network → IsLaid s.network.registers s.network.links host
        → request.hop < 256
        → ((packet : List ℕ) → LinkForm (request_body request) packet
        → request_of packet ≡ Some request)
        → IsAsk host request noise s lines → (seen s lines).undetected ≡ None
        → lines ≡ front ++ Stepped (AtNode (Leave host packet)) ∷ []
        → (at : PortRef) × IsRoundTrip s.network.registers s.network.links host request at }
{}

/// A round carries the one packet over its link, and then a device takes it, or it waits at a port
/// without a link. All links are at rest then, and the host collects nothing.
pub fn a_round_carries_the_packet()
    ensures carried { (host : ℕ) (noise left : List Edit) (s : Seen) (lines : List TraceLine)
        (p : PortRef) (item : Item) → IsReady s → s.undetected ≡ None
        → IsOnly s.network (Waits p) item → Passes item.now
        → IsLaid s.network.registers s.network.links host → AskRound host noise left s lines
        → (seen s lines).undetected ≡ None → Rounded host s.network p item (seen s lines).network }
    ensures quiet { (host : ℕ) (noise left : List Edit) (s : Seen) (lines : List TraceLine)
        → IsReady s → s.undetected ≡ None → AskRound host noise left s lines
        → (seen s lines).undetected ≡ None → AreQuiet s.network.links (seen s lines) }
    ensures uncollected { (host : ℕ) (noise left : List Edit) (s : Seen) (lines : List TraceLine)
        → IsReady s → s.undetected ≡ None → IsEndpoint s.network host
        → AskRound host noise left s lines → CollectsNothing host lines }
{}

/// Lines in which a host's registers answer nothing may follow whatever these registers are, and
/// leave the same but for these registers.
pub fn a_host_has_its_own_registers()
    ensures made { (host : ℕ) (device : Registers) (s : Seen) (lines : List TraceLine)
        → is_switch device ≡ false → IsEndpoint s.network host → NeverAnswers host lines
        → Made (with_own host device s) lines → Made s lines }
    ensures seen { (host : ℕ) (device : Registers) (s : Seen) (lines : List TraceLine)
        → is_switch device ≡ false → IsEndpoint s.network host → NeverAnswers host lines
        → seen (with_own host device s) lines ≡ with_own host device (seen s lines) }
    ensures ready { (host : ℕ) (device : Registers) (s : Seen) → IsWithin device
        → IsReady s → IsReady (with_own host device s) }
{}

/// From each state that a trace may go on from there are lines of an ask, whatever edits the wires
/// meet.
pub fn asks_have_lines()
    ensures { (host : ℕ) (request : Request) (noise : List Edit) (s : Seen) (packet : List ℕ)
        → IsReady s → s.undetected ≡ None → IsEndpoint s.network host
        → LinkForm (request_body request) packet
        → (lines : List TraceLine) × IsAsk host request noise s lines }
{}

/// Where no edit is made, and all links are at rest before, every event that is acted on in an ask
/// was sent.
pub fn without_edits_nothing_is_undetected()
    ensures { (host : ℕ) (request : Request) (s : Seen) (lines : List TraceLine) → IsReady s
        → s.undetected ≡ None → AreQuiet s.network.links s → IsAsk host request [] s lines
        → (seen s lines).undetected ≡ None }
{}

/// A request has one device from which its response comes back, whatever edits the wires meet.
pub fn an_ask_has_one_trip()
    ensures { (registers : List Registers) (links : List (PortRef × PortRef)) (host : ℕ)
        (request : Request) (at other : PortRef)
        → IsRoundTrip registers links host request at
        → IsRoundTrip registers links host request other → at ≡ other }
{}
