//! What keeps two ports sound.

ghost use Rattle.std.specs.Prelude.{◌≡◌, ◌≢◌, ℕ, ◌<◌, ◌≤◌, Bool, true, false, List, [], ◌∷◌, ◌++◌, length};
ghost use Rattle.link_buffers.specs.Prelude.{Buffered, appended, Covers};
ghost use Rattle.link_port.specs.Prelude.{Event, Ctl, Pkt, PortState, new_port, acts, is_acted, turns_to, turn_sends, tell_sends, timed_out, prios_of, expected_of};
ghost use Rattle.link_model.specs.Output as out;
ghost use Rattle.link_model.specs.Prelude.{packet_accepted, Place, Outstanding, distance};
ghost use Rattle.link_model.specs.Symbols.{link_response};
ghost use Rattle.link_sound.specs.Meanings.{oldest_of};
ghost use Rattle.link_port.specs.Ports.{IsPort};
ghost use Rattle.link_sound.specs.Sound.{IsSound, reply_sent};
ghost use Rattle.link_sound.specs.Told.{IsTold};

/// Two new ports, with nothing on its way between them. Either port may be named first.
pub fn links_begin_sound()
    ensures new { (tells_a tells_b : Bool) (m n : ℕ)
        → IsSound (new_port tells_a m) (new_port tells_b n) [] [] }
    ensures exchanged { (a b : PortState) (kept_a kept_b : List Event) → IsSound a b kept_a kept_b
        → IsSound b a kept_b kept_a }
{}

/// The steps of a port: a turn; the status of a port that tells its free buffers; an event that the
/// far port sent and that is acted on; what comes and is not acted on, whoever sent it; and a
/// time-out, after which nothing that was sent before arrives. A reply goes to what the port has
/// sent.
pub fn steps_keep_it()
    ensures turn { (a b : PortState) (kept_a kept_b : List Event)
        → Covers (prios_of a.output) a.queued
        → IsSound a b kept_a kept_b
        → IsSound (turns_to a) b (kept_a ++ (turn_sends a).sent) kept_b }
    ensures tell { (a b : PortState) (kept_a kept_b : List Event) → IsSound a b kept_a kept_b
        → IsSound a b (kept_a ++ (tell_sends a).sent) kept_b }
    ensures acted { (a b : PortState) (kept_a kept_b : List Event) (e : Event)
        → Covers (prios_of a.output) a.queued
        → is_acted a e ≡ true → IsSound a b kept_a (e ∷ kept_b)
        → IsSound (acts a e).port b (kept_a ++ reply_sent (acts a e).reply) kept_b }
    ensures other { (a b : PortState) (kept_a kept_b : List Event) (e : Event)
        → is_acted a e ≡ false → IsSound a b kept_a kept_b
        → IsSound (acts a e).port b (kept_a ++ reply_sent (acts a e).reply) kept_b }
    ensures time_out { (a b : PortState) (kept_a kept_b : List Event)
        → IsSound a b kept_a kept_b → IsSound (timed_out a) b [] [] }
{}

/// What was sent first may be lost, both ways.
pub fn events_may_be_lost()
    ensures { (a b : PortState) (lost_a kept_a lost_b kept_b : List Event)
        → IsSound a b (lost_a ++ kept_a) (lost_b ++ kept_b) → IsSound a b kept_a kept_b }
{}

/// The layer above puts a packet to be sent, and takes packets that were received. What the framer
/// has read is not spoken of either.
pub fn the_layer_above_keeps_it()
    ensures put { (a b : PortState) (kept_a kept_b : List Event) (prio : ℕ) (packet : List ℕ)
        → Covers (prios_of a.output) a.queued → prio < length a.queued
        → IsSound a b kept_a kept_b
        → IsSound (record a { queued = appended a.queued prio packet }) b kept_a kept_b }
    ensures other_parts { (a b : PortState) (kept_a kept_b : List Event) (received : Buffered)
        (place : Place)
        → IsSound a b kept_a kept_b
        → IsSound (record a { received = received; place = place }) b kept_a kept_b }
{}

/// A buffer status on its way is that of a port that tells its free buffers, or else of one that
/// does not, and a sender keeps a report only of a port that tells. It is so of new ports, and each
/// step keeps it.
pub fn only_telling_ports_tell()
    ensures new { (tells_a tells_b : Bool) (m n : ℕ)
        → IsTold (new_port tells_a m) (new_port tells_b n) [] }
    ensures turn { (a b : PortState) (kept_a kept_b : List Event) → IsPort a
        → IsTold b a kept_a → IsTold a b kept_b
        → IsTold b (turns_to a) (kept_a ++ (turn_sends a).sent) × IsTold (turns_to a) b kept_b }
    ensures tell { (a b : PortState) (kept_a : List Event) → IsPort a
        → IsTold b a kept_a → IsTold b a (kept_a ++ (tell_sends a).sent) }
    ensures acted { (a b : PortState) (kept_a kept_b : List Event) (e : Event) → IsPort a
        → is_acted a e ≡ true → IsTold b a kept_a → IsTold a b (e ∷ kept_b)
        → IsTold b (acts a e).port (kept_a ++ reply_sent (acts a e).reply)
        × IsTold (acts a e).port b kept_b }
    ensures other { (a b : PortState) (kept_a kept_b : List Event) (e : Event) → IsPort a
        → is_acted a e ≡ false → IsTold b a kept_a → IsTold a b kept_b
        → IsTold b (acts a e).port (kept_a ++ reply_sent (acts a e).reply)
        × IsTold (acts a e).port b kept_b }
    ensures time_out { (a b : PortState) (kept_a kept_b : List Event)
        → IsTold b a kept_a → IsTold a b kept_b
        → IsTold b (timed_out a) [] × IsTold (timed_out a) b [] }
    ensures lost { (a b : PortState) (lost kept : List Event)
        → IsTold a b (lost ++ kept) → IsTold a b kept }
{}

/// No sender has failed. The far port expects the oldest packet that is not acknowledged, or a
/// later one, at most the next to be sent; where the sender has still to send a restart-from-retry,
/// it expects the oldest.
pub fn no_sender_fails()
    ensures failed { (a b : PortState) (kept_a kept_b : List Event) → IsSound a b kept_a kept_b
        → a.output ≢ out.Output.Failed }
    ensures lent { (a b : PortState) (kept_a kept_b : List Event)
        → Covers (prios_of a.output) a.queued
        → IsSound a b kept_a kept_b
        → distance (oldest_of a.output) (expected_of b.input) ≤ length (prios_of a.output) }
    ensures retry { (a b : PortState) (kept_a kept_b : List Event) (w : Outstanding)
        → a.output ≡ out.Output.RetryStopped w
        → IsSound a b kept_a kept_b → distance w.oldest (expected_of b.input) ≡ 0 }
{}

/// Not everything is sound: between two new ports there is no acceptance on its way, no
/// link-response that nothing asked for, and no packet that the sender does not know of, each with
/// ackID 0.
pub fn what_is_not_sound()
    ensures acceptance { (tells_a tells_b : Bool) (m n : ℕ)
        → IsSound (new_port tells_a m) (new_port tells_b n) [] (Ctl (packet_accepted 0 31) ∷ [])
        → ⊥ }
    ensures response { (tells_a tells_b : Bool) (m n : ℕ)
        → IsSound (new_port tells_a m) (new_port tells_b n) [] (Ctl (link_response 0 16) ∷ []) → ⊥ }
    ensures packet { (tells_a tells_b : Bool) (m n : ℕ) (packet : List ℕ)
        → IsSound (new_port tells_a m) (new_port tells_b n) (Pkt 0 packet ∷ []) [] → ⊥ }
{}
