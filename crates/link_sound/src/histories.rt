//! Whole histories of two ports of a link.

ghost use Rattle.std.specs.Prelude.{◌≡◌, ◌≢◌, ℕ, Bool, true, false, None, [], ◌∷◌};
ghost use Rattle.link_model.specs.Output as out;
ghost use Rattle.link_model.specs.Outstanding.{from_ack};
ghost use Rattle.link_port.specs.Ports.{IsPort};
ghost use Rattle.link_sound.specs.Histories.{Link, AreBuffers, new_link, IsHistory, AreCarried};
ghost use Rattle.link_sound.specs.Sound.{IsSound};
ghost use Rattle.link_sound.specs.Worked.{one_arrived, arrivals};

/// After every history from two new ports, of any number of turns, events, losses, time-outs and
/// packets put and taken, where each event that is acted on is one that the far port has sent: both
/// are as every port is, they are sound, and no sender has failed. Of each priority the packets put
/// at one port are those that the other has held, in order and each once, and then those that still
/// wait; and those held are the packets that the first has freed, in order, and then those lent. So
/// no packet is held twice, none is lost, and none is freed before it is held.
pub fn every_history_carries_packets()
    ensures carried { (tells_a tells_b : Bool) (m n : ℕ) (l : Link)
        → AreBuffers m → AreBuffers n → IsHistory (new_link tells_a tells_b m n) l
        → AreCarried l.of_a l.a l.b × AreCarried l.of_b l.b l.a }
    ensures sound { (tells_a tells_b : Bool) (m n : ℕ) (l : Link)
        → AreBuffers m → AreBuffers n → IsHistory (new_link tells_a tells_b m n) l
        → IsSound l.a l.b l.kept_a l.kept_b }
    ensures ports { (tells_a tells_b : Bool) (m n : ℕ) (l : Link)
        → AreBuffers m → AreBuffers n → IsHistory (new_link tells_a tells_b m n) l
        → IsPort l.a × IsPort l.b }
    ensures failed { (tells_a tells_b : Bool) (m n : ℕ) (l : Link)
        → AreBuffers m → AreBuffers n → IsHistory (new_link tells_a tells_b m n) l
        → (l.a.output ≢ out.Output.Failed) × (l.b.output ≢ out.Output.Failed) }
{}

/// A history of two new ports, so that the law above is not empty: a packet is put at the one, sent
/// between its two symbols, held by the other and accepted, and freed.
pub fn worked_history()
    ensures { (end : Link) × IsHistory (new_link false false 4 4) end × (end.of_a ≡ one_arrived) }
{}

/// A history with a retry. The second of two packets finds no buffer and is asked for again: it is
/// sent again after a restart-from-retry, held and freed.
pub fn worked_retry()
    ensures { (stopped end : Link) × IsHistory (new_link false false 4 4) stopped
        × (stopped.a.output
        ≡ out.Output.RetryStopped (record { oldest = 1; prios = 0 ∷ []; report = None }))
        × IsHistory stopped end × (end.of_a ≡ arrivals 2) }
{}

/// A history with a recovery past ackID 31. Of two packets with ackIDs 31 and 0 the first is
/// corrupted: after a link-request and its link-response both are sent again, held and freed, as
/// the 31 packets before them.
pub fn worked_recovery()
    ensures { (asked end : Link) × IsHistory (new_link false false 4 4) asked
        × (asked.a.output
        ≡ out.Output.ErrorStopped true (record { oldest = 31; prios = 0 ∷ 0 ∷ []; report = None }))
        × IsHistory asked end × (end.a.output ≡ out.Output.Ok (from_ack 1 None))
        × (end.of_a ≡ arrivals 33) }
{}
