//! What a port that tells its free buffers has told stays true, and no sender that goes by it from
//! the first packet on is refused.

ghost use Rattle.std.specs.Prelude.{◌≡◌, ℕ, ◌+◌, ◌-◌, ◌<◌, ◌≤◌, ◌≢◌, Bool, true, false, IfSome, Some, None, List, [], ◌∷◌, length};
ghost use Rattle.link_model.specs.Prelude.{Input, Output, Outstanding, status, distance, PACKET_RETRY};
ghost use Rattle.link_model.specs.declared.reports.Report.{Report};
ghost use Rattle.link_model.specs.Outstanding.{next_ack};
ghost use Rattle.link_model.specs.Reports.{credit};
ghost use Rattle.link_port.specs.Prelude.{Event, Ctl, PortState, IsPort, new_port, acts, is_acted, expected_of};
ghost use Rattle.link_sound.specs.Receiver.{ReceiverRetryStopped};
ghost use Rattle.link_sound.specs.Meanings.{receiver_of};
ghost use Rattle.link_sound.specs.Sound.{IsSound};
ghost use Rattle.link_sound.specs.Credits.{HasTold, FindsRoom, free_buffers};
ghost use Rattle.link_sound.specs.Histories.{Link, AreBuffers, new_link, IsStep, IsHistory};
ghost use Rattle.link_sound.specs.InTime.{LeavesRoom, LeaveRoom, IsLinked, IsToldInTime};

/// A port that tells its free buffers tells of none that is not there, and this stays true in every
/// history in which the layer above it only takes packets away: what is on its way, and the report
/// that the far port keeps. So the credit that a sender has by its report, and the packets that it
/// has sent and that are not held yet, are together no more than the buffers that are free now. Of
/// a new port a status of as many buffers as it has is true, and one of one more is not.
pub fn what_was_told_stays_true()
    ensures new { (tells : Bool) (m n : ℕ) → HasTold (new_port tells m) (new_port true n) [] }
    ensures history { (l end : Link) (history : IsHistory l end) → LeaveRoom history
        → IsLinked l → HasTold l.a l.b l.kept_b → HasTold end.a end.b end.kept_b }
    ensures credit { (a b : PortState) (kept_b : List Event) (w : Outstanding) (report : Report)
        → IsPort a → HasTold a b kept_b → a.output ≡ Output.Ok w → w.report ≡ Some report
        → 0 < credit report (next_ack w)
        → credit report (next_ack w)
        + (length w.prios - distance w.oldest (expected_of b.input)) ≤ free_buffers b.received }
    ensures as_many { (tells : Bool) (m n : ℕ) → n ≤ 30
        → HasTold (new_port tells m) (new_port true n) (Ctl (status 0 n) ∷ []) }
    ensures not_more { (tells : Bool) (m n : ℕ)
        → HasTold (new_port tells m) (new_port true n) (Ctl (status 0 (n + 1)) ∷ []) → ⊥ }
{}

/// A sender that was told of free buffers before it started a packet, and goes by its reports, is
/// never refused: in every history from there, in which the layer above the far port only takes
/// packets away, the packets on their way find room, the far port never waits for a
/// restart-from-retry, and nothing that comes to it is answered with packet-retry. There is such a
/// link; and where a sender starts without being told, the far port may wait.
pub fn told_in_time_means_no_retry()
    ensures room { (l end : Link) (history : IsHistory l end) → LeaveRoom history
        → IsToldInTime l → FindsRoom end.a end.b end.kept_a end.kept_b }
    ensures never_waits { (a b : PortState) (kept_a kept_b : List Event)
        → FindsRoom a b kept_a kept_b → receiver_of b.input ≢ ReceiverRetryStopped }
    ensures never_refuses { (l end : Link) (history : IsHistory l end) (e : Event)
        → LeaveRoom history → IsToldInTime l
        → (is_acted end.b e ≡ true → (rest : List Event) × (end.kept_a ≡ e ∷ rest))
        → IfSome (acts end.b e).reply (λ answer. answer.s0 ≢ PACKET_RETRY) }
    ensures worked { (l : Link) × IsHistory (new_link false true 4 4) l × IsToldInTime l }
    ensures untold { (l : Link) × IsHistory (new_link false true 4 4) l
        × (receiver_of l.b.input ≡ ReceiverRetryStopped) }
{}

/// The same, one step at a time, of a first port that hears of free buffers and of one that tells
/// of them. What the steps ask of a link is so in every history of two new ports.
pub fn each_step_keeps_what_was_told()
    ensures linked { (tells_a tells_b : Bool) (m n : ℕ) (l : Link)
        → AreBuffers m → AreBuffers n → IsHistory (new_link tells_a tells_b m n) l → IsLinked l }
    ensures hearer { (l next : Link) → IsStep l next → IsLinked l
        → HasTold l.a l.b l.kept_b → HasTold next.a next.b next.kept_b }
    ensures teller { (l next : Link) (step : IsStep l next) → LeavesRoom step → IsLinked l
        → HasTold l.b l.a l.kept_a → HasTold next.b next.a next.kept_a }
    ensures hearer_room { (l next : Link) → IsStep l next → IsLinked l
        → FindsRoom l.a l.b l.kept_a l.kept_b
        → FindsRoom next.a next.b next.kept_a next.kept_b }
    ensures teller_room { (l next : Link) (step : IsStep l next) → LeavesRoom step → IsLinked l
        → FindsRoom l.b l.a l.kept_b l.kept_a
        → FindsRoom next.b next.a next.kept_b next.kept_a }
{}
