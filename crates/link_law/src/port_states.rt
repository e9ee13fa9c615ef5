//! What settling asks of the ports at the ends of a link.
ghost use Rattle.std.specs.Prelude.{◌≡◌, [], IsTrue};
ghost use Rattle.link_machine.specs.States.{Wires, link, from_end};
ghost use Rattle.link_port.specs.Turns.{turn_sends, is_ready as starts_packet};
ghost use Rattle.link_machine.specs.Settling.{waits, is_retry_stopped, has_failed, may_fire, is_done as done, is_ok, rests_to};
ghost use Rattle.link_law.specs.Resting.{rest_both as both_rest, none_waits as no_packet_waits, none_tells as no_port_tells, are_idle as idle_ports};

use link_port::{InKind, OutKind, Port};
use link_watch::Side;

/// The port at this end.
pub(crate) fn near<'p>(side: Side, a: &'p Port, b: &'p Port) -> &'p Port
    ensures { (wires : Wires) → result.now ≡ (from_end side (link wires a.now b.now)).a }
{
    match side {
        Side::A => a,
        Side::B => b,
    }
}

/// The port at the other end.
pub(crate) fn far<'p>(side: Side, a: &'p Port, b: &'p Port) -> &'p Port
    ensures { (wires : Wires) → result.now ≡ (from_end side (link wires a.now b.now)).b }
{
    match side {
        Side::A => b,
        Side::B => a,
    }
}

/// Whether a port is to restart.
#[tactic(auto, using(crate::proofs::PortTests::retry_by_kind))]
pub(crate) fn stands_back(port: &Port) -> bool
    ensures { result ≡ is_retry_stopped port.now.output }
{
    match port.out_kind() {
        OutKind::RetryStopped => true,
        _ => false,
    }
}

/// Whether a port has failed.
#[tactic(auto, using(crate::proofs::PortTests::failed_by_kind))]
pub(crate) fn failed(port: &Port) -> bool
    ensures { result ≡ has_failed port.now.output }
{
    match port.out_kind() {
        OutKind::Failed => true,
        _ => false,
    }
}

/// Whether a time-out of a port may fire.
#[tactic(auto, using(crate::proofs::PortTests::fire_by_kind))]
pub(crate) fn fires(port: &Port) -> bool
    ensures { result ≡ may_fire port.now.output }
{
    match port.out_kind() {
        OutKind::Ok => true,
        OutKind::ErrorStopped => port.asked(),
        _ => false,
    }
}

/// Whether a direction is at rest.
pub(crate) fn is_quiet(sender: &Port, receiver: &Port) -> bool
    ensures { result ≡ rests_to sender.now receiver.now }
{
    is_done(sender) && is_open(receiver) && receiver.at_rest()
}

/// Whether a port is OK with nothing outstanding.
#[tactic(auto, using(crate::proofs::PortTests::done_by_kind))]
fn is_done(port: &Port) -> bool
    ensures { result ≡ done port.now.output }
{
    match port.out_kind() {
        OutKind::Ok => port.outstanding() == 0,
        _ => false,
    }
}

/// Whether a port takes packets.
#[tactic(auto, using(crate::proofs::PortTests::ok_by_kind))]
fn is_open(port: &Port) -> bool
    ensures { result ≡ is_ok port.now.input }
{
    match port.in_kind() {
        InKind::Ok => true,
        _ => false,
    }
}

/// Whether a packet waits.
pub(crate) fn is_waiting(port: &Port) -> bool
    ensures { result ≡ waits port.now }
{
    port.waiting()
}

/// Whether a turn would start a packet.
pub(crate) fn is_ready(port: &Port) -> bool
    ensures { result ≡ starts_packet port.now }
{
    port.ready()
}

/// Whether neither port has anything to do, if nothing comes.
pub(crate) fn are_idle(a: &Port, b: &Port) -> bool
    ensures { result ≡ idle_ports a.now b.now }
{
    rest_both(a, b) && (none_waits(a, b) && none_tells(a, b))
}

/// Whether both directions are at rest.
fn rest_both(a: &Port, b: &Port) -> bool
    ensures { result ≡ both_rest a.now b.now }
{
    is_quiet(a, b) && is_quiet(b, a)
}

/// Whether no packet waits at either port.
fn none_waits(a: &Port, b: &Port) -> bool
    ensures { result ≡ no_packet_waits a.now b.now }
{
    !is_waiting(a) && !is_waiting(b)
}

/// Whether no port tells its free buffers.
fn none_tells(a: &Port, b: &Port) -> bool
    ensures { result ≡ no_port_tells a.now b.now }
{
    !a.tells() && !b.tells()
}

/// Whether it is plain without a turn that a port has nothing to send: it is OK, no packet waits,
/// and it does not tell its free buffers.
pub(crate) fn has_no_turn(port: &Port) -> bool
    ensures { IsTrue result → (turn_sends port.now).sent ≡ [] }
{
    match port.out_kind() {
        OutKind::Ok => !is_waiting(port) && !port.tells(),
        _ => false,
    }
}
