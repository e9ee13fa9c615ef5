//! What an endpoint sends and collects.
ghost use Rattle.std.specs.Prelude.{◌≡◌, ◌+◌, ◌<◌, ℕ, List, true, false, min, IfSome, IsSome, is_some, Some};
ghost use Rattle.std.specs.Option.{option_and_then};
ghost use Rattle.maint_packets.specs.Requests.{request_of};
ghost use Rattle.maint_packets.specs.Responses.{response_bytes};
ghost use Rattle.maint_packets.specs.Answers.{request_answered};
ghost use Rattle.maint_registers.specs.Devices.{is_switch, IsSameDevice};
ghost use Rattle.link_port.specs.Faces.{AreLists};
ghost use Rattle.switch_core.specs.Faces.{face_of, head_of, has_room, without_head, with_packet};
ghost use Rattle.switch_core.specs.EndpointSteps.{sent_by, after_sent, first_held, collected, face_after, endpoint_after};

use crate::ports::has_room;
use link_port::PortFace;
use maint_packets::{Request, answer, read_request, response_prio, write_response};
use maint_registers::Registers;
use rio_packets::Packet;

/// What became of a packet to be sent.
#[derive(Clone, Copy, Debug, PartialEq, Eq)]
pub enum Sent {
    /// It stands last in the list of its priority.
    Taken,
    /// Its priority has no room.
    Full,
}

/// What an endpoint collected. Packets are as they stood before.
#[derive(Debug, PartialEq, Eq, Drop)]
pub enum Collected {
    /// A packet left the fabric.
    Left(Packet),
    /// The registers answered a request.
    Answered {
        /// The request.
        request: Packet,
        /// The response, which is to be sent.
        response: Packet,
    },
    /// Nothing is held.
    Empty,
    /// The first packet is a request whose response has no room.
    Full,
}

/// Puts a packet to those that a port has to send. `Full` comes exactly if its priority has no room
/// there; then nothing changes.
pub fn endpoint_send<P: PortFace>(port: &mut P, packet: Packet) -> Sent
    ensures sent { result ≡ sent_by (face_of P.received P.queued port.old) packet }
    ensures face { face_of P.received P.queued port.new
        ≡ after_sent (face_of P.received P.queued port.old) packet }
    ensures alike { P.alike port.old port.new }
{
    if !port.out_room(packet.prio()) {
        return Sent::Full;
    }
    port.out_put(packet);
    Sent::Taken
}

/// Collects the first packet of the highest priority that has one. If it is a request, of any
/// destination and hop count, the registers answer it and the response is put to be sent; `Full`
/// comes exactly if the response has no room, and then nothing changes. Any other packet leaves.
/// `Empty` comes exactly if nothing is held (RapidIO Interconnect Specification 1.3, Part 1,
/// maintenance packets).
pub fn endpoint_collect<P: PortFace>(port: &mut P, registers: &mut Registers) -> Collected
    requires { is_switch registers.old ≡ false }
    ensures collected { result
        ≡ collected registers.old (face_of P.received P.queued port.old) }
    ensures face { face_of P.received P.queued port.new
        ≡ face_after (face_of P.received P.queued port.old) result }
    ensures registers { registers.new ≡ endpoint_after registers.old result }
    ensures device { IsSameDevice registers.old registers.new }
    ensures alike { P.alike port.old port.new }
{
    let Some(prio) = highest_held(port) else {
        return Collected::Empty;
    };
    let Some(request) = first_request(port, prio) else {
        return leave(port, prio);
    };
    if !has_room(port, response_prio(request.prio)) {
        return Collected::Full;
    }
    answer_first(port, registers, prio, &request)
}

/// The highest priority that has a received packet.
fn highest_held<P: PortFace>(port: &P) -> Option<u8>
    ensures value { first_held (face_of P.received P.queued port.now)
        ≡ option_and_then (head_of (face_of P.received P.queued port.now)) result }
    ensures held { IfSome result (λ prio. IsSome
        (head_of (face_of P.received P.queued port.now) prio)) }
    ensures range { IfSome result (λ prio. prio < 4) }
    ensures lists { AreLists (P.received port.now) }
{
    let _ = port.in_head(0);
    for prio in (0..4).rev() {
        if holds(port, prio) {
            return Some(prio);
        }
    }
    None
}

/// Whether a priority has a received packet.
fn holds<P: PortFace>(port: &P, prio: u8) -> bool
    requires { prio < 4 }
    ensures { result ≡ is_some (head_of (face_of P.received P.queued port.now) prio) }
{
    match port.in_head(prio) {
        Some(_) => true,
        None => false,
    }
}

/// The request that the first packet of a priority is, if it is one.
fn first_request<P: PortFace>(port: &P, prio: u8) -> Option<Request>
    requires { prio < 4 }
    ensures value { result
        ≡ option_and_then request_of (head_of (face_of P.received P.queued port.now) prio) }
    ensures dest { IfSome result (λ request. request.large ≡ false → request.dest < 256) }
    ensures source { IfSome result (λ request. request.large ≡ false → request.source < 256) }
{
    read_request(port.in_head(prio)?)
}

/// The first packet of a priority leaves.
fn leave<P: PortFace>(port: &mut P, prio: u8) -> Collected
    requires prio { prio < 4 }
    requires held { IsSome (head_of (face_of P.received P.queued port.old) prio) }
    ensures value { (packet : List ℕ)
        → head_of (face_of P.received P.queued port.old) prio ≡ Some packet
        → result ≡ Collected.Left packet }
    ensures face { face_of P.received P.queued port.new
        ≡ without_head (face_of P.received P.queued port.old) prio }
    ensures alike { P.alike port.old port.new }
{
    let Some(packet) = port.in_pop(prio) else {
        unreachable!();
    };
    Collected::Left(packet)
}

/// The registers answer the first packet of a priority, which is a request.
fn answer_first<P: PortFace>(
    port: &mut P,
    registers: &mut Registers,
    prio: u8,
    request: &Request,
) -> Collected
    requires prio { prio < 4 }
    requires held { IsSome (head_of (face_of P.received P.queued port.old) prio) }
    requires room { has_room (face_of P.received P.queued port.old)
        (min (request.now.prio + 1) 3) ≡ true }
    requires dest { request.now.large ≡ false → request.now.dest < 256 }
    requires source { request.now.large ≡ false → request.now.source < 256 }
    ensures value { (packet : List ℕ)
        → head_of (face_of P.received P.queued port.old) prio ≡ Some packet
        → result ≡ Collected.Answered packet
        (response_bytes (request_answered registers.old request.now 0).response) }
    ensures face { face_of P.received P.queued port.new
        ≡ with_packet (without_head (face_of P.received P.queued port.old) prio)
        (response_bytes (request_answered registers.old request.now 0).response) }
    ensures registers { registers.new ≡ (request_answered registers.old request.now 0).device }
    ensures device { IsSameDevice registers.old registers.new }
    ensures alike { P.alike port.old port.new }
{
    let Some(packet) = port.in_pop(prio) else {
        unreachable!();
    };
    let response = write_response(&answer(registers, request, 0));
    port.out_put(response.copy());
    Collected::Answered {
        request: packet,
        response,
    }
}
