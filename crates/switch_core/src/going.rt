//! The packet of a switch that goes first.
ghost use Rattle.std.specs.Prelude.{◌≡◌, ◌<◌, ℕ, length, IsSome, IfSome, is_some};
ghost use Rattle.std.specs.Option.{option_and_then};
ghost use Rattle.switch_core.specs.Faces.{faces_of};
ghost use Rattle.switch_core.specs.Order.{least_first};
ghost use Rattle.switch_core.specs.SwitchSteps.{step_at, step_of};
ghost use Rattle.switch_core.specs.Goings.{has_place, going_of, GoingStands, Goes};

use crate::ports::{has_room_at, put_at, take_at};
use link_port::PortFace;
use maint_packets::{Next, answer, move_on, next_of, read_request, response_prio, write_response};
use maint_registers::Registers;
use rio_packets::Packet;

/// A packet that can go: where it stands, and where it goes. It is the first received packet of its
/// priority at its port.
#[derive(Clone, Copy, Debug, PartialEq, Eq)]
pub struct Going {
    /// The port on which it came.
    pub port: u8,
    /// Its priority.
    pub prio: u8,
    /// Where it goes.
    pub next: Next,
}

/// Returns the first packet that can go: priorities from 3 down, and within each ports from 0 up,
/// the first packet of its list that is dropped, or whose move or answer has room. `None` comes
/// exactly if there is none. Where a packet goes is said by [`next_of`] (RapidIO Interconnect
/// Specification 1.3, Part 3, routing; the order is this project's profile).
pub fn first_going<P: PortFace>(ports: &[P], registers: &Registers) -> Option<Going>
    requires { length ports.now ≡ registers.now.ports }
    ensures going { result
        ≡ going_of (step_of registers.now (faces_of P.received P.queued ports.now)) }
    ensures goes { IfSome result (Goes registers.now (faces_of P.received P.queued ports.now)) }
{
    for prio in (0..4).rev() {
        if let Some(going) = first_at(ports, registers, prio) {
            return Some(going);
        }
    }
    None
}

/// The first packet of a priority that can go.
fn first_at<P: PortFace>(ports: &[P], registers: &Registers, prio: u8) -> Option<Going>
    requires ports { length ports.now ≡ registers.now.ports }
    requires prio { prio < 4 }
    ensures value { least_first (step_at registers.now
        (faces_of P.received P.queued ports.now) prio) registers.now.ports
        ≡ option_and_then (λ going. step_at registers.now
        (faces_of P.received P.queued ports.now) prio going.port) result }
    ensures goes { IfSome result (λ going. IsSome (step_at registers.now
        (faces_of P.received P.queued ports.now) prio going.port)) }
    ensures prio { IfSome result (λ going. going.prio ≡ prio) }
    ensures stands { IfSome result
        (GoingStands registers.now (faces_of P.received P.queued ports.now)) }
{
    for port in 0..registers.ports() {
        if let Some(next) = next_at(ports, registers, prio, port) {
            return Some(Going { port, prio, next });
        }
    }
    None
}

/// Where the first packet of a priority at a port goes, if there is one that can go.
fn next_at<P: PortFace>(ports: &[P], registers: &Registers, prio: u8, port: u8) -> Option<Next>
    requires ports { length ports.now ≡ registers.now.ports }
    requires prio { prio < 4 }
    requires port { port < length ports.now }
    ensures exact { is_some result ≡ is_some (step_at registers.now
        (faces_of P.received P.queued ports.now) prio port) }
    ensures stands { IfSome result (λ next. GoingStands registers.now
        (faces_of P.received P.queued ports.now)
        record { port = port; prio = prio; next = next }) }
{
    let packet = ports[port as usize].in_head(prio)?;
    let next = next_of(registers, packet);
    if has_place(ports, Going { port, prio, next }) {
        Some(next)
    } else {
        None
    }
}

/// Whether there is room for what becomes of a packet.
fn has_place<P: PortFace>(ports: &[P], going: Going) -> bool
    requires port { going.port < length ports.now }
    requires prio { going.prio < 4 }
    requires to { (to : ℕ) → going.next ≡ Next.Port to → to < length ports.now }
    ensures { result ≡ has_place (faces_of P.received P.queued ports.now) going }
{
    match going.next {
        Next::Nowhere => true,
        Next::RegisterUnit => has_room_at(ports, going.port, response_prio(going.prio)),
        Next::Port(to) => has_room_at(ports, to, going.prio),
    }
}

impl Going {
    ghost use Rattle.std.specs.Prelude.{◌≡◌, ◌≢◌, List, ℕ, Some};
    ghost use Rattle.maint_registers.specs.Devices.{Registers, IsSameDevice};
    ghost use Rattle.switch_core.specs.Faces.{faces_of, face_at, head_of, AllAlike};
    ghost use Rattle.switch_core.specs.SwitchSteps.{step_of, faces_after, switch_after};
    ghost use Rattle.switch_core.specs.Goings.{Goes};
    ghost use Rattle.switch_core.specs.declared.switch.Step.TheVariants.{Answered};

    /// The packet, as it stands at its port.
    pub fn packet<'a, P: PortFace>(&self, ports: &'a [P]) -> &'a Packet
        requires { (device : Registers)
            × Goes device (faces_of P.received P.queued ports.now) self.now }
        ensures { head_of (face_at (faces_of P.received P.queued ports.now) self.now.port)
            self.now.prio ≡ Some result.now }
    {
        let Some(packet) = ports[self.port as usize].in_head(self.prio) else {
            unreachable!();
        };
        packet
    }

    /// The packet moves to the port to which it goes, the hop count of a maintenance packet
    /// lowered; or it is dropped, if it goes nowhere.
    pub fn pass_on<P: PortFace>(self, ports: &mut [P])
        requires next { self.next ≢ Next.RegisterUnit }
        requires goes { (device : Registers)
            × Goes device (faces_of P.received P.queued ports.old) self }
        ensures faces { (device : Registers)
            → Goes device (faces_of P.received P.queued ports.old) self
            → faces_of P.received P.queued ports.new
            ≡ faces_after (faces_of P.received P.queued ports.old)
            (step_of device (faces_of P.received P.queued ports.old)) }
        ensures alike { AllAlike P.alike ports.old ports.new }
    {
        let Some(mut packet) = take_at(ports, self.port, self.prio) else {
            unreachable!();
        };
        if let Next::Port(to) = self.next {
            move_on(&mut packet);
            put_at(ports, to, packet);
        }
    }

    /// The registers answer the packet, which is a request: the response, which is returned, goes
    /// to the port on which it came.
    pub fn answer<P: PortFace>(self, ports: &mut [P], registers: &mut Registers) -> Packet
        requires next { self.next ≡ Next.RegisterUnit }
        requires goes { Goes registers.old (faces_of P.received P.queued ports.old) self }
        ensures step { (request : List ℕ)
            → head_of (face_at (faces_of P.received P.queued ports.old) self.port) self.prio
            ≡ Some request
            → step_of registers.old (faces_of P.received P.queued ports.old)
            ≡ Answered self.port request result }
        ensures faces { faces_of P.received P.queued ports.new
            ≡ faces_after (faces_of P.received P.queued ports.old)
            (step_of registers.old (faces_of P.received P.queued ports.old)) }
        ensures registers { registers.new ≡ switch_after registers.old
            (step_of registers.old (faces_of P.received P.queued ports.old)) }
        ensures device { IsSameDevice registers.old registers.new }
        ensures alike { AllAlike P.alike ports.old ports.new }
    {
        let Some(packet) = take_at(ports, self.port, self.prio) else {
            unreachable!();
        };
        let Some(request) = read_request(&packet) else {
            unreachable!();
        };
        let response = write_response(&answer(registers, &request, self.port));
        put_at(ports, self.port, response.copy());
        response
    }
}
