//! The step of a switch.
ghost use Rattle.std.specs.Prelude.{◌≡◌, length, IsTrue};
ghost use Rattle.maint_registers.specs.Devices.{is_switch, IsSameDevice};
ghost use Rattle.switch_core.specs.Faces.{faces_of, AllAlike};
ghost use Rattle.switch_core.specs.SwitchSteps.{step_of, faces_after, switch_after};
ghost use Rattle.switch_core.specs.Goings.{Goes};

use crate::going::{Going, first_going};
use link_port::PortFace;
use maint_packets::Next;
use maint_registers::Registers;
use rio_packets::Packet;

/// What a switch did. Packets are as they stood before the step.
#[derive(Debug, PartialEq, Eq, Drop)]
pub enum Step {
    /// A packet moved from the received packets of a port to those that a port has to send.
    Moved {
        /// The port on which it came.
        from: u8,
        /// The port to which it went, which may be the same.
        to: u8,
        /// The packet, before its hop count was lowered.
        packet: Packet,
    },
    /// A packet was dropped.
    Dropped {
        /// The port on which it came.
        from: u8,
        /// The packet.
        packet: Packet,
    },
    /// The registers answered a request.
    Answered {
        /// The port on which it came, and to which the response went.
        port: u8,
        /// The request.
        request: Packet,
        /// The response.
        response: Packet,
    },
    /// No packet can go.
    Nothing,
}

/// Makes the step of the first packet that can go, and returns it: priorities from 3 down, and
/// within each ports from 0 up, the first packet of its list that is dropped, or whose move or
/// answer has room. `Nothing` comes exactly if there is none; then nothing changes. Where a packet
/// goes is said by [`maint_packets::next_of`]. A packet that moves may go out by the port on which
/// it came; the hop count of a maintenance packet is lowered. A response goes to the port on which
/// the request came (RapidIO Interconnect Specification 1.3, Part 3, routing and maintenance; the
/// order is this project's profile). The step holds its packets: [`first_going`] tells less.
pub fn switch_step<P: PortFace>(ports: &mut [P], registers: &mut Registers) -> Step
    requires switch { IsTrue (is_switch registers.old) }
    requires ports { length ports.old ≡ registers.old.ports }
    ensures step { result ≡ step_of registers.old (faces_of P.received P.queued ports.old) }
    ensures faces { faces_of P.received P.queued ports.new
        ≡ faces_after (faces_of P.received P.queued ports.old) result }
    ensures registers { registers.new ≡ switch_after registers.old result }
    ensures device { IsSameDevice registers.old registers.new }
    ensures alike { AllAlike P.alike ports.old ports.new }
{
    match first_going(ports, registers) {
        Some(going) => step_from(ports, registers, going),
        None => Step::Nothing,
    }
}

/// Makes the step of the packet that goes.
fn step_from<P: PortFace>(ports: &mut [P], registers: &mut Registers, going: Going) -> Step
    requires { Goes registers.old (faces_of P.received P.queued ports.old) going }
    ensures step { result ≡ step_of registers.old (faces_of P.received P.queued ports.old) }
    ensures faces { faces_of P.received P.queued ports.new
        ≡ faces_after (faces_of P.received P.queued ports.old) result }
    ensures registers { registers.new ≡ switch_after registers.old result }
    ensures device { IsSameDevice registers.old registers.new }
    ensures alike { AllAlike P.alike ports.old ports.new }
{
    let packet = going.packet(ports).copy();
    let from = going.port;
    match going.next {
        Next::Nowhere => {
            going.pass_on(ports);
            Step::Dropped { from, packet }
        }
        Next::RegisterUnit => {
            let response = going.answer(ports, registers);
            Step::Answered {
                port: from,
                request: packet,
                response,
            }
        }
        Next::Port(to) => {
            going.pass_on(ports);
            Step::Moved { from, to, packet }
        }
    }
}
