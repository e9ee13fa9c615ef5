//! Where a switch sends a packet.
ghost use Rattle.std.specs.Prelude.{◌≡◌, ◌<◌, ℕ, true, false, if◌then◌else◌};
ghost use Rattle.rio_packets.specs.Fields.{prio_of, is_request};
ghost use Rattle.maint_packets.specs.NextHops.{is_at_end, to_port, next_of, moved};

use crate::request::read_request;
use maint_registers::Registers;
use rio_packets::Packet;

/// Where a packet goes next.
#[derive(Clone, Copy, Debug, PartialEq, Eq)]
pub enum Next {
    /// Nowhere: it is dropped.
    Nowhere,
    /// To the registers of the switch, which answer it.
    RegisterUnit,
    /// To a port of the switch.
    Port(u8),
}

/// The format type of maintenance packets (RapidIO Interconnect Specification 1.3, Part 1, packet
/// formats).
const MAINTENANCE: u8 = 8;

/// Returns where a switch with these registers sends a packet, by the first rule that fits. A
/// packet of format type 8 that is not a maintenance packet is dropped, and so is one of transport
/// type 2 or 3. A maintenance packet whose hop count is 0 goes to the registers if it is a request,
/// and is dropped otherwise. Any other packet goes to the port that the route table names, and is
/// dropped if it names none (RapidIO Interconnect Specification 1.3, Part 3, routing and
/// maintenance packets; that malformed packets and those of transport types 2 and 3 are dropped is
/// this project's profile).
pub fn next_of(registers: &Registers, packet: &Packet) -> Next
    ensures value { result ≡ next_of registers.now packet.now }
    ensures request { result ≡ Next.RegisterUnit → is_request packet.now ≡ true }
    ensures hops_left { (port : ℕ) → result ≡ Next.Port port → is_at_end packet.now ≡ false }
    ensures range { (port : ℕ) → result ≡ Next.Port port → port < registers.now.ports }
{
    let Some(dest) = packet.dest() else {
        return Next::Nowhere;
    };
    match packet.hop() {
        None if packet.ftype() == MAINTENANCE => Next::Nowhere,
        Some(0) => at_end(packet),
        _ => to_port(registers.next_port(dest)),
    }
}

/// Where a maintenance packet with the hop count 0 goes.
fn at_end(packet: &Packet) -> Next
    ensures { result ≡ (if is_request packet.now then Next.RegisterUnit else Next.Nowhere) }
{
    match read_request(packet) {
        Some(_) => Next::RegisterUnit,
        None => Next::Nowhere,
    }
}

/// To the port that is named, if one is.
fn to_port(port: Option<u8>) -> Next
    ensures { result ≡ to_port port }
{
    match port {
        Some(port) => Next::Port(port),
        None => Next::Nowhere,
    }
}

/// Makes a packet ready to move to a port of a switch: the hop count of a maintenance packet is
/// lowered by one, and its CRC made again (RapidIO Interconnect Specification 1.3, Part 3, hop
/// count).
pub fn move_on(packet: &mut Packet)
    requires { is_at_end packet.old ≡ false }
    ensures moved { packet.new ≡ moved packet.old }
    ensures prio { prio_of packet.new ≡ prio_of packet.old }
{
    if packet.hop().is_some() {
        packet.lower_hop();
    }
}
