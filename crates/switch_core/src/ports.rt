//! Single ports of several.
ghost use Rattle.std.specs.Prelude.{◌≡◌, ◌<◌, length, IsTrue};
ghost use Rattle.rio_packets.specs.Fields.{prio_of};
ghost use Rattle.switch_core.specs.Faces.{face_of, faces_of, face_at, head_of, has_room, taken_at, put_at, AllAlike};

use link_port::PortFace;
use rio_packets::Packet;

/// Takes the first received packet of a priority from a port.
pub(crate) fn take_at<P: PortFace>(ports: &mut [P], port: u8, prio: u8) -> Option<Packet>
    requires port { port < length ports.old }
    requires prio { prio < 4 }
    ensures value { result ≡ head_of (face_at (faces_of P.received P.queued ports.old) port) prio }
    ensures faces { faces_of P.received P.queued ports.new
        ≡ taken_at (faces_of P.received P.queued ports.old) port prio }
    ensures alike { AllAlike P.alike ports.old ports.new }
{
    let port = &mut ports[port as usize];
    port.in_pop(prio)
}

/// Puts a packet, whose priority has room, to those that a port has to send.
pub(crate) fn put_at<P: PortFace>(ports: &mut [P], port: u8, packet: Packet)
    requires port { port < length ports.old }
    requires room { IsTrue
        (has_room (face_at (faces_of P.received P.queued ports.old) port) (prio_of packet)) }
    ensures faces { faces_of P.received P.queued ports.new
        ≡ put_at (faces_of P.received P.queued ports.old) port packet }
    ensures alike { AllAlike P.alike ports.old ports.new }
{
    let port = &mut ports[port as usize];
    port.out_put(packet);
}

/// Whether a packet of a priority may be put to those that a port has to send.
pub(crate) fn has_room_at<P: PortFace>(ports: &[P], port: u8, prio: u8) -> bool
    requires port { port < length ports.now }
    requires prio { prio < 4 }
    ensures { result ≡ has_room (face_at (faces_of P.received P.queued ports.now) port) prio }
{
    has_room(&ports[port as usize], prio)
}

/// Whether a packet of a priority may be put to those that this port has to send.
pub(crate) fn has_room<P: PortFace>(port: &P, prio: u8) -> bool
    requires { prio < 4 }
    ensures { result ≡ has_room (face_of P.received P.queued port.now) prio }
{
    port.out_room(prio)
}
