//! Which ports of a fabric stand beside ports of devices that are no part of it.
ghost use Rattle.std.specs.Prelude.{◌≡◌, ◌++◌};
ghost use Rattle.fabric_script.specs.Known.{same_port};
ghost use Rattle.outside_lines.specs.Facing.{faces_out, port_beside, is_joined};

use fabric_script::PortRef;

/// A port of a device outside, and the port of the fabric beside it.
#[derive(Clone, Copy)]
pub struct Facing {
    pub device: PortRef,
    pub port: PortRef,
}

/// The port of the fabric beside this port of a device, if there is one.
pub(crate) fn port_beside(facing: &[Facing], device: PortRef) -> Option<PortRef>
    ensures { result ≡ port_beside facing.now device }
{
    match facing.iter().find(|at| same_port(at.device, device)) {
        Some(at) => Some(at.port),
        None => None,
    }
}

/// Whether a port of the fabric faces out: it stands beside a port of a device.
pub(crate) fn faces_out(facing: &[Facing], port: PortRef) -> bool
    ensures { result ≡ faces_out facing.now port }
{
    facing.iter().any(|at| same_port(at.port, port))
}

/// Whether a port is one of either.
pub(crate) fn is_joined(facing: &[Facing], port: PortRef) -> bool
    ensures { result ≡ is_joined facing.now port }
{
    facing.iter().any(|at| same_port(at.device, port) || same_port(at.port, port))
}

/// Whether two ports are one.
pub(crate) fn same_port(p: PortRef, q: PortRef) -> bool
    ensures { result ≡ same_port p q }
{
    p.node == q.node && p.port == q.port
}
