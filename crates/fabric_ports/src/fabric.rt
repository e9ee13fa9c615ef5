//! `Fabric`: devices, ports and links.
ghost use Rattle.std.specs.Prelude.{◌≡◌, ◌<◌, length};
ghost use Rattle.fabric_trace.specs.Known.{Seen};
ghost use Rattle.fabric_ports.specs.Places.{IsPortOf, place_of};
ghost use Rattle.fabric_ports.specs.Showing.{ShowsFabric};

use crate::idle::Idle;
use fabric_script::{PortRef, Script};
use link_law::Link;
use link_port::Port;
use maint_registers::Registers;
use rio_chars::NoMemory;
use std::alloc::Global;

/// A link, and the two ports that it joins.
#[derive(Drop)]
pub(crate) struct Cable {
    pub(crate) a: PortRef,
    pub(crate) b: PortRef,
    pub(crate) link: Link,
}

/// The devices of a fabric, their ports in one list, each device's in a row, and its links in the
/// order of their lines.
#[derive(Drop)]
pub struct Fabric {
    pub(crate) devices: Vec<Registers>,
    /// The place of each device's first port.
    pub(crate) firsts: Vec<usize>,
    pub(crate) ports: Vec<Port>,
    pub(crate) cables: Vec<Cable>,
    /// The number of each port's cable, by the place of the port. A port without one has a 0 there,
    /// which is never read.
    pub(crate) cable_at: Vec<usize>,
    /// What has nothing to do. Whatever changes a port or a wire wakes what it may give work.
    pub(crate) idle: Idle,
}

impl Fabric {
    /// The place of a port among the ports.
    pub(crate) fn place(&self, port: PortRef) -> usize
        requires shown { (s : Seen) × ShowsFabric self.now s }
        requires port { IsPortOf self.now.devices.items port }
        ensures place { result ≡ place_of self.now.firsts.items port }
        ensures within { result < length self.now.ports.items }
        ensures fits { result < 0xffffffffffffffff }
    {
        prove!(self.ports.len() <= usize::MAX);
        self.firsts[usize::from(port.node)] + usize::from(port.port)
    }
}
