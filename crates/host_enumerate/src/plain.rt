//! `PlainMaint`: accesses to plain registers, with no packets and no links to carry them.
ghost use Rattle.std.specs.Prelude.{◌≡◌, ◌<◌, ◌≤◌, ◌^◌, length, slice_set, OnOk, IfOk, IfErr};
ghost use Rattle.fabric_script.specs.Known.{same_port};
ghost use Rattle.fabric_script.specs.declared.ports.PortRef.{PortRef};
ghost use Rattle.maint_registers.specs.Devices.{IsDevice, IsSameDevice};
ghost use Rattle.fabric_script.specs.Peers.{peer_in};
ghost use Rattle.fabric_map.specs.Topology.{Topology, IsTopology};
ghost use Rattle.fabric_map.specs.Routes.{walk};
ghost use Rattle.fabric_map.specs.Fitting.{Fits};
ghost use Rattle.fabric_script.specs.Scripts.{ScriptPasses};
ghost use Rattle.host_enumerate.specs.Accesses.{answered};
ghost use Rattle.host_enumerate.specs.Devised.{IsHost, devices_of, links_of};
ghost use Rattle.host_enumerate.specs.Underway.{AreUntagged};
ghost use Rattle.fabric_map.specs.Plain.{topology_of, registers_of};
ghost use Rattle.host_enumerate.specs.PeerTables.{HasPeers};

use crate::devising::Devised;
use crate::maint::{Access, Answer, Maint, MaintEnd};
use fabric_script::{PortRef, Script};
use maint_registers::Registers;
use rio_chars::NoMemory;
use std::alloc::{AllocError, Global};

/// The answer to an access that was not done.
const FAILED: Answer = Answer {
    status: 7,
    value: 0,
};

/// The registers of devices and the links between them, and a host that is one of the endpoints.
#[derive(Debug, Drop)]
pub struct PlainMaint {
    devices: Vec<Registers>,
    links: Vec<(PortRef, PortRef)>,
    /// The other end of each port's link, at 16 times its node and its number.
    peers: Vec<Option<PortRef>>,
    host: u8,
}

impl PlainMaint {
    /// The fabric that the set-up lines of a script make, with this host, which is an endpoint with
    /// a link and an ID below 255. The script passes. It can be asked, and no device has a tag.
    pub fn new(alloc: Global, script: &Script, host: u8) -> Result<PlainMaint, NoMemory>
        requires passes { ScriptPasses script.now.names.items script.now.lines.items }
        requires host { IsHost (devices_of script.now.lines.items) (links_of script.now.lines.items)
            host }
        ensures topology { IfOk result (λ maint. ⟦<PlainMaint as Maint>⟧.topology maint
            ≡ topology_of (devices_of script.now.lines.items) (links_of script.now.lines.items)
            host) }
        ensures registers { IfOk result (λ maint. ⟦<PlainMaint as Maint>⟧.registers maint
            ≡ registers_of (devices_of script.now.lines.items)) }
        ensures whole { IfOk result (λ maint. ⟦<PlainMaint as Maint>⟧.IsWhole maint) }
        ensures untagged { IfOk result (λ maint. AreUntagged
            (⟦<PlainMaint as Maint>⟧.topology maint) (⟦<PlainMaint as Maint>⟧.registers maint)) }
        ensures host_has_id { IfOk result (λ maint. (⟦<PlainMaint as Maint>⟧.registers maint
            (⟦<PlainMaint as Maint>⟧.topology maint).host).base_id < 255) }
    {
        let devised = Devised::by(alloc, script)?;
        let peers = peers_of(alloc, devised.links.as_slice(), devised.devices.len())?;
        Ok(PlainMaint {
            devices: devised.devices,
            links: devised.links,
            peers,
            host,
        })
    }

    /// The registers of a device.
    pub fn device(&self, node: u8) -> &Registers
        requires { node < (⟦<PlainMaint as Maint>⟧.topology self.now).nodes }
        ensures { result.now ≡ ⟦<PlainMaint as Maint>⟧.registers self.now node }
    {
        &self.devices[node as usize]
    }

    /// Where a request ends that leaves a port.
    fn walk(&self, dest: u8, hops: u8, from: PortRef) -> Option<PortRef>
        requires topology { IsTopology
            (topology_of self.now.devices.items self.now.links.items self.now.host) }
        requires peers { HasPeers self.now.links.items self.now.peers.items }
        ensures { result ≡ walk
            (topology_of self.now.devices.items self.now.links.items self.now.host)
            (registers_of self.now.devices.items) dest hops from }
    {
        let at = self.peer(from)?;
        if hops == 0 {
            return Some(at);
        }
        let device = &self.devices[at.node as usize];
        if !device.is_switch() {
            return Some(at);
        }
        let port = device.next_port(u16::from(dest))?;
        let next = PortRef {
            node: at.node,
            port,
        };
        self.walk(dest, hops - 1, next)
    }

    /// The other end of a port's link.
    fn peer(&self, port: PortRef) -> Option<PortRef>
        requires { HasPeers self.now.links.items self.now.peers.items }
        ensures { result ≡ peer_in self.now.links.items port }
    {
        if port.port >= 16 {
            return peer_in(self.links.as_slice(), port);
        }
        match self
            .peers
            .get(16 * usize::from(port.node) + usize::from(port.port))
        {
            Some(peer) => *peer,
            None => peer_in(self.links.as_slice(), port),
        }
    }
}

/// The other end of the link of each port of so many nodes.
fn peers_of(
    alloc: Global,
    links: &[(PortRef, PortRef)],
    nodes: usize,
) -> Result<Vec<Option<PortRef>>, AllocError>
    requires { nodes ≤ 256 }
    ensures { IfOk result (λ peers. HasPeers links.now peers.items) }
{
    let mut peers = Vec::new(alloc);
    for place in 0..16 * nodes {
        let port = PortRef {
            node: (place / 16) as u8,
            port: (place % 16) as u8,
        };
        peers.push(peer_in(links, port))?;
    }
    Ok(peers)
}

/// Whether two ports are one.
fn same_port(p: PortRef, q: PortRef) -> bool
    ensures { result ≡ same_port p q }
{
    p.node == q.node && p.port == q.port
}

/// The other end of a port's link, in a list of links.
pub fn peer_in(links: &[(PortRef, PortRef)], at: PortRef) -> Option<PortRef>
    ensures { result ≡ peer_in links.now at }
{
    let [link, rest @ ..] = links else {
        return None;
    };
    if same_port(link.0, at) {
        Some(link.1)
    } else if same_port(link.1, at) {
        Some(link.0)
    } else {
        peer_in(rest, at)
    }
}

/// Does an access that came to a port of a device.
pub fn respond(device: &mut Registers, port: u8, access: Access) -> Answer
    ensures answer { result ≡ (answered device.old port access).answer }
    ensures becomes { device.new ≡ (answered device.old port access).device }
    ensures same { IsSameDevice device.old device.new }
    ensures device { IsDevice device.new }
    ensures id { device.new.base_id < 256 }
    ensures lock { device.new.lock < 2 ^ 16 }
{
    let answer = match access {
        Access::Read(offset) => match device.read(offset, port) {
            Some(value) => done(value),
            None => FAILED,
        },
        Access::Write(offset, value) => {
            if device.write(offset, value) {
                done(0)
            } else {
                FAILED
            }
        }
    };
    prove!(device.base_id() <= u8::MAX);
    prove!(device.lock() <= u16::MAX);
    prove!(device.ports() <= 16);
    answer
}

/// The answer to an access that was done.
fn done(value: u32) -> Answer
    ensures { result ≡ record { status = 0; value = value } }
{
    Answer { status: 0, value }
}

impl Maint for PlainMaint {
    ghost topology = { λ maint. topology_of maint.devices.items maint.links.items maint.host };

    ghost registers = { λ maint. registers_of maint.devices.items };

    ghost undetected = { λ _. 0 };

    ghost faults = { λ _. 0 };

    ghost IsMet = { λ maint port event. ⊥ };

    ghost IsWhole = { λ maint.
        IsTopology (topology_of maint.devices.items maint.links.items maint.host)
        × Fits (topology_of maint.devices.items maint.links.items maint.host)
        (registers_of maint.devices.items)
        × HasPeers maint.links.items maint.peers.items };

    ghost Follows = { λ _ _. Unit {0} };

    ghost Leaves = { λ _ _. Unit {0} };

    ghost follows_leaves = { λ origin maint follows. tt };

    ghost whole_is_proper = { λ maint whole. whole.0 };

    ghost whole_fits = { λ maint whole. whole.1 };

    fn ask(
        &mut self,
        _alloc: Global,
        dest: u8,
        hops: u8,
        access: Access,
    ) -> Result<Answer, MaintEnd> {
        let host = PortRef {
            node: self.host,
            port: 0,
        };
        // The answer comes back, as the caller has shown.
        match self.walk(dest, hops, host) {
            Some(at) => Ok(respond(&mut self.devices[at.node as usize], at.port, access)),
            None => unreachable!(),
        }
    }

    fn own(&mut self, access: Access) -> Answer {
        respond(&mut self.devices[self.host as usize], 0, access)
    }
}
