//! The links of the earlier lines.

ghost use Rattle.std.specs.Prelude.{◌≡◌, ◌+◌, ◌*◌, ◌<◌, [], ◌∷◌, ◌++◌, length, IfOk, OnErr};
ghost use Rattle.fabric_script.specs.Known.{is_linked};

use crate::ports::PortRef;
use std::alloc::{AllocError, Global};
use std::marker::Model;

/// The most nodes that a script may have.
pub(crate) const MOST_NODES: usize = 64;

/// The most ports that a node has.
const MOST_PORTS: usize = 16;

/// How many ports a script may have.
const PORTS: usize = 1024;

/// The links in the order of their lines, and for each port of a script whether it has one: so a
/// port is looked up in one step, however many links there are.
#[derive(Drop)]
pub(crate) struct Links {
    links: Vec<(PortRef, PortRef)>,
    linked: [bool; PORTS],
}

impl Model for Links {
    ghost use Rattle.std.specs.Prelude.{List};
    ghost use Rattle.fabric_script.specs.declared.ports.PortRef.{PortRef};
    ghost use Rattle.fabric_script.specs.Links.{AreMarked};

    ghost Value = { List (PortRef × PortRef) };

    ghost view = { λ l. l.links.items };

    ghost invariant = { λ l. AreMarked l.links.items l.linked };
}

impl Links {
    /// No links.
    pub(crate) fn new(alloc: Global) -> Links
        ensures { result ≡ [] }
    {
        Links {
            links: Vec::new(alloc),
            linked: [false; PORTS],
        }
    }

    /// Adds a link between two ports of a script.
    pub(crate) fn push(&mut self, a: PortRef, b: PortRef) -> Result<(), AllocError>
        requires first { (a.node < 64) × (a.port < 16) }
        requires second { (b.node < 64) × (b.port < 16) }
        ensures added { IfOk result (λ _. self.new ≡ self.old ++ (a, b) ∷ []) }
        ensures failed { OnErr result (self.new ≡ self.old) }
    {
        self.links.push((a, b))?;
        self.linked[place_of(a)] = true;
        self.linked[place_of(b)] = true;
        Ok(())
    }

    /// How many links there are.
    pub(crate) fn len(&self) -> usize
        ensures { result ≡ length self.now }
    {
        self.links.len()
    }

    /// Whether a port has a link.
    pub(crate) fn is_linked(&self, port: PortRef) -> bool
        ensures { result ≡ is_linked self.now port }
    {
        usize::from(port.node) < MOST_NODES
            && usize::from(port.port) < MOST_PORTS
            && self.linked[place_of(port)]
    }
}

/// Where a port stands among all ports of a script.
fn place_of(port: PortRef) -> usize
    ensures { result ≡ 16 * port.node + port.port }
{
    MOST_PORTS * usize::from(port.node) + usize::from(port.port)
}
