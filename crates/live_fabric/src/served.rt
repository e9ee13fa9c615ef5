//! Which endpoints are served.
ghost use Rattle.std.specs.Prelude.{◌≡◌, false, [], IfOk, OnOk};
ghost use Rattle.live_fabric.specs.Served.{has_node, with_served, is_served, served_in, served_of};

use fabric_script::{Line, Numbered};
use rio_chars::NoMemory;
use std::alloc::Global;

/// All endpoints, or those of some nodes, each once.
#[derive(Drop)]
pub(crate) struct Served {
    pub(crate) all: bool,
    nodes: Vec<u8>,
}

impl Served {
    /// No endpoint is served.
    pub(crate) fn new(alloc: Global) -> Served
        ensures all { result.all ≡ false }
        ensures nodes { result.nodes.items ≡ [] }
    {
        Served {
            all: false,
            nodes: Vec::new(alloc),
        }
    }

    /// Adds the node of an event `collect`, if it is not there.
    pub(crate) fn add(&mut self, event: &Line) -> Result<(), NoMemory>
        ensures nodes { OnOk result
            (self.new.nodes.items ≡ with_served self.old.nodes.items event.now) }
        ensures all { self.new.all ≡ self.old.all }
    {
        match event {
            Line::Collect { node } if !has_node(self.nodes.as_slice(), *node) => {
                match self.nodes.push(*node) {
                    Ok(()) => Ok(()),
                    Err(_) => Err(NoMemory),
                }
            }
            _ => Ok(()),
        }
    }

    /// Whether a node is served.
    fn has(&self, node: u8) -> bool
        ensures { result ≡ is_served self.now.all self.now.nodes.items node }
    {
        self.all || has_node(self.nodes.as_slice(), node)
    }

    /// The node of a line of set-up, if it is an endpoint that is served.
    fn node_in(&self, line: &Line) -> Option<u8>
        ensures { result ≡ served_in self.now.all self.now.nodes.items line.now }
    {
        match line {
            Line::Endpoint { name, .. } if self.has(*name) => Some(*name),
            _ => None,
        }
    }

    /// The endpoints of lines of set-up that are served, in the order of the lines.
    pub(crate) fn among(&self, alloc: Global, lines: &[Numbered]) -> Result<Vec<u8>, NoMemory>
        ensures { IfOk result (λ nodes. nodes.items
            ≡ served_of self.now.all self.now.nodes.items lines.now) }
    {
        let nodes = lines
            .iter()
            .filter_map(|line| self.node_in(&line.line))
            .collect(alloc)?;
        Ok(nodes)
    }
}

/// Whether a node is one of these.
fn has_node(nodes: &[u8], node: u8) -> bool
    ensures { result ≡ has_node nodes.now node }
{
    nodes.iter().any(|other| *other == node)
}
