//! The ports of a fabric: what is kept for each, their names, and their links.

use crate::text::Text;
use fabric_script::{Line, PortRef, SetUp};
use std::alloc::{AllocError, Global};

/// How many ports a node has at most.
const MOST_PORTS: usize = 16;

/// What is kept for each port.
#[derive(Drop)]
pub struct Ports<T> {
    items: Vec<T>,
}

impl<T> Ports<T> {
    /// Nothing is kept yet.
    pub fn new(alloc: Global) -> Ports<T> {
        Ports {
            items: Vec::new(alloc),
        }
    }

    /// What is kept for a port, if anything is.
    pub fn get(&self, port: PortRef) -> Option<&T> {
        self.items.get(place_of(port))
    }

    /// The same, to be changed.
    pub fn get_mut(&mut self, port: PortRef) -> Option<&mut T> {
        self.items.get_mut(place_of(port))
    }
}

impl<T: Drop> Ports<T> {
    /// Keeps something for the next port. Each node has 16 of them.
    pub fn push(&mut self, item: T) -> Result<(), AllocError> {
        self.items.push(item)?;
        Ok(())
    }
}

impl<T: Default + Drop> Ports<T> {
    /// Keeps something for each port of so many nodes.
    pub fn fill(&mut self, nodes: usize) -> Result<(), AllocError> {
        for _ in 0..nodes {
            for _ in 0..MOST_PORTS {
                self.items.push(T::default())?;
            }
        }
        Ok(())
    }
}

/// Where something of a port is kept.
fn place_of(port: PortRef) -> usize {
    usize::from(port.node) * MOST_PORTS + usize::from(port.port)
}

/// Puts the name of a port.
pub fn put_port(out: &mut Text, set_up: &SetUp, port: PortRef) {
    put_node(out, set_up, port.node);
    out.put(b".");
    out.put_number(u64::from(port.port));
}

/// Puts the name of a node.
pub fn put_node(out: &mut Text, set_up: &SetUp, node: u8) {
    if let Some(name) = set_up.names().get(usize::from(node)) {
        out.put(name.as_slice());
    }
}

/// The port by which an endpoint is linked.
pub fn port_of(node: u8) -> PortRef {
    PortRef { node, port: 0 }
}

/// The two ports of each link, in the order of the `link` lines.
pub fn links_of(alloc: Global, set_up: &SetUp) -> Result<Vec<(PortRef, PortRef)>, AllocError> {
    let mut links = Vec::new(alloc);
    for line in set_up.lines() {
        if let Line::Link { a, b } = &line.line {
            links.push((*a, *b))?;
        }
    }
    Ok(links)
}

/// The port at the other end of the link of a port.
pub fn peer_of(links: &[(PortRef, PortRef)], port: PortRef) -> Option<PortRef> {
    for (a, b) in links {
        if *a == port {
            return Some(*b);
        }
        if *b == port {
            return Some(*a);
        }
    }
    None
}
