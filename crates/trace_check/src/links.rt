//! The links of a fabric.

ghost use Rattle.std.specs.Prelude.{◌≡◌, ◌<◌, ◌++◌, None, Some, length, replicate, slice_get, slice_set, IfOk};
ghost use Rattle.fabric_model.specs.Network.{Network as ANetwork};
ghost use Rattle.fabric_trace.specs.Settings.{set_up};
ghost use Rattle.trace_check.specs.Networks.{AreKeptLinks};
ghost use Rattle.trace_check.specs.Starting.{AreJoined, IsBegun, MayStandBehind, MayJoin, net_of, nodes_of};
ghost use Rattle.trace_check.specs.Tables.{table_place};

use crate::places::{PORTS, place_of};
use fabric_script::{Line, PortRef, SetUp};
use std::alloc::{AllocError, Global};

/// The other end of the link of each port, at its place.
#[derive(Drop)]
pub(crate) struct Links {
    peers: Vec<Option<PortRef>>,
}

impl Links {
    /// The links that set-up lines make.
    pub(crate) fn new(alloc: Global, set_up: &SetUp) -> Result<Links, AllocError>
        requires { IsBegun set_up.now }
        ensures { IfOk result (λ links.
            AreKeptLinks (nodes_of set_up.now) (net_of set_up.now).links links) }
    {
        let mut links = Links {
            peers: Vec::new(alloc),
        };
        for numbered in set_up.lines() {
            links.add(&numbered.line)?;
        }
        Ok(links)
    }

    /// Takes in a line of set-up.
    fn add(&mut self, line: &Line) -> Result<(), AllocError>
        requires { MayJoin self.old line.now }
        ensures { IfOk result (λ _. (net : ANetwork) → AreJoined net self.old
            → MayStandBehind net line.now → AreJoined (set_up net line.now) self.new) }
    {
        match line {
            Line::Endpoint { .. } | Line::Switch { .. } => self.add_node(),
            Line::Link { a, b } => {
                self.join(*a, *b);
                self.join(*b, *a);
                Ok(())
            }
            _ => Ok(()),
        }
    }

    /// One more node, whose ports have no links.
    fn add_node(&mut self) -> Result<(), AllocError>
        ensures { IfOk result (λ _. self.new.peers.items
            ≡ self.old.peers.items ++ replicate 16 None) }
    {
        for _ in 0..PORTS {
            self.peers.push(None)?;
        }
        Ok(())
    }

    /// A port has a link to another.
    fn join(&mut self, port: PortRef, peer: PortRef)
        requires { table_place port < length self.old.peers.items }
        ensures { self.new.peers.items
            ≡ slice_set self.old.peers.items (table_place port) (Some peer) }
    {
        self.peers[place_of(port)] = Some(peer);
    }

    /// How many places of ports there are.
    pub(crate) fn len(&self) -> usize
        ensures { result ≡ length self.now.peers.items }
    {
        self.peers.len()
    }

    /// The other end of a port's link.
    pub(crate) fn peer(&self, port: PortRef) -> Option<PortRef>
        ensures some { (peer : _) → result ≡ Some peer
            → slice_get self.now.peers.items (table_place port) ≡ Some (Some peer) }
        ensures none { result ≡ None
            → (peer : _) → slice_get self.now.peers.items (table_place port) ≡ Some (Some peer)
            → ⊥ }
    {
        let place = place_of(port);
        if place < self.peers.len() {
            self.peers[place]
        } else {
            None
        }
    }
}
