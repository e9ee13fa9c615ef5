//! The fabric of set-up lines as a picture, with the numbers and tables of a map that
//! `rio enumerate` wrote.

use crate::command::ViewCommand;
use crate::map_answer::read_answer;
use crate::map_dot::put_dot;
use crate::map_layout::place_nodes;
use crate::map_svg::put_svg;
use fabric_script::{Line, PortRef, SetUp};
use rio_chars::{Sink, Source};
use std::alloc::{AllocError, Global};
use view_words::{Lines, Text, ViewEnd, links_of, peer_of, put_node, read_front, write_out};

/// A node of a map.
#[derive(Drop)]
pub(crate) struct MapNode {
    pub(crate) name: Text,
    pub(crate) is_switch: bool,
    pub(crate) ports: u8,
    /// Its 8-bit ID, if it is an endpoint.
    pub(crate) id: u8,
    /// Its IDs, its lock and its tag, in words.
    pub(crate) notes: Text,
    /// Its routes: those of the set-up lines, and those that a host wrote.
    pub(crate) routes: Text,
    pub(crate) entries: Text,
    /// The tag that a host gave.
    pub(crate) tag: Option<u32>,
    /// How many links it is away from the first node, and where its box is.
    pub(crate) level: Option<u32>,
    pub(crate) left: u32,
    pub(crate) wide: u32,
}

/// A map in the making.
#[derive(Drop)]
pub(crate) struct FabricMap {
    pub(crate) nodes: Vec<MapNode>,
    pub(crate) links: Vec<(PortRef, PortRef)>,
    /// The node that numbered the others, or the first.
    pub(crate) host: u8,
    pub(crate) alloc: Global,
}

/// Reads set-up lines, and behind a line `---` what a host wrote, and writes a map of the fabric.
pub(crate) fn show_map<S: Source, K: Sink>(
    alloc: Global,
    command: ViewCommand<'_>,
    source: &mut S,
    sink: &mut K,
) -> Result<(), ViewEnd> {
    let mut lines = Lines::new(alloc)?;
    let (set_up, first, has_answer) = read_front(alloc, &mut lines, source)?;
    let mut map = FabricMap::new(alloc, &set_up)?;
    if has_answer {
        read_answer(&mut map, first, &mut lines, source)?;
    }
    let mut out = Text::new(alloc);
    if command.is_dot {
        put_dot(&map, command.has_tables, &mut out);
    } else {
        place_nodes(&mut map)?;
        put_svg(&map, command.has_tables, &mut out)?;
    }
    write_out(&mut out, sink)
}

impl FabricMap {
    /// The fabric of set-up lines.
    fn new(alloc: Global, set_up: &SetUp) -> Result<FabricMap, AllocError> {
        let mut map = FabricMap {
            nodes: Vec::new(alloc),
            links: links_of(alloc, set_up)?,
            host: 0,
            alloc,
        };
        for line in set_up.lines() {
            match &line.line {
                Line::Endpoint { name, id } => map.add(set_up, *name, Kind::Endpoint(*id))?,
                Line::Switch { name, ports } => map.add(set_up, *name, Kind::Switch(*ports))?,
                line => map.note(line),
            }
        }
        Ok(map)
    }

    /// A node.
    fn add(&mut self, set_up: &SetUp, node: u8, kind: Kind) -> Result<(), AllocError> {
        let mut name = Text::new(self.alloc);
        put_node(&mut name, set_up, node);
        let (is_switch, ports, id) = match kind {
            Kind::Endpoint(id) => (false, 1, id),
            Kind::Switch(ports) => (true, ports, 0),
        };
        let mut notes = Text::new(self.alloc);
        if !is_switch {
            notes.put(b"ID ");
            notes.put_number(u64::from(id));
        }
        self.nodes.push(MapNode {
            name,
            is_switch,
            ports,
            id,
            notes,
            routes: Text::new(self.alloc),
            entries: Text::new(self.alloc),
            tag: None,
            level: None,
            left: 0,
            wide: 0,
        })?;
        Ok(())
    }

    /// What a line says of a node that was added.
    fn note(&mut self, line: &Line) {
        match line {
            Line::Large { node, id } => self.put_note(*node, b"16-bit ID ", u32::from(*id)),
            Line::Lock { node, id } => self.put_note(*node, b"lock ", u32::from(*id)),
            Line::Route { node, id, p } => {
                if let Some(node) = self.nodes.get_mut(usize::from(*node)) {
                    put_route(&mut node.routes, u32::from(*id), u32::from(*p));
                }
            }
            Line::Default { node, p } => {
                if let Some(node) = self.nodes.get_mut(usize::from(*node)) {
                    part(&mut node.routes);
                    node.routes.put(b"others to ");
                    node.routes.put_number(u64::from(*p));
                }
            }
            _ => {}
        }
    }

    /// Notes a number at a node.
    pub(crate) fn put_note(&mut self, node: u8, words: &[u8], number: u32) {
        if let Some(node) = self.nodes.get_mut(usize::from(node)) {
            part(&mut node.notes);
            node.notes.put(words);
            node.notes.put_number(u64::from(number));
        }
    }

    /// The port at the other end of the link of a port.
    pub(crate) fn peer_of(&self, port: PortRef) -> Option<PortRef> {
        peer_of(self.links.as_slice(), port)
    }
}

/// What a node is.
#[derive(Clone, Copy)]
enum Kind {
    Endpoint(u8),
    Switch(u8),
}

/// Parts what comes from what is there.
fn part(words: &mut Text) {
    if words.len() > 0 {
        words.put(b", ");
    }
}

/// A route: an ID and the port that leads to it.
pub(crate) fn put_route(routes: &mut Text, id: u32, port: u32) {
    part(routes);
    routes.put_number(u64::from(id));
    routes.put(b" to ");
    routes.put_number(u64::from(port));
}
