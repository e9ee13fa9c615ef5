//! Where the nodes of a map stand: each on the level of its distance from the host, beside one
//! another.

use crate::map::{FabricMap, MapNode};
use fabric_script::PortRef;
use std::alloc::AllocError;

/// How far the boxes of a level are apart, and the first from the left.
pub(crate) const GAP: u32 = 36;

/// How wide a port of a box is.
pub(crate) const PORT: u32 = 26;

/// How wide a letter is, about.
const LETTER: usize = 7;

/// The least width of a box.
const LEAST: u32 = 76;

/// Gives each node its level and its place.
pub(crate) fn place_nodes(map: &mut FabricMap) -> Result<(), AllocError> {
    let order = level_nodes(map)?;
    let mut widest = 0u32;
    for level in 0..map.nodes.len().min(64) as u32 {
        let wide = place_level(map, order.as_slice(), level);
        widest = widest.max(wide);
    }
    for node in map.nodes.iter_mut() {
        node.left = node.left.saturating_add(GAP);
    }
    centre(map, widest);
    Ok(())
}

/// Gives each node its level: how many links it is away from the host, or from the first node that
/// the host does not reach. The nodes are answered in this order.
fn level_nodes(map: &mut FabricMap) -> Result<Vec<u8>, AllocError> {
    let mut order = Vec::new(map.alloc);
    let count = map.nodes.len().min(64) as u8;
    for start in 0..=count {
        let root = if start == 0 { map.host } else { start - 1 };
        let begin = order.len();
        if reach(map, root, 0) {
            order.push(root)?;
        }
        // Each turn takes one node, of which there are 64 at most.
        for at in begin..64 {
            let Some(node) = order.get(at).copied() else {
                break;
            };
            reach_peers(map, node, &mut order)?;
        }
    }
    Ok(order)
}

/// Gives a node its level, unless it has one.
fn reach(map: &mut FabricMap, node: u8, level: u32) -> bool {
    match map.nodes.get_mut(usize::from(node)) {
        Some(node) if node.level.is_none() => {
            node.level = Some(level);
            true
        }
        _ => false,
    }
}

/// The nodes at the other ends of a node's links, in the order of its ports.
fn reach_peers(map: &mut FabricMap, node: u8, order: &mut Vec<u8>) -> Result<(), AllocError> {
    let level = level_of(map, node).saturating_add(1);
    for port in 0..16 {
        if let Some(peer) = map.peer_of(PortRef { node, port }) {
            if reach(map, peer.node, level) {
                order.push(peer.node)?;
            }
        }
    }
    Ok(())
}

/// The level of a node.
pub(crate) fn level_of(map: &FabricMap, node: u8) -> u32 {
    match map.nodes.get(usize::from(node)) {
        Some(node) => node.level.unwrap_or(0),
        None => 0,
    }
}

/// Places the nodes of a level beside one another, and answers how wide they are.
fn place_level(map: &mut FabricMap, order: &[u8], level: u32) -> u32 {
    let mut at = 0u32;
    for node in order {
        if let Some(node) = map.nodes.get_mut(usize::from(*node)) {
            if node.level == Some(level) {
                node.wide = width_of(node);
                node.left = at;
                at = at.saturating_add(node.wide).saturating_add(GAP);
            }
        }
    }
    at
}

/// How wide the box of a node is.
fn width_of(node: &MapNode) -> u32 {
    let letters = node.notes.len().max(node.name.len()).min(1_000) * LETTER + 20;
    let ports = u32::from(node.ports).saturating_mul(PORT).saturating_add(8);
    LEAST.max(ports).max(letters as u32)
}

/// Moves the nodes of each level to the middle of the widest one.
fn centre(map: &mut FabricMap, widest: u32) {
    for level in 0..map.nodes.len().min(64) as u32 {
        let mut end = 0u32;
        for node in map.nodes.iter().filter(|node| node.level == Some(level)) {
            end = end.max(node.left.saturating_add(node.wide));
        }
        let shift = widest.saturating_sub(end) / 2;
        for node in map.nodes.iter_mut() {
            if node.level == Some(level) {
                node.left = node.left.saturating_add(shift);
            }
        }
    }
}
