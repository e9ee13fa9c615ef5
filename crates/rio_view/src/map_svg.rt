//! A map in SVG: a box for each node with its ports at its edges, and a line for each link.

use crate::map::{FabricMap, MapNode};
use crate::map_layout::{GAP, level_of};
use crate::picture::put_attribute;
use fabric_script::PortRef;
use std::alloc::AllocError;
use view_words::Text;

/// How high a box is, and a level with the links below it.
const BOX: u32 = 64;

const LEVEL: u32 = 150;

/// Where the first level begins.
const TOP: u32 = 28;

/// How high a line of a table is, and how many bytes it has at most.
const LINE: u32 = 16;

const MOST_LINE: usize = 96;

/// What the parts of the picture look like.
const STYLE: &[u8] = b"<style>
text { font: 11px sans-serif; fill: #222; text-anchor: middle; }
.name { font-size: 13px; font-weight: bold; }
.port { font-size: 10px; fill: #555; }
.free { fill: #999; font-style: italic; }
.table { text-anchor: start; }
.endpoint rect { fill: #fff; stroke: #1257a5; stroke-width: 1.5; }
.switch rect { fill: #eef1f5; stroke: #444; stroke-width: 1.5; }
.link { fill: none; stroke: #444; stroke-width: 1.5; }
</style>
<rect width=\"100%\" height=\"100%\" fill=\"white\"/>
";

/// Puts a map, with the tables of its switches if they are wanted.
pub(crate) fn put_svg(map: &FabricMap, has_tables: bool, out: &mut Text) -> Result<(), AllocError> {
    let mut body = Text::new(map.alloc);
    let mut high = TOP.saturating_add(levels_of(map).saturating_mul(LEVEL));
    for (a, b) in &map.links {
        put_link(map, *a, *b, &mut body);
    }
    for (number, node) in map.nodes.iter().enumerate() {
        put_box(map, number.min(255) as u8, node, &mut body);
    }
    if has_tables {
        for node in map.nodes.iter() {
            high = put_tables(node, high, &mut body);
        }
    }
    put_head(map, high, out);
    out.put_text(&body);
    out.put(b"</svg>\n");
    Ok(())
}

/// How many levels there are.
fn levels_of(map: &FabricMap) -> u32 {
    let mut count = 0;
    for node in map.nodes.iter() {
        count = count.max(node.level.unwrap_or(0).saturating_add(1));
    }
    count
}

/// The beginning of the picture.
fn put_head(map: &FabricMap, high: u32, out: &mut Text) {
    let mut wide = 520u32;
    for node in map.nodes.iter() {
        wide = wide.max(node.left.saturating_add(node.wide).saturating_add(GAP));
    }
    out.put(b"<svg xmlns=\"http://www.w3.org/2000/svg\"");
    put_attribute(out, b"width", u64::from(wide));
    put_attribute(out, b"height", u64::from(high));
    out.put(b" viewBox=\"0 0 ");
    out.put_number(u64::from(wide));
    out.put(b" ");
    out.put_number(u64::from(high));
    out.put(b"\" role=\"img\">\n<title>A fabric and its links</title>\n");
    out.put(STYLE);
}

/// The upper edge of a node.
fn top_of(map: &FabricMap, node: u8) -> u32 {
    TOP.saturating_add(level_of(map, node).saturating_mul(LEVEL))
}

/// Whether a port is at the upper edge of its box: its link leads to a level above.
fn is_up(map: &FabricMap, port: PortRef) -> bool {
    match map.peer_of(port) {
        Some(peer) => level_of(map, peer.node) < level_of(map, port.node),
        None => false,
    }
}

/// Where a port is from left to right: the ports of an edge stand in the order of their numbers.
fn across(map: &FabricMap, port: PortRef) -> u32 {
    let Some(node) = map.nodes.get(usize::from(port.node)) else {
        return 0;
    };
    let up = is_up(map, port);
    let mut before = 0u32;
    let mut count = 0u32;
    for number in 0..node.ports {
        let other = PortRef {
            node: port.node,
            port: number,
        };
        if is_up(map, other) == up {
            count = count.saturating_add(1);
            if number < port.port {
                before = before.saturating_add(1);
            }
        }
    }
    let step = node.wide / count.max(1);
    node.left
        .saturating_add(step / 2)
        .saturating_add(step.saturating_mul(before))
}

/// Where a port is from top to bottom.
fn down(map: &FabricMap, port: PortRef) -> u32 {
    let top = top_of(map, port.node);
    if is_up(map, port) {
        top
    } else {
        top.saturating_add(BOX)
    }
}

/// A link: a straight line, or an arc below two nodes of one level.
fn put_link(map: &FabricMap, a: PortRef, b: PortRef, out: &mut Text) {
    out.put(b"<path class=\"link\" d=\"M");
    put_point(out, across(map, a), down(map, a));
    if level_of(map, a.node) == level_of(map, b.node) {
        let below = down(map, a).saturating_add(56);
        out.put(b"C");
        put_point(out, across(map, a), below);
        out.put(b" ");
        put_point(out, across(map, b), below);
        out.put(b" ");
    } else {
        out.put(b"L");
    }
    put_point(out, across(map, b), down(map, b));
    out.put(b"\"/>\n");
}

/// A point.
fn put_point(out: &mut Text, x: u32, y: u32) {
    out.put_number(u64::from(x));
    out.put(b" ");
    out.put_number(u64::from(y));
}

/// The box of a node.
fn put_box(map: &FabricMap, number: u8, node: &MapNode, out: &mut Text) {
    let top = top_of(map, number);
    out.put(if node.is_switch {
        b"<g class=\"switch\">"
    } else {
        b"<g class=\"endpoint\">"
    });
    put_tip(node, out);
    out.put(b"<rect");
    put_attribute(out, b"x", u64::from(node.left));
    put_attribute(out, b"y", u64::from(top));
    put_attribute(out, b"width", u64::from(node.wide));
    put_attribute(out, b"height", u64::from(BOX));
    out.put(if node.is_switch {
        b" rx=\"8\"/>"
    } else {
        b"/>"
    });
    let middle = node.left.saturating_add(node.wide / 2);
    put_label(out, b"name", middle, top.saturating_add(30), &node.name);
    put_label(out, b"note", middle, top.saturating_add(44), &node.notes);
    for port in 0..node.ports {
        let port = PortRef { node: number, port };
        put_port_number(map, port, out);
    }
    out.put(b"</g>\n");
}

/// The tables of a node as its tooltip.
fn put_tip(node: &MapNode, out: &mut Text) {
    out.put(b"<title>");
    out.put_text(&node.name);
    if node.notes.len() > 0 {
        out.put(b": ");
        out.put_text(&node.notes);
    }
    if node.routes.len() > 0 {
        out.put(b"; routes: ");
        out.put_text(&node.routes);
    }
    if node.entries.len() > 0 {
        out.put(b"; written: ");
        out.put_text(&node.entries);
    }
    out.put(b"</title>");
}

/// The number of a port, within the edge of its box.
fn put_port_number(map: &FabricMap, port: PortRef, out: &mut Text) {
    let x = across(map, port);
    let y = if is_up(map, port) {
        down(map, port).saturating_add(12)
    } else {
        down(map, port).saturating_sub(5)
    };
    let class: &[u8] = if map.peer_of(port).is_some() {
        b"port"
    } else {
        b"port free"
    };
    let mut label = Text::new(map.alloc);
    label.put_number(u64::from(port.port));
    put_label(out, class, x, y, &label);
}

/// Words at a place.
fn put_label(out: &mut Text, class: &[u8], x: u32, y: u32, words: &Text) {
    put_words(out, class, x, y, words.as_slice());
    out.lack(words);
}

/// The same, of bytes.
fn put_words(out: &mut Text, class: &[u8], x: u32, y: u32, words: &[u8]) {
    out.put(b"<text class=\"");
    out.put(class);
    out.put(b"\"");
    put_attribute(out, b"x", u64::from(x));
    put_attribute(out, b"y", u64::from(y));
    out.put(b">");
    out.put(words);
    out.put(b"</text>");
}

/// The routes of a node below the picture, which is so high, and how high it is with them.
fn put_tables(node: &MapNode, high: u32, out: &mut Text) -> u32 {
    let high = put_table(node, b": routes of the set-up: ", &node.routes, high, out);
    put_table(
        node,
        b": routes that the host wrote: ",
        &node.entries,
        high,
        out,
    )
}

/// A table, in lines that are not too long.
fn put_table(node: &MapNode, head: &[u8], routes: &Text, high: u32, out: &mut Text) -> u32 {
    if routes.len() == 0 {
        return high;
    }
    out.put(b"<text class=\"table\"");
    put_attribute(out, b"x", u64::from(GAP));
    put_attribute(out, b"y", u64::from(high));
    out.put(b"><tspan class=\"name\">");
    out.put_text(&node.name);
    out.put(b"</tspan>");
    out.put(head);
    out.put(b"</text>\n");
    let mut at = high.saturating_add(LINE);
    let mut left = routes.as_slice();
    for _ in 0..routes.len() {
        if left.is_empty() {
            break;
        }
        let (line, rest) = line_of(left);
        put_words(out, b"table", GAP + 16, at, line);
        out.put(b"\n");
        at = at.saturating_add(LINE);
        left = rest;
    }
    at.saturating_add(LINE / 2)
}

/// The front of a table that makes a line, up to a comma, and the rest.
fn line_of(routes: &[u8]) -> (&[u8], &[u8]) {
    if routes.len() <= MOST_LINE {
        return (routes, b"");
    }
    let mut end = MOST_LINE;
    for (place, byte) in routes.iter().enumerate() {
        if place < MOST_LINE && *byte == b',' {
            end = place + 1;
        }
    }
    routes.split_at(end.min(routes.len()))
}
