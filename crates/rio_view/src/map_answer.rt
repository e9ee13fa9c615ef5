//! What a host that numbered a fabric wrote of it: the lines `device`, `entry` and `locked`.

use crate::map::{FabricMap, put_route};
use fabric_script::{PortRef, read_number};
use rio_chars::Source;
use view_words::{LineFault, Lines, ViewEnd, ViewStatus, refused};

/// Reads the lines behind the line `---`, of which the first has this number. Lines of a trace are
/// passed over.
pub(crate) fn read_answer<S: Source>(
    map: &mut FabricMap,
    first: u32,
    lines: &mut Lines,
    source: &mut S,
) -> Result<(), ViewEnd> {
    for number in first..u32::MAX {
        if !lines.read(source)? {
            return Ok(());
        }
        if read_line(map, lines.line()).is_none() {
            return refused(map.alloc, number, LineFault::OtherMap, lines.line());
        }
    }
    Err(ViewEnd::Ended(ViewStatus::TooLong))
}

/// A line of a map, or one that is passed over. `None` comes if it is a line of a map that says
/// nothing of this fabric.
fn read_line(map: &mut FabricMap, line: &[u8]) -> Option<()> {
    let (word, rest) = first_word(line);
    match word {
        b"device" => read_device(map, rest),
        b"entry" => read_entry(map, rest),
        b"locked" => {
            let (path, id) = first_word(rest);
            let node = node_at(map, path)?;
            map.put_note(node, b"locked by ", read_number(id)?);
            Some(())
        }
        _ => Some(()),
    }
}

/// `TAG endpoint ID PATH` or `TAG switch PORTS PATH`.
fn read_device(map: &mut FabricMap, line: &[u8]) -> Option<()> {
    let (tag, rest) = first_word(line);
    let (kind, rest) = first_word(rest);
    let (number, path) = first_word(rest);
    let tag = read_number(tag)?;
    let number = read_number(number)?;
    if path == b"host".as_slice() {
        map.host = host_of(map, number)?;
    }
    let node = node_at(map, path)?;
    map.put_note(node, b"tag ", tag);
    let is_numbered = kind == b"endpoint".as_slice();
    let place = map.nodes.get_mut(usize::from(node))?;
    place.tag = Some(tag);
    if is_numbered && number != u32::from(place.id) {
        map.put_note(node, b"now ID ", number);
    }
    Some(())
}

/// `TAG ID PORT`.
fn read_entry(map: &mut FabricMap, line: &[u8]) -> Option<()> {
    let (tag, rest) = first_word(line);
    let (id, port) = first_word(rest);
    let tag = read_number(tag)?;
    let node = map.nodes.iter_mut().find(|node| node.tag == Some(tag))?;
    put_route(&mut node.entries, read_number(id)?, read_number(port)?);
    Some(())
}

/// The endpoint with this ID, which the host keeps.
fn host_of(map: &FabricMap, id: u32) -> Option<u8> {
    let place = map
        .nodes
        .iter()
        .position(|node| !node.is_switch && u32::from(node.id) == id)?;
    Some(place.min(255) as u8)
}

/// The node at the end of a path from the host.
fn node_at(map: &FabricMap, path: &[u8]) -> Option<u8> {
    let mut node = map.host;
    if path == b"host".as_slice() {
        return Some(node);
    }
    let mut left = path;
    for _ in 0..path.len() {
        let (port, rest) = parted(left, b'.');
        let port = read_number(port)?.min(255) as u8;
        node = map.peer_of(PortRef { node, port })?.node;
        left = rest;
        if left.is_empty() {
            return Some(node);
        }
    }
    None
}

/// The first word of a line, and what is behind it.
fn first_word(line: &[u8]) -> (&[u8], &[u8]) {
    parted(line, b' ')
}

/// What stands before a byte, and what stands behind it.
fn parted(line: &[u8], byte: u8) -> (&[u8], &[u8]) {
    match line.iter().position(|it| *it == byte) {
        Some(place) => {
            let (word, rest) = line.split_at(place);
            (word, rest.get(1..).unwrap_or(b""))
        }
        None => (line, b""),
    }
}
