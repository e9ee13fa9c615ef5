//! A map in the language of Graphviz.

use crate::map::{FabricMap, MapNode};
use fabric_script::PortRef;
use view_words::Text;

/// Puts a map, with the tables of its switches if they are wanted.
pub(crate) fn put_dot(map: &FabricMap, has_tables: bool, out: &mut Text) {
    out.put(b"graph fabric {\n    node [shape=box, fontname=\"sans-serif\"];\n");
    out.put(b"    edge [fontname=\"sans-serif\", fontsize=10];\n");
    for node in map.nodes.iter() {
        put_dot_node(node, has_tables, out);
    }
    for (a, b) in &map.links {
        put_dot_link(map, *a, *b, out);
    }
    out.put(b"}\n");
}

/// A node.
fn put_dot_node(node: &MapNode, has_tables: bool, out: &mut Text) {
    out.put(b"    ");
    put_quoted(out, &node.name);
    out.put(b" [label=\"");
    out.put_text(&node.name);
    put_below(out, b"", &node.notes);
    if has_tables {
        put_below(out, b"routes: ", &node.routes);
        put_below(out, b"written: ", &node.entries);
    }
    out.put(b"\"");
    if node.is_switch {
        out.put(b", style=\"filled,rounded\", fillcolor=\"#eef1f5\"");
    }
    out.put(b"];\n");
}

/// A line of a label, if there is something in it.
fn put_below(out: &mut Text, head: &[u8], words: &Text) {
    if words.len() > 0 {
        out.put(b"\\n");
        out.put(head);
    }
    out.put_text(words);
}

/// A link, with the numbers of its ports at its ends.
fn put_dot_link(map: &FabricMap, a: PortRef, b: PortRef, out: &mut Text) {
    let (Some(one), Some(other)) = (
        map.nodes.get(usize::from(a.node)),
        map.nodes.get(usize::from(b.node)),
    ) else {
        return;
    };
    out.put(b"    ");
    put_quoted(out, &one.name);
    out.put(b" -- ");
    put_quoted(out, &other.name);
    out.put(b" [taillabel=\"");
    out.put_number(u64::from(a.port));
    out.put(b"\", headlabel=\"");
    out.put_number(u64::from(b.port));
    out.put(b"\"];\n");
}

/// A name between marks.
fn put_quoted(out: &mut Text, name: &Text) {
    out.put(b"\"");
    out.put_text(name);
    out.put(b"\"");
}
