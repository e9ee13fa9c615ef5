//! What GTKWave is to show of a wave: a save file, which opens on the first line that is shown.

use fabric_script::{PortRef, SetUp};
use std::alloc::Global;
use trace_lines::TraceLine;
use view_words::{Seen, Setting, Text, View, ViewEnd, links_of, put_node};

/// How a signal is shown: in digits of base 10, 16 or 2, as words, or as a title without a signal.
const DECIMAL: &[u8] = b"@24\n";

const HEXADECIMAL: &[u8] = b"@22\n";

const BINARY: &[u8] = b"@28\n";

const WORDS: &[u8] = b"@820\n";

const TITLE: &[u8] = b"@200\n";

/// The signals of a port, each with how it is shown.
const SIGNALS: [(&[u8], &[u8]); 15] = [
    (WORDS, b"output"),
    (WORDS, b"input"),
    (DECIMAL, b"outstanding[7:0]"),
    (DECIMAL, b"held[7:0]"),
    (DECIMAL, b"time_outs[7:0]"),
    (WORDS, b"sent.reads"),
    (WORDS, b"sent.symbol"),
    (DECIMAL, b"sent.ack[7:0]"),
    (BINARY, b"sent.k"),
    (HEXADECIMAL, b"sent.byte[7:0]"),
    (WORDS, b"got.reads"),
    (WORDS, b"got.symbol"),
    (DECIMAL, b"got.ack[7:0]"),
    (BINARY, b"got.k"),
    (HEXADECIMAL, b"got.byte[7:0]"),
];

/// A save file in the making.
#[derive(Drop)]
pub(crate) struct SaveFile {
    /// How many characters have come, and how many before the first line that is shown.
    time: u64,
    begin: Option<u64>,
    alloc: Global,
}

impl SaveFile {
    /// No line has come.
    pub(crate) fn new(alloc: Global) -> SaveFile {
        SaveFile {
            time: 0,
            begin: None,
            alloc,
        }
    }
}

impl View for SaveFile {
    fn begin(&mut self, _: Setting<'_>, _: &mut Text) -> Result<(), ViewEnd> {
        Ok(())
    }

    fn take(&mut self, seen: &Seen<'_>, _: &mut Text) -> Result<(), ViewEnd> {
        if self.begin.is_none() && seen.selection.lines().has(seen.number) {
            self.begin = Some(self.time);
        }
        if let TraceLine::Sent(_, chars) | TraceLine::Got(_, chars) = seen.line {
            self.time = self.time.saturating_add(chars.len() as u64);
        }
        Ok(())
    }

    fn end(&mut self, setting: Setting<'_>, out: &mut Text) -> Result<(), ViewEnd> {
        put_begin(out, self.begin.unwrap_or(0));
        for (a, b) in &links_of(self.alloc, setting.set_up)? {
            for port in [*a, *b] {
                if setting.selection.has_port(port) {
                    put_signals(out, setting.set_up, port);
                }
            }
        }
        Ok(())
    }
}

/// Where the window and its marker stand, and the line of the trace.
fn put_begin(out: &mut Text, begin: u64) {
    out.put(b"[timestart] ");
    out.put_number(begin);
    out.put(b"\n*-3.000000 ");
    out.put_number(begin);
    for _ in 0..26 {
        out.put(b" -1");
    }
    out.put(b"\n[treeopen] links.\n");
    out.put(DECIMAL);
    out.put(b"links.line[31:0]\n");
}

/// The signals of a port, below its name.
fn put_signals(out: &mut Text, set_up: &SetUp, port: PortRef) {
    out.put(TITLE);
    out.put(b"-");
    put_scope_name(out, set_up, port);
    out.put(b"\n");
    for (shown, name) in &SIGNALS {
        out.put(shown);
        out.put(b"links.");
        put_scope_name(out, set_up, port);
        out.put(b".");
        out.put(name);
        out.put(b"\n");
    }
}

/// The name of the scope of a port: in a name a point would part scopes.
pub(crate) fn put_scope_name(out: &mut Text, set_up: &SetUp, port: PortRef) {
    put_node(out, set_up, port.node);
    out.put(b"_");
    out.put_number(u64::from(port.port));
}
