//! A table of what each port did, and of what is left.

use crate::fabric::put_port;
use crate::reading::ViewEnd;
use crate::text::Text;
use crate::view::{Seen, Setting, View};
use fabric_script::{PortRef, SetUp};
use std::alloc::Global;
use trace_counts::{Sums, Tallies};
use trace_lines::TraceLine;

/// How many nodes a fabric has at most.
const MOST_NODES: u8 = 64;

/// How wide the names of ports are.
const NAME: usize = 11;

/// The heads of the table of what each port did.
const DONE: [&[u8]; 12] = [
    b"characters",
    b"packets",
    b"again",
    b"accepted",
    b"held",
    b"retried",
    b"refused",
    b"requests",
    b"time-outs",
    b"outstanding",
    b"to send",
    b"received",
];

/// The heads of the table of symbols: first by stype0, then by stype1.
const SYMBOLS: [&[u8]; 15] = [
    b"accepted",
    b"retry",
    b"not-accepted",
    b"status",
    b"response",
    b"other",
    b"start",
    b"stomp",
    b"end",
    b"restart",
    b"request",
    b"multicast",
    b"NOP",
    b"other",
    b"bad",
];

/// The heads of the table of refusals.
const REFUSED: [&[u8]; 7] = [
    b"ackID",
    b"symbol",
    b"stopped",
    b"packet",
    b"character",
    b"general",
    b"other",
];

/// The causes below these heads.
const CAUSES: [usize; 6] = [1, 2, 3, 4, 5, 31];

/// What each port did, and how many packets went in and out: up to the last line that is shown, and
/// before the first.
#[derive(Drop)]
pub struct CountsView {
    all: Option<Tallies>,
    before: Option<Tallies>,
    last: &'static [u8],
    alloc: Global,
}

impl CountsView {
    /// Nothing was done.
    pub fn new(alloc: Global) -> CountsView {
        CountsView {
            all: None,
            before: None,
            last: b"",
            alloc,
        }
    }
}

impl View for CountsView {
    fn begin(&mut self, setting: Setting<'_>, _: &mut Text) -> Result<(), ViewEnd> {
        let nodes = setting.set_up.names().len().min(64) as u8;
        self.all = Some(Tallies::new(self.alloc, nodes)?);
        self.before = Some(Tallies::new(self.alloc, nodes)?);
        Ok(())
    }

    fn take(&mut self, seen: &Seen<'_>, _: &mut Text) -> Result<(), ViewEnd> {
        let lines = seen.selection.lines();
        if let (Some(before), true) = (&mut self.before, seen.number < lines.first) {
            before.count(seen.line)?;
        }
        if let (Some(all), true) = (&mut self.all, seen.number <= lines.last) {
            all.count(seen.line)?;
        }
        match seen.line {
            TraceLine::Ended => self.last = b"end",
            TraceLine::Undetected(..) => self.last = b"undetected",
            _ => {}
        }
        Ok(())
    }

    fn end(&mut self, setting: Setting<'_>, out: &mut Text) -> Result<(), ViewEnd> {
        if let (Some(all), Some(before)) = (&self.all, &self.before) {
            let tables = Tables {
                all,
                before,
                setting,
            };
            tables.put(out);
        }
        out.put(self.last);
        out.put(b"\n");
        Ok(())
    }
}

/// A table with a row for each port.
#[derive(Clone, Copy)]
enum Table {
    Done,
    Symbols,
    Refused,
}

impl Table {
    /// The heads of its columns.
    fn heads(self) -> &'static [&'static [u8]] {
        match self {
            Table::Done => &DONE,
            Table::Symbols => &SYMBOLS,
            Table::Refused => &REFUSED,
        }
    }

    /// Puts a row, by what was done up to the last line, and before the first.
    fn put_row(self, all: &Sums, before: &Sums, row: &mut CountsRow<'_>) {
        match self {
            Table::Done => {
                row.put_less(&done_of(all), &done_of(before));
                row.put_all(&[all.most, all.to_send(), all.received()]);
            }
            Table::Symbols => row.put_less(&symbols_of(all), &symbols_of(before)),
            Table::Refused => row.put_less(&causes_of(all), &causes_of(before)),
        }
    }
}

/// What the tables show.
#[derive(Clone, Copy)]
struct Tables<'a> {
    all: &'a Tallies,
    before: &'a Tallies,
    setting: Setting<'a>,
}

impl Tables<'_> {
    /// All tables, and how many packets came in and went out.
    fn put(&self, out: &mut Text) {
        self.put_table(out, Table::Done);
        out.put(b"\nsymbols that it sent\n");
        self.put_table(out, Table::Symbols);
        out.put(b"\npackets that it refused, by cause\n");
        self.put_table(out, Table::Refused);
        out.put(b"\n");
        put_total(totals(self.all), totals(self.before), out);
    }

    /// Whether a port has a row: it is shown, and has a link or packets to send.
    fn is_shown(&self, port: PortRef, sums: &Sums) -> bool {
        let Setting {
            set_up,
            selection,
            ..
        } = self.setting;
        selection.has_port(port) && (set_up.is_linked(port) || sums.to_send() > 0)
    }

    /// A table with a row for each port.
    fn put_table(&self, out: &mut Text, table: Table) {
        put_heads(out, table.heads());
        for node in 0..MOST_NODES {
            for port in 0..16 {
                self.put_row(out, table, PortRef { node, port });
            }
        }
    }

    /// The row of a port, if it has one.
    fn put_row(&self, out: &mut Text, table: Table, port: PortRef) {
        let (Some(all), Some(before)) = (self.all.get(port), self.before.get(port)) else {
            return;
        };
        if self.is_shown(port, all.sums()) {
            put_name(out, self.setting.set_up, port);
            let heads = table.heads();
            table.put_row(all.sums(), before.sums(), &mut CountsRow { out, heads });
            out.put(b"\n");
        }
    }
}

/// The heads of a table.
fn put_heads(out: &mut Text, heads: &[&[u8]]) {
    out.put_left(NAME, b"port");
    for head in heads {
        out.put(b" ");
        out.put(head);
    }
    out.put(b"\n");
}

/// How many packets were taken, answered, left and were dropped.
fn totals(tallies: &Tallies) -> [u64; 4] {
    let mut total = [0u64; 4];
    for node in 0..MOST_NODES {
        for port in 0..16 {
            if let Some(tally) = tallies.get(PortRef { node, port }) {
                tally.sums().add_to(&mut total);
            }
        }
    }
    total
}

/// How many packets came in and went out, and how many are left.
fn put_total(all: [u64; 4], before: [u64; 4], out: &mut Text) {
    let [taken, answered, gone, dropped] = all;
    put_named(out, taken.saturating_sub(before[0]), b" taken, ");
    put_named(out, answered.saturating_sub(before[1]), b" answered, ");
    put_named(out, gone.saturating_sub(before[2]), b" gone, ");
    put_named(out, dropped.saturating_sub(before[3]), b" dropped, ");
    let left = taken.saturating_sub(gone).saturating_sub(dropped);
    put_named(out, left, b" still there; ");
}

/// A number and what it counts.
fn put_named(out: &mut Text, number: u64, name: &[u8]) {
    out.put_number(number);
    out.put(name);
}

/// The name of a port, and spaces behind it.
fn put_name(out: &mut Text, set_up: &SetUp, port: PortRef) {
    let before = out.len();
    put_port(out, set_up, port);
    for _ in out.len().saturating_sub(before)..NAME {
        out.put(b" ");
    }
}

/// The rest of a row: numbers below the heads that are left.
#[derive(Drop)]
struct CountsRow<'a> {
    out: &'a mut Text,
    heads: &'a [&'a [u8]],
}

impl CountsRow<'_> {
    /// Puts the next number.
    fn put(&mut self, number: u64) {
        let mut width = NAME;
        if let [head, rest @ ..] = self.heads {
            width = head.len();
            self.heads = rest;
        }
        self.out.put(b" ");
        self.out.put_number_right(width, number);
    }

    /// Puts the next numbers.
    fn put_all(&mut self, numbers: &[u64]) {
        for number in numbers {
            self.put(*number);
        }
    }

    /// Puts the next numbers, each less what was there before.
    fn put_less(&mut self, numbers: &[u64], before: &[u64]) {
        for (number, before) in numbers.iter().zip(before.iter()) {
            self.put(number.saturating_sub(*before));
        }
    }
}

/// What a port did.
fn done_of(sums: &Sums) -> [u64; 9] {
    [
        sums.characters,
        sums.packets,
        sums.again(),
        sums.senders[0],
        sums.lines.holds,
        sums.senders[1],
        sums.senders[2],
        sums.receivers[4],
        sums.lines.fires,
    ]
}

/// The symbols that a port sent, by what they tell the sender and the receiver of packets.
fn symbols_of(sums: &Sums) -> [u64; 15] {
    let senders = &sums.senders;
    let receivers = &sums.receivers;
    [
        senders[0],
        senders[1],
        senders[2],
        senders[4],
        senders[6],
        sum(&[senders[3], senders[5], senders[7]]),
        receivers[0],
        receivers[1],
        receivers[2],
        receivers[3],
        receivers[4],
        receivers[5],
        receivers[7],
        receivers[6],
        sums.bad,
    ]
}

/// The refusals that a port sent, by their causes.
fn causes_of(sums: &Sums) -> [u64; 7] {
    let mut counts = [0u64; 7];
    let mut other = sum(&sums.causes);
    for (place, cause) in counts.iter_mut().zip(CAUSES.iter()) {
        *place = sums.causes.get(*cause).copied().unwrap_or(0);
        other = other.saturating_sub(*place);
    }
    counts[6] = other;
    counts
}

/// The sum of numbers.
fn sum(numbers: &[u64]) -> u64 {
    numbers
        .iter()
        .fold(0u64, |sum, number| sum.saturating_add(*number))
}
