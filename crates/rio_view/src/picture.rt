//! The rows of a ladder, and how they are drawn in SVG.

use rio_chars::{Char, char_text};
use std::alloc::{AllocError, Global};
use view_words::Text;

/// How high a row is.
const HIGH: u64 = 24;

/// Where the first row begins.
const TOP: u64 = 56;

/// The most rows of a picture: it is at most 32,767 pixels high, which is the most that common
/// programs open.
pub(crate) const MOST_ROWS: usize = 1_361;

/// How far the two lifelines of a link are apart.
pub(crate) const WIDE: u32 = 480;

/// How far the lifelines of two neighbouring links are apart.
pub(crate) const GAP: u32 = 240;

/// How far the first lifeline is from the left, and the last from the right.
pub(crate) const MARGIN: u32 = 150;

/// The most bytes of a label; the tooltip has the rest.
const MOST_LABEL: usize = 84;

/// The most bytes of a label that stands beside the lifelines of a link.
const MOST_BESIDE: usize = 16;

/// What the parts of the picture look like.
const STYLE: &[u8] = b"<style>
text { font: 11px sans-serif; fill: #222; }
.port { font-weight: bold; text-anchor: middle; }
.life { stroke: #999; stroke-dasharray: 2 3; }
.band { fill: #eef1f5; }
.edit { fill: #fbe3e0; }
.label { text-anchor: middle; }
.left { text-anchor: end; }
.arrow line, .inside line { stroke: #444; stroke-width: 1.2; marker-end: url(#head); }
.packet line { stroke: #1257a5; stroke-width: 1.8; }
.inside line { stroke: #888; stroke-dasharray: 2 3; }
.changed line, .lost line, .bad line { stroke: #c22; stroke-dasharray: 6 3; }
.changed text, .lost text, .bad text, .alarm { fill: #c22; }
circle { fill: #444; }
.alarm circle { fill: #c22; }
</style>
<defs><marker id=\"head\" viewBox=\"0 0 10 10\" refX=\"10\" refY=\"5\" markerWidth=\"7\" \
markerHeight=\"7\" orient=\"auto\"><path d=\"M0 0L10 5L0 10z\" fill=\"context-stroke\"/>\
</marker></defs>
";

/// What an arrow is.
#[derive(Clone, Copy)]
pub(crate) enum ArrowKind {
    /// A packet on a wire.
    Packet,
    /// A control symbol on a wire.
    Symbol,
    /// Characters on a wire that are neither.
    Bad,
    /// A packet that moves inside a switch.
    Inside,
}

/// An arrow from one lifeline to another.
#[derive(Drop)]
pub(crate) struct Arrow {
    pub(crate) kind: ArrowKind,
    pub(crate) from: u32,
    pub(crate) to: u32,
    pub(crate) label: Text,
    pub(crate) tip: Text,
    /// How many characters it has.
    pub(crate) count: u32,
    /// How many of them were lost.
    pub(crate) lost: u32,
    /// Whether one of them was changed, or one came in between.
    pub(crate) changed: bool,
}

impl Arrow {
    /// An arrow with no label.
    pub(crate) fn new(alloc: Global, kind: ArrowKind, ends: (u32, u32)) -> Arrow {
        Arrow {
            kind,
            from: ends.0,
            to: ends.1,
            label: Text::new(alloc),
            tip: Text::new(alloc),
            count: 0,
            lost: 0,
            changed: false,
        }
    }
}

/// A mark at a lifeline.
#[derive(Drop)]
pub(crate) struct Mark {
    pub(crate) at: u32,
    /// Whether its text stands at the left of the lifeline.
    pub(crate) left: bool,
    /// Whether it tells of a fault.
    pub(crate) alarm: bool,
    pub(crate) label: Text,
    pub(crate) tip: Text,
}

/// A row of the picture.
#[derive(Drop)]
pub(crate) enum PictureRow {
    /// An event of the script, and whether it edits a wire.
    Band(Text, bool),
    /// An arrow.
    Arrow(Arrow),
    /// A mark.
    Mark(Mark),
}

/// The rows and the lifelines of a picture.
#[derive(Drop)]
pub(crate) struct Picture {
    rows: Vec<PictureRow>,
    lives: Vec<(u32, Text)>,
}

impl Picture {
    /// Nothing is drawn.
    pub(crate) fn new(alloc: Global) -> Picture {
        Picture {
            rows: Vec::new(alloc),
            lives: Vec::new(alloc),
        }
    }

    /// A lifeline with a name.
    pub(crate) fn add_life(&mut self, at: u32, name: Text) -> Result<(), AllocError> {
        self.lives.push((at, name))?;
        Ok(())
    }

    /// A row below the others, and its number.
    pub(crate) fn add(&mut self, row: PictureRow) -> Result<usize, AllocError> {
        let number = self.rows.len();
        self.rows.push(row)?;
        Ok(number)
    }

    /// The arrow of this row, if it is one.
    pub(crate) fn arrow(&mut self, number: usize) -> Option<&mut Arrow> {
        match self.rows.get_mut(number) {
            Some(PictureRow::Arrow(arrow)) => Some(arrow),
            _ => None,
        }
    }

    /// A character of the arrow of a row is not the one that was sent.
    pub(crate) fn change(&mut self, row: Option<usize>) {
        if let Some(arrow) = row.and_then(|row| self.arrow(row)) {
            arrow.changed = true;
        }
    }

    /// A character of the arrow of a row is lost.
    pub(crate) fn lose(&mut self, row: Option<usize>) {
        if let Some(arrow) = row.and_then(|row| self.arrow(row)) {
            arrow.lost = arrow.lost.saturating_add(1);
        }
    }

    /// Puts words behind the event of the last row, if it is one.
    pub(crate) fn add_to_band(&mut self, words: &[u8]) {
        if let Some(PictureRow::Band(text, _)) = self.rows.last_mut() {
            text.put(words);
        }
    }

    /// How many rows there are.
    pub(crate) fn height(&self) -> usize {
        self.rows.len()
    }

    /// The whole picture.
    pub(crate) fn draw(&self, out: &mut Text) {
        let wide = self.width();
        let high = TOP + HIGH * self.rows.len().min(1_000_000_000) as u64 + HIGH;
        draw_head(out, wide, high);
        for (at, name) in &self.lives {
            draw_life(out, u64::from(*at), name, high);
        }
        for (number, row) in self.rows.iter().enumerate() {
            let at = TOP + HIGH * number.min(1_000_000_000) as u64;
            row.draw(out, wide, at);
        }
        out.put(b"</svg>\n");
    }

    /// How wide the picture is.
    fn width(&self) -> u64 {
        let mut last = MARGIN;
        for (at, _) in &self.lives {
            last = last.max(*at);
        }
        u64::from(last.saturating_add(MARGIN))
    }
}

impl PictureRow {
    /// The row, from this height on.
    fn draw(&self, out: &mut Text, wide: u64, at: u64) {
        match self {
            PictureRow::Band(text, edit) => draw_band(out, wide, at, text, *edit),
            PictureRow::Arrow(arrow) => arrow.draw(out, at.saturating_add(HIGH / 2 + 6)),
            PictureRow::Mark(mark) => mark.draw(out, at.saturating_add(HIGH / 2)),
        }
    }
}

/// The beginning of a picture.
fn draw_head(out: &mut Text, wide: u64, high: u64) {
    out.put(b"<svg xmlns=\"http://www.w3.org/2000/svg\"");
    put_attribute(out, b"width", wide);
    put_attribute(out, b"height", high);
    out.put(b" viewBox=\"0 0 ");
    out.put_number(wide);
    out.put(b" ");
    out.put_number(high);
    out.put(b"\">\n");
    out.put(STYLE);
    out.put(b"<rect width=\"100%\" height=\"100%\" fill=\"white\"/>\n");
}

/// A lifeline and its name.
fn draw_life(out: &mut Text, at: u64, name: &Text, high: u64) {
    out.put(b"<line class=\"life\"");
    put_attribute(out, b"x1", at);
    put_attribute(out, b"y1", TOP - 16);
    put_attribute(out, b"x2", at);
    put_attribute(out, b"y2", high.saturating_sub(8));
    out.put(b"/>");
    put_text(out, b"port", at, TOP - 24, name);
    out.put(b"\n");
}

/// The band of an event.
fn draw_band(out: &mut Text, wide: u64, at: u64, text: &Text, edit: bool) {
    out.put(if edit {
        b"<rect class=\"edit\""
    } else {
        b"<rect class=\"band\""
    });
    put_attribute(out, b"y", at.saturating_add(3));
    put_attribute(out, b"width", wide);
    put_attribute(out, b"height", HIGH - 6);
    out.put(b"/>");
    put_text(out, b"event", 8, at.saturating_add(16), text);
    out.put(b"\n");
}

impl Arrow {
    /// The arrow, with its label above it.
    fn draw(&self, out: &mut Text, at: u64) {
        let from = u64::from(self.from);
        let to = u64::from(self.to);
        // What is lost does not come to the other lifeline.
        let end = if self.is_lost() {
            (from + 3 * to) / 4
        } else {
            to
        };
        put_group(out, self.class(), &self.label, &self.tip);
        out.put(b"<line");
        put_attribute(out, b"x1", from);
        put_attribute(out, b"y1", at);
        put_attribute(out, b"x2", end);
        put_attribute(out, b"y2", at);
        out.put(b"/>");
        let above = at.saturating_sub(4);
        put_text(out, b"label", (from + to) / 2, above, &self.label);
        out.put(b"</g>\n");
    }

    /// A character more.
    pub(crate) fn add_char(&mut self, c: Char) {
        self.count = self.count.saturating_add(1);
        self.tip.put(b" ");
        self.tip.put(&char_text(c));
    }

    /// Whether all its characters were lost.
    fn is_lost(&self) -> bool {
        self.count > 0 && self.lost >= self.count
    }

    /// What the arrow looks like.
    fn class(&self) -> &'static [u8] {
        let is_lost = self.is_lost();
        let is_changed = self.changed || self.lost > 0;
        match self.kind {
            ArrowKind::Inside => b"inside",
            ArrowKind::Bad => b"arrow bad",
            ArrowKind::Packet if is_lost => b"arrow packet lost",
            ArrowKind::Packet if is_changed => b"arrow packet changed",
            ArrowKind::Packet => b"arrow packet",
            ArrowKind::Symbol if is_lost => b"arrow symbol lost",
            ArrowKind::Symbol if is_changed => b"arrow symbol changed",
            ArrowKind::Symbol => b"arrow symbol",
        }
    }
}

impl Mark {
    /// The mark, with its label beside it.
    fn draw(&self, out: &mut Text, at: u64) {
        let class: &[u8] = if self.alarm { b"mark alarm" } else { b"mark" };
        put_group(out, class, &self.label, &self.tip);
        out.put(b"<circle r=\"3\"");
        put_attribute(out, b"cx", u64::from(self.at));
        put_attribute(out, b"cy", at);
        out.put(b"/>");
        // A long label stands between the two lifelines of the link.
        let is_within = self.label.len() > MOST_BESIDE;
        let below = at.saturating_add(4);
        if self.left != is_within {
            let x = u64::from(self.at).saturating_sub(8);
            put_text(out, b"left", x, below, &self.label);
        } else {
            let x = u64::from(self.at) + 8;
            put_text(out, b"right", x, below, &self.label);
        }
        out.put(b"</g>\n");
    }
}

/// The beginning of a group with a tooltip.
fn put_group(out: &mut Text, class: &[u8], label: &Text, tip: &Text) {
    out.put(b"<g class=\"");
    out.put(class);
    out.put(b"\"><title>");
    put_escaped(out, label.as_slice());
    out.lack(label);
    if tip.len() > 0 {
        out.put(b":");
        put_escaped(out, tip.as_slice());
    }
    out.lack(tip);
    out.put(b"</title>");
}

/// An attribute that is a number.
pub(crate) fn put_attribute(out: &mut Text, name: &[u8], number: u64) {
    out.put(b" ");
    out.put(name);
    out.put(b"=\"");
    out.put_number(number);
    out.put(b"\"");
}

/// A text at a place, cut if it is long.
fn put_text(out: &mut Text, class: &[u8], x: u64, y: u64, words: &Text) {
    let text = words.as_slice();
    out.lack(words);
    out.put(b"<text class=\"");
    out.put(class);
    out.put(b"\"");
    put_attribute(out, b"x", x);
    put_attribute(out, b"y", y);
    out.put(b">");
    if text.len() > MOST_LABEL {
        put_escaped(out, text.get(..MOST_LABEL).unwrap_or(text));
        out.put(b"..");
    } else {
        put_escaped(out, text);
    }
    out.put(b"</text>");
}

/// Text, with what XML takes for its own spelled otherwise.
fn put_escaped(out: &mut Text, text: &[u8]) {
    for byte in text {
        match *byte {
            b'<' => out.put(b"&lt;"),
            b'>' => out.put(b"&gt;"),
            b'&' => out.put(b"&amp;"),
            byte => out.put(&[byte]),
        }
    }
}
