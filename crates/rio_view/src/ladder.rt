//! A trace as a ladder: a lifeline for each port of a link, and an arrow for each packet and
//! symbol.

use crate::command::Range;
use crate::drawing::{Draws, Takes};
use crate::lanes::Lane;
use crate::picture::{Arrow, ArrowKind, GAP, MARGIN, MOST_ROWS, Mark, Picture, PictureRow, WIDE};
use fabric_script::{Line, PortRef};
use link_model::Event;
use rio_chars::{Char, Edit};
use rio_packets::Packet;
use std::alloc::{AllocError, Global};
use trace_lines::{Lack, NetworkStep, TraceLine};
use view_words::{
    AskedRegisters, Ear, LineRange, Ports, Seen, Setting, Text, View, ViewEnd, links_of, listen,
    peer_of, port_of, put_event, put_packet, put_port,
};

/// A ladder in the making.
#[derive(Drop)]
pub(crate) struct Ladder {
    range: Range,
    event: u32,
    /// Whether the line is one of those that are shown.
    has_line: bool,
    /// The first and the last line with a row.
    drawn: LineRange,
    links: Vec<(PortRef, PortRef)>,
    sending: Ports<Ear>,
    taking: Ports<Ear>,
    lanes: Ports<Lane>,
    /// An edit that is made unless the next line says that the wire is too short.
    pending: Option<(PortRef, Edit)>,
    picture: Picture,
    asked: AskedRegisters,
    alloc: Global,
}

impl Ladder {
    /// Nothing is drawn. Only these events will be.
    pub(crate) fn new(alloc: Global, range: Range) -> Result<Ladder, AllocError> {
        Ok(Ladder {
            range,
            event: 0,
            has_line: false,
            drawn: LineRange { first: 0, last: 0 },
            links: Vec::new(alloc),
            sending: Ports::new(alloc),
            taking: Ports::new(alloc),
            lanes: Ports::new(alloc),
            pending: None,
            picture: Picture::new(alloc),
            asked: AskedRegisters::new(alloc)?,
            alloc,
        })
    }
}

impl View for Ladder {
    fn begin(&mut self, setting: Setting<'_>, _: &mut Text) -> Result<(), ViewEnd> {
        let nodes = setting.set_up.names().len();
        self.sending.fill(nodes)?;
        self.taking.fill(nodes)?;
        for _ in 0..nodes.saturating_mul(16) {
            self.lanes.push(Lane::new(self.alloc))?;
        }
        self.links = links_of(self.alloc, setting.set_up)?;
        self.place_lives(setting)?;
        Ok(())
    }

    fn take(&mut self, seen: &Seen<'_>, _: &mut Text) -> Result<(), ViewEnd> {
        self.has_line = seen.is_shown;
        self.make_edit(seen.line)?;
        self.draw_line(seen)?;
        self.note_height(seen.number)
    }

    fn end(&mut self, _: Setting<'_>, out: &mut Text) -> Result<(), ViewEnd> {
        self.picture.draw(out);
        Ok(())
    }
}

impl Ladder {
    /// Whether what comes is drawn.
    fn is_shown(&self) -> bool {
        self.has_line && self.range.from <= self.event && self.event <= self.range.to
    }

    /// Notes that the line of this number is drawn, unless the picture is too high with it.
    fn note_height(&mut self, number: u32) -> Result<(), ViewEnd> {
        let rows = self.picture.height();
        if rows > MOST_ROWS {
            return Err(ViewEnd::TooHigh(LineRange {
                first: self.drawn.first,
                last: self.drawn.last.max(self.drawn.first),
            }));
        }
        if rows > 0 && self.drawn.first == 0 {
            self.drawn.first = number;
        }
        self.drawn.last = number;
        Ok(())
    }

    /// Draws what a line says.
    fn draw_line(&mut self, seen: &Seen<'_>) -> Result<(), AllocError> {
        match seen.line {
            TraceLine::Begun(line) => self.begin_event(seen, line),
            TraceLine::Sent(port, chars) => self.draw_sent(*port, chars.as_slice()),
            TraceLine::Got(port, chars) => self.draw_got(*port, chars.as_slice()),
            TraceLine::Stepped(step) => self.draw_step(step.get()),
            TraceLine::Fired(port) => self.mark(*port, b"time-out", true, None),
            TraceLine::Undetected(_, port, event) => self.mark_undetected(*port, event.get()),
            TraceLine::Lacked(lack) => {
                self.draw_lack(*lack);
                Ok(())
            }
            TraceLine::Ended => Ok(()),
        }
    }

    /// A lifeline for each port of each link that is shown.
    fn place_lives(&mut self, setting: Setting<'_>) -> Result<(), AllocError> {
        let mut at = MARGIN;
        for (a, b) in &self.links {
            if !setting.selection.has_link(*a, *b) {
                continue;
            }
            for (port, x, left) in [(*a, at, true), (*b, at.saturating_add(WIDE), false)] {
                if let Some(lane) = self.lanes.get_mut(port) {
                    lane.life = Some((x, left));
                }
                let mut name = Text::new(self.alloc);
                put_port(&mut name, setting.set_up, port);
                self.picture.add_life(x, name)?;
            }
            at = at.saturating_add(WIDE + GAP);
        }
        Ok(())
    }

    /// An event begins: its band, and the edit that it makes.
    fn begin_event(&mut self, seen: &Seen<'_>, line: &Line) -> Result<(), AllocError> {
        self.event = self.event.saturating_add(1);
        self.pending = line.wire_edit();
        if self.is_shown() {
            let mut text = Text::new(self.alloc);
            text.put_number(u64::from(self.event));
            text.put(b"  ");
            text.put(seen.text.get(2..).unwrap_or(seen.text));
            self.picture
                .add(PictureRow::Band(text, self.pending.is_some()))?;
        }
        Ok(())
    }

    /// Makes the edit of the line before, unless this line says that the wire is too short.
    fn make_edit(&mut self, line: &TraceLine) -> Result<(), AllocError> {
        let Some((port, edit)) = self.pending.take() else {
            return Ok(());
        };
        if let TraceLine::Lacked(Lack::Short) = line {
            return Ok(());
        }
        self.edit(port, edit)
    }

    /// Makes an edit.
    fn edit(&mut self, port: PortRef, edit: Edit) -> Result<(), AllocError> {
        match self.lanes.get_mut(port) {
            Some(lane) => lane.edit(edit, &mut self.picture),
            None => Ok(()),
        }
    }

    /// A port sends characters: an arrow for each packet and symbol.
    fn draw_sent(&mut self, port: PortRef, chars: &[Char]) -> Result<(), AllocError> {
        let shown = self.is_shown();
        let to = self.life_of(peer_of(self.links.as_slice(), port));
        let from = self.life_of(Some(port));
        let (Some(ear), Some(lane)) = (self.sending.get_mut(port), self.lanes.get_mut(port)) else {
            return Ok(());
        };
        let mut draws = Draws {
            picture: &mut self.picture,
            lane,
            asked: &mut self.asked,
            ends: (from, to),
            shown,
            alloc: self.alloc,
        };
        listen(ear, chars, &mut draws)
    }

    /// A port takes characters of its peer's wire: a mark for each fault and each recovery.
    fn draw_got(&mut self, port: PortRef, chars: &[Char]) -> Result<(), AllocError> {
        let mut notes = Vec::new(self.alloc);
        self.take_chars(port, chars, &mut notes)?;
        for (label, alarm) in &notes {
            self.mark_text(port, label, *alarm)?;
        }
        Ok(())
    }

    /// Takes characters of a wire, and notes what is to be marked.
    fn take_chars(
        &mut self,
        port: PortRef,
        chars: &[Char],
        notes: &mut Vec<(Text, bool)>,
    ) -> Result<(), AllocError> {
        let Some(peer) = peer_of(self.links.as_slice(), port) else {
            return Ok(());
        };
        let mut asks = self.lanes.get(port).is_some_and(|lane| lane.asks);
        self.take_from(port, peer, chars, &mut asks, notes)?;
        if let Some(lane) = self.lanes.get_mut(port) {
            lane.asks = asks;
        }
        Ok(())
    }

    /// The same, from the wire of this peer. It is told whether the port asks and has no answer.
    fn take_from(
        &mut self,
        port: PortRef,
        peer: PortRef,
        chars: &[Char],
        asks: &mut bool,
        notes: &mut Vec<(Text, bool)>,
    ) -> Result<(), AllocError> {
        let (Some(ear), Some(lane)) = (self.taking.get_mut(port), self.lanes.get_mut(peer)) else {
            return Ok(());
        };
        let mut takes = Takes {
            wire: &mut lane.wire,
            asks,
            asked: &mut self.asked,
            notes,
            alloc: self.alloc,
        };
        listen(ear, chars, &mut takes)
    }

    /// Where the lifeline of a port is, or 0 if it has none.
    fn life_of(&self, port: Option<PortRef>) -> u32 {
        match port {
            Some(port) => match self.lanes.get(port) {
                Some(lane) => lane.life.map_or(0, |life| life.0),
                None => 0,
            },
            None => 0,
        }
    }

    /// A mark for what a port did not detect.
    fn mark_undetected(&mut self, port: PortRef, event: &Event) -> Result<(), AllocError> {
        let mut label = Text::new(self.alloc);
        label.put(b"undetected: ");
        put_event(&mut label, &mut self.asked, event);
        self.mark_text(port, &label, true)
    }

    /// A step of a packet.
    fn draw_step(&mut self, step: &NetworkStep) -> Result<(), AllocError> {
        match step {
            NetworkStep::Hold(port, packet) => self.mark(*port, b"hold", false, Some(packet)),
            NetworkStep::Free(port, packet) => self.mark(*port, b"free", false, Some(packet)),
            NetworkStep::Take(node, packet) => self.mark(
                port_of(*node),
                b"take",
                false,
                Some(packet),
            ),
            NetworkStep::Leave(node, packet) => self.mark(
                port_of(*node),
                b"leave",
                false,
                Some(packet),
            ),
            NetworkStep::Drop(port, packet) => self.mark(*port, b"drop", true, Some(packet)),
            NetworkStep::Answer(port, request, response) => {
                self.asked.note(request);
                self.mark(*port, b"answer", false, Some(response))
            }
            NetworkStep::Move(from, to, packet) => self.draw_move(*from, *to, packet),
        }
    }

    /// A packet moves inside a switch.
    fn draw_move(&mut self, from: PortRef, to: PortRef, packet: &Packet) -> Result<(), AllocError> {
        let ends = (self.life_of(Some(from)), self.life_of(Some(to)));
        if !self.is_shown() {
            return Ok(());
        }
        if ends.0 == 0 {
            return self.mark(to, b"move", false, Some(packet));
        }
        if ends.1 == 0 || ends.0 == ends.1 {
            return self.mark(from, b"move", false, Some(packet));
        }
        let mut arrow = Arrow::new(self.alloc, ArrowKind::Inside, ends);
        arrow.label.put(b"move");
        self.put_tip(&mut arrow.tip, packet);
        self.picture.add(PictureRow::Arrow(arrow))?;
        Ok(())
    }

    /// Nothing could be done.
    fn draw_lack(&mut self, lack: Lack) {
        if self.is_shown() {
            self.picture.add_to_band(match lack {
                Lack::Full => b": full",
                Lack::Empty => b": empty",
                Lack::Short => b": too short",
                Lack::Early => b": too early",
                Lack::NoStep => b": nothing to do",
            });
        }
    }

    /// A mark of a port with a label in words, if it has a lifeline.
    fn mark(
        &mut self,
        port: PortRef,
        label: &[u8],
        alarm: bool,
        packet: Option<&Packet>,
    ) -> Result<(), AllocError> {
        let Some(mut mark) = self.new_mark(port, alarm) else {
            return Ok(());
        };
        mark.label.put(label);
        if let Some(packet) = packet {
            self.put_tip(&mut mark.tip, packet);
        }
        self.picture.add(PictureRow::Mark(mark))?;
        Ok(())
    }

    /// The same, with a label that was made.
    fn mark_text(&mut self, port: PortRef, label: &Text, alarm: bool) -> Result<(), AllocError> {
        if let Some(mut mark) = self.new_mark(port, alarm) {
            mark.label.put_text(label);
            self.picture.add(PictureRow::Mark(mark))?;
        }
        Ok(())
    }

    /// A mark at the lifeline of a port, if it has one and marks are drawn now.
    fn new_mark(&self, port: PortRef, alarm: bool) -> Option<Mark> {
        let (at, left) = self.lanes.get(port)?.life?;
        self.is_shown().then_some(Mark {
            at,
            left,
            alarm,
            label: Text::new(self.alloc),
            tip: Text::new(self.alloc),
        })
    }

    /// The words and the bytes of a packet.
    fn put_tip(&mut self, tip: &mut Text, packet: &Packet) {
        tip.put(b" ");
        put_packet(tip, &mut self.asked, packet);
        tip.put(b" ");
        tip.put_hex(packet.bytes());
    }
}
