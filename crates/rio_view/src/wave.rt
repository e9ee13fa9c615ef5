//! A trace as a wave, in the form of a value change dump (VCD): what is on each wire, a character a
//! unit of time.

use crate::pen::{Pen, declare};
use crate::probes::{Change, PortSignals};
use crate::save::put_scope_name;
use fabric_script::{PortRef, SetUp};
use rio_chars::Char;
use std::alloc::Global;
use trace_lines::{NetworkStep, TraceLine};
use view_words::{Ports, Seen, Setting, Text, View, ViewEnd, links_of, port_of};

/// What stands before the signals.
const HEAD: &[u8] = b"$comment a unit of time is a character $end\n$timescale 1 ns $end\n\
$scope module links $end\n";

/// The number of the signal that has the number of the line.
const LINE: u32 = 0;

/// A wave in the making.
#[derive(Drop)]
pub(crate) struct Wave {
    stations: Ports<PortSignals>,
    links: Vec<(PortRef, PortRef)>,
    time: u64,
    /// The moment of the last change.
    written: Option<u64>,
    /// Whether a line that is shown has come.
    is_begun: bool,
    /// What changes before the first line that is shown, which is not written.
    unseen: Text,
    alloc: Global,
}

impl Wave {
    /// Nothing was sent.
    pub(crate) fn new(alloc: Global) -> Wave {
        Wave {
            stations: Ports::new(alloc),
            links: Vec::new(alloc),
            time: 0,
            written: None,
            is_begun: false,
            unseen: Text::new(alloc),
            alloc,
        }
    }
}

impl View for Wave {
    fn begin(&mut self, setting: Setting<'_>, out: &mut Text) -> Result<(), ViewEnd> {
        self.stations.fill(setting.set_up.names().len())?;
        self.links = links_of(self.alloc, setting.set_up)?;
        out.put(HEAD);
        declare(out, b"wire 32", LINE, b"line [31:0]");
        self.declare(setting, out);
        out.put(b"$upscope $end\n$enddefinitions $end\n");
        Ok(())
    }

    fn take(&mut self, seen: &Seen<'_>, out: &mut Text) -> Result<(), ViewEnd> {
        let lines = seen.selection.lines();
        if seen.number > lines.last {
            return Ok(());
        }
        if seen.number < lines.first {
            return self.take_unseen(seen.line);
        }
        if !self.is_begun {
            self.is_begun = true;
            self.written = None;
            self.put_all(out);
        }
        Pen::new(out, self.time, &mut self.written).put_number(LINE, seen.number);
        self.follow(seen.line, out)
    }

    fn end(&mut self, _: Setting<'_>, out: &mut Text) -> Result<(), ViewEnd> {
        out.lack(&self.unseen);
        out.put(b"#");
        out.put_number(self.time);
        out.put(b"\n");
        Ok(())
    }
}

/// The scope of a port.
fn put_scope(out: &mut Text, set_up: &SetUp, port: PortRef) {
    out.put(b"$scope module ");
    put_scope_name(out, set_up, port);
    out.put(b" $end\n");
}

impl Wave {
    /// Declares the signals of each port of a link that is shown.
    fn declare(&mut self, setting: Setting<'_>, out: &mut Text) {
        let mut first = LINE + 1;
        for (a, b) in &self.links {
            for port in [*a, *b] {
                if let (true, Some(station)) = (
                    setting.selection.has_port(port),
                    self.stations.get_mut(port),
                ) {
                    put_scope(out, setting.set_up, port);
                    first = station.declare(first, out);
                    out.put(b"$upscope $end\n");
                }
            }
        }
    }

    /// A line before those that are shown.
    fn take_unseen(&mut self, line: &TraceLine) -> Result<(), ViewEnd> {
        let mut unseen = Text::new(self.alloc);
        std::mem::swap(&mut unseen, &mut self.unseen);
        let end = self.follow(line, &mut unseen);
        unseen.clear();
        std::mem::swap(&mut unseen, &mut self.unseen);
        end
    }

    /// What a line says is done.
    fn follow(&mut self, line: &TraceLine, out: &mut Text) -> Result<(), ViewEnd> {
        match line {
            TraceLine::Sent(port, chars) => self.send(*port, chars.as_slice(), out)?,
            TraceLine::Got(port, chars) => self.get(*port, chars.as_slice(), out)?,
            TraceLine::Stepped(step) => self.step(step.get(), out),
            TraceLine::Fired(port) => self.fire(*port, out),
            TraceLine::Begun(_)
            | TraceLine::Lacked(_)
            | TraceLine::Ended
            | TraceLine::Undetected(..) => {}
        }
        Ok(())
    }

    /// Puts the value of each signal.
    fn put_all(&mut self, out: &mut Text) {
        let mut pen = Pen::new(out, self.time, &mut self.written);
        for (a, b) in &self.links {
            for port in [*a, *b] {
                if let Some(station) = self.stations.get(port).filter(|it| it.is_shown()) {
                    station.put_all(&mut pen);
                }
            }
        }
    }

    /// A port sends characters.
    fn send(&mut self, port: PortRef, chars: &[Char], out: &mut Text) -> Result<(), ViewEnd> {
        let Some(station) = shown(&mut self.stations, port) else {
            self.time = self.time.saturating_add(chars.len() as u64);
            return Ok(());
        };
        for c in chars {
            station.send(*c, &mut Pen::new(out, self.time, &mut self.written))?;
            self.time = self.time.saturating_add(1);
        }
        station.rest_sending(&mut Pen::new(out, self.time, &mut self.written));
        Ok(())
    }

    /// A port takes characters.
    fn get(&mut self, port: PortRef, chars: &[Char], out: &mut Text) -> Result<(), ViewEnd> {
        let Some(station) = shown(&mut self.stations, port) else {
            self.time = self.time.saturating_add(chars.len() as u64);
            return Ok(());
        };
        for c in chars {
            station.get(*c, &mut Pen::new(out, self.time, &mut self.written))?;
            self.time = self.time.saturating_add(1);
        }
        station.rest_taking(&mut Pen::new(out, self.time, &mut self.written));
        Ok(())
    }

    /// A step of a packet.
    fn step(&mut self, step: &NetworkStep, out: &mut Text) {
        let Some((port, change)) = change_of(step) else {
            return;
        };
        if let Some(station) = shown(&mut self.stations, port) {
            station.change(change, &mut Pen::new(out, self.time, &mut self.written));
        }
    }

    /// A time-out fires.
    fn fire(&mut self, port: PortRef, out: &mut Text) {
        if let Some(station) = shown(&mut self.stations, port) {
            station.fire(&mut Pen::new(out, self.time, &mut self.written));
        }
    }
}

/// The signals of a port, if they are shown.
fn shown(stations: &mut Ports<PortSignals>, port: PortRef) -> Option<&mut PortSignals> {
    let station = stations.get_mut(port)?;
    if station.is_shown() {
        Some(station)
    } else {
        None
    }
}

/// What a step changes, and at which port.
fn change_of(step: &NetworkStep) -> Option<(PortRef, Change)> {
    match step {
        NetworkStep::Hold(port, _) => Some((*port, Change::Hold)),
        NetworkStep::Leave(node, _) => Some((port_of(*node), Change::Give)),
        NetworkStep::Move(port, _, _)
        | NetworkStep::Drop(port, _)
        | NetworkStep::Answer(port, _, _) => { Some((*port, Change::Give)) }
        NetworkStep::Free(..) | NetworkStep::Take(..) => None,
    }
}
