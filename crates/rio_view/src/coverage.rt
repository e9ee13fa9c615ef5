//! Which entries of the step tables the ports of a trace met.
ghost use Rattle.std.specs.Prelude.{◌≤◌};

use crate::shadow::{Came, EntriesMet, Kept, Shadow};
use fabric_script::{Line, PortRef};
use link_entries::{ENTRIES, entry_words};
use link_port::Port;
use rio_chars::NoMemory;
use std::alloc::{AllocError, Global};
use trace_lines::{NetworkStep, TraceLine};
use view_words::{Ports, Seen, Selection, Setting, Text, View, ViewEnd, ViewStatus, port_of};

/// The receive buffers of a port of which no line says another number.
const BUFFERS: u8 = 8;

/// How wide the number of times is.
const WIDE: usize = 8;

/// Which entries were met.
#[derive(Drop)]
pub(crate) struct Coverage {
    shadows: Ports<Option<Shadow>>,
    buffers: Ports<Option<u8>>,
    tells: Ports<bool>,
    /// The port that takes turns in the event that began last.
    pumped: Option<PortRef>,
    kept: Kept,
    met: EntriesMet,
    alloc: Global,
}

impl Coverage {
    /// None was met.
    pub(crate) fn new(alloc: Global) -> Coverage {
        Coverage {
            shadows: Ports::new(alloc),
            buffers: Ports::new(alloc),
            tells: Ports::new(alloc),
            pumped: None,
            kept: Kept::new(),
            met: EntriesMet {
                counts: [0; ENTRIES],
            },
            alloc,
        }
    }
}

impl View for Coverage {
    fn begin(&mut self, setting: Setting<'_>, _: &mut Text) -> Result<(), ViewEnd> {
        let set_up = setting.set_up;
        self.fill(set_up.names().len())?;
        for line in set_up.lines() {
            self.set_up(&line.line);
        }
        for line in set_up.lines() {
            self.add_ports(setting.selection, &line.line)?;
        }
        Ok(())
    }

    fn take(&mut self, seen: &Seen<'_>, _: &mut Text) -> Result<(), ViewEnd> {
        match seen.line {
            TraceLine::Sent(port, chars) => self.follow(*port, &Came::Sent(chars.as_slice()))?,
            TraceLine::Got(port, chars) => self.follow(*port, &Came::Got(chars.as_slice()))?,
            TraceLine::Fired(port) => self.follow(*port, &Came::Fired)?,
            TraceLine::Stepped(step) => self.step(step.get())?,
            TraceLine::Begun(event) => self.begin_event(event)?,
            TraceLine::Ended | TraceLine::Undetected(..) => self.end_event()?,
            TraceLine::Lacked(_) => {}
        }
        Ok(())
    }

    fn end(&mut self, _: Setting<'_>, out: &mut Text) -> Result<(), ViewEnd> {
        for (count, entry) in self.met.counts.iter().zip(entry_words().iter()) {
            put_entry(out, *count, entry);
        }
        out.put_number(self.met.entries());
        out.put(b" of ");
        out.put_number(ENTRIES as u64);
        out.put(b" entries were met\n");
        Ok(())
    }
}

/// How often an entry was met, and its words.
fn put_entry(out: &mut Text, count: u64, entry: &[u8]) {
    out.put_number_right(WIDE, count);
    out.put(b"  ");
    out.put(entry);
    out.put(b"\n");
}

impl Coverage {
    /// Keeps something for each port of so many nodes.
    fn fill(&mut self, nodes: usize) -> Result<(), AllocError> {
        self.shadows.fill(nodes)?;
        self.buffers.fill(nodes)?;
        self.tells.fill(nodes)
    }

    /// Keeps what a line says of a port.
    fn set_up(&mut self, line: &Line) {
        match line {
            Line::Buffers { port, n } => {
                if let Some(buffers) = self.buffers.get_mut(*port) {
                    *buffers = Some(*n);
                }
            }
            Line::Credits { port } => {
                if let Some(tells) = self.tells.get_mut(*port) {
                    *tells = true;
                }
            }
            _ => {}
        }
    }

    /// Ports that follow the trace, if the line has a link, and they are chosen.
    fn add_ports(&mut self, selection: &Selection, line: &Line) -> Result<(), ViewEnd> {
        if let Line::Link { a, b } = line {
            if selection.has_port(*a) {
                self.add_port(*a)?;
            }
            if selection.has_port(*b) {
                self.add_port(*b)?;
            }
        }
        Ok(())
    }

    /// A port that follows the trace.
    fn add_port(&mut self, port: PortRef) -> Result<(), ViewEnd> {
        let Ok(made) = self.make_port(port) else {
            return Err(ViewEnd::Ended(ViewStatus::NoMemory));
        };
        if let Some(shadow) = self.shadows.get_mut(port) {
            *shadow = Some(Shadow::new(made));
        }
        Ok(())
    }

    /// A port at rest, as the set-up lines have it.
    fn make_port(&self, port: PortRef) -> Result<Port, NoMemory> {
        let buffers = self.buffers_of(port);
        match self.tells.get(port) {
            Some(true) => Port::telling(self.alloc, buffers),
            _ => Port::new(self.alloc, buffers),
        }
    }

    /// The receive buffers of a port.
    fn buffers_of(&self, port: PortRef) -> u8
        ensures least { 4 ≤ result }
        ensures most { result ≤ 30 }
    {
        match self.buffers.get(port) {
            Some(Some(buffers)) if 4 <= *buffers && *buffers <= 30 => *buffers,
            _ => BUFFERS,
        }
    }

    /// An event of the script begins, and the one before it has ended.
    fn begin_event(&mut self, event: &Line) -> Result<(), AllocError> {
        self.end_event()?;
        if let Line::Pump { port, n } = event {
            self.pumped = Some(*port);
            self.follow(*port, &Came::Pumped(*n))?;
        }
        Ok(())
    }

    /// The event that began last has ended.
    fn end_event(&mut self) -> Result<(), AllocError> {
        match self.pumped.take() {
            Some(port) => self.follow(port, &Came::Rested),
            None => Ok(()),
        }
    }

    /// A port does what a line says, if it follows the trace.
    fn follow(&mut self, port: PortRef, came: &Came<'_>) -> Result<(), AllocError> {
        match self.shadows.get_mut(port) {
            Some(Some(shadow)) => shadow.follow(came, &mut self.kept, &mut self.met),
            _ => Ok(()),
        }
    }

    /// Ports give and take the packets of a step.
    fn step(&mut self, step: &NetworkStep) -> Result<(), AllocError> {
        match step {
            NetworkStep::Take(node, packet) => self.follow(port_of(*node), &Came::Put(packet)),
            NetworkStep::Leave(node, packet) => self.follow(port_of(*node), &Came::Given(packet)),
            NetworkStep::Drop(port, packet) => self.follow(*port, &Came::Given(packet)),
            NetworkStep::Move(from, to, packet) => {
                self.follow(*from, &Came::Given(packet))?;
                self.follow(*to, &Came::Put(packet))
            }
            NetworkStep::Answer(port, request, response) => {
                self.follow(*port, &Came::Given(request))?;
                self.follow(*port, &Came::Put(response))
            }
            NetworkStep::Hold(..) | NetworkStep::Free(..) => Ok(()),
        }
    }
}
