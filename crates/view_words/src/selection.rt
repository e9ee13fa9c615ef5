//! Which part of a trace is shown.

use crate::fabric::{links_of, peer_of, port_of};
use crate::reading::ViewEnd;
use fabric_script::{Line, PortRef, SetUp};
use std::alloc::Global;
use trace_lines::{NetworkStep, TraceLine};

/// Lines by their numbers in the input, the first and the last.
#[derive(Clone, Copy)]
pub struct LineRange {
    pub first: u32,
    pub last: u32,
}

impl LineRange {
    /// All lines.
    pub const ALL: LineRange = LineRange {
        first: 0,
        last: u32::MAX,
    };

    /// Whether the line of this number is one of them.
    pub fn has(self, number: u32) -> bool {
        self.first <= number && number <= self.last
    }
}

/// Of which ports a view shows the lines, by the words that name them.
#[derive(Clone, Copy)]
pub enum ChosenPorts<'a> {
    /// Of all.
    All,
    /// Of both ports of the link of this one.
    Link(&'a [u8]),
    /// Of this one.
    Port(&'a [u8]),
}

/// Which part of a trace the words ask for.
#[derive(Clone, Copy)]
pub struct Part<'a> {
    pub lines: LineRange,
    pub ports: ChosenPorts<'a>,
}

impl<'a> Part<'a> {
    /// All of it.
    pub fn whole() -> Part<'a> {
        Part {
            lines: LineRange::ALL,
            ports: ChosenPorts::All,
        }
    }
}

/// Which part of a trace is shown, with the ports of a fabric.
#[derive(Clone, Copy)]
pub struct Selection {
    lines: LineRange,
    /// One or two ports, if not all are shown.
    ports: Option<(PortRef, PortRef)>,
}

impl Selection {
    /// What the words ask for, behind these set-up lines. `NoPort` comes if a word names no port
    /// that has a link.
    pub fn of(alloc: Global, set_up: &SetUp, part: Part<'_>) -> Result<Selection, ViewEnd> {
        let ports = match part.ports {
            ChosenPorts::All => None,
            ChosenPorts::Port(word) => {
                let port = linked_port(set_up, word)?;
                Some((port, port))
            }
            ChosenPorts::Link(word) => {
                let port = linked_port(set_up, word)?;
                let links = links_of(alloc, set_up)?;
                let peer = peer_of(links.as_slice(), port);
                Some((port, peer.unwrap_or(port)))
            }
        };
        Ok(Selection {
            lines: part.lines,
            ports,
        })
    }

    /// The lines that are shown.
    pub fn lines(&self) -> LineRange {
        self.lines
    }

    /// Whether all ports are shown.
    pub fn is_of_all(&self) -> bool {
        self.ports.is_none()
    }

    /// Whether a port is shown.
    pub fn has_port(&self, port: PortRef) -> bool {
        match self.ports {
            Some((one, other)) => one == port || other == port,
            None => true,
        }
    }

    /// Whether a link is shown, by its two ports.
    pub fn has_link(&self, a: PortRef, b: PortRef) -> bool {
        self.has_port(a) || self.has_port(b)
    }

    /// Whether a line is shown. The last line belongs to all ports.
    pub fn has_line(&self, number: u32, line: &TraceLine) -> bool {
        self.lines.has(number) && (self.is_of_all() || self.names(line))
    }

    /// Whether a line names a port that is shown.
    fn names(&self, line: &TraceLine) -> bool {
        match line {
            TraceLine::Begun(line) => port_of_event(line).is_some_and(|port| self.has_port(port)),
            TraceLine::Stepped(step) => self.has_step(step.get()),
            TraceLine::Sent(port, _)
            | TraceLine::Got(port, _)
            | TraceLine::Fired(port)
            | TraceLine::Undetected(_, port, _) => self.has_port(*port),
            TraceLine::Lacked(_) => false,
            TraceLine::Ended => true,
        }
    }

    /// Whether a step names a port that is shown.
    fn has_step(&self, step: &NetworkStep) -> bool {
        match step {
            NetworkStep::Take(node, _) | NetworkStep::Leave(node, _) => {
                self.has_port(port_of(*node))
            }
            NetworkStep::Hold(port, _)
            | NetworkStep::Free(port, _)
            | NetworkStep::Drop(port, _)
            | NetworkStep::Answer(port, _, _) => self.has_port(*port),
            NetworkStep::Move(from, to, _) => self.has_port(*from) || self.has_port(*to),
        }
    }
}

/// The port that a word names, if it has a link.
fn linked_port(set_up: &SetUp, word: &[u8]) -> Result<PortRef, ViewEnd> {
    match set_up.read_port(word) {
        Some(port) if set_up.is_linked(port) => Ok(port),
        _ => Err(ViewEnd::NoPort),
    }
}

/// The port that an event names, or that of its endpoint.
fn port_of_event(line: &Line) -> Option<PortRef> {
    match line {
        Line::Pump { port, .. }
        | Line::Deliver { port, .. }
        | Line::Alter { port, .. }
        | Line::Insert { port, .. }
        | Line::Erase { port, .. }
        | Line::Timeout { port }
        | Line::Settle { port } => Some(*port),
        Line::Send { node, .. }
        | Line::Read { node, .. }
        | Line::Write { node, .. }
        | Line::Send16 { node, .. }
        | Line::Read16 { node, .. }
        | Line::Write16 { node, .. }
        | Line::Collect { node } => Some(port_of(*node)),
        _ => None,
    }
}
