//! What the words after the program's name ask for.

use fabric_script::read_number;
use view_words::{ChosenPorts, LineRange, Part};

/// Which events of a trace a ladder shows, by their numbers, of which the first event has 1. What
/// comes before the first event has 0.
#[derive(Clone, Copy)]
pub struct Range {
    pub from: u32,
    pub to: u32,
}

/// A view that the program is asked for.
#[derive(Clone, Copy, PartialEq)]
pub enum ViewName {
    /// The trace with words behind each line.
    Words,
    /// One line for each transfer.
    Flow,
    /// A table of what each port did.
    Counts,
    /// A picture of the links.
    Ladder,
    /// The characters of each wire, one a unit of time.
    Wave,
    /// What GTKWave is to show of a wave.
    Save,
    /// The packets.
    Packets,
    /// Which entries of the step tables the ports met.
    Coverage,
    /// All of a trace in one page for a browser.
    Page,
    /// The fabric as a picture.
    Map,
}

/// What the program is asked for: a view, and which part of the trace it shows.
#[derive(Clone, Copy)]
pub struct ViewCommand<'a> {
    pub view: ViewName,
    pub part: Part<'a>,
    /// The events that a ladder shows.
    pub events: Range,
    /// Whether a map is written in the language of Graphviz.
    pub is_dot: bool,
    /// Whether a map has the tables of its switches.
    pub has_tables: bool,
}

/// The views by their words.
const VIEWS: [(&[u8], ViewName); 9] = [
    (b"words", ViewName::Words),
    (b"counts", ViewName::Counts),
    (b"ladder", ViewName::Ladder),
    (b"wave", ViewName::Wave),
    (b"save", ViewName::Save),
    (b"packets", ViewName::Packets),
    (b"coverage", ViewName::Coverage),
    (b"page", ViewName::Page),
    (b"map", ViewName::Map),
];

impl ViewName {
    /// Whether some lines of a trace can be shown so.
    fn has_lines(self) -> bool {
        !matches!(self, ViewName::Coverage | ViewName::Map)
    }

    /// Whether some ports of a trace can be shown so.
    fn has_ports(self) -> bool {
        self != ViewName::Map
    }
}

/// What the words ask for, if the program knows them.
pub(crate) fn command_of(words: &[String]) -> Option<ViewCommand<'_>> {
    let [word, options @ ..] = words else {
        return None;
    };
    let mut asked = Asked::new(view_of(word.as_str().as_bytes())?);
    let mut left = options;
    for _ in 0..options.len() {
        if left.is_empty() {
            break;
        }
        left = asked.take(left)?;
    }
    Some(asked.command)
}

/// The view that a word names.
pub(crate) fn view_of(word: &[u8]) -> Option<ViewName> {
    for (name, view) in &VIEWS {
        if word == *name {
            return Some(*view);
        }
    }
    None
}

/// The kinds of options, each of which may come once.
#[derive(Clone, Copy)]
enum OptionKind {
    Flow,
    Lines,
    Ports,
    From,
    To,
    Dot,
    Tables,
}

/// What the words so far ask for.
#[derive(Drop)]
struct Asked<'a> {
    command: ViewCommand<'a>,
    seen: [bool; 7],
}

impl<'a> Asked<'a> {
    /// A view of all.
    fn new(view: ViewName) -> Asked<'a> {
        Asked {
            command: ViewCommand {
                view,
                part: Part::whole(),
                events: Range {
                    from: 0,
                    to: u32::MAX,
                },
                is_dot: false,
                has_tables: false,
            },
            seen: [false; 7],
        }
    }

    /// Takes the next option, and answers the words behind it.
    fn take(&mut self, words: &'a [String]) -> Option<&'a [String]> {
        let [name, behind @ ..] = words else {
            return None;
        };
        let name = name.as_str().as_bytes();
        if let Some(kind) = self.flag(name) {
            self.once(kind)?;
            return Some(behind);
        }
        let [value, behind @ ..] = behind else {
            return None;
        };
        let kind = self.value(name, value.as_str().as_bytes())?;
        self.once(kind)?;
        Some(behind)
    }

    /// An option of one word, if it is one of this view.
    fn flag(&mut self, name: &[u8]) -> Option<OptionKind> {
        let view = self.command.view;
        if name == b"--flow".as_slice() && view == ViewName::Words {
            self.command.view = ViewName::Flow;
            Some(OptionKind::Flow)
        } else if name == b"--dot".as_slice() && view == ViewName::Map {
            self.command.is_dot = true;
            Some(OptionKind::Dot)
        } else if name == b"--tables".as_slice() && view == ViewName::Map {
            self.command.has_tables = true;
            Some(OptionKind::Tables)
        } else {
            None
        }
    }

    /// An option with a value, if it is one of this view.
    fn value(&mut self, name: &[u8], value: &'a [u8]) -> Option<OptionKind> {
        if name == b"--lines".as_slice() && self.command.view.has_lines() {
            self.command.part.lines = lines_of(value)?;
            Some(OptionKind::Lines)
        } else if name == b"--link".as_slice() && self.command.view.has_ports() {
            self.command.part.ports = ChosenPorts::Link(value);
            Some(OptionKind::Ports)
        } else if name == b"--port".as_slice() && self.command.view.has_ports() {
            self.command.part.ports = ChosenPorts::Port(value);
            Some(OptionKind::Ports)
        } else if self.command.view == ViewName::Ladder {
            self.event(name, value)
        } else {
            None
        }
    }

    /// The first or the last event of a ladder.
    fn event(&mut self, name: &[u8], value: &[u8]) -> Option<OptionKind> {
        let number = read_number(value)?;
        if name == b"--from".as_slice() {
            self.command.events.from = number;
            Some(OptionKind::From)
        } else if name == b"--to".as_slice() {
            self.command.events.to = number;
            Some(OptionKind::To)
        } else {
            None
        }
    }

    /// Notes an option, unless it came before.
    fn once(&mut self, kind: OptionKind) -> Option<()> {
        let seen = self.seen.get_mut(kind as usize)?;
        if *seen {
            return None;
        }
        *seen = true;
        Some(())
    }
}

/// The lines that `N-M` or `N` names.
fn lines_of(word: &[u8]) -> Option<LineRange> {
    let place = word.iter().position(|byte| *byte == b'-');
    let (first, last) = match place {
        Some(place) => {
            let (first, last) = word.split_at(place);
            (read_number(first)?, read_number(last.get(1..)?)?)
        }
        None => (read_number(word)?, read_number(word)?),
    };
    (first > 0 && first <= last).then_some(LineRange { first, last })
}
