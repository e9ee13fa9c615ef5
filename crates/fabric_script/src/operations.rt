//! What a line asks of a fabric.

ghost use Rattle.std.specs.Prelude.{◌≡◌, false, MatchOption};
ghost use Rattle.fabric_script.specs.Operations.{IsOperation, line_for, line_editing, acts_at_link, edit_of, edits_wire};

use crate::given_packets::GivenPacket;
use crate::lines::Line;
use crate::ports::PortRef;
use rio_chars::Edit;

/// What a line asks of a fabric.
#[derive(Clone, Copy, Debug)]
pub enum Operation<'a> {
    /// It sets the fabric up.
    SetUp,
    /// An endpoint is given a packet.
    Give(GivenPacket<'a>),
    /// The link of a port does something.
    AtLink(PortRef, Action),
    /// What a port has sent is changed.
    Edit(PortRef, Edit),
    /// A switch makes one step.
    Move(u8),
    /// An endpoint gives out the packet that is next.
    Collect(u8),
    /// Every link settles and every switch steps, so many times.
    Run(u32),
}

/// What the link of a port does.
#[derive(Clone, Copy, Debug)]
pub enum Action {
    /// The port takes so many turns to send.
    Pump(u32),
    /// The peer takes so many characters of what the port has sent.
    Deliver(u32),
    /// The time-out of the port fires.
    TimeOut,
    /// The link carries what waits, both ways.
    Settle,
}

impl Line {
    /// What the line asks of a fabric.
    pub fn operation(&self) -> Operation<'_>
        ensures { IsOperation self.now result }
    {
        if let Some(given) = self.gives() {
            return Operation::Give(given);
        }
        if let Some((port, action)) = self.at_link() {
            return Operation::AtLink(port, action);
        }
        if let Some((port, edit)) = self.wire_edit() {
            return Operation::Edit(port, edit);
        }
        match self {
            Line::Move { node } => Operation::Move(*node),
            Line::Collect { node } => Operation::Collect(*node),
            Line::Run { n } => Operation::Run(*n),
            _ => Operation::SetUp,
        }
    }

    /// What the line asks of the link of a port, if it asks something of one.
    fn at_link(&self) -> Option<(PortRef, Action)>
        ensures { MatchOption result
            (acts_at_link self.now ≡ false)
            (λ asked. self.now ≡ line_for asked.0 asked.1) }
    {
        match self {
            Line::Pump { port, n } => Some((*port, Action::Pump(*n))),
            Line::Deliver { port, n } => Some((*port, Action::Deliver(*n))),
            Line::Timeout { port } => Some((*port, Action::TimeOut)),
            Line::Settle { port } => Some((*port, Action::Settle)),
            _ => None,
        }
    }

    /// The change of what a port has sent that the line asks for, if it asks for one.
    pub fn wire_edit(&self) -> Option<(PortRef, Edit)>
        ensures edit { result ≡ edit_of self.now }
        ensures asked { MatchOption result
            (edits_wire self.now ≡ false)
            (λ asked. self.now ≡ line_editing asked.0 asked.1) }
    {
        let (port, edit) = match *self {
            Line::Alter { port, place, ch } => (port, Edit::Alter { place, ch }),
            Line::Insert { port, place, ch } => (port, Edit::Insert { place, ch }),
            Line::Erase { port, place, n } => (port, Edit::Erase { place, count: n }),
            _ => return None,
        };
        Some((port, edit))
    }

    /// The line that changes what a port has sent in this way.
    pub fn editing(port: PortRef, edit: &Edit) -> Line
        ensures { result ≡ line_editing port edit.now }
    {
        match *edit {
            Edit::Alter { place, ch } => Line::Alter { port, place, ch },
            Edit::Insert { place, ch } => Line::Insert { port, place, ch },
            Edit::Erase { place, count } => Line::Erase {
                port,
                place,
                n: count,
            },
        }
    }
}
